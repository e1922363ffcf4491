// The field that is due at a place of the input, or why it is not there.
ghost use Rattle.std.specs.Prelude.{◌≡◌, ◌≤◌, length};
ghost use Rattle.inputs.specs.inner.Due.{due_at, due_leaf};

use field::{Field, Span};

// What stands where a field of one tag is due.
#[derive(Clone, Copy)]
pub enum Due {
    // That field: its payload is from..to, and the next field starts at `to`.
    Here { from: usize, to: usize },
    // A field of this other tag.
    Other(u8),
    // A field that is cut.
    CutShort,
    // The end of the input.
    Ended,
}

#[tactic(auto, using(crate::proofs::DueLaws::due_laws))]
pub fn due_at(s: &[u8], at: usize, tag: u8) -> Due
    requires { at ≤ length s.now }
    ensures { result ≡ due_at tag s.now at }
{
    if at == s.len() {
        return Due::Ended;
    }
    let Some(field) = field::field_at(s, at, s.len()) else {
        return Due::CutShort;
    };
    if field.tag != tag {
        return Due::Other(field.tag);
    }
    Due::Here {
        from: field.from,
        to: field.to,
    }
}

// The field that was due, where it is there.
#[tactic(auto, using(crate::proofs::DueLaws::due_leaf_laws))]
pub fn due_leaf(due: Due) -> Option<Span>
    ensures { result ≡ due_leaf due }
{
    match due {
        Due::Here { from, to } => Some(Span { from: from, to: to }),
        Due::Other(_) => None,
        Due::CutShort => None,
        Due::Ended => None,
    }
}
