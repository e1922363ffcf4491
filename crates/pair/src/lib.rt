// The pairs of a message constant, read on every byte string; no characters are tested.
#![tactic(auto)]

ghost use Rattle.std.specs.Prelude.{◌≡◌, ◌≤◌, length};
ghost use Rattle.request.specs.Constant.{is_pair_name};
ghost use Rattle.pair.specs.inner.Pair.{pair_at};

use field::{Span, field_at};
use request::table;

// A pair of a message constant: its name, by a field (27), an extension path (28) or a type URL (29), and the field of its constant.
#[derive(Clone, Copy)]
pub struct Pair {
    pub by: u8,
    pub name: Span,
    pub tag: u8,
    pub constant: Span,
}

// Whether the tag is that of a pair's name.
#[tactic(auto, using(crate::proofs::PairLaws::pair_name_is))]
fn is_pair_name(tag: u8) -> bool
    ensures { result ≡ is_pair_name tag }
{
    (table::PAIR_FIELD <= tag) & (tag <= table::PAIR_URL)
}

// The pair at a place; the next one starts where its constant ends.
#[tactic(auto, using(crate::proofs::PairLaws::pair_laws), unfolding(crate::specs::inner::Pair::pair_at))]
pub fn pair_at(s: &[u8], at: usize, end: usize) -> Option<Pair>
    requires { (at ≤ end) × (end ≤ length s.now) }
    ensures { result ≡ pair_at s.now at end }
{
    let name = field_at(s, at, end)?;
    if !is_pair_name(name.tag) {
        return None;
    }
    let constant = field_at(s, name.to, end)?;
    Some(Pair {
        by: name.tag,
        name: Span {
            from: name.from,
            to: name.to,
        },
        tag: constant.tag,
        constant: Span {
            from: constant.from,
            to: constant.to,
        },
    })
}
