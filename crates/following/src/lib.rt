// Rows followed by the parts of a name: what a row does to the row that was found last.
#![tactic(auto)]

ghost use Rattle.std.specs.Prelude.{◌≡◌, ◌*◌, ◌≤◌, length};
ghost use Rattle.following.specs.inner.Keys.{key_words};
ghost use Rattle.following.specs.inner.Following.{is_at, step_of};

use sheet::declaration::Declaration;

// After a row: how far the open messages are the name's parts, whether the row that was taken last counts, and whether this one is taken.
#[derive(Clone, Copy)]
pub struct Step {
    pub matched: usize,
    pub counts: bool,
    pub takes: bool,
}

// Whether a record is listed by the declaration at that place of the sheet.
#[tactic(auto, using(crate::proofs::FollowLaws::follow_laws))]
fn is_at(place: usize, by: Option<Declaration>) -> bool
    ensures { result ≡ is_at place by }
{
    match by {
        None => false,
        Some(d) => d.name.from == place,
    }
}

// What is followed after a row of that level, which `by` lists.
#[tactic(auto, using(crate::proofs::FollowLaws::follow_laws))]
pub fn follow(
    keys: &[usize],
    count: usize,
    matched: usize,
    counts: bool,
    level: usize,
    by: Option<Declaration>,
) -> Step
    requires { count * key_words ≤ length keys.now }
    ensures { result ≡ step_of keys.now count matched counts level by }
{
    if matched < level {
        return Step {
            matched: matched,
            counts: counts,
            takes: false,
        };
    }
    let shut = Step {
        matched: level,
        counts: counts,
        takes: false,
    };
    if count <= level {
        return shut;
    }
    if !is_at(keys[level * 2], by) {
        return shut;
    }
    if level + 1 == count {
        return Step {
            matched: level,
            counts: true,
            takes: true,
        };
    }
    if keys[level * 2 + 1] != 0 {
        return Step {
            matched: level + 1,
            counts: counts,
            takes: false,
        };
    }
    Step {
        matched: level + 1,
        counts: false,
        takes: false,
    }
}
