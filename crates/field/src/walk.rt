// A walk over the fields between two places, one after the other.
ghost use Rattle.std.specs.Prelude.{◌≡◌, ◌≤◌, ◌-◌, length};
ghost use Rattle.std.specs.Iterator.{at_most};
ghost use Rattle.field.specs.Fields.{behind, Gives};

use crate::fields::Fields;
use crate::{Field, field_at};

// Where the fields go on behind this one: behind no whole field nothing is left.
fn behind(found: Option<Field>, end: usize) -> usize
    ensures { result ≡ behind end found }
{
    match found {
        Some(field) => field.to,
        None => end,
    }
}

impl<'s> Fields<'s> {
    pub fn between(bytes: &'s [u8], at: usize, end: usize) -> Self
        requires { (at ≤ end) × (end ≤ length bytes.now) }
        ensures { (result.bytes.now ≡ bytes.now) × (result.at ≡ at) × (result.end ≡ end) }
    {
        Fields { bytes, at, end }
    }
}

impl<'s> Iterator for Fields<'s> {
    type Item = Option<Field>;

    ghost next_gives = { Gives };

    ghost remaining = { λ fields. at_most (fields.end - fields.at) };

    #[tactic(auto, using(crate::proofs::BehindLaws::behind_laws))]
    fn next(&mut self) -> Option<Option<Field>> {
        if self.at == self.end {
            return None;
        }
        let found = field_at(self.bytes, self.at, self.end);
        self.at = behind(found, self.end);
        Some(found)
    }
}
