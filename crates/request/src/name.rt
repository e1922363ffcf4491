// The parts of an option's name.
ghost use Rattle.std.specs.Prelude.{◌≡◌, ◌≤◌, length};
ghost use Rattle.request.specs.Name.{part_at};

use crate::table;
use field::{Field, Span, field_at};

// One part: a field of the message that is reached, or an extension of it.
#[derive(Clone, Copy)]
pub struct Part {
    pub extension: bool,
    pub name: Span,
}

// The part at a place; the next one starts where its name ends.
#[tactic(auto, using(crate::proofs::PartLaws::part_laws))]
pub fn part_at(s: &[u8], at: usize, end: usize) -> Option<Part>
    requires { (at ≤ end) × (end ≤ length s.now) }
    ensures { result ≡ part_at s.now at end }
{
    let field = field_at(s, at, end)?;
    if field.tag == table::DIRECT_PART {
        return Some(Part {
            extension: false,
            name: Span {
                from: field.from,
                to: field.to,
            },
        });
    }
    if field.tag == table::EXTENSION_PART {
        return Some(Part {
            extension: true,
            name: Span {
                from: field.from,
                to: field.to,
            },
        });
    }
    None
}
