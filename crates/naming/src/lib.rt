// The parts of a name as declarations, no option byte being read: of each its place in the sheet, and whether its records are joined.
#![tactic(auto)]

ghost use Rattle.std.specs.Prelude.{◌≡◌, ◌+◌, ◌*◌, ◌≤◌, [], ◌∷◌, length};
ghost use Rattle.basis.specs.Kit.{sets};
ghost use Rattle.basis.specs.First.{only_if};
ghost use Rattle.field.specs.Leaf.{Lies};
ghost use Rattle.field.specs.Walk.{walk};
ghost use Rattle.request.specs.Name.{parts_in};
ghost use Rattle.scope.specs.inner.Answers.{InSheet};
ghost use Rattle.lookups.specs.Lookups.{walking};
ghost use Rattle.steps.specs.inner.Reached.{message as message_of, StepLies};
ghost use Rattle.naming.specs.Name.{declarations};
ghost use Rattle.following.specs.Reached.{never};
ghost use Rattle.following.specs.inner.Keys.{key_words};
ghost use Rattle.naming.specs.inner.Naming.{Declares, Namable, behind_part, step_part};

use reply::{Cause, Where};
use request::name::{Part, part_at};
use scope::lookup::LookupScope;
use sheet::declaration::Declaration;
use steps::{Lack, Reach, behind, step_of, why_of};

// What a name comes to: so many parts, whose keys were noted; or that parts are left on a group.
#[derive(Clone, Copy)]
pub enum Naming {
    Parts(usize),
    Group,
}

// Whether all records of a declaration count, in order, as one message. Today none do: the last one holds.
fn joins(d: Declaration) -> bool
    ensures { result ≡ never d }
{
    false
}

// The key of a part, noted.
#[tactic(auto, using(crate::proofs::KeyLaws::note_laws))]
fn note_key(keys: &mut [usize], index: usize, d: Declaration)
    requires { index * key_words + key_words ≤ length keys.old }
    ensures { keys.new ≡ sets keys.old (index * key_words) (d.name.from ∷ only_if (never d) 1 0 ∷ []) }
{
    keys[index * 2] = d.name.from;
    keys[index * 2 + 1] = joins(d) as usize;
}

// What the parts behind the one at `index` come to, which came to this declaration and ends at `from`.
#[cycle(declare_declare_behind_declare_step)]
#[tactic(auto, using(crate::proofs::NameLaws::declare_behind_laws))]
fn declare_behind(
    sheet: &[u8],
    name: &[u8],
    scope: &[u8],
    d: Declaration,
    from: usize,
    index: u32,
    keys: &mut [usize],
) -> Result<Naming, Cause>
    requires lies { Lies d.shape.path sheet.now }
    requires namable { Namable name.now scope.now from (index + 1) keys.old }
    ensures { Declares never (behind_part (walking sheet.now) sheet.now name.now index d
        (parts_in (walk name.now from (length name.now)))) (index + 1) keys.old keys.new result }
{
    let next = index + 1;
    match behind(sheet, name, d.shape, from, name.len()) {
        Ok(Reach::Constant { shape: _, from: _ }) => Ok(Naming::Parts(next as usize)),
        Ok(Reach::Nothing) => Ok(Naming::Group),
        Err(why) => {
            let place = Where::Part(index);
            Err(Cause { why, place })
        }
        Ok(
            Reach::Inside {
                shape,
                place,
                from: rest,
            },
        ) => {
            let a = shape.path.from;
            let e = shape.path.to;
            declare(sheet, name, scope, &sheet[a..e], place, rest, next, keys)
        }
    }
}

// What the part at `index`, which came to `step` and ends at `from`, comes to with the parts behind it.
#[cycle(declare_declare_behind_declare_step)]
#[tactic(auto, using(crate::proofs::NameLaws::declare_step_laws))]
fn declare_step(
    sheet: &[u8],
    name: &[u8],
    scope: &[u8],
    step: Result<Declaration, Lack>,
    from: usize,
    index: u32,
    keys: &mut [usize],
) -> Result<Naming, Cause>
    requires step_lies { StepLies sheet.now step }
    requires namable { Namable name.now scope.now from (index + 1) keys.old }
    ensures { Declares never (step_part (walking sheet.now) sheet.now name.now index step
        (parts_in (walk name.now from (length name.now)))) index keys.old keys.new result }
{
    match step {
        Err(lack) => Err(Cause {
            why: why_of(lack),
            place: Where::Part(index),
        }),
        Ok(d) => {
            note_key(keys, index as usize, d);
            declare_behind(sheet, name, scope, d, from, index, keys)
        }
    }
}

// The parts of a name from a place on, the one at `index` first, in the message of that name and place; or why they
// come to none, and at which part.
#[cycle(declare_declare_behind_declare_step)]
#[tactic(auto, using(crate::proofs::NameLaws::declare_laws))]
pub fn declare(
    sheet: &[u8],
    name: &[u8],
    scope: &[u8],
    message: &[u8],
    place: LookupScope,
    from: usize,
    index: u32,
    keys: &mut [usize],
) -> Result<Naming, Cause>
    requires in_sheet { InSheet sheet.now place }
    requires namable { Namable name.now scope.now from index keys.old }
    ensures { Declares never (declarations (walking sheet.now) sheet.now name.now index
        (message_of message.now place) (parts_in (walk name.now from (length name.now)))) index
        keys.old keys.new result }
{
    let Some(part) = part_at(name, from, name.len()) else {
        return Ok(Naming::Parts(index as usize));
    };
    let step = step_of(sheet, name, scope, message, place, part);
    declare_step(sheet, name, scope, step, part.name.to, index, keys)
}
