// Extensions, fields and enum values, as they are written: their leaves in order, each of its size, and nothing after them.
ghost use Rattle.std.specs.Prelude.{◌≡◌, ◌≤◌, length};
ghost use Rattle.sheet.specs.Declaration.{has_type_path, type_path_at, shape_at, extension_at, message_field_at, value_at};

use crate::table;
use field::{Span, leaf_at, sized_at};
use types::{TYPE_ENUM, TYPE_GROUP, TYPE_MESSAGE};

// What an extension and a field have after their names.
#[derive(Clone, Copy)]
pub struct Shape {
    pub number: u32,
    pub typ: u8,
    pub label: u8,
    // The path of the type; 0 and 0 where the type has none.
    pub path: Span,
}

// An extension or a field.
#[derive(Clone, Copy)]
pub struct Declaration {
    pub name: Span,
    // 0 and 0 for a field.
    pub extendee: Span,
    pub shape: Shape,
}

// A value of an enum; of its signed number the 32 bits.
#[derive(Clone, Copy)]
pub struct Value {
    pub name: Span,
    pub number: u32,
}

// Whether the type is a group, a message or an enum, which have a type path.
#[tactic(auto, using(crate::proofs::ShapeLaws::has_type_path_is))]
pub fn has_type_path(typ: usize) -> bool
    ensures { result ≡ has_type_path typ }
{
    (typ == TYPE_GROUP) | (typ == TYPE_MESSAGE) | (typ == TYPE_ENUM)
}

// The type path where the type has one, and nothing after it.
#[tactic(auto, using(crate::proofs::ShapeLaws::type_path_laws))]
fn type_path_at(s: &[u8], at: usize, end: usize, typ: u8) -> Option<Span>
    requires { (at ≤ end) × (end ≤ length s.now) }
    ensures { result ≡ type_path_at typ s.now at end }
{
    if !has_type_path(typ as usize) {
        if at != end {
            return None;
        }
        return Some(Span { from: 0, to: 0 });
    }
    let path = leaf_at(s, at, end, table::TYPE_PATH)?;
    if path.to != end {
        return None;
    }
    Some(path)
}

// Number, type, label and type path, from a place on.
#[tactic(auto, using(crate::proofs::ShapeLaws::shape_laws, field::proofs::LeafLaws::size_laws), unfolding(crate::specs::Declaration::shape_at))]
fn shape_at(s: &[u8], at: usize, end: usize) -> Option<Shape>
    requires { (at ≤ end) × (end ≤ length s.now) }
    ensures { result ≡ shape_at s.now at end }
{
    let number = sized_at(s, at, end, table::NUMBER, 4)?;
    let kind = sized_at(s, number.to, end, table::TYPE, 1)?;
    let label = sized_at(s, kind.to, end, table::LABEL, 1)?;
    let typ = s[kind.from];
    let path = type_path_at(s, label.to, end, typ)?;
    Some(Shape {
        number: octets::u32_at(s, number.from),
        typ: typ,
        label: s[label.from],
        path,
    })
}

// The extension whose payload is from..to.
#[tactic(auto, using(crate::proofs::DeclarationLaws::extension_laws), unfolding(crate::specs::Declaration::extension_at))]
pub fn extension_at(s: &[u8], from: usize, to: usize) -> Option<Declaration>
    requires { (from ≤ to) × (to ≤ length s.now) }
    ensures { result ≡ extension_at s.now from to }
{
    let name = leaf_at(s, from, to, table::NAME)?;
    let extendee = leaf_at(s, name.to, to, table::EXTENDEE)?;
    let shape = shape_at(s, extendee.to, to)?;
    Some(Declaration {
        name: name,
        extendee: extendee,
        shape: shape,
    })
}

// The field of a message whose payload is from..to.
#[tactic(auto, using(crate::proofs::DeclarationLaws::field_laws))]
pub fn message_field_at(s: &[u8], from: usize, to: usize) -> Option<Declaration>
    requires { (from ≤ to) × (to ≤ length s.now) }
    ensures { result ≡ message_field_at s.now from to }
{
    let name = leaf_at(s, from, to, table::NAME)?;
    let shape = shape_at(s, name.to, to)?;
    Some(Declaration {
        name: name,
        extendee: Span { from: 0, to: 0 },
        shape: shape,
    })
}

// The enum value whose payload is from..to.
#[tactic(auto, using(crate::proofs::DeclarationLaws::value_laws), unfolding(crate::specs::Declaration::value_at))]
pub fn value_at(s: &[u8], from: usize, to: usize) -> Option<Value>
    requires { (from ≤ to) × (to ≤ length s.now) }
    ensures { result ≡ value_at s.now from to }
{
    let name = leaf_at(s, from, to, table::NAME)?;
    let number = sized_at(s, name.to, to, table::SIGNED_NUMBER, 4)?;
    if number.to != to {
        return None;
    }
    Some(Value {
        name: name,
        number: octets::u32_at(s, number.from),
    })
}
