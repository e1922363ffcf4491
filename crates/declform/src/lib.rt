// Extensions, fields and enum values: each leaf holds what 01 allows it.
#![tactic(auto)]

ghost use Rattle.std.specs.Prelude.{◌≡◌, ◌≤◌, length};
ghost use Rattle.field.specs.Leaf.{Lies};
ghost use Rattle.declform.specs.Declarations.{in_range, good_type_path, good_shape, good_field, is_extension, is_field, is_value};

use ident::protobuf_ident::is_ident;
use limits::{MOST_LABEL, MOST_NUMBER, MOST_TYPE};
use path::protobuf_rel_path::is_rel_path;
use sheet::declaration::{Declaration, Shape, has_type_path};

// Whether a number is 1 to `most`.
fn in_range(n: u64, most: u64) -> bool
    ensures { result ≡ in_range n most }
{
    (1 <= n) & (n <= most)
}

// Whether the type path, where the type has one, is a path.
#[tactic(auto, using(crate::proofs::DeclarationLaws::type_path_laws))]
fn good_type_path(s: &[u8], h: Shape) -> bool
    requires { Lies h.path s.now }
    ensures { result ≡ good_type_path s.now h }
{
    if !has_type_path(h.typ as usize) {
        return true;
    }
    is_rel_path(&s[h.path.from..h.path.to])
}

// Whether number, type and label are in their ranges, and the type path is a path.
#[tactic(auto, using(crate::proofs::DeclarationLaws::shape_is))]
fn good_shape(s: &[u8], h: Shape) -> bool
    requires { Lies h.path s.now }
    ensures { result ≡ good_shape s.now h }
{
    in_range(h.number as u64, MOST_NUMBER)
        & in_range(h.typ as u64, MOST_TYPE as u64)
        & in_range(h.label as u64, MOST_LABEL as u64)
        & good_type_path(s, h)
}

// Whether the name is an identifier, and the shape is good.
#[tactic(auto, using(crate::proofs::DeclarationLaws::good_field_is))]
fn good_field(s: &[u8], d: Declaration) -> bool
    requires { Lies d.name s.now × Lies d.shape.path s.now }
    ensures { result ≡ good_field s.now d }
{
    is_ident(&s[d.name.from..d.name.to]) & good_shape(s, d.shape)
}

// Whether from..to is the payload of a field.
#[tactic(auto, using(crate::proofs::DeclarationLaws::is_field_laws))]
pub fn is_field(s: &[u8], from: usize, to: usize) -> bool
    requires { (from ≤ to) × (to ≤ length s.now) }
    ensures { result ≡ is_field s.now from to }
{
    let Some(d) = sheet::declaration::message_field_at(s, from, to) else {
        return false;
    };
    good_field(s, d)
}

// Whether from..to is the payload of an extension.
#[tactic(auto, using(crate::proofs::DeclarationLaws::is_extension_laws))]
pub fn is_extension(s: &[u8], from: usize, to: usize) -> bool
    requires { (from ≤ to) × (to ≤ length s.now) }
    ensures { result ≡ is_extension s.now from to }
{
    let Some(d) = sheet::declaration::extension_at(s, from, to) else {
        return false;
    };
    is_rel_path(&s[d.extendee.from..d.extendee.to]) & good_field(s, d)
}

// Whether from..to is the payload of an enum value.
#[tactic(auto, using(crate::proofs::DeclarationLaws::is_value_laws))]
pub fn is_value(s: &[u8], from: usize, to: usize) -> bool
    requires { (from ≤ to) × (to ≤ length s.now) }
    ensures { result ≡ is_value s.now from to }
{
    let Some(v) = sheet::declaration::value_at(s, from, to) else {
        return false;
    };
    is_ident(&s[v.name.from..v.name.to])
}
