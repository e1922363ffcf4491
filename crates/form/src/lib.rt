// Fields that hold one name: of one tag, with an identifier or a path as their payload.
#![tactic(auto)]

ghost use Rattle.std.specs.Prelude.{◌≡◌, ◌≤◌, length};
ghost use Rattle.field.specs.Leaf.{leaf_at};
ghost use Rattle.ident.specs.Ident.{is_ident};
ghost use Rattle.path.specs.Path.{is_rel_path, is_rel_or_empty};

use field::{Span, leaf_at};

// A single identifier.
#[tactic(auto, using(crate::proofs::NameLaws::name_laws))]
pub fn ident_at(s: &[u8], at: usize, end: usize, tag: u8) -> Option<Span>
    requires { (at ≤ end) × (end ≤ length s.now) }
    ensures { result ≡ leaf_at tag is_ident s.now at end }
{
    let place = leaf_at(s, at, end, tag)?;
    if !ident::protobuf_ident::is_ident(&s[place.from..place.to]) {
        return None;
    }
    Some(place)
}

// A path with no leading dot, and not empty.
#[tactic(auto, using(crate::proofs::NameLaws::name_laws))]
pub fn rel_path_at(s: &[u8], at: usize, end: usize, tag: u8) -> Option<Span>
    requires { (at ≤ end) × (end ≤ length s.now) }
    ensures { result ≡ leaf_at tag is_rel_path s.now at end }
{
    let place = leaf_at(s, at, end, tag)?;
    if !path::protobuf_rel_path::is_rel_path(&s[place.from..place.to]) {
        return None;
    }
    Some(place)
}

// A path with no leading dot, or empty.
#[tactic(auto, using(crate::proofs::NameLaws::name_laws))]
pub fn rel_or_empty_at(s: &[u8], at: usize, end: usize, tag: u8) -> Option<Span>
    requires { (at ≤ end) × (end ≤ length s.now) }
    ensures { result ≡ leaf_at tag is_rel_or_empty s.now at end }
{
    let place = leaf_at(s, at, end, tag)?;
    if !path::protobuf_rel_path::is_rel_or_empty(&s[place.from..place.to]) {
        return None;
    }
    Some(place)
}
