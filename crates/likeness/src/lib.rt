// Whether a declaration of a sheet is like another one, and for the message asked for.
#![tactic(auto)]

ghost use Rattle.std.specs.Prelude.{◌≡◌, ◌&&◌, ◌≤◌, eqb};
ghost use Rattle.octets.specs.Octets.{same_bytes};
ghost use Rattle.field.specs.Leaf.{Lies, text};
ghost use Rattle.sheet.specs.Declaration.{extension_at, message_field_at};
ghost use Rattle.likeness.specs.inner.Likes.{Placed, is_like, extension_likes, field_likes, declared_likes};

use field::Span;
use named::extends;
use octets::same;
use sheet::declaration::{Declaration, extension_at, message_field_at};

// A declaration of another sheet, or of the same, and whether one that is like it has to have its type, name and type path besides its
// number.
#[derive(Clone, Copy)]
pub struct Like {
    pub declaration: Declaration,
    pub whole: bool,
}

// How a scope stands to a message, by their full names: it is that message; that may stand in it, its full name going on at a place; or
// neither.
#[derive(Clone, Copy)]
pub enum Way {
    Own,
    Within(usize),
    Off,
}

// Whether two spans, each of its own bytes, are the same text.
fn same_text(s: &[u8], p: Span, o: &[u8], q: Span) -> bool
    requires lies { Lies p s.now }
    requires lies_2 { Lies q o.now }
    ensures { result ≡ same_bytes (text s.now p) (text o.now q) }
{
    let from = p.from;
    let to = p.to;
    let a = q.from;
    let e = q.to;
    same(&s[from..to], &o[a..e])
}

// Whether two declarations, each of its own sheet, have one type, name and type path.
#[tactic(auto, using(crate::proofs::LikenessLaws::same_whole_laws))]
fn same_whole(s: &[u8], d: Declaration, o: &[u8], e: Declaration) -> bool
    requires lies { Lies d.name s.now }
    requires lies_2 { Lies d.shape.path s.now }
    requires lies_3 { Lies e.name o.now }
    requires lies_4 { Lies e.shape.path o.now }
    ensures { result ≡ (eqb e.shape.typ d.shape.typ
        && same_bytes (text o.now e.name) (text s.now d.name)
        && same_bytes (text o.now e.shape.path) (text s.now d.shape.path)) }
{
    if e.shape.typ == d.shape.typ {
        if same_text(o, e.name, s, d.name) {
            return same_text(o, e.shape.path, s, d.shape.path);
        }
    }
    false
}

// Whether the declaration d of s is like that of o.
#[tactic(auto, using(crate::proofs::LikenessLaws::is_like_laws))]
fn is_like(s: &[u8], d: Declaration, o: &[u8], like: Like) -> bool
    requires lies { Lies d.name s.now }
    requires lies_2 { Lies d.shape.path s.now }
    requires placed { Placed o.now like }
    ensures { result ≡ is_like like o.now s.now d }
{
    if like.declaration.shape.number != d.shape.number {
        return false;
    }
    if !like.whole {
        return true;
    }
    same_whole(s, d, o, like.declaration)
}

// 1 where a scope stands so to the message that it is that, and the field that a payload says of is like it.
#[tactic(auto, using(crate::proofs::LikenessLaws::in_field_laws))]
pub fn in_field(s: &[u8], item: Span, way: Way, o: &[u8], like: Like) -> usize
    requires lies { Lies item s.now }
    requires placed { Placed o.now like }
    ensures { (result ≡ declared_likes (field_likes like o.now s.now way)
        (message_field_at s.now item.from item.to)) × (result ≤ 1) }
{
    match way {
        Way::Own => {}
        Way::Within(_) => return 0,
        Way::Off => return 0,
    }
    let Some(d) = message_field_at(s, item.from, item.to) else {
        return 0;
    };
    if is_like(s, d, o, like) { 1 } else { 0 }
}

// 1 where the extension that a payload says of is one of the message and is like it.
#[tactic(auto, using(crate::proofs::LikenessLaws::in_extension_laws))]
pub fn in_extension(s: &[u8], item: Span, message: &[u8], o: &[u8], like: Like) -> usize
    requires lies { Lies item s.now }
    requires placed { Placed o.now like }
    ensures { (result ≡ declared_likes (extension_likes message.now like o.now s.now)
        (extension_at s.now item.from item.to)) × (result ≤ 1) }
{
    let Some(d) = extension_at(s, item.from, item.to) else {
        return 0;
    };
    if extends(s, message, d) {
        if is_like(s, d, o, like) {
            return 1;
        }
    }
    0
}
