// The fields of a sheet or a request: a tag (1 byte), a length (2 bytes, the higher first), a payload.
#![tactic(auto)]

pub mod fields;
pub mod part;
pub mod walk;

ghost use Rattle.std.specs.Prelude.{◌≡◌, ◌≤◌, length};
ghost use Rattle.field.specs.Field.{field_at};
ghost use Rattle.field.specs.Leaf.{leaf_at, any_bytes, of_size};

// A whole field: its payload is from..to, and the next field starts at `to`.
#[derive(Clone, Copy)]
pub struct Field {
    pub tag: u8,
    pub from: usize,
    pub to: usize,
}

// A part of the bytes: those from a place up to another.
#[derive(Clone, Copy)]
pub struct Span {
    pub from: usize,
    pub to: usize,
}

// The bytes of a field before its payload.
const HEADER: usize = 3;

// The field at a place, where its header and its payload end before `end`.
#[tactic(auto, using(crate::proofs::FieldLaws::field_laws))]
pub fn field_at(s: &[u8], at: usize, end: usize) -> Option<Field>
    requires { (at ≤ end) × (end ≤ length s.now) }
    ensures { result ≡ field_at s.now at end }
{
    if end - at < HEADER {
        return None;
    }
    let from = at + HEADER;
    let n = octets::u16_at(s, at + 1);
    if end - from < n {
        return None;
    }
    Some(Field {
        tag: s[at],
        from: from,
        to: from + n,
    })
}

// Where the payload of a field of this tag stands; the next field starts where it ends.
#[tactic(auto, using(crate::proofs::LeafLaws::leaf_any_laws))]
pub fn leaf_at(s: &[u8], at: usize, end: usize, tag: u8) -> Option<Span>
    requires { (at ≤ end) × (end ≤ length s.now) }
    ensures { result ≡ leaf_at tag any_bytes s.now at end }
{
    let field = field_at(s, at, end)?;
    if field.tag != tag {
        return None;
    }
    Some(Span {
        from: field.from,
        to: field.to,
    })
}

// The same of a payload that has this length.
#[tactic(auto, using(crate::proofs::LeafLaws::sized_laws))]
pub fn sized_at(s: &[u8], at: usize, end: usize, tag: u8, size: usize) -> Option<Span>
    requires { (at ≤ end) × (end ≤ length s.now) }
    ensures { result ≡ leaf_at tag (of_size size) s.now at end }
{
    let place = leaf_at(s, at, end, tag)?;
    if place.to - place.from != size {
        return None;
    }
    Some(place)
}
