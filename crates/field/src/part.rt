// Parts of lent bytes that are handed back: a span of the bytes, and no bytes.
ghost use Rattle.std.specs.Prelude.{◌≡◌};
ghost use Rattle.field.specs.Part.{PartOf, no_bytes, span_in};

use crate::Span;

// No bytes, at the start of these.
#[tactic(auto, using(crate::proofs::PartLaws::part_laws))]
pub fn none_of(s: &[u8]) -> &[u8]
    ensures { PartOf no_bytes s.now s.entry.ref_ptr.0 s.entry.ref_ptr.1 result.now result.ref_ptr.0 result.ref_ptr.1 }
{
    let start = 0;
    &s[start..start]
}

// A span, where it is one of the bytes.
#[tactic(auto, using(crate::proofs::PartLaws::part_laws))]
pub fn span_in(s: &[u8], p: Span) -> Option<Span>
    ensures { result ≡ span_in s.now p }
{
    if (p.from <= p.to) & (p.to <= s.len()) {
        return Some(Span {
            from: p.from,
            to: p.to,
        });
    }
    None
}
