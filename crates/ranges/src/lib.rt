// 01's lowering of ranges: of extensions, of reserved numbers of a message, of reserved numbers of an enum. The ranges are written once
// over nothing, which finds an end without a successor and the length, and then over the lent memory, so that a refusal writes nothing and
// NoRoom comes last.
#![tactic(auto)]

ghost use Rattle.std.specs.Prelude.{◌≡◌, [], ◌∷◌, ◌%◌, ◌^◌, ◌<◌, length};
ghost use Rattle.basis.specs.Kit.{sets};
ghost use Rattle.reply.specs.Outcome.{Answered};
ghost use Rattle.ranges.specs.Ranges.{end_of, pairs, lower_ranges};
ghost use Rattle.emit.specs.inner.Puts.{Puts};

use limits::MOST_WORDS;
use octets::put;
use reply::{Answer, Cause, Refusal};

// The kind whose ends stay: an enum's reserved ranges include them. A number and no enum: C passes it (`opt_ranges`).
const ENUM_RESERVED: u32 = 2;

// A range of a descriptor ends before its end, but for an enum's; the largest word has no successor.
#[tactic(auto, using(crate::proofs::EndLaws::end_laws))]
fn end_of(kind: u32, end: i32) -> Option<i32>
    ensures { result ≡ end_of kind end }
{
    if kind == ENUM_RESERVED {
        return Some(end);
    }
    if end == i32::MAX {
        return None;
    }
    Some(end + 1)
}

// A start and an end, likewise.
#[tactic(auto, using(crate::proofs::RangeLaws::range_put))]
fn put_range(out: &mut [i32], at: usize, start: i32, end: i32)
    requires { at < 2 ^ 63 }
    ensures { out.new ≡ sets out.old at (start ∷ end ∷ []) }
{
    put(out, at, start);
    put(out, at + 1, end);
}

// The lowered ranges from the front on, as far as there is room.
fn put_ranges(kind: u32, words: &[i32], out: &mut [i32]) -> Result<usize, Cause>
    requires { length words.now % 2 ≡ 0 }
    ensures { Puts (pairs kind words.now) 0 out.old out.new result }
{
    let mut i = 0;
    while i < words.len() {
        let start = words[i];
        let end = words[i + 1];
        let Some(next) = end_of(kind, end) else {
            return Err(reply::bare(Refusal::RangeEnd));
        };
        put_range(out, i, start, next);
        i += 2;
    }
    Ok(i)
}

// The ranges of a kind, as 01's lowering has them.
#[tactic(auto, using(crate::proofs::RangeLaws::ranges_laws), unfolding(crate::specs::Ranges::lower_ranges))]
pub fn lower_ranges(kind: u32, words: &[i32], out: &mut [i32]) -> Answer
    ensures { Answered (lower_ranges kind words.now) out.old out.new result }
{
    if ENUM_RESERVED < kind {
        return reply::refused(Refusal::BadRequest);
    }
    if MOST_WORDS < words.len() {
        return reply::refused(Refusal::BeyondLimit);
    }
    if words.len() % 2 == 1 {
        return reply::refused(Refusal::BadRequest);
    }
    match put_ranges(kind, words, &mut out[..0]) {
        Err(cause) => reply::refused_for(cause),
        Ok(n) => {
            if out.len() < n {
                return reply::refused(Refusal::NoRoom);
            }
            let _ = put_ranges(kind, words, out);
            reply::done(n as u32)
        }
    }
}
