// Option bytes as an input: whether they are too long, and the call `payload`, a part of them by its place and length with the answer
// beside it. `payload_part` and `payload_answer` give each of the two alone.
#![tactic(auto)]

ghost use Rattle.std.specs.Prelude.{◌≡◌};
ghost use Rattle.field.specs.Part.{PartOf};
ghost use Rattle.reply.specs.Verdicts.{Says};
ghost use Rattle.payload.specs.Payload.{judge_bytes, judge_payload, payload_span, payload_answer};

use field::part::none_of;
use limits::MOST_OPTION_BYTES;
use reply::{Answer, Refusal};

// Whether option bytes are not too long to read.
#[tactic(auto, using(crate::proofs::PayloadLaws::check_bytes_laws))]
pub fn check_bytes(bytes: &[u8]) -> Result<(), Refusal>
    ensures { Says (judge_bytes bytes.now) result }
{
    reply::judge(bytes.len() <= MOST_OPTION_BYTES, Refusal::BeyondLimit)
}

// A part of lent bytes with the answer beside it.
#[derive(Clone, Copy)]
pub struct AnsweredPart<'b> {
    pub answer: Answer,
    pub part: &'b [u8],
}

// Whether a place and a length lie in option bytes that are not too long.
#[tactic(auto, using(crate::proofs::PayloadLaws::place_laws), unfolding(crate::specs::Payload::judge_payload))]
fn check_place(bytes: &[u8], place: usize, length: usize) -> Result<(), Refusal>
    ensures { result ≡ judge_payload bytes.now place length }
{
    check_bytes(bytes)?;
    if bytes.len() < place {
        return Err(Refusal::BadRequest);
    }
    reply::judge(length <= bytes.len() - place, Refusal::BadRequest)
}

// The part of the option bytes that `payload` hands back, alone.
#[tactic(auto, using(crate::proofs::PayloadLaws::payload_laws), unfolding(crate::specs::Payload::payload_span))]
pub fn payload_part<'b>(bytes: &'b [u8], place: usize, length: usize) -> &'b [u8]
    ensures { PartOf (payload_span bytes.now place length)
        bytes.now bytes.entry.ref_ptr.0 bytes.entry.ref_ptr.1 result.now result.ref_ptr.0 result.ref_ptr.1 }
{
    if let Err(_) = check_place(bytes, place, length) {
        return none_of(bytes);
    }
    let end = place + length;
    &bytes[place..end]
}

// The answer of `payload`, alone.
#[tactic(auto, using(crate::proofs::PayloadLaws::payload_laws), unfolding(crate::specs::Payload::payload_answer))]
pub fn payload_answer(bytes: &[u8], place: usize, length: usize) -> Answer
    ensures { result ≡ payload_answer bytes.now place length }
{
    match check_place(bytes, place, length) {
        Err(why) => reply::refused(why),
        Ok(()) => reply::done(length as u32),
    }
}

// The payload of a record, by its place and length: a part of the option bytes, and the answer beside it.
pub fn payload<'b>(bytes: &'b [u8], place: usize, length: usize) -> AnsweredPart<'b>
    ensures { (result.answer ≡ payload_answer bytes.now place length)
        × PartOf (payload_span bytes.now place length)
        bytes.now bytes.entry.ref_ptr.0 bytes.entry.ref_ptr.1 result.part.now result.part.ref_ptr.0 result.part.ref_ptr.1 }
{
    AnsweredPart {
        answer: payload_answer(bytes, place, length),
        part: payload_part(bytes, place, length),
    }
}
