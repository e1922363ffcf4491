// The verdict on a request, before there is any room: how many bytes it comes to, Absent, or why it is refused and where. And what is answered
// of a verdict in a room, so that NoRoom comes only when all else has passed.
#![tactic(auto)]

ghost use Rattle.std.specs.Prelude.{◌≡◌};
ghost use Rattle.judged.specs.inner.Answering.{answer_in};

use reply::{Answer, Cause, Refusal};

// What is answered of a verdict where there is room for so many bytes.
#[tactic(auto, using(crate::proofs::JudgedLaws::answer_laws), unfolding(crate::specs::inner::Answering::answer_in))]
pub fn answer_in(room: usize, judged: Result<Option<u32>, Cause>) -> Answer
    ensures { result ≡ answer_in room judged }
{
    match judged {
        Ok(None) => reply::absent(),
        Err(cause) => reply::refused_for(cause),
        Ok(Some(length)) => {
            if room < length as usize {
                return reply::refused(Refusal::NoRoom);
            }
            reply::done(length)
        }
    }
}
