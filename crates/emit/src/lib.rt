// Elements for the lent memory: what a writer of elements comes to, and the words of an answer that are known beforehand. A writer is run
// over an empty part of the lent memory first, which finds a refusal and the length, and then over the whole, so that a refusal writes
// nothing and NoRoom comes last.
#![tactic(auto)]

ghost use Rattle.std.specs.Prelude.{◌≡◌, [], ◌∷◌, ◌+◌, ◌^◌, ◌<◌, length};
ghost use Rattle.basis.specs.Kit.{sets};
ghost use Rattle.reply.specs.Outcome.{give, Answered};

use reply::{Answer, Cause, Refusal};

// The words of an answer that are known beforehand, written where there is room for all of them.
#[tactic(auto, using(crate::proofs::Giving::giving_laws))]
pub fn give_words(words: &[u32], out: &mut [u32]) -> Answer
    requires { length words.now < 2 ^ 32 }
    ensures { Answered (give words.now) out.old out.new result }
{
    if out.len() < words.len() {
        return reply::refused(Refusal::NoRoom);
    }
    let n = words.len();
    out[..n].copy_from_slice(words);
    reply::done(n as u32)
}
