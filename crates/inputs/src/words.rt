// Words of 4 bytes, the highest first, as a payload has them.
ghost use Rattle.std.specs.Prelude.{◌≡◌, ◌*◌, ◌/◌, length, min, pos};
ghost use Rattle.std.specs.Int.{w32};
ghost use Rattle.std.proofs.Common.{to_z};
ghost use Rattle.octets.specs.Octets.{big_at};
ghost use Rattle.inputs.specs.Words.{Filled};

// A payload, of 65,535 bytes at the most, has no more words.
pub const MOST_PAYLOAD_WORDS: usize = 16_384;

// The smaller of two counts.
pub fn least(a: usize, b: usize) -> usize
    ensures { result ≡ min a b }
{
    if a < b { a } else { b }
}

// The words of a payload, in a lent buffer as far as that reaches, and how many they are.
#[tactic(auto, using(crate::proofs::WordLaws::filling_laws))]
pub fn words_of(payload: &[u8], out: &mut [u32]) -> usize
    ensures filled { Filled (λ j. big_at 4 payload.now (j * 4)) 0 out.new result }
    ensures value { result ≡ min (length payload.now / 4) (length out.old) }
{
    let n = least(payload.len() / 4, out.len());
    for i in 0..n {
        out[i] = octets::u32_at(payload, i * 4);
    }
    n
}

// The same as signed numbers.
#[tactic(auto, using(crate::proofs::WordLaws::filling_laws))]
pub fn signed_words_of(payload: &[u8], out: &mut [i32]) -> usize
    ensures filled { Filled (λ j. to_z w32 (big_at 4 payload.now (j * 4))) (pos 0) out.new result }
    ensures value { result ≡ min (length payload.now / 4) (length out.old) }
{
    let n = least(payload.len() / 4, out.len());
    for i in 0..n {
        let word = octets::signed32(octets::u32_at(payload, i * 4));
        out[i] = word;
    }
    n
}
