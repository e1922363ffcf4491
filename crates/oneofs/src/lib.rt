// 01's lowering of fields: the oneof that each belongs to, in one of two numberings of the oneofs. The words are written once over nothing,
// which finds a wrong word and the length, and then over the lent memory, so that a refusal writes nothing and NoRoom comes last.
#![tactic(auto)]

ghost use Rattle.std.specs.Prelude.{◌≡◌, ◌≤◌, length};
ghost use Rattle.limits.specs.Figures.{most_words};
ghost use Rattle.reply.specs.Outcome.{Answered};
ghost use Rattle.oneofs.specs.Fields.{real, synthetic, oneof, groups, real_count, index_of, numbered};
ghost use Rattle.oneofs.specs.Fields.{lower_fields, lower_fields_by};
ghost use Rattle.emit.specs.inner.Puts.{Puts};

use limits::MOST_WORDS;
use octets::put;
use reply::{Answer, Cause, Refusal};

// The words of fields. Numbers and no enum: C passes them (`opt_fields`).
const PLAIN: u32 = 0;

const OPTIONAL: u32 = 1;

const OPENS: u32 = 2;

const MEMBER: u32 = 3;

// The numberings of oneofs: in order of declaration, and those of optional fields after all others. Numbers and no enum:
// C passes them (`opt_fields_by`).
pub const DECLARED: u32 = 0;

pub const SYNTHETIC_LAST: u32 = 1;

// How many real oneofs there are, empty ones too.
#[tactic(auto, using(crate::proofs::CountingLaws::counting_laws))]
fn count_reals(words: &[u32]) -> u32
    requires { length words.now ≤ most_words }
    ensures { result ≡ real_count words.now }
{
    let mut count: u32 = 0;
    for i in 0..words.len() {
        let w = words[i];
        if w == OPENS {
            count += 1;
        }
    }
    count
}

// The index of the first synthetic oneof.
#[tactic(auto, using(crate::proofs::IndexLaws::first_laws))]
fn first_synthetic(numbering: u32, reals: u32) -> u32
    ensures { result ≡ index_of numbering reals (oneof synthetic 0 0) }
{
    if numbering == DECLARED { 0 } else { reals }
}

// By how much a oneof moves the next index of the other kind: in order of declaration both kinds share one count.
#[tactic(auto, using(crate::proofs::IndexLaws::step_laws))]
fn shared_step(numbering: u32) -> u32
    ensures { (result ≡ index_of numbering 0 (oneof real 0 1)) × (result ≤ 1) }
{
    if numbering == DECLARED { 1 } else { 0 }
}

// Each field gives 0, or one more than the index of its oneof. `real` and `synthetic` are the indices that the next oneof of each kind has,
// and `member` is what a member of the open one gives.
#[tactic(auto, using(crate::proofs::WritingLaws::numbering_laws, crate::proofs::WritingLaws::numbering_optional))]
fn put_fields(numbering: u32, reals: u32, words: &[u32], out: &mut [u32]) -> Result<usize, Cause>
    requires words_len_bound { length words.now ≤ most_words }
    requires reals_le_most_words { reals ≤ most_words }
    ensures { Puts (numbered numbering reals (groups words.now)) 0 out.old out.new result }
{
    let step = shared_step(numbering);
    let mut real: u32 = 0;
    let mut synthetic = first_synthetic(numbering, reals);
    let mut member: u32 = 0;
    let mut n = 0;
    for i in 0..words.len() {
        let w = words[i];
        if w == PLAIN {
            put(out, n, 0);
            member = 0;
            n += 1;
        } else if w == OPTIONAL {
            put(out, n, synthetic + 1);
            synthetic += 1;
            real += step;
            member = 0;
            n += 1;
        } else if w == OPENS {
            member = real + 1;
            real += 1;
            synthetic += step;
        } else {
            if w != MEMBER {
                return Err(reply::bare(Refusal::BadRequest));
            }
            if member == 0 {
                return Err(reply::bare(Refusal::BadRequest));
            }
            put(out, n, member);
            n += 1;
        }
    }
    Ok(n)
}

// The oneof of each field, in a numbering of the caller's choice.
#[tactic(auto, using(crate::proofs::FieldLaws::fields_laws), unfolding(crate::specs::Fields::lower_fields_by))]
pub fn lower_fields_by(numbering: u32, words: &[u32], out: &mut [u32]) -> Answer
    ensures { Answered (lower_fields_by numbering words.now) out.old out.new result }
{
    if SYNTHETIC_LAST < numbering {
        return reply::refused(Refusal::BadRequest);
    }
    if MOST_WORDS < words.len() {
        return reply::refused(Refusal::BeyondLimit);
    }
    let reals = count_reals(words);
    match put_fields(numbering, reals, words, &mut out[..0]) {
        Err(cause) => reply::refused_for(cause),
        Ok(n) => {
            if out.len() < n {
                return reply::refused(Refusal::NoRoom);
            }
            let _ = put_fields(numbering, reals, words, out);
            reply::done(n as u32)
        }
    }
}

// The oneof of each field, as 01's lowering has it: in order of declaration.
pub fn lower_fields(words: &[u32], out: &mut [u32]) -> Answer
    ensures { Answered (lower_fields words.now) out.old out.new result }
{
    lower_fields_by(DECLARED, words, out)
}
