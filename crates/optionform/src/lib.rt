// Options and their names.
#![tactic(auto)]

ghost use Rattle.std.specs.Prelude.{◌≡◌, ◌≤◌, length};
ghost use Rattle.field.specs.Walk.{walk};
ghost use Rattle.optionform.specs.Form.{parts_from, judge_last, judge_option};

use constantform::check_constant;
use constantform::leaves::good_part;
use limits::{MOST_CONSTANTS, MOST_OPTIONS, MOST_PARTS};
use reply::Refusal;
use request::name::part_at;
use request::table;

// The parts from a place on.
#[tactic(auto, using(crate::proofs::OptionLaws::parts_laws))]
pub fn check_parts(s: &[u8], from: usize, to: usize) -> Result<usize, Refusal>
    requires { (from ≤ to) × (to ≤ length s.now) }
    ensures { result ≡ parts_from s.now 0 from (walk s.now from to) }
{
    let mut at = from;
    let mut n = 0;
    while at < to {
        let Some(p) = part_at(s, at, to) else {
            return Ok(at);
        };
        if MOST_PARTS <= n {
            return Err(Refusal::BeyondLimit);
        }
        if !good_part(p.extension, &s[p.name.from..p.name.to]) {
            return Err(Refusal::BadRequest);
        }
        n += 1;
        at = p.name.to;
    }
    Ok(at)
}

// The constant that an option ends with.
#[tactic(auto, using(crate::proofs::OptionLaws::last_laws))]
fn check_last(s: &[u8], at: usize, end: usize) -> Result<(), Refusal>
    requires { (at ≤ end) × (end ≤ length s.now) }
    ensures { result ≡ judge_last s.now at end }
{
    let Some(field) = field::field_at(s, at, end) else {
        return Err(Refusal::BadRequest);
    };
    check_constant(s, field.tag, field.from, field.to, MOST_CONSTANTS)?;
    reply::judge(field.to == end, Refusal::BadRequest)
}

// One field of a request after its heading, which has `index` of them before it.
#[tactic(auto, using(crate::proofs::OptionLaws::option_laws))]
pub fn check_option(s: &[u8], index: usize, tag: u8, from: usize, to: usize) -> Result<(), Refusal>
    requires { (from ≤ to) × (to ≤ length s.now) }
    ensures { result ≡ judge_option s.now index tag from to }
{
    if tag != table::OPTION {
        return Err(Refusal::BadRequest);
    }
    if MOST_OPTIONS <= index {
        return Err(Refusal::BeyondLimit);
    }
    let at = check_parts(s, from, to)?;
    if at == from {
        return Err(Refusal::BadRequest);
    }
    check_last(s, at, to)
}
