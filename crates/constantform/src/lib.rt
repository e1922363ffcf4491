// Constants. Only nested constants recurse: the elements of a list and the pairs of a message are loops.
#![tactic(auto)]

pub mod leaves;

ghost use Rattle.std.specs.Prelude.{◌≡◌, ◌≤◌, length};
ghost use Rattle.constantform.specs.Form.{judge_constant, judge_elements, judge_pairs};

use crate::leaves::{good_pair_name, good_scalar, is_constant};
use field::fields::Fields;
use pair::pair_at;
use reply::Refusal;
use request::table;

// A constant's field, with `left` levels of constants left.
#[tactic(auto, using(crate::proofs::ConstantLaws::constant_laws))]
#[cycle(check_constant_check_elements_check_pairs)]
pub fn check_constant(s: &[u8], tag: u8, from: usize, to: usize, left: usize) -> Result<(), Refusal>
    requires { (from ≤ to) × (to ≤ length s.now) }
    ensures { result ≡ judge_constant left s.now tag from to }
{
    if !is_constant(tag) {
        return Err(Refusal::BadRequest);
    }
    if left == 0 {
        return Err(Refusal::BeyondLimit);
    }
    if tag == table::MESSAGE_CONSTANT {
        return check_pairs(s, from, to, left - 1);
    }
    if tag == table::LIST {
        return check_elements(s, from, to, left - 1);
    }
    reply::judge(good_scalar(tag, &s[from..to]), Refusal::BadRequest)
}

// The elements of a list.
#[tactic(auto, using(crate::proofs::ConstantLaws::element_laws))]
#[cycle(check_constant_check_elements_check_pairs)]
fn check_elements(s: &[u8], from: usize, to: usize, left: usize) -> Result<(), Refusal>
    requires { (from ≤ to) × (to ≤ length s.now) }
    ensures { result ≡ judge_elements left s.now from to }
{
    for field in Fields::between(s, from, to) {
        let Some(field) = field else {
            return Err(Refusal::BadRequest);
        };
        check_constant(s, field.tag, field.from, field.to, left)?;
    }
    Ok(())
}

// The pairs of a message constant.
#[tactic(auto, using(crate::proofs::ConstantLaws::pairs_laws))]
#[cycle(check_constant_check_elements_check_pairs)]
fn check_pairs(s: &[u8], from: usize, to: usize, left: usize) -> Result<(), Refusal>
    requires { (from ≤ to) × (to ≤ length s.now) }
    ensures { result ≡ judge_pairs left s.now from to }
{
    let mut at = from;
    while at < to {
        let Some(p) = pair_at(s, at, to) else {
            return Err(Refusal::BadRequest);
        };
        if !good_pair_name(p.by, &s[p.name.from..p.name.to]) {
            return Err(Refusal::BadRequest);
        }
        check_constant(s, p.tag, p.constant.from, p.constant.to, left)?;
        at = p.constant.to;
    }
    Ok(())
}
