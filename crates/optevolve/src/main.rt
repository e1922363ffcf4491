// Compares an older sheet with a newer one, and shows what the older one says of option bytes that the newer one was used for. Input: 40 the
// older sheet, 40 the newer, and, where wanted, 41 a request for the newer; several of these one after the other are several cases, each
// answered in its turn. On 0 it prints whether each sheet is clean and whether the older is contained in the newer, with the first reason
// against it; then, of a request, what `optlower` prints, what `optlist` prints of these bytes under the older sheet, and the records of
// both sheets side by side.
#![tactic(auto)]

mod compared;
mod lowered;

ghost use Rattle.std.specs.Prelude.{◌≤◌, length, IfSome};

use compared::tell_evolution;
use console::input::{MOST_BYTES, each_case, field_of};
use field::leaf_at;
use lowered::tell_request;

const SHEET: u8 = 0x40;

const REQUEST: u8 = 0x41;

// A case of these two sheets, whose request, if it has one, stands at a place; and where the next case starts.
#[tactic(auto, using(crate::proofs::CaseLaws::case_laws))]
fn answer_case(s: &[u8], older: &[u8], newer: &[u8], at: usize) -> Option<usize>
    requires { at ≤ length s.now }
    ensures { IfSome result (λ next. next ≤ length s.now) }
{
    let told = tell_evolution(older, newer);
    let Some(request) = leaf_at(s, at, s.len(), REQUEST) else {
        return Some(at);
    };
    if told {
        tell_request(older, newer, &s[request.from..request.to]);
    }
    Some(request.to)
}

// The case at a place, and where the next one starts, none where the input is no such fields.
#[tactic(auto, using(crate::proofs::CaseLaws::case_laws))]
fn compare_case(s: &[u8], at: usize) -> Option<usize>
    requires { at ≤ length s.now }
    ensures { IfSome result (λ next. next ≤ length s.now) }
{
    let older = field_of(s, at, SHEET)?;
    let newer = field_of(s, older.to, SHEET)?;
    answer_case(
        s,
        &s[older.from..older.to],
        &s[newer.from..newer.to],
        newer.to,
    )
}

// Standard input, read into a lent buffer.
#[tactic(auto, using(crate::proofs::CaseLaws::case_laws))]
fn run_over(buffer: &mut [u8]) {
    let Some(n) = console::input::read(buffer) else {
        return;
    };
    let s = &buffer[..n];
    each_case(s.len(), |at| compare_case(s, at));
}

fn main() {
    let mut buffer = [0u8; MOST_BYTES];
    run_over(&mut buffer);
}
