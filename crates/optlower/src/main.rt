// Resolves options. Input: 40 a sheet, 41 a request; several of these one after the other are several cases, each answered in its turn.
// On 0 it prints the option bytes, or `absent`.
#![tactic(auto)]

ghost use Rattle.std.specs.Prelude.{◌≤◌, length, IfSome};

use console::input::{MOST_BYTES, each_case, field_of};
use console::output::option_bytes;

const SHEET: u8 = 0x40;

const REQUEST: u8 = 0x41;

// The room that is lent for the option bytes of a case.
const ROOM: usize = 65_536;

// One case, its option bytes in lent room.
fn answer_case(sheet: &[u8], request: &[u8], out: &mut [u8]) {
    let answer = resolver::resolve(sheet, request, out);
    option_bytes(answer, out);
}

// The case at a place, and where the next one starts, none where the input is no such fields.
#[tactic(auto, using(crate::proofs::CaseLaws::case_laws))]
fn resolve_case(s: &[u8], at: usize, out: &mut [u8]) -> Option<usize>
    requires { at ≤ length s.now }
    ensures { IfSome result (λ next. next ≤ length s.now) }
{
    let sheet = field_of(s, at, SHEET)?;
    let request = field_of(s, sheet.to, REQUEST)?;
    answer_case(&s[sheet.from..sheet.to], &s[request.from..request.to], out);
    Some(request.to)
}

// Standard input, read into a lent buffer.
#[tactic(auto, using(crate::proofs::CaseLaws::case_laws))]
fn run_over(buffer: &mut [u8], out: &mut [u8]) {
    let Some(n) = console::input::read(buffer) else {
        return;
    };
    let s = &buffer[..n];
    each_case(s.len(), |at| resolve_case(s, at, out));
}

fn main() {
    let mut buffer = [0u8; MOST_BYTES];
    let mut out = [0u8; ROOM];
    run_over(&mut buffer, &mut out);
}
