// Checks the form of sheets and requests. Input: 40 a sheet, or 40 a sheet and 41 a request; several of these one after the other are
// several cases, each answered in its turn. On 0 it says what it read.
#![tactic(auto)]

ghost use Rattle.std.specs.Prelude.{◌≤◌, length, IfSome};

use console::input::MOST_BYTES;
use console::output::{number, text};
use counts::declarations::count;
use counts::options::{count_options, count_parts};
use reply::Refusal;
use sheet::table;

const SHEET: u8 = 0x40;

const REQUEST: u8 = 0x41;

// A word and a count.
fn counted(what: &[u8], n: usize) {
    text(what);
    number(n as u64);
}

// What the sheet declares.
fn tell_sheet(sheet: &[u8]) {
    counted(b"files ", count(sheet, table::FILE));
    counted(b" messages ", count(sheet, table::MESSAGE));
    counted(b" fields ", count(sheet, table::FIELD));
    counted(b" extensions ", count(sheet, table::EXTENSION));
    counted(b" enums ", count(sheet, table::ENUM));
    counted(b" values ", count(sheet, table::VALUE));
    text(b"\n");
}

// What the request has.
fn tell_request(request: &[u8]) {
    counted(b"options ", count_options(request));
    counted(b" parts ", count_parts(request));
    text(b"\n");
}

// Whether a verdict is fine; a refusal is printed.
fn told(verdict: Result<(), Refusal>) -> bool {
    if let Err(why) = verdict {
        console::output::answer(reply::refused(why));
        return false;
    }
    true
}

// A sheet alone.
fn check_sheet(sheet: &[u8]) {
    if told(sheetform::check_sheet(sheet)) {
        console::output::answer(reply::done(0));
        tell_sheet(sheet);
    }
}

// A sheet and a request, the sheet first.
fn check_both(sheet: &[u8], request: &[u8]) {
    if !told(sheetform::check_sheet(sheet)) {
        return;
    }
    if told(requestform::check_request(request)) {
        console::output::answer(reply::done(0));
        tell_sheet(sheet);
        tell_request(request);
    }
}

// Whether a request stands at a place.
fn has_request(s: &[u8], at: usize) -> bool {
    if s.len() <= at {
        return false;
    }
    s[at] == REQUEST
}

// One case, and where the next one starts, none where the input is no such fields.
#[tactic(auto, using(crate::proofs::CaseLaws::case_laws))]
fn check_case(s: &[u8], at: usize) -> Option<usize>
    requires { at ≤ length s.now }
    ensures { IfSome result (λ next. next ≤ length s.now) }
{
    let sheet = console::input::field_of(s, at, SHEET)?;
    if !has_request(s, sheet.to) {
        check_sheet(&s[sheet.from..sheet.to]);
        return Some(sheet.to);
    }
    let request = console::input::field_of(s, sheet.to, REQUEST)?;
    check_both(&s[sheet.from..sheet.to], &s[request.from..request.to]);
    Some(request.to)
}

// Standard input, read into a lent buffer.
#[tactic(auto, using(crate::proofs::CaseLaws::case_laws))]
fn run_over(buffer: &mut [u8]) {
    let Some(n) = console::input::read(buffer) else {
        return;
    };
    let s = &buffer[..n];
    console::input::each_case(s.len(), |at| check_case(s, at));
}

fn main() {
    let mut buffer = [0u8; MOST_BYTES];
    run_over(&mut buffer);
}
