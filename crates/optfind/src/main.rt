// Finds extensions. Input: 40 a sheet, 42 a scope, 43 a path; several of these one after the other are several cases, each answered in its
// turn. On 0 it says which extension the path finds.
#![tactic(auto)]

ghost use Rattle.std.specs.Prelude.{◌≤◌, length, IfSome};

use console::input::{MOST_BYTES, each_case, field_of};
use console::output::{number, text};

const SHEET: u8 = 0x40;

const SCOPE: u8 = 0x42;

const PATH: u8 = 0x43;

// The words of an answer of `find`.
const WORDS: usize = 10;

// A line of a word and some bytes.
fn line(what: &[u8], bytes: &[u8]) {
    text(what);
    text(bytes);
    text(b"\n");
}

// A line of a word and a number.
fn numbered(what: &[u8], n: u32) {
    text(what);
    number(n as u64);
    text(b"\n");
}

// So many bytes from a place on, empty where they are not all there.
fn part(s: &[u8], at: u32, n: u32) -> &[u8] {
    let from = at as usize;
    let size = n as usize;
    if s.len() < from {
        return &s[..0];
    }
    if s.len() - from < size {
        return &s[..0];
    }
    &s[from..from + size]
}

// Whose extension it is, and its type.
fn tell_type(sheet: &[u8], words: &[u32; WORDS]) {
    line(b"extendee ", part(sheet, words[3], words[4]));
    numbered(b"type ", words[6]);
    numbered(b"label ", words[7]);
    if words[9] != 0 {
        line(b"of ", part(sheet, words[8], words[9]));
    }
}

// What the words of `find` say of the sheet.
fn tell(sheet: &[u8], words: &[u32; WORDS]) {
    line(b"name ", part(sheet, words[1], words[2]));
    numbered(b"number ", words[5]);
    tell_type(sheet, words);
    numbered(b"file ", words[0]);
    numbered(b"place ", words[1]);
}

// The answer for a sheet, a scope and a path.
fn answer(sheet: &[u8], scope: &[u8], path: &[u8]) {
    let mut words = [0u32; WORDS];
    let answer = find::find(sheet, scope, path, &mut words);
    console::output::answer(answer);
    if answer.reply == 0 {
        tell(sheet, &words);
    }
}

// One case, and where the next one starts, none where the input is no such fields.
#[tactic(auto, using(crate::proofs::CaseLaws::case_laws))]
fn find_case(s: &[u8], at: usize) -> Option<usize>
    requires { at ≤ length s.now }
    ensures { IfSome result (λ next. next ≤ length s.now) }
{
    let sheet = field_of(s, at, SHEET)?;
    let scope = field_of(s, sheet.to, SCOPE)?;
    let path = field_of(s, scope.to, PATH)?;
    answer(
        &s[sheet.from..sheet.to],
        &s[scope.from..scope.to],
        &s[path.from..path.to],
    );
    Some(path.to)
}

// Standard input, read into a lent buffer.
#[tactic(auto, using(crate::proofs::CaseLaws::case_laws))]
fn run_over(buffer: &mut [u8]) {
    let Some(n) = console::input::read(buffer) else {
        return;
    };
    let s = &buffer[..n];
    each_case(s.len(), |at| find_case(s, at));
}

fn main() {
    let mut buffer = [0u8; MOST_BYTES];
    run_over(&mut buffer);
}
