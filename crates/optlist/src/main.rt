// Lists option bytes. Input: 40 a sheet, 44 an options type, 45 option bytes; several of these one after the other are several cases, each
// answered in its turn. On 0 it prints the eight words of each record, and then each record once more for people.
#![tactic(auto)]

ghost use Rattle.std.specs.Prelude.{◌≤◌, length, IfSome};

use console::input::{MOST_BYTES, each_case, field_of};

const SHEET: u8 = 0x40;

const OPTIONS_TYPE: u8 = 0x44;

const OPTION_BYTES: u8 = 0x45;

// The room that is lent for the words of a case: those of 65,536 records, and 65,535 option bytes have fewer.
const ROOM: usize = 524_288;

// The answer for a sheet, an options type and option bytes, the words in lent room.
fn answer_over(sheet: &[u8], options_type: &[u8], bytes: &[u8], words: &mut [u32]) {
    let answer = listing::list(sheet, options_type, bytes, words);
    console::output::answer(answer);
    if answer.reply == 0 {
        display::records(words, answer.length as usize);
        display::rows(sheet, options_type, bytes);
    }
}

// The case at a place, and where the next one starts, none where the input is no such fields.
#[tactic(auto, using(crate::proofs::CaseLaws::case_laws))]
fn list_case(s: &[u8], at: usize, words: &mut [u32]) -> Option<usize>
    requires { at ≤ length s.now }
    ensures { IfSome result (λ next. next ≤ length s.now) }
{
    let sheet = field_of(s, at, SHEET)?;
    let options_type = field_of(s, sheet.to, OPTIONS_TYPE)?;
    let bytes = field_of(s, options_type.to, OPTION_BYTES)?;
    answer_over(
        &s[sheet.from..sheet.to],
        &s[options_type.from..options_type.to],
        &s[bytes.from..bytes.to],
        words,
    );
    Some(bytes.to)
}

// Standard input, read into a lent buffer.
#[tactic(auto, using(crate::proofs::CaseLaws::case_laws))]
fn run_over(buffer: &mut [u8], words: &mut [u32]) {
    let Some(n) = console::input::read(buffer) else {
        return;
    };
    let s = &buffer[..n];
    each_case(s.len(), |at| list_case(s, at, words));
}

fn main() {
    let mut buffer = [0u8; MOST_BYTES];
    let mut words = [0u32; ROOM];
    run_over(&mut buffer, &mut words);
}
