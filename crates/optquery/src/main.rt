// Asks option bytes for the value of a name. Input: 40 a sheet, 44 an options type, 46 a name (fields 1A and 1B), 45 option bytes; several
// of these one after the other are several cases, each answered in its turn. On 0 it prints the eight words of the record, or `absent`.
#![tactic(auto)]

ghost use Rattle.std.specs.Prelude.{◌≤◌, length, IfSome};

use console::input::{MOST_BYTES, each_case, field_of};
use console::output::text;

const SHEET: u8 = 0x40;

const OPTIONS_TYPE: u8 = 0x44;

const OPTION_BYTES: u8 = 0x45;

const NAME: u8 = 0x46;

// The words of an answer of `query`.
const WORDS: usize = 8;

// The answer for a sheet, an options type, a name and option bytes.
fn answer(sheet: &[u8], options_type: &[u8], name: &[u8], bytes: &[u8]) {
    let mut words = [0u32; WORDS];
    let answer = query::query(sheet, options_type, name, bytes, &mut words);
    console::output::answer(answer);
    if answer.absent != 0 {
        text(b"absent\n");
    } else if answer.reply == 0 {
        console::output::words(b"record", &words, WORDS);
    }
}

// One case, and where the next one starts; none where the input is no such fields.
#[tactic(auto, using(console::proofs::InputLaws::input_laws))]
fn query_case(s: &[u8], at: usize) -> Option<usize>
    requires { at ≤ length s.now }
    ensures { IfSome result (λ next. next ≤ length s.now) }
{
    let sheet = field_of(s, at, SHEET)?;
    let options_type = field_of(s, sheet.to, OPTIONS_TYPE)?;
    let name = field_of(s, options_type.to, NAME)?;
    let bytes = field_of(s, name.to, OPTION_BYTES)?;
    answer(
        &s[sheet.from..sheet.to],
        &s[options_type.from..options_type.to],
        &s[name.from..name.to],
        &s[bytes.from..bytes.to],
    );
    Some(bytes.to)
}

// Standard input, read into a lent buffer.
#[tactic(auto, using(console::proofs::InputLaws::input_laws))]
fn run_over(buffer: &mut [u8]) {
    let Some(n) = console::input::read(buffer) else {
        return;
    };
    let s = &buffer[..n];
    each_case(s.len(), |at| query_case(s, at));
}

fn main() {
    let mut buffer = [0u8; MOST_BYTES];
    run_over(&mut buffer);
}
