// Records of option bytes as lines: the words of each; and, for people, the name, number and type that the sheet declares each by, with its
// value. What is printed is tested, not proved: contracts say what a function needs to be safe and to end. The form of the sheet was tested
// before.
#![tactic(auto)]

mod enums;
mod first;
mod name;
mod row;
mod side;
mod value;
mod words;

ghost use Rattle.std.specs.Prelude.{◌≡◌, length};
ghost use Rattle.levels.specs.inner.Stack.{stack_words};

use first::{first_of, read_on};
use inputs::words::least;
use levels::STACK_WORDS;
use limits::MOST_OPTION_BYTES;
use row::show_row;
use side::show_pairs;

// The words of a record.
const RECORD: usize = 8;

// The line `record` for each eight of the first n words.
pub fn records(words: &[u32], n: usize) {
    let end = least(n, words.len());
    let mut at = 0;
    while RECORD <= end - at {
        console::output::words(b"record", &words[at..end], RECORD);
        at += RECORD;
    }
}

// As `rows`, with room for the levels.
#[tactic(auto, using(crate::proofs::WaitsLaws::waits_laws))]
fn rows_over(sheet: &[u8], options_type: &[u8], bytes: &[u8], stack: &mut [usize])
    requires { length stack.old ≡ stack_words }
{
    if MOST_OPTION_BYTES < bytes.len() {
        return;
    }
    let mut event = first_of(sheet, options_type, bytes, stack);
    while let Some(found) = event {
        show_row(sheet, bytes, found.row);
        event = read_on(sheet, options_type, bytes, stack, found.rest);
    }
}

// The records of option bytes for people, a line each, up to the first fault; none where the bytes are too long or the options type is not
// found.
pub fn rows(sheet: &[u8], options_type: &[u8], bytes: &[u8]) {
    let mut stack = [0usize; STACK_WORDS];
    rows_over(sheet, options_type, bytes, &mut stack);
}

// The records of option bytes under a newer sheet, a line each as in `rows`, with the older's for the same record beside it.
pub fn side_by_side(newer: &[u8], older: &[u8], options_type: &[u8], bytes: &[u8]) {
    if MOST_OPTION_BYTES < bytes.len() {
        return;
    }
    let mut stack = [0usize; STACK_WORDS];
    let mut other = [0usize; STACK_WORDS];
    show_pairs(newer, older, options_type, bytes, &mut stack, &mut other);
}
