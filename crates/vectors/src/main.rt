// Runs worked examples of outside documents through the library and compares: a line for each, then how many held.
// Input: a field 60 for each example, in which 61 is what is run (4 bytes), 62 its label, 63 to 65 what is given and 66 what is wanted.
// compare/vectors.py writes it and has each example with its source.
#![tactic(auto)]

mod case;
mod encoding;
mod names;
mod replies;

ghost use Rattle.std.specs.Prelude.{◌≤◌};

use candidates::protobuf_path::candidates;
use case::{part, word_of};
use console::input::{MOST_BYTES, field_of};
use console::output::{hex, number, text};

const CASE: u8 = 0x60;

const KIND: u8 = 0x61;

const LABEL: u8 = 0x62;

const FIRST: u8 = 0x63;

const SECOND: u8 = 0x64;

const THIRD: u8 = 0x65;

const WANT: u8 = 0x66;

// The kind that is printed and not compared.
const PRINTED: u32 = 9;

// Whether an example holds. Of an unknown kind none does.
fn holds(kind: u32, label: &[u8], c: &[u8]) -> bool {
    let first = part(c, FIRST);
    let second = part(c, SECOND);
    let want = part(c, WANT);
    match kind {
        1 => encoding::is_varint(first, want),
        2 => encoding::is_zigzag(first, want),
        3 => encoding::is_limit(first, second, part(c, THIRD), want),
        6 => names::is_candidate(first, second, part(c, THIRD), want),
        7 => candidates(second, first) == word_of(want) as usize,
        8 => replies::is_row(first, want, label),
        _ => false,
    }
}

// An example's line, and 1 if it held.
fn example(c: &[u8]) -> usize
    ensures { result ≤ 1 }
{
    let kind = word_of(part(c, KIND));
    let label = part(c, LABEL);
    text(label);
    if kind == PRINTED {
        hex(part(c, FIRST));
        text(b"\n");
        return 0;
    }
    if holds(kind, label, c) {
        text(b": ok\n");
        return 1;
    }
    text(b": WRONG\n");
    0
}

#[tactic(auto, using(crate::proofs::CaseLaws::run_laws))]
fn run(s: &[u8]) {
    let mut held = 0;
    let mut at = 0;
    while at < s.len() {
        let Some(case) = field_of(s, at, CASE) else {
            return;
        };
        held += example(&s[case.from..case.to]);
        at = case.to;
    }
    number(held as u64);
    text(b" held\n");
}

// Standard input, read into a lent buffer.
#[tactic(auto, using(crate::proofs::CaseLaws::case_laws))]
fn run_over(buffer: &mut [u8]) {
    let Some(n) = console::input::read(buffer) else {
        return;
    };
    run(&buffer[..n]);
}

fn main() {
    let mut buffer = [0u8; MOST_BYTES];
    run_over(&mut buffer);
}
