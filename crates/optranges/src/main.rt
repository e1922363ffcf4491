// Lowers ranges. Input: 47 the kind (4 bytes), 48 the words, starts and ends in turn (4 bytes each); several of these one after the other
// are several cases, each answered in its turn.
#![tactic(auto)]

ghost use Rattle.std.specs.Prelude.{◌≤◌, length, IfSome};

use console::input::{MOST_BYTES, each_case, field_of};
use inputs::words::MOST_PAYLOAD_WORDS;
use limits::MOST_WORDS;

const KIND: u8 = 0x47;

const WORDS: u8 = 0x48;

#[tactic(auto, using(console::proofs::InputLaws::input_laws))]
fn lower(kind: u32, payload: &[u8]) {
    let mut words = [0i32; MOST_PAYLOAD_WORDS];
    let n = inputs::words::signed_words_of(payload, &mut words);
    let mut out = [0i32; MOST_WORDS];
    let a = ranges::lower_ranges(kind, &words[..n], &mut out);
    console::output::answer(a);
    if a.reply == 0 {
        console::output::signed_words(&out, a.length as usize);
    }
}

// The case at a place, and where the next one starts, none where the input is no such fields.
#[tactic(auto, using(console::proofs::InputLaws::input_laws))]
fn lower_case(s: &[u8], at: usize) -> Option<usize>
    requires { at ≤ length s.now }
    ensures { IfSome result (λ next. next ≤ length s.now) }
{
    let kind = field_of(s, at, KIND)?;
    if !console::input::has_size(KIND, kind.from, kind.to, 4) {
        return None;
    }
    let words = field_of(s, kind.to, WORDS)?;
    if !console::input::has_words(WORDS, words.from, words.to) {
        return None;
    }
    lower(octets::u32_at(s, kind.from), &s[words.from..words.to]);
    Some(words.to)
}

// Standard input, read into a lent buffer.
#[tactic(auto, using(console::proofs::InputLaws::input_laws))]
fn run_over(buffer: &mut [u8]) {
    let Some(n) = console::input::read(buffer) else {
        return;
    };
    let s = &buffer[..n];
    each_case(s.len(), |at| lower_case(s, at));
}

fn main() {
    let mut buffer = [0u8; MOST_BYTES];
    run_over(&mut buffer);
}
