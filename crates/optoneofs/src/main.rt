// Gives each field of a message the oneof it belongs to. Input: 47 the numbering (4 bytes), which may be left out and is then that in order
// of declaration, 49 the words (4 bytes each); several of these one after the other are several cases, each answered in its turn.
#![tactic(auto)]

ghost use Rattle.std.specs.Prelude.{◌≤◌, length, IfSome};

use console::input::{MOST_BYTES, each_case, field_of};
use inputs::words::MOST_PAYLOAD_WORDS;
use limits::MOST_WORDS;

const NUMBERING: u8 = 0x47;

const WORDS: u8 = 0x49;

fn lower(numbering: u32, payload: &[u8]) {
    let mut words = [0u32; MOST_PAYLOAD_WORDS];
    let n = inputs::words::words_of(payload, &mut words);
    let mut out = [0u32; MOST_WORDS];
    let a = oneofs::lower_fields_by(numbering, &words[..n], &mut out);
    console::output::answer(a);
    if a.reply == 0 {
        console::output::words(b"words", &out, a.length as usize);
    }
}

// The words at a place, in a numbering, and where the next case starts; none where the input is no such field.
#[tactic(auto, using(console::proofs::InputLaws::input_laws))]
fn lower_words(numbering: u32, s: &[u8], at: usize) -> Option<usize>
    requires { at ≤ length s.now }
    ensures { IfSome result (λ next. next ≤ length s.now) }
{
    let words = field_of(s, at, WORDS)?;
    if !console::input::has_words(WORDS, words.from, words.to) {
        return None;
    }
    lower(numbering, &s[words.from..words.to]);
    Some(words.to)
}

// The same, of a case that starts with its numbering.
#[tactic(auto, using(console::proofs::InputLaws::input_laws))]
fn lower_numbered(s: &[u8], at: usize) -> Option<usize>
    requires { at ≤ length s.now }
    ensures { IfSome result (λ next. next ≤ length s.now) }
{
    let given = field_of(s, at, NUMBERING)?;
    if !console::input::has_size(NUMBERING, given.from, given.to, 4) {
        return None;
    }
    lower_words(octets::u32_at(s, given.from), s, given.to)
}

// The case at a place, and where the next one starts, none where the input is no such fields.
fn lower_case(s: &[u8], at: usize) -> Option<usize>
    requires { at ≤ length s.now }
    ensures { IfSome result (λ next. next ≤ length s.now) }
{
    if at < s.len() {
        if s[at] == NUMBERING {
            return lower_numbered(s, at);
        }
    }
    lower_words(oneofs::DECLARED, s, at)
}

// Standard input, read into a lent buffer.
#[tactic(auto, using(console::proofs::InputLaws::input_laws))]
fn run_over(buffer: &mut [u8]) {
    let Some(n) = console::input::read(buffer) else {
        return;
    };
    let s = &buffer[..n];
    each_case(s.len(), |at| lower_case(s, at));
}

fn main() {
    let mut buffer = [0u8; MOST_BYTES];
    run_over(&mut buffer);
}
