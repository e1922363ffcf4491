// The fields that a program is given. Where the input is not what the program names, one line that begins `input: ` says what is
// wrong and where, and nothing after that place is answered.
ghost use Rattle.std.specs.Prelude.{◌≡◌, ◌-◌, ◌%◌, ◌≤◌, eqb, length};
ghost use Rattle.field.specs.Leaf.{any_bytes, leaf_at};
ghost use Rattle.console.specs.Input.{AnswersCases, Fills};

use crate::output::{hex_byte, number, text};
use field::Span;
use hexadecimal::digits::{Decoded, decode};
use inputs::due::{Due, due_at, due_leaf};

// A program's input has at most so many bytes: a sheet and a request, each a field of 65,535 bytes with its header of 3.
pub const MOST_BYTES: usize = 131_076;

// The text that is read, one byte more than is taken. The digits of MOST_BYTES bytes are 262,152; the rest is for blanks.
const MOST_TEXT: usize = 524_288;

// Standard input, decoded into a lent buffer.
pub fn read(out: &mut [u8]) -> Option<usize>
    ensures { Fills result (length out.new) }
{
    let mut buffer = [0u8; MOST_TEXT];
    read_by(&mut buffer, out)
}

// The same, by a buffer that holds a byte more than the longest text that is taken.
fn read_by(buffer: &mut [u8], out: &mut [u8]) -> Option<usize>
    ensures { Fills result (length out.new) }
{
    let n = io::read_full(0, buffer);
    if n == buffer.len() {
        too_much(b"is longer than ", MOST_TEXT - 1);
        return None;
    }
    let found = decode(&buffer[..n], out);
    taken(found, out.len())
}

// Answers the cases of an input of `end` bytes one after the other, of which there has to be one: each says where the next one starts, none
// where it is no such fields. The closure may hold room that is lent to each case in its turn.
#[tactic(auto, using(crate::proofs::CaseLaws::each_case_laws))]
pub fn each_case<F: FnMut(usize) -> Option<usize>>(end: usize, mut answer: F)
    requires { AnswersCases F.FnMut end answer }
{
    let mut at = 0;
    while let Some(next) = answer(at) {
        if (next <= at) | (next == end) {
            return;
        }
        at = next;
    }
}

// What was decoded, where there is room for it.
fn taken(found: Decoded, room: usize) -> Option<usize>
    ensures { Fills result room }
{
    match found {
        Decoded::NoDigit(at) => {
            about(at, b" of the text is no hexadecimal digit\n");
            None
        }
        Decoded::HalfByte => {
            text(b"input: the text ends within a byte, after its first digit\n");
            None
        }
        Decoded::Bytes(n) => {
            if room < n {
                too_much(b"spells more than ", room);
                return None;
            }
            Some(n)
        }
    }
}

// A line that says how much is taken at the most.
fn too_much(verb: &[u8], most: usize) {
    text(b"input: the text ");
    text(verb);
    number(most as u64);
    text(b" bytes\n");
}

// The field at a place, which has to have this tag.
#[tactic(auto, using(crate::proofs::InputLaws::leaf_due))]
pub fn field_of(s: &[u8], at: usize, tag: u8) -> Option<Span>
    requires { at ≤ length s.now }
    ensures { result ≡ leaf_at tag any_bytes s.now at (length s.now) }
{
    let due = due_at(s, at, tag);
    tell(due, at, tag);
    due_leaf(due)
}

// What stands at a place instead of the field that is due, if it does.
fn tell(due: Due, at: usize, tag: u8) {
    match due {
        Due::Here { from: _, to: _ } => {}
        Due::Other(found) => {
            about(at, b": a field of tag ");
            hex_byte(found);
            is_due(b", where tag ", tag);
        }
        Due::CutShort => {
            about(at, b": the field that starts here is cut\n");
        }
        Due::Ended => {
            about(at, b": the input ends");
            is_due(b", where a field of tag ", tag);
        }
    }
}

// The end of a line that says which tag is due.
fn is_due(place: &[u8], tag: u8) {
    text(place);
    hex_byte(tag);
    text(b" is due\n");
}

// Whether a payload has this length; if not, that is said.
pub fn has_size(tag: u8, from: usize, to: usize, size: usize) -> bool
    requires { from ≤ to }
    ensures { result ≡ eqb (to - from) size }
{
    if to - from == size {
        return true;
    }
    payload_has(tag, from, to);
    text(b", where ");
    number(size as u64);
    text(b" is due\n");
    false
}

// Whether a payload is a whole number of words of 4 bytes; if not, that is said.
pub fn has_words(tag: u8, from: usize, to: usize) -> bool
    requires { from ≤ to }
    ensures { result ≡ eqb ((to - from) % 4) 0 }
{
    if (to - from) % 4 == 0 {
        return true;
    }
    payload_has(tag, from, to);
    text(b", no multiple of 4\n");
    false
}

// The start of a line that is about a payload's length.
fn payload_has(tag: u8, from: usize, to: usize)
    requires { from ≤ to }
{
    about(from, b": the payload of tag ");
    hex_byte(tag);
    text(b" has length ");
    number((to - from) as u64);
}

// The start of a line that is about a place, and what is said of it.
fn about(at: usize, what: &[u8]) {
    text(b"input: byte ");
    number(at as u64);
    text(what);
}
