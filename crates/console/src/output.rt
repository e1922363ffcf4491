// The lines that programs print.
ghost use Rattle.std.specs.Prelude.{◌≡◌, nat_abs};

use field::Span;
use field::part::span_in;
use hexadecimal::digits::glyph;
use inputs::words::least;
use reply::{Answer, NOWHERE};

pub fn text(bytes: &[u8]) {
    io::write_all(1, bytes);
}

// The text of a span. One that is none of the bytes has none: this asks nothing of callers, who have spans that no contract speaks of.
pub fn text_at(s: &[u8], span: Span) {
    let Some(part) = span_in(s, span) else {
        return;
    };
    text(&s[part.from..part.to]);
}

pub fn number(n: u64) {
    io::print_decimal(1, n);
}

// The size of a signed number. The least i32 has one that is no i32.
#[tactic(auto, using(crate::proofs::OutputLaws::size_laws))]
fn size(n: i32) -> u64
    ensures { result ≡ nat_abs n }
{
    if n < 0 {
        return (-1 - n) as u64 + 1;
    }
    n as u64
}

// A byte as two hexadecimal digits.
pub fn hex_byte(b: u8) {
    let pair = [glyph(b / 16), glyph(b % 16)];
    text(&pair);
}

// Bytes as hexadecimal digits, two a byte, with nothing between them.
pub fn hex(bytes: &[u8]) {
    for i in 0..bytes.len() {
        hex_byte(bytes[i]);
    }
}

// The end of a line that says where a call was refused.
fn part_line(part: u32) {
    text(b"part ");
    number(part as u64);
    text(b"\n");
}

// Where a call was refused: the line `option I part J`, `part J` where there is no option, and none where there is no part either.
fn place_line(a: Answer) {
    if a.option != NOWHERE {
        text(b"option ");
        number(a.option as u64);
        text(b" ");
        part_line(a.part);
    } else if a.part != NOWHERE {
        part_line(a.part);
    }
}

// The line `answer N`, and on a refusal a line with its name and, where it has a position, one that says where.
pub fn answer(a: Answer) {
    text(b"answer ");
    number(a.reply as u64);
    text(b"\n");
    if a.reply != 0 {
        text(reply::name_of(a.reply, a.second));
        text(b"\n");
        place_line(a);
    }
}

// The line `bytes`, with the bytes where there are some.
fn bytes_line(bytes: &[u8]) {
    text(b"bytes");
    if bytes.len() != 0 {
        text(b" ");
        hex(bytes);
    }
    text(b"\n");
}

// The lines of an answer, and on 0 the option bytes in the lent memory, or `absent`.
pub fn option_bytes(a: Answer, out: &[u8]) {
    answer(a);
    if a.reply != 0 {
        return;
    }
    if a.absent != 0 {
        text(b"absent\n");
        return;
    }
    let n = least(a.length as usize, out.len());
    bytes_line(&out[..n]);
}

fn word(w: u32) {
    text(b" ");
    number(w as u64);
}

fn signed_word(w: i32) {
    text(b" ");
    if w < 0 {
        text(b"-");
    }
    number(size(w));
}

// A line of what the words are, and the first n words of a slice.
pub fn words(what: &[u8], ws: &[u32], n: usize) {
    text(what);
    let end = least(n, ws.len());
    for i in 0..end {
        word(ws[i]);
    }
    text(b"\n");
}

// The line `words`, with the first n words of a slice.
pub fn signed_words(ws: &[i32], n: usize) {
    text(b"words");
    let end = least(n, ws.len());
    for i in 0..end {
        signed_word(ws[i]);
    }
    text(b"\n");
}
