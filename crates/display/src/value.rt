// The value of a record of a known type that is no message.
use crate::enums::show_enumerator;
use crate::words::{BACKSLASH, BITS, CONTROLS, FALSE, MINUS, QUOTE, show_word};
use console::output::{hex_byte, number, text};
use entries::Entry;
use field::Span;
use payload::payload_part;
use types::{
    TYPE_BOOL, TYPE_BYTES, TYPE_DOUBLE, TYPE_ENUM, TYPE_FIXED64, TYPE_FLOAT, TYPE_STRING,
    TYPE_UINT64,
};

// A byte of a string, as protobuf's text format has it.
fn show_byte(b: u8) {
    if (b'\t' <= b) & (b <= b'\r') {
        show_word(CONTROLS + b as usize);
    } else if (b < 0x20) | (0x7e < b) {
        text(&[b'\\', b'0' + b / 64, b'0' + b / 8 % 8, b'0' + b % 8]);
    } else {
        if (b == b'"') | (b == b'\'') | (b == b'\\') {
            show_word(BACKSLASH);
        }
        text(&[b]);
    }
}

fn show_string(payload: &[u8]) {
    show_word(QUOTE);
    for i in 0..payload.len() {
        show_byte(payload[i]);
    }
    show_word(QUOTE);
}

// The bits of a float or a double, whose bytes stand with the lowest first.
fn show_bits(payload: &[u8]) {
    show_word(BITS);
    for i in (0..payload.len()).rev() {
        hex_byte(payload[i]);
    }
}

// A value of an enum, by its name where it has one; a bool, 0 or 1; or an integer. Of the types without a sign only those of 64 bits reach 2^63.
fn show_number(sheet: &[u8], path: Span, typ: usize, value: u64) {
    if typ == TYPE_ENUM {
        if show_enumerator(sheet, path, (value % 0x1_0000_0000) as u32) {
            return;
        }
    }
    if typ == TYPE_BOOL {
        show_word(FALSE + (value % 2) as usize);
    } else if (value < 0x8000_0000_0000_0000) | (typ == TYPE_UINT64) | (typ == TYPE_FIXED64) {
        number(value);
    } else {
        show_word(MINUS);
        number(0x8000_0000_0000_0000 - value % 0x8000_0000_0000_0000);
    }
}

// The value of a record whose type path, if its type has one, is this.
pub fn show_value(sheet: &[u8], bytes: &[u8], path: Span, entry: Entry) {
    let typ = entry.typ as usize;
    let payload = payload_part(bytes, entry.place as usize, entry.size as usize);
    if (typ == TYPE_STRING) | (typ == TYPE_BYTES) {
        show_string(payload);
    } else if (typ == TYPE_DOUBLE) | (typ == TYPE_FLOAT) {
        show_bits(payload);
    } else {
        show_number(sheet, path, typ, entry.value);
    }
}
