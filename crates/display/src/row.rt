// A record as a line for people.
use crate::name::show_full_name;
use crate::value::show_value;
use crate::words::{BLANK, EQUALS, LINE_END, UNKNOWN, WIRES, show_word};
use console::output::{number, text_at};
use entries::{Entry, Row};
use field::Span;
use sheet::declaration::Declaration;
use types::TYPE_MESSAGE;

// Two blanks, and two more for each level: there are 32 at most (MOST_LEVELS).
pub fn indent(level: u32) {
    text_at(
        b"                                                                ",
        Span {
            from: 0,
            to: level as usize * 2 + 2,
        },
    );
}

// A record that nothing declares.
fn show_unknown(n: u32, wire: u8) {
    show_word(UNKNOWN);
    number(n as u64);
    show_word(BLANK);
    show_word(WIRES + wire as usize);
}

// A record that this declares. A type has a path or a word. What a message holds stands on the lines after it.
fn show_known(sheet: &[u8], bytes: &[u8], d: Declaration, entry: Entry) {
    // a field has no extendee
    if d.extendee.to == 0 {
        text_at(sheet, d.name);
    } else {
        show_full_name(sheet, d.name);
    }
    show_word(BLANK);
    number(entry.number as u64);
    show_word(BLANK);
    let typ = d.shape.typ as usize;
    text_at(sheet, d.shape.path);
    show_word(typ);
    if typ != TYPE_MESSAGE {
        show_word(EQUALS);
        show_value(sheet, bytes, d.shape.path, entry);
    }
}

// A record, without the blanks before it and the end of its line.
pub fn show_entry(sheet: &[u8], bytes: &[u8], entry: Entry) {
    let by = entry.by;
    match by {
        None => show_unknown(entry.number, entry.wire),
        Some(d) => show_known(sheet, bytes, d, entry),
    }
}

pub fn show_row(sheet: &[u8], bytes: &[u8], row: Row) {
    indent(row.level);
    show_entry(sheet, bytes, row.entry);
    show_word(LINE_END);
}
