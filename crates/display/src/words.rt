// The words that lines have, in one table: the names of types, by their numbers, and after them those of wire types and all that stands
// between names and values.
use console::output::text_at;
use field::Span;
use octets::wide;

// The bytes of a row of the table: the length of the word, the word and blanks.
const ROW: usize = 9;

const ROWS: usize = 44;

// The row of wire type 0.
pub const WIRES: usize = 19;

// The row of the bool 0.
pub const FALSE: usize = 25;

pub const UNKNOWN: usize = 27;

pub const BLANK: usize = 28;

pub const EQUALS: usize = 29;

pub const LINE_END: usize = 30;

pub const OPENED: usize = 31;

pub const CLOSED: usize = 32;

pub const DOT: usize = 33;

pub const MINUS: usize = 34;

pub const QUOTE: usize = 35;

pub const BITS: usize = 36;

pub const BACKSLASH: usize = 37;

// The bytes 9 to 13 in a string: so far below its row is each.
pub const CONTROLS: usize = 29;

pub const BAR: usize = 43;

// The word in that row. Groups, messages and enums go by their paths and have none; the wire types of groups are never listed.
pub fn show_word(row: usize) {
    let rows = b"\
    \x00        \
    \x06double  \
    \x05float   \
    \x05int64   \
    \x06uint64  \
    \x05int32   \
    \x07fixed64 \
    \x07fixed32 \
    \x04bool    \
    \x06string  \
    \x00        \
    \x00        \
    \x05bytes   \
    \x06uint32  \
    \x00        \
    \x08sfixed32\
    \x08sfixed64\
    \x06sint32  \
    \x06sint64  \
    \x06varint  \
    \x03i64     \
    \x03len     \
    \x00        \
    \x00        \
    \x03i32     \
    \x05false   \
    \x04true    \
    \x02?       \
    \x01        \
    \x03 =      \
    \x01\n       \
    \x01(       \
    \x01)       \
    \x01.       \
    \x01-       \
    \x01\"       \
    \x020x      \
    \x01\\       \
    \x02\\t      \
    \x02\\n      \
    \x04\\013    \
    \x04\\014    \
    \x02\\r      \
    \x03 |      ";
    if ROWS <= row {
        return;
    }
    let at = row * ROW;
    let from = at + 1;
    let to = from + wide(rows[at]);
    text_at(rows, Span { from: from, to: to });
}
