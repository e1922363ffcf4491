// The words of lines, in one table.
use console::output::text_at;
use field::Span;
use octets::wide;
use reasons::Why;

// The bytes of a row of the table: the length of the words, the words and blanks.
const ROW: usize = 46;

const ROWS: usize = 22;

pub const CLEAN: usize = 18;

pub const CONTAINED: usize = 19;

pub const YES: usize = 20;

pub const NO: usize = 21;

// The place of a reason among all. Each has two rows, in this order: what stands between the full name of the declaration and the name or
// path that the reason is about, which is empty where it is about none; and what stands after that, up to the end of the line.
pub fn row_of(why: Why) -> u32 {
    match why {
        Why::NameShared => 0,
        Why::FieldShared => 1,
        Why::ValueShared => 2,
        Why::ExtendeeUnclear => 3,
        Why::NumberShared => 4,
        Why::TypeUnclear => 5,
        Why::MessageLost => 6,
        Why::EnumLost => 7,
        Why::NumberChanged => 8,
    }
}

// The words in that row.
pub fn show_word(row: usize) {
    let rows = b"\
    \x1b is declared more than once                  \
    \x01\n                                            \
    \x10 has two fields                              \
    \x01\n                                            \
    \x10 has two values                              \
    \x01\n                                            \
    \x09 extends                                     \
    \x1d, which is no single message\n                \
    \x0a declares                                    \
    \x24 by a number that is declared again\n         \
    \x13 has the type path                           \
    \x2d, which is no single declaration of its kind\n\
    \x1b is no message of the newer                  \
    \x01\n                                            \
    \x18 is no enum of the newer                     \
    \x01\n                                            \
    \x0a declares                                    \
    \x29, which the newer does not declare alike\n    \
    \x06clean                                        \
    \x0acontained                                    \
    \x04yes\n                                         \
    \x03no                                           ";
    if ROWS <= row {
        return;
    }
    let at = row * ROW;
    let from = at + 1;
    let to = from + wide(rows[at]);
    text_at(rows, Span { from: from, to: to });
}
