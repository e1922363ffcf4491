// What declares a record, by name: a field by its simple name, an extension by its full name in parentheses, which is found by walking down
// the sheet to the place of its own name.
use crate::words::{CLOSED, DOT, OPENED, show_word};
use console::output::text_at;
use field::{Field, Span, field_at};
use sheet::table;

// The package of the file and the names of the messages that a place of the sheet lies in, each with a dot behind it where it is not empty.
// The way goes into each file and message that the place lies in, and over all that stands before it, as their names do.
#[tactic(auto, using(crate::proofs::PlaceLaws::place_laws))]
fn around(s: &[u8], place: usize) {
    let end = s.len();
    let mut at = 0;
    while at < end {
        let Some(Field { tag, from, to }) = field_at(s, at, end) else {
            return;
        };
        if place < to {
            if (tag != table::FILE) & (tag != table::MESSAGE) {
                return;
            }
            at = from;
        } else {
            if ((tag == table::PACKAGE) | (tag == table::NAME)) & (from != to) {
                text_at(s, Span { from: from, to: to });
                show_word(DOT);
            }
            at = to;
        }
    }
}

// The full name of the extension whose own name this is.
pub fn show_full_name(s: &[u8], name: Span) {
    show_word(OPENED);
    around(s, name.from);
    text_at(s, name);
    show_word(CLOSED);
}
