// The records of the same option bytes under two sheets, side by side: one is that of the other sheet where place and level are the same.
// Places rise from record to record, so the older's are read on up to the place of the newer's; those that the newer lacks have a line of
// their own.
ghost use Rattle.std.specs.Prelude.{◌≡◌, ◌≤◌, length};
ghost use Rattle.limits.specs.Figures.{most_option_bytes};
ghost use Rattle.levels.specs.inner.Stack.{stack_words};
ghost use Rattle.display.specs.inner.Waits.{Waits};

use crate::first::{first_of, read_on};
use crate::row::{indent, show_entry};
use crate::words::{BAR, LINE_END, MINUS, show_word};
use entries::Row;
use levels::Event;

// A place behind all others.
const PAST: u32 = 4_294_967_295;

// The line of a record that the older alone has.
fn show_alone(sheet: &[u8], bytes: &[u8], row: Row) {
    indent(row.level);
    show_word(MINUS);
    show_word(BAR);
    show_entry(sheet, bytes, row.entry);
    show_word(LINE_END);
}

// The lines of those that the older alone has before a place, from a record on; and the first that does not lie before it.
#[tactic(auto, using(crate::proofs::WaitsLaws::waits_laws))]
fn show_before(
    sheet: &[u8],
    options_type: &[u8],
    bytes: &[u8],
    stack: &mut [usize],
    from: Option<Event>,
    place: u32,
) -> Option<Event>
    requires { Waits sheet.now bytes.now stack.old from }
    ensures { Waits sheet.now bytes.now stack.new result }
{
    let mut event = from;
    while let Some(waiting) = event {
        if place <= waiting.row.entry.place {
            return event;
        }
        show_alone(sheet, bytes, waiting.row);
        event = read_on(sheet, options_type, bytes, stack, waiting.rest);
    }
    None
}

// What waits of the older behind a place: the record there has been shown.
#[tactic(auto, using(crate::proofs::WaitsLaws::waits_laws))]
fn behind(
    sheet: &[u8],
    options_type: &[u8],
    bytes: &[u8],
    stack: &mut [usize],
    event: Option<Event>,
    place: u32,
) -> Option<Event>
    requires { Waits sheet.now bytes.now stack.old event }
    ensures { Waits sheet.now bytes.now stack.new result }
{
    let waiting = event?;
    if waiting.row.entry.place != place {
        return event;
    }
    read_on(sheet, options_type, bytes, stack, waiting.rest)
}

// The older's record beside the newer's, where it is the same one.
fn show_beside(sheet: &[u8], bytes: &[u8], row: Row, event: Option<Event>) {
    if let Some(other) = event {
        if (other.row.entry.place == row.entry.place) & (other.row.level == row.level) {
            show_entry(sheet, bytes, other.row.entry);
            return;
        }
    }
    show_word(MINUS);
}

// The line of a record of the newer and what waits of the older.
fn show_pair(newer: &[u8], older: &[u8], bytes: &[u8], row: Row, event: Option<Event>) {
    indent(row.level);
    show_entry(newer, bytes, row.entry);
    show_word(BAR);
    show_beside(older, bytes, row, event);
    show_word(LINE_END);
}

// The same, after the older is read on to that record; and what waits of it behind.
fn show_line(
    newer: &[u8],
    older: &[u8],
    options_type: &[u8],
    bytes: &[u8],
    stack: &mut [usize],
    row: Row,
    from: Option<Event>,
) -> Option<Event>
    requires { Waits older.now bytes.now stack.old from }
    ensures { Waits older.now bytes.now stack.new result }
{
    let event = show_before(older, options_type, bytes, stack, from, row.entry.place);
    show_pair(newer, older, bytes, row, event);
    behind(older, options_type, bytes, stack, event, row.entry.place)
}

// The lines of the records of the newer from the first on, and of the older likewise; at the end of the newer's, of all that the older has
// besides.
#[tactic(auto, using(crate::proofs::WaitsLaws::waits_laws))]
fn show_from(
    newer: &[u8],
    older: &[u8],
    options_type: &[u8],
    bytes: &[u8],
    stack: &mut [usize],
    other: &mut [usize],
    first: Option<Event>,
    beside: Option<Event>,
)
    requires waits { Waits newer.now bytes.now stack.old first }
    requires waits_2 { Waits older.now bytes.now other.old beside }
{
    let mut left = first;
    let mut right = beside;
    while let Some(event) = left {
        left = read_on(newer, options_type, bytes, stack, event.rest);
        right = show_line(newer, older, options_type, bytes, other, event.row, right);
    }
    show_before(older, options_type, bytes, other, right, PAST);
}

// The lines of all records of either sheet, of each up to its first fault, with room for the levels of both.
pub fn show_pairs(
    newer: &[u8],
    older: &[u8],
    options_type: &[u8],
    bytes: &[u8],
    stack: &mut [usize],
    other: &mut [usize],
)
    requires stack_len { length stack.old ≡ stack_words }
    requires other_len { length other.old ≡ stack_words }
    requires bytes_len_bound { length bytes.now ≤ most_option_bytes }
{
    let first = first_of(newer, options_type, bytes, stack);
    let beside = first_of(older, options_type, bytes, other);
    show_from(
        newer,
        older,
        options_type,
        bytes,
        stack,
        other,
        first,
        beside,
    );
}
