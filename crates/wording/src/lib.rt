// Whether a sheet is clean, or contained in another, as a line, with the first reason against it in words.
#![tactic(auto)]

pub mod words;

ghost use Rattle.std.specs.Prelude.{◌≤◌, length};

use console::output::text_at;
use field::Span;
use limits::MOST_SHEET;
use reasons::{Reason, Why};
use roster::nth_declared;
use words::{NO, YES, row_of, show_word};

// The full name of the i-th declaration, with room for it.
fn show_name(sheet: &[u8], i: usize, room: &mut [u8])
    requires { length sheet.now ≤ length room.old }
{
    if let Ok(nth) = nth_declared(sheet, room, i) {
        text_at(
            room,
            Span {
                from: 0,
                to: nth.size,
            },
        );
    }
}

// The words of a reason, around the name or path that it is about, and the end of the line.
fn show_reason(sheet: &[u8], why: Why, about: Span) {
    let row = row_of(why);
    show_word(row as usize * 2);
    text_at(sheet, about);
    show_word(row as usize * 2 + 1);
}

// As `tell_line`, with room for a full name.
fn tell_over(sheet: &[u8], reason: Option<Reason>, room: &mut [u8])
    requires { length sheet.now ≤ length room.old }
{
    let Some(reason) = reason else {
        show_word(YES);
        return;
    };
    show_word(NO);
    show_name(sheet, reason.index, room);
    show_reason(sheet, reason.why, reason.about);
}

// The line of a word that says yes or no of a sheet. One that was judged has no more bytes.
pub fn tell_line(word: usize, sheet: &[u8], reason: Option<Reason>) {
    if MOST_SHEET < sheet.len() {
        return;
    }
    let mut room = [0u8; MOST_SHEET];
    show_word(word);
    tell_over(sheet, reason, &mut room);
}
