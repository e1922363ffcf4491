// Two sheets of a case, compared.
use evolution::{why_unclean, why_uncontained};
use wording::tell_line;
use wording::words::{CLEAN, CONTAINED};

// The lines of two sheets, and whether neither is refused.
pub fn tell_evolution(older: &[u8], newer: &[u8]) -> bool {
    let answer = evolution::contained(older, newer);
    console::output::answer(answer);
    if answer.reply != 0 {
        return false;
    }
    tell_line(CLEAN, older, why_unclean(older));
    tell_line(CLEAN, newer, why_unclean(newer));
    tell_line(CONTAINED, older, why_uncontained(older, newer));
    true
}
