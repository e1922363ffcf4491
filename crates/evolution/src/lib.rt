// Whether a sheet is clean, and whether one is contained in another: yes or no, and the first reason why not.
#![tactic(auto)]

mod first;
mod flaws;
mod losses;

ghost use Rattle.std.specs.Prelude.{◌≡◌, ◌≤◌, length};
ghost use Rattle.limits.specs.Figures.{most_sheet};
ghost use Rattle.evolution.specs.Calls.{clean_answer, contained_answer, why_unclean, why_uncontained};
ghost use Rattle.evolution.specs.inner.Bearers.{first_reason, why_not};

use crate::first::{Question, first_reason};
use limits::MOST_SHEET;
use reasons::Reason;
use reply::Answer;
use sheetform::check_sheet;

// The first reason, of a sheet that is short enough.
fn reason_in_room(sheet: &[u8], newer: &[u8], question: Question) -> Option<Reason>
    requires { length sheet.now ≤ most_sheet }
    ensures { result ≡ first_reason question sheet.now newer.now }
{
    let mut room = [0u8; MOST_SHEET];
    first_reason(sheet, newer, question, &mut room)
}

// The first reason. Of a sheet that is too long there is nothing to say: the calls refuse it.
#[tactic(auto, using(crate::proofs::CallLaws::why_not_laws))]
fn why_not(sheet: &[u8], newer: &[u8], question: Question) -> Option<Reason>
    ensures { result ≡ why_not question sheet.now newer.now }
{
    if MOST_SHEET < sheet.len() {
        return None;
    }
    reason_in_room(sheet, newer, question)
}

// Why a sheet is not clean.
#[tactic(auto, using(crate::proofs::CallLaws::unclean_is))]
pub fn why_unclean(sheet: &[u8]) -> Option<Reason>
    ensures { result ≡ why_unclean sheet.now }
{
    why_not(sheet, sheet, Question::Clean)
}

// Why the older sheet is not contained in the newer one.
#[tactic(auto, using(crate::proofs::CallLaws::uncontained_is))]
pub fn why_uncontained(older: &[u8], newer: &[u8]) -> Option<Reason>
    ensures { result ≡ why_uncontained older.now newer.now }
{
    why_not(older, newer, Question::Contained)
}

// Whether the sheet is clean.
#[tactic(auto, using(crate::proofs::CallLaws::clean_laws))]
pub fn clean(sheet: &[u8]) -> Answer
    ensures { result ≡ clean_answer sheet.now }
{
    if let Err(why) = check_sheet(sheet) {
        return reply::refused(why);
    }
    reply::decided(why_unclean(sheet).is_none())
}

// Whether the older sheet is contained in the newer one.
#[tactic(auto, using(crate::proofs::CallLaws::contained_laws))]
pub fn contained(older: &[u8], newer: &[u8]) -> Answer
    ensures { result ≡ contained_answer older.now newer.now }
{
    if let Err(why) = check_sheet(older) {
        return reply::refused(why);
    }
    if let Err(why) = check_sheet(newer) {
        return reply::refused(why);
    }
    reply::decided(why_uncontained(older, newer).is_none())
}
