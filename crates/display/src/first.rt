// Where reading option bytes under a sheet starts, and goes on.
ghost use Rattle.std.specs.Prelude.{◌≡◌, suc, ◌-◌, ◌≤◌, ◌<◌, length};
ghost use Rattle.limits.specs.Figures.{most_option_bytes};
ghost use Rattle.levels.specs.inner.Stack.{stack_words};
ghost use Rattle.levels.specs.inner.Left.{Open};
ghost use Rattle.display.specs.inner.Waits.{Waits, rest_of};

use levels::{Cursor, Event, next, start};

// The next record; none at the end, or where there is a fault.
#[tactic(auto, using(crate::proofs::WaitsLaws::reading_laws))]
pub fn read_on(
    sheet: &[u8],
    options_type: &[u8],
    bytes: &[u8],
    stack: &mut [usize],
    cursor: Cursor,
) -> Option<Event>
    requires { Open sheet.now bytes.now stack.old cursor }
    ensures waits { Waits sheet.now bytes.now stack.new result }
    ensures fewer { rest_of bytes.now result < suc (length bytes.now - cursor.at) }
{
    next(sheet, options_type, bytes, stack, cursor).unwrap_or(None)
}

// The first record under a sheet; none where the options type is not found.
#[tactic(auto, using(crate::proofs::WaitsLaws::first_laws))]
pub fn first_of(
    sheet: &[u8],
    options_type: &[u8],
    bytes: &[u8],
    stack: &mut [usize],
) -> Option<Event>
    requires stack_len { length stack.old ≡ stack_words }
    requires bytes_len_bound { length bytes.now ≤ most_option_bytes }
    ensures { Waits sheet.now bytes.now stack.new result }
{
    let Ok(place) = lookups::message(sheet, options_type) else {
        return None;
    };
    let cursor = start(bytes, stack, place);
    read_on(sheet, options_type, bytes, stack, cursor)
}
