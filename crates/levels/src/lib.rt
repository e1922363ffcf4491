// The levels of option bytes that are open, as a stack in lent memory, and the one function that moves it: it reads the record at a place
// and answers it as a row, with where to go on. Whoever reads option bytes goes through it; nothing recurses over bytes.
#![tactic(auto)]

ghost use Rattle.std.specs.Prelude.{◌≡◌, suc, ◌+◌, ◌*◌, ◌≤◌, ◌<◌, length};
ghost use Rattle.basis.specs.Kit.{sets};
ghost use Rattle.limits.specs.Figures.{most_option_bytes, most_levels};
ghost use Rattle.field.specs.Leaf.{Lies};
ghost use Rattle.octets.specs.Octets.{part};
ghost use Rattle.scope.specs.inner.Answers.{InSheet};
ghost use Rattle.lookups.specs.Lookups.{walking};
ghost use Rattle.entries.specs.Item.{item};
ghost use Rattle.entries.specs.inner.Fronts.{Shows, FrontLies};
ghost use Rattle.levels.specs.inner.Stack.{level_words, stack_words, words_of, level_at, message_in};
ghost use Rattle.levels.specs.inner.Left.{Open, OpenAt, left, Moves, Starts, Settles, StepsIn};

use entries::{Entry, Front, Row, front_at};
use field::Span;
use limits::MOST_LEVELS;
use reply::Refusal;
use scope::lookup::LookupScope;

// A level that is open: where the bytes of its message end, the message's path in the sheet, and its place there. The outermost has no
// path: its name is the options type.
#[derive(Clone, Copy)]
pub struct Level {
    pub end: usize,
    pub name: Span,
    pub place: LookupScope,
}

// So many words of the stack are a level.
const LEVEL_WORDS: usize = 8;

// So many words are all levels.
pub const STACK_WORDS: usize = MOST_LEVELS * LEVEL_WORDS;

// Where reading goes on: at a place, with so many levels open.
#[derive(Clone, Copy)]
pub struct Cursor {
    pub at: usize,
    pub depth: usize,
}

// What reading on comes to: a record, and where to go on.
#[derive(Clone, Copy)]
pub struct Event {
    pub row: Row,
    pub rest: Cursor,
}

// Words of the stack, from a place on.
#[tactic(auto, using(crate::proofs::StackLaws::words_laws))]
fn put_words(stack: &mut [usize], at: usize, words: &[usize])
    requires { at + length words.now ≤ length stack.old }
    ensures { stack.new ≡ sets stack.old at words.now }
{
    for i in 0..words.len() {
        stack[at + i] = words[i];
    }
}

// A level, written.
#[tactic(auto, using(crate::proofs::StackLaws::level_written))]
fn put_level(stack: &mut [usize], index: usize, level: Level)
    requires index_lt_most_levels { index < most_levels }
    requires stack_len { length stack.old ≡ stack_words }
    ensures { stack.new ≡ sets stack.old (index * level_words) (words_of level) }
{
    let words = [
        level.end,
        level.name.from,
        level.name.to,
        level.place.file,
        level.place.message as usize,
        level.place.body.from,
        level.place.body.to,
        level.place.left,
    ];
    put_words(stack, index * LEVEL_WORDS, &words);
}

// A level, read.
#[tactic(auto, using(crate::proofs::StackLaws::level_said))]
fn level_at(stack: &[usize], index: usize) -> Level
    requires index_lt_most_levels { index < most_levels }
    requires stack_len { length stack.now ≡ stack_words }
    ensures { result ≡ level_at stack.now index }
{
    let at = index * LEVEL_WORDS;
    Level {
        end: stack[at],
        name: Span {
            from: stack[at + 1],
            to: stack[at + 2],
        },
        place: LookupScope {
            file: stack[at + 3],
            message: stack[at + 4] != 0,
            body: Span {
                from: stack[at + 5],
                to: stack[at + 6],
            },
            left: stack[at + 7],
        },
    }
}

// The start of option bytes in the message at that place: the outermost level is open.
#[tactic(auto, using(crate::proofs::StartLaws::start_laws))]
pub fn start(bytes: &[u8], stack: &mut [usize], place: LookupScope) -> Cursor
    requires { length stack.old ≡ stack_words }
    ensures { Starts place bytes.now stack.new result }
{
    let level = Level {
        end: bytes.len(),
        name: Span { from: 0, to: 0 },
        place: place,
    };
    put_level(stack, 0, level);
    Cursor { at: 0, depth: 1 }
}

// How many levels are still open at a place: those that end there are closed, from the innermost out.
#[tactic(auto, using(crate::proofs::OpenLaws::closing_laws))]
fn still_open(stack: &[usize], cursor: Cursor) -> usize
    requires depth_le_most_levels { cursor.depth ≤ most_levels }
    requires stack_len { length stack.now ≡ stack_words }
    ensures { Settles stack.now cursor.at cursor.depth result }
{
    let at = cursor.at;
    let mut depth = cursor.depth;
    while 0 < depth {
        if at < stack[(depth - 1) * LEVEL_WORDS] {
            return depth;
        }
        depth -= 1;
    }
    depth
}

// The record at a place of an open level.
#[tactic(auto, using(crate::proofs::NextLaws::front_laws))]
fn front_in(
    sheet: &[u8],
    options_type: &[u8],
    bytes: &[u8],
    index: usize,
    level: Level,
    at: usize,
) -> Result<Front, Refusal>
    requires lies_2 { Lies level.name sheet.now }
    requires in_sheet { InSheet sheet.now level.place }
    requires at_le_end { (at ≤ level.end) × (level.end ≤ length bytes.now) }
    requires bytes_len_bound { length bytes.now ≤ most_option_bytes }
    ensures shows { Shows sheet.now at (item (walking sheet.now) sheet.now
        (message_in sheet.now options_type.now index level) at (part bytes.now at level.end)) result }
    ensures lies { FrontLies sheet.now at level.end result }
{
    if index == 0 {
        return front_at(sheet, options_type, level.place, bytes, at, level.end);
    }
    let from = level.name.from;
    let to = level.name.to;
    front_at(sheet, &sheet[from..to], level.place, bytes, at, level.end)
}

// The record at a place of the level of that index, which is open there.
#[tactic(auto, using(crate::proofs::NextLaws::front_laws))]
fn front_of(
    sheet: &[u8],
    options_type: &[u8],
    bytes: &[u8],
    stack: &[usize],
    index: usize,
    at: usize,
) -> Result<Front, Refusal>
    requires index_lt_most_levels { index < most_levels }
    requires stack_len { length stack.now ≡ stack_words }
    requires open_at { OpenAt sheet.now bytes.now stack.now (suc index) at }
    requires bytes_len_bound { length bytes.now ≤ most_option_bytes }
    ensures shows { Shows sheet.now at (item (walking sheet.now) sheet.now
        (message_in sheet.now options_type.now index (level_at stack.now index)) at
        (part bytes.now at (level_at stack.now index).end)) result }
    ensures lies { FrontLies sheet.now at (level_at stack.now index).end result }
{
    let level = level_at(stack, index);
    front_in(sheet, options_type, bytes, index, level, at)
}

// A known message's record, at the level below so many: its inside is the next level.
#[tactic(auto, using(crate::proofs::NextLaws::step_laws))]
fn step_in(
    stack: &mut [usize],
    depth: usize,
    entry: Entry,
    path: Span,
    place: LookupScope,
) -> Result<Event, Refusal>
    requires depth_nonzero { (0 < depth) × (depth ≤ most_levels) }
    requires stack_len { length stack.old ≡ stack_words }
    requires size_bound { entry.place + entry.size ≤ most_option_bytes }
    ensures { StepsIn stack.old depth entry path place stack.new result }
{
    if MOST_LEVELS <= depth {
        return Err(Refusal::BeyondLimit);
    }
    let at = entry.place as usize;
    let level = Level {
        end: at + (entry.size as usize),
        name: path,
        place: place,
    };
    put_level(stack, depth, level);
    Ok(Event {
        row: Row {
            level: (depth - 1) as u32,
            entry: entry,
        },
        rest: Cursor {
            at: at,
            depth: depth + 1,
        },
    })
}

// The next record.
#[tactic(auto, using(crate::proofs::NextLaws::next_laws))]
pub fn next(
    sheet: &[u8],
    options_type: &[u8],
    bytes: &[u8],
    stack: &mut [usize],
    cursor: Cursor,
) -> Result<Option<Event>, Refusal>
    requires { Open sheet.now bytes.now stack.old cursor }
    ensures { Moves sheet.now options_type.now bytes.now
        (left (walking sheet.now) sheet.now options_type.now bytes.now stack.old
        cursor.depth cursor.at) cursor.at stack.new result }
{
    let depth = still_open(stack, cursor);
    if depth == 0 {
        return Ok(None);
    }
    let index = depth - 1;
    match front_of(sheet, options_type, bytes, stack, index, cursor.at)? {
        Front::Leaf { entry, next: at } => Ok(Some(Event {
            row: Row {
                level: index as u32,
                entry: entry,
            },
            rest: Cursor {
                at: at,
                depth: depth,
            },
        })),
        Front::Inside { entry, path, place } => {
            let event = step_in(stack, depth, entry, path, place)?;
            Ok(Some(event))
        }
    }
}
