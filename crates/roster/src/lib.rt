// The i-th of all messages, enums and extensions of a sheet, and its full name in lent room. Only nested messages recurse: siblings are a
// loop.
#![tactic(auto)]

ghost use Rattle.std.specs.Prelude.{◌≤◌, ◌<◌, length, take};
ghost use Rattle.field.specs.Leaf.{Lies, text};
ghost use Rattle.field.specs.Walk.{walk};
ghost use Rattle.sheet.specs.Declaration.{extension_at};
ghost use Rattle.sheet.specs.Tree.{none, enum_in, extension_in, message_in, items_in};
ghost use Rattle.scope.specs.inner.Steps.{item_at, file_at};
ghost use Rattle.names.specs.Names.{inside, declared_in, declared_by, every_declared};
ghost use Rattle.roster.specs.inner.Nth.{nowhere_in, Spelt, Finds};

use field::fields::Fields;
use field::{Span, leaf_at};
use limits::MOST_MESSAGES;
use octets::{put, put_all};
use sheet::declaration::{Declaration, extension_at};
use sheet::table;

// What bears a full name: a message, by what stands after its name; an enum, likewise; or an extension.
#[derive(Clone, Copy)]
pub enum Bearer {
    Message(Span),
    Enum(Span),
    Extension(Declaration),
}

// The i-th of a list: what it is, and how long its full name is. Where there is none, what is answered is how much further it would stand
// than the list is long.
#[derive(Clone, Copy)]
pub struct Nth {
    pub bearer: Bearer,
    pub size: usize,
}

// A name of the sheet, behind the first `at` bytes of the room, and the place after it.
fn put_name(s: &[u8], name: Span, room: &mut [u8], at: usize) -> usize
    requires lies { Lies name s.now }
    requires at_lt_from { (at < name.from) × (length s.now ≤ length room.old) }
    ensures { Spelt room.old at (text s.now name) room.new result }
{
    let from = name.from;
    let to = name.to;
    put_all(room, at, &s[from..to])
}

// A name and a dot, likewise: what stands before the names of what it holds.
fn put_inside(s: &[u8], name: Span, room: &mut [u8], at: usize) -> usize
    requires lies { Lies name s.now }
    requires at_lt_from { (at < name.from) × (length s.now ≤ length room.old) }
    ensures spelt { Spelt room.old at (inside (text s.now name)) room.new result }
    ensures ends { result ≤ name.to }
{
    let size = put_name(s, name, room, at);
    put(room, size, b'.');
    size + 1
}

// An enum, as the first of what a scope declares.
#[tactic(auto, using(crate::proofs::RosterLaws::enum_laws))]
fn nth_enum(s: &[u8], item: Span, room: &mut [u8], at: usize, i: usize) -> Result<Nth, usize>
    requires lies { Lies item s.now }
    requires at_le_from { (at ≤ item.from) × (length s.now ≤ length room.old) }
    ensures { Finds (declared_in s.now (take at room.old) nowhere_in
        (enum_in s.now item.from item.to none)) i at room.old room.new result }
{
    let Some(name) = leaf_at(s, item.from, item.to, table::NAME) else {
        return Err(i);
    };
    if i != 0 {
        return Err(i - 1);
    }
    let values = Span {
        from: name.to,
        to: item.to,
    };
    let size = put_name(s, name, room, at);
    Ok(Nth {
        bearer: Bearer::Enum(values),
        size: size,
    })
}

// An extension, likewise.
#[tactic(auto, using(crate::proofs::RosterLaws::extension_laws))]
fn nth_extension(s: &[u8], item: Span, room: &mut [u8], at: usize, i: usize) -> Result<Nth, usize>
    requires lies { Lies item s.now }
    requires at_le_from { (at ≤ item.from) × (length s.now ≤ length room.old) }
    ensures { Finds (declared_in s.now (take at room.old) nowhere_in
        (extension_in (extension_at s.now item.from item.to) none)) i at room.old room.new result }
{
    let Some(d) = extension_at(s, item.from, item.to) else {
        return Err(i);
    };
    if i != 0 {
        return Err(i - 1);
    }
    let size = put_name(s, d.name, room, at);
    Ok(Nth {
        bearer: Bearer::Extension(d),
        size: size,
    })
}

// The i-th of what a field of a scope declares, itself the first, with `left` levels of messages left. The first `at` bytes of the room
// stand in full names before its name.
#[cycle(nth_in_item_nth_in_items_nth_in_message)]
fn nth_in_item(
    s: &[u8],
    tag: u8,
    item: Span,
    left: usize,
    room: &mut [u8],
    at: usize,
    i: usize,
) -> Result<Nth, usize>
    requires lies { Lies item s.now }
    requires at_le_from { (at ≤ item.from) × (length s.now ≤ length room.old) }
    ensures { Finds (declared_in s.now (take at room.old) nowhere_in
        (item_at left s.now tag item.from item.to)) i at room.old room.new result }
{
    if tag == table::MESSAGE {
        return nth_in_message(s, item, left, room, at, i);
    }
    if tag == table::EXTENSION {
        return nth_extension(s, item, room, at, i);
    }
    if tag == table::ENUM {
        return nth_enum(s, item, room, at, i);
    }
    Err(i)
}

// The i-th of a message and what it declares, the message itself the first.
#[cycle(nth_in_item_nth_in_items_nth_in_message)]
fn nth_in_message(
    s: &[u8],
    item: Span,
    left: usize,
    room: &mut [u8],
    at: usize,
    i: usize,
) -> Result<Nth, usize>
    requires lies { Lies item s.now }
    requires at_le_from { (at ≤ item.from) × (length s.now ≤ length room.old) }
    ensures { Finds (declared_in s.now (take at room.old) nowhere_in
        (message_in left s.now item.from item.to none)) i at room.old room.new result }
{
    if left == 0 {
        return Err(i);
    }
    let end = item.to;
    let Some(name) = leaf_at(s, item.from, end, table::NAME) else {
        return Err(i);
    };
    let within = Span {
        from: name.to,
        to: end,
    };
    if i == 0 {
        let size = put_name(s, name, room, at);
        return Ok(Nth {
            bearer: Bearer::Message(within),
            size: size,
        });
    }
    let size = put_inside(s, name, room, at);
    nth_in_items(s, within, left - 1, room, size, i - 1)
}

// The i-th of what a scope declares.
#[cycle(nth_in_item_nth_in_items_nth_in_message)]
fn nth_in_items(
    s: &[u8],
    body: Span,
    left: usize,
    room: &mut [u8],
    at: usize,
    i: usize,
) -> Result<Nth, usize>
    requires lies { Lies body s.now }
    requires at_le_from { (at ≤ body.from) × (length s.now ≤ length room.old) }
    ensures { Finds (declared_in s.now (take at room.old) nowhere_in
        (items_in left s.now (walk s.now body.from body.to))) i at room.old room.new result }
{
    let mut k = i;
    for field in Fields::between(s, body.from, body.to) {
        let Some(field) = field else {
            return Err(k);
        };
        let item = Span {
            from: field.from,
            to: field.to,
        };
        match nth_in_item(s, field.tag, item, left, room, at, k) {
            Ok(nth) => return Ok(nth),
            Err(rest) => k = rest,
        }
    }
    Err(k)
}

// The i-th of what a field of a sheet declares.
#[tactic(auto, using(crate::proofs::RosterLaws::file_laws, crate::proofs::RosterLaws::leaf_laws, field::proofs::LeafLaws::leaf_inside))]
fn nth_in_file(s: &[u8], tag: u8, item: Span, room: &mut [u8], i: usize) -> Result<Nth, usize>
    requires lies { Lies item s.now }
    requires s_in_bounds { length s.now ≤ length room.old }
    ensures { Finds (declared_by s.now 0 (file_at s.now tag item.from item.to)) i 0
        room.old room.new result }
{
    if tag != table::FILE {
        return Err(i);
    }
    let end = item.to;
    let Some(package) = leaf_at(s, item.from, end, table::PACKAGE) else {
        return Err(i);
    };
    let within = Span {
        from: package.to,
        to: end,
    };
    if package.from == package.to {
        return nth_in_items(s, within, MOST_MESSAGES, room, 0, i);
    }
    let size = put_inside(s, package, room, 0);
    nth_in_items(s, within, MOST_MESSAGES, room, size, i)
}

// The i-th of all messages, enums and extensions of the sheet, its full name at the front of the room.
#[tactic(auto, using(crate::proofs::RosterLaws::declared_laws))]
pub fn nth_declared(s: &[u8], room: &mut [u8], i: usize) -> Result<Nth, usize>
    requires { length s.now ≤ length room.old }
    ensures { Finds (every_declared s.now) i 0 room.old room.new result }
{
    let mut k = i;
    for field in Fields::between(s, 0, s.len()) {
        let Some(field) = field else {
            return Err(k);
        };
        let item = Span {
            from: field.from,
            to: field.to,
        };
        match nth_in_file(s, field.tag, item, room, k) {
            Ok(nth) => return Ok(nth),
            Err(rest) => k = rest,
        }
    }
    Err(k)
}
