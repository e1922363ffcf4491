// One record of option bytes, read under a message of the sheet: what declares its number, its payload and its value; a known message's own
// place in the sheet.
#![tactic(auto)]

ghost use Rattle.std.specs.Prelude.{◌≡◌, true, ◌≤◌, length};
ghost use Rattle.limits.specs.Figures.{most_option_bytes};
ghost use Rattle.octets.specs.Octets.{part};
ghost use Rattle.field.specs.Leaf.{Lies};
ghost use Rattle.wire.specs.Tag.{tag_good};
ghost use Rattle.scope.specs.inner.Answers.{InSheet};
ghost use Rattle.taken.specs.inner.Taking.{PayloadIn};
ghost use Rattle.lookups.specs.Lookups.{walking};
ghost use Rattle.entries.specs.Item.{item};
ghost use Rattle.entries.specs.inner.Fronts.{message as message_of, unknown_of, known_of, entered_of, behind_tag, Shows, FrontLies};

use field::Span;
use numbers::declaration_of;
use payloads::{Payload, payload_at};
use reply::Refusal;
use scope::lookup::LookupScope;
use sheet::declaration::Declaration;
use taken::{take_known, take_unknown};
use types::TYPE_MESSAGE;
use varint::{Read, varint_at};
use wire::tag::{number_of, tag_good, wire_type_of};

// A record: its number, its type (0 where unknown), its wire type, place and size of its payload, its value, and what declares its number.
#[derive(Clone, Copy)]
pub struct Entry {
    pub number: u32,
    pub typ: u8,
    pub wire: u8,
    pub place: u32,
    pub size: u32,
    pub value: u64,
    pub by: Option<Declaration>,
}

// A record with its level, 0 the outermost.
#[derive(Clone, Copy)]
pub struct Row {
    pub level: u32,
    pub entry: Entry,
}

// The record at a place: one that holds nothing and where the next begins; or a known message with its path and its place in the sheet,
// whose inside is its payload.
#[derive(Clone, Copy)]
pub enum Front {
    Leaf {
        entry: Entry,
        next: usize,
    },
    Inside {
        entry: Entry,
        path: Span,
        place: LookupScope,
    },
}

// A record of a number that nothing declares.
#[tactic(auto, using(crate::proofs::RecordLaws::unknown_laws), unfolding(crate::specs::inner::Fronts::unknown_of))]
fn unknown(number: u32, wire: u8, payload: Option<Payload>) -> Result<Front, Refusal>
    requires { PayloadIn most_option_bytes payload }
    ensures { result ≡ unknown_of number wire payload }
{
    let taken = take_unknown(payload)?;
    Ok(Front::Leaf {
        entry: Entry {
            number: number,
            typ: 0,
            wire: wire,
            place: taken.place,
            size: taken.size,
            value: taken.value,
            by: None,
        },
        next: taken.next,
    })
}

// A known message, where its type path names one.
#[tactic(auto, using(crate::proofs::RecordLaws::entered_laws), unfolding(crate::specs::inner::Fronts::entered_of))]
fn entered(sheet: &[u8], entry: Entry, path: Span) -> Result<Front, Refusal>
    requires { Lies path sheet.now }
    ensures { result ≡ entered_of (walking sheet.now) sheet.now entry path }
{
    let place = lookups::message_at(sheet, path)?;
    Ok(Front::Inside {
        entry: entry,
        path: path,
        place: place,
    })
}

// A record that this declares.
#[tactic(auto, using(crate::proofs::RecordLaws::known_laws), unfolding(crate::specs::inner::Fronts::known_of))]
fn known(
    sheet: &[u8],
    d: Declaration,
    number: u32,
    wire: u8,
    payload: Option<Payload>,
) -> Result<Front, Refusal>
    requires payload_in { PayloadIn most_option_bytes payload }
    requires lies { Lies d.shape.path sheet.now }
    ensures { result ≡ known_of (walking sheet.now) sheet.now d number wire payload }
{
    let typ = octets::wide(d.shape.typ);
    let taken = take_known(typ, wire, payload)?;
    let entry = Entry {
        number: number,
        typ: d.shape.typ,
        wire: wire,
        place: taken.place,
        size: taken.size,
        value: taken.value,
        by: Some(d),
    };
    if typ == TYPE_MESSAGE {
        return entered(sheet, entry, d.shape.path);
    }
    Ok(Front::Leaf {
        entry: entry,
        next: taken.next,
    })
}

// The record behind a good tag that ends at `at`.
#[tactic(auto, using(crate::proofs::RecordLaws::behind_tag_laws))]
fn behind_tag(
    sheet: &[u8],
    message: &[u8],
    place: LookupScope,
    bytes: &[u8],
    tag: u64,
    at: usize,
    end: usize,
) -> Result<Front, Refusal>
    requires in_sheet { InSheet sheet.now place }
    requires at_le_end { (at ≤ end) × (end ≤ length bytes.now) }
    requires bytes_len_bound { length bytes.now ≤ most_option_bytes }
    requires tag_value { tag_good tag ≡ true }
    ensures { result ≡ behind_tag (walking sheet.now) sheet.now (message_of message.now place)
        bytes.now tag at end }
{
    let number = number_of(tag) as u32;
    let wire = wire_type_of(tag);
    let payload = payload_at(bytes, wire, at, end);
    match declaration_of(sheet, place, message, number) {
        None => unknown(number, wire, payload),
        Some(d) => known(sheet, d, number, wire, payload),
    }
}

// The record at a place of the option bytes, in the message of that name and place whose bytes end at `end`.
#[tactic(auto, using(crate::proofs::LiesLaws::front_at_laws))]
pub fn front_at(
    sheet: &[u8],
    message: &[u8],
    place: LookupScope,
    bytes: &[u8],
    at: usize,
    end: usize,
) -> Result<Front, Refusal>
    requires in_sheet { InSheet sheet.now place }
    requires at_le_end { (at ≤ end) × (end ≤ length bytes.now) }
    requires bytes_len_bound { length bytes.now ≤ most_option_bytes }
    ensures shows { Shows sheet.now at (item (walking sheet.now) sheet.now
        (message_of message.now place) at (part bytes.now at end)) result }
    ensures lies { FrontLies sheet.now at end result }
{
    let Some(read) = varint_at(bytes, at, end) else {
        return Err(Refusal::BadBytes);
    };
    if !tag_good(read.value) {
        return Err(Refusal::BadBytes);
    }
    behind_tag(sheet, message, place, bytes, read.value, read.next, end)
}
