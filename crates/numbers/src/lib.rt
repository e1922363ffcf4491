// The declaration of a number at a message: the message's fields first, then the sheet's extensions of it in the order of the bytes.
#![tactic(auto)]

ghost use Rattle.std.specs.Prelude.{◌≡◌, ◌≤◌, length, None};
ghost use Rattle.field.specs.Leaf.{Lies};
ghost use Rattle.field.specs.Walk.{walk};
ghost use Rattle.sheet.specs.Table.{extension_tag, field_tag};
ghost use Rattle.sheet.specs.Tree.{items_in};
ghost use Rattle.sheet.specs.Members.{every_extension_of, every_extension};
ghost use Rattle.basis.specs.First.{first};
ghost use Rattle.scope.specs.Scope.{holding};
ghost use Rattle.scope.specs.inner.Answers.{InSheet, declared};
ghost use Rattle.scope.specs.inner.Steps.{declaration_at, tells_declared, whose, item_at, file_at};
ghost use Rattle.numbers.specs.Number.{has_number, is_extension_of, field_numbered, extension_numbered, declaration_of};
ghost use Rattle.numbers.specs.inner.Says.{says_number, field_says, extension_says, may_hold};

use field::Span;
use field::fields::Fields;
use limits::MOST_MESSAGES;
use named::{declaration_at, extends};
use scope::lookup::LookupScope;
use sheet::declaration::Declaration;
use sheet::table;

// Whether the number of a declaration is this one. It is read before the rest: most declarations that a look-up comes by are of another.
#[tactic(auto, using(crate::proofs::SaysLaws::says_number_laws))]
fn says_number(s: &[u8], at: usize, end: usize, number: u32) -> bool
    requires { (at ≤ end) × (end ≤ length s.now) }
    ensures { result ≡ says_number number s.now at end }
{
    let Some(place) = field::sized_at(s, at, end, table::NUMBER, 4) else {
        return false;
    };
    octets::u32_at(s, place.from) == number
}

// Whether a field says this number.
#[tactic(auto, using(crate::proofs::SaysLaws::field_says_laws, crate::proofs::SaysLaws::says_number_laws))]
fn field_says(s: &[u8], item: Span, number: u32) -> bool
    requires { Lies item s.now }
    ensures { result ≡ field_says number s.now item.from item.to }
{
    let Some(name) = field::leaf_at(s, item.from, item.to, table::NAME) else {
        return false;
    };
    says_number(s, name.to, item.to, number)
}

// Whether an extension says this number.
#[tactic(auto, using(crate::proofs::SaysLaws::extension_says_laws, crate::proofs::SaysLaws::says_number_laws))]
fn extension_says(s: &[u8], item: Span, number: u32) -> bool
    requires { Lies item s.now }
    ensures { result ≡ extension_says number s.now item.from item.to }
{
    let end = item.to;
    let Some(name) = field::leaf_at(s, item.from, end, table::NAME) else {
        return false;
    };
    let Some(extendee) = field::leaf_at(s, name.to, end, table::EXTENDEE) else {
        return false;
    };
    says_number(s, extendee.to, end, number)
}

// The field of a message that a field of its body is, where it is of this number.
#[tactic(auto, using(crate::proofs::NumberLaws::field_numbered_at_laws))]
fn field_numbered_at(s: &[u8], tag: u8, item: Span, number: u32) -> Option<Declaration>
    requires { Lies item s.now }
    ensures { result ≡ whose None tells_declared (has_number number)
        (declaration_at field_tag s.now tag item.from item.to) }
{
    if tag != table::FIELD {
        return None;
    }
    if !field_says(s, item, number) {
        return None;
    }
    let d = declaration_at(s, tag, item.from, item.to, table::FIELD)?;
    if d.shape.number != number {
        return None;
    }
    Some(d)
}

// The first field of that number of the message.
#[tactic(auto, using(crate::proofs::NumberLaws::field_numbered_laws))]
fn field_numbered(s: &[u8], scope: LookupScope, number: u32) -> Option<Declaration>
    requires { InSheet s.now scope }
    ensures { result ≡ declared (field_numbered number (holding s.now scope)) }
{
    for field in Fields::between(s, scope.body.from, scope.body.to) {
        let field = field?;
        let item = Span {
            from: field.from,
            to: field.to,
        };
        if let Some(d) = field_numbered_at(s, field.tag, item, number) {
            return Some(d);
        }
    }
    None
}

// The extension that a field of a scope is, where it is of this message and number, read as a whole.
#[tactic(auto, using(crate::proofs::NumberLaws::extension_read_at_laws))]
fn extension_read_at(
    s: &[u8],
    tag: u8,
    item: Span,
    message: &[u8],
    number: u32,
) -> Option<Declaration>
    requires { Lies item s.now }
    ensures { result ≡ whose None tells_declared (is_extension_of s.now message.now number)
        (declaration_at extension_tag s.now tag item.from item.to) }
{
    let d = declaration_at(s, tag, item.from, item.to, table::EXTENSION)?;
    if d.shape.number != number {
        return None;
    }
    if !extends(s, message, d) {
        return None;
    }
    Some(d)
}

// Whether an extension of this number may stand in a field of a scope: whether that is a message, or an extension that says this number. It
// is a test by itself, so that a loop that comes by many others hands no declaration on for them.
#[tactic(auto, using(crate::proofs::NumberLaws::may_hold_laws))]
fn may_hold(s: &[u8], tag: u8, item: Span, number: u32) -> bool
    requires { Lies item s.now }
    ensures { result ≡ may_hold number s.now tag item.from item.to }
{
    if tag == table::EXTENSION {
        return extension_says(s, item, number);
    }
    tag == table::MESSAGE
}

// The first one in a field of a scope, at every depth, with `left` levels of messages left.
#[cycle(extension_in_item_extension_in_items)]
#[tactic(auto, using(crate::proofs::NumberLaws::in_item_laws))]
fn extension_in_item(
    s: &[u8],
    tag: u8,
    item: Span,
    left: usize,
    message: &[u8],
    number: u32,
) -> Option<Declaration>
    requires { Lies item s.now }
    ensures { result ≡ declared (first (is_extension_of s.now message.now number)
        (every_extension_of (item_at left s.now tag item.from item.to))) }
{
    if tag != table::MESSAGE {
        return extension_read_at(s, tag, item, message, number);
    }
    if left == 0 {
        return None;
    }
    let end = item.to;
    let name = field::leaf_at(s, item.from, end, table::NAME)?;
    let inside = Span {
        from: name.to,
        to: end,
    };
    extension_in_items(s, inside, left - 1, message, number)
}

// The first one in what a scope holds.
#[cycle(extension_in_item_extension_in_items)]
#[tactic(auto, using(crate::proofs::NumberLaws::in_items_laws))]
fn extension_in_items(
    s: &[u8],
    body: Span,
    left: usize,
    message: &[u8],
    number: u32,
) -> Option<Declaration>
    requires { Lies body s.now }
    ensures { result ≡ declared (first (is_extension_of s.now message.now number)
        (every_extension_of (items_in left s.now (walk s.now body.from body.to)))) }
{
    for field in Fields::between(s, body.from, body.to) {
        let field = field?;
        let item = Span {
            from: field.from,
            to: field.to,
        };
        if may_hold(s, field.tag, item, number) {
            if let Some(d) = extension_in_item(s, field.tag, item, left, message, number) {
                return Some(d);
            }
        }
    }
    None
}

// The first one in a field of a sheet.
#[tactic(auto, using(crate::proofs::NumberLaws::in_file_laws))]
fn extension_in_file(
    s: &[u8],
    tag: u8,
    item: Span,
    message: &[u8],
    number: u32,
) -> Option<Declaration>
    requires { Lies item s.now }
    ensures { result ≡ declared (first (is_extension_of s.now message.now number)
        (every_extension (file_at s.now tag item.from item.to))) }
{
    if tag != table::FILE {
        return None;
    }
    let end = item.to;
    let package = field::leaf_at(s, item.from, end, table::PACKAGE)?;
    let inside = Span {
        from: package.to,
        to: end,
    };
    extension_in_items(s, inside, MOST_MESSAGES, message, number)
}

// The first extension of that message and number, wherever the sheet declares it.
#[tactic(auto, using(crate::proofs::NumberLaws::extension_numbered_laws))]
fn extension_numbered(s: &[u8], message: &[u8], number: u32) -> Option<Declaration>
    ensures { result ≡ declared (extension_numbered s.now message.now number) }
{
    for field in Fields::between(s, 0, s.len()) {
        let field = field?;
        let item = Span {
            from: field.from,
            to: field.to,
        };
        if let Some(d) = extension_in_file(s, field.tag, item, message, number) {
            return Some(d);
        }
    }
    None
}

// What declares the number at the message that the scope is and whose full name is `message`.
#[tactic(auto, using(crate::proofs::NumberLaws::declaration_of_laws))]
pub fn declaration_of(
    s: &[u8],
    scope: LookupScope,
    message: &[u8],
    number: u32,
) -> Option<Declaration>
    requires { InSheet s.now scope }
    ensures { result ≡ declared (declaration_of s.now (holding s.now scope) message.now number) }
{
    if let Some(d) = field_numbered(s, scope, number) {
        return Some(d);
    }
    extension_numbered(s, message, number)
}
