// The first reason against what is asked of a sheet: one walk over its declarations and their numbers, whatever is asked.
ghost use Rattle.std.specs.Prelude.{◌≡◌, ◌≤◌, length};
ghost use Rattle.field.specs.Leaf.{Lies};
ghost use Rattle.sheet.specs.Table.{field_tag};
ghost use Rattle.scope.specs.inner.Steps.{declaration_at};
ghost use Rattle.reasons.specs.Reasons.{reasons as reasons_of};
ghost use Rattle.evolution.specs.inner.Bearers.{DeclaredLies, BearerLies, number_for, on_declared, fields_at};
ghost use Rattle.evolution.specs.inner.Bearers.{number_reason, own_reason, numbers_reason, bearer_reason, first_reason};

use crate::flaws::{flaw_of_number, own_flaw};
use crate::losses::{loss_of_number, own_loss};
use field::Span;
use field::fields::Fields;
use named::declaration_at;
use reasons::Reason;
use roster::{Bearer, nth_declared};
use sheet::declaration::Declaration;
use sheet::table;

// What is asked of a sheet: whether it is clean, or whether a newer one contains it.
#[derive(Clone, Copy)]
pub enum Question {
    Clean,
    Contained,
}

// The reason that a number gives, which is declared for the message of this full name.
#[tactic(auto, using(crate::proofs::EitherLaws::number_reason_laws))]
fn number_reason(
    s: &[u8],
    message: &[u8],
    d: Declaration,
    newer: &[u8],
    question: Question,
    index: usize,
) -> Option<Reason>
    requires { DeclaredLies s.now d }
    ensures { result ≡ number_reason question s.now newer.now index (number_for message.now d) }
{
    match question {
        Question::Clean => flaw_of_number(s, message, d, index),
        Question::Contained => loss_of_number(s, message, d, newer, index),
    }
}

// That of the field that a field of a message is, if it is one.
#[tactic(auto, using(crate::proofs::EitherLaws::field_reason_laws))]
fn field_reason(
    s: &[u8],
    tag: u8,
    item: Span,
    message: &[u8],
    newer: &[u8],
    question: Question,
    index: usize,
) -> Option<Reason>
    requires { Lies item s.now }
    ensures { result ≡ on_declared
        (λ d. number_reason question s.now newer.now index (number_for message.now d))
        (declaration_at field_tag s.now tag item.from item.to) }
{
    let d = declaration_at(s, tag, item.from, item.to, table::FIELD)?;
    number_reason(s, message, d, newer, question, index)
}

// The first reason that the fields of a message give.
#[tactic(auto, using(crate::proofs::FieldLaws::fields_laws))]
fn fields_reason(
    s: &[u8],
    body: Span,
    message: &[u8],
    newer: &[u8],
    question: Question,
    index: usize,
) -> Option<Reason>
    requires { Lies body s.now }
    ensures { result ≡ reasons_of
        (λ d. number_reason question s.now newer.now index (number_for message.now d))
        (fields_at s.now body) }
{
    for field in Fields::between(s, body.from, body.to) {
        let field = field?;
        let item = Span {
            from: field.from,
            to: field.to,
        };
        if let Some(reason) = field_reason(s, field.tag, item, message, newer, question, index) {
            return Some(reason);
        }
    }
    None
}

// The first reason that the numbers give which it declares: a message's fields, or the one of an extension.
#[tactic(auto, using(crate::proofs::EitherLaws::numbers_reason_laws))]
fn numbers_reason(
    s: &[u8],
    bearer: Bearer,
    name: &[u8],
    newer: &[u8],
    question: Question,
    index: usize,
) -> Option<Reason>
    requires { BearerLies s.now bearer }
    ensures { result ≡ numbers_reason question s.now newer.now name.now index bearer }
{
    match bearer {
        Bearer::Message(body) => fields_reason(s, body, name, newer, question, index),
        Bearer::Enum(_) => None,
        Bearer::Extension(d) => {
            let from = d.extendee.from;
            let to = d.extendee.to;
            number_reason(s, &s[from..to], d, newer, question, index)
        }
    }
}

// The reason that it gives itself, its numbers aside.
#[tactic(auto, using(crate::proofs::EitherLaws::own_reason_laws))]
fn own_reason(
    s: &[u8],
    bearer: Bearer,
    name: &[u8],
    newer: &[u8],
    question: Question,
    index: usize,
) -> Option<Reason>
    requires { BearerLies s.now bearer }
    ensures { result ≡ own_reason question s.now newer.now name.now index bearer }
{
    match question {
        Question::Clean => own_flaw(s, bearer, name, index),
        Question::Contained => own_loss(bearer, name, newer, index),
    }
}

// The first reason of what bears this full name.
#[tactic(auto, using(crate::proofs::EitherLaws::reason_of_laws))]
fn reason_of(
    s: &[u8],
    bearer: Bearer,
    name: &[u8],
    newer: &[u8],
    question: Question,
    index: usize,
) -> Option<Reason>
    requires { BearerLies s.now bearer }
    ensures { result ≡ bearer_reason question s.now newer.now name.now index bearer }
{
    if let Some(own) = own_reason(s, bearer, name, newer, question, index) {
        return Some(own);
    }
    numbers_reason(s, bearer, name, newer, question, index)
}

// The first reason of all, with room for a full name.
#[tactic(auto, using(crate::proofs::RosterLaws::first_reason_laws))]
pub fn first_reason(s: &[u8], newer: &[u8], question: Question, room: &mut [u8]) -> Option<Reason>
    requires { length s.now ≤ length room.old }
    ensures { result ≡ first_reason question s.now newer.now }
{
    let mut i = 0;
    loop {
        let Ok(nth) = nth_declared(s, room, i) else {
            return None;
        };
        let name = &room[..nth.size];
        if let Some(reason) = reason_of(s, nth.bearer, name, newer, question, i) {
            return Some(reason);
        }
        i += 1;
    }
}
