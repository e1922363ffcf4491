// Why a sheet is not clean, or not contained in another: the first reason, as a value; and the tests that look at one message or enum alone.
#![tactic(auto)]

pub mod members;

ghost use Rattle.std.specs.Prelude.{◌≡◌};
ghost use Rattle.reasons.specs.Reasons.{or_no};

use field::Span;

// What is amiss with a message, an enum or an extension, or with one of its fields or values.
#[derive(Clone, Copy)]
pub enum Why {
    // Its full name is borne by another one.
    NameShared,
    // Two of its fields, or of its values, share a name.
    FieldShared,
    ValueShared,
    // Its extendee does not name one message.
    ExtendeeUnclear,
    // A number is declared twice for one message.
    NumberShared,
    // A type path does not name one declaration of its kind.
    TypeUnclear,
    // The newer sheet has no message, or no enum, of its full name.
    MessageLost,
    EnumLost,
    // The newer sheet declares no number for that message alike.
    NumberChanged,
}

// A reason why not: what is amiss, with the i-th of all declarations of the sheet, and where it says so, in a name or a path.
#[derive(Clone, Copy)]
pub struct Reason {
    pub why: Why,
    pub index: usize,
    pub about: Span,
}

// This reason, where the test does not hold.
#[tactic(auto, using(crate::proofs::ReasonLaws::or_no_laws))]
pub fn or_no(test: bool, why: Why, index: usize, about: Span) -> Option<Reason>
    ensures { result ≡ or_no test why index about }
{
    if test {
        return None;
    }
    Some(Reason {
        why: why,
        index: index,
        about: about,
    })
}
