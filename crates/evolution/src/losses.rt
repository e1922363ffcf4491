// What a newer sheet has not kept of one declaration of an older one, or of one number that it declares.
ghost use Rattle.std.specs.Prelude.{◌≡◌};
ghost use Rattle.reasons.specs.Reasons.{number_loss};
ghost use Rattle.evolution.specs.inner.Bearers.{DeclaredLies, number_for, name_loss, own_loss};

use census::{bearers, numbered};
use field::Span;
use likeness::Like;
use reasons::{Reason, Why, or_no};
use roster::Bearer;
use sheet::declaration::Declaration;
use sheet::table;

// The loss of a number that is declared for the message of this full name.
#[tactic(auto, using(crate::proofs::LossLaws::number_loss_laws))]
pub fn loss_of_number(
    s: &[u8],
    message: &[u8],
    d: Declaration,
    newer: &[u8],
    index: usize,
) -> Option<Reason>
    requires { DeclaredLies s.now d }
    ensures { result ≡ number_loss s.now newer.now index (number_for message.now d) }
{
    let like = Like {
        declaration: d,
        whole: true,
    };
    let kept = numbered(newer, message, s, like) != 0;
    or_no(kept, Why::NumberChanged, index, d.name)
}

// The loss of a message or an enum of this full name, by its kind.
#[tactic(auto, using(crate::proofs::LossLaws::name_loss_is))]
fn loss_of_name(name: &[u8], newer: &[u8], kind: u8, why: Why, index: usize) -> Option<Reason>
    ensures { result ≡ name_loss newer.now name.now kind why index }
{
    let kept = bearers(newer, name, kind) != 0;
    or_no(kept, why, index, Span { from: 0, to: 0 })
}

// The loss of what bears this full name, its numbers aside.
#[tactic(auto, using(crate::proofs::LossLaws::own_loss_laws))]
pub fn own_loss(bearer: Bearer, name: &[u8], newer: &[u8], index: usize) -> Option<Reason>
    ensures { result ≡ own_loss newer.now name.now index bearer }
{
    match bearer {
        Bearer::Message(_) => loss_of_name(name, newer, table::MESSAGE, Why::MessageLost, index),
        Bearer::Enum(_) => loss_of_name(name, newer, table::ENUM, Why::EnumLost, index),
        Bearer::Extension(_) => None,
    }
}
