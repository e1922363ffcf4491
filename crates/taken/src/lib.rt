// What is taken of a record behind its tag: of a number that nothing declares, which is passed over; of a known one, by its type.
#![tactic(auto)]

ghost use Rattle.std.specs.Prelude.{◌≡◌};
ghost use Rattle.limits.specs.Figures.{most_option_bytes};
ghost use Rattle.taken.specs.inner.Taking.{PayloadIn, unknown_taken, known_taken};

use payloads::{Payload, value_of};
use reply::Refusal;
use types::wire_of;

// Place and size of the payload, the value, and where the next record begins.
#[derive(Clone, Copy)]
pub struct Taken {
    pub place: u32,
    pub size: u32,
    pub value: u64,
    pub next: usize,
}

// Of a number that nothing declares.
#[tactic(auto, using(crate::proofs::TakenLaws::unknown_laws))]
pub fn take_unknown(payload: Option<Payload>) -> Result<Taken, Refusal>
    requires { PayloadIn most_option_bytes payload }
    ensures { result ≡ unknown_taken payload }
{
    let Some(payload) = payload else {
        return Err(Refusal::BadBytes);
    };
    let next = payload.at + payload.size;
    Ok(Taken {
        place: payload.at as u32,
        size: payload.size as u32,
        value: 0,
        next: next,
    })
}

// Of a number that is declared by this type.
#[tactic(auto, using(crate::proofs::TakenLaws::known_laws))]
pub fn take_known(typ: usize, wire: u8, payload: Option<Payload>) -> Result<Taken, Refusal>
    requires { PayloadIn most_option_bytes payload }
    ensures { result ≡ known_taken typ wire payload }
{
    if wire_of(typ) != wire {
        return Err(Refusal::WireMismatch);
    }
    let Some(payload) = payload else {
        return Err(Refusal::BadBytes);
    };
    Ok(Taken {
        place: payload.at as u32,
        size: payload.size as u32,
        value: value_of(typ, payload.number),
        next: payload.at + payload.size,
    })
}
