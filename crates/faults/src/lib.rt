// The fault of an option: the position of a part of its name, and why. What the writer of a constant answers becomes the answer of the step on
// the last part, and the fault of an option the cause of the request's refusal.
#![tactic(auto)]

ghost use Rattle.std.specs.Prelude.{◌≡◌, ◌≤◌};
ghost use Rattle.limits.specs.Figures.{most_options};
ghost use Rattle.faults.specs.Faults.{cause_at};
ghost use Rattle.faults.specs.inner.Answering.{stepped_by};

use reply::{Cause, Refusal, Where};

// Why an option is refused, and at which part of its name, counted from 0.
#[derive(Clone, Copy)]
pub struct Fault {
    pub part: u32,
    pub why: Refusal,
}

// What the step on the last part answers, where the writer of the constant answered this: its refusal is one of that part.
#[tactic(auto, using(crate::proofs::FaultLaws::on_last_laws))]
pub fn on_last(part: u32, wrote: Result<usize, Refusal>) -> Result<usize, Fault>
    ensures { result ≡ stepped_by part wrote }
{
    match wrote {
        Ok(next) => Ok(next),
        Err(why) => Err(Fault { part, why }),
    }
}

// The cause of a request's refusal, whose option at that position has this fault.
pub fn cause_at(option: usize, fault: Fault) -> Cause
    requires { option ≤ most_options }
    ensures { result ≡ cause_at option fault }
{
    let why = fault.why;
    Cause {
        why: why,
        place: Where::Option(option as u32, fault.part),
    }
}
