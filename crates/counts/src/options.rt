// How many options a request has, and how many parts their names.
ghost use Rattle.std.specs.Prelude.{◌≡◌, ◌-◌, ◌≤◌, length};
ghost use Rattle.field.specs.Walk.{walk};
ghost use Rattle.request.specs.Name.{parts_in};
ghost use Rattle.request.specs.Request.{request_of};
ghost use Rattle.counts.specs.Options.{parts_of};

use request::heading::heading_of;
use request::name::part_at;
use request::table;

// How many parts stand from a place on.
#[tactic(auto, using(crate::proofs::OptionLaws::parts_laws))]
fn count_parts_at(s: &[u8], from: usize, to: usize) -> usize
    requires { (from ≤ to) × (to ≤ length s.now) }
    ensures { (result ≡ length (parts_in (walk s.now from to))) × (result ≤ to - from) }
{
    let mut n = 0;
    let mut at = from;
    while at < to {
        let Some(p) = part_at(s, at, to) else {
            return n;
        };
        n += 1;
        at = p.name.to;
    }
    n
}

// How many options the request has.
#[tactic(auto, using(crate::proofs::OptionLaws::options_laws))]
pub fn count_options(s: &[u8]) -> usize
    ensures { result ≡ length (request_of s.now).options }
{
    let Some(h) = heading_of(s) else {
        return 0;
    };
    let end = s.len();
    let mut n = 0;
    let mut at = h.options;
    while at < end {
        let Some(field) = field::field_at(s, at, end) else {
            return n;
        };
        if field.tag == table::OPTION {
            n += 1;
        }
        at = field.to;
    }
    n
}

// How many parts the names of the request's options have, all together.
#[tactic(auto, using(crate::proofs::OptionLaws::names_laws))]
pub fn count_parts(s: &[u8]) -> usize
    ensures { result ≡ parts_of (request_of s.now).options }
{
    let Some(h) = heading_of(s) else {
        return 0;
    };
    let end = s.len();
    let mut n = 0;
    let mut at = h.options;
    while at < end {
        let Some(field) = field::field_at(s, at, end) else {
            return n;
        };
        if field.tag == table::OPTION {
            n += count_parts_at(s, field.from, field.to);
        }
        at = field.to;
    }
    n
}
