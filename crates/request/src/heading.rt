// The heading of a request, its scope and the path of its options type, and where the parts of an option end.
ghost use Rattle.std.specs.Prelude.{◌≡◌, ◌≤◌, length};
ghost use Rattle.field.specs.Walk.{walk};
ghost use Rattle.request.specs.Name.{after_parts};
ghost use Rattle.request.specs.Request.{heading_of};

use crate::name::part_at;
use crate::table;
use field::{Span, leaf_at};

// What stands before the options, and where these start.
#[derive(Clone, Copy)]
pub struct Heading {
    pub scope: Span,
    // The path of the options type.
    pub options_type: Span,
    pub options: usize,
}

// The scope and the options type of a request.
#[tactic(auto, using(crate::proofs::RequestLaws::heading_laws), unfolding(crate::specs::Request::heading_of))]
pub fn heading_of(s: &[u8]) -> Option<Heading>
    ensures { result ≡ heading_of s.now }
{
    let end = s.len();
    let scope = leaf_at(s, 0, end, table::SCOPE)?;
    let options_type = leaf_at(s, scope.to, end, table::OPTIONS_TYPE)?;
    Some(Heading {
        scope: scope,
        options_type: options_type,
        options: options_type.to,
    })
}

// Where the parts that stand from a place on end.
#[tactic(auto, using(crate::proofs::RequestLaws::after_laws))]
pub fn after_parts(s: &[u8], from: usize, to: usize) -> usize
    requires { (from ≤ to) × (to ≤ length s.now) }
    ensures { result ≡ after_parts from (walk s.now from to) }
{
    let mut at = from;
    while at < to {
        let Some(p) = part_at(s, at, to) else {
            return at;
        };
        at = p.name.to;
    }
    at
}
