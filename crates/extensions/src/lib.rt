// The search of 01 in code, as protobuf-parse's option_resolver has it: the first candidate, the first scope, the first of that name; only then
// is its extendee compared. Everything is a walk over the lent sheet, and code equals definition on every sheet, well-formed or not.
#![tactic(auto)]

ghost use Rattle.std.specs.Prelude.{◌≡◌, true, ◌≤◌, length, Err, Ok};
ghost use Rattle.limits.specs.Figures.{most_candidate};
ghost use Rattle.path.specs.Path.{components, is_rel_or_empty, is_path};
ghost use Rattle.basis.specs.First.{first_some};
ghost use Rattle.cursor.specs.inner.Cursor.{ahead, Stands};
ghost use Rattle.search.specs.Lookup.{found_in, or_not_found, find_extension_by_abs_path, tried, find_extension_by_path, ext_resolve_field};

use candidates::protobuf_path::{candidate, candidates};
use cursor::{Cursor, Next, next_scope, start};
use named::{declaration_named, extends};
use path::protobuf_rel_path::{before, last_at};
use reply::Refusal;
use search::extension::{Candidate, Compared, Found};
use sheet::table;

// The first extension of that name in the scopes that are still to come.
#[tactic(auto, using(crate::proofs::ExtensionLaws::first_extension_laws))]
fn first_extension(s: &[u8], names: &[u8], cursor: Cursor, name: &[u8]) -> Result<Found, Refusal>
    requires { Stands s.now names.now cursor }
    ensures { result ≡ or_not_found Ok Err (first_some (found_in s.now name.now)
        (ahead s.now names.now cursor)) }
{
    let mut c = cursor;
    loop {
        let next = next_scope(s, names, c).ok_or(Refusal::ExtensionNotFound)?;
        c = next.rest;
        if let Some(d) = declaration_named(s, next.scope, table::EXTENSION, name) {
            return Ok(Found {
                file: next.scope.file,
                declaration: d,
            });
        }
    }
}

// The extension of a full name.
#[tactic(auto, using(crate::proofs::ExtensionLaws::abs_extension_laws))]
pub fn find_extension_by_abs_path(s: &[u8], path: &[u8]) -> Result<Found, Refusal>
    ensures { result ≡ find_extension_by_abs_path s.now (components path.now) }
{
    if path.len() == 0 {
        return Err(Refusal::ExtensionNotFound);
    }
    let last = last_at(path);
    first_extension(s, before(path, last), start(last == 0), &path[last..])
}

// The candidates of a name in a scope, put together in lent room and looked up one after the other, until one answers.
#[tactic(auto, using(crate::proofs::ExtensionLaws::try_candidates_laws))]
pub fn try_candidates(
    s: &[u8],
    scope: &[u8],
    path: &[u8],
    room: &mut [u8],
) -> Result<Candidate, Refusal>
    requires { (is_rel_or_empty scope.now ≡ true) × (is_path path.now ≡ true) × (most_candidate ≤ length room.old) }
    ensures { result ≡ tried s.now scope.now path.now }
{
    let count = candidates(scope, path);
    for i in 0..count {
        let n = candidate(scope, path, i, room);
        if let Ok(found) = find_extension_by_abs_path(s, &room[..n]) {
            return Ok(Candidate { position: i, found });
        }
    }
    Err(Refusal::ExtensionNotFound)
}

// The extension that a name finds in a scope.
#[tactic(auto, using(crate::proofs::ExtensionLaws::extension_by_path_laws))]
pub fn find_extension_by_path(
    s: &[u8],
    scope: &[u8],
    path: &[u8],
    room: &mut [u8],
) -> Result<Found, Refusal>
    requires { (is_rel_or_empty scope.now ≡ true) × (is_path path.now ≡ true) × (most_candidate ≤ length room.old) }
    ensures { result ≡ find_extension_by_path s.now scope.now path.now }
{
    let first = try_candidates(s, scope, path, room)?;
    Ok(first.found)
}

// The candidate that answers, compared with the message of that full name. A mismatch ends the search.
#[tactic(auto, using(crate::proofs::ExtensionLaws::resolve_laws))]
pub fn ext_resolve_field_ext(
    s: &[u8],
    scope: &[u8],
    message: &[u8],
    path: &[u8],
    room: &mut [u8],
) -> Result<Compared, Refusal>
    requires { (is_rel_or_empty scope.now ≡ true) × (is_path path.now ≡ true) × (most_candidate ≤ length room.old) }
    ensures { result ≡ ext_resolve_field s.now scope.now message.now path.now }
{
    let first = try_candidates(s, scope, path, room)?;
    if !extends(s, message, first.found.declaration) {
        return Ok(Compared::ExtendsOther(first));
    }
    Ok(Compared::Extends(first))
}
