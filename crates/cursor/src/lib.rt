// The scopes at a path, one after the other: fewest package components first, then file order. A path is the text of its names, and
// a place in it where a name starts; past the end there are no names left.
#![tactic(auto)]

ghost use Rattle.std.specs.Prelude.{◌≡◌, suc, ◌≤◌, length, Some};
ghost use Rattle.field.specs.Leaf.{on_leaf};
ghost use Rattle.path.specs.inner.Places.{names_from};
ghost use Rattle.scope.specs.Scope.{holding};
ghost use Rattle.scope.specs.inner.Answers.{InSheet, placed};
ghost use Rattle.scopes.specs.Scopes.{follow as follow_of};
ghost use Rattle.cursor.specs.inner.Cursor.{here, ahead, start_of, package_at, scope_at, Within, Stands, Nexts};

use field::{Field, Span};
use limits::MOST_MESSAGES;
use path::protobuf_rel_path::{before, component_end};
use scope::lookup::{LookupScope, down};
use sheet::table;

// How far a walk through the scopes at a path has come.
#[derive(Clone, Copy)]
pub struct Cursor {
    // The packages tried now are the names before this place; the names from here on are followed as messages.
    pub next: usize,
    // The file tried next: its place, and its index.
    pub at: usize,
    pub file: usize,
}

// The next scope of such a walk, and where the walk goes on.
#[derive(Clone, Copy)]
pub struct Next {
    pub scope: LookupScope,
    pub rest: Cursor,
}

// Before the first scope. A path with no names starts past its end.
#[tactic(auto, using(crate::proofs::ScopesLaws::start_laws))]
pub fn start(bare: bool) -> Cursor
    ensures { result ≡ start_of bare }
{
    if bare {
        return Cursor {
            next: 1,
            at: 0,
            file: 0,
        };
    }
    Cursor {
        next: 0,
        at: 0,
        file: 0,
    }
}

// The scope that the names from a place on lead to, each the first message of its name.
#[tactic(auto, using(crate::proofs::ScopesLaws::follow_laws))]
fn follow(s: &[u8], names: &[u8], next: usize, scope: LookupScope) -> Option<LookupScope>
    requires { InSheet s.now scope × (next ≤ suc (length names.now)) }
    ensures { result ≡ placed (follow_of s.now (names_from names.now next) (holding s.now scope)) }
{
    let mut reached = scope;
    let mut at = next;
    while at <= names.len() {
        let end = component_end(names, at);
        reached = down(s, reached, &names[at..end])?;
        at = end + 1;
    }
    Some(reached)
}

// The package of a field of the sheet that is a file.
#[tactic(auto, using(crate::proofs::ScopesLaws::package_laws))]
fn package_at(s: &[u8], tag: u8, from: usize, to: usize) -> Option<Span>
    requires { (from ≤ to) × (to ≤ length s.now) }
    ensures { result ≡ package_at s.now tag from to }
{
    if tag != table::FILE {
        return None;
    }
    field::leaf_at(s, from, to, table::PACKAGE)
}

// How many files a field of this package is: one, or none.
fn files_in(package_name: Option<Span>) -> usize
    ensures { (result ≡ on_leaf 0 package_name (λ p. 1)) × (result ≤ 1) }
{
    if package_name.is_some() { 1 } else { 0 }
}

// The scope that a field of this package and this end gives, as the file of this index: the package is the names before the place, and
// the others are followed.
#[tactic(auto, using(crate::proofs::ScopesLaws::scope_laws))]
fn scope_at(
    s: &[u8],
    package_name: Option<Span>,
    to: usize,
    names: &[u8],
    next: usize,
    file: usize,
) -> Option<LookupScope>
    requires { Within package_name to × (to ≤ length s.now) × (next ≤ suc (length names.now)) }
    ensures { result ≡ placed (scope_at s.now names.now next file package_name to) }
{
    let place = package_name?;
    if !octets::same(before(names, next), &s[place.from..place.to]) {
        return None;
    }
    follow(
        s,
        names,
        next,
        LookupScope {
            file: file,
            message: false,
            body: Span {
                from: place.to,
                to: to,
            },
            left: MOST_MESSAGES,
        },
    )
}

// The next scope of a file whose package is the names before the cursor's place.
#[tactic(auto, using(crate::proofs::CursorLaws::here_laws))]
fn next_here(s: &[u8], names: &[u8], cursor: Cursor) -> Option<Next>
    requires { Stands s.now names.now cursor }
    ensures next { Nexts (here s.now names.now) s.now names.now cursor result }
    ensures level { (n : Next) → result ≡ Some n → n.rest.next ≡ cursor.next }
{
    let end = s.len();
    let mut at = cursor.at;
    let mut file = cursor.file;
    while at < end {
        let field = field::field_at(s, at, end)?;
        let package_name = package_at(s, field.tag, field.from, field.to);
        let index = file;
        file = index + files_in(package_name);
        at = field.to;
        if let Some(scope) = scope_at(s, package_name, field.to, names, cursor.next, index) {
            return Some(Next {
                scope: scope,
                rest: Cursor {
                    next: cursor.next,
                    at: at,
                    file: file,
                },
            });
        }
    }
    None
}

// The next scope at the path.
#[tactic(auto, using(crate::proofs::CursorLaws::scopes_laws))]
pub fn next_scope(s: &[u8], names: &[u8], cursor: Cursor) -> Option<Next>
    requires { Stands s.now names.now cursor }
    ensures { Nexts (ahead s.now names.now) s.now names.now cursor result }
{
    let mut c = cursor;
    loop {
        if let Some(next) = next_here(s, names, c) {
            return Some(next);
        }
        if names.len() < c.next {
            return None;
        }
        let end = component_end(names, c.next);
        c = Cursor {
            next: end + 1,
            at: 0,
            file: 0,
        };
    }
}
