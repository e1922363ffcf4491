// A scope, and the way down from one to a message or an enum in it.
ghost use Rattle.std.specs.Prelude.{◌≡◌, ◌≤◌, length};
ghost use Rattle.octets.specs.Octets.{same_bytes};
ghost use Rattle.field.specs.Leaf.{leaf_at};
ghost use Rattle.field.specs.Walk.{walk};
ghost use Rattle.sheet.specs.Table.{name_tag};
ghost use Rattle.scope.specs.Scope.{holding, down as down_of, enum_named};
ghost use Rattle.scope.specs.inner.Answers.{InSheet, placed, bodied};
ghost use Rattle.scope.specs.inner.Steps.{body_at, body_named};

use field::Span;
use field::fields::Fields;
use sheet::table;

// A file or a message of the sheet, protobuf-parse's LookupScope2.
#[derive(Clone, Copy)]
pub struct LookupScope {
    // The index of its file.
    pub file: usize,
    pub message: bool,
    // Where its declarations stand.
    pub body: Span,
    // How many levels of messages it may hold.
    pub left: usize,
}

// The name that a payload begins with, where it is this one.
#[tactic(auto, using(crate::proofs::LookupLaws::named_at_laws))]
pub fn named_at(s: &[u8], from: usize, to: usize, name: &[u8]) -> Option<Span>
    requires { (from ≤ to) × (to ≤ length s.now) }
    ensures { result ≡ leaf_at name_tag (same_bytes name.now) s.now from to }
{
    let place = field::leaf_at(s, from, to, table::NAME)?;
    if !octets::same(name, &s[place.from..place.to]) {
        return None;
    }
    Some(place)
}

// What stands after the name in a field of the tag `want` and of this name.
#[tactic(auto, using(crate::proofs::LookupLaws::body_at_laws))]
fn body_at(s: &[u8], tag: u8, from: usize, to: usize, want: u8, name: &[u8]) -> Option<Span>
    requires { (from ≤ to) × (to ≤ length s.now) }
    ensures { result ≡ body_at want name.now s.now tag from to }
{
    if tag != want {
        return None;
    }
    let place = named_at(s, from, to, name)?;
    Some(Span {
        from: place.to,
        to: to,
    })
}

// What stands after the name in the first field of that tag and name in the scope.
#[tactic(auto, using(crate::proofs::LookupLaws::body_named_laws))]
fn body_named(s: &[u8], scope: LookupScope, want: u8, name: &[u8]) -> Option<Span>
    requires { InSheet s.now scope }
    ensures { result ≡ body_named want name.now s.now
        (walk s.now scope.body.from scope.body.to) }
{
    for field in Fields::between(s, scope.body.from, scope.body.to) {
        let field = field?;
        if let Some(body) = body_at(s, field.tag, field.from, field.to, want, name) {
            return Some(body);
        }
    }
    None
}

// The first message of that name in the scope.
#[tactic(auto, using(crate::proofs::LookupLaws::down_laws))]
pub fn down(s: &[u8], scope: LookupScope, name: &[u8]) -> Option<LookupScope>
    requires { InSheet s.now scope }
    ensures { result ≡ placed (down_of s.now name.now (holding s.now scope)) }
{
    if scope.left == 0 {
        return None;
    }
    let place = body_named(s, scope, table::MESSAGE, name)?;
    Some(LookupScope {
        file: scope.file,
        message: true,
        body: place,
        left: scope.left - 1,
    })
}

// Where the values of the first enum of that name in the scope stand.
#[tactic(auto, using(crate::proofs::LookupLaws::enum_named_is))]
pub fn enum_named(s: &[u8], scope: LookupScope, name: &[u8]) -> Option<Span>
    requires { InSheet s.now scope }
    ensures { result ≡ bodied (enum_named s.now name.now (holding s.now scope)) }
{
    body_named(s, scope, table::ENUM, name)
}
