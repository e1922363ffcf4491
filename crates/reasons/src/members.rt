// The fields of a message, or the values of an enum, by name: no two may share one.
ghost use Rattle.std.specs.Prelude.{◌≡◌, [], ◌≤◌};
ghost use Rattle.basis.specs.Count.{count};
ghost use Rattle.field.specs.Leaf.{Lies, is_text};
ghost use Rattle.field.specs.Walk.{walk};
ghost use Rattle.reasons.specs.Reasons.{member_flaws};
ghost use Rattle.reasons.specs.inner.Members.{member_at, leaf_onto, members_in, member_flaw};

use crate::{Reason, Why, or_no};
use field::Span;
use field::fields::Fields;
use octets::same;
use sheet::declaration::{message_field_at, value_at};
use sheet::table;

// The name of the field or the value that a field is, where its tag is `want`, the one or the other.
#[tactic(auto, using(crate::proofs::MemberLaws::member_at_laws))]
fn member_at(s: &[u8], tag: u8, item: Span, want: u8) -> Option<Span>
    requires { Lies item s.now }
    ensures { result ≡ member_at want s.now tag item.from item.to }
{
    if tag != want {
        return None;
    }
    if want == table::FIELD {
        let field = message_field_at(s, item.from, item.to)?;
        return Some(field.name);
    }
    let value = value_at(s, item.from, item.to)?;
    Some(value.name)
}

// 1 where a field is such a member of this name.
#[tactic(auto, using(crate::proofs::MemberLaws::one_named_laws))]
fn one_named(s: &[u8], tag: u8, item: Span, want: u8, name: &[u8]) -> usize
    requires { Lies item s.now }
    ensures { (result ≡ count (is_text s.now name.now)
        (leaf_onto (member_at want s.now tag item.from item.to) [])) × (result ≤ 1) }
{
    let Some(own) = member_at(s, tag, item, want) else {
        return 0;
    };
    if same(name, &s[own.from..own.to]) {
        1
    } else {
        0
    }
}

// How many members have this name.
#[tactic(auto, using(crate::proofs::MemberLaws::count_named_laws))]
fn count_named(s: &[u8], body: Span, want: u8, name: &[u8]) -> usize
    requires { Lies body s.now }
    ensures { result ≡ count (is_text s.now name.now)
        (members_in want s.now (walk s.now body.from body.to)) }
{
    let mut n = 0;
    for field in Fields::between(s, body.from, body.to) {
        let Some(field) = field else {
            return n;
        };
        let item = Span {
            from: field.from,
            to: field.to,
        };
        n += one_named(s, field.tag, item, want, name);
    }
    n
}

// A member that shares its name with another.
#[tactic(auto, using(crate::proofs::MemberLaws::member_flaw_laws))]
fn flaw_of_member(
    s: &[u8],
    tag: u8,
    item: Span,
    body: Span,
    want: u8,
    why: Why,
    index: usize,
) -> Option<Reason>
    requires lies { Lies item s.now }
    requires lies_2 { Lies body s.now }
    ensures { result ≡ member_flaw s.now why index (members_in want s.now (walk s.now body.from body.to))
        (member_at want s.now tag item.from item.to) }
{
    let name = member_at(s, tag, item, want)?;
    let n = count_named(s, body, want, &s[name.from..name.to]);
    or_no(n == 1, why, index, name)
}

// The first member that shares its name with another.
#[tactic(auto, using(crate::proofs::MemberLaws::member_flaws_laws))]
pub fn flaw_of_members(s: &[u8], body: Span, want: u8, why: Why, index: usize) -> Option<Reason>
    requires { Lies body s.now }
    ensures { result ≡ member_flaws s.now why index
        (members_in want s.now (walk s.now body.from body.to)) }
{
    for field in Fields::between(s, body.from, body.to) {
        let field = field?;
        let item = Span {
            from: field.from,
            to: field.to,
        };
        if let Some(flaw) = flaw_of_member(s, field.tag, item, body, want, why, index) {
            return Some(flaw);
        }
    }
    None
}
