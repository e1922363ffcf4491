// What is not clean about one declaration of a sheet, or about one number that it declares.
ghost use Rattle.std.specs.Prelude.{◌≡◌};
ghost use Rattle.field.specs.Leaf.{Lies, text};
ghost use Rattle.names.specs.Clean.{names_one, clean_path};
ghost use Rattle.reasons.specs.Reasons.{number_flaw};
ghost use Rattle.evolution.specs.inner.Bearers.{DeclaredLies, BearerLies, number_for, own_flaw};

use census::{ANY_KIND, bearers, numbered};
use field::Span;
use likeness::Like;
use reasons::members::flaw_of_members;
use reasons::{Reason, Why, or_no};
use roster::Bearer;
use sheet::declaration::{Declaration, has_type_path};
use sheet::table;
use types::TYPE_ENUM;

// Whether a span of the sheet is the full name of exactly one declaration of that kind.
#[tactic(auto, using(crate::proofs::FlawLaws::names_one_is))]
fn names_one(s: &[u8], path: Span, kind: u8) -> bool
    requires { Lies path s.now }
    ensures { result ≡ names_one s.now kind (text s.now path) }
{
    let from = path.from;
    let to = path.to;
    bearers(s, &s[from..to], kind) == 1
}

// Whether the type path of a declaration, where its type has one, names one declaration of its kind.
#[tactic(auto, using(crate::proofs::FlawLaws::path_named_laws))]
fn path_named(s: &[u8], d: Declaration) -> bool
    requires { DeclaredLies s.now d }
    ensures { result ≡ clean_path s.now d }
{
    let typ = d.shape.typ as usize;
    if !has_type_path(typ) {
        return true;
    }
    if typ == TYPE_ENUM {
        return names_one(s, d.shape.path, table::ENUM);
    }
    names_one(s, d.shape.path, table::MESSAGE)
}

// The flaw of a number that is declared for the message of this full name.
#[tactic(auto, using(crate::proofs::FlawLaws::number_flaw_laws))]
pub fn flaw_of_number(s: &[u8], message: &[u8], d: Declaration, index: usize) -> Option<Reason>
    requires { DeclaredLies s.now d }
    ensures { result ≡ number_flaw s.now index (number_for message.now d) }
{
    let like = Like {
        declaration: d,
        whole: false,
    };
    if numbered(s, message, s, like) != 1 {
        return Some(Reason {
            why: Why::NumberShared,
            index: index,
            about: d.name,
        });
    }
    or_no(path_named(s, d), Why::TypeUnclear, index, d.shape.path)
}

// The flaw of what bears this full name, its numbers aside.
#[tactic(auto, using(crate::proofs::FlawLaws::own_flaw_laws))]
pub fn own_flaw(s: &[u8], bearer: Bearer, name: &[u8], index: usize) -> Option<Reason>
    requires { BearerLies s.now bearer }
    ensures { result ≡ own_flaw s.now name.now index bearer }
{
    if bearers(s, name, ANY_KIND) != 1 {
        return Some(Reason {
            why: Why::NameShared,
            index: index,
            about: Span { from: 0, to: 0 },
        });
    }
    match bearer {
        Bearer::Message(body) => flaw_of_members(s, body, table::FIELD, Why::FieldShared, index),
        Bearer::Enum(values) => flaw_of_members(s, values, table::VALUE, Why::ValueShared, index),
        Bearer::Extension(d) => {
            let clear = names_one(s, d.extendee, table::MESSAGE);
            or_no(clear, Why::ExtendeeUnclear, index, d.extendee)
        }
    }
}
