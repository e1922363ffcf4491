// How many declarations of a sheet bear a full name, all or those of one kind, and how many numbers that it declares for the message of a
// full name, by fields and by extensions of it, are like one. One way goes through the sheet for both; siblings are a loop.
#![tactic(auto)]

ghost use Rattle.std.specs.Prelude.{◌≡◌, ◌+◌, ◌-◌, ◌≤◌};
ghost use Rattle.field.specs.Leaf.{Lies, on_leaf, text as text_of};
ghost use Rattle.field.specs.Walk.{walk};
ghost use Rattle.sheet.specs.Tree.{items_in, tree_of};
ghost use Rattle.scope.specs.inner.Steps.{item_at, file_at};
ghost use Rattle.names.specs.Names.{every_declared};
ghost use Rattle.likeness.specs.inner.Likes.{Placed};
ghost use Rattle.census.specs.inner.Census.{bearing, numbered as numbered_of, AskedOf, Reaches, onward as onward_of, file_way};
ghost use Rattle.census.specs.inner.Census.{own as own_of, open_to, named, items_asked, files_asked};

use field::fields::Fields;
use field::{Span, leaf_at};
use likeness::{Like, Way, in_extension, in_field};
use limits::MOST_MESSAGES;
use names::leads;
use octets::same;
use sheet::declaration::extension_at;
use sheet::table;

// Every kind of declaration: no tag of 01's table.
pub const ANY_KIND: u8 = 0;

// What is asked at a full name: how many declarations of a kind bear it, or how many numbers that are declared for the message that bears
// it are like one.
#[derive(Clone, Copy)]
enum Asked {
    Bearers(u8),
    Numbers(Like),
}

// How a declaration of this name stands to the full name, in a scope that stands so.
#[tactic(auto, using(crate::proofs::OnwardLaws::onward_laws))]
fn onward(text: &[u8], way: Way, name: &[u8]) -> Way
    requires { Reaches text.now way }
    ensures is { result ≡ onward_of text.now way name.now }
    ensures reaches { Reaches text.now result }
{
    match way {
        Way::Own => Way::Off,
        Way::Within(at) => {
            if same(&text[at..], name) {
                return Way::Own;
            }
            if leads(text, at, name) {
                return Way::Within(at + name.len() + 1);
            }
            Way::Off
        }
        Way::Off => Way::Off,
    }
}

// 1 where declarations by this tag are asked for and one that stands so bears the full name.
#[tactic(auto, using(crate::proofs::OtherLaws::own_laws))]
fn own(asked: Asked, tag: u8, way: Way) -> usize
    ensures { (result ≡ own_of asked tag way) × (result ≤ 1) }
{
    let Asked::Bearers(kind) = asked else {
        return 0;
    };
    if !((kind == ANY_KIND) | (kind == tag)) {
        return 0;
    }
    match way {
        Way::Own => 1,
        Way::Within(_) => 0,
        Way::Off => 0,
    }
}

// Up to where what a scope that stands so holds may count: from its start on nothing does, where declarations that bear the full name are
// asked for and that does not go on in it.
#[tactic(auto, using(crate::proofs::ItemLaws::open_laws))]
fn open_to(asked: Asked, way: Way, body: Span) -> usize
    ensures { result ≡ open_to asked way body.from body.to }
{
    let Asked::Bearers(_) = asked else {
        return body.to;
    };
    match way {
        Way::Own => body.from,
        Way::Within(_) => body.to,
        Way::Off => body.from,
    }
}

// Where the name of an enum or an extension stands.
#[tactic(auto, using(crate::proofs::OtherLaws::name_laws))]
fn name_at(s: &[u8], tag: u8, item: Span) -> Option<Span>
    requires { Lies item s.now }
    ensures { result ≡ named (item_at 0 s.now tag item.from item.to) }
{
    if tag == table::ENUM {
        return leaf_at(s, item.from, item.to, table::NAME);
    }
    if tag != table::EXTENSION {
        return None;
    }
    let extension = extension_at(s, item.from, item.to)?;
    Some(extension.name)
}

// 1 where an enum or an extension in a scope that stands so bears the full name, and such ones are asked for.
#[tactic(auto, using(crate::proofs::OtherLaws::bears_laws))]
fn bears(s: &[u8], tag: u8, item: Span, text: &[u8], way: Way, asked: Asked) -> usize
    requires lies { Lies item s.now }
    requires reaches { Reaches text.now way }
    ensures { (result ≡ on_leaf 0 (named (item_at 0 s.now tag item.from item.to))
        λ p. own_of asked tag (onward_of text.now way (text_of s.now p))) × (result ≤ 1) }
{
    let Some(name) = name_at(s, tag, item) else {
        return 0;
    };
    let next = onward(text, way, &s[name.from..name.to]);
    own(asked, tag, next)
}

// How many count in a field of a scope that stands so, where it is no message that is looked into.
#[tactic(auto, using(crate::proofs::OtherLaws::in_other_laws))]
fn in_other(s: &[u8], tag: u8, item: Span, text: &[u8], way: Way, o: &[u8], asked: Asked) -> usize
    requires lies { Lies item s.now }
    requires reaches { Reaches text.now way }
    requires asked_of { AskedOf o.now asked }
    ensures { (result ≡ items_asked text.now asked o.now s.now way
        (item_at 0 s.now tag item.from item.to)) × (result ≤ 1) }
{
    let Asked::Numbers(like) = asked else {
        return bears(s, tag, item, text, way, asked);
    };
    if tag == table::EXTENSION {
        return in_extension(s, item, text, o, like);
    }
    if tag == table::FIELD {
        return in_field(s, item, way, o, like);
    }
    0
}

// How many count in a field of a scope that stands so, with `left` levels of messages left.
#[cycle(in_item_in_items)]
fn in_item(
    s: &[u8],
    tag: u8,
    item: Span,
    left: usize,
    text: &[u8],
    way: Way,
    o: &[u8],
    asked: Asked,
) -> usize
    requires lies { Lies item s.now }
    requires reaches { Reaches text.now way }
    requires asked_of { AskedOf o.now asked }
    ensures { (result ≡ items_asked text.now asked o.now s.now way
        (item_at left s.now tag item.from item.to)) × (result ≤ item.to - item.from + 1) }
{
    if !((tag == table::MESSAGE) & (0 < left)) {
        return in_other(s, tag, item, text, way, o, asked);
    }
    let Some(name) = leaf_at(s, item.from, item.to, table::NAME) else {
        return 0;
    };
    let inside = Span {
        from: name.to,
        to: item.to,
    };
    let next = onward(text, way, &s[name.from..name.to]);
    own(asked, table::MESSAGE, next) + in_items(s, inside, left - 1, text, next, o, asked)
}

// How many count in what a scope that stands so holds.
#[cycle(in_item_in_items)]
fn in_items(
    s: &[u8],
    body: Span,
    left: usize,
    text: &[u8],
    way: Way,
    o: &[u8],
    asked: Asked,
) -> usize
    requires lies { Lies body s.now }
    requires reaches { Reaches text.now way }
    requires asked_of { AskedOf o.now asked }
    ensures { (result ≡ items_asked text.now asked o.now s.now way
        (items_in left s.now (walk s.now body.from body.to))) × (result ≤ body.to - body.from) }
{
    let end = open_to(asked, way, body);
    let mut n = 0;
    for field in Fields::between(s, body.from, end) {
        let Some(field) = field else {
            return n;
        };
        let item = Span {
            from: field.from,
            to: field.to,
        };
        n += in_item(s, field.tag, item, left, text, way, o, asked);
    }
    n
}

// How a file of this package stands to the full name.
#[tactic(auto, using(crate::proofs::OnwardLaws::file_way_laws))]
fn file_way(text: &[u8], name: &[u8]) -> Way
    ensures is { result ≡ file_way text.now name.now }
    ensures reaches { Reaches text.now result }
{
    if name.len() == 0 {
        return Way::Within(0);
    }
    if leads(text, 0, name) {
        return Way::Within(name.len() + 1);
    }
    Way::Off
}

// How many count in a field of a sheet.
#[tactic(auto, using(crate::proofs::ItemLaws::in_file_laws))]
fn in_file(s: &[u8], tag: u8, item: Span, text: &[u8], o: &[u8], asked: Asked) -> usize
    requires lies { Lies item s.now }
    requires asked_of { AskedOf o.now asked }
    ensures { (result ≡ files_asked text.now asked o.now s.now
        (file_at s.now tag item.from item.to)) × (result ≤ item.to - item.from + 1) }
{
    if tag != table::FILE {
        return 0;
    }
    let Some(package) = leaf_at(s, item.from, item.to, table::PACKAGE) else {
        return 0;
    };
    let inside = Span {
        from: package.to,
        to: item.to,
    };
    let way = file_way(text, &s[package.from..package.to]);
    in_items(s, inside, MOST_MESSAGES, text, way, o, asked)
}

// How many count in the sheet.
fn in_files(s: &[u8], text: &[u8], o: &[u8], asked: Asked) -> usize
    requires { AskedOf o.now asked }
    ensures { result ≡ files_asked text.now asked o.now s.now (tree_of s.now) }
{
    let mut n = 0;
    for field in Fields::between(s, 0, s.len()) {
        let Some(field) = field else {
            return n;
        };
        let item = Span {
            from: field.from,
            to: field.to,
        };
        n += in_file(s, field.tag, item, text, o, asked);
    }
    n
}

// How many messages, enums and extensions of the sheet, or how many of the kind of that tag, bear the full name.
#[tactic(auto, using(crate::proofs::ItemLaws::bearers_laws))]
pub fn bearers(s: &[u8], text: &[u8], kind: u8) -> usize
    ensures { result ≡ bearing kind text.now (every_declared s.now) }
{
    in_files(s, text, s, Asked::Bearers(kind))
}

// How many numbers that the sheet s declares for the message of this full name are like that of the sheet o.
#[tactic(auto, using(crate::proofs::ItemLaws::numbered_laws))]
pub fn numbered(s: &[u8], message: &[u8], o: &[u8], like: Like) -> usize
    requires { Placed o.now like }
    ensures { result ≡ numbered_of message.now like o.now s.now }
{
    in_files(s, message, o, Asked::Numbers(like))
}
