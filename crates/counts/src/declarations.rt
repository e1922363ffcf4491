// How many declarations of one tag a sheet has: a walk over the whole tree. Only nested messages recurse: siblings are a loop.
ghost use Rattle.std.specs.Prelude.{◌≡◌, ◌+◌, ◌-◌, ◌≤◌, length};
ghost use Rattle.field.specs.Walk.{walk};
ghost use Rattle.sheet.specs.Tree.{none, values_in, enum_in, message_in, items_in, tree_of};
ghost use Rattle.counts.specs.Declarations.{one as one_of, items_hold, files_hold};
ghost use Rattle.counts.specs.inner.Fields.{declared_count, value_count, item_count, file_count};

use field::fields::Fields;
use field::leaf_at;
use limits::MOST_MESSAGES;
use sheet::declaration::{Declaration, extension_at, value_at};
use sheet::table;

// 1 where the tags are the same.
#[tactic(auto, using(crate::proofs::DeclarationLaws::one_laws))]
fn one(want: u8, tag: u8) -> usize
    ensures { (result ≡ one_of want tag) × (result ≤ 1) }
{
    if want == tag { 1 } else { 0 }
}

// 1 where a field of an enum is a value.
#[tactic(auto, using(crate::proofs::DeclarationLaws::value_count_laws))]
fn count_value(s: &[u8], tag: u8, from: usize, to: usize) -> usize
    requires { (from ≤ to) × (to ≤ length s.now) }
    ensures { (result ≡ value_count s.now tag from to) × (result ≤ 1) }
{
    if tag != table::VALUE {
        return 0;
    }
    if value_at(s, from, to).is_some() {
        1
    } else {
        0
    }
}

// The values between two places.
#[tactic(auto, using(crate::proofs::DeclarationLaws::values_count_laws))]
fn count_values(s: &[u8], from: usize, to: usize) -> usize
    requires { (from ≤ to) × (to ≤ length s.now) }
    ensures { (result ≡ length (values_in s.now (walk s.now from to))) × (result ≤ to - from) }
{
    let mut n = 0;
    for field in Fields::between(s, from, to) {
        let Some(field) = field else {
            return n;
        };
        n += count_value(s, field.tag, field.from, field.to);
    }
    n
}

// An enum and its values.
#[tactic(auto, using(crate::proofs::DeclarationLaws::enum_count_laws))]
fn count_enum(s: &[u8], from: usize, to: usize, want: u8) -> usize
    requires { (from ≤ to) × (to ≤ length s.now) }
    ensures { (result ≡ items_hold want (enum_in s.now from to none)) × (result ≤ to - from + 1) }
{
    let Some(name) = leaf_at(s, from, to, table::NAME) else {
        return 0;
    };
    one(want, table::ENUM) + one(want, table::VALUE) * count_values(s, name.to, to)
}

// 1 where there is a declaration and its tag is wanted.
#[tactic(auto, using(crate::proofs::DeclarationLaws::declared_count_laws))]
fn count_declared(d: Option<Declaration>, tag: u8, want: u8) -> usize
    ensures { (result ≡ declared_count d want tag) × (result ≤ 1) }
{
    if d.is_some() { one(want, tag) } else { 0 }
}

// What one field of a file or a message holds, itself counted, with `left` levels of messages left.
#[tactic(auto, using(crate::proofs::DeclarationLaws::item_count_laws))]
#[cycle(count_item_count_items_count_message)]
fn count_item(s: &[u8], tag: u8, from: usize, to: usize, left: usize, want: u8) -> usize
    requires { (from ≤ to) × (to ≤ length s.now) }
    ensures { (result ≡ item_count want left s.now tag from to) × (result ≤ to - from + 1) }
{
    if tag == table::MESSAGE {
        return count_message(s, from, to, left, want);
    }
    if tag == table::EXTENSION {
        return count_declared(extension_at(s, from, to), tag, want);
    }
    if tag == table::ENUM {
        return count_enum(s, from, to, want);
    }
    if tag == table::FIELD {
        return count_declared(sheet::declaration::message_field_at(s, from, to), tag, want);
    }
    0
}

// A message and what it holds, with `left` levels of messages left.
#[tactic(auto, using(crate::proofs::DeclarationLaws::message_count_laws))]
#[cycle(count_item_count_items_count_message)]
fn count_message(s: &[u8], from: usize, to: usize, left: usize, want: u8) -> usize
    requires { (from ≤ to) × (to ≤ length s.now) }
    ensures { (result ≡ items_hold want (message_in left s.now from to none)) × (result ≤ to - from + 1) }
{
    if left == 0 {
        return 0;
    }
    let Some(name) = leaf_at(s, from, to, table::NAME) else {
        return 0;
    };
    one(want, table::MESSAGE) + count_items(s, name.to, to, left - 1, want)
}

// What a file or a message holds between two places, with `left` levels of messages left.
#[tactic(auto, using(crate::proofs::DeclarationLaws::items_count_laws))]
#[cycle(count_item_count_items_count_message)]
fn count_items(s: &[u8], from: usize, to: usize, left: usize, want: u8) -> usize
    requires { (from ≤ to) × (to ≤ length s.now) }
    ensures { (result ≡ items_hold want (items_in left s.now (walk s.now from to))) × (result ≤ to - from) }
{
    let mut n = 0;
    for field in Fields::between(s, from, to) {
        let Some(field) = field else {
            return n;
        };
        n += count_item(s, field.tag, field.from, field.to, left, want);
    }
    n
}

// A file and what it holds.
#[tactic(auto, using(crate::proofs::DeclarationLaws::file_count_laws))]
fn count_file(s: &[u8], tag: u8, from: usize, to: usize, want: u8) -> usize
    requires { (from ≤ to) × (to ≤ length s.now) }
    ensures { (result ≡ file_count want s.now tag from to) × (result ≤ to - from + 1) }
{
    if tag != table::FILE {
        return 0;
    }
    let Some(package) = leaf_at(s, from, to, table::PACKAGE) else {
        return 0;
    };
    one(want, table::FILE) + count_items(s, package.to, to, MOST_MESSAGES, want)
}

// How many declarations of this tag, files too, the sheet has.
#[tactic(auto, using(crate::proofs::DeclarationLaws::files_count_laws))]
pub fn count(s: &[u8], want: u8) -> usize
    ensures { result ≡ files_hold want (tree_of s.now) }
{
    let mut n = 0;
    for field in Fields::between(s, 0, s.len()) {
        let Some(field) = field else {
            return n;
        };
        n += count_file(s, field.tag, field.from, field.to, want);
    }
    n
}
