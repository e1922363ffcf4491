// What is asked of a sheet: a message, an enum, an extension, a field, a value. Nothing above this crate calls the search.
#![tactic(auto)]

ghost use Rattle.std.specs.Prelude.{◌≡◌, true};
ghost use Rattle.field.specs.Leaf.{text, Lies};
ghost use Rattle.path.specs.Path.{is_rel_or_empty, is_path};
ghost use Rattle.scope.specs.inner.Answers.{InSheet, declared, valued};
ghost use Rattle.search.specs.Lookup.{find_extension_by_path};
ghost use Rattle.lookups.specs.Lookups.{walking, field_named, value_in};

use field::Span;
use limits::MOST_CANDIDATE;
use reply::Refusal;
use scope::lookup::LookupScope;
use search::extension::{Compared, Found};
use sheet::declaration::{Declaration, Value};
use sheet::table;

// The message of a full name.
pub fn message(sheet: &[u8], path: &[u8]) -> Result<LookupScope, Refusal>
    ensures { result ≡ (walking sheet.now).message path.now }
{
    fullname::find_message_by_abs_name(sheet, path)
}

// The message that a type path of the sheet names.
pub fn message_at(sheet: &[u8], path: Span) -> Result<LookupScope, Refusal>
    requires { Lies path sheet.now }
    ensures { result ≡ (walking sheet.now).message (text sheet.now path) }
{
    let from = path.from;
    let to = path.to;
    message(sheet, &sheet[from..to])
}

// The enum that a type path of the sheet names.
pub fn enum_at(sheet: &[u8], path: Span) -> Result<Span, Refusal>
    requires { Lies path sheet.now }
    ensures { result ≡ (walking sheet.now).enumeration (text sheet.now path) }
{
    let from = path.from;
    let to = path.to;
    fullname::find_enum_by_abs_name(sheet, &sheet[from..to])
}

// The extension that a name finds in a scope, compared with that message, and the position of its candidate.
pub fn extension(
    sheet: &[u8],
    scope: &[u8],
    message: &[u8],
    name: &[u8],
) -> Result<Compared, Refusal>
    requires { (is_rel_or_empty scope.now ≡ true) × (is_path name.now ≡ true) }
    ensures { result ≡ (walking sheet.now).extension scope.now message.now name.now }
{
    let mut room = [0u8; MOST_CANDIDATE];
    extensions::ext_resolve_field_ext(sheet, scope, message, name, &mut room)
}

// The extension that a name finds in a scope, whatever it extends.
pub fn extension_named(sheet: &[u8], scope: &[u8], name: &[u8]) -> Result<Found, Refusal>
    requires { (is_rel_or_empty scope.now ≡ true) × (is_path name.now ≡ true) }
    ensures { result ≡ find_extension_by_path sheet.now scope.now name.now }
{
    let mut room = [0u8; MOST_CANDIDATE];
    extensions::find_extension_by_path(sheet, scope, name, &mut room)
}

// The field of that name in a message.
pub fn field_named(sheet: &[u8], message: LookupScope, name: &[u8]) -> Option<Declaration>
    requires { InSheet sheet.now message }
    ensures { result ≡ declared (field_named sheet.now name.now message) }
{
    named::declaration_named(sheet, message, table::FIELD, name)
}

// The value of that name in an enum.
pub fn value_named(sheet: &[u8], values: Span, name: &[u8]) -> Option<Value>
    requires { Lies values sheet.now }
    ensures { result ≡ valued (value_in sheet.now name.now values) }
{
    fullname::value_named(sheet, values, name)
}
