// The name of a value of an enum.
use console::output::text_at;
use field::Span;
use field::fields::Fields;
use field::part::span_in;
use sheet::declaration::value_at;

// Prints the first name that a number has in the enum that a type path of the sheet names, and says whether it has one.
#[tactic(auto, using(crate::proofs::PlaceLaws::enum_laws))]
pub fn show_enumerator(s: &[u8], path: Span, number: u32) -> bool {
    let Some(place) = span_in(s, path) else {
        return false;
    };
    let Ok(values) = lookups::enum_at(s, place) else {
        return false;
    };
    for field in Fields::between(s, values.from, values.to) {
        let Some(field) = field else {
            return false;
        };
        if let Some(v) = value_at(s, field.from, field.to) {
            if v.number == number {
                text_at(s, v.name);
                return true;
            }
        }
    }
    false
}
