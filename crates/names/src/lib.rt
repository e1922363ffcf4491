// Every message, enum and extension of a sheet with its full name, and what makes a sheet clean and contained, as definitions; and whether
// a full name leads another one.
#![tactic(auto)]

ghost use Rattle.std.specs.Prelude.{◌≡◌, ◌≤◌, length};
ghost use Rattle.names.specs.inner.Leads.{leads_at};

use octets::same;

// Whether the text goes on at a place with this name and a dot.
#[tactic(auto, using(crate::proofs::LeadsLaws::leads_laws))]
pub fn leads(text: &[u8], at: usize, name: &[u8]) -> bool
    requires { at ≤ length text.now }
    ensures { result ≡ leads_at text.now at name.now }
{
    let rest = text.len() - at;
    if rest <= name.len() {
        return false;
    }
    let end = at + name.len();
    if text[end] != b'.' {
        return false;
    }
    same(name, &text[at..end])
}
