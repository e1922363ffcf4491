// Relative paths: identifiers joined by dots, with no leading dot.
ghost use Rattle.std.specs.Prelude.{◌≡◌, ◌++◌, suc, ◌+◌, ◌-◌, ◌≤◌, length, take, drop};
ghost use Rattle.octets.specs.inner.Laid.{Laid};
ghost use Rattle.path.specs.inner.Places.{until_dot};
ghost use Rattle.path.specs.Path.{split, components, spell, all_ident, is_rel_path, is_rel_or_empty, parent};
ghost use Rattle.path.specs.inner.Last.{LastStarts};

use ident::protobuf_ident::is_ident;
use limits::MOST_PATH;

// Where the component that starts at a place ends: the next dot, or the end.
#[tactic(auto, using(crate::proofs::Scans::ending_laws))]
pub fn component_end(s: &[u8], at: usize) -> usize
    requires { at ≤ length s.now }
    ensures { result ≡ at + length (until_dot (drop at s.now)) }
{
    for i in at..s.len() {
        if s[i] == b'.' {
            return i;
        }
    }
    s.len()
}

// Whether each piece between two dots, from a place on, is an identifier.
#[tactic(auto, using(crate::proofs::Scans::checked_laws))]
pub fn all_ident(s: &[u8], from: usize) -> bool
    requires { from ≤ length s.now }
    ensures { result ≡ all_ident (split (drop from s.now)) }
{
    let mut at = from;
    loop {
        let end = component_end(s, at);
        if !is_ident(&s[at..end]) {
            return false;
        }
        if s.len() <= end {
            return true;
        }
        at = end + 1;
    }
}

// Whether the text is a relative path, and not empty.
#[tactic(auto, using(crate::proofs::FormLaws::form_laws))]
pub fn is_rel_path(s: &[u8]) -> bool
    ensures { result ≡ is_rel_path s.now }
{
    if MOST_PATH < s.len() {
        return false;
    }
    all_ident(s, 0)
}

// Whether the text is a relative path or empty, as a package and a scope may be.
#[tactic(auto, using(crate::proofs::FormLaws::form_laws))]
pub fn is_rel_or_empty(s: &[u8]) -> bool
    ensures { result ≡ is_rel_or_empty s.now }
{
    if s.len() == 0 {
        return true;
    }
    is_rel_path(s)
}

// How many components the path has.
#[tactic(auto, using(crate::proofs::Scans::counted_laws))]
pub fn count(s: &[u8]) -> usize
    ensures { result ≡ length (components s.now) }
{
    if s.len() == 0 {
        return 0;
    }
    let mut n = 0;
    let mut at = 0;
    loop {
        let end = component_end(s, at);
        n += 1;
        if s.len() <= end {
            return n;
        }
        at = end + 1;
    }
}

// Where the last component starts: after the last dot, or at the start.
#[tactic(auto, using(crate::proofs::Scans::tail_laws))]
pub fn last_at(s: &[u8]) -> usize
    ensures { LastStarts s.now result }
{
    for i in (0..s.len()).rev() {
        if s[i] == b'.' {
            return i + 1;
        }
    }
    0
}

// Where the parent of the first `end` bytes ends: their last dot, or the start.
#[tactic(auto, using(crate::proofs::Scans::parent_end_laws))]
pub fn parent_end(s: &[u8], end: usize) -> usize
    requires { end ≤ length s.now }
    ensures { (result ≤ end) × (take result s.now ≡ spell (parent (components (take end s.now)))) }
{
    let at = last_at(&s[..end]);
    if at == 0 {
        return 0;
    }
    at - 1
}

// The text before the dot that stands before the component at `at`, empty where there is none.
#[tactic(auto, using(crate::proofs::Scans::before_laws))]
pub fn before(s: &[u8], at: usize) -> &[u8]
    requires { at ≤ suc (length s.now) }
    ensures { result.now ≡ take (at - 1) s.now }
{
    if at == 0 {
        return &s[..0];
    }
    &s[..at - 1]
}

// The text of a path that is not empty, followed by another, in a lent buffer as far as that reaches, and its length.
#[tactic(auto, using(crate::proofs::JoinLaws::join_laws))]
pub fn join(a: &[u8], b: &[u8], out: &mut [u8]) -> usize
    ensures { Laid out.old 0 (spell (split a.now ++ components b.now)) out.new result }
{
    let n = octets::put_all(out, 0, a);
    if b.len() == 0 {
        return n;
    }
    octets::put(out, n, b'.');
    octets::put_all(out, n + 1, b)
}
