// The candidates of a name in a scope: a scope and its parents, each with the name behind it.
ghost use Rattle.std.specs.Prelude.{◌≡◌, [], ◌≤◌, ◌<◌, length, get_or};
ghost use Rattle.octets.specs.inner.Laid.{Laid};
ghost use Rattle.path.specs.Path.{components, spell};
ghost use Rattle.candidates.specs.Candidates.{ancestors, candidates as candidates_of, candidate as candidate_of};

use path::protobuf_abs_path::{is_abs, without_root};
use path::protobuf_rel_path::{count, join, parent_end};

// The scope itself for 0, its parent for 1, and so on up to the empty one.
#[tactic(auto, using(crate::proofs::CandidateLaws::climbed_laws))]
fn ancestor(s: &[u8], i: usize) -> &[u8]
    requires { i ≤ length (components s.now) }
    ensures { result.now ≡ spell (get_or (ancestors (components s.now)) i []) }
{
    let mut end = s.len();
    for k in 0..i {
        end = parent_end(s, end);
    }
    &s[..end]
}

// How many candidates a name has in a scope.
#[tactic(auto, using(crate::proofs::CandidateLaws::candidates_laws))]
pub fn candidates(scope: &[u8], name: &[u8]) -> usize
    ensures { result ≡ length (candidates_of scope.now name.now) }
{
    if is_abs(name) {
        return 1;
    }
    count(scope) + 1
}

// The text of the i-th candidate, in a lent buffer as far as that reaches, and its length.
#[tactic(auto, using(crate::proofs::CandidateLaws::candidate_laws))]
pub fn candidate(scope: &[u8], name: &[u8], i: usize, out: &mut [u8]) -> usize
    requires { i < length (candidates_of scope.now name.now) }
    ensures { Laid out.old 0 (spell (candidate_of scope.now name.now i)) out.new result }
{
    if is_abs(name) {
        return octets::put_all(out, 0, without_root(name));
    }
    if i < count(scope) {
        return join(ancestor(scope, i), name, out);
    }
    octets::put_all(out, 0, name)
}
