// The candidates of a name in a scope.
use crate::case::{begins, word_of};
use candidates::protobuf_path::{candidate, candidates};
use limits::MOST_CANDIDATE;

// Whether the i-th candidate is this one.
pub fn is_candidate(name: &[u8], scope: &[u8], place: &[u8], want: &[u8]) -> bool {
    let i = word_of(place) as usize;
    if candidates(scope, name) <= i {
        return false;
    }
    let mut out = [0u8; MOST_CANDIDATE];
    let n = candidate(scope, name, i, &mut out);
    begins(&out, n, want)
}
