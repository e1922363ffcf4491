// The protobuf encoding document: varints and zigzag, both ways.
use crate::case::{begins, number_of, word_of};
use limits::MOST_VARINT;
use varint::{put_varint, varint_at, varint_len};
use wire::numbers::{unzigzag, zigzag};

// Whether a number is written as these bytes, and has that length, and is read back from all of them.
pub fn is_varint(given: &[u8], want: &[u8]) -> bool {
    let v = number_of(given);
    let mut out = [0u8; MOST_VARINT];
    let n = put_varint(&mut out, 0, v);
    begins(&out, n, want) & (varint_len(v) == n) & reads(want, v, want.len())
}

// Whether a number is the first of n + 1 bytes: the one before it has n, the one after it n + 1.
pub fn is_limit(before: &[u8], first: &[u8], after: &[u8], want: &[u8]) -> bool {
    let n = word_of(want) as usize;
    has_length(before, n) & has_length(first, n + 1) & has_length(after, n + 1)
}

// Whether the varint of a number has n bytes: by its length, as it is written, and as that is read back.
fn has_length(given: &[u8], n: usize) -> bool {
    let v = number_of(given);
    let mut out = [0u8; MOST_VARINT];
    (varint_len(v) == n) & (put_varint(&mut out, 0, v) == n) & reads(&out, v, n)
}

// Whether a number is read at the front of these bytes, from n of them.
fn reads(s: &[u8], v: u64, n: usize) -> bool {
    let Some(read) = varint_at(s, 0, s.len()) else {
        return false;
    };
    (read.value == v) & (read.next == n)
}

pub fn is_zigzag(given: &[u8], want: &[u8]) -> bool {
    let bits = number_of(given);
    let z = number_of(want);
    (zigzag(bits) == z) & (unzigzag(z) == bits)
}
