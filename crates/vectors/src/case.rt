// The parts of an example.
use field::fields::Fields;

// The payload of the first field of a tag, empty where there is none.
#[tactic(auto, using(field::proofs::InFields::over_all))]
pub fn part(c: &[u8], tag: u8) -> &[u8] {
    for field in Fields::between(c, 0, c.len()) {
        let Some(field) = field else {
            return &c[..0];
        };
        if field.tag == tag {
            return &c[field.from..field.to];
        }
    }
    &c[..0]
}

// A word of 4 bytes, 0 where there are fewer.
pub fn word_of(s: &[u8]) -> u32 {
    if s.len() < 4 {
        return 0;
    }
    octets::u32_at(s, 0)
}

// A number of 8 bytes, 0 where there are fewer.
pub fn number_of(s: &[u8]) -> u64 {
    if s.len() < 8 {
        return 0;
    }
    octets::u64_at(s, 0)
}

// Whether the first n bytes are these.
#[tactic(auto, using(console::proofs::OutputLaws::front_laws))]
pub fn begins(s: &[u8], n: usize, want: &[u8]) -> bool {
    if n <= s.len() {
        return octets::same(&s[..n], want);
    }
    false
}
