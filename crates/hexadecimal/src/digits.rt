// Hexadecimal text, two digits a byte, either case; blanks and line ends are passed over.
ghost use Rattle.std.specs.Prelude.{◌≡◌, ◌≤◌, ◌<◌};
ghost use Rattle.hexadecimal.specs.Digits.{other, digit_of, glyph_of, Decodes};

// What a text comes to.
#[derive(Clone, Copy)]
pub enum Decoded {
    // So many bytes.
    Bytes(usize),
    // The byte of the text at this place is neither a digit nor blank.
    NoDigit(usize),
    // The text ends after the first digit of a byte.
    HalfByte,
}

// What digit_of answers for a blank or a line end, and for a byte that is neither that nor a digit.
const BLANK: u8 = 16;

const OTHER: u8 = 17;

#[tactic(auto, using(crate::proofs::DigitLaws::digit_laws))]
fn digit_of(b: u8) -> u8
    ensures { (result ≡ digit_of b) × (result ≤ other) }
{
    if (b'0' <= b) & (b <= b'9') {
        return b - b'0';
    }
    if (b'A' <= b) & (b <= b'F') {
        return b - b'A' + 10;
    }
    if (b'a' <= b) & (b <= b'f') {
        return b - b'a' + 10;
    }
    if (b == b' ') | (b == b'\t') | (b == b'\n') | (b == b'\r') {
        return BLANK;
    }
    OTHER
}

// The bytes that a text spells, laid over a lent buffer as far as it reaches.
#[tactic(auto, using(crate::proofs::SpellingLaws::spelling_laws))]
pub fn decode(text: &[u8], out: &mut [u8]) -> Decoded
    ensures { Decodes text.now out.old out.new result }
{
    let mut half = BLANK;
    let mut n = 0;
    for i in 0..text.len() {
        let d = digit_of(text[i]);
        if d == OTHER {
            return Decoded::NoDigit(i);
        }
        if d == BLANK {
            continue;
        }
        if half == BLANK {
            half = d;
        } else {
            octets::put(out, n, half * 16 + d);
            half = BLANK;
            n += 1;
        }
    }
    if half == BLANK {
        return Decoded::Bytes(n);
    }
    Decoded::HalfByte
}

// The digit of a number below 16, in upper case.
#[tactic(auto, using(crate::proofs::GlyphLaws::glyph_laws))]
pub fn glyph(d: u8) -> u8
    requires { d < 16 }
    ensures { result ≡ glyph_of d }
{
    if d < 10 { b'0' + d } else { b'A' - 10 + d }
}
