// Constants.
ghost use Rattle.std.specs.Prelude.{◌≡◌, ◌≤◌, length};
ghost use Rattle.request.specs.Constant.{integer_of, float_of, bool_of, numeric_of, constant_of};

use crate::table;
use field::Span;

// A constant. 21 and 22 are both integers, a sign and a size. A NaN stands apart from the floats, since an f64 does not keep its bits.
#[derive(Clone, Copy)]
pub enum Constant {
    Bool(bool),
    Integer { minus: bool, size: u64 },
    Float(f64),
    NotANumber(u64),
    Text(Span),
    Ident(Span),
    Message(Span),
    List(Span),
}

// The integer that 64 bits are in two's complement.
#[tactic(auto, using(crate::proofs::ConstantLaws::signed_laws))]
fn integer_of(bits: u64) -> Constant
    ensures { result ≡ integer_of bits }
{
    if bits < 0x8000_0000_0000_0000 {
        Constant::Integer {
            minus: false,
            size: bits,
        }
    } else {
        Constant::Integer {
            minus: true,
            size: 0xffff_ffff_ffff_ffff - bits + 1,
        }
    }
}

// The double that 64 bits are.
#[tactic(auto, using(crate::proofs::ConstantLaws::float_laws))]
fn float_of(bits: u64) -> Constant
    ensures { result ≡ float_of bits }
{
    if bits % 0x8000_0000_0000_0000 > 0x7ff0_0000_0000_0000 {
        Constant::NotANumber(bits)
    } else {
        Constant::Float(f64::from_bits(bits))
    }
}

// A bool: one byte, 0 or 1.
#[tactic(auto, using(crate::proofs::ConstantLaws::bool_laws))]
fn bool_of(s: &[u8], from: usize, to: usize) -> Option<Constant>
    requires { (from ≤ to) × (to ≤ length s.now) }
    ensures { result ≡ bool_of s.now from to }
{
    if to - from != 1 {
        return None;
    }
    if 1 < s[from] {
        return None;
    }
    Some(Constant::Bool(s[from] == 1))
}

// A number: eight bytes.
#[tactic(auto, using(crate::proofs::ConstantLaws::number_laws))]
fn numeric_of(s: &[u8], tag: u8, from: usize, to: usize) -> Option<Constant>
    requires { (from ≤ to) × (to ≤ length s.now) }
    ensures { result ≡ numeric_of s.now tag from to }
{
    if to - from != 8 {
        return None;
    }
    let bits = octets::u64_at(s, from);
    if tag == table::UNSIGNED {
        return Some(Constant::Integer {
            minus: false,
            size: bits,
        });
    }
    if tag == table::SIGNED {
        return Some(integer_of(bits));
    }
    if tag == table::FLOAT {
        return Some(float_of(bits));
    }
    None
}

// The constant of this tag whose payload is from..to.
#[tactic(auto, using(crate::proofs::ConstantLaws::constant_laws))]
pub fn constant_of(s: &[u8], tag: u8, from: usize, to: usize) -> Option<Constant>
    requires { (from ≤ to) × (to ≤ length s.now) }
    ensures { result ≡ constant_of s.now tag from to }
{
    if tag == table::BOOL {
        return bool_of(s, from, to);
    }
    let place = Span { from: from, to: to };
    if tag == table::STRING {
        return Some(Constant::Text(place));
    }
    if tag == table::IDENT {
        return Some(Constant::Ident(place));
    }
    if tag == table::MESSAGE_CONSTANT {
        return Some(Constant::Message(place));
    }
    if tag == table::LIST {
        return Some(Constant::List(place));
    }
    numeric_of(s, tag, from, to)
}
