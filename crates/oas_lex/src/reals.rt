//! The reals of OASIS, and the whole numbers that they are.
ghost use Rattle.std.specs.Prelude.{◌≡◌, ◌+◌, ◌<◌, ◌≤◌, ◌^◌, ◌↔◌, ℕ, ℤ};
ghost use Rattle.oas_lex.specs.Reals.{form_of, with_sign, sign_of, IsQuotient, IsIeee, IsMagnitude, IsWholeOasisReal};

/// Whole numbers from here on aren't taken for a real's value.
const MOST: u64 = 1 << 24;

/// The fraction bits of an IEEE single, and of a double.
const SINGLE: u32 = 23;

const DOUBLE: u32 = 52;

/// A real as it is spelled: its kind, 0 to 7, and its numbers. A number that the kind doesn't have is 0; the bits of an
/// IEEE number are `a`.
#[derive(Clone, Copy, Debug, PartialEq, Eq)]
pub struct Real {
    /// 0 and 1 a whole number, 2 and 3 one over a whole number, 4 and 5 a ratio, the second of each two negative; 6 an
    /// IEEE single, 7 a double.
    pub kind: u8,
    /// The whole number, the upper number of a ratio, or the bits.
    pub a: u64,
    /// The lower number of a ratio.
    pub b: u64,
}

// The top over the bottom where the division is exact.
fn whole_quotient(top: u64, bottom: u64) -> Option<u64>
    ensures { (q : ℕ) → (result ≡ Some q) ↔ IsQuotient top bottom q }
{
    if bottom != 0 && top % bottom == 0 {
        return Some(top / bottom);
    }
    None
}

// The number below 2^24 that has these bits, with no sign, in a format with so many fraction bits and this bias.
fn ieee_whole(bits: u64, fraction: u32, bias: u64) -> Option<u64>
    requires fraction { (23 ≤ fraction) × (fraction ≤ 52) }
    requires bias { (1 ≤ bias) × (bias < 2 ^ 32) }
    ensures { (q : ℕ) → q < 2 ^ 24 → (result ≡ Some q) ↔ IsIeee fraction bias bits q }
{
    if bits == 0 {
        return Some(0);
    }
    let one = 1u64 << fraction;
    let exponent = bits / one;
    if exponent < bias || exponent >= bias + 24 {
        return None;
    }
    let shift = fraction - (exponent - bias) as u32;
    whole_quotient(one + bits % one, 1 << shift)
}

// The sign of a real, 0 where it isn't negative.
fn sign_of(real: Real) -> u64
    ensures { result ≡ sign_of (form_of real.kind) real }
{
    match real.kind {
        0..=5 => u64::from(real.kind % 2),
        6 => real.a / (1 << 31),
        7 => real.a / (1 << 63),
        _ => 0,
    }
}

// What the real is but for its sign, where that is a whole number below 2^24.
fn magnitude_of(real: Real) -> Option<u64>
    ensures { (q : ℕ) → q < 2 ^ 24 → (result ≡ Some q) ↔ IsMagnitude (form_of real.kind) real q }
{
    match real.kind {
        0..=1 => whole_quotient(real.a, 1),
        2..=3 => whole_quotient(1, real.a),
        4..=5 => whole_quotient(real.a, real.b),
        6 => ieee_whole(real.a % (1 << 31), SINGLE, 127),
        7 => ieee_whole(real.a % (1 << 63), DOUBLE, 1023),
        _ => None,
    }
}

// A magnitude with its sign.
fn with_sign(sign: u64, magnitude: u64) -> i64
    requires { magnitude < 2 ^ 24 }
    ensures { result ≡ with_sign sign magnitude }
{
    let far = magnitude as i64;
    if sign == 0 { far } else { -far }
}

/// The whole number, below 2^24 but for its sign, that the real equals. None where it equals none or a denominator is 0.
pub fn real_whole(real: Real) -> Option<i64>
    ensures { (n : ℤ) → (result ≡ Some n) ↔ IsWholeOasisReal real n }
{
    let magnitude = magnitude_of(real)?;
    if magnitude >= MOST {
        return None;
    }
    Some(with_sign(sign_of(real), magnitude))
}
