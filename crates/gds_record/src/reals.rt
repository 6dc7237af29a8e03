//! Eight-byte reals, by exact arithmetic on their bits (GDSII Stream Format Manual 6.0, data types).

ghost use Rattle.std.specs.Prelude.{◌≡◌, ◌<◌, ◌≤◌, ◌*◌, ◌^◌, ◌↔◌, ℕ, ℤ, IsTrue, IfSome};
ghost use Rattle.gds_record.specs.Reals.{sign_of, exponent_of, fraction_of, IsWholeGdsiiReal, IsWithinTolerance, AgreesWithUnit};

/// The `s` at which a real with the exponent 0 is its fraction over `2^s`; it falls by 4 with each step
/// of the exponent.
const SHIFT_AT_0: u32 = 56 + 4 * 64;

/// The micrometres in a metre.
const MICROMETRES: u128 = 1_000_000;

/// An eight-byte real: `fraction / 2^56 * 16^(exponent - 64)`, below 0 where it is negative.
#[derive(Clone, Copy)]
struct Real {
    is_negative: bool,
    exponent: u32,
    fraction: u64,
}

/// The parts of the real with these bits.
fn real_of(bits: u64) -> Real
    ensures sign { IsTrue result.is_negative ↔ (sign_of bits ≡ 1) }
    ensures exponent { result.exponent ≡ exponent_of bits }
    ensures fraction { result.fraction ≡ fraction_of bits }
{
    Real {
        is_negative: bits >> 63 == 1,
        exponent: ((bits >> 56) % 128) as u32,
        fraction: bits % (1 << 56),
    }
}

/// The fraction over `2^shift` where the division is exact.
fn whole_quotient(fraction: u64, shift: u32) -> Option<u64>
    requires { shift ≤ 56 }
    ensures exact { (q : ℕ) → (result ≡ Some q) ↔ (fraction ≡ q * 2 ^ shift) }
    ensures bounded { IfSome result (λ q. q ≤ fraction) }
{
    let divisor = 1u64 << shift;
    if fraction % divisor == 0 {
        Some(fraction / divisor)
    } else {
        None
    }
}

/// The value of the real with these bits where it is a whole number: 0 where its fraction is 0, and
/// the fraction over `2^s` where `s`, which is `56 + 4 * (64 - exponent)`, is 0 to 56 and the division
/// is exact. A real with a greater exponent is none, though it may be a whole number.
pub fn real_whole(bits: u64) -> Option<i64>
    ensures { (n : ℤ) → (result ≡ Some n) ↔ IsWholeGdsiiReal bits n }
{
    let real = real_of(bits);
    if real.fraction == 0 {
        return Some(0);
    }
    // The shift is 0 to 56.
    if real.exponent < 64 || real.exponent > 78 {
        return None;
    }
    let magnitude = whole_quotient(real.fraction, SHIFT_AT_0 - 4 * real.exponent)?;
    if real.is_negative {
        return Some(-(magnitude as i64));
    }
    Some(magnitude as i64)
}

/// Whether two numbers differ by at most the tolerance.
fn is_within(a: u128, b: u128, tolerance: u128) -> bool
    ensures { IsTrue result ↔ IsWithinTolerance a b tolerance }
{
    a.abs_diff(b) <= tolerance
}

/// Whether the real with these bits, as a length in metres, is that of a unit of which a micrometre has
/// `unit`: the real times `unit * 10^6` is 1 but for one part in `2^40`.
pub fn unit_agrees(bits: u64, unit: u32) -> bool
    ensures { IsTrue result ↔ AgreesWithUnit bits unit }
{
    let real = real_of(bits);
    // The shift is 40 to 110; it goes by fours.
    if real.is_negative || real.exponent < 51 || real.exponent > 68 {
        return false;
    }
    let shift = SHIFT_AT_0 - 4 * real.exponent;
    let one = 1u128 << shift;
    let product = u128::from(real.fraction) * u128::from(unit) * MICROMETRES;
    is_within(product, one, 1u128 << (shift - 40))
}
