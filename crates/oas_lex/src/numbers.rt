//! The signed and unsigned integers of OASIS.
ghost use Rattle.std.specs.Prelude.{◌≡◌, ◌≢◌, ◌≤◌, ◌<◌, ◌^◌, ℕ, ℤ, ◌↔◌, length, IfOk, IfSome};
ghost use Rattle.oas_lex.specs.Numbers.{HasUnsigned, HasSigned, EndsFirst, IsWide, signed_value};

use crate::LexBad;

/// What a group weighs that makes any number too wide.
const TOO_WIDE: u64 = 1 << 63;

// The unsigned number of at most three bytes that stands at `at`, and the offset after it. None where another stands
// there, or none.
#[inline(always)]
fn short_unsigned(bytes: &[u8], at: usize) -> Option<(u64, usize)>
    requires { at ≤ length bytes.now }
    ensures { IfSome result (λ r. HasUnsigned bytes.now at r.0 r.1) }
{
    let Some(first) = bytes.get(at) else {
        return None;
    };
    let low = u64::from(*first % 128);
    if *first < 128 {
        return Some((low, at + 1));
    }
    let Some(second) = bytes.get(at + 1) else {
        return None;
    };
    let middle = u64::from(*second % 128) * 128;
    if *second < 128 {
        return Some((low + middle, at + 2));
    }
    let Some(third) = bytes.get(at + 2) else {
        return None;
    };
    if *third < 128 {
        return Some((low + middle + u64::from(*third) * 16384, at + 3));
    }
    None
}

// The unsigned number that stands at `at`, byte by byte.
#[inline(never)]
fn long_unsigned(bytes: &[u8], at: usize) -> Result<(u64, usize), LexBad>
    requires { at ≤ length bytes.now }
    ensures ok { IfOk result (λ r. HasUnsigned bytes.now at r.0 r.1) }
    ensures read { (n next : ℕ) → HasUnsigned bytes.now at n next → result ≡ Ok (n, next) }
    ensures short { (result ≡ Err LexBad.Short) ↔ EndsFirst bytes.now at }
    ensures wide { (result ≡ Err LexBad.Wide) ↔ IsWide bytes.now at }
    ensures no_real { result ≢ Err LexBad.RealKind }
{
    let rest = &bytes[at..];
    let mut value: u64 = 0;
    let mut weight: u64 = 1;
    for (index, byte) in rest.iter().enumerate() {
        let group = u64::from(*byte % 128);
        if weight == TOO_WIDE {
            if group != 0 {
                return Err(LexBad::Wide);
            }
        } else {
            value += group * weight;
            weight *= 128;
        }
        if *byte < 128 {
            return Ok((value, at + index + 1));
        }
    }
    Err(LexBad::Short)
}

/// The unsigned number at `at`, and the offset after it.
///
/// `Short` exactly where the bytes end before the number does, and `Wide` exactly where its value takes more than 63
/// bits: the first byte that breaks decides. Groups of zeros are allowed at its end.
#[inline(always)]
pub fn unsigned(bytes: &[u8], at: usize) -> Result<(u64, usize), LexBad>
    requires { at ≤ length bytes.now }
    ensures ok { IfOk result (λ r. HasUnsigned bytes.now at r.0 r.1) }
    ensures read { (n next : ℕ) → HasUnsigned bytes.now at n next → result ≡ Ok (n, next) }
    ensures short { (result ≡ Err LexBad.Short) ↔ EndsFirst bytes.now at }
    ensures wide { (result ≡ Err LexBad.Wide) ↔ IsWide bytes.now at }
    ensures no_real { result ≢ Err LexBad.RealKind }
{
    match short_unsigned(bytes, at) {
        Some(read) => Ok(read),
        None => long_unsigned(bytes, at),
    }
}

/// The signed number at `at`, and the offset after it: its sign is bit 0, its magnitude the bits above.
///
/// `Short` and `Wide` exactly where `unsigned` says so, since the sign counts as a bit.
#[inline(always)]
pub fn signed(bytes: &[u8], at: usize) -> Result<(i64, usize), LexBad>
    requires { at ≤ length bytes.now }
    ensures ok { IfOk result (λ r. HasSigned bytes.now at r.0 r.1) }
    ensures read { (z : ℤ) (next : ℕ) → HasSigned bytes.now at z next → result ≡ Ok (z, next) }
    ensures short { (result ≡ Err LexBad.Short) ↔ EndsFirst bytes.now at }
    ensures wide { (result ≡ Err LexBad.Wide) ↔ IsWide bytes.now at }
    ensures no_real { result ≢ Err LexBad.RealKind }
{
    let (code, next) = unsigned(bytes, at)?;
    Ok((value_of_code(code), next))
}

// The number whose sign is in bit 0 and whose magnitude is above.
#[inline(always)]
fn value_of_code(code: u64) -> i64
    requires { code < 2 ^ 63 }
    ensures { result ≡ signed_value code }
{
    let magnitude = (code / 2) as i64;
    if code % 2 == 0 { magnitude } else { -magnitude }
}
