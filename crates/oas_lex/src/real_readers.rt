//! Reading the reals of OASIS, kind by kind.
ghost use Rattle.std.specs.Prelude.{◌≡◌, ◌<◌, ◌≤◌, ◌↔◌, ℕ, Some, length, slice_index, IfOk, IfErr};
ghost use Rattle.oas_lex.specs.declared.reals.Real.{Real as AReal};
ghost use Rattle.oas_lex.specs.Reals.{TwoNumbers, form_of, HasOneNumber, HasBits, HasRealParts, RealPartsFail, HasReal, RealFails};
ghost use Rattle.oas_lex.specs.Strings.{BytesFail, NumberFails};

use crate::LexBad;
use crate::numbers::unsigned;
use crate::reals::Real;
use crate::strings::end_of_bytes;
use byteorder::{ByteOrder, LittleEndian};

// One number, and no second one.
fn one_number(bytes: &[u8], at: usize, kind: u8) -> Result<(Real, usize), LexBad>
    requires { at ≤ length bytes.now }
    ensures ok { IfOk result (λ r. (r.0.kind ≡ kind) × HasOneNumber bytes.now at r.0.a r.0.b r.1) }
    ensures bad { IfErr result (λ bad. NumberFails bytes.now at bad) }
{
    let (a, next) = unsigned(bytes, at)?;
    Ok((Real { kind, a, b: 0 }, next))
}

fn two_numbers(bytes: &[u8], at: usize, kind: u8) -> Result<(Real, usize), LexBad>
    requires { at ≤ length bytes.now }
    ensures ok { IfOk result (λ r. (r.0.kind ≡ kind) × HasRealParts (Some TwoNumbers) bytes.now at r.0.a r.0.b r.1) }
    ensures bad { IfErr result (λ bad. RealPartsFail (Some TwoNumbers) bytes.now at bad) }
{
    let (a, mid) = unsigned(bytes, at)?;
    let (b, next) = unsigned(bytes, mid)?;
    Ok((Real { kind, a, b }, next))
}

fn four_bytes(bytes: &[u8], at: usize, kind: u8) -> Result<(Real, usize), LexBad>
    requires { at ≤ length bytes.now }
    ensures ok { IfOk result (λ r. (r.0.kind ≡ kind) × HasBits bytes.now at 4 r.0.a r.0.b r.1) }
    ensures bad { IfErr result (λ bad. BytesFail bytes.now at 4 bad) }
{
    let next = end_of_bytes(bytes, at, 4)?;
    let a = u64::from(LittleEndian::read_u32(&bytes[at..]));
    Ok((Real { kind, a, b: 0 }, next))
}

fn eight_bytes(bytes: &[u8], at: usize, kind: u8) -> Result<(Real, usize), LexBad>
    requires { at ≤ length bytes.now }
    ensures ok { IfOk result (λ r. (r.0.kind ≡ kind) × HasBits bytes.now at 8 r.0.a r.0.b r.1) }
    ensures bad { IfErr result (λ bad. BytesFail bytes.now at 8 bad) }
{
    let next = end_of_bytes(bytes, at, 8)?;
    let a = LittleEndian::read_u64(&bytes[at..]);
    Ok((Real { kind, a, b: 0 }, next))
}

// The numbers of a real of this kind.
fn parts(bytes: &[u8], at: usize, kind: u8) -> Result<(Real, usize), LexBad>
    requires { at ≤ length bytes.now }
    ensures ok { IfOk result (λ r. (r.0.kind ≡ kind) × HasRealParts (form_of kind) bytes.now at r.0.a r.0.b r.1) }
    ensures bad { IfErr result (λ bad. RealPartsFail (form_of kind) bytes.now at bad) }
{
    match kind {
        0..=3 => one_number(bytes, at, kind),
        4 | 5 => two_numbers(bytes, at, kind),
        6 => four_bytes(bytes, at, kind),
        7 => eight_bytes(bytes, at, kind),
        _ => Err(LexBad::RealKind),
    }
}

// The byte at `at`.
fn byte_at(bytes: &[u8], at: usize) -> u8
    requires { at < length bytes.now }
    ensures { result ≡ slice_index bytes.now at }
{
    bytes[at]
}

/// The real at `at`, and the offset after it.
///
/// `RealKind` exactly where its kind is above 7, `Wide` where a number of it is, and `Short` where the bytes end first.
pub fn real(bytes: &[u8], at: usize) -> Result<(Real, usize), LexBad>
    requires { at ≤ length bytes.now }
    ensures found { (real : AReal) (next : ℕ) → (result ≡ Ok (real, next)) ↔ HasReal bytes.now at real next }
    ensures fault { (bad : LexBad) → (result ≡ Err bad) ↔ RealFails bytes.now at bad }
{
    if at == bytes.len() {
        return Err(LexBad::Short);
    }
    parts(bytes, at + 1, byte_at(bytes, at))
}
