//! The strings of OASIS.
ghost use Rattle.std.specs.Prelude.{◌≡◌, ◌+◌, ◌≤◌, ◌↔◌, ℕ, length, IfOk, IfErr};
ghost use Rattle.oas_lex.specs.Strings.{HasBytes, HasText, BytesFail, TextFails};

use crate::LexBad;
use crate::numbers::unsigned;

/// The offset after this many bytes from `at` on.
pub fn end_of_bytes(bytes: &[u8], at: usize, count: u64) -> Result<usize, LexBad>
    requires { at ≤ length bytes.now }
    ensures ok { IfOk result (λ next. HasBytes bytes.now at count next) }
    ensures bad { IfErr result (λ bad. BytesFail bytes.now at count bad) }
    ensures found { (next : ℕ) → (result ≡ Ok next) ↔ HasBytes bytes.now at count next }
    ensures fault { (bad : LexBad) → (result ≡ Err bad) ↔ BytesFail bytes.now at count bad }
{
    if count > (bytes.len() - at) as u64 {
        return Err(LexBad::Short);
    }
    Ok(at + count as usize)
}

/// Where the bytes of the string at `at` start and end. The string ends there too.
///
/// `Short` and `Wide` are those of its length, and `Short` comes also where fewer bytes follow than its length says.
pub fn text(bytes: &[u8], at: usize) -> Result<(usize, usize), LexBad>
    requires { at ≤ length bytes.now }
    ensures found { (first next : ℕ) → (result ≡ Ok (first, next)) ↔ HasText bytes.now at first next }
    ensures fault { (bad : LexBad) → (result ≡ Err bad) ↔ TextFails bytes.now at bad }
{
    let (size, first) = unsigned(bytes, at)?;
    let next = end_of_bytes(bytes, first, size)?;
    Ok((first, next))
}
