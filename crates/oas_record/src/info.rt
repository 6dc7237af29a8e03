//! Info bytes.

ghost use Rattle.std.specs.Prelude.{◌≡◌, ◌<◌, ◌≤◌, IsTrue, length, slice_index, IfOk, IfErr};
ghost use Rattle.oas_record.specs.Parts.{NoInfoByte};
ghost use Rattle.oas_record.specs.Rows.{Below, Square, allows};

use crate::faults::RecordBad;
use crate::lexical::byte_at;
use crate::optional::is_set;

// The info byte at `at`, which is below the limit.
pub(crate) fn info_at(bytes: &[u8], at: usize, limit: u16) -> Result<u8, RecordBad>
    requires { at ≤ length bytes.now }
    ensures ok { IfOk result (λ info. info ≡ slice_index bytes.now at) }
    ensures there { IfOk result (λ info. at < length bytes.now) }
    ensures allowed { IfOk result (λ info. IsTrue (allows (Below limit) info)) }
    ensures bad { IfErr result (λ bad. NoInfoByte (Below limit) bytes.now at bad) }
{
    let info = byte_at(bytes, at)?;
    if u16::from(info) >= limit {
        return Err(RecordBad::Shape);
    }
    Ok(info)
}

// Whether an info byte of a rectangle is that of no square with a height.
#[inline(always)]
fn allows_square(info: u8) -> bool
    ensures { result ≡ allows Square info }
{
    !(is_set(info, 7) && is_set(info, 5))
}

// The info byte at `at` of a rectangle: a square has no height.
#[inline(always)]
pub(crate) fn square_info_at(bytes: &[u8], at: usize) -> Result<u8, RecordBad>
    requires { at ≤ length bytes.now }
    ensures ok { IfOk result (λ info. info ≡ slice_index bytes.now at) }
    ensures there { IfOk result (λ info. at < length bytes.now) }
    ensures allowed { IfOk result (λ info. IsTrue (allows Square info)) }
    ensures bad { IfErr result (λ bad. NoInfoByte Square bytes.now at bad) }
{
    let info = byte_at(bytes, at)?;
    if !allows_square(info) {
        return Err(RecordBad::Shape);
    }
    Ok(info)
}
