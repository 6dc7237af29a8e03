//! The fields with which the records of shapes and placements begin and end.

ghost use Rattle.std.specs.Prelude.{◌≡◌, ◌⊎◌, ◌≤◌, [], ◌∷◌, length, IfOk, IfErr};
ghost use Rattle.oas_record.specs.Records.{number_or, place_of};
ghost use Rattle.oas_record.specs.Rows.{pair, box, place, placed, HasFields, NoFields};

use crate::faults::RecordBad;
use crate::optional::{number_where, repetition_where, signed_where};
use crate::repetition::Rep;

// The layer and the datatype, by bits 0 and 1, and the offset after them.
#[inline(always)]
pub(crate) fn pair_at(
    bytes: &[u8],
    at: usize,
    info: u8,
) -> Result<(Option<u64>, Option<u64>, usize), RecordBad>
    requires { at ≤ length bytes.now }
    ensures ok { IfOk result (λ r. HasFields pair info bytes.now at (number_or r.0 ∷ number_or r.1 ∷ []) r.2) }
    ensures bad { IfErr result (λ bad. NoFields pair info bytes.now at bad) }
    ensures within { IfOk result (λ r. r.2 ≤ length bytes.now) }
{
    let (layer, first) = number_where(bytes, at, info, 0)?;
    let (datatype, next) = number_where(bytes, first, info, 1)?;
    Ok((layer, datatype, next))
}

// The width and the height, by bits 6 and 5, and the offset after them.
#[inline(always)]
pub(crate) fn box_at(
    bytes: &[u8],
    at: usize,
    info: u8,
) -> Result<(Option<u64>, Option<u64>, usize), RecordBad>
    requires { at ≤ length bytes.now }
    ensures ok { IfOk result (λ r. HasFields box info bytes.now at (number_or r.0 ∷ number_or r.1 ∷ []) r.2) }
    ensures bad { IfErr result (λ bad. NoFields box info bytes.now at bad) }
    ensures within { IfOk result (λ r. r.2 ≤ length bytes.now) }
{
    let (width, first) = number_where(bytes, at, info, 6)?;
    let (height, next) = number_where(bytes, first, info, 5)?;
    Ok((width, height, next))
}

// The x, the y and the repetition of a shape or a text, by bits 4, 3 and 2, and the offset after them.
pub(crate) fn place_at(
    bytes: &[u8],
    at: usize,
    info: u8,
) -> Result<(Option<i64>, Option<i64>, Option<Rep<'_>>, usize), RecordBad>
    requires { at ≤ length bytes.now }
    ensures ok { IfOk result (λ r. HasFields place info bytes.now at (place_of r.0 r.1 r.2) r.3) }
    ensures bad { IfErr result (λ bad. NoFields place info bytes.now at bad) }
    ensures within { IfOk result (λ r. r.3 ≤ length bytes.now) }
{
    let (x, second) = signed_where(bytes, at, info, 4)?;
    let (y, third) = signed_where(bytes, second, info, 3)?;
    let (repetition, next) = repetition_where(bytes, third, info, 2)?;
    Ok((x, y, repetition, next))
}

// The x, the y and the repetition of a placement, by bits 5, 4 and 3, and the offset after them.
pub(crate) fn placed_at(
    bytes: &[u8],
    at: usize,
    info: u8,
) -> Result<(Option<i64>, Option<i64>, Option<Rep<'_>>, usize), RecordBad>
    requires { at ≤ length bytes.now }
    ensures ok { IfOk result (λ r. HasFields placed info bytes.now at (place_of r.0 r.1 r.2) r.3) }
    ensures bad { IfErr result (λ bad. NoFields placed info bytes.now at bad) }
    ensures within { IfOk result (λ r. r.3 ≤ length bytes.now) }
{
    let (x, second) = signed_where(bytes, at, info, 5)?;
    let (y, third) = signed_where(bytes, second, info, 4)?;
    let (repetition, next) = repetition_where(bytes, third, info, 3)?;
    Ok((x, y, repetition, next))
}
