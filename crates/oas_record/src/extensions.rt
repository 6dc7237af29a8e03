//! The fields of a path from its extension byte on.

ghost use Rattle.std.specs.Prelude.{◌≡◌, ◌⊎◌, ◌≤◌, length, IfOk, IfErr};
ghost use Rattle.oas_record.specs.Records.{number_or, signed_or, points_or, place_of};
ghost use Rattle.oas_record.specs.Rows.{Bit, Both, Extension, PathPoints, Signed, HasFields, HasWhere, NoFields, NoWhere, is_set, is_written, place, with_extension};

use crate::faults::RecordBad;
use crate::fields::Deltas;
use crate::lexical::byte_at;
use crate::optional::{is_set, path_where, signed_if};
use crate::repetition::Rep;
use crate::segments::place_at;

// The extension byte at `at` where bit 7 is set, and the offset after it.
pub(crate) fn extension_where(
    bytes: &[u8],
    at: usize,
    info: u8,
) -> Result<(Option<u8>, usize), RecordBad>
    requires within { at ≤ length bytes.now }
    ensures ok { IfOk result (λ r. HasWhere (is_set 7 info) Extension info bytes.now at (number_or r.0) r.1) }
    ensures bad { IfErr result (λ bad. NoWhere (is_set 7 info) Extension info bytes.now at bad) }
    ensures within { IfOk result (λ r. r.1 ≤ length bytes.now) }
{
    if !is_set(info, 7) {
        return Ok((None, at));
    }
    let byte = byte_at(bytes, at)?;
    if byte >= 16 {
        return Err(RecordBad::Shape);
    }
    Ok((Some(byte), at + 1))
}

// Whether the start's extension is written.
fn is_start_written(info: u8, extension: Option<u8>) -> bool
    ensures { result ≡ is_written (Both 10) (with_extension (number_or extension) info) }
{
    match extension {
        Some(byte) => byte / 4 % 4 == 3,
        None => false,
    }
}

// Whether the end's extension is written.
fn is_end_written(info: u8, extension: Option<u8>) -> bool
    ensures { result ≡ is_written (Both 8) (with_extension (number_or extension) info) }
{
    match extension {
        Some(byte) => byte % 4 == 3,
        None => false,
    }
}

// The extension at the start, at `at` where it is written, and the offset after it.
pub(crate) fn start_at(
    bytes: &[u8],
    at: usize,
    info: u8,
    extension: Option<u8>,
) -> Result<(Option<i64>, usize), RecordBad>
    requires { at ≤ length bytes.now }
    ensures ok { IfOk result (λ r. HasWhere (is_written (Both 10) (with_extension (number_or extension) info)) Signed (with_extension (number_or extension) info) bytes.now at (signed_or r.0) r.1) }
    ensures bad { IfErr result (λ bad. NoWhere (is_written (Both 10) (with_extension (number_or extension) info)) Signed (with_extension (number_or extension) info) bytes.now at bad) }
    ensures within { IfOk result (λ r. r.1 ≤ length bytes.now) }
{
    signed_if(bytes, at, is_start_written(info, extension))
}

// The extension at the end, at `at` where it is written, and the offset after it.
pub(crate) fn end_at(
    bytes: &[u8],
    at: usize,
    info: u8,
    extension: Option<u8>,
) -> Result<(Option<i64>, usize), RecordBad>
    requires { at ≤ length bytes.now }
    ensures ok { IfOk result (λ r. HasWhere (is_written (Both 8) (with_extension (number_or extension) info)) Signed (with_extension (number_or extension) info) bytes.now at (signed_or r.0) r.1) }
    ensures bad { IfErr result (λ bad. NoWhere (is_written (Both 8) (with_extension (number_or extension) info)) Signed (with_extension (number_or extension) info) bytes.now at bad) }
    ensures within { IfOk result (λ r. r.1 ≤ length bytes.now) }
{
    signed_if(bytes, at, is_end_written(info, extension))
}

// The point list at `at` where bit 5 is set, and the offset after it.
pub(crate) fn path_points_at(
    bytes: &[u8],
    at: usize,
    info: u8,
    _extension: Option<u8>,
) -> Result<(Option<Deltas<'_>>, usize), RecordBad>
    requires { at ≤ length bytes.now }
    ensures ok { IfOk result (λ r. HasWhere (is_written (Bit 5) (with_extension (number_or _extension) info)) PathPoints (with_extension (number_or _extension) info) bytes.now at (points_or r.0) r.1) }
    ensures bad { IfErr result (λ bad. NoWhere (is_written (Bit 5) (with_extension (number_or _extension) info)) PathPoints (with_extension (number_or _extension) info) bytes.now at bad) }
    ensures within { IfOk result (λ r. r.1 ≤ length bytes.now) }
{
    path_where(bytes, at, info)
}

// The x, the y and the repetition, and the offset after them.
pub(crate) fn path_place_at(
    bytes: &[u8],
    at: usize,
    info: u8,
    _extension: Option<u8>,
) -> Result<(Option<i64>, Option<i64>, Option<Rep<'_>>, usize), RecordBad>
    requires { at ≤ length bytes.now }
    ensures ok { IfOk result (λ r. HasFields place (with_extension (number_or _extension) info) bytes.now at (place_of r.0 r.1 r.2) r.3) }
    ensures bad { IfErr result (λ bad. NoFields place (with_extension (number_or _extension) info) bytes.now at bad) }
    ensures within { IfOk result (λ r. r.3 ≤ length bytes.now) }
{
    place_at(bytes, at, info)
}
