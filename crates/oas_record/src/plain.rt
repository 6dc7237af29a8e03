//! Rectangles that write no repetition, the commonest records.

ghost use Rattle.std.specs.Prelude.{◌≡◌, ◌+◌, ◌<◌, ◌≤◌, ◌↔◌, ℕ, Bool, false, None, Some, IsTrue, length, slice_index, IfOk, IfErr, IfSome};
ghost use Rattle.oas_record.specs.Parts.{IsOf};
ghost use Rattle.oas_record.specs.Plain.{BeginsPlainly, rectangle_of};
ghost use Rattle.oas_record.specs.Records.{HasRecord, NoRow, place_of, row_at};
ghost use Rattle.oas_record.specs.Rows.{place, HasFields, NoFields, is_set};
ghost use Rattle.oas_record.specs.declared.plain.PlainRectangle.{PlainRectangle as APlain};

use crate::faults::RecordBad;
use crate::info::square_info_at;
use crate::lexical::byte_at;
use crate::optional::{is_set, signed_where};
use crate::segments::{box_at, pair_at};

/// The id of a RECTANGLE.
const RECTANGLE: u8 = 20;

/// A RECTANGLE that writes no repetition. An absent field is None.
#[derive(Clone, Copy, Debug, PartialEq, Eq)]
pub struct PlainRectangle {
    /// The info byte.
    pub info: u8,
    /// The layer.
    pub layer: Option<u64>,
    /// The datatype.
    pub datatype: Option<u64>,
    /// The width.
    pub width: Option<u64>,
    /// The height.
    pub height: Option<u64>,
    /// The x of the lower left corner.
    pub x: Option<i64>,
    /// The y of the lower left corner.
    pub y: Option<i64>,
}

// Whether the id of a RECTANGLE stands at `at`, and after it an info byte whose bit of the repetition is clear.
#[inline(always)]
fn begins_plainly(bytes: &[u8], at: usize) -> bool
    requires { at ≤ length bytes.now }
    ensures { IsTrue result ↔ BeginsPlainly bytes.now at }
{
    let Some(id) = bytes.get(at) else {
        return false;
    };
    if *id != RECTANGLE {
        return false;
    }
    let Some(info) = bytes.get(at + 1) else {
        return false;
    };
    !is_set(*info, 2)
}

// The x and the y of a shape without a repetition, by bits 4 and 3, and the offset after them.
#[inline(always)]
fn corner_at(
    bytes: &[u8],
    at: usize,
    info: u8,
) -> Result<(Option<i64>, Option<i64>, usize), RecordBad>
    requires within { at ≤ length bytes.now }
    requires plain { is_set 2 info ≡ false }
    ensures ok { IfOk result (λ r. HasFields place info bytes.now at (place_of r.0 r.1 None) r.2) }
    ensures bad { IfErr result (λ bad. NoFields place info bytes.now at bad) }
    ensures within { IfOk result (λ r. r.2 ≤ length bytes.now) }
{
    let (x, second) = signed_where(bytes, at, info, 4)?;
    let (y, next) = signed_where(bytes, second, info, 3)?;
    Ok((x, y, next))
}

// The rest of a RECTANGLE without a repetition, after its id.
#[inline(always)]
fn plain_rest_at(bytes: &[u8], at: usize) -> Result<(PlainRectangle, usize), RecordBad>
    requires within { at < length bytes.now }
    requires plain { is_set 2 (slice_index bytes.now at) ≡ false }
    ensures ok { IfOk result (λ r. IsOf 20 false bytes.now at (rectangle_of r.0) r.1) }
    ensures bad { IfErr result (λ bad. NoRow (row_at 20) 20 false bytes.now at bad) }
    ensures within { IfOk result (λ r. r.1 ≤ length bytes.now) }
{
    let info = square_info_at(bytes, at)?;
    let (layer, datatype, second) = pair_at(bytes, at + 1, info)?;
    let (width, height, third) = box_at(bytes, second, info)?;
    let (x, y, next) = corner_at(bytes, third, info)?;
    let rectangle = PlainRectangle {
        info,
        layer,
        datatype,
        width,
        height,
        x,
        y,
    };
    Ok((rectangle, next))
}

/// The RECTANGLE at `at` and the offset after it, where one is there that writes no repetition. None where none is.
#[inline(always)]
pub fn plain_rectangle_at(bytes: &[u8], at: usize) -> Option<(PlainRectangle, usize)>
    requires { at ≤ length bytes.now }
    ensures some { IfSome result (λ r. (tables : Bool) → HasRecord bytes.now at tables (rectangle_of r.0) r.1) }
    ensures found { (tables : Bool) (r : APlain) (next : ℕ) → HasRecord bytes.now at tables (rectangle_of r) next → result ≡ Some (r, next) }
    ensures onward { IfSome result (λ r. at < r.1) }
    ensures within { IfSome result (λ r. r.1 ≤ length bytes.now) }
{
    if !begins_plainly(bytes, at) {
        return None;
    }
    match plain_rest_at(bytes, at + 1) {
        Ok(read) => Some(read),
        Err(_bad) => None,
    }
}
