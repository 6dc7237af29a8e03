//! The fields of paths.

ghost use Rattle.std.specs.Prelude.{[], ◌≡◌, ◌∷◌, ◌≤◌, length, IfOk, IfErr};
ghost use Rattle.oas_record.specs.Records.{number_or, signed_or};
ghost use Rattle.oas_record.specs.Rows.{HasFields, NoFields, with_extension};
ghost use Rattle.oas_record.specs.Shapes.{HasOwn, end_parts, own_parts, width_parts};
ghost use Rattle.oas_record.specs.declared.shape_form.ShapeForm.TheVariants.{Path};

use crate::extensions::{end_at, extension_where, path_points_at, start_at};
use crate::faults::RecordBad;
use crate::optional::number_where;
use crate::shapes::ShapeKind;

// The half-width and the extension byte, by bits 6 and 7, and the offset after them.
fn width_at(
    bytes: &[u8],
    at: usize,
    info: u8,
) -> Result<(Option<u64>, Option<u8>, usize), RecordBad>
    requires { at ≤ length bytes.now }
    ensures ok { IfOk result (λ r. HasFields width_parts info bytes.now at (number_or r.0 ∷ number_or r.1 ∷ []) r.2) }
    ensures bad { IfErr result (λ bad. NoFields width_parts info bytes.now at bad) }
    ensures within { IfOk result (λ r. r.2 ≤ length bytes.now) }
{
    let (half_width, second) = number_where(bytes, at, info, 6)?;
    let (extension, next) = extension_where(bytes, second, info)?;
    Ok((half_width, extension, next))
}

// The extensions at the start and at the end, where their schemes are 3, and the offset after them.
fn ends_at(
    bytes: &[u8],
    at: usize,
    info: u8,
    extension: Option<u8>,
) -> Result<(Option<i64>, Option<i64>, usize), RecordBad>
    requires { at ≤ length bytes.now }
    ensures ok { IfOk result (λ r. HasFields end_parts (with_extension (number_or extension) info) bytes.now at (signed_or r.0 ∷ signed_or r.1 ∷ []) r.2) }
    ensures bad { IfErr result (λ bad. NoFields end_parts (with_extension (number_or extension) info) bytes.now at bad) }
    ensures within { IfOk result (λ r. r.2 ≤ length bytes.now) }
{
    let (start, second) = start_at(bytes, at, info, extension)?;
    let (end, next) = end_at(bytes, second, info, extension)?;
    Ok((start, end, next))
}

// The fields of a PATH between its datatype and its place, and the offset after them.
pub(crate) fn path_at(
    bytes: &[u8],
    at: usize,
    info: u8,
) -> Result<(ShapeKind<'_>, usize), RecordBad>
    requires { at ≤ length bytes.now }
    ensures ok { IfOk result (λ r. HasOwn Path info bytes.now at r.0 r.1) }
    ensures bad { IfErr result (λ bad. NoFields (own_parts Path) info bytes.now at bad) }
    ensures within { IfOk result (λ r. r.1 ≤ length bytes.now) }
{
    let (half_width, extension, second) = width_at(bytes, at, info)?;
    let (start, end, third) = ends_at(bytes, second, info, extension)?;
    let (points, next) = path_points_at(bytes, third, info, extension)?;
    let kind = ShapeKind::Path {
        half_width,
        extension,
        start,
        end,
        points,
    };
    Ok((kind, next))
}
