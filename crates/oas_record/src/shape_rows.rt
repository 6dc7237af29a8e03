//! The fields of shapes.

ghost use Rattle.std.specs.Prelude.{false, ◌≡◌, ◌<◌, ◌≤◌, IsTrue, length, slice_index, IfOk, IfErr};
ghost use Rattle.oas_record.specs.Parts.{IsOf, NotOf, NoInfoByte};
ghost use Rattle.oas_record.specs.Rows.{allows, NoFields};
ghost use Rattle.oas_record.specs.Shapes.{HasOwn, form_id, info_of_form, own_parts};
ghost use Rattle.oas_record.specs.declared.shape_form.ShapeForm.TheVariants.{Trapezoid, TrapezoidA, TrapezoidB, Ctrapezoid};

use crate::faults::RecordBad;
use crate::info::{info_at, square_info_at};
use crate::lexical::{number_at, signed_at, text_at};
use crate::optional::{number_where, polygon_where, type_where};
use crate::path_rows::path_at;
use crate::records::OasRecord;
use crate::segments::{box_at, pair_at, place_at};
use crate::shape_form::ShapeForm;
use crate::shapes::{ShapeHead, ShapeKind, TrapezoidDeltas};

// The info byte of a shape of this form at `at`.
#[inline(always)]
fn shape_info_at(bytes: &[u8], at: usize, form: ShapeForm) -> Result<u8, RecordBad>
    requires { at ≤ length bytes.now }
    ensures ok { IfOk result (λ info. info ≡ slice_index bytes.now at) }
    ensures there { IfOk result (λ info. at < length bytes.now) }
    ensures allowed { IfOk result (λ info. IsTrue (allows (info_of_form form) info)) }
    ensures bad { IfErr result (λ bad. NoInfoByte (info_of_form form) bytes.now at bad) }
{
    match form {
        ShapeForm::Rectangle => square_info_at(bytes, at),
        ShapeForm::Polygon => info_at(bytes, at, 64),
        ShapeForm::Circle => info_at(bytes, at, 64),
        ShapeForm::Path => info_at(bytes, at, 256),
        ShapeForm::Trapezoid => info_at(bytes, at, 256),
        ShapeForm::TrapezoidA => info_at(bytes, at, 256),
        ShapeForm::TrapezoidB => info_at(bytes, at, 256),
        ShapeForm::Ctrapezoid => info_at(bytes, at, 256),
    }
}

// The fields of a TRAPEZOID with both deltas between its datatype and its place, and the offset after them.
fn trapezoid(bytes: &[u8], at: usize, info: u8) -> Result<(ShapeKind<'_>, usize), RecordBad>
    requires { at ≤ length bytes.now }
    ensures ok { IfOk result (λ r. HasOwn Trapezoid info bytes.now at r.0 r.1) }
    ensures bad { IfErr result (λ bad. NoFields (own_parts Trapezoid) info bytes.now at bad) }
    ensures within { IfOk result (λ r. r.1 ≤ length bytes.now) }
{
    let (width, height, second) = box_at(bytes, at, info)?;
    let (delta_a, third) = signed_at(bytes, second)?;
    let (delta_b, next) = signed_at(bytes, third)?;
    let kind = ShapeKind::Trapezoid {
        width,
        height,
        deltas: TrapezoidDeltas::Both(delta_a, delta_b),
    };
    Ok((kind, next))
}

// The same of a TRAPEZOID with delta a alone.
fn trapezoid_a(bytes: &[u8], at: usize, info: u8) -> Result<(ShapeKind<'_>, usize), RecordBad>
    requires { at ≤ length bytes.now }
    ensures ok { IfOk result (λ r. HasOwn TrapezoidA info bytes.now at r.0 r.1) }
    ensures bad { IfErr result (λ bad. NoFields (own_parts TrapezoidA) info bytes.now at bad) }
    ensures within { IfOk result (λ r. r.1 ≤ length bytes.now) }
{
    let (width, height, second) = box_at(bytes, at, info)?;
    let (delta, next) = signed_at(bytes, second)?;
    let kind = ShapeKind::Trapezoid {
        width,
        height,
        deltas: TrapezoidDeltas::A(delta),
    };
    Ok((kind, next))
}

// The same of a TRAPEZOID with delta b alone.
fn trapezoid_b(bytes: &[u8], at: usize, info: u8) -> Result<(ShapeKind<'_>, usize), RecordBad>
    requires { at ≤ length bytes.now }
    ensures ok { IfOk result (λ r. HasOwn TrapezoidB info bytes.now at r.0 r.1) }
    ensures bad { IfErr result (λ bad. NoFields (own_parts TrapezoidB) info bytes.now at bad) }
    ensures within { IfOk result (λ r. r.1 ≤ length bytes.now) }
{
    let (width, height, second) = box_at(bytes, at, info)?;
    let (delta, next) = signed_at(bytes, second)?;
    let kind = ShapeKind::Trapezoid {
        width,
        height,
        deltas: TrapezoidDeltas::B(delta),
    };
    Ok((kind, next))
}

// The same of a CTRAPEZOID.
fn ctrapezoid(bytes: &[u8], at: usize, info: u8) -> Result<(ShapeKind<'_>, usize), RecordBad>
    requires { at ≤ length bytes.now }
    ensures ok { IfOk result (λ r. HasOwn Ctrapezoid info bytes.now at r.0 r.1) }
    ensures bad { IfErr result (λ bad. NoFields (own_parts Ctrapezoid) info bytes.now at bad) }
    ensures within { IfOk result (λ r. r.1 ≤ length bytes.now) }
{
    let (trapezoid_type, second) = type_where(bytes, at, info)?;
    let (width, height, next) = box_at(bytes, second, info)?;
    let kind = ShapeKind::Ctrapezoid {
        trapezoid_type,
        width,
        height,
    };
    Ok((kind, next))
}

// The fields of a shape of this form between its datatype and its place, and the offset after them.
#[inline(always)]
fn kind_at(
    bytes: &[u8],
    at: usize,
    info: u8,
    form: ShapeForm,
) -> Result<(ShapeKind<'_>, usize), RecordBad>
    requires { at ≤ length bytes.now }
    ensures ok { IfOk result (λ r. HasOwn form info bytes.now at r.0 r.1) }
    ensures bad { IfErr result (λ bad. NoFields (own_parts form) info bytes.now at bad) }
    ensures within { IfOk result (λ r. r.1 ≤ length bytes.now) }
{
    match form {
        ShapeForm::Rectangle => {
            let (width, height, next) = box_at(bytes, at, info)?;
            Ok((ShapeKind::Rectangle { width, height }, next))
        }
        ShapeForm::Polygon => {
            let (points, next) = polygon_where(bytes, at, info)?;
            Ok((ShapeKind::Polygon { points }, next))
        }
        ShapeForm::Path => path_at(bytes, at, info),
        ShapeForm::Trapezoid => trapezoid(bytes, at, info),
        ShapeForm::TrapezoidA => trapezoid_a(bytes, at, info),
        ShapeForm::TrapezoidB => trapezoid_b(bytes, at, info),
        ShapeForm::Ctrapezoid => ctrapezoid(bytes, at, info),
        ShapeForm::Circle => {
            let (radius, next) = number_where(bytes, at, info, 5)?;
            Ok((ShapeKind::Circle { radius }, next))
        }
    }
}

// The rest of a record with the id of this form, after its id.
#[inline(always)]
pub(crate) fn shape(
    bytes: &[u8],
    at: usize,
    form: ShapeForm,
) -> Result<(OasRecord<'_>, usize), RecordBad>
    requires { at ≤ length bytes.now }
    ensures ok { IfOk result (λ r. IsOf (form_id form) false bytes.now at r.0 r.1) }
    ensures bad { IfErr result (λ bad. NotOf (form_id form) false bytes.now at bad) }
    ensures within { IfOk result (λ r. r.1 ≤ length bytes.now) }
{
    let info = shape_info_at(bytes, at, form)?;
    let (layer, datatype, second) = pair_at(bytes, at + 1, info)?;
    let (kind, third) = kind_at(bytes, second, info, form)?;
    let (x, y, repetition, next) = place_at(bytes, third, info)?;
    let head = ShapeHead {
        info,
        layer,
        datatype,
        x,
        y,
        repetition,
    };
    Ok((OasRecord::Shape { head, kind }, next))
}

// The rest of a record with id 33, XGEOMETRY, after its id.
pub(crate) fn xgeometry(bytes: &[u8], at: usize) -> Result<(OasRecord<'_>, usize), RecordBad>
    requires { at ≤ length bytes.now }
    ensures ok { IfOk result (λ r. IsOf 33 false bytes.now at r.0 r.1) }
    ensures bad { IfErr result (λ bad. NotOf 33 false bytes.now at bad) }
    ensures within { IfOk result (λ r. r.1 ≤ length bytes.now) }
{
    let info = info_at(bytes, at, 32)?;
    let (attribute, second) = number_at(bytes, at + 1)?;
    let (layer, datatype, third) = pair_at(bytes, second, info)?;
    let text = text_at(bytes, third)?;
    let (x, y, repetition, next) = place_at(bytes, text.1, info)?;
    let head = ShapeHead {
        info,
        layer,
        datatype,
        x,
        y,
        repetition,
    };
    let kind = ShapeKind::XGeometry { attribute, text };
    Ok((OasRecord::Shape { head, kind }, next))
}
