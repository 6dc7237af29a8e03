//! The record at an offset.

ghost use Rattle.std.specs.Prelude.{◌≡◌, ◌<◌, ◌≤◌, ℕ, Ok, Err, length, IfOk, IfErr};
ghost use Rattle.oas_record.specs.Parts.{IsOf, NotOf};
ghost use Rattle.oas_record.specs.Records.{HasRecord, NoRecord};
ghost use Rattle.oas_record.specs.declared.faults.RecordBad.{RecordBad as ABad};
ghost use Rattle.oas_record.specs.declared.records.OasRecord.{OasRecord as ARecord};

use crate::faults::RecordBad;
use crate::file_rows::{end, start};
use crate::lexical::byte_at;
use crate::name_rows::{
    cell, layer_name, name, numbered_cell, numbered_name, numbered_xname, xelement, xname,
};
use crate::placement_rows::{placement, text_record};
use crate::property_rows::property;
use crate::records::{NameKind, OasRecord};
use crate::shape_form::ShapeForm;
use crate::shape_rows::{shape, xgeometry};

// The record of this id, whose info byte or first field stands at `at`, and the offset after it.
fn rest_at(
    bytes: &[u8],
    at: usize,
    id: u8,
    tables: bool,
) -> Result<(OasRecord<'_>, usize), RecordBad>
    requires { at ≤ length bytes.now }
    ensures ok { IfOk result (λ r. IsOf id tables bytes.now at r.0 r.1) }
    ensures bad { IfErr result (λ bad. NotOf id tables bytes.now at bad) }
    ensures within { IfOk result (λ r. r.1 ≤ length bytes.now) }
{
    match id {
        0 => Ok((OasRecord::Pad, at)),
        1 => start(bytes, at),
        2 => end(bytes, at, tables),
        3 => name(bytes, at, NameKind::Cell),
        4 => numbered_name(bytes, at, NameKind::Cell),
        5 => name(bytes, at, NameKind::Text),
        6 => numbered_name(bytes, at, NameKind::Text),
        7 => name(bytes, at, NameKind::Property),
        8 => numbered_name(bytes, at, NameKind::Property),
        9 => name(bytes, at, NameKind::PropertyString),
        10 => numbered_name(bytes, at, NameKind::PropertyString),
        11 => layer_name(bytes, at, false),
        12 => layer_name(bytes, at, true),
        13 => numbered_cell(bytes, at),
        14 => cell(bytes, at),
        15 => Ok((OasRecord::Mode { is_relative: false }, at)),
        16 => Ok((OasRecord::Mode { is_relative: true }, at)),
        17 => placement(bytes, at, false),
        18 => placement(bytes, at, true),
        19 => text_record(bytes, at),
        20 => shape(bytes, at, ShapeForm::Rectangle),
        21 => shape(bytes, at, ShapeForm::Polygon),
        22 => shape(bytes, at, ShapeForm::Path),
        23 => shape(bytes, at, ShapeForm::Trapezoid),
        24 => shape(bytes, at, ShapeForm::TrapezoidA),
        25 => shape(bytes, at, ShapeForm::TrapezoidB),
        26 => shape(bytes, at, ShapeForm::Ctrapezoid),
        27 => shape(bytes, at, ShapeForm::Circle),
        28 => property(bytes, at),
        29 => Ok((OasRecord::LastProperty, at)),
        30 => xname(bytes, at),
        31 => numbered_xname(bytes, at),
        32 => xelement(bytes, at),
        33 => xgeometry(bytes, at),
        34 => Err(RecordBad::Packed),
        _ => Err(RecordBad::Kind),
    }
}

// The record at `at`, and the offset after it.
fn read_record(bytes: &[u8], at: usize, tables: bool) -> Result<(OasRecord<'_>, usize), RecordBad>
    requires { at ≤ length bytes.now }
    ensures ok { IfOk result (λ r. HasRecord bytes.now at tables r.0 r.1) }
    ensures bad { IfErr result (λ bad. NoRecord bytes.now at tables bad) }
    ensures within { IfOk result (λ r. r.1 ≤ length bytes.now) }
{
    let id = byte_at(bytes, at)?;
    rest_at(bytes, at + 1, id, tables)
}

/// The record at `at` with its written and its absent fields, and the offset after it; else what the first byte that
/// breaks shows. `tables` says whether END holds the table offsets.
///
/// It takes no memory: the items of a list stay in the file, and are read again as they are asked for.
pub fn record_at(bytes: &[u8], at: usize, tables: bool) -> Result<(OasRecord<'_>, usize), RecordBad>
    requires { at ≤ length bytes.now }
    ensures ok { IfOk result (λ r. HasRecord bytes.now at tables r.0 r.1) }
    ensures bad { IfErr result (λ bad. NoRecord bytes.now at tables bad) }
    ensures found { (r : ARecord) (next : ℕ) → HasRecord bytes.now at tables r next → result ≡ Ok (r, next) }
    ensures refused { (bad : ABad) → NoRecord bytes.now at tables bad → result ≡ Err bad }

    // So a loop over the records ends, and the next one can be read.
    ensures onward { IfOk result (λ r. at < r.1) }
    ensures within { IfOk result (λ r. r.1 ≤ length bytes.now) }
{
    read_record(bytes, at, tables)
}
