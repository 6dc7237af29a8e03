//! The fields of the first and the last record.

ghost use Rattle.std.specs.Prelude.{false, ◌≡◌, ◌⊎◌, ◌≤◌, length, IfOk, IfErr};
ghost use Rattle.oas_record.specs.Parts.{IsOf, NotOf};

use crate::faults::RecordBad;
use crate::file_fields::{end_tables_at, start_tables_at, validation_at};
use crate::lexical::{number_at, real_at, text_at};
use crate::records::OasRecord;

// The rest of a record with id 1, START, after its id.
pub(crate) fn start(bytes: &[u8], at: usize) -> Result<(OasRecord<'_>, usize), RecordBad>
    requires { at ≤ length bytes.now }
    ensures ok { IfOk result (λ r. IsOf 1 false bytes.now at r.0 r.1) }
    ensures bad { IfErr result (λ bad. NotOf 1 false bytes.now at bad) }
    ensures within { IfOk result (λ r. r.1 ≤ length bytes.now) }
{
    let version = text_at(bytes, at)?;
    let (unit, third) = real_at(bytes, version.1)?;
    let (offset_flag, fourth) = number_at(bytes, third)?;
    let (tables, next) = start_tables_at(bytes, fourth, offset_flag)?;
    let record = OasRecord::Start {
        version,
        unit,
        offset_flag,
        tables,
    };
    Ok((record, next))
}

// The rest of a record with id 2, END, after its id.
pub(crate) fn end(
    bytes: &[u8],
    at: usize,
    tables: bool,
) -> Result<(OasRecord<'_>, usize), RecordBad>
    requires { at ≤ length bytes.now }
    ensures ok { IfOk result (λ r. IsOf 2 tables bytes.now at r.0 r.1) }
    ensures bad { IfErr result (λ bad. NotOf 2 tables bytes.now at bad) }
    ensures within { IfOk result (λ r. r.1 ≤ length bytes.now) }
{
    let (tables, second) = end_tables_at(bytes, at, tables)?;
    let padding = text_at(bytes, second)?;
    let (scheme, fourth) = number_at(bytes, padding.1)?;
    let (validation, next) = validation_at(bytes, fourth, scheme)?;
    let record = OasRecord::End {
        tables,
        padding,
        scheme,
        validation,
    };
    Ok((record, next))
}
