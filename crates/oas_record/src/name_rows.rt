//! The fields of names and cells.

ghost use Rattle.std.specs.Prelude.{false, ◌≡◌, ◌+◌, ◌≤◌, length, if◌then◌else◌, IfOk, IfErr};
ghost use Rattle.oas_record.specs.Parts.{IsOf, NotOf, layer_name_id};
ghost use Rattle.oas_record.specs.Records.{name_id};

use crate::faults::RecordBad;
use crate::fields::Called;
use crate::lexical::{number_at, text_at};
use crate::records::{NameKind, OasRecord};
use crate::values::interval_at;

// The rest of a name without its number, after its id: 3, 5, 7 or 9.
pub(crate) fn name(
    bytes: &[u8],
    at: usize,
    kind: NameKind,
) -> Result<(OasRecord<'_>, usize), RecordBad>
    requires { at ≤ length bytes.now }
    ensures ok { IfOk result (λ r. IsOf (name_id kind) false bytes.now at r.0 r.1) }
    ensures bad { IfErr result (λ bad. NotOf (name_id kind) false bytes.now at bad) }
    ensures within { IfOk result (λ r. r.1 ≤ length bytes.now) }
{
    let text = text_at(bytes, at)?;
    let record = OasRecord::Name {
        kind,
        text,
        number: None,
    };
    Ok((record, text.1))
}

// The rest of a name with its number, after its id: 4, 6, 8 or 10.
pub(crate) fn numbered_name(
    bytes: &[u8],
    at: usize,
    kind: NameKind,
) -> Result<(OasRecord<'_>, usize), RecordBad>
    requires { at ≤ length bytes.now }
    ensures ok { IfOk result (λ r. IsOf (name_id kind + 1) false bytes.now at r.0 r.1) }
    ensures bad { IfErr result (λ bad. NotOf (name_id kind + 1) false bytes.now at bad) }
    ensures within { IfOk result (λ r. r.1 ≤ length bytes.now) }
{
    let text = text_at(bytes, at)?;
    let (number, next) = number_at(bytes, text.1)?;
    let record = OasRecord::Name {
        kind,
        text,
        number: Some(number),
    };
    Ok((record, next))
}

// The rest of a LAYERNAME, after its id: 11, or 12 for texts.
pub(crate) fn layer_name(
    bytes: &[u8],
    at: usize,
    of_texts: bool,
) -> Result<(OasRecord<'_>, usize), RecordBad>
    requires { at ≤ length bytes.now }
    ensures ok { IfOk result (λ r. IsOf (layer_name_id of_texts) false bytes.now at r.0 r.1) }
    ensures bad { IfErr result (λ bad. NotOf (layer_name_id of_texts) false bytes.now at bad) }
    ensures within { IfOk result (λ r. r.1 ≤ length bytes.now) }
{
    let name = text_at(bytes, at)?;
    let (layers, third) = interval_at(bytes, name.1)?;
    let (datatypes, next) = interval_at(bytes, third)?;
    let record = OasRecord::LayerName {
        of_texts,
        name,
        layers,
        datatypes,
    };
    Ok((record, next))
}

// The rest of a record with id 13, CELL by the number of its name, after its id.
pub(crate) fn numbered_cell(bytes: &[u8], at: usize) -> Result<(OasRecord<'_>, usize), RecordBad>
    requires { at ≤ length bytes.now }
    ensures ok { IfOk result (λ r. IsOf 13 false bytes.now at r.0 r.1) }
    ensures bad { IfErr result (λ bad. NotOf 13 false bytes.now at bad) }
    ensures within { IfOk result (λ r. r.1 ≤ length bytes.now) }
{
    let (number, next) = number_at(bytes, at)?;
    let record = OasRecord::Cell(Called::Number(number));
    Ok((record, next))
}

// The rest of a record with id 14, CELL by its name, after its id.
pub(crate) fn cell(bytes: &[u8], at: usize) -> Result<(OasRecord<'_>, usize), RecordBad>
    requires { at ≤ length bytes.now }
    ensures ok { IfOk result (λ r. IsOf 14 false bytes.now at r.0 r.1) }
    ensures bad { IfErr result (λ bad. NotOf 14 false bytes.now at bad) }
    ensures within { IfOk result (λ r. r.1 ≤ length bytes.now) }
{
    let name = text_at(bytes, at)?;
    let record = OasRecord::Cell(Called::Text(name.0, name.1));
    Ok((record, name.1))
}

// The rest of a record with id 30, XNAME, after its id.
pub(crate) fn xname(bytes: &[u8], at: usize) -> Result<(OasRecord<'_>, usize), RecordBad>
    requires { at ≤ length bytes.now }
    ensures ok { IfOk result (λ r. IsOf 30 false bytes.now at r.0 r.1) }
    ensures bad { IfErr result (λ bad. NotOf 30 false bytes.now at bad) }
    ensures within { IfOk result (λ r. r.1 ≤ length bytes.now) }
{
    let (attribute, second) = number_at(bytes, at)?;
    let text = text_at(bytes, second)?;
    let record = OasRecord::XName {
        attribute,
        text,
        number: None,
    };
    Ok((record, text.1))
}

// The rest of a record with id 31, XNAME with its number, after its id.
pub(crate) fn numbered_xname(bytes: &[u8], at: usize) -> Result<(OasRecord<'_>, usize), RecordBad>
    requires { at ≤ length bytes.now }
    ensures ok { IfOk result (λ r. IsOf 31 false bytes.now at r.0 r.1) }
    ensures bad { IfErr result (λ bad. NotOf 31 false bytes.now at bad) }
    ensures within { IfOk result (λ r. r.1 ≤ length bytes.now) }
{
    let (attribute, second) = number_at(bytes, at)?;
    let text = text_at(bytes, second)?;
    let (number, next) = number_at(bytes, text.1)?;
    let record = OasRecord::XName {
        attribute,
        text,
        number: Some(number),
    };
    Ok((record, next))
}

// The rest of a record with id 32, XELEMENT, after its id.
pub(crate) fn xelement(bytes: &[u8], at: usize) -> Result<(OasRecord<'_>, usize), RecordBad>
    requires { at ≤ length bytes.now }
    ensures ok { IfOk result (λ r. IsOf 32 false bytes.now at r.0 r.1) }
    ensures bad { IfErr result (λ bad. NotOf 32 false bytes.now at bad) }
    ensures within { IfOk result (λ r. r.1 ≤ length bytes.now) }
{
    let (attribute, second) = number_at(bytes, at)?;
    let text = text_at(bytes, second)?;
    let record = OasRecord::XElement { attribute, text };
    Ok((record, text.1))
}
