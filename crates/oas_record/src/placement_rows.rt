//! The fields of placements and texts.

ghost use Rattle.std.specs.Prelude.{true, false, ◌≡◌, ◌≤◌, Some, length, IfOk, IfErr};
ghost use Rattle.oas_record.specs.Parts.{IsOf, NotOf, turn_parts, turned_id};
ghost use Rattle.oas_record.specs.Records.{placement_id, turn_fields};
ghost use Rattle.oas_record.specs.Rows.{HasFields, NoFields};
ghost use Rattle.oas_record.specs.Shapes.{through};

use crate::faults::RecordBad;
use crate::info::info_at;
use crate::optional::{name_where, real_where};
use crate::records::{OasRecord, Turn};
use crate::segments::{pair_at, place_at, placed_at};

// The magnification and the angle, by bits 2 and 1, and the offset after them.
fn turn_at(bytes: &[u8], at: usize, info: u8) -> Result<(Turn, usize), RecordBad>
    requires { at ≤ length bytes.now }
    ensures ok { IfOk result (λ r. HasFields (turn_parts true) info bytes.now at (turn_fields (Some r.0)) r.1) }
    ensures bad { IfErr result (λ bad. NoFields (turn_parts true) info bytes.now at bad) }
    ensures within { IfOk result (λ r. r.1 ≤ length bytes.now) }
{
    let (magnification, second) = real_where(bytes, at, info, 2)?;
    let (angle, next) = real_where(bytes, second, info, 1)?;
    let turn = Turn {
        magnification,
        angle,
    };
    Ok((turn, next))
}

// The magnification and the angle where the placement has them, and the offset after them.
#[inline(always)]
fn turn_if(
    bytes: &[u8],
    at: usize,
    info: u8,
    is_turned: bool,
) -> Result<(Option<Turn>, usize), RecordBad>
    requires { at ≤ length bytes.now }
    ensures id { IfOk result (λ r. placement_id r.0 ≡ turned_id is_turned) }
    ensures ok { IfOk result (λ r. HasFields (turn_parts is_turned) info bytes.now at (turn_fields r.0) r.1) }
    ensures keeps { IfOk result (λ r. through (turn_parts is_turned) (turn_fields r.0) info ≡ info) }
    ensures bad { IfErr result (λ bad. NoFields (turn_parts is_turned) info bytes.now at bad) }
    ensures within { IfOk result (λ r. r.1 ≤ length bytes.now) }
{
    if !is_turned {
        return Ok((None, at));
    }
    let (turn, next) = turn_at(bytes, at, info)?;
    Ok((Some(turn), next))
}

// The rest of a PLACEMENT, after its id: 17, or 18 with a magnification and an angle.
#[inline(always)]
pub(crate) fn placement(
    bytes: &[u8],
    at: usize,
    is_turned: bool,
) -> Result<(OasRecord<'_>, usize), RecordBad>
    requires { at ≤ length bytes.now }
    ensures ok { IfOk result (λ r. IsOf (turned_id is_turned) false bytes.now at r.0 r.1) }
    ensures bad { IfErr result (λ bad. NotOf (turned_id is_turned) false bytes.now at bad) }
    ensures within { IfOk result (λ r. r.1 ≤ length bytes.now) }
{
    let info = info_at(bytes, at, 256)?;
    let (cell, second) = name_where(bytes, at + 1, info, 7, 6)?;
    let (turn, third) = turn_if(bytes, second, info, is_turned)?;
    let (x, y, repetition, next) = placed_at(bytes, third, info)?;
    let record = OasRecord::Placement {
        info,
        cell,
        turn,
        x,
        y,
        repetition,
    };
    Ok((record, next))
}

// The rest of a record with id 19, TEXT, after its id.
pub(crate) fn text_record(bytes: &[u8], at: usize) -> Result<(OasRecord<'_>, usize), RecordBad>
    requires { at ≤ length bytes.now }
    ensures ok { IfOk result (λ r. IsOf 19 false bytes.now at r.0 r.1) }
    ensures bad { IfErr result (λ bad. NotOf 19 false bytes.now at bad) }
    ensures within { IfOk result (λ r. r.1 ≤ length bytes.now) }
{
    let info = info_at(bytes, at, 128)?;
    let (text, second) = name_where(bytes, at + 1, info, 6, 5)?;
    let (textlayer, texttype, third) = pair_at(bytes, second, info)?;
    let (x, y, repetition, next) = place_at(bytes, third, info)?;
    let record = OasRecord::Text {
        info,
        text,
        textlayer,
        texttype,
        x,
        y,
        repetition,
    };
    Ok((record, next))
}
