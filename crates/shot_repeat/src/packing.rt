//! Shots, written as a packed shot file.
ghost use Rattle.std.specs.Prelude.{◌≡◌, ◌+◌, ◌<◌, ◌≤◌, ◌^◌, ◌++◌, None, map, length, flat_map, IsTrue, IsSome, IfOk, IfSome};
ghost use Rattle.depot.specs.Counting.{CountsWrites};
ghost use Rattle.depot.specs.Doing.{Makes, Writes};
ghost use Rattle.oas_lex.specs.ShotText.{IsUnit, fields_of};
ghost use Rattle.shot_reader.specs.Near.{AreNear};
ghost use Rattle.shot_repeat.specs.Packer.{packed_records, packed_text};
ghost use Rattle.shot_repeat.specs.Packing.{changed, changed_place, packed_record, IsPackingOf};
ghost use Rattle.shot_repeat.specs.Records.{IsNarrow, IsNarrowRepetition, record_text};
ghost use Rattle.shot_writer.specs.Holding.{HoldsWritten};

use crate::modal::count_of;
use crate::record::{PackRecord, Repetition, spell_body, spell_repetition};
use crate::runs::{fields_at, repetition_from};
use depot::{Buffer, Depot, DepotBad, make_file, write_whole};
use half_grid::Trap;
use layout_model::Pair;
use oas_lex::{ShotFields, end_text, head_text};
use shot_writer::{Head, flush, put_bytes};

// A number that is written where it differs from the one before.
fn changed(before: u64, now: u64) -> Option<u64>
    ensures { result ≡ changed before now }
{
    if before == now { None } else { Some(now) }
}

// A place that is written where it differs from the one before.
fn changed_place(before: i64, now: i64) -> Option<i64>
    ensures { result ≡ changed_place before now }
{
    if before == now { None } else { Some(now) }
}

// The first record.
fn first_record(fields: &ShotFields, repetition: Option<Repetition>) -> PackRecord
    ensures { result ≡ packed_record None fields.now repetition }
{
    PackRecord {
        layer: Some(fields.layer),
        datatype: Some(fields.datatype),
        width: Some(fields.width),
        height: Some(fields.height),
        left_delta: fields.left_delta,
        right_delta: fields.right_delta,
        x: changed_place(0, fields.x),
        y: changed_place(0, fields.y),
        repetition,
    }
}

// A record after one whose first shot has these fields.
fn next_record(last: &ShotFields, fields: &ShotFields, repetition: Option<Repetition>) -> PackRecord
    ensures { result ≡ packed_record (Some last.now) fields.now repetition }
{
    PackRecord {
        layer: None,
        datatype: None,
        width: changed(last.width, fields.width),
        height: changed(last.height, fields.height),
        left_delta: fields.left_delta,
        right_delta: fields.right_delta,
        x: changed_place(last.x, fields.x),
        y: changed_place(last.y, fields.y),
        repetition,
    }
}

// The record of a shot after the first shot of the record before, if there is one.
fn packed_record(
    last: &Option<ShotFields>,
    fields: &ShotFields,
    repetition: Option<Repetition>,
) -> PackRecord
    requires near { AreNear fields.now }
    requires layer { fields.now.layer < 2 ^ 63 }
    requires datatype { fields.now.datatype < 2 ^ 63 }
    requires repetition { IsNarrowRepetition repetition }
    ensures value { result ≡ packed_record last.now fields.now repetition }
    ensures narrow { IsNarrow result }
{
    match last {
        None => first_record(fields, repetition),
        Some(last) => next_record(last, fields, repetition),
    }
}

// Puts a record into the buffer, which is written first where it has no room.
fn put_record<D: Depot>(
    depot: &mut D,
    buffer: &mut Buffer,
    written: &PackRecord,
) -> Result<(), DepotBad>
    requires current { IsTrue D.tells → IsSome (D.content depot.old).current }
    requires narrow { IsNarrow written.now }
    ensures content { HoldsWritten D.tells (D.content depot.old) (D.content depot.new)
        (buffer.old ++ record_text written.now) (buffer.old ++ record_text written.now) buffer.new result }
    ensures counts { CountsWrites (D.counts depot.old) (D.counts depot.new) result }
{
    put_bytes(depot, buffer, spell_body(written).bytes())?;
    put_bytes(depot, buffer, spell_repetition(written).bytes())
}

// Appends the records of the shots to the started file, and answers how many there are.
fn put_records<D: Depot>(depot: &mut D, pair: Pair, shots: &[Trap]) -> Result<u64, DepotBad>
    requires current { IsTrue D.tells → IsSome (D.content depot.old).current }
    requires layer { pair.layer < 2 ^ 63 }
    requires datatype { pair.datatype < 2 ^ 63 }
    ensures content { Writes D.tells (D.content depot.old) (D.content depot.new)
        (flat_map record_text (packed_records pair.layer pair.datatype shots.now)) result }
    ensures count { IfOk result (λ count. count ≡ length (packed_records pair.layer pair.datatype shots.now)) }
    ensures counts { CountsWrites (D.counts depot.old) (D.counts depot.new) result }
{
    let mut buffer = Buffer::new();
    let mut last = None;
    let mut records = 0;
    let mut at = 0;
    while at < shots.len() {
        let fields = fields_at(shots, at, pair);
        let repetition = repetition_from(shots, at, pair, &fields);
        let record = packed_record(&last, &fields, repetition);
        put_record(depot, &mut buffer, &record)?;
        last = Some(fields);
        records += 1;
        at += count_of(&repetition) as usize;
    }
    flush(depot, &mut buffer)?;
    Ok(records)
}

/// Makes a packed shot file of the shots, for the unit and the pair, and answers how many records it has. After a
/// refusal the name is as before, or holds a prefix of the file's text. It takes no memory.
pub fn pack_shots<D: Depot>(
    depot: &mut D,
    name: &str,
    head: Head,
    shots: &[Trap],
) -> Result<u64, DepotBad>
    requires unit { IsUnit head.unit }
    requires layer { head.pair.layer < 2 ^ 63 }
    requires datatype { head.pair.datatype < 2 ^ 63 }
    ensures content { Makes D.tells (D.content depot.old) (D.content depot.new)
        name.now (packed_text head.unit head.pair.layer head.pair.datatype shots.now) result }
    ensures count { IfOk result (λ count. count ≡ length (packed_records head.pair.layer head.pair.datatype shots.now)) }
    ensures packed { IsPackingOf head.unit head.pair.layer head.pair.datatype shots.now
        (packed_records head.pair.layer head.pair.datatype shots.now)
        (packed_text head.unit head.pair.layer head.pair.datatype shots.now) }
    ensures counts { CountsWrites (D.counts depot.old) (D.counts depot.new) result }
{
    make_file(depot, name, head_text(u64::from(head.unit)).bytes())?;
    let records = put_records(depot, head.pair, shots)?;
    write_whole(depot, &end_text())?;
    Ok(records)
}
