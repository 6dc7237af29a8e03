//! The files of all stripes that a list of shots meets.
ghost use Rattle.std.specs.Prelude.{◌≡◌, ◌⊎◌, ◌+◌, ◌<◌, ◌≤◌, ◌^◌, ◌<ℤ◌, ◌-ℤ◌, ◌+ℤ◌, pos};
ghost use Rattle.std.specs.Prelude.{All, IsTrue, IfOk, OnOk, OnErr, IsErrOf, length};
ghost use Rattle.depot.specs.Counts.{NeverFall, Rose};
ghost use Rattle.depot.specs.Counting.{CountsWrites};
ghost use Rattle.depot.specs.Doing.{Makes};
ghost use Rattle.field_output.specs.Lists.{AreBegun, IsRoom, list_at, lists_from};
ghost use Rattle.field_output.specs.Meeting.{IsPlaced, HaveRows};
ghost use Rattle.field_output.specs.Stripes.{AreStripesWritten, AreStripesPartWritten, AreStripeSums};
ghost use Rattle.field_output.specs.Stripes.{stripe_name, stripe_text, sums_from, sums_of, with_stripe_files};
ghost use Rattle.field_split.specs.Fields.{IsFieldSize};
ghost use Rattle.field_split.specs.Looks.{IsFieldShot, AreStripesOf};
ghost use Rattle.geo_stream.specs.Flattened.{end_to_end};
ghost use Rattle.oas_lex.specs.ShotText.{IsUnit};

use crate::choice::Choice;
use crate::name::{room_for_names, spell_name};
use crate::places::Span;
use crate::stripe_file::write_stripe;
use crate::sums::{StripeSums, Stripes};
use depot::{Depot, DepotBad};
use field_split::Fields;
use geo_stream::NoMemory;
use half_grid::Trap;
use shot_writer::{Head, Sums};
use std::alloc::Global;

/// The memory that is taken before the first file is started.
#[derive(Drop)]
pub(crate) struct Room {
    name: String,
    each: Vec<StripeSums>,
    choice: Choice,
}

impl Room {
    // All of it.
    fn new(alloc: Global, base: &str, shots: &[Trap], span: Span) -> Result<Room, NoMemory>
        requires placed { All (IsPlaced span.size span.first span.count) shots.now }
        requires few { length shots.now ≤ 33554432 }
        ensures { IfOk result (IsRoom base.now span.size span.first span.count shots.now 0) }
    {
        Ok(Room {
            name: room_for_names(alloc, base)?,
            each: Vec::with_capacity(alloc, span.count)?,
            choice: Choice::new(alloc, shots, span)?,
        })
    }
}

// Both sums together.
fn added(all: Sums, more: Sums) -> Sums
    requires shots { all.shots + more.shots < 2 ^ 128 }
    requires triangles { all.triangles + more.triangles < 2 ^ 128 }
    ensures shots { result.shots ≡ all.shots + more.shots }
    ensures triangles { result.triangles ≡ all.triangles + more.triangles }
{
    Sums {
        shots: all.shots + more.shots,
        triangles: all.triangles + more.triangles,
    }
}

// Writes the file of one stripe, and keeps its sums.
fn write_next<D: Depot>(
    depot: &mut D,
    base: &str,
    head: Head,
    shots: &[Trap],
    fields: &Fields,
    span: Span,
    room: &mut Room,
    place: usize,
) -> Result<Sums, DepotBad>
    requires unit { IsUnit head.unit }
    requires layer { head.pair.layer < 2 ^ 63 }
    requires datatype { head.pair.datatype < 2 ^ 63 }
    requires shots { All IsFieldShot shots.now }
    requires few { length shots.now ≤ 33554432 }
    requires sized { IsFieldSize fields.now }
    requires size { span.size ≡ fields.now }
    requires placed { All (IsPlaced span.size span.first span.count) shots.now }
    requires rows { HaveRows span.size span.first span.count }
    requires place { place < span.count }
    requires room { IsRoom base.now span.size span.first span.count shots.now place room.old }
    ensures room { OnOk result
        (IsRoom base.now span.size span.first span.count shots.now (place + 1) room.new) }
    ensures content { Makes D.tells (D.content depot.old) (D.content depot.new)
        (stripe_name base.now (span.first +ℤ pos place))
        (stripe_text head (list_at span.size shots.now span.first place)) result }
    ensures sums { IfOk result (λ sums. sums ≡ sums_of (list_at span.size shots.now span.first place)) }
    ensures counts { CountsWrites (D.counts depot.old) (D.counts depot.new) result }
{
    let number = span.number_of(place);
    spell_name(&mut room.name, base, number);
    room.choice.turn(shots, span, place);
    let sums = write_stripe(
        depot,
        room.name.as_str(),
        head,
        shots,
        room.choice.numbers(),
        fields,
        number,
    )?;
    room.each.push_reserved(StripeSums { number, sums });
    Ok(sums)
}

// Writes the files of all stripes.
fn write_all<D: Depot>(
    depot: &mut D,
    base: &str,
    head: Head,
    shots: &[Trap],
    fields: &Fields,
    span: Span,
    room: Room,
) -> Result<Stripes, DepotBad>
    requires unit { IsUnit head.unit }
    requires layer { head.pair.layer < 2 ^ 63 }
    requires datatype { head.pair.datatype < 2 ^ 63 }
    requires shots { All IsFieldShot shots.now }
    requires few { length shots.now ≤ 33554432 }
    requires sized { IsFieldSize fields.now }
    requires size { span.size ≡ fields.now }
    requires placed { All (IsPlaced span.size span.first span.count) shots.now }
    requires rows { HaveRows span.size span.first span.count }
    requires room { IsRoom base.now span.size span.first span.count shots.now 0 room }
    ensures ok { OnOk result (IsTrue D.tells → D.content depot.new ≡ with_stripe_files (D.content depot.old)
        base.now head span.first (lists_from span.size shots.now span.first span.count)) }
    ensures each { IfOk result (λ written. written.each.items
        ≡ sums_from span.first (lists_from span.size shots.now span.first span.count)) }
    ensures all { IfOk result (λ written. written.all
        ≡ sums_of (end_to_end (lists_from span.size shots.now span.first span.count))) }
    ensures refused { OnErr result (IsTrue D.tells → AreBegun (D.content depot.old)
        base.now head shots.now span.size span.first span.count (D.content depot.new)) }
    ensures counts { CountsWrites (D.counts depot.old) (D.counts depot.new) result }
{
    let mut room = room;
    let mut all = Sums {
        shots: 0,
        triangles: 0,
    };
    for place in 0..span.count {
        let sums = write_next(depot, base, head, shots, fields, span, &mut room, place)?;
        all = added(all, sums);
    }
    Ok(Stripes {
        each: room.each,
        all,
    })
}

/// Writes one shot file for each stripe from the first to the last that a shot meets, empty ones too, in ascending
/// order: the name of each is `base`, a point and the number of the stripe. It answers how much it wrote. The span is
/// the least and the greatest stripe that a shot meets, at most 4,096 stripes.
///
/// Memory of its own it takes before the first file is started; where it gets none the depot is as before. After any
/// other refusal the files of earlier stripes are whole, the one begun is as before or holds a prefix of its text, and
/// later ones are as before.
pub fn write_stripes<D: Depot>(
    alloc: Global,
    depot: &mut D,
    base: &str,
    head: Head,
    shots: &[Trap],
    fields: &Fields,
    span: (i64, i64),
) -> Result<Stripes, DepotBad>
    requires unit { IsUnit head.unit }
    requires layer { head.pair.layer < 2 ^ 63 }
    requires datatype { head.pair.datatype < 2 ^ 63 }
    requires shots { All IsFieldShot shots.now }
    requires few { length shots.now ≤ 33554432 }
    requires span { AreStripesOf fields.now shots.now span.0 span.1 }
    requires few_stripes { (span.1 -ℤ span.0) <ℤ pos 4096 }
    ensures ok { OnOk result (IsTrue D.tells → AreStripesWritten
        (D.content depot.old) base.now head shots.now fields.now span.0 span.1 (D.content depot.new)) }
    ensures sums { IfOk result (λ written. AreStripeSums shots.now fields.now span.0 span.1 written) }
    ensures refused { OnErr result (IsTrue D.tells → AreStripesPartWritten
        (D.content depot.old) base.now head shots.now fields.now span.0 span.1 (D.content depot.new)) }
    ensures failed { IsErrOf result DepotBad.Failed
        → Rose (D.counts depot.old).write_faults (D.counts depot.new).write_faults }
    ensures no_memory { IsErrOf result DepotBad.NoMemory
        → (depot.new ≡ depot.old) ⊎ Rose (D.counts depot.old).refused (D.counts depot.new).refused }
    ensures uncounted { OnOk result (D.counts depot.new ≡ D.counts depot.old) }
    ensures reads { (D.counts depot.new).read_faults ≡ (D.counts depot.old).read_faults }
    ensures counted { NeverFall (D.counts depot.old) (D.counts depot.new) }
{
    let _size = fields.size();
    let stripes = Span::of(fields, span);
    match Room::new(alloc, base, shots, stripes) {
        Ok(room) => write_all(depot, base, head, shots, fields, stripes, room),
        Err(NoMemory) => Err(DepotBad::NoMemory),
    }
}
