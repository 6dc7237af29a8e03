//! The shots of a stream, poured into a depot.
ghost use Rattle.std.specs.Prelude.{◌≡◌, ◌+◌, ◌^◌, ◌<◌, ◌≤◌, List, [], IsTrue, IsSome, IfOk, OnOk, length};
ghost use Rattle.depot.specs.Counting.{CountsWrites};
ghost use Rattle.depot.specs.Doing.{Writes};
ghost use Rattle.geo_stream.specs.Stream.{HasList};
ghost use Rattle.half_grid.specs.Trapezoids.{Trapezoid};
ghost use Rattle.shot_writer.specs.Writing.{triangles_of, records_of, StandsForSuffix, AreSumsAfter};

use crate::buffer::{flush, put_bytes};
use crate::parts::{Sums, encode, triangles_in};
use depot::{Buffer, Depot, DepotBad};
use geo_stream::Stream;
use half_grid::Trap;
use layout_model::Pair;

/// Appends the records of the stream's list to the started file, and answers the sums with those of the list.
pub(crate) fn pour<D: Depot, S: Stream<Item = Trap>>(
    depot: &mut D,
    pair: Pair,
    before: Sums,
    shots: &mut S,
) -> Result<Sums, DepotBad>
    requires current { IsTrue D.tells → IsSome (D.content depot.old).current }
    requires layer { pair.layer < 2 ^ 63 }
    requires datatype { pair.datatype < 2 ^ 63 }
    requires list { HasList S.stands_for shots.old }
    requires fewer { before.shots ≤ before.triangles }
    requires room { (items : List Trapezoid) → S.stands_for shots.old items
        → before.triangles + triangles_of items < 2 ^ 127 }
    ensures content { (items : List Trapezoid) → S.stands_for shots.old items
        → Writes D.tells (D.content depot.old) (D.content depot.new) (records_of pair items) result }
    ensures sums { (items : List Trapezoid) → S.stands_for shots.old items
        → IfOk result (λ sums. AreSumsAfter before items sums) }
    ensures fewer { IfOk result (λ sums. sums.shots ≤ sums.triangles) }
    ensures taken { OnOk result (S.stands_for shots.new []) }
    ensures left { (items : List Trapezoid) → S.stands_for shots.old items
        → StandsForSuffix S.stands_for items shots.new }
    ensures current { IsTrue D.tells
        → (D.content depot.new).current ≡ (D.content depot.old).current }
    ensures counts { CountsWrites (D.counts depot.old) (D.counts depot.new) result }
{
    let mut sums = before;
    let mut buffer = Buffer::new();
    while let Some(shot) = shots.next() {
        put_bytes(depot, &mut buffer, encode(&shot, pair).bytes())?;
        sums.shots += 1;
        sums.triangles += triangles_in(&shot);
    }
    flush(depot, &mut buffer)?;
    Ok(sums)
}
