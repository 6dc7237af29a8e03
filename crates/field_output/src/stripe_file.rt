//! The file of one stripe.
ghost use Rattle.std.specs.Prelude.{◌≡◌, ◌<◌, ◌≤◌, ◌^◌, ℤ, All, List, length};
ghost use Rattle.std.specs.Prelude.{IfOk};
ghost use Rattle.std.specs.List.{AllZip};
ghost use Rattle.depot.specs.Counting.{CountsWrites};
ghost use Rattle.depot.specs.Doing.{Makes};
ghost use Rattle.field_output.specs.Meeting.{HasNumber};
ghost use Rattle.field_output.specs.Stripes.{stripe_text, sums_of};
ghost use Rattle.field_split.specs.Cutting.{pieces_of};
ghost use Rattle.field_split.specs.Fields.{IsFieldSize, IsInStretch};
ghost use Rattle.field_split.specs.Looks.{IsFieldShot};
ghost use Rattle.half_grid.specs.Reach.{IsWithinReach};
ghost use Rattle.half_grid.specs.Trapezoids.{Trapezoid};
ghost use Rattle.oas_lex.specs.ShotText.{IsUnit};
ghost use Rattle.shot_writer.specs.Writing.{triangles_of};

use crate::chosen::Chosen;
use depot::{Depot, DepotBad};
use field_split::{Fields, Pieces};
use geo_stream::Stream;
use half_grid::Trap;
use shot_writer::{Head, ShotWriter, Sums};

// Makes the file of a stream of shots, and answers how much it wrote. After a refusal the name is as before, or holds a
// prefix of the text.
fn write_list<D: Depot, S: Stream<Item = Trap>>(
    depot: &mut D,
    name: &str,
    head: Head,
    shots: &mut S,
) -> Result<Sums, DepotBad>
    requires unit { IsUnit head.unit }
    requires layer { head.pair.layer < 2 ^ 63 }
    requires datatype { head.pair.datatype < 2 ^ 63 }
    requires list { (items : List Trapezoid) × S.stands_for shots.old items × (triangles_of items < 2 ^ 127) }
    ensures content { (items : List Trapezoid) → S.stands_for shots.old items
        → Makes D.tells (D.content depot.old) (D.content depot.new) name.now (stripe_text head items) result }
    ensures sums { (items : List Trapezoid) → S.stands_for shots.old items
        → IfOk result (λ sums. sums ≡ sums_of items) }
    ensures counts { CountsWrites (D.counts depot.old) (D.counts depot.new) result }
{
    let mut writer = ShotWriter::start(depot, name, head)?;
    writer.put(depot, shots)?;
    let sums = writer.finish(depot)?;
    Ok(sums)
}

/// Makes the file of a stripe with the pieces of the shots of these numbers, and answers how much it wrote. After a
/// refusal the name is as before, or holds a prefix of the text.
pub(crate) fn write_stripe<D: Depot>(
    depot: &mut D,
    name: &str,
    head: Head,
    shots: &[Trap],
    numbers: &[u32],
    fields: &Fields,
    stripe: i64,
) -> Result<Sums, DepotBad>
    requires unit { IsUnit head.unit }
    requires layer { head.pair.layer < 2 ^ 63 }
    requires datatype { head.pair.datatype < 2 ^ 63 }
    requires sized { IsFieldSize fields.now }
    requires stripe { (y : ℤ) × IsWithinReach y × IsInStretch fields.now stripe y }
    requires chosen { (chosen : List Trapezoid) × AllZip (HasNumber shots.now) numbers.now chosen
        × All IsFieldShot chosen × (length chosen ≤ 33554432) }
    ensures content { (chosen : List Trapezoid) → AllZip (HasNumber shots.now) numbers.now chosen
        → Makes D.tells (D.content depot.old) (D.content depot.new)
        name.now (stripe_text head (pieces_of fields.now stripe chosen)) result }
    ensures sums { (chosen : List Trapezoid) → AllZip (HasNumber shots.now) numbers.now chosen
        → IfOk result (λ sums. sums ≡ sums_of (pieces_of fields.now stripe chosen)) }
    ensures counts { CountsWrites (D.counts depot.old) (D.counts depot.new) result }
{
    let mut pieces = Pieces::new(Chosen::new(shots, numbers), *fields, stripe);
    write_list(depot, name, head, &mut pieces)
}
