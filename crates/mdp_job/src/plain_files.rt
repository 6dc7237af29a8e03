//! A plain shot file, written whole.

ghost use Rattle.std.specs.Prelude.{◌<◌, ◌≤◌, ◌^◌, All, length};
ghost use Rattle.depot.specs.Counting.{CountsWrites};
ghost use Rattle.depot.specs.Doing.{Makes};
ghost use Rattle.half_grid.specs.Trapezoids.{IsShot};
ghost use Rattle.oas_lex.specs.ShotText.{IsUnit, shot_text};

use depot::{Depot, DepotBad};
use geo_stream::FromSlice;
use half_grid::Trap;
use shot_writer::{Head, ShotWriter};

/// Makes the plain file of a list of shots. After a refusal the name is as before, or holds a prefix of the text.
pub(crate) fn write_shots<D: Depot>(
    depot: &mut D,
    name: &str,
    head: Head,
    shots: &[Trap],
) -> Result<(), DepotBad>
    requires unit { IsUnit head.unit }
    requires layer { head.pair.layer < 2 ^ 63 }
    requires datatype { head.pair.datatype < 2 ^ 63 }
    requires legal { All IsShot shots.now }
    requires few { length shots.now ≤ 33554432 }
    ensures content { Makes D.tells (D.content depot.old) (D.content depot.new)
        name.now (shot_text head.unit head.pair.layer head.pair.datatype shots.now) result }
    ensures counts { CountsWrites (D.counts depot.old) (D.counts depot.new) result }
{
    let mut writer = ShotWriter::start(depot, name, head)?;
    let mut stream = FromSlice::new(shots);
    writer.put(depot, &mut stream)?;
    writer.finish(depot)?;
    Ok(())
}
