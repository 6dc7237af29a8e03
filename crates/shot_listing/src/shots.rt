//! The shots of a listing, one after another.
ghost use Rattle.std.specs.Prelude.{◌≡◌, ◌+◌, ◌^◌, ◌<◌, ◌≤◌, IfOk, ◌++◌, length, flat_map};
ghost use Rattle.depot.specs.Counting.{CountsWrites};
ghost use Rattle.depot.specs.Doing.{Adds, Puts};
ghost use Rattle.shot_writer.specs.Writing.{triangles_of};
ghost use Rattle.shot_listing.specs.Listing.{shot_line};

use crate::lines::put_shot;
use crate::room::make_room;
use crate::saying::MOST_SHOTS;
use depot::{Buffer, Depot, DepotBad};
use half_grid::Trap;
use shot_writer::triangles_in;

// Puts the line of a shot into the buffer, which is said first where it has no room.
fn put_line<D: Depot>(depot: &mut D, buffer: &mut Buffer, shot: &Trap) -> Result<(), DepotBad>
    ensures content { Adds D.tells (D.content depot.old) (D.content depot.new)
        buffer.old (buffer.old ++ shot_line shot.now) buffer.new result }
    ensures counts { CountsWrites (D.counts depot.old) (D.counts depot.new) result }
{
    make_room(depot, buffer)?;
    put_shot(buffer, shot);
    Ok(())
}

/// Puts the lines of the shots, and answers the number of their triangles.
pub(crate) fn put_shots<D: Depot>(
    depot: &mut D,
    buffer: &mut Buffer,
    shots: &[Trap],
) -> Result<u128, DepotBad>
    requires few { length shots.now ≤ MOST_SHOTS }
    ensures triangles { IfOk result (λ triangles. triangles ≡ triangles_of shots.now) }
    ensures content { Puts D.tells (D.content depot.old) (D.content depot.new)
        (buffer.old ++ flat_map shot_line shots.now) buffer.new result }
    ensures counts { CountsWrites (D.counts depot.old) (D.counts depot.new) result }
{
    let mut triangles = 0;
    for shot in shots {
        put_line(depot, buffer, shot)?;
        triangles += triangles_in(shot);
    }
    Ok(triangles)
}
