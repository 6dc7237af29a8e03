//! Whole texts, printed on a depot.
ghost use Rattle.std.specs.Prelude.{◌+◌, ◌≤◌, ◌++◌, length};
ghost use Rattle.depot.specs.Counting.{CountsWrites};
ghost use Rattle.depot.specs.Doing.{Says};
ghost use Rattle.shot_listing.specs.Listing.{listing, sums_line};

use crate::lines::{put_layer, put_sums, put_unit};
use crate::room::make_room;
use crate::shots::put_shots;
use depot::{Buffer, Depot, DepotBad, flush};
use half_grid::Trap;
use layout_model::Pair;

/// As many shots as a listing has at most: a shot file has at most this many bytes.
pub const MOST_SHOTS: usize = 268_435_456;

// Says what the buffer has, and then the line of the sums.
fn say_last<D: Depot>(
    depot: &mut D,
    buffer: &mut Buffer,
    shots: usize,
    triangles: u128,
) -> Result<(), DepotBad>
    ensures content { Says D.tells (D.content depot.old) (D.content depot.new)
        (buffer.old ++ sums_line shots triangles) result }
    ensures counts { CountsWrites (D.counts depot.old) (D.counts depot.new) result }
{
    make_room(depot, buffer)?;
    put_sums(buffer, shots, triangles);
    flush(depot, buffer)
}

/// Prints the listing of a unit, of a layer and a datatype where there is one, and of these shots. After a refusal a
/// prefix of it was printed. It takes time linear in the text, and no memory.
pub fn say_listing<D: Depot>(
    depot: &mut D,
    unit: u32,
    pair: Option<Pair>,
    shots: &[Trap],
) -> Result<(), DepotBad>
    requires few { length shots.now ≤ MOST_SHOTS }
    ensures content { Says D.tells (D.content depot.old) (D.content depot.new) (listing unit pair shots.now) result }
    ensures counts { CountsWrites (D.counts depot.old) (D.counts depot.new) result }
{
    let mut buffer = Buffer::new();
    put_unit(&mut buffer, unit);
    put_layer(&mut buffer, pair);
    let triangles = put_shots(depot, &mut buffer, shots)?;
    say_last(depot, &mut buffer, shots.len(), triangles)
}
