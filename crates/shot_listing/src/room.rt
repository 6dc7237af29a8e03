//! Room for a line in a buffer.
ghost use Rattle.std.specs.Prelude.{◌+◌, ◌≤◌, OnOk, length};
ghost use Rattle.depot.specs.Counting.{CountsWrites};
ghost use Rattle.depot.specs.Doing.{Puts};

use depot::{BUFFER_SIZE, Buffer, Depot, DepotBad, flush};

/// How many bytes a line of a listing has at most.
pub(crate) const ROOM: usize = 128;

/// Has room for one more line in the buffer, which is printed first where it has none.
pub(crate) fn make_room<D: Depot>(depot: &mut D, buffer: &mut Buffer) -> Result<(), DepotBad>
    ensures room { OnOk result (length buffer.new + ROOM ≤ BUFFER_SIZE) }
    ensures content { Puts D.tells (D.content depot.old) (D.content depot.new) buffer.old buffer.new result }
    ensures counts { CountsWrites (D.counts depot.old) (D.counts depot.new) result }
{
    if ROOM <= buffer.room() {
        return Ok(());
    }
    flush(depot, buffer)
}
