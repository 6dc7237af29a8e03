//! What a buffer has, written.
ghost use Rattle.std.specs.Prelude.{◌≡◌, ◌+◌, ◌≤◌, IsTrue, IsSome, OnOk, [], ◌++◌, length};
ghost use Rattle.depot.specs.Counting.{CountsWrites};
ghost use Rattle.depot.specs.Doing.{Writes};
ghost use Rattle.shot_writer.specs.Holding.{HoldsWritten};

use depot::{BUFFER_SIZE, Buffer, Depot, DepotBad, write_whole};
use oas_lex::ROOM;

/// Writes what the buffer has, and empties it.
pub fn flush<D: Depot>(depot: &mut D, buffer: &mut Buffer) -> Result<(), DepotBad>
    requires { IsTrue D.tells → IsSome (D.content depot.old).current }
    ensures empty { OnOk result (buffer.new ≡ []) }
    ensures content { Writes D.tells (D.content depot.old) (D.content depot.new) buffer.old result }
    ensures counts { CountsWrites (D.counts depot.old) (D.counts depot.new) result }
{
    write_whole(depot, buffer.bytes())?;
    buffer.clear();
    Ok(())
}

// Has room for one more spelling in the buffer, which is written first where it has none.
fn make_room<D: Depot>(depot: &mut D, buffer: &mut Buffer) -> Result<(), DepotBad>
    requires { IsTrue D.tells → IsSome (D.content depot.old).current }
    ensures room { OnOk result (length buffer.new + ROOM ≤ BUFFER_SIZE) }
    ensures content { HoldsWritten D.tells (D.content depot.old) (D.content depot.new) buffer.old buffer.old buffer.new result }
    ensures counts { CountsWrites (D.counts depot.old) (D.counts depot.new) result }
{
    if ROOM <= buffer.room() {
        return Ok(());
    }
    flush(depot, buffer)
}

/// Puts one spelling into the buffer, which is written first where it has no room.
pub fn put_bytes<D: Depot>(depot: &mut D, buffer: &mut Buffer, bytes: &[u8]) -> Result<(), DepotBad>
    requires current { IsTrue D.tells → IsSome (D.content depot.old).current }
    requires short { length bytes.now ≤ ROOM }
    ensures content { HoldsWritten D.tells (D.content depot.old) (D.content depot.new)
        buffer.old (buffer.old ++ bytes.now) buffer.new result }
    ensures counts { CountsWrites (D.counts depot.old) (D.counts depot.new) result }
{
    make_room(depot, buffer)?;
    buffer.put(bytes);
    Ok(())
}
