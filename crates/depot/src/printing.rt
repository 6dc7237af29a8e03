//! What is said piece by piece, through a buffer.
ghost use Rattle.std.specs.Prelude.{◌≡◌, OnOk, [], ◌++◌};
ghost use Rattle.depot.specs.Counting.{CountsWrites};
ghost use Rattle.depot.specs.Doing.{Puts, Says};

use crate::buffer::Buffer;
use crate::outside::{Depot, DepotBad};
use crate::whole::say_whole;

/// Prints what the buffer has, and empties it. After a refusal a prefix of what it had was printed.
pub fn flush<D: Depot>(depot: &mut D, buffer: &mut Buffer) -> Result<(), DepotBad>
    ensures empty { OnOk result (buffer.new ≡ []) }
    ensures content { Says D.tells (D.content depot.old) (D.content depot.new) buffer.old result }
    ensures counts { CountsWrites (D.counts depot.old) (D.counts depot.new) result }
{
    say_whole(depot, buffer.bytes())?;
    buffer.clear();
    Ok(())
}

/// Puts a piece of any length, where it has room; else the buffer is printed, and then the piece. After a refusal a prefix
/// of what the buffer had and the piece was printed.
pub fn put_piece<D: Depot>(depot: &mut D, buffer: &mut Buffer, bytes: &[u8]) -> Result<(), DepotBad>
    ensures content { Puts D.tells (D.content depot.old) (D.content depot.new) (buffer.old ++ bytes.now) buffer.new result }
    ensures counts { CountsWrites (D.counts depot.old) (D.counts depot.new) result }
{
    if bytes.len() <= buffer.room() {
        buffer.put(bytes);
        return Ok(());
    }
    flush(depot, buffer)?;
    say_whole(depot, bytes)
}
