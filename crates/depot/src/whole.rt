//! Whole files over a depot that takes and gives bytes in pieces.
ghost use Rattle.std.specs.Prelude.{◌≡◌, ◌⊎◌, ◌<◌, ◌≤◌, [], Some, IsTrue, IsSome, IfOk, OnOk, IsErr, IsErrOf, ◌++◌, length, vec_len};
ghost use Rattle.depot.specs.Content.{held_as, IsNotThere, IsLongerThan, with_left, ChangesLeftOnly};
ghost use Rattle.depot.specs.Counts.{Rose, NeverFall};
ghost use Rattle.depot.specs.Counting.{CountsWrites};
ghost use Rattle.depot.specs.Doing.{Makes, Says, Writes};

use crate::outside::{Depot, DepotBad};
use std::alloc::{AllocError, Global};
use thiserror::Error;

/// How many bytes `read_all` asks for in one call.
const CHUNK: usize = 65536;

/// Why a whole file wasn't read.
#[derive(Clone, Copy, Debug, PartialEq, Eq, Error)]
pub enum Refused {
    /// The depot failed, or the file isn't there.
    #[error("the file can't be read")]
    Fault,
    /// The file has more bytes than the limit.
    #[error("the file is too long")]
    TooLong,
    /// Memory ran out.
    #[error("memory is wanting")]
    NoMemory,
}

impl From<DepotBad> for Refused {
    ghost use Rattle.depot.specs.Refusals.{refused_as};
    ghost use Rattle.std.specs.Prelude.{◌≡◌};

    ghost from_gives = { λ bad r. r ≡ refused_as bad };

    fn from(bad: DepotBad) -> Refused {
        match bad {
            DepotBad::Failed => Refused::Fault,
            DepotBad::NoMemory => Refused::NoMemory,
        }
    }
}

impl From<AllocError> for Refused {
    ghost use Rattle.std.specs.Prelude.{◌≡◌};
    ghost use Rattle.depot.specs.declared.whole.Refused.TheVariants.{NoMemory};

    ghost from_gives = { λ _ r. r ≡ NoMemory };

    fn from(_refused: AllocError) -> Refused {
        Refused::NoMemory
    }
}

/// All bytes of a file, if it has at most `limit`. A longer one is `TooLong`, and a name that isn't there is
/// `Fault`. Each turn takes at least one byte. But for what is left to be read, the content of the depot is
/// as before, also after a refusal. `NoMemory` comes where the depot counted that memory ran out; where it counted
/// nothing, memory ran out for the bytes, and then the file is there.
pub fn read_all<D: Depot>(
    alloc: Global,
    depot: &mut D,
    name: &str,
    limit: usize,
) -> Result<Vec<u8>, Refused>
    ensures ok { IfOk result (λ bytes. IsTrue D.tells
        → held_as (D.content depot.old) name.now ≡ Some bytes.items) }
    ensures within { IfOk result (λ bytes. vec_len bytes ≤ limit) }
    ensures whole { OnOk result (IsTrue D.tells
        → D.content depot.new ≡ with_left (D.content depot.old) []) }
    ensures others { IsTrue D.tells → ChangesLeftOnly (D.content depot.old) (D.content depot.new) }
    ensures too_long { IsErrOf result Refused.TooLong → IsTrue D.tells
        → IsLongerThan limit (D.content depot.old) name.now }
    ensures long { IsTrue D.tells → IsLongerThan limit (D.content depot.old) name.now → IsErr result }
    ensures fault { IsErrOf result Refused.Fault
        → Rose (D.counts depot.old).read_faults (D.counts depot.new).read_faults
        ⊎ (IsTrue D.tells × IsNotThere (D.content depot.old) name.now) }
    ensures missing { IsTrue D.tells → IsNotThere (D.content depot.old) name.now
        → IsErrOf result Refused.Fault
        ⊎ (IsErrOf result Refused.NoMemory × Rose (D.counts depot.old).refused (D.counts depot.new).refused) }
    ensures uncounted { OnOk result (D.counts depot.new ≡ D.counts depot.old) }
    ensures long_uncounted { IsErrOf result Refused.TooLong → D.counts depot.new ≡ D.counts depot.old }
    ensures no_memory { IsErrOf result Refused.NoMemory
        → Rose (D.counts depot.old).refused (D.counts depot.new).refused ⊎ (D.counts depot.new ≡ D.counts depot.old) }
    ensures counted { NeverFall (D.counts depot.old) (D.counts depot.new) }
{
    depot.start_read(name)?;
    let mut chunk = vec![in alloc; 0u8; CHUNK]?;
    let mut bytes = Vec::new(alloc);
    read_rest(depot, &mut chunk, &mut bytes, limit)?;
    Ok(bytes)
}

// Puts what is left of the started file after the bytes, a chunk at a time.
fn read_rest<D: Depot>(
    depot: &mut D,
    chunk: &mut [u8],
    bytes: &mut Vec<u8>,
    limit: usize,
) -> Result<(), Refused>
    requires room { 0 < length chunk.old }
    requires short { vec_len bytes.old ≤ limit }
    ensures ok { OnOk result (IsTrue D.tells
        → bytes.new.items ≡ bytes.old.items ++ (D.content depot.old).left) }
    ensures within { vec_len bytes.new ≤ limit }
    ensures whole { OnOk result (IsTrue D.tells
        → D.content depot.new ≡ with_left (D.content depot.old) []) }
    ensures others { IsTrue D.tells → ChangesLeftOnly (D.content depot.old) (D.content depot.new) }
    ensures too_long { IsErrOf result Refused.TooLong → IsTrue D.tells
        → limit < length (bytes.old.items ++ (D.content depot.old).left) }
    ensures fault { IsErrOf result Refused.Fault
        → Rose (D.counts depot.old).read_faults (D.counts depot.new).read_faults }
    ensures uncounted { OnOk result (D.counts depot.new ≡ D.counts depot.old) }
    ensures long_uncounted { IsErrOf result Refused.TooLong → D.counts depot.new ≡ D.counts depot.old }
    ensures no_memory { IsErrOf result Refused.NoMemory
        → Rose (D.counts depot.old).refused (D.counts depot.new).refused ⊎ (D.counts depot.new ≡ D.counts depot.old) }
    ensures counted { NeverFall (D.counts depot.old) (D.counts depot.new) }
{
    loop {
        let count = depot.read(chunk)?;
        if count == 0 {
            return Ok(());
        }
        if limit - bytes.len() < count {
            return Err(Refused::TooLong);
        }
        bytes.extend_from_slice(&chunk[..count])?;
    }
}

/// Appends a whole piece to the started file, or a prefix of it where refused.
pub fn write_whole<D: Depot>(depot: &mut D, bytes: &[u8]) -> Result<(), DepotBad>
    requires { IsTrue D.tells → IsSome (D.content depot.old).current }
    ensures content { Writes D.tells (D.content depot.old) (D.content depot.new) bytes.now result }
    ensures counts { CountsWrites (D.counts depot.old) (D.counts depot.new) result }
{
    let mut done = 0;
    while done < bytes.len() {
        done += depot.write(&bytes[done..])?;
    }
    Ok(())
}

/// Prints a whole piece on standard output, or a prefix of it where refused.
pub fn say_whole<D: Depot>(depot: &mut D, bytes: &[u8]) -> Result<(), DepotBad>
    ensures content { Says D.tells (D.content depot.old) (D.content depot.new) bytes.now result }
    ensures counts { CountsWrites (D.counts depot.old) (D.counts depot.new) result }
{
    let mut done = 0;
    while done < bytes.len() {
        done += depot.say(&bytes[done..])?;
    }
    Ok(())
}

/// Makes a file of these bytes: starts it, then writes the whole piece. After a refusal the name is as
/// before, or holds a prefix of the bytes, and all other names are as before in either case.
pub fn make_file<D: Depot>(depot: &mut D, name: &str, bytes: &[u8]) -> Result<(), DepotBad>
    ensures content { Makes D.tells (D.content depot.old) (D.content depot.new) name.now bytes.now result }
    ensures counts { CountsWrites (D.counts depot.old) (D.counts depot.new) result }
{
    depot.start_write(name)?;
    write_whole(depot, bytes)
}
