//! The files of the system and standard output as a depot.
ghost use Rattle.std.specs.Prelude.{◌≡◌, ◌≤◌, ◌<◌, false, None, IsNone, IsSome, IsSomeAnd, IfOk, OnOk, OnErr, length, string_bytes};
ghost use Rattle.depot.specs.Counts.{no_counts};
ghost use Rattle.depot.specs.Counting.{CountsReads, CountsWrites};
ghost use Rattle.depot.specs.Shelves.{ReadsOn, WritesOn};
ghost use Rattle.depot.specs.Tallies.{tally_counts};
ghost use Rattle.depot.specs.Content.{nothing};

use crate::disk::Disk;
use crate::fault::SystemFault;
use crate::keeper::Keeper;
use crate::outside::{Depot, DepotBad, Progress};
use crate::system::SystemDisk;
use std::rt::Runtime;

/// A depot over the files of the system and standard output. It tells nothing of its content. A read asks for as much as
/// the buffer has.
///
/// A file is written beside its place, as `NAME.nettletide-part0`, and takes its place at once when the next one is started,
/// when something is said, or at `finish`. Once a call was refused nothing more is put in its place, so what stood there
/// before stays. A link is followed, and what it leads to replaced; permissions are kept; what is no regular file is written
/// straight. A file that was read isn't written, one that was written is neither written again nor read: the call is refused
/// and counted.
#[derive(Drop)]
pub struct FileDepot<R: Runtime + AllocGlobal> {
    keeper: Keeper<SystemDisk<R>>,
}

impl<R: Runtime + AllocGlobal> FileDepot<R> {
    /// A depot that has started no file and counted nothing.
    pub fn new(rt: R) -> FileDepot<R>
        ensures counts { ⟦<FileDepot<R> as Depot>⟧.counts result ≡ no_counts }
        ensures output { IsNone result.keeper.output }
    {
        FileDepot {
            keeper: Keeper::new(rt.alloc(), SystemDisk::new(rt)),
        }
    }

    /// From now on, when just these words are said, what is being written isn't whole: it is taken away, and what stood in
    /// its place before stays.
    pub fn give_up_at(&mut self, words: &'static [u8])
        ensures counts { ⟦<FileDepot<R> as Depot>⟧.counts self.new ≡ ⟦<FileDepot<R> as Depot>⟧.counts self.old }
    {
        self.keeper.give_up_at(words);
    }

    /// Puts what was written last in its place, where nothing is said after it. A refusal is a counted fault of writing.
    pub fn finish(&mut self) -> Result<(), DepotBad>
        ensures counts { CountsWrites (⟦<FileDepot<R> as Depot>⟧.counts self.old)
            (⟦<FileDepot<R> as Depot>⟧.counts self.new) result }
        ensures output { IsNone self.new.keeper.output }
    {
        self.keeper.finish()
    }

    /// The first call that was refused since the depot was made, but for want of memory.
    pub fn fault(&self) -> Option<&SystemFault> {
        self.keeper.fault()
    }

    /// The names of the files that were in the way of new ones: an earlier run was stopped and left them, or another run is
    /// writing them.
    pub fn leftovers(&self) -> &[String] {
        self.keeper.leftovers()
    }
}

impl<R: Runtime + AllocGlobal> Depot for FileDepot<R> {
    ghost tells = { false };

    ghost content = { λ _. nothing };

    ghost counts = { λ d. tally_counts d.keeper.tally };

    fn start_read(&mut self, name: &str) -> Result<(), DepotBad>
        ensures started { OnOk result (IsSome (⟦<SystemDisk<R> as Disk>⟧.shelf self.new.keeper.disk).reading) }
        ensures refused { OnErr result ((⟦<SystemDisk<R> as Disk>⟧.shelf self.new.keeper.disk).reading ≡ None) }
        ensures writing { (⟦<SystemDisk<R> as Disk>⟧.shelf self.new.keeper.disk).writing
            ≡ (⟦<SystemDisk<R> as Disk>⟧.shelf self.old.keeper.disk).writing }
        ensures counts { CountsReads (tally_counts self.old.keeper.tally) (tally_counts self.new.keeper.tally) result }
    {
        self.keeper.start_read(name)
    }

    fn read(&mut self, buf: &mut [u8]) -> Result<usize, DepotBad>
        ensures bound { IfOk result (λ n. n ≤ length buf.old) }
        ensures bytes { ReadsOn (⟦<SystemDisk<R> as Disk>⟧.shelf self.old.keeper.disk).reading
            (⟦<SystemDisk<R> as Disk>⟧.shelf self.new.keeper.disk).reading result buf.new }
        ensures writing { (⟦<SystemDisk<R> as Disk>⟧.shelf self.new.keeper.disk).writing
            ≡ (⟦<SystemDisk<R> as Disk>⟧.shelf self.old.keeper.disk).writing }
        ensures counts { CountsReads (tally_counts self.old.keeper.tally) (tally_counts self.new.keeper.tally) result }
    {
        self.keeper.read(buf)
    }

    fn start_write(&mut self, name: &str) -> Result<(), DepotBad>
        ensures started { OnOk result (IsSomeAnd self.new.keeper.output (λ o. string_bytes o.name ≡ name.now)) }
        ensures refused { OnErr result (IsNone self.new.keeper.output) }
        ensures reading { (⟦<SystemDisk<R> as Disk>⟧.shelf self.new.keeper.disk).reading
            ≡ (⟦<SystemDisk<R> as Disk>⟧.shelf self.old.keeper.disk).reading }
        ensures counts { CountsWrites (tally_counts self.old.keeper.tally) (tally_counts self.new.keeper.tally) result }
    {
        self.keeper.start_write(name)
    }

    fn write(&mut self, bytes: &[u8]) -> Result<usize, DepotBad>
        ensures bound { IfOk result (λ n. n ≤ length bytes.now) }
        ensures progress { IfOk result (λ n. 0 < length bytes.now → 0 < n) }
        ensures bytes { OnOk result (WritesOn (⟦<SystemDisk<R> as Disk>⟧.shelf self.old.keeper.disk).writing
            (⟦<SystemDisk<R> as Disk>⟧.shelf self.new.keeper.disk).writing result bytes.now) }
        ensures reading { (⟦<SystemDisk<R> as Disk>⟧.shelf self.new.keeper.disk).reading
            ≡ (⟦<SystemDisk<R> as Disk>⟧.shelf self.old.keeper.disk).reading }
        ensures counts { CountsWrites (tally_counts self.old.keeper.tally) (tally_counts self.new.keeper.tally) result }
    {
        self.keeper.write(bytes)
    }

    fn say(&mut self, bytes: &[u8]) -> Result<usize, DepotBad> {
        self.keeper.say(bytes)
    }

    /// It does nothing.
    fn note(&mut self, _progress: Progress)
        ensures { self.new ≡ self.old }
    {}
}
