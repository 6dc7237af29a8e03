//! A depot in memory that can be told to fail.
ghost use Rattle.std.specs.Prelude.{◌≡◌, true, false, [], ◌++◌, None, Some, Ok, Err, IsTrue, IsSome, IsOkAnd, OnOk, OnErr, MatchResult, length, take, drop, min};
ghost use Rattle.std.specs.Option.{option_copied};
ghost use Rattle.std.specs.FinMap.{get};
ghost use Rattle.depot.specs.Content.{with_held, with_left, begun, with_current, with_written, with_said};
ghost use Rattle.depot.specs.Counts.{NeverFall};
ghost use Rattle.depot.specs.Memory.{new_memory, memory_content, is_told, with_content, next_call, with_failing, most_moved, read_fault, write_fault, memory_refused};
ghost use Rattle.depot.specs.declared.outside.DepotBad.TheVariants.{Failed, NoMemory as Wanting};

use crate::outside::{Depot, DepotBad, Progress};
use crate::store::Store;
use geo_stream::NoMemory;
use std::alloc::Global;
use std::marker::Model;

/// A depot in memory. Its calls are numbered from 0, and those that it was told fail. It tells all, and a
/// name that wasn't added isn't there. It counts the faults that it was told and each time that memory ran out.
#[derive(Drop)]
pub struct MemDepot {
    store: Store,
    failing: Vec<u64>,
    calls: u64,
    short: bool,
    read_faults: u64,
    write_faults: u64,
    refused: u64,
}

impl Model for MemDepot {
    ghost use Rattle.depot.specs.Memory.{Memory, memory_code};

    ghost Value = { Memory };

    ghost coded = { memory_code };

    ghost view = { λ s. record {
      content = s.store;
      counts = record { read_faults = s.read_faults; write_faults = s.write_faults; refused = s.refused };
      calls = s.calls;
      failing = s.failing.items;
      is_short = s.short;
    } };
}

impl MemDepot {
    /// A depot with no file, no fault and no call to fail. It takes no memory.
    pub fn new(alloc: Global) -> MemDepot
        ensures { result ≡ new_memory }
    {
        MemDepot {
            store: Store::new(alloc),
            failing: Vec::new(alloc),
            calls: 0,
            short: false,
            read_faults: 0,
            write_faults: 0,
            refused: 0,
        }
    }

    /// Adds a file that can be read, in place of an older one of its name. Nothing is then left of a started
    /// file. Refused, the depot is as before.
    pub fn add(&mut self, name: &str, bytes: &[u8]) -> Result<(), NoMemory>
        ensures ok { OnOk result
            (self.new ≡ with_content self.old (with_held self.old.content name.now bytes.now)) }
        ensures refused { OnErr result (self.new ≡ self.old) }
    {
        self.store.add(name, bytes)
    }

    /// Tells the depot that the call of that number will fail. Refused, the depot is as before.
    pub fn fail_at(&mut self, call: u64) -> Result<(), NoMemory>
        ensures ok { OnOk result (self.new ≡ with_failing self.old call) }
        ensures refused { OnErr result (self.new ≡ self.old) }
    {
        self.failing.push(call)?;
        Ok(())
    }

    /// From now on each `read`, `write` and `say` moves at most one byte.
    pub fn short(&mut self)
        ensures { self.new ≡ record self.old { is_short = true } }
    {
        self.short = true;
    }

    /// The counts of read faults, of write faults and of refused memory.
    pub fn counts(&self) -> (u64, u64, u64)
        ensures { result
            ≡ (self.now.counts.read_faults, self.now.counts.write_faults, self.now.counts.refused) }
    {
        (self.read_faults, self.write_faults, self.refused)
    }

    /// The bytes that were made under a name; None exactly where none was.
    pub fn made(&self, name: &str) -> Option<&[u8]>
        ensures { option_copied result ≡ get self.now.content.made name.now }
    {
        self.store.made(name)
    }

    /// The bytes that were printed.
    pub fn said(&self) -> &[u8]
        ensures { result.now ≡ self.now.content.said }
    {
        self.store.said()
    }

    // Counts a call, and answers whether it is one that fails.
    fn next_fails(&mut self) -> bool
        ensures fails { result ≡ is_told self.old }
        ensures after { self.new ≡ next_call self.old }
    {
        let fails = self.failing.contains(&self.calls);
        self.calls = self.calls.saturating_add(1);
        fails
    }

    fn read_fault(&mut self) -> DepotBad
        ensures answer { result ≡ Failed }
        ensures after { self.new ≡ read_fault self.old }
        ensures counted { NeverFall self.old.counts self.new.counts }
    {
        self.read_faults = self.read_faults.saturating_add(1);
        DepotBad::Failed
    }

    fn write_fault(&mut self) -> DepotBad
        ensures answer { result ≡ Failed }
        ensures after { self.new ≡ write_fault self.old }
        ensures counted { NeverFall self.old.counts self.new.counts }
    {
        self.write_faults = self.write_faults.saturating_add(1);
        DepotBad::Failed
    }

    // How many bytes a call moves at most.
    fn most(&self) -> usize
        ensures { result ≡ most_moved self.now }
    {
        if self.short { 1 } else { usize::MAX }
    }

    fn refuse(&mut self) -> DepotBad
        ensures answer { result ≡ Wanting }
        ensures after { self.new ≡ memory_refused self.old }
        ensures counted { NeverFall self.old.counts self.new.counts }
    {
        self.refused = self.refused.saturating_add(1);
        DepotBad::NoMemory
    }
}

impl Depot for MemDepot {
    ghost tells = { true };

    ghost content = { memory_content };

    ghost counts = { λ m. m.counts };

    /// A call that was told to fail is a read fault; a name that wasn't added is answered `Failed` with no
    /// fault counted. It takes no memory.
    fn start_read(&mut self, name: &str) -> Result<(), DepotBad>
        ensures told { IsTrue (is_told self.old) → (result ≡ Err Failed)
            × (self.new ≡ read_fault (next_call (with_content self.old (with_left self.old.content [])))) }
        ensures missing { is_told self.old ≡ false → get self.old.content.held name.now ≡ None
            → (result ≡ Err Failed)
            × (self.new ≡ next_call (with_content self.old (with_left self.old.content []))) }
        ensures there { (bytes : _) → is_told self.old ≡ false
            → get self.old.content.held name.now ≡ Some bytes
            → (result ≡ Ok tt)
            × (self.new ≡ next_call (with_content self.old (with_left self.old.content bytes))) }
        ensures counted { NeverFall self.old.counts self.new.counts }
    {
        if self.next_fails() {
            self.store.stop_read();
            return Err(self.read_fault());
        }
        if self.store.start_read(name) {
            Ok(())
        } else {
            Err(DepotBad::Failed)
        }
    }

    /// A call that was told to fail is a read fault. It takes no memory.
    fn read(&mut self, buf: &mut [u8]) -> Result<usize, DepotBad>
        ensures told { IsTrue (is_told self.old) → (result ≡ Err Failed)
            × (self.new ≡ read_fault (next_call self.old)) × (buf.new ≡ buf.old) }
        ensures given { is_told self.old ≡ false → IsOkAnd result (λ n.
            (n ≡ min (min (length self.old.content.left) (length buf.old)) (most_moved self.old))
            × (self.new ≡ next_call (with_content self.old
            (with_left self.old.content (drop n self.old.content.left))))
            × (buf.new ≡ take n self.old.content.left ++ drop n buf.old)) }
        ensures counted { NeverFall self.old.counts self.new.counts }
    {
        if self.next_fails() {
            return Err(self.read_fault());
        }
        let most = self.most();
        Ok(self.store.read(buf, most))
    }

    /// A call that was told to fail is a write fault.
    fn start_write(&mut self, name: &str) -> Result<(), DepotBad>
        ensures told { IsTrue (is_told self.old) → (result ≡ Err Failed)
            × (self.new ≡ write_fault (next_call
            (with_content self.old (with_current self.old.content None)))) }
        ensures begun { is_told self.old ≡ false → MatchResult result
            (λ _. self.new ≡ next_call (with_content self.old (begun self.old.content name.now)))
            (λ bad. (bad ≡ Wanting) × (self.new ≡ memory_refused (next_call
            (with_content self.old (with_current self.old.content None))))) }
        ensures counted { NeverFall self.old.counts self.new.counts }
    {
        if self.next_fails() {
            self.store.stop_write();
            return Err(self.write_fault());
        }
        match self.store.start_write(name) {
            Ok(()) => Ok(()),
            Err(NoMemory) => Err(self.refuse()),
        }
    }

    /// A call that was told to fail is a write fault.
    fn write(&mut self, bytes: &[u8]) -> Result<usize, DepotBad>
        requires { IsSome self.old.content.current }
        ensures told { IsTrue (is_told self.old) → (result ≡ Err Failed)
            × (self.new ≡ write_fault (next_call self.old)) }
        ensures written { is_told self.old ≡ false → MatchResult result
            (λ n. (n ≡ min (length bytes.now) (most_moved self.old))
            × (self.new ≡ next_call (with_content self.old
            (with_written self.old.content (take n bytes.now)))))
            (λ bad. (bad ≡ Wanting) × (self.new ≡ memory_refused (next_call self.old))) }
        ensures counted { NeverFall self.old.counts self.new.counts }
    {
        if self.next_fails() {
            return Err(self.write_fault());
        }
        let count = bytes.len().min(self.most());
        match self.store.write(&bytes[..count]) {
            Ok(()) => Ok(count),
            Err(NoMemory) => Err(self.refuse()),
        }
    }

    /// A call that was told to fail is a write fault.
    fn say(&mut self, bytes: &[u8]) -> Result<usize, DepotBad>
        ensures told { IsTrue (is_told self.old) → (result ≡ Err Failed)
            × (self.new ≡ write_fault (next_call self.old)) }
        ensures said { is_told self.old ≡ false → MatchResult result
            (λ n. (n ≡ min (length bytes.now) (most_moved self.old))
            × (self.new ≡ next_call (with_content self.old
            (with_said self.old.content (take n bytes.now)))))
            (λ bad. (bad ≡ Wanting) × (self.new ≡ memory_refused (next_call self.old))) }
        ensures counted { NeverFall self.old.counts self.new.counts }
    {
        if self.next_fails() {
            return Err(self.write_fault());
        }
        let count = bytes.len().min(self.most());
        match self.store.say(&bytes[..count]) {
            Ok(()) => Ok(count),
            Err(NoMemory) => Err(self.refuse()),
        }
    }

    /// It does nothing, and isn't one of the numbered calls.
    fn note(&mut self, _progress: Progress)
        ensures { self.new ≡ self.old }
    {}
}
