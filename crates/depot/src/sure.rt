//! A depot in memory that never fails.
ghost use Rattle.std.specs.Prelude.{◌≡◌, ◌≤◌, true, [], ◌++◌, None, Some, Ok, Err, IsSome, IfOk, IsOkAnd, OnOk, OnErr, MatchResult, length, take, drop, min, unwrap_or};
ghost use Rattle.std.specs.Option.{option_copied};
ghost use Rattle.std.specs.FinMap.{get};
ghost use Rattle.depot.specs.Content.{with_held, with_left, begun, with_current, with_written, with_said};
ghost use Rattle.depot.specs.Sure.{NothingFails, new_sure, sure_content, sure_counts, with_content, sure_refused};
ghost use Rattle.depot.specs.declared.outside.DepotBad.TheVariants.{NoMemory as Wanting};

use crate::outside::{Depot, DepotBad, Progress};
use crate::store::Store;
use geo_stream::NoMemory;
use std::alloc::Global;
use std::marker::Model;

/// A depot in memory that never fails: a name that wasn't added is an empty file, and it counts no fault. It
/// tells all. Only memory may run out, which it counts.
#[derive(Drop)]
pub struct SureDepot {
    store: Store,
    refused: u64,
}

impl Model for SureDepot {
    ghost use Rattle.depot.specs.Sure.{Sure, sure_code};

    ghost Value = { Sure };

    ghost coded = { sure_code };

    ghost view = { λ s. record { content = s.store; refused = s.refused } };
}

impl SureDepot {
    /// A depot with no file. It takes no memory.
    pub fn new(alloc: Global) -> SureDepot
        ensures { result ≡ new_sure }
    {
        SureDepot {
            store: Store::new(alloc),
            refused: 0,
        }
    }

    /// Adds a file that can be read, in place of an older one of its name. Nothing is then left of a started
    /// file. Refused, the depot is as before.
    pub fn add(&mut self, name: &str, bytes: &[u8]) -> Result<(), NoMemory>
        ensures ok { OnOk result
            (self.new ≡ with_content self.old (with_held self.old.content name.now bytes.now)) }
        ensures refused { OnErr result (self.new ≡ self.old) }
    {
        self.store.add(name, bytes)
    }

    /// The bytes that were made under a name; None exactly where none was.
    pub fn made(&self, name: &str) -> Option<&[u8]>
        ensures { option_copied result ≡ get self.now.content.made name.now }
    {
        self.store.made(name)
    }

    /// The bytes that were printed.
    pub fn said(&self) -> &[u8]
        ensures { result.now ≡ self.now.content.said }
    {
        self.store.said()
    }

    fn refuse(&mut self) -> DepotBad
        ensures answer { result ≡ Wanting }
        ensures after { self.new ≡ sure_refused self.old }
        ensures counted { self.old.refused ≤ self.new.refused }
    {
        self.refused = self.refused.saturating_add(1);
        DepotBad::NoMemory
    }
}

impl Depot for SureDepot {
    ghost tells = { true };

    ghost content = { sure_content };

    ghost counts = { sure_counts };

    /// It always succeeds and takes no memory.
    fn start_read(&mut self, name: &str) -> Result<(), DepotBad>
        ensures answer { result ≡ Ok tt }
        ensures after { self.new ≡ with_content self.old
            (with_left self.old.content (unwrap_or (get self.old.content.held name.now) [])) }
    {
        let _there = self.store.start_read(name);
        Ok(())
    }

    /// It always succeeds and takes no memory.
    fn read(&mut self, buf: &mut [u8]) -> Result<usize, DepotBad>
        ensures { IsOkAnd result (λ n. (n ≡ min (length self.old.content.left) (length buf.old))
            × (self.new ≡ with_content self.old
            (with_left self.old.content (drop n self.old.content.left)))
            × (buf.new ≡ take n self.old.content.left ++ drop n buf.old)) }
    {
        Ok(self.store.read(buf, usize::MAX))
    }

    /// Only memory may run out.
    fn start_write(&mut self, name: &str) -> Result<(), DepotBad>
        ensures begun { MatchResult result
            (λ _. self.new ≡ with_content self.old (begun self.old.content name.now))
            (λ bad. (bad ≡ Wanting) × (self.new ≡ sure_refused
            (with_content self.old (with_current self.old.content None)))) }
        ensures counted { self.old.refused ≤ self.new.refused }
    {
        match self.store.start_write(name) {
            Ok(()) => Ok(()),
            Err(NoMemory) => Err(self.refuse()),
        }
    }

    /// Takes the whole piece. Only memory may run out.
    fn write(&mut self, bytes: &[u8]) -> Result<usize, DepotBad>
        requires { IsSome self.old.content.current }
        ensures written { MatchResult result
            (λ n. (n ≡ length bytes.now)
            × (self.new ≡ with_content self.old (with_written self.old.content bytes.now)))
            (λ bad. (bad ≡ Wanting) × (self.new ≡ sure_refused self.old)) }
        ensures counted { self.old.refused ≤ self.new.refused }
    {
        match self.store.write(bytes) {
            Ok(()) => Ok(bytes.len()),
            Err(NoMemory) => Err(self.refuse()),
        }
    }

    /// Takes the whole piece. Only memory may run out.
    fn say(&mut self, bytes: &[u8]) -> Result<usize, DepotBad>
        ensures said { MatchResult result
            (λ n. (n ≡ length bytes.now)
            × (self.new ≡ with_content self.old (with_said self.old.content bytes.now)))
            (λ bad. (bad ≡ Wanting) × (self.new ≡ sure_refused self.old)) }
        ensures counted { self.old.refused ≤ self.new.refused }
    {
        match self.store.say(bytes) {
            Ok(()) => Ok(bytes.len()),
            Err(NoMemory) => Err(self.refuse()),
        }
    }

    /// It does nothing.
    fn note(&mut self, _progress: Progress)
        ensures { self.new ≡ self.old }
    {}
}

/// The law that no call over a `SureDepot` answers `Failed`: neither count of faults rises, and each name is there.
pub fn nothing_fails()
    ensures { NothingFails }
{}
