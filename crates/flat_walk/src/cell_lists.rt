//! The pieces of a cell's shapes, list by list.
ghost use Rattle.std.specs.Prelude.{◌≡◌, ◌+◌, [], ◌∷◌, ◌++◌, OnOk, OnErr, length, replicate};
ghost use Rattle.std.specs.List.{sum_by};
ghost use Rattle.flat_walk.specs.EntryLists.{entries_in};
ghost use Rattle.flat_walk.specs.Kept.{all_lists, AreSingle};
ghost use Rattle.flat_walk.specs.Tables.{count_within};

use crate::entries::EntryTable;
use crate::entry_lists::{Entries, EntryList};
use geo_stream::NoMemory;
use half_grid::Trap;
use layout_model::Shapes;
use std::alloc::Global;
use std::marker::Model;

/// The pieces of a cell's shapes. Contracts see the list of each shape.
#[derive(Drop)]
pub(crate) struct CellLists<'t> {
    table: EntryTable<'t>,
    // Each of so many of the first entries stands for one shape.
    single: usize,
}

impl<'t> Model for CellLists<'t> {
    ghost use Rattle.std.specs.Prelude.{List};
    ghost use Rattle.half_grid.specs.Trapezoids.{Trapezoid};
    ghost use Rattle.flat_walk.specs.Kept.{all_lists, AreSingle};

    ghost Value = { List (List Trapezoid) };

    ghost view = { λ lists. all_lists lists.table };

    ghost invariant = { λ lists. AreSingle lists.single lists.table };
}

impl<'t> CellLists<'t> {
    /// No lists yet, of a cell with these shapes.
    pub(crate) fn none(alloc: Global, shapes: &'t Shapes) -> CellLists<'t>
        ensures { result ≡ [] }
    {
        CellLists {
            table: EntryTable::new(alloc, shapes),
            single: 0,
        }
    }

    /// Takes memory for so many more entries.
    pub(crate) fn reserve(&mut self, count: usize) -> Result<(), NoMemory>
        ensures { self.new ≡ self.old }
    {
        self.table.reserve(count)
    }

    /// The pieces of one more shape. Refused, all is as before.
    pub(crate) fn push(&mut self, alloc: Global, traps: &[Trap]) -> Result<(), NoMemory>
        ensures ok { OnOk result (self.new ≡ self.old ++ traps.now ∷ []) }
        ensures err { OnErr result (self.new ≡ self.old) }
    {
        let alone = self.single == self.table.len();
        self.table.push(alloc, traps)?;
        if alone {
            self.single = self.table.len();
        }
        Ok(())
    }

    /// One more shape without pieces, and so many after it, by one entry. Refused, all is as before.
    pub(crate) fn push_without(&mut self, more: usize) -> Result<(), NoMemory>
        ensures ok { OnOk result (self.new ≡ self.old ++ replicate (more + 1) []) }
        ensures err { OnErr result (self.new ≡ self.old) }
    {
        self.table.push_without(more)
    }

    /// So many shapes more without pieces, each by an entry of its own. Refused, all is as before.
    pub(crate) fn push_each(&mut self, count: usize) -> Result<(), NoMemory>
        ensures ok { OnOk result (self.new ≡ self.old ++ replicate count []) }
        ensures err { OnErr result (self.new ≡ self.old) }
    {
        let alone = self.single == self.table.len();
        self.table.push_each(count)?;
        if alone {
            self.single = self.table.len();
        }
        Ok(())
    }

    /// All entries.
    pub(crate) fn entries(&self) -> Entries<'_>
        ensures lists { all_lists (entries_in result.list) ≡ self.now }
        ensures single { AreSingle result.single (entries_in result.list) }
    {
        Entries {
            list: EntryList::of(&self.table),
            single: self.single,
        }
    }

    /// How many pieces there are, or 2^64 - 1 where there are more.
    pub(crate) fn piece_count(&self) -> u64
        ensures { result ≡ count_within (sum_by length self.now) }
    {
        pieces_of(&self.table)
    }
}

// How many pieces there are in these entries, or 2^64 - 1 where there are more.
fn pieces_of(table: &EntryTable<'_>) -> u64
    ensures { result ≡ count_within (sum_by length (all_lists table.now)) }
{
    let mut count = 0u64;
    for number in 0..table.len() {
        count = count.saturating_add(table.count(number) as u64);
    }
    count
}
