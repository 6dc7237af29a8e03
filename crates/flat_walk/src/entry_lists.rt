//! The entries of a cell from one on.
ghost use Rattle.std.specs.Prelude.{◌≡◌, ◌<◌, ◌≤◌, ◌+◌, ◌^◌, [], ◌∷◌, IsTrue, MatchOption, IfSome, Some, length, drop, slice_get};
ghost use Rattle.flat_walk.specs.EntryLists.{entries_in, table_entries};
ghost use Rattle.flat_walk.specs.Hands.{first_count};
ghost use Rattle.flat_walk.specs.PieceLists.{AreShots};
ghost use Rattle.flat_walk.specs.Stores.{entry_in};

use crate::entries::EntryTable;
use crate::stores::EntryRef;

/// A cell's entries from one on: what they are, `entries_in` says.
#[derive(Clone, Copy)]
pub(crate) struct EntryList<'t> {
    table: Option<&'t EntryTable<'t>>,
    first: usize,
}

/// Entries in order, of which each of the first `single` stands for one shape.
#[derive(Clone, Copy)]
pub(crate) struct Entries<'t> {
    pub(crate) list: EntryList<'t>,
    pub(crate) single: usize,
}

impl<'t> EntryList<'t> {
    /// No entries.
    pub(crate) fn none() -> EntryList<'t>
        ensures { entries_in result ≡ [] }
    {
        EntryList {
            table: None,
            first: 0,
        }
    }

    /// All entries of a table.
    pub(crate) fn of(table: &'t EntryTable<'t>) -> EntryList<'t>
        ensures { entries_in result ≡ table.now }
    {
        EntryList {
            table: Some(table),
            first: 0,
        }
    }

    /// The first entry, if there is one.
    #[inline(always)]
    pub(crate) fn first(&self) -> Option<EntryRef<'t>>
        ensures first { MatchOption result (entries_in self.now ≡ [])
            (λ entry. entries_in self.now ≡ entry_in entry ∷ drop 1 (entries_in self.now)) }
        ensures shots { IfSome result (λ entry. AreShots entry.pieces) }
    {
        self.table?.get(self.first)
    }

    /// Whether there are none.
    pub(crate) fn is_empty(&self) -> bool
        ensures { IsTrue result → entries_in self.now ≡ [] }
    {
        match self.table {
            Some(table) => table.len() <= self.first,
            None => true,
        }
    }

    /// How many shapes without pieces come after the first shape of the first entry.
    #[inline(never)]
    pub(crate) fn more(&self) -> usize
        ensures { result + 1 ≡ first_count (entries_in self.now) }
    {
        match self.table {
            Some(table) => table.more(self.first),
            None => 0,
        }
    }

    /// The entry of this number, counted from the first one, if there are so many.
    pub(crate) fn get(&self, number: usize) -> Option<EntryRef<'t>>
        ensures there { MatchOption result (length (entries_in self.now) ≤ number)
            (λ entry. slice_get (entries_in self.now) number ≡ Some (entry_in entry)) }
        ensures shots { IfSome result (λ entry. AreShots entry.pieces) }
    {
        self.after(number).first()
    }

    // The table has fewer than 2^64 entries. It costs nothing.
    #[inline(always)]
    fn are_few(&self)
        ensures { length (table_entries self.now.table) < 2 ^ 64 }
    {
        if let Some(table) = self.table {
            let _count = table.len();
        }
    }

    /// All but the first so many.
    #[inline(always)]
    pub(crate) fn after(&self, count: usize) -> EntryList<'t>
        ensures { entries_in result ≡ drop count (entries_in self.now) }
    {
        self.are_few();
        EntryList {
            table: self.table,
            first: self.first.saturating_add(count),
        }
    }
}
