//! The pieces of each shape.
ghost use Rattle.std.specs.Prelude.{◌≡◌, ◌<◌, IfOk, OnOk, OnErr, ◌∷◌, [], length, replicate};
ghost use Rattle.std.specs.List.{sum_by};
ghost use Rattle.cell_tree.specs.Cells.{shapes_at};
ghost use Rattle.flat_walk.specs.EntryLists.{entries_in};
ghost use Rattle.flat_walk.specs.Kept.{all_lists, AreSingle};
ghost use Rattle.flat_walk.specs.Tables.{HaveNoLists, with_lists, IsKept, AreKept, lists_at, piece_count};

use crate::cell_lists::CellLists;
use crate::entry_lists::{Entries, EntryList};
use cell_tree::Tree;
use geo_stream::NoMemory;
use half_grid::Trap;
use layout_model::{Cell, Shapes};
use std::alloc::Global;
use std::marker::Model;

/// The pieces of the shapes of a tree's cells. Contracts see a table that holds, by cell and by shape, a list of
/// trapezoids. Many shapes without pieces that follow one another take as much memory as one shape.
#[derive(Drop)]
pub struct Parts<'t> {
    alloc: Global,
    cells: Vec<CellLists<'t>>,
    // So many shapes without pieces may still have entries of their own.
    spare: usize,
}

// So many shapes without pieces have entries of their own, so that the boxes of a cell's shapes go on after them.
const SPARE: usize = 1 << 20;

impl<'t> Model for Parts<'t> {
    ghost use Rattle.std.specs.Prelude.{List};
    ghost use Rattle.half_grid.specs.Trapezoids.{Trapezoid};
    ghost use Rattle.flat_walk.specs.Tables.{AreKept};

    ghost Value = { List (List (List Trapezoid)) };

    ghost view = { λ parts. parts.cells.items };

    ghost invariant = { λ parts. AreKept parts.cells.items };
}

/// The shapes of a cell.
pub(crate) fn shapes_of(cells: &[Cell], cell: usize) -> &Shapes
    requires { cell < length cells.now }
    ensures { result.now ≡ shapes_at cells.now cell }
{
    &cells[cell].shapes
}

// No lists yet, of these cells.
fn nothing_yet<'t>(alloc: Global, cells: &'t [Cell]) -> Result<Vec<CellLists<'t>>, NoMemory>
    ensures { IfOk result (λ table. table.items ≡ replicate (length cells.now) []) }
{
    let mut table = Vec::with_capacity(alloc, cells.len())?;
    for cell in cells {
        table.push(CellLists::none(alloc, &cell.shapes))?;
    }
    Ok(table)
}

// Trapezoids in memory are shots, fewer than 2^64. It costs nothing.
fn are_kept(traps: &[Trap])
    ensures { IsKept traps.now }
{
    for trap in traps {
        let _bottom = trap.y0();
    }
}

impl<'t> Parts<'t> {
    /// A table of the tree's cells that has no lists yet. The lists of a cell's shapes are then pushed in the order of the
    /// shapes. A cell for which none are pushed costs nothing for its shapes.
    pub fn new(alloc: Global, tree: &'t Tree) -> Result<Parts<'t>, NoMemory>
        ensures { IfOk result (HaveNoLists tree.now.layout.cells) }
    {
        Parts::with_spare(alloc, tree, SPARE)
    }

    // The same, where so many shapes without pieces may have entries of their own.
    pub(crate) fn with_spare(
        alloc: Global,
        tree: &'t Tree,
        spare: usize,
    ) -> Result<Parts<'t>, NoMemory>
        ensures { IfOk result (HaveNoLists tree.now.layout.cells) }
    {
        let cells = nothing_yet(alloc, tree.cells())?;
        Ok(Parts {
            alloc,
            cells,
            spare,
        })
    }

    /// Takes memory for so many more shapes of a cell that have pieces. The table is as before.
    pub fn reserve(&mut self, cell: usize, count: usize) -> Result<(), NoMemory>
        requires { cell < length self.old }
        ensures { self.new ≡ self.old }
    {
        self.cells[cell].reserve(count)
    }

    /// Keeps the pieces of the cell's next shape. Refused, the table is as before.
    pub fn push(&mut self, cell: usize, traps: &[Trap]) -> Result<(), NoMemory>
        requires { cell < length self.old }
        ensures ok { OnOk result (self.new ≡ with_lists self.old cell (traps.now ∷ [])) }
        ensures err { OnErr result (self.new ≡ self.old) }
    {
        are_kept(traps);
        self.cells[cell].push(self.alloc, traps)
    }

    /// So many next shapes of the cell have no pieces. They take as much memory as others while there are no more than
    /// 1,048,576 such shapes, and together as much as one where there are more. Refused, the table is as before.
    pub fn push_none(&mut self, cell: usize, count: usize) -> Result<(), NoMemory>
        requires { cell < length self.old }
        ensures ok { OnOk result (self.new ≡ with_lists self.old cell (replicate count [])) }
        ensures err { OnErr result (self.new ≡ self.old) }
    {
        if count == 0 {
            return Ok(());
        }
        if count <= self.spare {
            self.spare -= count;
            return self.cells[cell].push_each(count);
        }
        self.cells[cell].push_without(count - 1)
    }

    /// How many pieces there are, or 2^64 - 1 where there are more. It looks at each shape that has some once.
    pub fn count(&self) -> u64
        ensures { result ≡ piece_count self.now }
    {
        pieces_in(self.cells.as_slice())
    }

    // The pieces of the shapes of a cell.
    pub(crate) fn lists(&self, cell: usize) -> Entries<'_>
        ensures lists { all_lists (entries_in result.list) ≡ lists_at self.now cell }
        ensures single { AreSingle result.single (entries_in result.list) }
    {
        match self.cells.get(cell) {
            Some(lists) => lists.entries(),
            None => Entries {
                list: EntryList::none(),
                single: 0,
            },
        }
    }

    // What is kept are shots. It costs nothing.
    pub(crate) fn kept(&self)
        ensures { AreKept self.now }
    {
        let _count = self.cells.len();
    }
}

// How many pieces the shapes of all cells have, or 2^64 - 1 where they have more.
fn pieces_in(table: &[CellLists<'_>]) -> u64
    ensures { result ≡ piece_count table.now }
{
    let mut count = 0u64;
    for lists in table {
        count = count.saturating_add(lists.piece_count());
    }
    count
}
