//! A layout with the cell of each placement.
ghost use Rattle.std.specs.Prelude.{◌≡◌, ◌<◌, IfOk, length, map};
ghost use Rattle.keyed_hash.specs.Keys.{hasher_after_all, start_of};
ghost use Rattle.layout_model.specs.Layouts.{AreDistinct, IsLayoutOnGrid};
ghost use Rattle.cell_tree.specs.Cells.{cell_names, cell_number, all_targets};
ghost use Rattle.cell_tree.specs.Linking.{pointed, places_among};

use geo_stream::NoMemory;
use indexmap::IndexSet;
use keyed_hash::KeyedState;
use layout_model::{Cell, Layout, Name, Placement, Shapes};
use std::alloc::Global;
use std::marker::Model;

// Names in order, in a table with a key of its own.
type KeyedNames<'a> = IndexSet<&'a [u8], KeyedState>;

/// The number of the cell of this name.
pub(crate) fn number_of(cells: &[Cell], name: &Name) -> Option<usize>
    ensures { result ≡ cell_number cells.now name.now }
{
    for (n, cell) in cells.iter().enumerate() {
        if *name == cell.name {
            return Some(n);
        }
    }
    None
}

// The key of a table of the cells' names: it depends on each of them.
fn key_of(cells: &[Cell]) -> KeyedState
    ensures { start_of result ≡ hasher_after_all (cell_names cells.now) }
{
    let mut key = KeyedState::new();
    for cell in cells {
        key.take(cell.name.bytes());
    }
    key
}

// The names of the cells in order.
fn names_in_order<'a>(alloc: Global, cells: &'a [Cell]) -> Result<KeyedNames<'a>, NoMemory>
    requires { AreDistinct (cell_names cells.now) }
    ensures { IfOk result (λ names. pointed names.keys ≡ cell_names cells.entry.now) }
{
    let mut names = IndexSet::with_hasher(alloc, key_of(cells));
    for cell in cells {
        names.insert(cell.name.bytes())?;
    }
    Ok(names)
}

// The place of each placement's target among the names.
fn targets_of(
    alloc: Global,
    names: &KeyedNames,
    placements: &[Placement],
) -> Result<Vec<Option<usize>>, NoMemory>
    ensures { IfOk result (λ targets. targets.items ≡ places_among (pointed names.now.keys) placements.now) }
{
    let mut targets = Vec::with_capacity(alloc, placements.len())?;
    for placement in placements {
        targets.push(names.get_index_of(placement.target.bytes()))?;
    }
    Ok(targets)
}

// What each cell places.
fn all_targets(alloc: Global, cells: &[Cell]) -> Result<Vec<Vec<Option<usize>>>, NoMemory>
    requires { AreDistinct (cell_names cells.now) }
    ensures { IfOk result (λ targets. map (λ row. row.items) targets.items ≡ all_targets cells.now) }
{
    let names = names_in_order(alloc, cells)?;
    let mut targets = Vec::with_capacity(alloc, cells.len())?;
    for cell in cells {
        targets.push(targets_of(alloc, &names, cell.placements.as_slice())?)?;
    }
    Ok(targets)
}

/// A layout on the grid with the number of the cell that each placement places, if there is one. Contracts see the
/// layout.
#[derive(Debug, Drop)]
pub(crate) struct Linked {
    layout: Layout,
    targets: Vec<Vec<Option<usize>>>,
}

impl Model for Linked {
    ghost use Rattle.std.specs.Prelude.{◌≡◌, map};
    ghost use Rattle.layout_model.specs.Layouts.{IsLayoutOnGrid};
    ghost use Rattle.layout_model.specs.declared.cells.Layout.{Layout as ALayout};
    ghost use Rattle.cell_tree.specs.Cells.{all_targets};

    ghost Value = { ALayout };

    ghost view = { λ linked. linked.layout };

    ghost invariant = { λ linked. IsLayoutOnGrid linked.layout × (map (λ row. row.items) linked.targets.items ≡ all_targets linked.layout.cells) };
}

impl Linked {
    ghost use Rattle.cell_tree.specs.Cells.{shapes_at, placements_at, targets_at};
    ghost use Rattle.cell_tree.specs.Linking.{AreTargetsBelow};

    pub(crate) fn new(alloc: Global, layout: Layout) -> Result<Linked, NoMemory>
        requires { IsLayoutOnGrid layout }
        ensures { IfOk result (λ linked. linked ≡ layout) }
    {
        let targets = all_targets(alloc, layout.cells.as_slice())?;
        Ok(Linked { layout, targets })
    }

    pub(crate) fn layout(&self) -> &Layout
        ensures value { result.now ≡ self.now }
        ensures grid { IsLayoutOnGrid result.now }
    {
        &self.layout
    }

    pub(crate) fn cells(&self) -> &[Cell]
        ensures { result.now ≡ self.now.cells }
    {
        self.layout.cells.as_slice()
    }

    /// The shapes of a cell.
    pub(crate) fn shapes(&self, cell: usize) -> &Shapes
        requires { cell < length self.now.cells }
        ensures { result.now ≡ shapes_at self.now.cells cell }
    {
        &self.cells()[cell].shapes
    }

    /// Looks for paths that are given again and again in a cell, as `Shapes::find_copies` does.
    pub(crate) fn find_copies(&mut self, cell: usize)
        requires { cell < length self.old.cells }
        ensures { self.new ≡ self.old }
    {
        self.layout.cells.item_mut(cell).shapes.find_copies();
    }

    /// The placements of a cell.
    pub(crate) fn placements(&self, cell: usize) -> &[Placement]
        requires { cell < length self.now.cells }
        ensures { result.now ≡ placements_at self.now.cells cell }
    {
        self.cells()[cell].placements.as_slice()
    }

    /// The number of the cell that each placement of a cell places, if there is one.
    pub(crate) fn targets(&self, cell: usize) -> &[Option<usize>]
        requires { cell < length self.now.cells }
        ensures value { result.now ≡ targets_at self.now.cells cell }
        ensures below { AreTargetsBelow (length self.now.cells) result.now }
    {
        self.targets[cell].as_slice()
    }
}
