//! The tree of a layout's cells.
ghost use Rattle.std.specs.Prelude.{◌≡◌, ◌<◌, ◌^◌, ◌↔◌, ◌⊎◌, ℕ, [], All, length, slice_get, Some, None, Ok, Err, IfOk, IsTrue, IsFalse, OnOk, IsOk, IsErrAnd};
ghost use Rattle.geo_stream.specs.Refusals.{IsForFault, IfFault};
ghost use Rattle.geo_stream.specs.declared.refusal.Refusal.TheVariants.{Fault, NoMemory};
ghost use Rattle.layout_model.specs.Layouts.{IsLayoutOnGrid};
ghost use Rattle.cell_tree.specs.Cells.{cell_number};
ghost use Rattle.cell_tree.specs.Orders.{IsOrder};
ghost use Rattle.cell_tree.specs.Searches.{IsFound};
ghost use Rattle.cell_tree.specs.Flattening.{shape_count};
ghost use Rattle.cell_tree.specs.HullTables.{extent_in};
ghost use Rattle.cell_tree.specs.Trees.{IsKnown, IsAcyclic, IsShallow, IsMild, KeepsFixed, IsCounted, AreVerticesNear, IsTree};
ghost use Rattle.cell_tree.specs.Faults.{IsFirstTreeFault, order_of};
ghost use Rattle.cell_tree.specs.declared.faults.TreeBad.{TreeBad as ABad};
ghost use Rattle.cell_tree.specs.declared.faults.TreeBad.TheVariants.{NoTop};

use crate::crowds::{Counted, count_shapes};
use crate::extents::first_beyond;
use crate::factors::{farthest, scaled_chain};
use crate::faults::{TreeBad, copy_of, name_of, names_of};
use crate::heights::{deep_chain, heights};
use crate::hulls::{PairHull, hull_on, hulls, whole_hull};
use crate::linked::{Linked, number_of};
use crate::orders::{Found, search_from};
use crate::spots::{placed_box, wide};
use crate::unknowns::find_unknown;
use geo_stream::Refusal;
use half_grid::Frame;
use layout_model::{Cell, Counts, Layout, Name, Pair};
use std::alloc::Global;
use std::marker::Model;

/// A layout whose cells below the top cell are a tree within the limits, with the cell of each placement and the least
/// box of each cell. Contracts see the layout and the number of the top cell.
#[derive(Debug, Drop)]
pub struct Tree {
    linked: Linked,
    top: usize,
    hulls: Vec<Vec<PairHull>>,
    shapes: u64,
}

impl Model for Tree {
    ghost use Rattle.std.specs.Prelude.{◌≡◌, ◌<◌, map, length};
    ghost use Rattle.layout_model.specs.Layouts.{IsLayoutOnGrid};
    ghost use Rattle.cell_tree.specs.Trees.{Rooted, IsTree};
    ghost use Rattle.cell_tree.specs.HullTables.{AreHullsBelow, AreOnlyBelow};
    ghost use Rattle.cell_tree.specs.Flattening.{shape_count};

    ghost Value = { Rooted };

    ghost view = { λ tree. record { layout = tree.linked; top = tree.top } };

    ghost invariant = { λ tree. IsLayoutOnGrid tree.linked × (tree.top < length tree.linked.cells)
        × IsTree tree.linked.cells tree.top × (length tree.hulls.items ≡ length tree.linked.cells)
        × AreHullsBelow tree.linked.cells tree.top (map (λ list. list.items) tree.hulls.items)
        × AreOnlyBelow tree.linked.cells tree.top (map (λ list. list.items) tree.hulls.items)
        × (tree.shapes ≡ shape_count tree.linked.cells tree.top) };
}

impl Tree {
    ghost use Rattle.cell_tree.specs.Cells.{placements_at, shapes_at};
    ghost use Rattle.cell_tree.specs.Chains.{IsReachable};
    ghost use Rattle.cell_tree.specs.Flattening.{IsVertex, shape_count};
    ghost use Rattle.cell_tree.specs.Boxes.{IsHull, IsBoxUpTo};
    ghost use Rattle.cell_tree.specs.Spots.{IsSpotVertex};
    ghost use Rattle.half_grid.specs.declared.plane.Point.{Point as APoint};
    ghost use Rattle.layout_model.specs.Hulls.{IsInBox};
    ghost use Rattle.layout_model.specs.declared.cells.Placement.{Placement as APlacement};

    /// The cells in the order of the file.
    pub fn cells(&self) -> &[Cell]
        ensures value { result.now ≡ self.now.layout.cells }
        ensures grid { IsLayoutOnGrid self.now.layout }
        ensures tree { IsTree result.now self.now.top }
    {
        self.linked.cells()
    }

    /// How many things of each kind the file has.
    pub fn counts(&self) -> Counts
        ensures { result ≡ self.now.layout.counts }
    {
        self.linked.layout().counts
    }

    /// The number of flattened shapes of the top cell, 2^40 at most.
    pub fn shape_count(&self) -> u64
        ensures { result ≡ shape_count self.now.layout.cells self.now.top }
    {
        self.shapes
    }

    /// The number of the top cell.
    pub fn top(&self) -> usize
        ensures value { result ≡ self.now.top }
        ensures inside { result < length self.now.layout.cells }
    {
        self.top
    }

    /// The cell that a placement of a reachable cell places.
    pub fn target(&self, cell: usize, placement: usize) -> usize
        requires cell { IsReachable self.now.layout.cells self.now.top cell }
        requires placement { placement < length (placements_at self.now.layout.cells cell) }
        ensures value { (placed : APlacement) → slice_get (placements_at self.now.layout.cells cell) placement ≡ Some placed
            → cell_number self.now.layout.cells placed.target ≡ Some result }
        ensures inside { result < length self.now.layout.cells }
    {
        match self.linked.targets(cell)[placement] {
            Some(target) => target,
            None => unreachable!(),
        }
    }

    /// The least box of all vertices of a reachable cell on a pair, as the cell sees them. None where it has none.
    pub fn hull(&self, cell: usize, pair: Pair) -> Option<Frame>
        requires { IsReachable self.now.layout.cells self.now.top cell }
        ensures { IsHull (IsVertex self.now.layout.cells cell pair) result }
    {
        hull_on(self.hulls[cell].as_slice(), pair)
    }

    /// Whether a cell has nothing to show. Where it says so, a reachable cell has no shapes of its own, and it says so
    /// of each cell that nothing reaches.
    pub fn is_bare(&self, cell: usize) -> bool
        requires { cell < length self.now.layout.cells }
        ensures reached { IsFalse result → IsReachable self.now.layout.cells self.now.top cell }
        ensures bare { IsTrue result → IsReachable self.now.layout.cells self.now.top cell → shapes_at self.now.layout.cells cell ≡ [] }
    {
        self.hulls[cell].is_empty()
    }

    /// A box round all that a placement shows, of whatever pair, as the cell that has it counts, within 2^53 of 0. It
    /// is one where that cell is reachable.
    pub fn spot(&self, cell: usize, placement: usize) -> Frame
        requires cell { cell < length self.now.layout.cells }
        requires placement { placement < length (placements_at self.now.layout.cells cell) }
        ensures near { IsBoxUpTo (2 ^ 53) result }
        ensures around { (placed : APlacement) (p : APoint) → IsReachable self.now.layout.cells self.now.top cell
            → slice_get (placements_at self.now.layout.cells cell) placement ≡ Some placed → IsSpotVertex self.now.layout.cells placed p → IsInBox result p }
    {
        let Some(target) = self.linked.targets(cell)[placement] else {
            return wide();
        };
        match whole_hull(self.hulls[target].as_slice()) {
            Some(hull) => placed_box(&self.linked.placements(cell)[placement], hull),
            None => wide(),
        }
    }
}

// Whether each name that a reachable cell places is there.
fn ask_names(alloc: Global, linked: &Linked, found: &Found) -> Result<(), Refusal<TreeBad>>
    requires found { IsFound linked.now.cells found.now.top found.now.order.items found.now.cycle.items }
    ensures ok { OnOk result (IsKnown linked.now.cells found.now.top) }
    ensures err { IfFault result (IsFirstTreeFault linked.now.cells found.now.top) }
{
    if let Some(place) = find_unknown(linked, found.order.as_slice()) {
        let cell = copy_of(alloc, &linked.cells()[place.cell].name)?;
        let placement = &linked.placements(place.cell)[place.placement];
        let target = copy_of(alloc, &placement.target)?;
        return Err(Refusal::Fault(TreeBad::Unknown(cell, target)));
    }
    Ok(())
}

// Whether there is no cycle.
fn ask_cycle(alloc: Global, linked: &Linked, found: &Found) -> Result<(), Refusal<TreeBad>>
    requires top { found.now.top < length linked.now.cells }
    requires found { IsFound linked.now.cells found.now.top found.now.order.items found.now.cycle.items }
    requires known { IsKnown linked.now.cells found.now.top }
    ensures ok { OnOk result (IsAcyclic linked.now.cells found.now.top) }
    ensures order { OnOk result (IsOrder linked.now.cells found.now.top found.now.order.items) }
    ensures err { IfFault result (IsFirstTreeFault linked.now.cells found.now.top) }
{
    if found.cycle.is_empty() {
        return Ok(());
    }
    let names = names_of(alloc, linked.cells(), found.cycle.as_slice())?;
    Err(Refusal::Fault(TreeBad::Cycle(names)))
}

// Whether no chain has more than 64 cells.
fn ask_depth(alloc: Global, linked: &Linked, found: &Found) -> Result<(), Refusal<TreeBad>>
    requires top { found.now.top < length linked.now.cells }
    requires order { IsOrder linked.now.cells found.now.top found.now.order.items }
    requires known { IsKnown linked.now.cells found.now.top }
    requires acyclic { IsAcyclic linked.now.cells found.now.top }
    ensures ok { OnOk result (IsShallow linked.now.cells found.now.top) }
    ensures err { IfFault result (IsFirstTreeFault linked.now.cells found.now.top) }
{
    let heights = heights(alloc, linked, found.order.as_slice())?;
    if heights[found.top] < 65 {
        return Ok(());
    }
    let chain = deep_chain(alloc, linked, heights.as_slice(), found.top)?;
    let names = names_of(alloc, linked.cells(), chain.as_slice())?;
    Err(Refusal::Fault(TreeBad::Deep(names)))
}

// Whether no chain enlarges by more than 16.
fn ask_scale(alloc: Global, linked: &Linked, found: &Found) -> Result<(), Refusal<TreeBad>>
    requires grid { IsLayoutOnGrid linked.now }
    requires top { found.now.top < length linked.now.cells }
    requires order { IsOrder linked.now.cells found.now.top found.now.order.items }
    requires known { IsKnown linked.now.cells found.now.top }
    requires acyclic { IsAcyclic linked.now.cells found.now.top }
    requires shallow { IsShallow linked.now.cells found.now.top }
    ensures ok { OnOk result (IsMild linked.now.cells found.now.top) }
    ensures err { IfFault result (IsFirstTreeFault linked.now.cells found.now.top) }
{
    let farthest = farthest(alloc, linked, found.order.as_slice(), false)?;
    let Some(far) = farthest[found.top] else {
        return Ok(());
    };
    if far.factor <= 16 {
        return Ok(());
    }
    let scaled = scaled_chain(alloc, linked, farthest.as_slice(), found.top)?;
    let names = names_of(alloc, linked.cells(), scaled.cells.as_slice())?;
    Err(Refusal::Fault(TreeBad::Scale(scaled.factor as i64, names)))
}

// Whether no fixed shape is enlarged.
fn ask_fixed(alloc: Global, linked: &Linked, found: &Found) -> Result<(), Refusal<TreeBad>>
    requires grid { IsLayoutOnGrid linked.now }
    requires top { found.now.top < length linked.now.cells }
    requires order { IsOrder linked.now.cells found.now.top found.now.order.items }
    requires known { IsKnown linked.now.cells found.now.top }
    requires acyclic { IsAcyclic linked.now.cells found.now.top }
    requires shallow { IsShallow linked.now.cells found.now.top }
    requires mild { IsMild linked.now.cells found.now.top }
    ensures ok { OnOk result (KeepsFixed linked.now.cells found.now.top) }
    ensures err { IfFault result (IsFirstTreeFault linked.now.cells found.now.top) }
{
    let farthest = farthest(alloc, linked, found.order.as_slice(), true)?;
    let Some(far) = farthest[found.top] else {
        return Ok(());
    };
    if far.factor <= 1 {
        return Ok(());
    }
    let name = name_of(alloc, linked.cells(), far.cell)?;
    Err(Refusal::Fault(TreeBad::Fixed(far.factor as i64, name)))
}

// The first side of the box of all pairs that is beyond 2^30.
fn extent_of(hulls: &[PairHull]) -> Option<i64>
    ensures { result ≡ extent_in hulls.now }
{
    let Some(hull) = whole_hull(hulls) else {
        return None;
    };
    first_beyond(hull)
}

// The number of flattened shapes of the top cell, where each cell has at most 2^40.
fn ask_count(alloc: Global, linked: &Linked, found: &Found) -> Result<u64, Refusal<TreeBad>>
    requires top { found.now.top < length linked.now.cells }
    requires order { IsOrder linked.now.cells found.now.top found.now.order.items }
    requires known { IsKnown linked.now.cells found.now.top }
    requires acyclic { IsAcyclic linked.now.cells found.now.top }
    requires shallow { IsShallow linked.now.cells found.now.top }
    requires mild { IsMild linked.now.cells found.now.top }
    requires fixed { KeepsFixed linked.now.cells found.now.top }
    requires near { AreVerticesNear linked.now.cells found.now.top }
    ensures ok { OnOk result (IsCounted linked.now.cells found.now.top) }
    ensures count { IfOk result (λ count. count ≡ shape_count linked.now.cells found.now.top) }
    ensures err { IfFault result (IsFirstTreeFault linked.now.cells found.now.top) }
{
    match count_shapes(alloc, linked, found.order.as_slice())? {
        Counted::Each(counts) => Ok(counts[found.top]),
        Counted::Crowded(crowd) => {
            let name = name_of(alloc, linked.cells(), crowd.cell)?;
            Err(Refusal::Fault(TreeBad::Count(name, crowd.count)))
        }
    }
}

// The tree below the top cell, by what the search found.
fn tree_of(alloc: Global, linked: Linked, found: &Found) -> Result<Tree, Refusal<TreeBad>>
    requires grid { IsLayoutOnGrid linked }
    requires top { found.now.top < length linked.cells }
    requires found { IsFound linked.cells found.now.top found.now.order.items found.now.cycle.items }
    ensures layout { IfOk result (λ tree. tree.layout ≡ linked) }
    ensures top { IfOk result (λ tree. tree.top ≡ found.now.top) }
    ensures tree { OnOk result (IsTree linked.cells found.now.top) }
    ensures err { IfFault result (IsFirstTreeFault linked.cells found.now.top) }
{
    ask_names(alloc, &linked, found)?;
    ask_cycle(alloc, &linked, found)?;
    ask_depth(alloc, &linked, found)?;
    ask_scale(alloc, &linked, found)?;
    ask_fixed(alloc, &linked, found)?;
    let hulls = hulls(alloc, &linked, found.order.as_slice())?;
    if let Some(value) = extent_of(hulls[found.top].as_slice()) {
        return Err(Refusal::Fault(TreeBad::Extent(value)));
    }
    let shapes = ask_count(alloc, &linked, found)?;
    Ok(Tree {
        linked,
        top: found.top,
        hulls,
        shapes,
    })
}

// Looks for paths that are given again and again in reachable cells. Those that nothing reaches cost nothing.
fn find_copies(linked: &mut Linked, order: &[usize])
    requires { All (λ n. n < length linked.old.cells) order.now }
    ensures { linked.new ≡ linked.old }
{
    for cell in order {
        linked.find_copies(*cell);
    }
}

/// The tree of a layout below the cell of this name. The refusals are tried in the order in which `TreeBad` lists them,
/// and ask reachable cells alone.
pub fn resolve(alloc: Global, layout: Layout, top: &Name) -> Result<Tree, Refusal<TreeBad>>
    requires { IsLayoutOnGrid layout }
    ensures layout { IfOk result (λ tree. tree.layout ≡ layout) }
    ensures top { IfOk result (λ tree. cell_number layout.cells top.now ≡ Some tree.top) }
    ensures tree { IfOk result (λ tree. IsTree layout.cells tree.top) }

    // Each refusal keeps what is there, and nothing that is looked for before it is there.
    ensures no_top { (result ≡ Err (Fault NoTop)) ↔ (cell_number layout.cells top.now ≡ None) }
    ensures fault { (n : ℕ) → cell_number layout.cells top.now ≡ Some n → IfFault result (IsFirstTreeFault layout.cells n) }

    // What is there first is what is answered, or want of memory.
    ensures found { (n : ℕ) (bad : ABad) → cell_number layout.cells top.now ≡ Some n → IsFirstTreeFault layout.cells n bad
        → IsErrAnd result (IsForFault (λ answer. order_of answer ≡ order_of bad)) }

    // Where nothing that is refused is there, the layout is refused for want of memory alone.
    ensures accepted { (n : ℕ) → cell_number layout.cells top.now ≡ Some n → IsTree layout.cells n
        → IsOk result ⊎ (result ≡ Err NoMemory) }
{
    let Some(top) = number_of(layout.cells.as_slice(), top) else {
        return Err(Refusal::Fault(TreeBad::NoTop));
    };
    let mut linked = Linked::new(alloc, layout)?;
    let found = search_from(alloc, &linked, top)?;
    find_copies(&mut linked, found.order.as_slice());
    tree_of(alloc, linked, &found)
}
