//! The least boxes of cells, pair by pair.
ghost use Rattle.std.specs.Prelude.{◌≡◌, ◌<◌, ◌^◌, ◌≤◌, ℕ, true, false, length, map, slice_get, get_or, slice_set};
ghost use Rattle.std.specs.Prelude.{insert, [], Some, None, All, IfOk, IfErr, OnOk, IfSome};
ghost use Rattle.std.specs.Option.{option_map};
ghost use Rattle.layout_model.specs.Images.{IsOrient};
ghost use Rattle.layout_model.specs.ShapeLists.{shape_in};
ghost use Rattle.layout_model.specs.Layouts.{IsLayoutOnGrid, IsShapeOnGrid, IsPlacementOnGrid};
ghost use Rattle.layout_model.specs.declared.pair.Pair.{Pair as APair};
ghost use Rattle.cell_tree.specs.Boxes.{IsLeastBox, IsBoxUpTo, joined_box};
ghost use Rattle.cell_tree.specs.Cells.{PlacesAt};
ghost use Rattle.cell_tree.specs.Chains.{IsShort};
ghost use Rattle.cell_tree.specs.Orders.{IsUpward, IsAmong};
ghost use Rattle.cell_tree.specs.HullTables.{ShapeVertex, IsMoveOf, is_before, hull_in, AreInOrder, wider, widest};
ghost use Rattle.cell_tree.specs.HullTables.{widened_list, whole_from, placed_hull, hulls_at, AreFirstHulls, AreOwnHulls};
ghost use Rattle.cell_tree.specs.HullTables.{AreCellHulls, AreHulls, AreOnlyAmong, HasNearVertices};
ghost use Rattle.cell_tree.specs.declared.hulls.PairHull.{PairHull as APairHull};
ghost use Rattle.half_grid.specs.declared.extent.Frame.{Frame as AFrame};

use crate::boxes::{joined, moved, oriented, summed};
use crate::linked::Linked;
use geo_stream::NoMemory;
use half_grid::Frame;
use layout_model::{Orient, Pair, Placement, ShapeRef, Shapes};
use std::alloc::Global;

/// A pair, and the least box of what is on it.
#[derive(Clone, Copy, Debug)]
pub(crate) struct PairHull {
    pub(crate) pair: Pair,
    pub(crate) hull: Frame,
}

// Whether the first pair comes before the other: by the layer, those of one layer by the datatype.
fn is_before(a: Pair, b: Pair) -> bool
    ensures { result ≡ is_before a b }
{
    if a.layer < b.layer {
        return true;
    }
    if b.layer < a.layer {
        return false;
    }
    a.datatype < b.datatype
}

// How many boxes stand before the pair.
fn rank(hulls: &[PairHull], pair: Pair) -> usize
    requires { AreInOrder hulls.now }
    ensures within { result ≤ length hulls.now }
    ensures below { (j : ℕ) (here : APairHull) → j < result → slice_get hulls.now j ≡ Some here → is_before here.pair pair ≡ true }
    ensures above { (j : ℕ) (here : APairHull) → result ≤ j → slice_get hulls.now j ≡ Some here → is_before here.pair pair ≡ false }
{
    let mut low = 0;
    let mut high = hulls.len();
    while low < high {
        let middle = low + (high - low) / 2;
        if is_before(hulls[middle].pair, pair) {
            low = middle + 1;
        } else {
            high = middle;
        }
    }
    low
}

// The place of the box of a pair, or the place where it is to be put.
fn place_of(hulls: &[PairHull], pair: Pair) -> Result<usize, usize>
    requires { AreInOrder hulls.now }
    ensures ok { IfOk result (λ k. (k < length hulls.now)
        × ((by : AFrame) → widened_list hulls.now pair by ≡ slice_set hulls.now k
        (record { pair = pair; hull = joined_box (get_or hulls.now k (record { pair = pair; hull = by })).hull by }))
        × ((here : APairHull) → hull_in hulls.now pair ≡ Some (get_or hulls.now k here).hull)) }
    ensures err { IfErr result (λ k. (k ≤ length hulls.now) × (hull_in hulls.now pair ≡ None)
        × ((by : AFrame) → widened_list hulls.now pair by ≡ insert hulls.now k (record { pair = pair; hull = by }))) }
{
    let place = rank(hulls, pair);
    if place == hulls.len() {
        return Err(place);
    }
    if hulls[place].pair == pair {
        return Ok(place);
    }
    Err(place)
}

/// The box of a pair.
pub(crate) fn hull_on(hulls: &[PairHull], pair: Pair) -> Option<Frame>
    requires { AreInOrder hulls.now }
    ensures { result ≡ hull_in hulls.now pair }
{
    match place_of(hulls, pair) {
        Ok(k) => Some(hulls[k].hull),
        Err(_missing) => None,
    }
}

fn wider(hull: Option<Frame>, by: Frame) -> Frame
    ensures { result ≡ wider hull by }
{
    match hull {
        Some(hull) => joined(hull, by),
        None => by,
    }
}

/// The box of all pairs.
pub(crate) fn whole_hull(hulls: &[PairHull]) -> Option<Frame>
    ensures { result ≡ whole_from None hulls.now }
{
    let mut hull = None;
    for here in hulls {
        hull = Some(wider(hull, here.hull));
    }
    hull
}

// Widens the box of a pair by another.
fn widen(hulls: &mut Vec<PairHull>, pair: Pair, by: Frame) -> Result<(), NoMemory>
    requires { AreInOrder hulls.old.items }
    ensures { OnOk result (hulls.new.items ≡ widened_list hulls.old.items pair by) }
{
    match place_of(hulls.as_slice(), pair) {
        Ok(k) => {
            let hull = joined(hulls[k].hull, by);
            hulls[k] = PairHull { pair, hull };
        }
        Err(k) => hulls.insert(k, PairHull { pair, hull: by })?,
    }
    Ok(())
}

// The box of a shape at all its offsets.
fn shape_hull(shape: ShapeRef<'_>) -> Frame
    requires { IsShapeOnGrid (shape_in shape) }
    ensures { IsLeastBox (ShapeVertex (shape_in shape.entry)) result }
{
    let outline = shape.hull();
    let moves = shape.spread();
    summed(outline, moves)
}

// Widens the boxes of the shapes before a number by those of the shapes from there on up to another.
fn widen_between(
    hulls: &mut Vec<PairHull>,
    shapes: &Shapes,
    from: usize,
    end: usize,
) -> Result<(), NoMemory>
    requires grid { All IsShapeOnGrid shapes.now }
    requires order { from ≤ end }
    requires within { end ≤ length shapes.now }
    requires old { AreFirstHulls shapes.now from hulls.old.items }
    ensures { OnOk result (AreFirstHulls shapes.now end hulls.new.items) }
{
    for number in from..end {
        let shape = shapes.get(number);
        widen(hulls, shape.pair(), shape_hull(shape))?;
    }
    Ok(())
}

// The boxes of shapes. Those that are given again and again are gone through once.
fn own_hulls(alloc: Global, shapes: &Shapes) -> Result<Vec<PairHull>, NoMemory>
    requires { All IsShapeOnGrid shapes.now }
    ensures { IfOk result (λ hulls. AreOwnHulls shapes.now hulls.items) }
{
    let many = shapes.len();
    let mut hulls = Vec::new(alloc);
    let mut k = 0;
    while k < many {
        let copies = shapes.copies_at(k);
        widen_between(&mut hulls, shapes, k, k + copies.period)?;
        k += copies.times * copies.period;
    }
    Ok(hulls)
}

// Widens boxes by those of a placed cell.
fn widen_by_placed(
    hulls: &mut Vec<PairHull>,
    orient: Orient,
    moves: Frame,
    placed: &[PairHull],
) -> Result<(), NoMemory>
    requires orient { IsOrient orient }
    requires moves { IsBoxUpTo (2 ^ 43) moves }
    requires placed { All (λ here. IsBoxUpTo (2 ^ 53) here.hull) placed.now }
    requires order { AreInOrder placed.now }
    requires old { AreInOrder hulls.old.items }
    ensures order { OnOk result (AreInOrder hulls.new.items) }
    ensures hulls { (pair : APair) → OnOk result (hull_in hulls.new.items pair
        ≡ widest (hull_in hulls.old.items pair) (option_map (placed_hull orient moves) (hull_in placed.now pair))) }
{
    for there in placed {
        widen(
            hulls,
            there.pair,
            summed(oriented(orient, there.hull), moves),
        )?;
    }
    Ok(())
}

/// The box of a placement's moves.
pub(crate) fn moves_of(placement: &Placement) -> Frame
    requires { IsPlacementOnGrid placement.now }
    ensures least { IsLeastBox (IsMoveOf placement.now) result }
    ensures small { IsBoxUpTo (2 ^ 43) result }
{
    moved(placement.at, placement.offsets.hull())
}

// The boxes of a placed cell, if there is one.
fn placed_hulls(hulls: &[Vec<PairHull>], target: Option<usize>) -> &[PairHull]
    requires { IfSome target (λ m. m < length hulls.now) }
    ensures { result.now ≡ hulls_at (map (λ list. list.items) hulls.now) target }
{
    match target {
        Some(target) => hulls[target].as_slice(),
        None => &[],
    }
}

// The boxes of a cell, by those of the cells that it places.
fn hulls_of(
    alloc: Global,
    linked: &Linked,
    cell: usize,
    hulls: &[Vec<PairHull>],
) -> Result<Vec<PairHull>, NoMemory>
    requires cell { cell < length linked.now.cells }
    requires long { length hulls.now ≡ length linked.now.cells }
    requires grid { IsLayoutOnGrid linked.now }
    requires short { IsShort linked.now.cells 64 cell }
    requires placed { (k m : ℕ) → PlacesAt linked.now.cells cell k m → AreCellHulls linked.now.cells m (get_or (map (λ list. list.items) hulls.now) m []) }
    requires small { (k m : ℕ) → PlacesAt linked.now.cells cell k m → HasNearVertices linked.now.cells m }
    ensures { IfOk result (λ own. AreCellHulls linked.now.cells cell own.items) }
{
    let mut own = own_hulls(alloc, linked.shapes(cell))?;
    let placements = linked.placements(cell);
    for (k, target) in linked.targets(cell).iter().enumerate() {
        let placement = &placements[k];
        let placed = placed_hulls(hulls, *target);
        widen_by_placed(&mut own, placement.orient, moves_of(placement), placed)?;
    }
    Ok(own)
}

// So many empty lists.
fn empty_lists(alloc: Global, count: usize) -> Result<Vec<Vec<PairHull>>, NoMemory>
    ensures long { IfOk result (λ lists. length lists.items ≡ count) }
    ensures empty { IfOk result (λ lists. (n : ℕ) → get_or (map (λ list. list.items) lists.items) n [] ≡ []) }
{
    let mut lists = Vec::with_capacity(alloc, count)?;
    for _n in 0..count {
        lists.push(Vec::new(alloc))?;
    }
    Ok(lists)
}

/// The boxes of each of the cells of the order.
pub(crate) fn hulls(
    alloc: Global,
    linked: &Linked,
    order: &[usize],
) -> Result<Vec<Vec<PairHull>>, NoMemory>
    requires grid { IsLayoutOnGrid linked.now }
    requires order { IsUpward linked.now.cells order.now }
    requires short { (n : ℕ) → IsAmong order.now n → IsShort linked.now.cells 64 n }
    requires near { (n : ℕ) → IsAmong order.now n → HasNearVertices linked.now.cells n }
    ensures long { IfOk result (λ hulls. length hulls.items ≡ length linked.now.cells) }
    ensures hulls { IfOk result (λ hulls. AreHulls linked.now.cells order.now (map (λ list. list.items) hulls.items)) }
    ensures only { IfOk result (λ hulls. AreOnlyAmong order.now (map (λ list. list.items) hulls.items)) }
{
    let mut hulls = empty_lists(alloc, linked.cells().len())?;
    for cell in order {
        let own = hulls_of(alloc, linked, *cell, hulls.as_slice())?;
        hulls[*cell] = own;
    }
    Ok(hulls)
}
