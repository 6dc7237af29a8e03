//! Boxes round what shapes and placements show.
ghost use Rattle.std.specs.Prelude.{◌≡◌, ◌^◌, ◌<◌, ◌∷◌, ℕ, All, IfOk, IfSome, MatchOption, [], length, slice_get, Some};
ghost use Rattle.half_grid.specs.Quads.{corners_of};
ghost use Rattle.half_grid.specs.Reach.{IsPointWithinReach};
ghost use Rattle.layout_model.specs.Hulls.{IsInBox};
ghost use Rattle.layout_model.specs.Layouts.{IsShapeOnGrid};
ghost use Rattle.layout_model.specs.ShapeLists.{shape_in};
ghost use Rattle.cell_tree.specs.Boxes.{joined_box, summed_box, IsBoxUpTo};
ghost use Rattle.cell_tree.specs.Cells.{shapes_at, placements_at};
ghost use Rattle.cell_tree.specs.Chains.{IsReachable};
ghost use Rattle.flat_walk.specs.Blocks.{boxes_in, boxed_in};
ghost use Rattle.flat_walk.specs.Boxes.{IsQuadIn, HasBox, AreBoxed, AreNear, AreSpots, AreAllBoxed, boxes_at};
ghost use Rattle.flat_walk.specs.EntryLists.{entries_in};
ghost use Rattle.flat_walk.specs.Kept.{all_lists, AreSingle};
ghost use Rattle.flat_walk.specs.PieceLists.{listed, AreShots};
ghost use Rattle.flat_walk.specs.Stores.{entry_in};
ghost use Rattle.flat_walk.specs.Tables.{lists_at};

use crate::blocks::BoxList;
use crate::entry_lists::{Entries, EntryList};
use crate::piece_lists::PieceList;
use crate::short_boxes::ShortBox;
use crate::stores::EntryRef;
use crate::tables::{Parts, shapes_of};
use cell_tree::Tree;
use geo_stream::NoMemory;
use half_grid::{Frame, Point, Quad};
use layout_model::{Cell, ShapeRef, Shapes};
use std::alloc::Global;
use std::marker::Model;

/// For shapes of a tree's cells a box round its pieces at all its places, and for each placement one round what it shows.
/// The boxes of a cell's shapes are those of the first ones, up to the first that many shapes without pieces follow. Contracts see two tables that hold, by cell, a list of boxes.
#[derive(Drop)]
pub struct Boxes {
    shapes: Vec<BoxList>,
    spots: Vec<BoxList>,
}

impl Model for Boxes {
    ghost use Rattle.flat_walk.specs.Boxes.{Boxed};

    ghost Value = { Boxed };

    ghost view = { λ boxes. record { shapes = boxes.shapes.items; spots = boxes.spots.items } };
}

/// The least box of two.
pub(crate) fn joined(a: Frame, b: Frame) -> Frame
    ensures { result ≡ joined_box a b }
{
    Frame {
        x0: a.x0.min(b.x0),
        y0: a.y0.min(b.y0),
        x1: a.x1.max(b.x1),
        y1: a.y1.max(b.y1),
    }
}

// The box of all sums of a point of the one and a point of the other.
fn summed(a: Frame, b: Frame) -> Frame
    requires a { IsBoxUpTo (2 ^ 44) a }
    requires b { IsBoxUpTo (2 ^ 44) b }
    ensures { result ≡ summed_box a b }
{
    Frame {
        x0: a.x0 + b.x0,
        y0: a.y0 + b.y0,
        x1: a.x1 + b.x1,
        y1: a.y1 + b.y1,
    }
}

// The least box of a point.
fn box_of(p: Point) -> Frame
    ensures inside { IsInBox result p }
    ensures near { IsPointWithinReach p → IsBoxUpTo (2 ^ 44) result }
{
    Frame {
        x0: p.x,
        y0: p.y,
        x1: p.x,
        y1: p.y,
    }
}

// The box of the corners.
fn box_of_quad(quad: &Quad) -> Frame
    ensures around { IsQuadIn result quad.now }
    ensures near { IsBoxUpTo (2 ^ 44) result }
{
    let left = joined(box_of(quad.a()), box_of(quad.b()));
    let right = joined(box_of(quad.c()), box_of(quad.d()));
    joined(left, right)
}

/// A box of pieces, if there are some.
pub(crate) fn box_of_pieces(pieces: PieceList<'_>) -> Option<Frame>
    requires { AreShots pieces }
    ensures around { MatchOption result (listed pieces.entry ≡ []) (λ around. All (λ piece. IsQuadIn around (corners_of piece)) (listed pieces.entry)) }
    ensures near { IfSome result (IsBoxUpTo (2 ^ 44)) }
{
    let mut rest = pieces;
    let Some(first) = rest.next() else {
        return None;
    };
    let mut around = box_of_quad(&first);
    while let Some(quad) = rest.next() {
        around = joined(around, box_of_quad(&quad));
    }
    Some(around)
}

// The box of a shape's pieces at all its places.
fn box_of_shape(shape: ShapeRef<'_>, pieces: PieceList<'_>) -> Frame
    requires grid { IsShapeOnGrid (shape_in shape) }
    requires shots { AreShots pieces }
    ensures { HasBox (shape_in shape.entry) (listed pieces.entry) result }
{
    match box_of_pieces(pieces) {
        Some(around) => summed(around, shape.spread()),
        None => box_of(Point { x: 0, y: 0 }),
    }
}

// An entry that is there.
fn entry_at(entries: EntryList<'_>, number: usize) -> EntryRef<'_>
    requires { number < length (entries_in entries) }
    ensures there { slice_get (entries_in entries.entry) number ≡ Some (entry_in result) }
    ensures shots { AreShots result.pieces }
{
    match entries.get(number) {
        Some(entry) => entry,
        None => unreachable!(),
    }
}

// The boxes of a cell's shapes, up to the first that has no entry of its own.
fn boxes_for(
    alloc: Global,
    shapes: &Shapes,
    entries: Entries<'_>,
) -> Result<Vec<ShortBox>, NoMemory>
    requires grid { All IsShapeOnGrid shapes.now }
    requires single { AreSingle entries.single (entries_in entries.list) }
    ensures { IfOk result (λ boxes. AreBoxed shapes.now (all_lists (entries_in entries.entry.list)) boxes.items) }
{
    let count = shapes.len().min(entries.single);
    let mut boxes = Vec::with_capacity(alloc, count)?;
    while boxes.len() < count {
        let number = boxes.len();
        let around = box_of_shape(shapes.get(number), entry_at(entries.list, number).pieces);
        boxes.push(ShortBox::round(around))?;
    }
    Ok(boxes)
}

// The boxes of a cell's shapes, and none for one that is bare.
fn own_boxes(
    alloc: Global,
    tree: &Tree,
    parts: &Parts<'_>,
    cell: usize,
) -> Result<Vec<ShortBox>, NoMemory>
    requires { cell < length tree.now.layout.cells }
    ensures { IfOk result (λ boxes. AreBoxed (shapes_at tree.now.layout.cells cell) (lists_at parts.now cell) boxes.items) }
{
    if tree.is_bare(cell) {
        return Ok(Vec::new(alloc));
    }
    boxes_for(alloc, shapes_of(tree.cells(), cell), parts.lists(cell))
}

// The boxes of the shapes of the tree's cells.
fn shape_boxes(alloc: Global, tree: &Tree, parts: &Parts<'_>) -> Result<Vec<BoxList>, NoMemory>
    ensures { IfOk result (λ lists. (n : ℕ) → AreBoxed (shapes_at tree.now.layout.cells n) (lists_at parts.now n) (boxes_at lists.items n)) }
{
    let count = tree.cells().len();
    let mut lists = Vec::with_capacity(alloc, count)?;
    while lists.len() < count {
        let cell = lists.len();
        let boxes = own_boxes(alloc, tree, parts, cell)?;
        let list = BoxList::of(alloc, boxes)?;
        lists.push(list)?;
    }
    Ok(lists)
}

// How many placements a cell has.
fn count_of(cells: &[Cell], cell: usize) -> usize
    requires { cell < length cells.now }
    ensures { result ≡ length (placements_at cells.now cell) }
{
    cells[cell].placements.as_slice().len()
}

// The boxes of a cell's placements.
fn spots_for(alloc: Global, tree: &Tree, cell: usize) -> Result<Vec<ShortBox>, NoMemory>
    requires { cell < length tree.now.layout.cells }
    ensures near { IfOk result (λ boxes. AreNear boxes.items) }
    ensures around { IfOk result (λ boxes. IsReachable tree.now.layout.cells tree.now.top cell
        → AreSpots tree.now.layout.cells (placements_at tree.now.layout.cells cell) boxes.items) }
{
    let count = count_of(tree.cells(), cell);
    let mut boxes = Vec::with_capacity(alloc, count)?;
    while boxes.len() < count {
        let number = boxes.len();
        let around = tree.spot(cell, number);
        boxes.push(ShortBox::round(around))?;
    }
    Ok(boxes)
}

// The boxes of the placements of the tree's cells.
fn spot_boxes(alloc: Global, tree: &Tree) -> Result<Vec<BoxList>, NoMemory>
    ensures { IfOk result (λ lists. (n : ℕ) → IsReachable tree.now.layout.cells tree.now.top n
        → AreSpots tree.now.layout.cells (placements_at tree.now.layout.cells n) (boxes_at lists.items n)) }
{
    let count = tree.cells().len();
    let mut lists = Vec::with_capacity(alloc, count)?;
    while lists.len() < count {
        let cell = lists.len();
        let boxes = spots_for(alloc, tree, cell)?;
        let list = BoxList::of(alloc, boxes)?;
        lists.push(list)?;
    }
    Ok(lists)
}

// Those of a cell, if there are some.
fn list_of(lists: &[BoxList], cell: usize) -> Option<&BoxList>
    ensures { boxes_in result ≡ boxes_at lists.now cell }
{
    match lists.get(cell) {
        Some(list) => Some(list),
        None => None,
    }
}

/// The boxes of a cell's shapes, if there are some.
pub(crate) fn shapes_in(boxes: Option<&Boxes>, cell: usize) -> Option<&BoxList>
    ensures { boxes_in result ≡ boxes_at (boxed_in boxes.entry).shapes cell }
{
    match boxes {
        Some(boxes) => boxes.shapes_of(cell),
        None => None,
    }
}

/// The boxes of a cell's placements, if there are some.
pub(crate) fn spots_in(boxes: Option<&Boxes>, cell: usize) -> Option<&BoxList>
    ensures { boxes_in result ≡ boxes_at (boxed_in boxes.entry).spots cell }
{
    match boxes {
        Some(boxes) => boxes.spots_of(cell),
        None => None,
    }
}

impl Boxes {
    /// The box of each shape and placement of the tree's cells.
    pub fn of(alloc: Global, tree: &Tree, parts: &Parts<'_>) -> Result<Boxes, NoMemory>
        ensures { IfOk result (λ boxes. AreAllBoxed tree.now.layout.cells tree.now.top parts.now boxes) }
    {
        let shapes = shape_boxes(alloc, tree, parts)?;
        let spots = spot_boxes(alloc, tree)?;
        Ok(Boxes { shapes, spots })
    }

    // The boxes of a cell's shapes, if there are some.
    fn shapes_of(&self, cell: usize) -> Option<&BoxList>
        ensures { boxes_in result ≡ boxes_at self.now.shapes cell }
    {
        list_of(self.shapes.as_slice(), cell)
    }

    // The boxes of a cell's placements, if there are some.
    fn spots_of(&self, cell: usize) -> Option<&BoxList>
        ensures { boxes_in result ≡ boxes_at self.now.spots cell }
    {
        list_of(self.spots.as_slice(), cell)
    }
}
