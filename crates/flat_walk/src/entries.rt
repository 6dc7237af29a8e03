//! The pieces of a cell's shapes, entry by entry.
ghost use Rattle.std.specs.Prelude.{◌≡◌, ◌<◌, ◌≤◌, ◌+◌, ◌^◌, [], ◌∷◌, ◌++◌, IfSome, IsTrue, OnOk, OnErr, MatchOption, Some, drop, length, replicate, slice_get};
ghost use Rattle.half_grid.specs.Trapezoids.{IsShot};
ghost use Rattle.layout_model.specs.ShapeLists.{shape_in};
ghost use Rattle.flat_walk.specs.Hands.{first_count};
ghost use Rattle.flat_walk.specs.Kept.{Entry, alone, bare, bare_ones};
ghost use Rattle.flat_walk.specs.Entries.{own_frame, own_pieces, IsOwnShape};
ghost use Rattle.flat_walk.specs.PieceLists.{listed, upright, AreShots};
ghost use Rattle.flat_walk.specs.Stores.{entry_in};

use crate::codes::CodeList;
use crate::piece_lists::PieceList;
use crate::stores::{EntryRef, PieceStore};
use geo_stream::NoMemory;
use half_grid::{Frame, Line, Point, Trap};
use layout_model::{Outline, Points, ShapeRef, Shapes};
use std::alloc::Global;
use std::marker::Model;

/// The pieces of a cell's shapes, entry by entry. A layout may have millions of shapes, and billions that are copies of others
/// and have no pieces. An entry takes 4 bytes where it is that of a rectangle, whose one piece is had from the shape itself,
/// and 16 and what its pieces take where it isn't. Contracts see the entries: the pieces of a shape, and how many shapes
/// without pieces come after it.
#[derive(Drop)]
pub(crate) struct EntryTable<'t> {
    shapes: &'t Shapes,
    store: PieceStore,
    // For each entry 0, where it is the rectangle that the shape of the same number is, or 1 more than its number in the store.
    codes: CodeList,
}

impl<'t> Model for EntryTable<'t> {
    ghost use Rattle.std.specs.Prelude.{List};
    ghost use Rattle.flat_walk.specs.Kept.{Entry};
    ghost use Rattle.flat_walk.specs.Entries.{entries_from, AreCoded};

    ghost Value = { List Entry };

    ghost view = { λ table. entries_from table.shapes.now table.store 0 table.codes };

    ghost invariant = { λ table. AreCoded table.shapes.now table.store 0 table.codes };
}

// The box of the first and the third corner of a ring of four.
#[inline(always)]
fn frame_of_ring(ring: [Point; 5]) -> Frame
    ensures { own_frame ring ≡ Some result }
{
    let [a, _, c, _, _] = ring;
    Frame {
        x0: a.x.min(c.x),
        y0: a.y.min(c.y),
        x1: a.x.max(c.x),
        y1: a.y.max(c.y),
    }
}

// The box of two opposite corners, if the points are four corners.
#[inline(always)]
fn frame_of_points(points: &Points) -> Option<Frame>
    ensures { result ≡ own_frame points.now }
{
    match points.as_slice() {
        Some([a, b, c, d, e]) => Some(frame_of_ring([*a, *b, *c, *d, *e])),
        _ => None,
    }
}

// The box of two opposite corners, if the shape has four corners.
#[inline(always)]
fn own_frame(shape: ShapeRef<'_>) -> Option<Frame>
    ensures { result ≡ own_frame (shape_in shape.entry).points }
{
    match shape.outline() {
        Outline::Ring(ring) => Some(frame_of_ring(ring)),
        Outline::Kept(points) => frame_of_points(points),
    }
}

// Whether the trapezoid is the box, filled.
fn is_upright(trap: &Trap, frame: &Frame) -> bool
    ensures is { IsTrue result → trap.now ≡ upright frame.now }
    ensures shot { IsShot trap.now }
{
    if trap.y0() != frame.y0 || trap.y1() != frame.y1 {
        return false;
    }
    match (trap.left(), trap.right()) {
        (Line::Upright(left), Line::Upright(right)) => left == frame.x0 && right == frame.x1,
        _ => false,
    }
}

// Whether the pieces are the rectangle that the shape of this number is.
fn is_own(shapes: &Shapes, number: usize, traps: &[Trap]) -> bool
    ensures shape { IsTrue result → IsOwnShape shapes.now number }
    ensures pieces { IsTrue result → own_pieces (slice_get shapes.now number) ≡ traps.now }
{
    if traps.len() != 1 || number >= shapes.len() {
        return false;
    }
    match own_frame(shapes.get(number)) {
        Some(frame) => is_upright(&traps[0], &frame),
        None => false,
    }
}

// The one piece of the shape of this number.
#[inline(always)]
fn own(shapes: &Shapes, number: usize) -> PieceList<'_>
    requires { IsOwnShape shapes.now number }
    ensures list { listed result ≡ own_pieces (slice_get shapes.now number) }
    ensures shots { AreShots result }
{
    match own_frame(shapes.get(number)) {
        Some(frame) => PieceList::Only(frame),
        None => unreachable!(),
    }
}

impl<'t> EntryTable<'t> {
    /// No entries yet, of a cell with these shapes. It takes no memory.
    pub(crate) fn new(alloc: Global, shapes: &'t Shapes) -> EntryTable<'t>
        ensures { result ≡ [] }
    {
        EntryTable {
            shapes,
            store: PieceStore::new(alloc),
            codes: CodeList::new(alloc),
        }
    }

    /// How many entries there are.
    pub(crate) fn len(&self) -> usize
        ensures { result ≡ length self.now }
    {
        self.codes.len()
    }

    /// Takes memory for so many more entries.
    pub(crate) fn reserve(&mut self, count: usize) -> Result<(), NoMemory>
        ensures { self.new ≡ self.old }
    {
        self.codes.reserve(count)
    }

    /// Puts the pieces of a shape at the end. Refused, all is as before.
    pub(crate) fn push(&mut self, alloc: Global, traps: &[Trap]) -> Result<(), NoMemory>
        ensures ok { OnOk result (self.new ≡ self.old ++ alone traps.now ∷ []) }
        ensures err { OnErr result (self.new ≡ self.old) }
    {
        if is_own(self.shapes, self.codes.len(), traps) {
            self.codes.push(0)?;
            return Ok(());
        }
        self.store.push(alloc, traps)?;
        let code = self.store.len();
        self.codes.push(code)?;
        Ok(())
    }

    /// Puts a shape without pieces at the end, and so many more after it. Refused, all is as before.
    pub(crate) fn push_without(&mut self, more: usize) -> Result<(), NoMemory>
        ensures ok { OnOk result (self.new ≡ self.old ++ bare_ones more ∷ []) }
        ensures err { OnErr result (self.new ≡ self.old) }
    {
        self.store.push_without(more)?;
        let code = self.store.len();
        self.codes.push(code)?;
        Ok(())
    }

    /// Puts so many shapes without pieces at the end, each by an entry of its own. Refused, all is as before.
    pub(crate) fn push_each(&mut self, count: usize) -> Result<(), NoMemory>
        ensures ok { OnOk result (self.new ≡ self.old ++ replicate count bare) }
        ensures err { OnErr result (self.new ≡ self.old) }
    {
        self.store.push_without(0)?;
        let code = self.store.len();
        self.codes.push_each(code, count)?;
        Ok(())
    }

    /// An entry, if there are so many.
    #[inline(always)]
    pub(crate) fn get(&self, number: usize) -> Option<EntryRef<'_>>
        ensures there { MatchOption result (length self.now ≤ number) (λ entry. slice_get self.now number ≡ Some (entry_in entry)) }
        ensures shots { IfSome result (λ entry. AreShots entry.pieces) }
    {
        let code = self.codes.get(number)?;
        if code == 0 {
            return Some(EntryRef {
                pieces: own(self.shapes, number),
                more: 0,
            });
        }
        Some(self.store.get(code - 1))
    }

    /// How many shapes without pieces come after the first shape of an entry, or none where there is no entry.
    pub(crate) fn more(&self, number: usize) -> usize
        ensures { first_count (drop number self.now) ≡ result + 1 }
    {
        match self.codes.get(number) {
            None => 0,
            Some(0) => 0,
            Some(code) => self.store.get(code - 1).more,
        }
    }

    /// How many pieces an entry has, or none where there is no entry.
    pub(crate) fn count(&self, number: usize) -> usize
        ensures { (entry : Entry) → slice_get self.now number ≡ Some entry → result ≡ length entry.pieces }
    {
        match self.codes.get(number) {
            None => 0,
            Some(0) => 1,
            Some(code) => self.store.get(code - 1).pieces.len(),
        }
    }
}
