//! Lists of boxes in which those beside a window are passed by 64 at a time.
ghost use Rattle.std.specs.Prelude.{◌≡◌, ◌^◌, ◌<◌, ◌≤◌, ◌+◌, ℕ, false, IfOk, IfSome, Some, length, slice_get};
ghost use Rattle.half_grid.specs.Quads.{Corners};
ghost use Rattle.half_grid.specs.Windows.{RowRange};
ghost use Rattle.half_grid.specs.declared.plane.Point.{Point as APoint};
ghost use Rattle.layout_model.specs.declared.orient.Orient.{Orient as AnOrient};
ghost use Rattle.layout_model.specs.Images.{IsOrient};
ghost use Rattle.layout_model.specs.Layouts.{IsWithin};
ghost use Rattle.cell_tree.specs.Boxes.{IsBoxUpTo};
ghost use Rattle.flat_walk.specs.Boxes.{IsQuadIn, AreNear};
ghost use Rattle.flat_walk.specs.Quads.{quad_image, has_row_in};
ghost use Rattle.flat_walk.specs.Blocks.{AreRowsFor, IsRoundThose, AreBlocks, ShowNothing, boxes_in};

use crate::boxes::joined;
use crate::levels::{raised, rows_of};
use crate::rows::meet;
use crate::short_boxes::{KeptRows, ShortBox};
use crate::turning::is_plain;
use geo_stream::NoMemory;
use half_grid::{Frame, Point, Window};
use layout_model::Orient;
use std::alloc::Global;
use std::marker::Model;

/// Boxes in order, of 16 bytes each, and a box round each 64 of them. Contracts see the boxes.
#[derive(Drop)]
pub(crate) struct BoxList {
    boxes: Vec<ShortBox>,
    blocks: Vec<Frame>,
}

impl Model for BoxList {
    ghost use Rattle.std.specs.Prelude.{List};
    ghost use Rattle.half_grid.specs.declared.extent.Frame.{Frame};
    ghost use Rattle.flat_walk.specs.Boxes.{AreNear};
    ghost use Rattle.flat_walk.specs.Blocks.{AreBlocks};

    ghost Value = { List Frame };

    ghost view = { λ list. list.boxes.items };

    ghost invariant = { λ list. AreNear list.boxes.items × AreBlocks list.boxes.items list.blocks.items };
}

// How many boxes a block is round.
const BLOCK: usize = 64;

// The number after those of the 64 boxes from this number on that are there.
fn end_of(count: usize, start: usize) -> usize
    requires { start < count }
    ensures later { start < result }
    ensures inside { result ≤ count }
    ensures whole { (k : ℕ) → k < start + 64 → k < count → k < result }
{
    if count - start < BLOCK {
        return count;
    }
    start + BLOCK
}

fn box_at(boxes: &[ShortBox], number: usize) -> Frame
    requires { number < length boxes.now }
    ensures { slice_get boxes.now number ≡ Some result }
{
    boxes[number].frame()
}

// A box round those of the 64 boxes from this number on that are there.
fn block_from(boxes: &[ShortBox], start: usize) -> Frame
    requires inside { start < length boxes.now }
    requires near { AreNear boxes.now }
    ensures around { IsRoundThose boxes.now start (start + 64) result }
    ensures near { IsBoxUpTo (2 ^ 53) result }
{
    let end = end_of(boxes.len(), start);
    let mut around = box_at(boxes, start);
    let mut next = start + 1;
    while next < end {
        around = joined(around, box_at(boxes, next));
        next += 1;
    }
    around
}

// A box round each 64 boxes, of which there may be some more.
fn blocks_of(alloc: Global, boxes: &[ShortBox]) -> Result<Vec<Frame>, NoMemory>
    requires { AreNear boxes.now }
    ensures { IfOk result (λ blocks. AreBlocks boxes.now blocks.items) }
{
    let mut blocks = Vec::with_capacity(alloc, boxes.len() / BLOCK)?;
    let mut start = 0;
    while boxes.len() - start >= BLOCK {
        let block = block_from(boxes, start);
        blocks.push(block)?;
        start += BLOCK;
    }
    Ok(blocks)
}

// Whether what the box is round may have a row in the window, where its cell is placed so.
fn may_show(around: &Frame, orient: Orient, at: Point, window: Window) -> bool
    requires near { IsBoxUpTo (2 ^ 53) around.now }
    requires orient { IsOrient orient }
    requires at { IsWithin (2 ^ 54) at }
    ensures { result ≡ false → (q : Corners) → IsQuadIn around.now q → has_row_in window (quad_image orient at q) ≡ false }
{
    meet(raised(rows_of(orient, *around), at), window)
}

// The rows of the window in a cell that is only moved, where they are near enough.
fn rows_for(orient: Orient, at: Point, window: Window) -> Option<KeptRows>
    requires { IsOrient orient }
    ensures { IfSome result (AreRowsFor window orient at) }
{
    if !is_plain(orient) {
        return None;
    }
    KeptRows::round(
        window.y0().checked_sub(at.y)?,
        window.y1().checked_sub(at.y)?,
    )
}

// One of the boxes.
fn box_in(boxes: &[ShortBox], number: usize) -> &ShortBox
    requires { number < length boxes.now }
    ensures { slice_get boxes.now number ≡ Some result.now }
{
    &boxes[number]
}

// The number of the first box, from one on and before `end`, that may have some of the rows, or `end`.
fn first_among(boxes: &[ShortBox], from: usize, end: usize, rows: KeptRows) -> usize
    requires order { from ≤ end }
    requires inside { end ≤ length boxes.now }
    ensures later { from ≤ result }
    ensures before { result ≤ end }
    ensures none { (window : RowRange) (orient : AnOrient) (at : APoint) → AreRowsFor window orient at rows → ShowNothing window orient at boxes.now from result }
{
    let mut next = from;
    while next < end {
        if box_in(boxes, next).meets(rows) {
            return next;
        }
        next += 1;
    }
    next
}

// The number after the last box of the 64 among which this one is.
fn block_end(count: usize, number: usize) -> usize
    requires { number < count }
    ensures later { number < result }
    ensures inside { result ≤ count }
{
    end_of(count, number - number % BLOCK)
}

impl BoxList {
    /// The boxes in this order.
    pub(crate) fn of(alloc: Global, boxes: Vec<ShortBox>) -> Result<BoxList, NoMemory>
        requires { AreNear boxes.items }
        ensures { IfOk result (λ list. list ≡ boxes.items) }
    {
        let blocks = blocks_of(alloc, boxes.as_slice())?;
        Ok(BoxList { boxes, blocks })
    }

    // The number of this box, or after it where nothing in it has a row in the window.
    fn after_one(&self, number: usize, orient: Orient, at: Point, window: Window) -> usize
        requires number { number < length self.now }
        requires orient { IsOrient orient }
        requires at { IsWithin (2 ^ 54) at }
        ensures later { number ≤ result }
        ensures inside { result ≤ length self.now }
        ensures none { ShowNothing window orient at self.now number result }
    {
        let around = box_in(self.boxes.as_slice(), number).frame();
        if may_show(&around, orient, at, window) {
            return number;
        }
        number + 1
    }

    // A number from this one on, up to which nothing in the boxes has a row in the window: the number itself where the box may
    // have one, and else at most that after the 64 boxes among which it is.
    fn after(
        &self,
        number: usize,
        rows: Option<KeptRows>,
        orient: Orient,
        at: Point,
        window: Window,
    ) -> usize
        requires number { number < length self.now }
        requires rows { IfSome rows (AreRowsFor window orient at) }
        requires orient { IsOrient orient }
        requires at { IsWithin (2 ^ 54) at }
        ensures later { number ≤ result }
        ensures inside { result ≤ length self.now }
        ensures none { ShowNothing window orient at self.now number result }
    {
        if number % BLOCK == 0 {
            if let Some(block) = self.blocks.get(number / BLOCK) {
                if !may_show(block, orient, at, window) {
                    return number + BLOCK;
                }
            }
        }
        let Some(rows) = rows else {
            return self.after_one(number, orient, at, window);
        };
        let end = block_end(self.boxes.len(), number);
        first_among(self.boxes.as_slice(), number, end, rows)
    }

    // The number of the next box, from this one on, in which something may have a row in the window, or how many there are.
    fn next(&self, from: usize, orient: Orient, at: Point, window: Window) -> usize
        requires orient { IsOrient orient }
        requires at { IsWithin (2 ^ 54) at }
        ensures later { from ≤ result }
        ensures inside { from < result → result ≤ length self.now }
        ensures none { ShowNothing window orient at self.now from result }
    {
        let rows = rows_for(orient, at, window);
        let mut next = from;
        while next < self.boxes.len() {
            let after = self.after(next, rows, orient, at, window);
            if after == next {
                return next;
            }
            next = after;
        }
        next
    }
}

/// The number of the next box, from this one on, in which something may have a row in the window, where their cell is
/// placed so; or how many boxes there are. Past the boxes it is the number itself.
#[inline(always)]
pub(crate) fn next_in(
    boxes: Option<&BoxList>,
    from: usize,
    orient: Orient,
    at: Point,
    window: Window,
) -> usize
    requires orient { IsOrient orient }
    requires at { IsWithin (2 ^ 54) at }
    ensures later { from ≤ result }
    ensures inside { from < result → result ≤ length (boxes_in boxes.entry) }
    ensures none { ShowNothing window orient at (boxes_in boxes.entry) from result }
{
    match boxes {
        Some(list) => list.next(from, orient, at, window),
        None => from,
    }
}
