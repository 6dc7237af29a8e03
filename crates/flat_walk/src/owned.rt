//! The pieces of a cell's own shapes, where the cell is placed.
ghost use Rattle.std.specs.Prelude.{◌≡◌, ◌^◌, ◌<◌, ◌+◌, [], ◌∷◌, ◌++◌, map, min, Some, All, MatchOption, IfSome, IsTrue, length, ◌≤◌, drop, List, true, false};
ghost use Rattle.half_grid.specs.Quads.{IsQuad, corners_of};
ghost use Rattle.layout_model.specs.Images.{IsOrient};
ghost use Rattle.layout_model.specs.declared.pair.Pair.{Pair as APair};
ghost use Rattle.layout_model.specs.Layouts.{IsShapeOnGrid, IsWithin};
ghost use Rattle.layout_model.specs.ShapeLists.{shape_in};
ghost use Rattle.flat_walk.specs.Quads.{quad_image, moved_quad};
ghost use Rattle.flat_walk.specs.Rests.{IsMarkedQuad, Skips, Gives, places_rest, placed_rest};
ghost use Rattle.half_grid.specs.Trapezoids.{Trapezoid};
ghost use Rattle.flat_walk.specs.Blocks.{boxes_in};
ghost use Rattle.flat_walk.specs.Boxes.{AreBoxed};
ghost use Rattle.flat_walk.specs.EntryLists.{entries_in};
ghost use Rattle.flat_walk.specs.Kept.{all_lists, AreSingle};
ghost use Rattle.flat_walk.specs.PieceLists.{listed, AreShots};
ghost use Rattle.flat_walk.specs.Rises.{HasNoPlaceBefore};
ghost use Rattle.flat_walk.specs.Walks.{is_on};
ghost use Rattle.flat_walk.specs.Hands.{hand_list, IsHand, shapes_left, cursor_list, IsCursor, first_count, IsFirst, IsNext, steps_left, own_rest, IsOwn, IsLongRun};

use crate::blocks::{BoxList, next_in};
use crate::boxes::box_of_pieces;
use crate::entry_lists::{Entries, EntryList};
use crate::levels::rows_of;
use crate::piece_lists::PieceList;
use crate::rises::places_in;
use crate::rows::{Rows, has_row};
use crate::turning::{image, is_plain, moved};
use half_grid::{Point, Quad, Window};
use layout_model::{Orient, Pair, ShapeRef, Shapes};

// The places of a shape that has no more of them are gone through one by one.
const FEW: u64 = 4;

const ORIGIN: Point = Point { x: 0, y: 0 };

// Pieces of a shape at one of its offsets, and how they are enlarged, mirrored, turned and moved.
#[derive(Clone, Copy)]
pub(crate) struct Hand<'t> {
    pieces: PieceList<'t>,
    orient: Orient,
    at: Point,
}

// The shapes of a cell from one on with the pieces of each, boxes round what the cell's shapes show, and how the cell is
// placed. Of the first shape those offsets are left whose number is at least `place`.
#[derive(Clone, Copy)]
pub(crate) struct Cursor<'t> {
    // All of the cell's shapes.
    shapes: &'t Shapes,
    // The entries of those that are left. Each shape whose number is below `single` has an entry of its own.
    lists: EntryList<'t>,
    single: usize,
    boxes: Option<&'t BoxList>,
    // The number of the first shape that is left.
    number: usize,
    place: u64,
    orient: Orient,
    at: Point,
}

// What a placed cell's own shapes still show: the pieces in hand, and then those of shapes.
#[derive(Clone, Copy)]
pub(crate) struct Own<'t> {
    hand: Hand<'t>,
    cursor: Cursor<'t>,
}

// The quadrilateral moved.
#[inline(always)]
fn moved_quad(at: Point, quad: Quad) -> Quad
    requires at { IsWithin (2 ^ 60) at }
    requires quad { IsQuad (moved_quad at quad) }
    ensures { result ≡ moved_quad at quad }
{
    let a = moved(at, quad.a());
    let b = moved(at, quad.b());
    let c = moved(at, quad.c());
    let d = moved(at, quad.d());
    Quad::new(a, b, c, d)
}

// The image of corners. They run clockwise.
fn placed(quad: Quad, orient: Orient, at: Point) -> Quad
    requires orient { IsOrient orient }
    requires at { IsWithin (2 ^ 60) at }
    requires quad { IsQuad (quad_image orient at quad) }
    ensures { result ≡ quad_image orient at quad }
{
    if is_plain(orient) {
        return moved_quad(at, quad);
    }
    let a = image(orient, at, quad.a());
    let b = image(orient, at, quad.b());
    let c = image(orient, at, quad.c());
    let d = image(orient, at, quad.d());
    if orient.flip {
        return Quad::new(a, d, c, b);
    }
    Quad::new(a, b, c, d)
}

impl<'t> Hand<'t> {
    // No pieces, of a cell that is placed so.
    fn empty(orient: Orient, at: Point) -> Hand<'t>
        requires orient { IsOrient orient }
        requires near { IsWithin (2 ^ 54) at }
        ensures hand { IsHand result }
        ensures list { hand_list result ≡ [] }
    {
        Hand {
            pieces: PieceList::none(),
            orient,
            at,
        }
    }

    // The next piece that has a row in the window.
    fn next(&mut self, window: Window) -> Option<Quad>
        requires hand { IsHand self.old }
        requires quads { All IsQuad (hand_list self.old) }
        ensures hand { IsHand self.new }
        ensures gives { Gives window (map Some (hand_list self.old)) result (map Some (hand_list self.new)) }
    {
        while let Some(corners) = self.pieces.next() {
            let quad = placed(corners, self.orient, self.at);
            if has_row(&quad, window) {
                return Some(quad);
            }
        }
        None
    }
}

impl<'t> Cursor<'t> {
    // The pieces of the first shape at the current offset, where it has that offset.
    fn here(&self, shape: ShapeRef<'t>, pieces: PieceList<'t>) -> Option<Hand<'t>>
        requires orient { IsOrient self.now.orient }
        requires near { IsWithin (2 ^ 54) self.now.at }
        requires grid { IsShapeOnGrid (shape_in shape) }
        requires shots { AreShots pieces }
        ensures hand { IfSome result IsHand }
        ensures there { MatchOption result (length (shape_in shape.entry).offsets ≤ self.now.place) (λ hand. self.now.place < length (shape_in shape.entry).offsets) }
        ensures list { IfSome result (λ hand. (pair : APair) → is_on pair (shape_in shape.entry) ≡ true
            → map (quad_image self.now.orient self.now.at) (places_rest pair (shape_in shape.entry) (listed pieces.entry) self.now.place)
            ≡ hand_list hand ++ map (quad_image self.now.orient self.now.at) (places_rest pair (shape_in shape.entry) (listed pieces.entry) (self.now.place + 1))) }
    {
        if self.place >= shape.count() {
            return None;
        }
        let by = shape.nth(self.place);
        Some(Hand {
            pieces,
            orient: self.orient,
            at: image(self.orient, self.at, by),
        })
    }

    // The number of the shape after those of the first entry, or how many shapes there are. The entry is looked at only
    // where it may stand for more than one.
    fn after_first(&self) -> usize
        requires cursor { IsCursor self.now }
        requires few { self.now.number + 1 < 2 ^ 64 }
        requires inside { self.now.number < length self.now.shapes.now }
        ensures { result ≡ min (self.now.number + first_count (entries_in self.now.lists)) (length self.now.shapes.now) }
    {
        if self.number < self.single {
            return self.number + 1;
        }
        let next = (self.number + 1).saturating_add(self.lists.more());
        next.min(self.shapes.len())
    }

    // Goes on to the shape after those of the first entry.
    fn skip(&mut self)
        requires cursor { IsCursor self.old }
        requires few { self.old.number + 1 < 2 ^ 64 }
        requires inside { self.old.number < length self.old.shapes.now }
        ensures cursor { IsCursor self.new }
        ensures next { IsNext self.old self.new }
    {
        let next = self.after_first();
        self.lists = self.lists.after(1);
        self.number = next;
        self.place = 0;
    }

    // Goes on to the next place of the first shape, or to the next entry.
    fn advance(&mut self, shape: ShapeRef<'t>)
        requires cursor { IsCursor self.old }
        requires first { IsFirst self.old (shape_in shape) }
        requires inside { self.old.place < length (shape_in shape).offsets }
        ensures cursor { IsCursor self.new }
        ensures list { (pair : APair) → cursor_list pair self.new
            ≡ placed_rest self.old.orient self.old.at pair (shapes_left self.old) (all_lists (entries_in self.old.lists)) (self.old.place + 1) }
        ensures steps { steps_left self.new < steps_left self.old }
    {
        let count = shape.count();
        let next = self.place + 1;
        if next < count {
            self.place = next;
            return;
        }
        self.skip();
    }

    // The pieces of the first shape at the current offset, after which those at the next are left. Where it has none there,
    // none, and the next shape is then the first.
    fn step(&mut self, shape: ShapeRef<'t>) -> Hand<'t>
        requires cursor { IsCursor self.old }
        requires first { IsFirst self.old (shape_in shape) }
        ensures cursor { IsCursor self.new }
        ensures hand { IsHand result }
        ensures list { (pair : APair) → is_on pair (shape_in shape.entry) ≡ true → cursor_list pair self.old ≡ hand_list result ++ cursor_list pair self.new }
        ensures steps { steps_left self.new < steps_left self.old }
    {
        let Some(entry) = self.lists.first() else {
            self.skip();
            return Hand::empty(self.orient, self.at);
        };
        let Some(hand) = self.here(shape, entry.pieces) else {
            self.skip();
            return Hand::empty(self.orient, self.at);
        };
        self.advance(shape);
        hand
    }

    // Whether the first shape is on the pair and has a place left.
    fn has_more(&self, shape: ShapeRef<'t>, pair: Pair) -> bool
        ensures less { result ≡ false → (pieces : List Trapezoid) → places_rest pair (shape_in shape.entry) pieces self.now.place ≡ [] }
        ensures on { IsTrue result → is_on pair (shape_in shape.entry) ≡ true }
    {
        if shape.pair() != pair {
            return false;
        }
        if shape.count() <= self.place {
            return false;
        }
        true
    }

    // The first shape that is left, if there is one.
    fn first(&self) -> Option<ShapeRef<'t>>
        ensures { MatchOption result (shapes_left self.now ≡ []) (λ shape. IsFirst self.now (shape_in shape)) }
    {
        if self.number < self.shapes.len() {
            return Some(self.shapes.get(self.number));
        }
        None
    }

    // Passes by the shapes, from the first one on, that have boxes beside the window.
    fn pass_boxes(&mut self, window: Window)
        requires { IsCursor self.old }
        ensures cursor { IsCursor self.new }
        ensures skips { (pair : APair) → Skips window (map Some (cursor_list pair self.old)) (map Some (cursor_list pair self.new)) }
        ensures steps { steps_left self.new ≤ steps_left self.old }
        ensures shorter { length (shapes_left self.new) ≤ length (shapes_left self.old) }
    {
        let next = next_in(self.boxes, self.number, self.orient, self.at, window);
        if next == self.number {
            return;
        }
        if next > self.single {
            return;
        }
        let count = next - self.number;
        self.lists = self.lists.after(count);
        self.number = next;
        self.place = 0;
    }

    // Passes by the shapes, from the first one on, that have nothing more in the window. The first that is then left, if
    // there is one.
    fn pass_by(&mut self, pair: Pair, window: Window) -> Option<ShapeRef<'t>>
        requires { IsCursor self.old }
        ensures cursor { IsCursor self.new }
        ensures skips { Skips window (map Some (cursor_list pair self.old)) (map Some (cursor_list pair self.new)) }
        ensures steps { steps_left self.new ≤ steps_left self.old }
        ensures first { MatchOption result (cursor_list pair self.new ≡ []) (λ shape. IsFirst self.new (shape_in shape)) }
        ensures on { IfSome result (λ shape. is_on pair (shape_in shape) ≡ true) }
    {
        loop {
            self.pass_boxes(window);
            let Some(shape) = self.first() else {
                return None;
            };
            if self.has_more(shape, pair) {
                return Some(shape);
            }
            if self.lists.is_empty() {
                return None;
            }
            self.skip();
        }
    }
}

impl<'t> Cursor<'t> {
    // The number of the first shape's next place, from the current one on, at which its pieces may have rows in the window,
    // or how many places there are.
    fn onward(&self, shape: ShapeRef<'t>, rows: Rows, window: Window) -> u64
        requires orient { IsOrient self.now.orient }
        requires near { IsWithin (2 ^ 54) self.now.at }
        requires grid { IsShapeOnGrid (shape_in shape) }
        requires rows { IsWithin (2 ^ 58) (record { x = rows.low; y = rows.high }) }
        requires inside { self.now.place < length (shape_in shape).offsets }
        ensures later { self.now.place ≤ result }
        ensures inside { result ≤ length (shape_in shape.entry).offsets }
        ensures none { HasNoPlaceBefore window self.now.orient self.now.at rows (shape_in shape.entry).offsets self.now.place result }
    {
        let count = shape.count();
        let wanted = places_in(self.orient, self.at, ORIGIN, rows, window);
        match shape.first_in(wanted, self.place) {
            Some(place) => place,
            None => count,
        }
    }

    // The rows of the first shape's pieces as they are placed, where it has many places and is not past them.
    fn long_run(&self, shape: ShapeRef<'t>) -> Option<Rows>
        requires cursor { IsCursor self.now }
        requires first { IsFirst self.now (shape_in shape) }
        ensures { IfSome result (IsLongRun self.now (shape_in shape.entry)) }
    {
        let count = shape.count();
        if count <= FEW {
            return None;
        }
        if count <= self.place {
            return None;
        }
        let Some(entry) = self.lists.first() else {
            return None;
        };
        let Some(around) = box_of_pieces(entry.pieces) else {
            return None;
        };
        Some(rows_of(self.orient, around))
    }

    // Passes by the places of the first shape, from the current one on, at which it has nothing in the window.
    fn pass_places(&mut self, shape: ShapeRef<'t>, window: Window)
        requires cursor { IsCursor self.old }
        requires first { IsFirst self.old (shape_in shape) }
        ensures cursor { IsCursor self.new }
        ensures first { IsFirst self.new (shape_in shape.entry) }
        ensures skips { (pair : APair) → Skips window (map Some (cursor_list pair self.old)) (map Some (cursor_list pair self.new)) }
        ensures steps { steps_left self.new ≤ steps_left self.old }
    {
        let Some(rows) = self.long_run(shape) else {
            return;
        };
        self.place = self.onward(shape, rows, window);
    }
}

impl<'t> Own<'t> {
    /// All that a cell's own shapes show, where it is placed so.
    pub(crate) fn of(
        shapes: &'t Shapes,
        entries: Entries<'t>,
        boxes: Option<&'t BoxList>,
        orient: Orient,
        at: Point,
    ) -> Own<'t>
        requires orient { IsOrient orient }
        requires near { IsWithin (2 ^ 54) at }
        requires grid { All IsShapeOnGrid shapes.now }
        requires single { AreSingle entries.single (entries_in entries.list) }
        requires boxed { AreBoxed shapes.now (all_lists (entries_in entries.list)) (boxes_in boxes) }
        ensures own { IsOwn result }
        ensures list { (pair : APair) → own_rest pair result ≡ map Some (placed_rest orient at pair shapes.now (all_lists (entries_in entries.entry.list)) 0) }
    {
        Own {
            hand: Hand::empty(orient, at),
            cursor: Cursor {
                shapes,
                lists: entries.list,
                single: entries.single,
                boxes,
                number: 0,
                place: 0,
                orient,
                at,
            },
        }
    }

    /// Nothing, of a cell that is placed so.
    pub(crate) fn nothing(shapes: &'t Shapes, orient: Orient, at: Point) -> Own<'t>
        requires orient { IsOrient orient }
        requires near { IsWithin (2 ^ 54) at }
        requires grid { All IsShapeOnGrid shapes.now }
        ensures own { IsOwn result }
        ensures list { (pair : APair) → own_rest pair result ≡ [] }
    {
        let none = Entries {
            list: EntryList::none(),
            single: 0,
        };
        Own::of(shapes, none, None, orient, at)
    }

    /// The next piece that has a row in the window.
    pub(crate) fn next(&mut self, pair: Pair, window: Window) -> Option<Quad>
        requires own { IsOwn self.old }
        requires quads { All IsMarkedQuad (own_rest pair self.old) }
        ensures own { IsOwn self.new }
        ensures gives { Gives window (own_rest pair self.old) result (own_rest pair self.new) }
    {
        loop {
            if let Some(quad) = self.hand.next(window) {
                return Some(quad);
            }
            let Some(shape) = self.cursor.pass_by(pair, window) else {
                return None;
            };
            self.cursor.pass_places(shape, window);
            self.hand = self.cursor.step(shape);
        }
    }
}
