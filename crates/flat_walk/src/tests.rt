//! Placed triangles, by hand.

ghost use Rattle.std.specs.Prelude.{◌≡◌, ◌≤◌, ◌<◌, [], ◌∷◌, ◌++◌, pos, map, length, replicate, All};
ghost use Rattle.half_grid.specs.Quads.{ring_of, corners_of};
ghost use Rattle.half_grid.specs.Trapezoids.{trapezoid};
ghost use Rattle.half_grid.specs.declared.plane.Line.TheVariants.{Upright, Rising};
ghost use Rattle.layout_model.specs.Images.{IsOrient};
ghost use Rattle.layout_model.specs.Layouts.{IsMove, AreOffsets, IsShapeOnGrid, IsPlacementOnGrid, IsCellOnGrid, IsLayoutOnGrid};
ghost use Rattle.layout_model.specs.declared.pair.Pair.{Pair as APair};
ghost use Rattle.layout_model.specs.declared.shapes.Shape.{Shape as AShape};
ghost use Rattle.flat_walk.specs.Tables.{AreCut, with_lists};

use crate::kept_pieces::ShortPiece;
use crate::{Boxes, Parts, Walk};
use cell_tree::{Tree, resolve};
use geo_stream::{List, gather};
use half_grid::{Line, Point, Quad, Trap, Window};
use layout_model::{
    Cell, Counts, KeptShape, Layout, Name, Offsets, Orient, Pair, Placement, Shapes,
};
use std::alloc::Global;
use std::mem::size_of;
use std::process::Abort;

const METAL: Pair = Pair {
    layer: 1,
    datatype: 0,
};

// The triangle (0, 0), (8, 8), (8, 0), told as the corners of a trapezoid.
const RING: [Point; 5] = [
    Point { x: 0, y: 0 },
    Point { x: 8, y: 8 },
    Point { x: 8, y: 8 },
    Point { x: 8, y: 0 },
    Point { x: 0, y: 0 },
];

const OTHER: Pair = Pair {
    layer: 2,
    datatype: 0,
};

// From column to column, and from row to row.
const RIGHT: Point = Point { x: 20, y: 0 };

const UP: Point = Point { x: 0, y: 40 };

// Where cells are placed.
const ORIGIN: Point = Point { x: 0, y: 0 };

const CORNER: Point = Point { x: 200, y: 400 };

const ASIDE: Point = Point { x: 10, y: 20 };

fn point(x: i64, y: i64) -> Point
    ensures x { result.x ≡ x }
    ensures y { result.y ≡ y }
{
    Point { x, y }
}

fn orient(flip: bool, turns: u8, mag: u8) -> Orient
    ensures flip { result.flip ≡ flip }
    ensures turns { result.turns ≡ turns }
    ensures mag { result.mag ≡ mag }
{
    Orient { flip, turns, mag }
}

fn name(rt: &impl Abort, alloc: Global, bytes: &[u8]) -> Name
    ensures { result ≡ bytes.now }
{
    Name::new(alloc, bytes).expect(rt, "a name")
}

fn only<T: Drop>(rt: &impl Abort, alloc: Global, item: T) -> List<T>
    ensures { result ≡ item ∷ [] }
{
    let mut list = List::new(alloc);
    assert!(rt; list.push(item).is_ok(), "memory");
    list
}

fn with_shape(rt: &impl Abort, mut shapes: Shapes, shape: KeptShape) -> Shapes
    ensures { result ≡ shapes ++ shape ∷ [] }
{
    assert!(rt; shapes.push(shape).is_ok(), "memory");
    shapes
}

fn only_shape(rt: &impl Abort, alloc: Global, shape: KeptShape) -> Shapes
    ensures { result ≡ shape ∷ [] }
{
    with_shape(rt, Shapes::new(alloc), shape)
}

fn more(rt: &impl Abort, mut cells: List<Cell>, cell: Cell) -> List<Cell>
    ensures { result ≡ cells ++ cell ∷ [] }
{
    assert!(rt; cells.push(cell).is_ok(), "memory");
    cells
}

fn triangle(rt: &impl Abort, alloc: Global, pair: Pair, offsets: Offsets) -> KeptShape
    requires { AreOffsets offsets }
    ensures grid { IsShapeOnGrid result }
    ensures pair { result.pair ≡ pair }
    ensures points { result.points ≡ ring_of (corners_of (trapezoid (pos 0) (pos 8) (Rising (pos 0)) (Upright (pos 8)))) }
{
    KeptShape::new(alloc, pair, &RING, offsets).expect(rt, "a shape")
}

// An array of places.
fn places(rt: &impl Abort, alloc: Global, columns: u64, rows: u64) -> Offsets
    requires some_columns { 1 ≤ columns }
    requires few_columns { columns ≤ 1000 }
    requires some_rows { 1 ≤ rows }
    requires few_rows { rows ≤ 1000 }
    ensures { AreOffsets result }
{
    Offsets::grid(alloc, columns, rows, RIGHT, UP).expect(rt, "memory")
}

fn placed(
    rt: &impl Abort,
    alloc: Global,
    target: &[u8],
    orient: Orient,
    at: Point,
    offsets: Offsets,
) -> Placement
    requires orient { IsOrient orient }
    requires at { IsMove at }
    requires offsets { AreOffsets offsets }
    ensures { IsPlacementOnGrid result }
{
    Placement {
        target: name(rt, alloc, target),
        orient,
        at,
        offsets,
    }
}

fn cell(name: Name, shapes: Shapes, placements: List<Placement>) -> Cell
    requires shapes { All IsShapeOnGrid shapes }
    requires placements { All IsPlacementOnGrid placements }
    ensures grid { IsCellOnGrid result }
    ensures name { result.name ≡ name }
    ensures shapes { result.shapes ≡ shapes }
{
    Cell {
        name,
        shapes,
        placements,
    }
}

// C has shapes, B places C and A places B.
fn layout(
    rt: &impl Abort,
    alloc: Global,
    shapes: Shapes,
    inner: Placement,
    outer: Placement,
) -> Layout
    requires shapes { All IsShapeOnGrid shapes }
    requires inner { IsPlacementOnGrid inner }
    requires outer { IsPlacementOnGrid outer }
    ensures grid { IsLayoutOnGrid result }
    ensures shapes { map (λ cell. cell.shapes) result.cells ≡ shapes ∷ [] ∷ [] ∷ [] }
{
    let name_a = name(rt, alloc, b"A");
    let name_b = name(rt, alloc, b"B");
    let name_c = name(rt, alloc, b"C");
    let only_inner = only(rt, alloc, inner);
    let only_outer = only(rt, alloc, outer);
    let c = cell(name_c, shapes, List::new(alloc));
    let b = cell(name_b, Shapes::new(alloc), only_inner);
    let a = cell(name_a, Shapes::new(alloc), only_outer);
    let first = only(rt, alloc, c);
    let two = more(rt, first, b);
    let cells = more(rt, two, a);
    let counts = Counts {
        kept: 1,
        other: 0,
        texts: 0,
        nodes: 0,
        boxes: 0,
        properties: 0,
    };
    Layout { cells, counts }
}

fn tree(rt: &impl Abort, alloc: Global, shapes: Shapes, inner: Placement, outer: Placement) -> Tree
    requires shapes { All IsShapeOnGrid shapes }
    requires inner { IsPlacementOnGrid inner }
    requires outer { IsPlacementOnGrid outer }
    ensures { map (λ cell. cell.shapes) result.layout.cells ≡ shapes ∷ [] ∷ [] ∷ [] }
{
    let layout = layout(rt, alloc, shapes, inner, outer);
    let top = name(rt, alloc, b"A");
    resolve(alloc, layout, &top).expect(rt, "a tree")
}

// The triangle.
fn piece(rt: &impl Abort) -> Trap
    ensures { result ≡ trapezoid (pos 0) (pos 8) (Rising (pos 0)) (Upright (pos 8)) }
{
    Trap::new(0, 8, Line::Rising(0), Line::Upright(8)).expect(rt, "a trapezoid")
}

fn push(rt: &impl Abort, parts: &mut Parts<'_>, piece: &Trap)
    requires { 0 < length parts.old }
    ensures { parts.new ≡ with_lists parts.old 0 ((piece.now ∷ []) ∷ []) }
{
    assert!(rt; parts.push(0, &[*piece]).is_ok(), "memory");
}

fn push_none(rt: &impl Abort, parts: &mut Parts<'_>, count: usize)
    requires { 0 < length parts.old }
    ensures { parts.new ≡ with_lists parts.old 0 (replicate count []) }
{
    assert!(rt; parts.reserve(0, 2).is_ok(), "memory");
    assert!(rt; parts.push_none(0, count).is_ok(), "memory");
}

// The piece of the triangle.
fn cut<'t>(rt: &impl Abort, alloc: Global, tree: &'t Tree) -> Parts<'t>
    requires { (shape : AShape) × (map (λ cell. cell.shapes) tree.now.layout.cells ≡ (shape ∷ []) ∷ [] ∷ [] ∷ [])
        × (shape.points ≡ ring_of (corners_of (trapezoid (pos 0) (pos 8) (Rising (pos 0)) (Upright (pos 8))))) }
    ensures { (pair : APair) → AreCut tree.now.layout.cells tree.now.top result pair }
{
    let mut parts = Parts::new(alloc, tree).expect(rt, "memory");
    let whole = piece(rt);
    let _bottom = whole.y0();
    push(rt, &mut parts, &whole);
    parts
}

// The quadrilaterals of the window's rows.
fn shown(
    rt: &impl Abort,
    alloc: Global,
    tree: &Tree,
    parts: &Parts<'_>,
    pair: Pair,
    rows: (i64, i64),
) -> Vec<Quad>
    requires { AreCut tree.now.layout.cells tree.now.top parts.now pair }
{
    let window = Window::new(rows.0, rows.1).expect(rt, "a window");
    let walk = Walk::begin(alloc, tree, parts, pair, window).expect(rt, "memory");
    gather(alloc, walk).expect(rt, "memory")
}

// Whether these are the corners.
fn has_corners(quad: &Quad, corners: [(i64, i64); 4]) -> bool {
    let [a, b, c, d] = corners;
    quad.a() == point(a.0, a.1)
        && quad.b() == point(b.0, b.1)
        && quad.c() == point(c.0, c.1)
        && quad.d() == point(d.0, d.1)
}

const ALL: (i64, i64) = (-1_000_000, 1_000_000);

// How many quadrilaterals the rows have, and the first of them.
fn ask(
    rt: &impl Abort,
    alloc: Global,
    tree: &Tree,
    parts: &Parts<'_>,
    rows: (i64, i64),
    count: usize,
    first: [(i64, i64); 4],
)
    requires { (pair : APair) → AreCut tree.now.layout.cells tree.now.top parts.now pair }
{
    let quads = shown(rt, alloc, tree, parts, METAL, rows);
    assert_eq!(rt; quads.len(), count);
    if let Some(quad) = quads.first() {
        assert!(rt; has_corners(quad, first));
    }
}

// The triangle in a cell that is placed in a cell that is placed.
fn placed_twice(rt: &impl Abort, alloc: Global, inner: Placement, outer: Placement) -> Tree
    requires inner { IsPlacementOnGrid inner }
    requires outer { IsPlacementOnGrid outer }
    ensures { (shape : AShape) × (map (λ cell. cell.shapes) result.layout.cells ≡ (shape ∷ []) ∷ [] ∷ [] ∷ [])
        × (shape.points ≡ ring_of (corners_of (trapezoid (pos 0) (pos 8) (Rising (pos 0)) (Upright (pos 8))))) }
{
    let shape = triangle(rt, alloc, METAL, places(rt, alloc, 1, 1));
    tree(rt, alloc, only_shape(rt, alloc, shape), inner, outer)
}

// One place of a cell.
fn once(rt: &impl Abort, alloc: Global, target: &[u8], orient: Orient, at: Point) -> Placement
    requires orient { IsOrient orient }
    requires at { IsMove at }
    ensures { IsPlacementOnGrid result }
{
    placed(rt, alloc, target, orient, at, places(rt, alloc, 1, 1))
}

// An array of 3 by 2 of C.
fn array(rt: &impl Abort, alloc: Global, orient: Orient, at: Point) -> Placement
    requires orient { IsOrient orient }
    requires at { IsMove at }
    ensures { IsPlacementOnGrid result }
{
    placed(rt, alloc, b"C", orient, at, places(rt, alloc, 3, 2))
}

// An array of 3 by 2 of a cell that is mirrored and turned three times.
#[test]
fn a_window_cuts_an_array(rt: HostRuntime) {
    let alloc = rt.alloc();
    let inner = array(&rt, alloc, orient(true, 3, 1), CORNER);
    let outer = once(&rt, alloc, b"B", orient(false, 0, 1), ORIGIN);
    let tree = placed_twice(&rt, alloc, inner, outer);
    let parts = cut(&rt, alloc, &tree);
    let low = [(200, 400), (200, 392), (192, 392), (192, 392)];
    let high = [(200, 440), (200, 432), (192, 432), (192, 432)];
    ask(&rt, alloc, &tree, &parts, ALL, 6, low);
    ask(&rt, alloc, &tree, &parts, (399, 432), 3, low);
    ask(&rt, alloc, &tree, &parts, (400, 440), 3, high);
    ask(&rt, alloc, &tree, &parts, (400, 432), 0, high);
    ask(&rt, alloc, &tree, &parts, (395, 395), 0, low);
    let quads = shown(&rt, alloc, &tree, &parts, OTHER, ALL);
    assert!(rt; quads.is_empty());
}

// The array of 3 by 2 in a cell that is turned once.
#[test]
fn a_window_cuts_a_turned_array(rt: HostRuntime) {
    let alloc = rt.alloc();
    let inner = array(&rt, alloc, orient(false, 0, 1), ORIGIN);
    let outer = once(&rt, alloc, b"B", orient(false, 1, 1), ORIGIN);
    let tree = placed_twice(&rt, alloc, inner, outer);
    let parts = cut(&rt, alloc, &tree);
    let second = [(0, 20), (-8, 28), (-8, 28), (0, 28)];
    ask(&rt, alloc, &tree, &parts, (20, 28), 2, second);
    ask(&rt, alloc, &tree, &parts, (8, 20), 0, second);
    ask(&rt, alloc, &tree, &parts, (27, 41), 4, second);
}

// The mirrored and turned array in a cell that is enlarged by 3, mirrored or not, turned and moved.
fn ask_enlarged(
    rt: &impl Abort,
    alloc: Global,
    is_mirrored: bool,
    turns: u8,
    first: [(i64, i64); 4],
)
    requires { turns < 4 }
{
    let inner = array(rt, alloc, orient(true, 3, 1), CORNER);
    let outer = once(rt, alloc, b"B", orient(is_mirrored, turns, 3), ASIDE);
    let tree = placed_twice(rt, alloc, inner, outer);
    let parts = cut(rt, alloc, &tree);
    ask(rt, alloc, &tree, &parts, ALL, 6, first);
}

// The corners (200, 400), (192, 392), (200, 392) of the first triangle are enlarged to (600, 1200), (576, 1176),
// (600, 1176); the last step moves them by (10, 20).
#[test]
fn eight_orientations_enlarge_an_array(rt: HostRuntime) {
    let alloc = rt.alloc();
    let plain = [
        [(610, 1220), (610, 1196), (586, 1196), (586, 1196)],
        [(-1190, 620), (-1166, 620), (-1166, 596), (-1166, 596)],
        [(-590, -1180), (-590, -1156), (-566, -1156), (-566, -1156)],
        [(1210, -580), (1186, -580), (1186, -556), (1186, -556)],
    ];
    let mirrored = [
        [(610, -1180), (586, -1156), (586, -1156), (610, -1156)],
        [(1210, 620), (1186, 596), (1186, 596), (1186, 620)],
        [(-590, 1220), (-566, 1196), (-566, 1196), (-590, 1196)],
        [(-1190, -580), (-1166, -556), (-1166, -556), (-1166, -580)],
    ];
    for turns in 0..4u8 {
        ask_enlarged(&rt, alloc, false, turns, plain[usize::from(turns)]);
        ask_enlarged(&rt, alloc, true, turns, mirrored[usize::from(turns)]);
    }
}

// Two triangles on another pair and then one, by itself.
fn after_two(rt: &impl Abort, alloc: Global) -> Tree
    ensures { (a : AShape) × (b : AShape) × (shape : AShape) × (map (λ cell. cell.shapes) result.layout.cells ≡ (a ∷ b ∷ shape ∷ []) ∷ [] ∷ [] ∷ [])
        × (a.pair.layer ≡ 2) × (b.pair.layer ≡ 2)
        × (shape.points ≡ ring_of (corners_of (trapezoid (pos 0) (pos 8) (Rising (pos 0)) (Upright (pos 8))))) }
{
    let first = triangle(rt, alloc, OTHER, places(rt, alloc, 3, 2));
    let second = triangle(rt, alloc, OTHER, places(rt, alloc, 1, 1));
    let last = triangle(rt, alloc, METAL, places(rt, alloc, 1, 1));
    let two = with_shape(rt, only_shape(rt, alloc, first), second);
    let shapes = with_shape(rt, two, last);
    let inner = once(rt, alloc, b"C", orient(false, 0, 1), ORIGIN);
    let outer = once(rt, alloc, b"B", orient(false, 0, 1), ORIGIN);
    tree(rt, alloc, shapes, inner, outer)
}

// No pieces of the first two shapes, and that of the third.
fn cut_third<'t>(rt: &impl Abort, alloc: Global, tree: &'t Tree, spare: usize) -> Parts<'t>
    requires { (a : AShape) × (b : AShape) × (shape : AShape) × (map (λ cell. cell.shapes) tree.now.layout.cells ≡ (a ∷ b ∷ shape ∷ []) ∷ [] ∷ [] ∷ [])
        × (a.pair.layer ≡ 2) × (b.pair.layer ≡ 2)
        × (shape.points ≡ ring_of (corners_of (trapezoid (pos 0) (pos 8) (Rising (pos 0)) (Upright (pos 8))))) }
    ensures { AreCut tree.now.layout.cells tree.now.top result (record { layer = 1; datatype = 0 }) }
{
    let mut parts = Parts::with_spare(alloc, tree, spare).expect(rt, "memory");
    push_none(rt, &mut parts, 2);
    let whole = piece(rt);
    let _bottom = whole.y0();
    push(rt, &mut parts, &whole);
    parts
}

// How many quadrilaterals the rows of the triangle have, by boxes.
fn count_boxed(rt: &impl Abort, alloc: Global, tree: &Tree, parts: &Parts<'_>) -> usize
    requires { AreCut tree.now.layout.cells tree.now.top parts.now (record { layer = 1; datatype = 0 }) }
{
    let boxes = Boxes::of(alloc, tree, parts).expect(rt, "memory");
    let window = Window::new(0, 8).expect(rt, "a window");
    let walk = Walk::begin_boxed(alloc, tree, parts, &boxes, METAL, window).expect(rt, "memory");
    gather(alloc, walk).expect(rt, "memory").len()
}

// The pieces that a walk over the third shape gives, with boxes and without.
fn ask_third(rt: &impl Abort, alloc: Global, tree: &Tree, parts: &Parts<'_>)
    requires { AreCut tree.now.layout.cells tree.now.top parts.now (record { layer = 1; datatype = 0 }) }
{
    assert_eq!(rt; parts.count(), 1);
    assert_eq!(rt; shown(rt, alloc, tree, parts, METAL, ALL).len(), 1);
    assert_eq!(rt; count_boxed(rt, alloc, tree, parts), 1);
}

// The third shape alone has pieces, and so many shapes without have entries of their own.
fn walk_third(rt: &impl Abort, alloc: Global, spare: usize) {
    let tree = after_two(rt, alloc);
    let parts = cut_third(rt, alloc, &tree, spare);
    ask_third(rt, alloc, &tree, &parts);
}

// By one entry, and by an entry each.
#[test]
fn shapes_without_pieces_are_passed_by(rt: HostRuntime) {
    let alloc = rt.alloc();
    walk_third(&rt, alloc, 0);
    walk_third(&rt, alloc, 2);
}

#[test]
fn a_short_piece_takes_20_bytes(rt: HostRuntime) {
    assert_eq!(rt; size_of::<ShortPiece>(), 20);
}
