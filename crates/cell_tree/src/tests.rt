//! Each refusal on a small layout, and what a tree says.
ghost use Rattle.std.specs.Prelude.{◌≡◌, ◌<◌, ◌≤◌, [], ◌∷◌, ◌++◌, All, IsTrue};
ghost use Rattle.layout_model.specs.Images.{IsOrient};
ghost use Rattle.layout_model.specs.Layouts.{IsMove, AreOffsets, IsShapeOnGrid, IsPlacementOnGrid, IsCellOnGrid, IsLayoutOnGrid};

use crate::linked::number_of;
use crate::{Tree, TreeBad, resolve};
use geo_stream::{List, Refusal};
use half_grid::{Frame, Point};
use layout_model::{
    Cell, Counts, KeptShape, Layout, Name, Offsets, Orient, Pair, Placement, Shape, Shapes,
};
use std::alloc::Global;
use std::process::Abort;

const METAL: Pair = Pair {
    layer: 1,
    datatype: 0,
};

fn point(x: i64, y: i64) -> Point
    ensures x { result.x ≡ x }
    ensures y { result.y ≡ y }
{
    Point { x, y }
}

fn orient(flip: bool, turns: u8, mag: u8) -> Orient
    ensures flip { result.flip ≡ flip }
    ensures turns { result.turns ≡ turns }
    ensures mag { result.mag ≡ mag }
{
    Orient { flip, turns, mag }
}

fn name(rt: &impl Abort, alloc: Global, bytes: &[u8]) -> Name
    ensures { result ≡ bytes.now }
{
    Name::new(alloc, bytes).expect(rt, "a name")
}

fn only<T: Drop>(rt: &impl Abort, alloc: Global, item: T) -> List<T>
    ensures { result ≡ item ∷ [] }
{
    let mut list = List::new(alloc);
    assert!(rt; list.push(item).is_ok(), "memory");
    list
}

fn only_shape(rt: &impl Abort, alloc: Global, shape: KeptShape) -> Shapes
    ensures { result ≡ shape ∷ [] }
{
    let mut shapes = Shapes::new(alloc);
    assert!(rt; shapes.push(shape).is_ok(), "memory");
    shapes
}

const RING: [Point; 5] = [
    Point { x: 0, y: 0 },
    Point { x: 20, y: 0 },
    Point { x: 20, y: 20 },
    Point { x: 0, y: 20 },
    Point { x: 0, y: 0 },
];

const PLACES: [Point; 1] = [Point { x: 0, y: 0 }];

// A square of 10 grid steps, which may be fixed.
fn drawn(rt: &impl Abort, alloc: Global, fixed: bool) -> Shape
    ensures { IsShapeOnGrid result }
{
    let places = Offsets::list(alloc, &PLACES).expect(rt, "memory");
    let mut shape = Shape::new(alloc, METAL, &RING, places).expect(rt, "a shape");
    shape.fixed = fixed;
    shape
}

fn kept(rt: &impl Abort, alloc: Global, shape: Shape) -> KeptShape
    ensures { result ≡ shape }
{
    KeptShape::of(alloc, shape).expect(rt, "memory")
}

// The same, as a cell keeps it.
fn square(rt: &impl Abort, alloc: Global, fixed: bool) -> KeptShape
    ensures { IsShapeOnGrid result }
{
    let shape = drawn(rt, alloc, fixed);
    kept(rt, alloc, shape)
}

// The cell of this name, placed once at (40, 0), enlarged so many times.
fn placed(rt: &impl Abort, alloc: Global, target: &[u8], mag: u8) -> Placement
    requires some { 1 ≤ mag }
    requires few { mag ≤ 16 }
    ensures { IsPlacementOnGrid result }
{
    Placement {
        target: name(rt, alloc, target),
        orient: orient(false, 0, mag),
        at: point(40, 0),
        offsets: Offsets::list(alloc, &[point(0, 0)]).expect(rt, "memory"),
    }
}

fn more(rt: &impl Abort, mut cells: List<Cell>, cell: Cell) -> List<Cell>
    ensures { result ≡ cells ++ cell ∷ [] }
{
    assert!(rt; cells.push(cell).is_ok(), "memory");
    cells
}

fn cell(name: Name, shapes: Shapes, placements: List<Placement>) -> Cell
    requires shapes { All IsShapeOnGrid shapes }
    requires placements { All IsPlacementOnGrid placements }
    ensures grid { IsCellOnGrid result }
    ensures name { result.name ≡ name }
{
    Cell {
        name,
        shapes,
        placements,
    }
}

// A places B, enlarged so many times; B is of these shapes and placements; and C is a square.
fn layout(
    rt: &impl Abort,
    alloc: Global,
    mag: u8,
    shapes: Shapes,
    placements: List<Placement>,
) -> Layout
    requires some { 1 ≤ mag }
    requires few { mag ≤ 16 }
    requires shapes { All IsShapeOnGrid shapes }
    requires placements { All IsPlacementOnGrid placements }
    ensures { IsLayoutOnGrid result }
{
    let name_a = name(rt, alloc, b"A");
    let name_b = name(rt, alloc, b"B");
    let name_c = name(rt, alloc, b"C");
    let only_placed = only(rt, alloc, placed(rt, alloc, b"B", mag));
    let only_square = only_shape(rt, alloc, square(rt, alloc, false));
    let a = cell(name_a, Shapes::new(alloc), only_placed);
    let b = cell(name_b, shapes, placements);
    let c = cell(name_c, only_square, List::new(alloc));
    let first = only(rt, alloc, a);
    let two = more(rt, first, b);
    let cells = more(rt, two, c);
    let counts = Counts {
        kept: 1,
        other: 0,
        texts: 0,
        nodes: 0,
        boxes: 0,
        properties: 0,
    };
    Layout { cells, counts }
}

// B is a square, which may be fixed.
fn of_square(rt: &impl Abort, alloc: Global, mag: u8, fixed: bool) -> Layout
    requires some { 1 ≤ mag }
    requires few { mag ≤ 16 }
    ensures { IsLayoutOnGrid result }
{
    let shapes = only_shape(rt, alloc, square(rt, alloc, fixed));
    layout(rt, alloc, mag, shapes, List::new(alloc))
}

// B places the cell of this name, enlarged so many times.
fn of_placement(rt: &impl Abort, alloc: Global, mag: u8, target: &[u8], inner: u8) -> Layout
    requires some { 1 ≤ mag }
    requires few { mag ≤ 16 }
    requires inner_some { 1 ≤ inner }
    requires inner_few { inner ≤ 16 }
    ensures { IsLayoutOnGrid result }
{
    let placements = only(rt, alloc, placed(rt, alloc, target, inner));
    layout(rt, alloc, mag, Shapes::new(alloc), placements)
}

#[test]
fn fixed_shapes(rt: HostRuntime) {
    let alloc = rt.alloc();
    let top = name(&rt, alloc, b"A");
    let tree = resolve(alloc, of_square(&rt, alloc, 1, true), &top);
    assert!(rt; tree.is_ok());
    let refused = resolve(alloc, of_square(&rt, alloc, 2, true), &top);
    assert!(rt; matches!(refused, Err(Refusal::Fault(TreeBad::Fixed(2, _)))));
    let tree = resolve(alloc, of_square(&rt, alloc, 16, false), &top);
    assert!(rt; tree.is_ok());
}

#[test]
fn factors_over_16(rt: HostRuntime) {
    let alloc = rt.alloc();
    let top = name(&rt, alloc, b"A");
    let tree = resolve(alloc, of_placement(&rt, alloc, 4, b"C", 4), &top);
    assert!(rt; tree.is_ok());
    let refused = resolve(alloc, of_placement(&rt, alloc, 8, b"C", 4), &top);
    assert!(rt; matches!(refused, Err(Refusal::Fault(TreeBad::Scale(32, _)))));
}

#[test]
fn names_and_cycles(rt: HostRuntime) {
    let alloc = rt.alloc();
    let top = name(&rt, alloc, b"A");
    let refused = resolve(alloc, of_placement(&rt, alloc, 1, b"D", 1), &top);
    assert!(rt; matches!(refused, Err(Refusal::Fault(TreeBad::Unknown(_, _)))));
    let refused = resolve(alloc, of_placement(&rt, alloc, 1, b"A", 1), &top);
    assert!(rt; matches!(refused, Err(Refusal::Fault(TreeBad::Cycle(_)))));
    // The same cycle, which C doesn't reach.
    let top = name(&rt, alloc, b"C");
    let tree = resolve(alloc, of_placement(&rt, alloc, 1, b"A", 1), &top);
    assert!(rt; tree.is_ok());
    let top = name(&rt, alloc, b"D");
    let refused = resolve(alloc, of_square(&rt, alloc, 1, false), &top);
    assert!(rt; matches!(refused, Err(Refusal::Fault(TreeBad::NoTop))));
}

// The layout of no cell.
fn no_cells(alloc: Global) -> Layout
    ensures { IsLayoutOnGrid result }
{
    let counts = Counts {
        kept: 1,
        other: 2,
        texts: 3,
        nodes: 4,
        boxes: 5,
        properties: 6,
    };
    Layout {
        cells: List::new(alloc),
        counts,
    }
}

// The layout with one more cell, whose name is another one.
fn with_cell(rt: &impl Abort, layout: Layout, cell: Cell) -> Layout
    requires layout { IsLayoutOnGrid layout }
    requires cell { IsCellOnGrid cell }
    ensures { IsLayoutOnGrid result }
{
    let number = number_of(layout.cells.as_slice(), &cell.name);
    assert!(rt; number.is_none(), "another name");
    let cells = more(rt, layout.cells, cell);
    let counts = layout.counts;
    Layout { cells, counts }
}

// The layout with one more cell, which has this byte for its name and a square.
fn with_square(rt: &impl Abort, alloc: Global, layout: Layout, byte: u8) -> Layout
    requires { IsLayoutOnGrid layout }
    ensures { IsLayoutOnGrid result }
{
    let shapes = only_shape(rt, alloc, square(rt, alloc, false));
    let new_name = name(rt, alloc, &[byte]);
    with_cell(rt, layout, cell(new_name, shapes, List::new(alloc)))
}

// The layout with one more cell, which has this byte for its name and places one cell.
fn with_placing(
    rt: &impl Abort,
    alloc: Global,
    layout: Layout,
    byte: u8,
    placement: Placement,
) -> Layout
    requires layout { IsLayoutOnGrid layout }
    requires placement { IsPlacementOnGrid placement }
    ensures { IsLayoutOnGrid result }
{
    let placements = only(rt, alloc, placement);
    let new_name = name(rt, alloc, &[byte]);
    with_cell(rt, layout, cell(new_name, Shapes::new(alloc), placements))
}

// So many cells, named by the bytes from 21 hex on, each of which places the one before it.
fn chain(rt: &impl Abort, alloc: Global, count: u8) -> Layout
    requires { count < 90 }
    ensures { IsLayoutOnGrid result }
{
    let mut layout = with_square(rt, alloc, no_cells(alloc), 0x21);
    for k in 1..count {
        let placement = placed(rt, alloc, &[0x20 + k], 1);
        layout = with_placing(rt, alloc, layout, 0x21 + k, placement);
    }
    layout
}

// Whether the names are these bytes in order.
fn are_bytes(names: &[Name], bytes: &[u8]) -> bool {
    if names.len() != bytes.len() {
        return false;
    }
    for (k, name) in names.iter().enumerate() {
        if name.bytes() != [bytes[k]].as_slice() {
            return false;
        }
    }
    true
}

// Whether the answer is that the cells of these names are a chain of this factor.
fn is_scale(answer: Result<Tree, Refusal<TreeBad>>, factor: i64, bytes: &[u8]) -> bool {
    match answer {
        Err(Refusal::Fault(TreeBad::Scale(value, names))) => value == factor
            && are_bytes(names.as_slice(), bytes),
        _ => false,
    }
}

// How many names a chain that is too long has, and 0 of other answers.
fn depth_of(answer: Result<Tree, Refusal<TreeBad>>) -> usize {
    match answer {
        Err(Refusal::Fault(TreeBad::Deep(names))) => names.as_slice().len(),
        _ => 0,
    }
}

#[test]
fn chains_of_cells(rt: HostRuntime) {
    let alloc = rt.alloc();
    // The last cell of 64.
    let top = name(&rt, alloc, b"`");
    let tree = resolve(alloc, chain(&rt, alloc, 64), &top);
    assert!(rt; tree.is_ok());
    let top = name(&rt, alloc, b"a");
    let refused = resolve(alloc, chain(&rt, alloc, 65), &top);
    assert!(rt; depth_of(refused) == 65);
    // From the cell before it, 64 of them are reachable.
    let top = name(&rt, alloc, b"`");
    let tree = resolve(alloc, chain(&rt, alloc, 65), &top);
    assert!(rt; tree.is_ok());
    // 2 * 9 is the least product above 16.
    let top = name(&rt, alloc, b"A");
    let refused = resolve(alloc, of_placement(&rt, alloc, 2, b"C", 9), &top);
    assert!(rt; is_scale(refused, 18, b"ABC"));
    let refused = resolve(alloc, of_placement(&rt, alloc, 8, b"C", 4), &top);
    assert!(rt; is_scale(refused, 32, b"ABC"));
    let tree = resolve(alloc, of_placement(&rt, alloc, 16, b"C", 1), &top);
    assert!(rt; tree.is_ok());
}

// The point, which is a move.
fn move_to(rt: &impl Abort, at: Point) -> Point
    ensures { IsMove result }
{
    assert!(rt; at.x % 2 == 0, "even");
    assert!(rt; at.y % 2 == 0, "even");
    assert!(rt; -(1 << 41) <= at.x, "near");
    assert!(rt; at.x <= 1 << 41, "near");
    assert!(rt; -(1 << 41) <= at.y, "near");
    assert!(rt; at.y <= 1 << 41, "near");
    at
}

// The cell of this name, placed once.
fn placed_at(rt: &impl Abort, alloc: Global, target: &[u8], orient: Orient, at: Point) -> Placement
    requires { IsOrient orient }
    ensures { IsPlacementOnGrid result }
{
    Placement {
        target: name(rt, alloc, target),
        orient,
        at: move_to(rt, at),
        offsets: Offsets::list(alloc, &[point(0, 0)]).expect(rt, "memory"),
    }
}

// T places C, a square of (0, 0) to (20, 20), at this point: what is beyond 2^30 is this, or nothing.
fn ask_extent(rt: &impl Abort, alloc: Global, at: Point, beyond: Option<i64>) {
    let layout = with_square(rt, alloc, no_cells(alloc), b'C');
    let placement = placed_at(rt, alloc, b"C", orient(false, 0, 1), at);
    let layout = with_placing(rt, alloc, layout, b'T', placement);
    match resolve(alloc, layout, &name(rt, alloc, b"T")) {
        Ok(_) => assert!(rt; beyond.is_none(), "beyond"),
        Err(Refusal::Fault(TreeBad::Extent(value))) => assert!(rt;
            beyond == Some(value),
            "another side"
        ),
        Err(_) => assert!(rt; false, "another refusal"),
    }
}

#[test]
fn extents_of_layouts(rt: HostRuntime) {
    let alloc = rt.alloc();
    ask_extent(&rt, alloc, point(-1073741824, 0), None);
    ask_extent(&rt, alloc, point(-1073741826, 0), Some(-1073741826));
    ask_extent(&rt, alloc, point(0, -1073741824), None);
    ask_extent(&rt, alloc, point(0, -1073741826), Some(-1073741826));
    ask_extent(&rt, alloc, point(1073741804, 0), None);
    ask_extent(&rt, alloc, point(1073741806, 0), Some(1073741826));
    ask_extent(&rt, alloc, point(0, 1073741804), None);
    ask_extent(&rt, alloc, point(0, 1073741806), Some(1073741826));
    // The least x is told before the greatest y.
    ask_extent(
        &rt,
        alloc,
        point(-1073741828, 1073741806),
        Some(-1073741828),
    );
}

// So many moves, all by nothing.
fn copies(rt: &impl Abort, alloc: Global, count: u64) -> Offsets
    requires some { 1 ≤ count }
    requires few { count ≤ 16777216 }
    ensures { AreOffsets result }
{
    let offsets = Offsets::grid(alloc, count, 1, Point { x: 0, y: 0 }, Point { x: 0, y: 0 });
    offsets.expect(rt, "memory")
}

// The layout with one more cell, which places C at 2^15 places.
fn with_many(rt: &impl Abort, alloc: Global, layout: Layout, byte: u8) -> Layout
    requires { IsLayoutOnGrid layout }
    ensures { IsLayoutOnGrid result }
{
    let mut placement = placed(rt, alloc, b"C", 1);
    placement.offsets = copies(rt, alloc, 32768);
    with_placing(rt, alloc, layout, byte, placement)
}

fn two(rt: &impl Abort, alloc: Global, first: Placement, second: Placement) -> List<Placement>
    requires first { IsPlacementOnGrid first }
    requires second { IsPlacementOnGrid second }
    ensures { All IsPlacementOnGrid result }
{
    let mut both = List::new(alloc);
    assert!(rt; both.push(first).is_ok(), "memory");
    assert!(rt; both.push(second).is_ok(), "memory");
    both
}

// A square of 10 grid steps at these places.
fn repeated(rt: &impl Abort, alloc: Global, offsets: Offsets) -> KeptShape
    requires { AreOffsets offsets }
    ensures { IsShapeOnGrid result }
{
    let shape = Shape::new(alloc, METAL, &RING, offsets).expect(rt, "a shape");
    kept(rt, alloc, shape)
}

// C is a square at 2^24 places, A and B place it 2^15 times each, and T has these shapes and places A and B.
fn diamond(rt: &impl Abort, alloc: Global, shapes: Shapes) -> Layout
    requires { All IsShapeOnGrid shapes }
    ensures { IsLayoutOnGrid result }
{
    let many = repeated(rt, alloc, copies(rt, alloc, 16777216));
    let name_c = name(rt, alloc, b"C");
    let squares = cell(name_c, only_shape(rt, alloc, many), List::new(alloc));
    let layout = with_cell(rt, no_cells(alloc), squares);
    let layout = with_many(rt, alloc, layout, b'A');
    let layout = with_many(rt, alloc, layout, b'B');
    let both = two(
        rt,
        alloc,
        placed(rt, alloc, b"A", 1),
        placed(rt, alloc, b"B", 1),
    );
    let name_t = name(rt, alloc, b"T");
    with_cell(rt, layout, cell(name_t, shapes, both))
}

// Whether the answer is that the cell of this name has so many shapes.
fn is_count(answer: Result<Tree, Refusal<TreeBad>>, byte: u8, count: u128) -> bool {
    match answer {
        Err(Refusal::Fault(TreeBad::Count(name, value))) => value == count
            && name.bytes() == [byte].as_slice(),
        _ => false,
    }
}

#[test]
fn shared_cells_count_through_both(rt: HostRuntime) {
    let alloc = rt.alloc();
    let top = name(&rt, alloc, b"T");
    let tree = resolve(alloc, diamond(&rt, alloc, Shapes::new(alloc)), &top);
    assert!(rt; tree.is_ok());
    let shapes = only_shape(&rt, alloc, square(&rt, alloc, false));
    let refused = resolve(alloc, diamond(&rt, alloc, shapes), &top);
    assert!(rt; is_count(refused, b'T', 1099511627777));
}

// The cell that the top cell places first.
fn first_target(tree: &Tree) -> Option<usize> {
    let top = tree.top();
    if tree.cells()[top].placements.as_slice().is_empty() {
        return None;
    }
    Some(tree.target(top, 0))
}

// A places the square C at (40, 0), and T places A at (100, 40): the box of T's metal is this.
fn ask_hull(rt: &impl Abort, alloc: Global, orient: Orient, hull: Frame)
    requires { IsOrient orient }
{
    let layout = with_square(rt, alloc, no_cells(alloc), b'C');
    let layout = with_placing(rt, alloc, layout, b'A', placed(rt, alloc, b"C", 1));
    let placement = placed_at(rt, alloc, b"A", orient, point(100, 40));
    let layout = with_placing(rt, alloc, layout, b'T', placement);
    let tree = resolve(alloc, layout, &name(rt, alloc, b"T")).expect(rt, "a tree");
    assert!(rt; tree.hull(tree.top(), METAL) == Some(hull), "another box");
    let other = Pair {
        layer: 1,
        datatype: 1,
    };
    assert!(rt;
        tree.hull(tree.top(), other).is_none(),
        "nothing on the other pair"
    );
    assert!(rt; tree.top() == 2, "the third cell");
    assert!(rt; first_target(&tree) == Some(1), "the second cell");
    assert!(rt; tree.cells().len() == 3, "three cells");
    assert!(rt; tree.counts().properties == 6, "the file's counts");
}

fn frame(x0: i64, y0: i64, x1: i64, y1: i64) -> Frame {
    Frame { x0, y0, x1, y1 }
}

#[test]
fn hulls_of_turned_cells(rt: HostRuntime) {
    let alloc = rt.alloc();
    // A's box is (40, 0) to (60, 20).
    ask_hull(&rt, alloc, orient(false, 0, 1), frame(140, 40, 160, 60));
    ask_hull(&rt, alloc, orient(false, 1, 1), frame(80, 80, 100, 100));
    ask_hull(&rt, alloc, orient(false, 2, 1), frame(40, 20, 60, 40));
    ask_hull(&rt, alloc, orient(false, 3, 1), frame(100, -20, 120, 0));
    ask_hull(&rt, alloc, orient(true, 0, 1), frame(140, 20, 160, 40));
    ask_hull(&rt, alloc, orient(true, 1, 2), frame(100, 120, 140, 160));
}

#[test]
fn cells_that_nothing_reaches(rt: HostRuntime) {
    let alloc = rt.alloc();
    let layout = of_square(&rt, alloc, 1, false);
    let tree = resolve(alloc, layout, &name(&rt, alloc, b"A")).expect(&rt, "a tree");
    assert!(rt; tree.cells().len() == 3, "three cells");
    assert!(rt; !tree.is_bare(0), "A shows what B has");
    assert!(rt; !tree.is_bare(1), "B has a square");
    assert!(rt; tree.is_bare(2), "nothing places C");
}
