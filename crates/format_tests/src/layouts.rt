//! Each call at its happy path, and the refusals.
ghost use Rattle.std.specs.Prelude.{◌≡◌, ◌^◌, pos, ◌≤ℤ◌, [], ◌∷◌, All};
ghost use Rattle.half_grid.specs.Outlines.{IsClosed};
ghost use Rattle.half_grid.specs.Reach.{IsPointWithinReach};
ghost use Rattle.layout_model.specs.Layouts.{IsWithin, IsShapeOnGrid, IsPlacementOnGrid, IsLayoutOnGrid};
ghost use Rattle.layout_model.specs.Names.{IsName};
ghost use Rattle.layout_model.specs.PathBounds.{IsNearOnPath, IsNearBrush};

use geo_stream::List;
use half_grid::{Point, Side, Tile, winding_at};
use layout_model::{
    Axis, Brush, Cell, Counts, Interval, KeptShape, Layout, Name, NameBad, Offsets, Orient, Pair,
    PathBad, Placement, Points, Shape, ShapeBad, Shapes, SharedPath, SharedPoints, image, pair_law,
    path_laws, path_shapes,
};
use std::alloc::Global;
use std::process::Abort;
use std::test::Fail;

fn point(x: i64, y: i64) -> Point
    ensures x { result.x ≡ x }
    ensures y { result.y ≡ y }
{
    Point { x, y }
}

fn tile(i: i64, j: i64) -> Tile
    ensures i { result.i ≡ i }
    ensures j { result.j ≡ j }
{
    let side = Side::Left;
    Tile { i, j, side }
}

fn orient(flip: bool, turns: u8, mag: u8) -> Orient
    ensures flip { result.flip ≡ flip }
    ensures turns { result.turns ≡ turns }
    ensures mag { result.mag ≡ mag }
{
    Orient { flip, turns, mag }
}

#[test]
fn laws() {
    pair_law();
    path_laws();
}

#[test]
fn pairs_by_layer_then_datatype(rt: HostRuntime) {
    let pair = |layer: u64, datatype: u64| Pair { layer, datatype };
    assert!(rt; pair(1, 9) < pair(2, 0) && pair(1, 0) < pair(1, 9));
    assert!(rt; pair(2, 0) > pair(1, 9) && pair(1, 9) <= pair(1, 9));
}

#[test]
fn names_are_printable(rt: HostRuntime) {
    let name = Name::new(rt.alloc(), b"TOP").expect(&rt, "a name");
    assert_eq!(rt; name.bytes(), b"TOP".as_slice());
    let same = Name::new(rt.alloc(), b"TOP").expect(&rt, "a name");
    let other = Name::new(rt.alloc(), b"TOP ").expect(&rt, "a name");
    assert!(rt; name == same && name != other);
    let refused = Name::new(rt.alloc(), b"");
    assert!(rt; matches!(refused, Err(NameBad::Form)));
    let refused = Name::new(rt.alloc(), &[0x1F]);
    assert!(rt; matches!(refused, Err(NameBad::Form)));
    let refused = Name::new(rt.alloc(), &[0x7F]);
    assert!(rt; matches!(refused, Err(NameBad::Form)));
    let refused = Name::new(rt.alloc(), &[0x41; 1025]);
    assert!(rt; matches!(refused, Err(NameBad::Form)));
    assert!(rt; Name::new(rt.alloc(), &[0x7E; 1024]).is_ok());
}

// By hand: (3, 5) and (9, 15), mirrored and turned on paper, then moved by (100, 200).
#[test]
fn all_eight_orientations(rt: HostRuntime) {
    let at = point(100, 200);
    let p = point(3, 5);
    assert_eq!(rt; image(orient(false, 0, 1), at, p), point(103, 205));
    assert_eq!(rt; image(orient(false, 0, 3), at, p), point(109, 215));
    assert_eq!(rt; image(orient(false, 1, 1), at, p), point(95, 203));
    assert_eq!(rt; image(orient(false, 1, 3), at, p), point(85, 209));
    assert_eq!(rt; image(orient(false, 2, 1), at, p), point(97, 195));
    assert_eq!(rt; image(orient(false, 2, 3), at, p), point(91, 185));
    assert_eq!(rt; image(orient(false, 3, 1), at, p), point(105, 197));
    assert_eq!(rt; image(orient(false, 3, 3), at, p), point(115, 191));
    assert_eq!(rt; image(orient(true, 0, 1), at, p), point(103, 195));
    assert_eq!(rt; image(orient(true, 0, 3), at, p), point(109, 185));
    assert_eq!(rt; image(orient(true, 1, 1), at, p), point(105, 203));
    assert_eq!(rt; image(orient(true, 1, 3), at, p), point(115, 209));
    assert_eq!(rt; image(orient(true, 2, 1), at, p), point(97, 205));
    assert_eq!(rt; image(orient(true, 2, 3), at, p), point(91, 215));
    assert_eq!(rt; image(orient(true, 3, 1), at, p), point(95, 197));
    assert_eq!(rt; image(orient(true, 3, 3), at, p), point(85, 191));
}

#[test]
fn a_grid_in_order(rt: HostRuntime) {
    let grid = Offsets::grid(rt.alloc(), 3, 2, point(10, 1), point(-4, 100)).expect(&rt, "a grid");
    assert_eq!(rt; grid.count(), 6);
    let wanted = [
        point(0, 0),
        point(10, 1),
        point(20, 2),
        point(-4, 100),
        point(6, 101),
        point(16, 102),
    ];
    for (k, place) in wanted.iter().enumerate() {
        assert_eq!(rt; grid.nth(k as u64), *place);
    }
}

fn between(axis: Axis, low: i64, high: i64) -> Interval {
    Interval { axis, low, high }
}

#[test]
fn first_places_in_an_interval(rt: HostRuntime) {
    let alloc = rt.alloc();
    // (0, 0), (10, 1), (20, 2), (-4, 100), (6, 101) and (16, 102).
    let slanted = Offsets::grid(alloc, 3, 2, point(10, 1), point(-4, 100)).expect(&rt, "a grid");
    assert_eq!(rt; slanted.first_in(between(Axis::X, 5, 12), 0), Some(1));
    assert_eq!(rt; slanted.first_in(between(Axis::X, 5, 12), 2), Some(4));
    assert_eq!(rt; slanted.first_in(between(Axis::X, 5, 12), 5), None);
    assert_eq!(rt; slanted.first_in(between(Axis::X, -9, -1), 0), Some(3));
    assert_eq!(rt; slanted.first_in(between(Axis::Y, 3, 99), 0), None);
    assert_eq!(rt; slanted.first_in(between(Axis::Y, 101, 101), 0), Some(4));
    // Four columns to the left, and five rows.
    let upright = Offsets::grid(alloc, 4, 5, point(-10, 0), point(0, 100)).expect(&rt, "a grid");
    assert_eq!(rt; upright.first_in(between(Axis::Y, 150, 250), 0), Some(8));
    assert_eq!(rt; upright.first_in(between(Axis::Y, 150, 250), 9), Some(9));
    assert_eq!(rt; upright.first_in(between(Axis::Y, 150, 250), 12), None);
    assert_eq!(rt; upright.first_in(between(Axis::X, -29, -20), 3), Some(6));
    let two = Offsets::list(alloc, &[point(2, 4), point(6, 8)]).expect(&rt, "memory");
    assert_eq!(rt; two.first_in(between(Axis::Y, 5, 8), 0), Some(1));
    assert_eq!(rt; two.first_in(between(Axis::Y, 5, 7), 0), None);
}

#[test]
fn offsets_are_listed(rt: HostRuntime) -> Result<(), Fail> {
    let one = Offsets::list(rt.alloc(), &[point(2, 4)]).expect(&rt, "memory");
    assert_eq!(rt; one.count(), 1);
    assert_eq!(rt; one.nth(0), point(2, 4));
    let two = Offsets::list(rt.alloc(), &[point(2, 4), point(6, 8)]).expect(&rt, "memory");
    assert_eq!(rt; two.count(), 2);
    assert_eq!(rt; two.nth(1), point(6, 8));
    Ok(())
}

#[test]
fn points_are_kept(rt: HostRuntime) {
    let some = [point(0, 0), point(2, 0), point(2, 2)];
    let kept = Points::new(rt.alloc(), &some).expect(&rt, "memory");
    assert!(rt; kept.as_slice() == Some(some.as_slice()));
    let many = [point(7, -7); 10];
    let kept = Points::new(rt.alloc(), &many).expect(&rt, "memory");
    assert!(rt; kept.as_slice() == Some(many.as_slice()));
    let shared = SharedPoints::new(rt.alloc(), &many).expect(&rt, "memory");
    let hull = shared.hull();
    assert!(rt; hull.x0 == 7 && hull.y0 == -7 && hull.x1 == 7 && hull.y1 == -7);
}

#[test]
fn shapes_have_grid_edges(rt: HostRuntime) {
    let pair = Pair {
        layer: 1,
        datatype: 0,
    };
    let square = [
        point(0, 0),
        point(20, 0),
        point(20, 20),
        point(0, 20),
        point(0, 0),
    ];
    let place = Offsets::list(rt.alloc(), &[point(0, 0)]).expect(&rt, "memory");
    let shape = Shape::new(rt.alloc(), pair, &square, place).expect(&rt, "memory");
    assert!(rt; shape.points.as_slice() == Some(square.as_slice()));
    assert!(rt; shape.pair == pair && !shape.fixed && shape.offsets.count() == 1);
    let slanted = [point(0, 0), point(20, 0), point(20, 22), point(0, 0)];
    let place = Offsets::list(rt.alloc(), &[point(0, 0)]).expect(&rt, "memory");
    let refused = Shape::new(rt.alloc(), pair, &slanted, place);
    assert!(rt; matches!(refused, Err(ShapeBad::Slant(2))));
}

// A layout may have millions of shapes, most of them rectangles, which are kept in 32 bytes. A shape of another form, or at
// other places, takes 216 bytes beside: 16 for its pair, 168 for its points, 24 for its offsets and 8 for its mark.
#[test]
fn a_shape_is_lean(rt: HostRuntime) {
    assert_eq!(rt; size_of::<Points>(), 168);
    assert_eq!(rt; size_of::<Offsets>(), 24);
    assert_eq!(rt; size_of::<Shape>(), 216);
    assert_eq!(rt; size_of::<KeptShape>(), 32);
}

fn name(rt: &impl Abort, alloc: Global, bytes: &[u8]) -> Name
    ensures { result ≡ bytes.now }
{
    Name::new(alloc, bytes).expect(rt, "a name")
}

fn shape_alone(rt: &impl Abort, alloc: Global, shape: KeptShape) -> Shapes
    ensures { result ≡ shape ∷ [] }
{
    let mut shapes = Shapes::new(alloc);
    assert!(rt; shapes.push(shape).is_ok(), "memory");
    shapes
}

fn only<T: Drop>(rt: &impl Abort, alloc: Global, item: T) -> List<T>
    ensures { result ≡ item ∷ [] }
{
    let mut list = List::new(alloc);
    assert!(rt; list.push(item).is_ok(), "memory");
    list
}

const RING: [Point; 5] = [
    Point { x: 0, y: 0 },
    Point { x: 20, y: 0 },
    Point { x: 20, y: 20 },
    Point { x: 0, y: 20 },
    Point { x: 0, y: 0 },
];

// The same square the other way round from another corner, and a square that stands on a corner.
const UPRIGHT: [Point; 5] = [
    Point { x: 20, y: 20 },
    Point { x: 20, y: 0 },
    Point { x: 0, y: 0 },
    Point { x: 0, y: 20 },
    Point { x: 20, y: 20 },
];

const TILTED: [Point; 5] = [
    Point { x: 10, y: 0 },
    Point { x: 20, y: 10 },
    Point { x: 10, y: 20 },
    Point { x: 0, y: 10 },
    Point { x: 10, y: 0 },
];

// Whether a shape with these points, whose box is that of the squares, says all that it was made of, at this place.
fn is_kept(rt: &impl Abort, alloc: Global, points: &[Point], place: Point) -> bool
    requires closed { IsClosed points.now }
    requires reach { All IsPointWithinReach points.now }
{
    let places = Offsets::list(alloc, &[place]).expect(rt, "a place");
    let kept = KeptShape::new(alloc, PAIR, points, places).expect(rt, "a shape");
    let outline = kept.outline();
    let copy = outline.to_vec(alloc).expect(rt, "memory");
    if outline.as_slice() != Some(points) || copy.as_slice() != points || kept.pair() != PAIR {
        return false;
    }
    if kept.is_fixed() || kept.count() != 1 || kept.nth(0) != place {
        return false;
    }
    let beside = Interval {
        axis: Axis::X,
        low: 30,
        high: 40,
    };
    kept.spread().x0 == place.x && kept.spread().y1 == place.y && kept.first_in(beside, 0).is_none()
}

#[test]
fn shapes_are_kept_in_place_or_boxed(rt: HostRuntime) {
    let alloc = rt.alloc();
    assert!(rt; is_kept(&rt, alloc, &RING, point(0, 0)));
    assert!(rt; is_kept(&rt, alloc, &UPRIGHT, point(0, 0)));
    assert!(rt; is_kept(&rt, alloc, &RING, point(2, -4)));
    assert!(rt; is_kept(&rt, alloc, &TILTED, point(0, 0)));
    let hull = square(&rt, alloc).hull();
    assert!(rt; hull.x0 == 0 && hull.y0 == 0 && hull.x1 == 20 && hull.y1 == 20);
}

// A shape on the pair, at one place.
fn once(rt: &impl Abort, alloc: Global, points: &[Point], pair: Pair, place: Point) -> KeptShape
    requires closed { IsClosed points.now }
    requires reach { All IsPointWithinReach points.now }
    ensures { result.points ≡ points.now }
{
    let places = Offsets::list(alloc, &[place]).expect(rt, "a place");
    KeptShape::new(alloc, pair, points, places).expect(rt, "a shape")
}

// East, with a point twice and one in the middle of a segment, and then north.
const WIRE: [Point; 5] = [
    Point { x: 0, y: 0 },
    Point { x: 0, y: 0 },
    Point { x: 20, y: 0 },
    Point { x: 40, y: 0 },
    Point { x: 40, y: 60 },
];

// WIRE, shared.
fn wire(rt: &impl Abort, alloc: Global) -> SharedPath
    ensures { All (λ segment. IsWithin 100 segment.0 × IsWithin 100 segment.1) result }
{
    let shared = SharedPath::of(alloc, &WIRE).expect(rt, "memory");
    shared.expect(rt, "a path")
}

const OTHER: Pair = Pair {
    layer: 8,
    datatype: 3,
};

// Whether shape `k` has this outline and pair and is at this one place.
fn is_shape(shapes: &Shapes, k: usize, points: &[Point], pair: Pair, place: Point) -> bool {
    if k >= shapes.len() {
        return false;
    }
    let shape = shapes.get(k);
    if shape.outline().as_slice() != Some(points) || shape.count() != 1 {
        return false;
    }
    shape.pair() == pair && shape.nth(0) == place && shape.is_fixed() == (pair == OTHER)
}

// Puts the two shapes of WIRE last, moved so and with these lengths, on the other pair, at (2, 4), not to be enlarged.
fn push_wire(
    rt: &impl Abort,
    alloc: Global,
    shapes: &mut Shapes,
    wire: &SharedPath,
    by: Point,
    brush: Brush,
)
    requires wire { All (λ segment. IsWithin 100 segment.0 × IsWithin 100 segment.1) wire.now }
    requires by { IsWithin (2 ^ 40) by }
    requires brush { IsNearBrush brush }
{
    let place = Offsets::list(alloc, &[point(2, 4)]).expect(rt, "a place");
    let pushed = shapes.push_path(wire, by, OTHER, brush, place, true);
    assert!(rt; pushed.is_ok(), "memory");
}

// The outline of a rectangle, clockwise from its lower left corner.
fn outline(x0: i64, y0: i64, x1: i64, y1: i64) -> [Point; 5] {
    [
        point(x0, y0),
        point(x0, y1),
        point(x1, y1),
        point(x1, y0),
        point(x0, y0),
    ]
}

const WIDE: Brush = Brush {
    half: 4,
    begin: 0,
    end: 6,
};

const NARROW: Brush = Brush {
    half: 2,
    begin: -10,
    end: 0,
};

// Two own shapes, the two shapes of a path, an own shape, and the path again with other lengths and elsewhere.
#[test]
fn shapes_by_number(rt: HostRuntime) {
    let alloc = rt.alloc();
    let wire = wire(&rt, alloc);
    let mut shapes = Shapes::new(alloc);
    let first = once(&rt, alloc, &RING, PAIR, point(0, 0));
    assert!(rt; shapes.push(first).is_ok(), "memory");
    let second = once(&rt, alloc, &TILTED, PAIR, point(10, 0));
    assert!(rt; shapes.push(second).is_ok(), "memory");
    push_wire(&rt, alloc, &mut shapes, &wire, point(0, 0), WIDE);
    let third = once(&rt, alloc, &UPRIGHT, PAIR, point(0, 0));
    assert!(rt; shapes.push(third).is_ok(), "memory");
    push_wire(&rt, alloc, &mut shapes, &wire, point(100, -40), NARROW);
    assert_eq!(rt; shapes.len(), 7);
    let wide_east = outline(0, -4, 44, 4);
    let wide_north = outline(36, -4, 44, 66);
    let narrow_east = outline(110, -42, 142, -38);
    let narrow_north = outline(138, -42, 142, 20);
    assert!(rt; is_shape(&shapes, 0, &RING, PAIR, point(0, 0)));
    assert!(rt; is_shape(&shapes, 1, &TILTED, PAIR, point(10, 0)));
    assert!(rt; is_shape(&shapes, 2, &wide_east, OTHER, point(2, 4)));
    assert!(rt; is_shape(&shapes, 3, &wide_north, OTHER, point(2, 4)));
    assert!(rt; is_shape(&shapes, 4, &UPRIGHT, PAIR, point(0, 0)));
    assert!(rt; is_shape(&shapes, 5, &narrow_east, OTHER, point(2, 4)));
    assert!(rt; is_shape(&shapes, 6, &narrow_north, OTHER, point(2, 4)));
}

// Whether so many shapes from shape `k` on are given so often.
fn is_block(shapes: &Shapes, k: usize, period: usize, times: usize) -> bool {
    if k >= shapes.len() {
        return false;
    }
    let copies = shapes.copies_at(k);
    copies.period == period && copies.times == times
}

// A path three times, an own shape, the path again, and then elsewhere, and there with other lengths.
#[test]
fn paths_given_again(rt: HostRuntime) {
    let alloc = rt.alloc();
    let wire = wire(&rt, alloc);
    let mut shapes = Shapes::new(alloc);
    for _time in 0..3 {
        push_wire(&rt, alloc, &mut shapes, &wire, point(0, 0), WIDE);
    }
    let own = once(&rt, alloc, &RING, PAIR, point(0, 0));
    assert!(rt; shapes.push(own).is_ok(), "memory");
    push_wire(&rt, alloc, &mut shapes, &wire, point(0, 0), WIDE);
    push_wire(&rt, alloc, &mut shapes, &wire, point(100, -40), WIDE);
    push_wire(&rt, alloc, &mut shapes, &wire, point(100, -40), NARROW);
    assert!(rt; is_block(&shapes, 0, 2, 1) && is_block(&shapes, 4, 2, 1));
    shapes.find_copies();
    assert_eq!(rt; shapes.len(), 13);
    assert!(rt; is_block(&shapes, 0, 2, 3) && is_block(&shapes, 6, 1, 1));
    assert!(rt; is_block(&shapes, 7, 2, 1) && is_block(&shapes, 9, 2, 1));
    assert!(rt; is_block(&shapes, 11, 2, 1));
    let east = outline(0, -4, 44, 4);
    let north = outline(36, -4, 44, 66);
    let narrow_north = outline(138, -42, 142, 20);
    assert!(rt; is_shape(&shapes, 1, &north, OTHER, point(2, 4)));
    assert!(rt; is_shape(&shapes, 4, &east, OTHER, point(2, 4)));
    assert!(rt; is_shape(&shapes, 5, &north, OTHER, point(2, 4)));
    assert!(rt; is_shape(&shapes, 6, &RING, PAIR, point(0, 0)));
    assert!(rt; is_shape(&shapes, 8, &north, OTHER, point(2, 4)));
    assert!(rt; is_shape(&shapes, 12, &narrow_north, OTHER, point(2, 4)));
}

// A path is none by its points, or is cut short by its lengths.
#[test]
fn shared_paths(rt: HostRuntime) {
    let alloc = rt.alloc();
    let wire = wire(&rt, alloc);
    assert!(rt; !wire.has_empty_end(NARROW));
    let short = Brush {
        half: 2,
        begin: -42,
        end: 0,
    };
    assert!(rt; wire.has_empty_end(short));
    let diagonal = [point(0, 0), point(20, 20)];
    let none = SharedPath::of(alloc, &diagonal).expect(&rt, "memory");
    assert!(rt; none.is_none());
}

const PLACES: [Point; 2] = [Point { x: 0, y: 0 }, Point { x: 40, y: -2 }];

// A square of 10 grid steps, at two places.
fn square(rt: &impl Abort, alloc: Global) -> KeptShape
    ensures { IsShapeOnGrid result }
{
    let places = Offsets::list(alloc, &PLACES).expect(rt, "memory");
    KeptShape::new(alloc, PAIR, &RING, places).expect(rt, "a shape")
}

// PART, mirrored and turned once.
fn part_placed(rt: &impl Abort, alloc: Global) -> Placement
    ensures { IsPlacementOnGrid result }
{
    Placement {
        target: name(rt, alloc, b"PART"),
        orient: orient(true, 1, 1),
        at: point(100, -40),
        offsets: Offsets::list(alloc, &[point(0, 0)]).expect(rt, "memory"),
    }
}

// A cell with a square, and one that places it.
fn two_cells(rt: &impl Abort, alloc: Global) -> Layout
    ensures { IsLayoutOnGrid result }
{
    let part = Cell {
        name: name(rt, alloc, b"PART"),
        shapes: shape_alone(rt, alloc, square(rt, alloc)),
        placements: List::new(alloc),
    };
    let top = Cell {
        name: name(rt, alloc, b"TOP"),
        shapes: Shapes::new(alloc),
        placements: only(rt, alloc, part_placed(rt, alloc)),
    };
    let mut cells = only(rt, alloc, part);
    assert!(rt; cells.push(top).is_ok(), "memory");
    let counts = Counts {
        kept: 1,
        other: 0,
        texts: 0,
        nodes: 0,
        boxes: 0,
        properties: 0,
    };
    Layout { cells, counts }
}

#[test]
fn a_layout_with_a_placement_is_on_the_grid(rt: HostRuntime) {
    let layout = two_cells(&rt, rt.alloc());
    let cells = layout.cells.as_slice();
    assert_eq!(rt; cells.len(), 2);
    assert_eq!(rt; cells[0].shapes.len(), 1);
    let placed = cells[1].placements.as_slice();
    assert_eq!(rt; placed.len(), 1);
    assert!(rt; placed[0].target == cells[0].name);
}

const PAIR: Pair = Pair {
    layer: 7,
    datatype: 2,
};

// The shapes of a path that stands at (2, 4) and may not be enlarged.
fn draw(
    rt: &impl Abort,
    alloc: Global,
    points: &[Point],
    half: i64,
    begin: i64,
    end: i64,
) -> Result<Vec<KeptShape>, PathBad>
    requires points { All (IsWithin (2 ^ 41)) points.now }
    requires half_low { pos 0 ≤ℤ half }
    requires half { IsNearOnPath half }
    requires begin { IsNearOnPath begin }
    requires end { IsNearOnPath end }
{
    let place = Offsets::list(alloc, &[point(2, 4)]).expect(rt, "memory");
    path_shapes(alloc, PAIR, points, half, begin, end, &place, true)
}

// Whether this is one shape of the path, the rectangle from the first corner to the second.
fn is_box(shapes: &[KeptShape], k: usize, low: Point, high: Point) -> bool {
    let ring = [low, point(low.x, high.y), high, point(high.x, low.y), low];
    match shapes.get(k) {
        None => false,
        Some(shape) => {
            let placed = shape.count() == 1 && shape.nth(0) == point(2, 4);
            shape.outline().as_slice() == Some(ring.as_slice())
                && shape.pair() == PAIR
                && shape.is_fixed()
                && placed
        }
    }
}

#[test]
fn a_segment_with_both_ends(rt: HostRuntime) {
    let line = [point(0, 0), point(200, 0)];
    let shapes = draw(&rt, rt.alloc(), &line, 20, 20, 20).expect(&rt, "a path");
    assert_eq!(rt; shapes.len(), 1);
    assert!(rt; is_box(shapes.as_slice(), 0, point(-20, -20), point(220, 20)));
    let shapes = draw(&rt, rt.alloc(), &line, 20, -30, 7).expect(&rt, "a path");
    assert_eq!(rt; shapes.len(), 1);
    assert!(rt; is_box(shapes.as_slice(), 0, point(30, -20), point(207, 20)));
}

#[test]
fn a_segment_each_way(rt: HostRuntime) {
    let west = [point(200, 0), point(0, 0)];
    let shapes = draw(&rt, rt.alloc(), &west, 20, 1, 3).expect(&rt, "a path");
    assert!(rt; is_box(shapes.as_slice(), 0, point(-3, -20), point(201, 20)));
    let north = [point(0, 0), point(0, 200)];
    let shapes = draw(&rt, rt.alloc(), &north, 20, 1, 3).expect(&rt, "a path");
    assert!(rt; is_box(shapes.as_slice(), 0, point(-20, -1), point(20, 203)));
    let south = [point(0, 200), point(0, 0)];
    let shapes = draw(&rt, rt.alloc(), &south, 20, 1, 3).expect(&rt, "a path");
    assert!(rt; is_box(shapes.as_slice(), 0, point(-20, -3), point(20, 201)));
}

#[test]
fn a_corner_with_its_square(rt: HostRuntime) {
    let corner = [point(0, 0), point(200, 0), point(200, 100)];
    let shapes = draw(&rt, rt.alloc(), &corner, 20, 0, 0).expect(&rt, "a path");
    assert_eq!(rt; shapes.len(), 2);
    assert!(rt; is_box(shapes.as_slice(), 0, point(0, -20), point(220, 20)));
    assert!(rt; is_box(shapes.as_slice(), 1, point(180, -20), point(220, 100)));
}

#[test]
fn three_segments(rt: HostRuntime) {
    let steps = [
        point(0, 0),
        point(100, 0),
        point(100, -100),
        point(300, -100),
    ];
    let shapes = draw(&rt, rt.alloc(), &steps, 10, -5, -6).expect(&rt, "a path");
    assert_eq!(rt; shapes.len(), 3);
    assert!(rt; is_box(shapes.as_slice(), 0, point(5, -10), point(110, 10)));
    assert!(rt; is_box(shapes.as_slice(), 1, point(90, -110), point(110, 10)));
    assert!(rt; is_box(shapes.as_slice(), 2, point(90, -110), point(294, -90)));
}

#[test]
fn repeats_and_straight_joints_are_no_corners(rt: HostRuntime) {
    let straight = [point(0, 0), point(50, 0), point(200, 0)];
    let shapes = draw(&rt, rt.alloc(), &straight, 20, 0, 0).expect(&rt, "a path");
    assert_eq!(rt; shapes.len(), 1);
    assert!(rt; is_box(shapes.as_slice(), 0, point(0, -20), point(200, 20)));
    let repeated = [
        point(0, 0),
        point(0, 0),
        point(50, 0),
        point(50, 0),
        point(200, 0),
        point(200, 0),
        point(200, 100),
        point(200, 100),
    ];
    let shapes = draw(&rt, rt.alloc(), &repeated, 20, 0, 0).expect(&rt, "a path");
    assert_eq!(rt; shapes.len(), 2);
    assert!(rt; is_box(shapes.as_slice(), 0, point(0, -20), point(220, 20)));
    assert!(rt; is_box(shapes.as_slice(), 1, point(180, -20), point(220, 100)));
}

#[test]
fn paths_are_refused_in_order(rt: HostRuntime) {
    let still = [point(5, 5), point(5, 5), point(5, 5)];
    let refused = draw(&rt, rt.alloc(), &still, 20, 20, 20);
    assert!(rt; matches!(refused, Err(PathBad::NoLength)));
    let refused = draw(&rt, rt.alloc(), &[], 20, 20, 20);
    assert!(rt; matches!(refused, Err(PathBad::NoLength)));
    // Point 3 goes back before point 4 is diagonal: the diagonal is told.
    let both = [
        point(0, 0),
        point(0, 0),
        point(100, 0),
        point(100, 0),
        point(50, 0),
        point(60, 10),
        point(70, 20),
    ];
    let refused = draw(&rt, rt.alloc(), &both, 20, 0, 0);
    assert!(rt; matches!(refused, Err(PathBad::Diagonal(4))));
    // The repeated point doesn't hide that the path goes back.
    let back = [point(0, 0), point(100, 0), point(100, 0), point(50, 0)];
    let refused = draw(&rt, rt.alloc(), &back, 20, -100, 0);
    assert!(rt; matches!(refused, Err(PathBad::TurnBack(2))));
    // A U turn isn't refused.
    let around = [point(0, 0), point(100, 0), point(100, 10), point(0, 10)];
    assert!(rt; draw(&rt, rt.alloc(), &around, 20, 0, 0).is_ok());
}

#[test]
fn an_end_may_be_empty(rt: HostRuntime) {
    let line = [point(0, 0), point(200, 0)];
    let refused = draw(&rt, rt.alloc(), &line, 20, -100, -100);
    assert!(rt; matches!(refused, Err(PathBad::EmptyEnd)));
    assert!(rt; draw(&rt, rt.alloc(), &line, 20, -100, -99).is_ok());
    let corner = [point(0, 0), point(200, 0), point(200, 100)];
    let refused = draw(&rt, rt.alloc(), &corner, 20, -220, 0);
    assert!(rt; matches!(refused, Err(PathBad::EmptyEnd)));
    assert!(rt; draw(&rt, rt.alloc(), &corner, 20, -219, 0).is_ok());
    let refused = draw(&rt, rt.alloc(), &corner, 20, 0, -120);
    assert!(rt; matches!(refused, Err(PathBad::EmptyEnd)));
    assert!(rt; draw(&rt, rt.alloc(), &corner, 20, 0, -119).is_ok());
}

#[test]
fn no_width_has_no_shapes(rt: HostRuntime) {
    let bad = [point(0, 0), point(10, 20), point(0, 0)];
    let shapes = draw(&rt, rt.alloc(), &bad, 0, 20, 20).expect(&rt, "no shapes");
    assert_eq!(rt; shapes.len(), 0);
}

// The corner's two rectangles cover the corner itself, and not the square that lies across it.
#[test]
fn the_windings_of_a_corner(rt: HostRuntime) {
    let corner = [point(0, 0), point(200, 0), point(200, 100)];
    let shapes = draw(&rt, rt.alloc(), &corner, 20, 0, 0).expect(&rt, "a path");
    let wanted = [
        (tile(0, 0), 1, 0),
        (tile(-1, 0), 0, 0),
        (tile(219, -20), 1, 1),
        (tile(219, -21), 0, 0),
        (tile(220, 0), 0, 0),
        (tile(179, 20), 0, 0),
        (tile(180, 99), 0, 1),
        (tile(180, 100), 0, 0),
    ];
    if let [first, second] = shapes.as_slice() {
        let first = first.outline();
        let second = second.outline();
        for (at, one, two) in wanted {
            assert_eq!(rt; winding_at(first.as_slice().unwrap_or(&[]), at), one);
            assert_eq!(rt; winding_at(second.as_slice().unwrap_or(&[]), at), two);
        }
    } else {
        assert!(rt; false, "two shapes");
    }
}

#[test]
fn least_boxes(rt: HostRuntime) {
    let grid = Offsets::grid(rt.alloc(), 3, 2, point(-10, 4), point(0, 100)).expect(&rt, "a grid");
    let hull = grid.hull();
    assert!(rt; hull.x0 == -20 && hull.y0 == 0 && hull.x1 == 0 && hull.y1 == 108);
    let listed = [point(4, -2), point(-6, 0), point(0, 8)];
    let listed = Offsets::list(rt.alloc(), &listed).expect(&rt, "places");
    let hull = listed.hull();
    assert!(rt; hull.x0 == -6 && hull.y0 == -2 && hull.x1 == 4 && hull.y1 == 8);
}
