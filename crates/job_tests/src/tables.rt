//! A triangle around 0, whose slanted side passes through a corner of four windows, mirrored and taken away from itself,
//! and squares far apart, with windows worked out by hand.
ghost use Rattle.std.specs.Prelude.{◌≡◌, ◌≤◌, ◌^◌, [], ◌∷◌, All, length};
ghost use Rattle.half_grid.specs.Outlines.{IsClosed};
ghost use Rattle.half_grid.specs.Reach.{IsPointWithinReach};
ghost use Rattle.layout_model.specs.Layouts.{AreOffsets, IsWithin, IsShapeOnGrid, IsLayoutOnGrid};
ghost use Rattle.density_map.specs.Windows.{IsWindowSize};

use cell_tree::resolve;
use deck_plan::Plan;
use deck_text::read_deck;
use density_report::{density_laws, say_densities};
use depot::{DepotBad, MemDepot};
use geo_stream::List;
use half_grid::Point;
use layout_model::{Cell, Counts, KeptShape, Layout, Name, Offsets, Pair, Shapes};
use std::alloc::Global;
use std::process::Abort;

const METAL: Pair = Pair {
    layer: 1,
    datatype: 0,
};

const TRIANGLE: [Point; 4] = [
    Point { x: -1000, y: -1000 },
    Point { x: 1000, y: -1000 },
    Point { x: 1000, y: 1000 },
    Point { x: -1000, y: -1000 },
];

const SQUARE: [Point; 5] = [
    Point { x: 0, y: 0 },
    Point { x: 32, y: 0 },
    Point { x: 32, y: 32 },
    Point { x: 0, y: 32 },
    Point { x: 0, y: 0 },
];

const HERE: [Point; 1] = [Point { x: 0, y: 0 }];

const OVER_A_BATCH: [Point; 2] = [Point { x: 0, y: 0 }, Point { x: 0, y: 4080 }];

const OVER_A_GAP: [Point; 2] = [Point { x: 0, y: 0 }, Point { x: 0, y: 320_048 }];

const FAR_APART: [Point; 2] = [
    Point {
        x: 0,
        y: -536_870_912,
    },
    Point {
        x: 0,
        y: 536_870_912,
    },
];

const DECK: &[u8] =
    b"unit 1000\ntop TOP\nlayer A 1 0\nmirror M A 0\nsub E A A\nwrite A one 1 0\nwrite M two 1 0\nwrite E three 1 0\n";

const ONE_LAYER: &[u8] = b"unit 1000\ntop TOP\nlayer A 1 0\nwrite A one 1 0\n";

const SAID: &[u8] =
    b"density one size 1024\n-1 -1 1000000\n0 -1 2000000\n0 0 1000000\nmost 0 -1 2000000\ntriangles 4000000\n\
density two size 1024\n-1 -1 2000000\n0 -1 1000000\n-1 0 1000000\nmost -1 -1 2000000\ntriangles 4000000\n\
density three size 1024\ntriangles 0\n";

fn only<T: Drop>(rt: &impl Abort, alloc: Global, item: T) -> List<T>
    ensures { result ≡ item ∷ [] }
{
    let mut list = List::new(alloc);
    assert!(rt; list.push(item).is_ok(), "memory");
    list
}

fn shape(rt: &impl Abort, alloc: Global, points: &[Point], places: &[Point]) -> KeptShape
    requires closed { IsClosed points.now }
    requires reach { All IsPointWithinReach points.now }
    requires near { All (IsWithin (2 ^ 42)) points.now }
    requires places { AreOffsets places.now }
    ensures { IsShapeOnGrid result }
{
    let places = Offsets::list(alloc, places).expect(rt, "memory");
    KeptShape::new(alloc, METAL, points, places).expect(rt, "a shape")
}

fn only_shape(rt: &impl Abort, alloc: Global, shape: KeptShape) -> Shapes
    ensures { result ≡ shape ∷ [] }
{
    let mut shapes = Shapes::new(alloc);
    assert!(rt; shapes.push(shape).is_ok(), "memory");
    shapes
}

fn layout(rt: &impl Abort, alloc: Global, shape: KeptShape) -> Layout
    requires { IsShapeOnGrid shape }
    ensures { IsLayoutOnGrid result }
{
    let cell = Cell {
        name: Name::new(alloc, b"TOP").expect(rt, "a name"),
        shapes: only_shape(rt, alloc, shape),
        placements: List::new(alloc),
    };
    let counts = Counts {
        kept: 1,
        other: 0,
        texts: 0,
        nodes: 0,
        boxes: 0,
        properties: 0,
    };
    Layout {
        cells: only(rt, alloc, cell),
        counts,
    }
}

fn say(
    rt: &impl Abort,
    alloc: Global,
    depot: &mut MemDepot,
    deck: &[u8],
    shape: KeptShape,
    size: i64,
) -> Result<(), DepotBad>
    requires deck { length deck.now ≤ 65536 }
    requires shape { IsShapeOnGrid shape }
    requires size { IsWindowSize size }
{
    let deck = read_deck(alloc, deck, "layout", "deck").expect(rt, "a deck");
    let tree = resolve(alloc, layout(rt, alloc, shape), &deck.top).expect(rt, "a tree");
    let plan = Plan::new(alloc, &deck, &tree).expect(rt, "memory");
    say_densities(alloc, depot, &plan, size)
}

#[test]
fn tables_of_three_outputs(rt: HostRuntime) {
    density_laws();
    let mut depot = MemDepot::new(rt.alloc());
    let triangle = shape(&rt, rt.alloc(), &TRIANGLE, &HERE);
    assert_eq!(rt;
        say(&rt, rt.alloc(), &mut depot, DECK, triangle, 1024),
        Ok(())
    );
    assert_eq!(rt; depot.said(), SAID);
}

#[test]
fn nothing_is_said_where_the_call_fails(rt: HostRuntime) {
    let mut depot = MemDepot::new(rt.alloc());
    assert!(rt; depot.fail_at(0).is_ok(), "memory");
    let triangle = shape(&rt, rt.alloc(), &TRIANGLE, &HERE);
    assert_eq!(rt;
        say(&rt, rt.alloc(), &mut depot, DECK, triangle, 1024),
        Err(DepotBad::Failed)
    );
    assert_eq!(rt; depot.said(), b"".as_slice());
}

// Two squares of 32 half units at these places.
fn squares(rt: &impl Abort, alloc: Global, places: &[Point], size: i64, said: &[u8])
    requires places { AreOffsets places.now }
    requires size { IsWindowSize size }
{
    let mut depot = MemDepot::new(alloc);
    let square = shape(rt, alloc, &SQUARE, places);
    assert_eq!(rt; say(rt, alloc, &mut depot, ONE_LAYER, square, size), Ok(()));
    assert_eq!(rt; depot.said(), said);
}

// The second square lies in the last of the 64 rows of windows that are held at once, and in the one after it.
#[test]
fn windows_over_the_end_of_a_batch(rt: HostRuntime) {
    let said =
        b"density one size 64\n0 0 2048\n0 63 1024\n0 64 1024\nmost 0 0 2048\ntriangles 4096\n";
    squares(&rt, rt.alloc(), &OVER_A_BATCH, 64, said);
}

#[test]
fn windows_after_a_gap(rt: HostRuntime) {
    let said =
        b"density one size 64\n0 0 2048\n0 5000 1024\n0 5001 1024\nmost 0 0 2048\ntriangles 4096\n";
    squares(&rt, rt.alloc(), &OVER_A_GAP, 64, said);
}

#[test]
fn narrow_windows_far_apart(rt: HostRuntime) {
    let said =
        b"density one size 64\n0 -8388608 2048\n0 8388608 2048\nmost 0 -8388608 2048\ntriangles 4096\n";
    squares(&rt, rt.alloc(), &FAR_APART, 64, said);
}

#[test]
fn wide_windows_far_apart(rt: HostRuntime) {
    let said =
        b"density one size 16777216\n0 -32 2048\n0 32 2048\nmost 0 -32 2048\ntriangles 4096\n";
    squares(&rt, rt.alloc(), &FAR_APART, 16_777_216, said);
}
