//! A triangle of two bands, against shots that cover it and shots that don't.
ghost use Rattle.std.specs.Prelude.{◌≡◌, [], ◌∷◌};
ghost use Rattle.layout_model.specs.Layouts.{IsShapeOnGrid, IsLayoutOnGrid};

use crate::check_output;
use cell_tree::resolve;
use deck_plan::Plan;
use deck_text::read_deck;
use depot::MemDepot;
use geo_stream::List;
use half_grid::{Line, Point, Side, Tile, Trap};
use layout_model::{Cell, Counts, KeptShape, Layout, Name, Offsets, Pair, Shapes};
use shot_checker::Verdict;
use std::alloc::Global;
use std::process::Abort;

// In half units: 1,000 grid steps wide and high.
const TRIANGLE: [Point; 4] = [
    Point { x: 0, y: 0 },
    Point { x: 2000, y: 0 },
    Point { x: 2000, y: 2000 },
    Point { x: 0, y: 0 },
];

const PLACES: [Point; 1] = [Point { x: 0, y: 0 }];

const DECK: &[u8] =
    b"unit 1000\ntop TOP\nband 1024\nlimits 2000 4000\nlayer A 1 0\nwrite A one 1 0\n";

fn only<T: Drop>(rt: &impl Abort, alloc: Global, item: T) -> List<T>
    ensures { result ≡ item ∷ [] }
{
    let mut list = List::new(alloc);
    assert!(rt; list.push(item).is_ok(), "memory");
    list
}

fn triangle(rt: &impl Abort, alloc: Global) -> KeptShape
    ensures { IsShapeOnGrid result }
{
    let pair = Pair {
        layer: 1,
        datatype: 0,
    };
    let places = Offsets::list(alloc, &PLACES).expect(rt, "memory");
    KeptShape::new(alloc, pair, &TRIANGLE, places).expect(rt, "a shape")
}

fn only_shape(rt: &impl Abort, alloc: Global, shape: KeptShape) -> Shapes
    ensures { result ≡ shape ∷ [] }
{
    let mut shapes = Shapes::new(alloc);
    assert!(rt; shapes.push(shape).is_ok(), "memory");
    shapes
}

fn layout(rt: &impl Abort, alloc: Global) -> Layout
    ensures { IsLayoutOnGrid result }
{
    let shapes = only_shape(rt, alloc, triangle(rt, alloc));
    let cell = Cell {
        name: Name::new(alloc, b"TOP").expect(rt, "a name"),
        shapes,
        placements: List::new(alloc),
    };
    let counts = Counts {
        kept: 1,
        other: 0,
        texts: 0,
        nodes: 0,
        boxes: 0,
        properties: 0,
    };
    Layout {
        cells: only(rt, alloc, cell),
        counts,
    }
}

fn verdict_on(rt: &impl Abort, alloc: Global, shots: &[Trap]) -> Verdict {
    let deck = read_deck(alloc, DECK, "layout", "deck").expect(rt, "a deck");
    let tree = resolve(alloc, layout(rt, alloc), &deck.top).expect(rt, "a tree");
    let plan = Plan::new(alloc, &deck, &tree).expect(rt, "memory");
    assert!(rt; !deck.outputs.as_slice().is_empty());
    let mut depot = MemDepot::new(alloc);
    check_output(alloc, &mut depot, &plan, 0, shots).expect(rt, "memory")
}

fn trap(rt: &impl Abort, y0: i64, y1: i64, left: Line, right: Line) -> Trap {
    Trap::new(y0, y1, left, right).expect(rt, "a trapezoid")
}

// The part of the triangle in these rows.
fn part(rt: &impl Abort, y0: i64, y1: i64) -> Trap {
    trap(rt, y0, y1, Line::Rising(0), Line::Upright(2000))
}

// A bar at the column 5.
fn bar(rt: &impl Abort, y0: i64, y1: i64) -> Trap {
    trap(rt, y0, y1, Line::Upright(5), Line::Upright(25))
}

fn at(i: i64, j: i64, side: Side, count: u64, wanted: u64) -> Verdict {
    Verdict::Miscovered(Tile { i, j, side }, count, wanted)
}

#[test]
fn shots_of_a_triangle(rt: HostRuntime) {
    let low = part(&rt, 0, 1024);
    let high = part(&rt, 1024, 2000);
    let whole = part(&rt, 0, 2000);
    let table: [(&[Trap], Verdict); 9] = [
        (&[high, low], Verdict::Exact),
        (&[whole], Verdict::Exact),
        (&[low, high, high], at(1024, 1024, Side::Right, 2, 1)),
        (&[low], at(1024, 1024, Side::Right, 0, 1)),
        (
            &[whole, bar(&rt, -9000, -8980)],
            at(5, -9000, Side::Left, 1, 0),
        ),
        (
            &[whole, bar(&rt, 2097152, 2097172)],
            at(5, 2097152, Side::Left, 1, 0),
        ),
        (
            &[whole, bar(&rt, 1500, 1520)],
            at(5, 1500, Side::Left, 1, 0),
        ),
        (
            &[bar(&rt, -9000, -8980), bar(&rt, -9010, -8990)],
            at(5, -9010, Side::Left, 1, 0),
        ),
        (&[low, part(&rt, -1, 2000)], Verdict::TooLarge(1)),
    ];
    for (shots, wanted) in table {
        assert_eq!(rt; verdict_on(&rt, rt.alloc(), shots), wanted);
    }
}
