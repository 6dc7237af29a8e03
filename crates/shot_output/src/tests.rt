//! A triangle of two bands, written twice, and what a failing call leaves.
ghost use Rattle.std.specs.Prelude.{◌≡◌, [], ◌∷◌};
ghost use Rattle.layout_model.specs.Layouts.{IsShapeOnGrid, IsLayoutOnGrid};

use crate::{list_laws, write_outputs};
use cell_tree::resolve;
use deck_plan::Plan;
use deck_text::read_deck;
use depot::MemDepot;
use geo_stream::List;
use half_grid::Point;
use layout_model::{Cell, Counts, KeptShape, Layout, Name, Offsets, Pair, Shapes};
use shot_writer::Sums;
use std::alloc::Global;
use std::process::Abort;

const METAL: Pair = Pair {
    layer: 1,
    datatype: 0,
};

// In half units: 1,000 grid steps wide and high.
const TRIANGLE: [Point; 4] = [
    Point { x: 0, y: 0 },
    Point { x: 2000, y: 0 },
    Point { x: 2000, y: 2000 },
    Point { x: 0, y: 0 },
];

const PLACES: [Point; 1] = [Point { x: 0, y: 0 }];

const DECK: &[u8] =
    b"unit 1000\ntop TOP\nband 1024\nlayer A 1 0\nwrite A one 1 0\nwrite A two 2 0\n";

fn only<T: Drop>(rt: &impl Abort, alloc: Global, item: T) -> List<T>
    ensures { result ≡ item ∷ [] }
{
    let mut list = List::new(alloc);
    assert!(rt; list.push(item).is_ok(), "memory");
    list
}

fn triangle(rt: &impl Abort, alloc: Global) -> KeptShape
    ensures { IsShapeOnGrid result }
{
    let places = Offsets::list(alloc, &PLACES).expect(rt, "memory");
    KeptShape::new(alloc, METAL, &TRIANGLE, places).expect(rt, "a shape")
}

fn only_shape(rt: &impl Abort, alloc: Global, shape: KeptShape) -> Shapes
    ensures { result ≡ shape ∷ [] }
{
    let mut shapes = Shapes::new(alloc);
    assert!(rt; shapes.push(shape).is_ok(), "memory");
    shapes
}

fn layout(rt: &impl Abort, alloc: Global) -> Layout
    ensures { IsLayoutOnGrid result }
{
    let shapes = only_shape(rt, alloc, triangle(rt, alloc));
    let cell = Cell {
        name: Name::new(alloc, b"TOP").expect(rt, "a name"),
        shapes,
        placements: List::new(alloc),
    };
    let counts = Counts {
        kept: 1,
        other: 0,
        texts: 0,
        nodes: 0,
        boxes: 0,
        properties: 0,
    };
    Layout {
        cells: only(rt, alloc, cell),
        counts,
    }
}

// Writes both outputs, and answers the sums of both where no call is refused.
fn write_both(rt: &impl Abort, alloc: Global, depot: &mut MemDepot) -> Option<(Sums, Sums)> {
    let deck = read_deck(alloc, DECK, "layout", "deck").expect(rt, "a deck");
    let tree = resolve(alloc, layout(rt, alloc), &deck.top).expect(rt, "a tree");
    let plan = Plan::new(alloc, &deck, &tree).expect(rt, "memory");
    match write_outputs(alloc, depot, &plan) {
        Ok(sums) => match sums.as_slice() {
            [first, second] => Some((*first, *second)),
            _ => None,
        },
        Err(_bad) => None,
    }
}

#[test]
fn bands_of_two_outputs(rt: HostRuntime) {
    list_laws();
    let mut depot = MemDepot::new(rt.alloc());
    let sums = Sums {
        shots: 2,
        triangles: 4000000,
    };
    assert_eq!(rt; write_both(&rt, rt.alloc(), &mut depot), Some((sums, sums)));
    let one = depot.made("one").expect(&rt, "the first file");
    let record: &[u8] = b"\x18\x7B\x01\x00\xD0\x0F\x80\x08\x80\x10\x00\x00";
    assert_eq!(rt; one.get(41..53), Some(record));
    let two = depot.made("two").expect(&rt, "the second file");
    let record: &[u8] = b"\x18\x7B\x02\x00\xD0\x0F\x80\x08\x80\x10\x00\x00";
    assert_eq!(rt; two.get(41..53), Some(record));
}

// How long each file is where the call of this number fails.
fn lengths(rt: &impl Abort, alloc: Global, call: u64) -> (Option<usize>, Option<usize>) {
    let mut depot = MemDepot::new(alloc);
    assert!(rt; depot.fail_at(call).is_ok(), "memory");
    let _sums = write_both(rt, alloc, &mut depot);
    let one = depot.made("one").map(|bytes| bytes.len());
    let two = depot.made("two").map(|bytes| bytes.len());
    (one, two)
}

// The head has 41 bytes, the records of the two bands 12 and 14, and the end 256.
#[test]
fn each_call_fails_in_turn(rt: HostRuntime) {
    let table = [
        (0, (None, None)),
        (1, (Some(0), None)),
        (2, (Some(41), None)),
        (3, (Some(53), None)),
        (4, (Some(67), None)),
        (5, (Some(323), None)),
        (6, (Some(323), Some(0))),
        (9, (Some(323), Some(67))),
        (10, (Some(323), Some(323))),
    ];
    for (call, files) in table {
        assert_eq!(rt; lengths(&rt, rt.alloc(), call), files);
    }
}
