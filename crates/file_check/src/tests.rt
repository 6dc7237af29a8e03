//! A square in two outputs, against files that cover it and files that don't.
ghost use Rattle.std.specs.Prelude.{◌≡◌, [], ◌∷◌};
ghost use Rattle.layout_model.specs.Layouts.{IsShapeOnGrid, IsLayoutOnGrid};

use crate::{CheckBad, CheckFault, check_files};
use cell_tree::resolve;
use deck_plan::Plan;
use deck_text::read_deck;
use depot::MemDepot;
use geo_stream::{List, Refusal};
use half_grid::{Point, Side, Tile};
use layout_model::{Cell, Counts, KeptShape, Layout, Name, Offsets, Pair, Shapes};
use shot_reader::ShotBad;
use shot_writer::Sums;
use std::alloc::Global;
use std::process::Abort;

// In half units: 10 grid steps wide and high.
const SQUARE: [Point; 5] = [
    Point { x: 0, y: 0 },
    Point { x: 20, y: 0 },
    Point { x: 20, y: 20 },
    Point { x: 0, y: 20 },
    Point { x: 0, y: 0 },
];

const PLACES: [Point; 1] = [Point { x: 0, y: 0 }];

const DECK: &[u8] = b"unit 1000\ntop TOP\nlayer A 1 0\nwrite A one 1 0\nwrite A two 2 0\n";

/// The magic bytes, START and CELL of a shot file for 1,000 grid steps a micrometre.
const HEAD: &[u8] =
    b"%SEMI-OASIS\r\n\x01\x031.0\x00\xD0\x0F\x00\0\0\0\0\0\0\0\0\0\0\0\0\x0E\x05SHOTS";

fn only<T: Drop>(rt: &impl Abort, alloc: Global, item: T) -> List<T>
    ensures { result ≡ item ∷ [] }
{
    let mut list = List::new(alloc);
    assert!(rt; list.push(item).is_ok(), "memory");
    list
}

fn square(rt: &impl Abort, alloc: Global) -> KeptShape
    ensures { IsShapeOnGrid result }
{
    let pair = Pair {
        layer: 1,
        datatype: 0,
    };
    let places = Offsets::list(alloc, &PLACES).expect(rt, "memory");
    KeptShape::new(alloc, pair, &SQUARE, places).expect(rt, "a shape")
}

fn only_shape(rt: &impl Abort, alloc: Global, shape: KeptShape) -> Shapes
    ensures { result ≡ shape ∷ [] }
{
    let mut shapes = Shapes::new(alloc);
    assert!(rt; shapes.push(shape).is_ok(), "memory");
    shapes
}

fn layout(rt: &impl Abort, alloc: Global) -> Layout
    ensures { IsLayoutOnGrid result }
{
    let shapes = only_shape(rt, alloc, square(rt, alloc));
    let cell = Cell {
        name: Name::new(alloc, b"TOP").expect(rt, "a name"),
        shapes,
        placements: List::new(alloc),
    };
    let counts = Counts {
        kept: 1,
        other: 0,
        texts: 0,
        nodes: 0,
        boxes: 0,
        properties: 0,
    };
    Layout {
        cells: only(rt, alloc, cell),
        counts,
    }
}

// The shot file with these records.
fn file_of(rt: &impl Abort, alloc: Global, records: &[u8]) -> Vec<u8> {
    let mut file = Vec::from_slice(alloc, HEAD).expect(rt, "memory");
    assert!(rt; file.extend_from_slice(records).is_ok(), "memory");
    assert!(rt;
        file.extend_from_slice(&[0x02, 0xFC, 0x01]).is_ok(),
        "memory"
    );
    assert!(rt; file.extend_from_slice(&[0; 253]).is_ok(), "memory");
    file
}

// What is said of a file with these records, and of the right one for the second output. Without records the first
// file isn't there.
fn said_of(
    rt: &impl Abort,
    alloc: Global,
    records: Option<&[u8]>,
) -> Result<Sums, Refusal<CheckBad>> {
    let mut depot = MemDepot::new(alloc);
    if let Some(records) = records {
        let first = file_of(rt, alloc, records);
        assert!(rt; depot.add("one", first.as_slice()).is_ok(), "memory");
    }
    let second = file_of(rt, alloc, b"\x14\x7B\x02\x00\x14\x14\x00\x00");
    assert!(rt; depot.add("two", second.as_slice()).is_ok(), "memory");
    let deck = read_deck(alloc, DECK, "layout", "deck").expect(rt, "a deck");
    let tree = resolve(alloc, layout(rt, alloc), &deck.top).expect(rt, "a tree");
    let plan = Plan::new(alloc, &deck, &tree).expect(rt, "memory");
    let sums = check_files(alloc, &mut depot, &plan)?;
    assert_eq!(rt; sums.len(), 2);
    Ok(*sums.first().expect(rt, "a sum"))
}

// The refusal of the first file.
fn refused(fault: CheckFault) -> Result<Sums, Refusal<CheckBad>> {
    Err(Refusal::Fault(CheckBad::Refused(0, fault)))
}

fn miscovered(i: i64, j: i64, count: u64, wanted: u64) -> Result<Sums, Refusal<CheckBad>> {
    let side = Side::Left;
    refused(CheckFault::Miscovered(Tile { i, j, side }, count, wanted))
}

#[test]
fn files_of_a_square(rt: HostRuntime) {
    let exact = Ok(Sums {
        shots: 1,
        triangles: 800,
    });
    let table: [(Option<&[u8]>, Result<Sums, Refusal<CheckBad>>); 7] = [
        (Some(b"\x14\x7B\x01\x00\x14\x14\x00\x00"), exact),
        (Some(b""), miscovered(0, 0, 0, 1)),
        (
            Some(b"\x14\x7B\x01\x00\x14\x14\x00\x00\x14\x7B\x01\x00\x14\x14\x00\x00"),
            miscovered(0, 0, 2, 1),
        ),
        (
            Some(b"\x14\x7B\x01\x00\x14\x14\x00\x00\x14\x7B\x01\x00\x14\x14\x00\x27"),
            miscovered(0, -19, 1, 0),
        ),
        (
            Some(b"\x14\x7B\x02\x00\x14\x14\x00\x00"),
            refused(CheckFault::Head),
        ),
        (Some(b"\x15"), refused(CheckFault::Bad(ShotBad::Record(41)))),
        (None, Err(Refusal::Fault(CheckBad::ReadFault))),
    ];
    for (records, wanted) in table {
        assert_eq!(rt; said_of(&rt, rt.alloc(), records), wanted);
    }
}
