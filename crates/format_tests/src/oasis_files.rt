//! Files by their records, and the first fault of bytes that hold no layout.
use geo_stream::Refusal;
use half_grid::Point;
use layout_model::{Counts, Layout, Orient, Pair};
use oas_fields::Variable;
use oas_reader::{OasBad, read_oas};
use oas_record::RecordBad;
use std::alloc::Global;
use std::test::Fail;

const WANTED: [Pair; 2] = [
    Pair {
        layer: 7,
        datatype: 7,
    },
    Pair {
        layer: 1,
        datatype: 0,
    },
];

// START of version 1.0 with 1000 grid steps per micrometre, and at 34 the cell TOP.
const HEAD: &[u8] =
    b"%SEMI-OASIS\r\n\x01\x031.0\x00\xE8\x07\x00\0\0\0\0\0\0\0\0\0\0\0\0\x0E\x03TOP";

const RECTANGLE: &[u8] = b"\x14\x7B\x01\x00\x0A\x0A\x00\x00";

// The file that begins so, with END.
fn with_end(alloc: Global, front: &[u8]) -> Result<Vec<u8>, Fail> {
    let mut bytes = Vec::from_slice(alloc, front)?;
    bytes.extend_from_slice(b"\x02\xFC\x01")?;
    for _ in 0..253 {
        bytes.push(0)?;
    }
    Ok(bytes)
}

// The file with these records from 39 on.
fn file_of(alloc: Global, records: &[u8]) -> Result<Vec<u8>, Fail> {
    let mut bytes = Vec::from_slice(alloc, HEAD)?;
    bytes.extend_from_slice(records)?;
    with_end(alloc, bytes.as_slice())
}

fn refusal(alloc: Global, records: &[u8]) -> Result<Option<Refusal<OasBad>>, Fail> {
    let bytes = file_of(alloc, records)?;
    Ok(read_oas(alloc, bytes.as_slice(), 1000, &WANTED).err())
}

fn layout_of(alloc: Global, records: &[u8]) -> Result<Layout, Fail> {
    let bytes = file_of(alloc, records)?;
    let layout = read_oas(alloc, bytes.as_slice(), 1000, &WANTED)
        .ok()
        .ok_or("refused")?;
    Ok(layout)
}

// Whether each of these records is refused so.
fn are_refused(alloc: Global, cases: &[(&[u8], OasBad)]) -> Result<bool, Fail> {
    for (records, bad) in cases {
        if refusal(alloc, records)? != Some(Refusal::Fault(*bad)) {
            return Ok(false);
        }
    }
    Ok(true)
}

// A corner of each shape, in order, and how often it stands.
#[derive(Clone, Copy, Debug, PartialEq, Eq)]
struct Seen {
    first: Point,
    third: Point,
    copies: u64,
}

fn sight(x: i64, y: i64, right: i64, top: i64, copies: u64) -> Seen {
    Seen {
        first: Point { x, y },
        third: Point { x: right, y: top },
        copies,
    }
}

// Whether the shapes of the first cell are these.
fn are_drawn(alloc: Global, records: &[u8], wanted: &[Seen]) -> Result<bool, Fail> {
    let layout = layout_of(alloc, records)?;
    let cells = layout.cells.as_slice();
    if cells.len() == 0 {
        return Ok(false);
    }
    let shapes = &cells[0].shapes;
    if shapes.len() != wanted.len() {
        return Ok(false);
    }
    for k in 0..shapes.len() {
        let drawn = shapes.get(k);
        let outline = drawn.outline();
        let points = outline.as_slice().unwrap_or(&[]);
        if points.len() < 3 {
            return Ok(false);
        }
        let shape = Seen {
            first: points[0],
            third: points[2],
            copies: drawn.count(),
        };
        if shape != wanted[k] {
            return Ok(false);
        }
    }
    Ok(true)
}

// Absent fields take what was written last: by another record, by one of another kind, through the records between.
#[test]
fn takes_modal_values(rt: HostRuntime) -> Result<(), Fail> {
    // Width, height, layer, datatype and y of the rectangle before.
    let pair = b"\x14\x7B\x01\x00\x0A\x0A\x00\x00\x14\x18\x14\x00".as_slice();
    assert!(rt;
        are_drawn(
            rt.alloc(),
            pair,
            &[sight(0, 0, 20, 20, 1), sight(20, 0, 40, 20, 1)]
        )?
    );
    // A CTRAPEZOID of type 16 without height, one of type 24 by the rectangle before it.
    let triangle = b"\x1A\xDB\x01\x00\x10\x05\x00\x00".as_slice();
    assert!(rt; are_drawn(rt.alloc(), triangle, &[sight(0, 0, 10, 0, 1)])?);
    let mixed = b"\x14\x7B\x01\x00\x0A\x0A\x00\x00\x1A\x90\x18\x28".as_slice();
    assert!(rt;
        are_drawn(
            rt.alloc(),
            mixed,
            &[sight(0, 0, 20, 20, 1), sight(40, 0, 60, 20, 1)]
        )?
    );
    // Three columns and two rows, and the same again by kind 0 after a text that writes another.
    let grid = b"\x14\x7F\x01\x00\x0A\x0A\x00\x00\x01\x01\x00\x14\x1E\
        \x13\x44\x00\x02\x00\x05\x14\x04\x00"
        .as_slice();
    assert!(rt;
        are_drawn(
            rt.alloc(),
            grid,
            &[sight(0, 0, 20, 20, 6), sight(0, 0, 20, 20, 2)]
        )?
    );
    Ok(())
}

// The height of a square is its width; places are relative or absolute as the record before them says.
#[test]
fn takes_heights_and_relative_places(rt: HostRuntime) -> Result<(), Fail> {
    // A square of width 4; then the height is 4.
    let square = b"\x14\xDB\x01\x00\x04\x00\x00\x14\x40\x06".as_slice();
    assert!(rt;
        are_drawn(
            rt.alloc(),
            square,
            &[sight(0, 0, 8, 8, 1), sight(0, 0, 12, 8, 1)]
        )?
    );
    // Relative: from (3, 4) by (2, 1), and absolute again.
    let relative =
        b"\x14\x7B\x01\x00\x0A\x0A\x06\x08\x10\x14\x18\x04\x02\x0F\x14\x10\x04".as_slice();
    assert!(rt;
        are_drawn(
            rt.alloc(),
            relative,
            &[
                sight(6, 8, 26, 28, 1),
                sight(10, 10, 30, 30, 1),
                sight(4, 10, 24, 30, 1)
            ]
        )?
    );
    Ok(())
}

// A path of half width 5 from (0, 0) to (20, 0): flush, by its half width, by 3 and less by 2, and by the last length.
#[test]
fn extends_paths(rt: HostRuntime) -> Result<(), Fail> {
    let paths = b"\x16\xFB\x01\x00\x05\x05\x02\x01\x50\x00\x00\
        \x16\x80\x0A\x16\x80\x0F\x06\x05\x16\x80\x01"
        .as_slice();
    assert!(rt;
        are_drawn(
            rt.alloc(),
            paths,
            &[
                sight(0, -10, 40, 10, 1),
                sight(-10, -10, 50, 10, 1),
                sight(-6, -10, 36, 10, 1),
                sight(-6, -10, 40, 10, 1)
            ]
        )?
    );
    Ok(())
}

// The rectangles of stairs from the origin, of 6 steps to the right and 5 up between them, each of 4 grid steps, in half
// units: of half width 1, and of half width 2.
const STAIRS: [(i64, i64, i64, i64); 11] = [
    (0, -2, 10, 2),
    (6, -2, 10, 10),
    (6, 6, 18, 10),
    (14, 6, 18, 18),
    (14, 14, 26, 18),
    (22, 14, 26, 26),
    (22, 22, 34, 26),
    (30, 22, 34, 34),
    (30, 30, 42, 34),
    (38, 30, 42, 42),
    (38, 38, 48, 42),
];

const WIDE_STAIRS: [(i64, i64, i64, i64); 11] = [
    (0, -4, 12, 4),
    (4, -4, 12, 12),
    (4, 4, 20, 12),
    (12, 4, 20, 20),
    (12, 12, 28, 20),
    (20, 12, 28, 28),
    (20, 20, 36, 28),
    (28, 20, 36, 36),
    (28, 28, 44, 36),
    (36, 28, 44, 44),
    (36, 36, 48, 44),
];

// Puts the rectangles last, from this place, each so many times.
fn put(
    seen: &mut Vec<Seen>,
    rows: &[(i64, i64, i64, i64)],
    x: i64,
    y: i64,
    copies: u64,
) -> Result<(), Fail> {
    for (left, bottom, right, top) in rows {
        seen.push(sight(
            x.wrapping_add(*left),
            y.wrapping_add(*bottom),
            x.wrapping_add(*right),
            y.wrapping_add(*top),
            copies,
        ))?;
    }
    Ok(())
}

// A path of 11 deltas from the origin, again from (10, 3), from (-5, -4) three times, and from (0, 20) with twice its width.
#[test]
fn uses_point_lists_of_paths_again(rt: HostRuntime) -> Result<(), Fail> {
    let paths =
        b"\x16\xFB\x01\x00\x01\x05\x00\x0B\x08\x08\x08\x08\x08\x08\x08\x08\x08\x08\x08\x00\x00\
        \x16\x18\x14\x06\x16\x1C\x0B\x09\x02\x01\x64\x16\x58\x02\x00\x28"
            .as_slice();
    let mut seen = Vec::new(rt.alloc());
    put(&mut seen, &STAIRS, 0, 0, 1)?;
    put(&mut seen, &STAIRS, 20, 6, 1)?;
    put(&mut seen, &STAIRS, -10, -8, 3)?;
    put(&mut seen, &WIDE_STAIRS, 0, 40, 1)?;
    assert!(rt; are_drawn(rt.alloc(), paths, seen.as_slice())?);
    Ok(())
}

#[test]
fn reads_placements(rt: HostRuntime) -> Result<(), Fail> {
    // TOP places A, by a number that a CELLNAME after it gives: flipped, turned by 270 degrees, twice as large, twice.
    let records = b"\x12\xFF\x00\x00\x02\x00\x8E\x02\x02\x04\x02\x00\x0A\
        \x11\x10\x08\x0D\x00\x14\x7B\x02\x00\x0A\x0A\x00\x00\x03\x01A"
        .as_slice();
    let layout = layout_of(rt.alloc(), records)?;
    let cells = layout.cells.as_slice();
    assert_eq!(rt; cells.len(), 2);
    assert_eq!(rt; cells[0].name.bytes(), b"TOP".as_slice());
    assert_eq!(rt; cells[1].name.bytes(), b"A".as_slice());
    let placements = cells[0].placements.as_slice();
    assert_eq!(rt; placements.len(), 2);
    let orient = Orient {
        flip: true,
        turns: 3,
        mag: 2,
    };
    assert_eq!(rt; placements[0].orient, orient);
    assert_eq!(rt; placements[0].target.bytes(), b"A".as_slice());
    assert_eq!(rt; placements[0].at, Point { x: 2, y: 4 });
    assert_eq!(rt; placements[0].offsets.count(), 2);
    assert_eq!(rt; placements[1].at, Point { x: 2, y: 8 });
    assert_eq!(rt; placements[1].offsets.count(), 1);
    let counts = Counts {
        kept: 0,
        other: 1,
        texts: 0,
        nodes: 0,
        boxes: 0,
        properties: 0,
    };
    assert_eq!(rt; layout.counts, counts);
    Ok(())
}

// With a property, a pad and names after the cell, and the table offsets in END.
#[test]
fn reads_tables_at_the_end(rt: HostRuntime) -> Result<(), Fail> {
    let mut bytes = Vec::from_slice(rt.alloc(), b"%SEMI-OASIS\r\n\x01\x031.0\x00\xE8\x07\x01")?;
    bytes.extend_from_slice(b"\x1C\x14\x04TEST\x08\x05\x0D\x00")?;
    bytes.extend_from_slice(RECTANGLE)?;
    bytes.extend_from_slice(b"\x00\x03\x03TOP\x02\0\0\0\0\0\0\0\0\0\0\0\0\xF0\x01")?;
    for _ in 0..241 {
        bytes.push(0)?;
    }
    let layout = read_oas(rt.alloc(), bytes.as_slice(), 1000, &WANTED)
        .ok()
        .ok_or("refused")?;
    assert_eq!(rt; layout.counts.properties, 1);
    let cells = layout.cells.as_slice();
    assert_eq!(rt; cells.len(), 1);
    assert_eq!(rt; cells[0].name.bytes(), b"TOP".as_slice());
    assert_eq!(rt; cells[0].shapes.len(), 1);
    Ok(())
}

#[test]
fn refuses_records(rt: HostRuntime) -> Result<(), Fail> {
    let cases = [
        (b"\x22".as_slice(), OasBad::Lexical(39, RecordBad::Packed)),
        (
            b"\x0E\x01A\x01\x031.0\x00\xE8\x07\x00\0\0\0\0\0\0\0\0\0\0\0\0".as_slice(),
            OasBad::Order(42),
        ),
        // A shape after a record of names.
        (b"\x03\x01A\x0F".as_slice(), OasBad::Order(42)),
        // No layer; none in the next cell; a type without its height; a repetition, half widths and a cell.
        (
            b"\x14\x7A\x00\x0A\x0A\x00\x00".as_slice(),
            OasBad::Undefined(39, Variable::Layer),
        ),
        (
            b"\x14\x7B\x01\x00\x0A\x0A\x00\x00\x0E\x01A\x14\x7A\x00\x0A\x0A\x00\x00".as_slice(),
            OasBad::Undefined(50, Variable::Layer),
        ),
        (
            b"\x1A\xDB\x01\x00\x18\x05\x00\x00".as_slice(),
            OasBad::Undefined(39, Variable::GeometryH),
        ),
        (
            b"\x14\x7F\x01\x00\x0A\x0A\x00\x00\x00".as_slice(),
            OasBad::Undefined(39, Variable::Repetition),
        ),
        (
            b"\x16\xBB\x01\x00\x0A\x02\x01\x50\x00\x00".as_slice(),
            OasBad::Undefined(39, Variable::PathHalfWidth),
        ),
        (
            b"\x16\x7B\x01\x00\x05\x02\x01\x50\x00\x00".as_slice(),
            OasBad::Undefined(39, Variable::PathStart),
        ),
        (
            b"\x11\x00".as_slice(),
            OasBad::Undefined(39, Variable::PlacementCell),
        ),
    ];
    assert!(rt; are_refused(rt.alloc(), &cases)?);
    Ok(())
}

#[test]
fn refuses_values(rt: HostRuntime) -> Result<(), Fail> {
    let cases = [
        // x is 2^40 + 1.
        (
            b"\x14\x7B\x01\x00\x0A\x0A\x82\x80\x80\x80\x80\x40\x00".as_slice(),
            OasBad::Value(39, 1),
        ),
        // An empty name, and one with a byte below 20 hex in a placement of 45 degrees.
        (b"\x0E\x00".as_slice(), OasBad::Value(39, 2)),
        (b"\x12\x82\x01\x1F\x00\x2D".as_slice(), OasBad::Value(39, 2)),
        // No CELLNAME gives the number 0.
        (b"\x0D\x00".as_slice(), OasBad::Value(39, 3)),
        (b"\x11\xC0\x00".as_slice(), OasBad::Value(39, 3)),
        // 17 times as large and by 45 degrees; by 45 degrees.
        (
            b"\x12\x86\x01A\x00\x11\x00\x2D".as_slice(),
            OasBad::Value(39, 4),
        ),
        (b"\x12\x82\x01A\x00\x2D".as_slice(), OasBad::Value(39, 5)),
    ];
    assert!(rt; are_refused(rt.alloc(), &cases)?);
    Ok(())
}

#[test]
fn refuses_kinds_of_shapes_and_repetitions(rt: HostRuntime) -> Result<(), Fail> {
    let cases = [
        // By (2, 1) and then by (0, 4).
        (
            b"\x15\x3B\x01\x00\x04\x02\x09\x02\x42\x00\x00".as_slice(),
            OasBad::Value(39, 6),
        ),
        // A circle on a wanted pair.
        (
            b"\x1B\x3B\x01\x00\x05\x00\x00".as_slice(),
            OasBad::Value(39, 7),
        ),
        // A path to the north-east.
        (
            b"\x16\xFB\x01\x00\x05\x05\x03\x01\x2C\x00\x00".as_slice(),
            OasBad::Value(39, 8),
        ),
        // 16,777,217 columns, on a wanted pair and on another one.
        (
            b"\x14\x7F\x01\x00\x0A\x0A\x00\x00\x02\xFF\xFF\xFF\x07\x00".as_slice(),
            OasBad::Value(39, 11),
        ),
        (
            b"\x14\x7F\x02\x00\x0A\x0A\x00\x00\x02\xFF\xFF\xFF\x07\x00".as_slice(),
            OasBad::Value(39, 11),
        ),
        // A scheme of 3.
        (b"\x02\x00\x03\0\0\0\0".as_slice(), OasBad::Value(39, 10)),
    ];
    assert!(rt; are_refused(rt.alloc(), &cases)?);
    Ok(())
}

#[test]
fn refuses_names(rt: HostRuntime) -> Result<(), Fail> {
    let cases = [
        // One number twice; one that is written and one that isn't; one name twice, also by its number, which comes
        // after END and after a number that nothing gives.
        (
            b"\x04\x01A\x05\x04\x01B\x05".as_slice(),
            OasBad::Names(39, 43),
        ),
        (b"\x03\x01A\x04\x01B\x05".as_slice(), OasBad::Names(39, 42)),
        (b"\x0E\x03TOP".as_slice(), OasBad::Names(34, 39)),
        (b"\x0D\x00\x03\x03TOP".as_slice(), OasBad::Names(34, 39)),
        (
            b"\x0D\x00\x0D\x01\x03\x03TOP".as_slice(),
            OasBad::Value(41, 3),
        ),
    ];
    assert!(rt; are_refused(rt.alloc(), &cases)?);
    Ok(())
}

#[test]
fn refuses_files(rt: HostRuntime) -> Result<(), Fail> {
    let alloc = rt.alloc();
    assert_eq!(rt;
        read_oas(alloc, b"%SEMI-OASIS\r", 1000, &WANTED).err(),
        Some(Refusal::Fault(OasBad::Magic))
    );
    let bytes = file_of(alloc, RECTANGLE)?;
    let read = read_oas(alloc, bytes.as_slice(), 2000, &WANTED);
    assert_eq!(rt; read.err(), Some(Refusal::Fault(OasBad::Unit(13))));
    let mut bytes = file_of(alloc, RECTANGLE)?;
    bytes.push(0)?;
    let read = read_oas(alloc, bytes.as_slice(), 1000, &WANTED);
    assert_eq!(rt; read.err(), Some(Refusal::Fault(OasBad::Tail(47))));
    let bytes = with_end(
        alloc,
        b"%SEMI-OASIS\r\n\x01\x031.1\x00\xE8\x07\x00\0\0\0\0\0\0\0\0\0\0\0\0",
    )?;
    let read = read_oas(alloc, bytes.as_slice(), 1000, &WANTED);
    assert_eq!(rt; read.err(), Some(Refusal::Fault(OasBad::Value(13, 9))));
    Ok(())
}
