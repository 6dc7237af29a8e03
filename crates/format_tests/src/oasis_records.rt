//! OASIS records by their bytes, and bytes that are none.
use oas_record::{PlainRectangle, RecordBad, plain_rectangle_at, record_at, record_laws};
use std::alloc::{AllocError, Global};
use std::process::Abort;
use std::test::Fail;

// Where the record at 0 ends, or its fault.
fn end_of(bytes: &[u8], tables: bool) -> Result<usize, RecordBad> {
    match &record_at(bytes, 0, tables) {
        Ok((_record, next)) => Ok(*next),
        Err(bad) => Err(*bad),
    }
}

// The record at 0 as text, or its fault.
fn shown(alloc: Global, bytes: &[u8]) -> Result<String, AllocError> {
    match &record_at(bytes, 0, false) {
        Ok((record, _next)) => format!(in alloc; "{record:?}"),
        Err(bad) => format!(in alloc; "{bad:?}"),
    }
}

// The bytes are one record, and cut anywhere they are too short.
fn is_one(rt: &impl Abort, bytes: &[u8]) {
    assert_eq!(rt; end_of(bytes, false), Ok(bytes.len()));
    for cut in 0..bytes.len() {
        assert_eq!(rt; end_of(&bytes[..cut], false), Err(RecordBad::Short));
    }
}

// A record's bytes, and what its text ends with.
type Case<'a> = (&'a [u8], &'a str);

fn are_records(rt: &impl Abort, alloc: Global, cases: &[Case]) -> Result<(), AllocError> {
    for (bytes, wanted) in cases {
        is_one(rt, bytes);
        let text = shown(alloc, bytes)?;
        assert!(rt; text.as_str().ends_with(*wanted), "{text}");
    }
    Ok(())
}

// Each id without an info byte; START and END in both forms.
const NAMED: [Case; 24] = [
    (&[0x00], "Pad"),
    (
        &[0x01, 3, 0x31, 0x2E, 0x30, 0, 0xE8, 0x07, 1],
        "Start { version: (2, 5), unit: Real { kind: 0, a: 1000, b: 0 }, offset_flag: 1, tables: None }",
    ),
    (
        &[0x01, 0, 0, 1, 0, 0, 0, 0, 0, 0, 0, 0, 0, 0, 0, 0, 0x80, 0],
        "unit: Real { kind: 0, a: 1, b: 0 }, offset_flag: 0, tables: Some((5, 18)) }",
    ),
    (
        &[0x02, 1, 0x41, 0],
        "End { tables: None, padding: (2, 3), scheme: 0, validation: None }",
    ),
    (
        &[0x02, 0, 1, 0xAA, 0xBB, 0xCC, 0xDD],
        "End { tables: None, padding: (2, 2), scheme: 1, validation: Some((3, 7)) }",
    ),
    (
        &[0x03, 1, 0x41],
        "Name { kind: Cell, text: (2, 3), number: None }",
    ),
    (
        &[0x04, 1, 0x41, 5],
        "Name { kind: Cell, text: (2, 3), number: Some(5) }",
    ),
    (
        &[0x05, 1, 0x41],
        "Name { kind: Text, text: (2, 3), number: None }",
    ),
    (
        &[0x06, 1, 0x41, 5],
        "Name { kind: Text, text: (2, 3), number: Some(5) }",
    ),
    (
        &[0x07, 1, 0x41],
        "Name { kind: Property, text: (2, 3), number: None }",
    ),
    (
        &[0x08, 1, 0x41, 5],
        "Name { kind: Property, text: (2, 3), number: Some(5) }",
    ),
    (
        &[0x09, 1, 0x41],
        "Name { kind: PropertyString, text: (2, 3), number: None }",
    ),
    (
        &[0x0A, 1, 0x41, 5],
        "Name { kind: PropertyString, text: (2, 3), number: Some(5) }",
    ),
    (
        &[0x0B, 1, 0x41, 4, 1, 2, 1, 9],
        "LayerName { of_texts: false, name: (2, 3), layers: Interval { kind: 4, a: 1, b: 2 }, datatypes: Interval { kind: 1, a: 9, b: 0 } }",
    ),
    (
        &[0x0C, 1, 0x41, 0, 3, 9],
        "LayerName { of_texts: true, name: (2, 3), layers: Interval { kind: 0, a: 0, b: 0 }, datatypes: Interval { kind: 3, a: 9, b: 0 } }",
    ),
    (&[0x0D, 7], "Cell(Number(7))"),
    (&[0x0E, 1, 0x41], "Cell(Text(2, 3))"),
    (&[0x0F], "Mode { is_relative: false }"),
    (&[0x10], "Mode { is_relative: true }"),
    (&[0x1D], "LastProperty"),
    (
        &[0x1E, 1, 1, 0x41],
        "XName { attribute: 1, text: (3, 4), number: None }",
    ),
    (
        &[0x1F, 1, 1, 0x41, 2],
        "XName { attribute: 1, text: (3, 4), number: Some(2) }",
    ),
    (
        &[0x20, 1, 1, 0x41],
        "XElement { attribute: 1, text: (3, 4) }",
    ),
    (
        &[0x1C, 0x14, 4, 0x54, 0x45, 0x53, 0x54, 8, 5],
        "Property { info: 20, name: Some(Text(3, 7)), count: None, values: Some((7, 9)) }",
    ),
];

// The kinds of reals, in START, and of property values.
const VALUES: [Case; 17] = [
    (
        &[0x01, 0, 1, 5, 1],
        "unit: Real { kind: 1, a: 5, b: 0 }, offset_flag: 1, tables: None }",
    ),
    (
        &[0x01, 0, 2, 5, 1],
        "unit: Real { kind: 2, a: 5, b: 0 }, offset_flag: 1, tables: None }",
    ),
    (
        &[0x01, 0, 3, 5, 1],
        "unit: Real { kind: 3, a: 5, b: 0 }, offset_flag: 1, tables: None }",
    ),
    (
        &[0x01, 0, 4, 5, 6, 1],
        "unit: Real { kind: 4, a: 5, b: 6 }, offset_flag: 1, tables: None }",
    ),
    (
        &[0x01, 0, 5, 5, 6, 1],
        "unit: Real { kind: 5, a: 5, b: 6 }, offset_flag: 1, tables: None }",
    ),
    (
        &[0x01, 0, 6, 0, 0, 0x80, 0x3F, 1],
        "unit: Real { kind: 6, a: 1065353216, b: 0 }, offset_flag: 1, tables: None }",
    ),
    (
        &[0x01, 0, 7, 0, 0, 0, 0, 0, 0x80, 0x56, 0x40, 1],
        "unit: Real { kind: 7, a: 4636033603912859648, b: 0 }, offset_flag: 1, tables: None }",
    ),
    // Fifteen and more values are counted apart. Numbers, strings and numbers of strings.
    (
        &[0x1C, 0xF6, 3, 2, 8, 5, 10, 1, 0x41],
        "Property { info: 246, name: Some(Number(3)), count: Some(2), values: Some((4, 9)) }",
    ),
    (
        &[0x1C, 0x50, 9, 5, 11, 0, 12, 1, 0x41, 15, 4, 4, 1, 2],
        "Property { info: 80, name: None, count: None, values: Some((2, 14)) }",
    ),
    (
        &[0x1C, 0x0C, 1, 0x41],
        "Property { info: 12, name: Some(Text(3, 4)), count: None, values: None }",
    ),
    // Each bit of the info byte alone.
    (
        &[0x1C, 0x01],
        "Property { info: 1, name: None, count: None, values: Some((2, 2)) }",
    ),
    (
        &[0x1C, 0x02],
        "Property { info: 2, name: None, count: None, values: Some((2, 2)) }",
    ),
    (
        &[0x1C, 0x04, 1, 0x41],
        "Property { info: 4, name: Some(Text(3, 4)), count: None, values: Some((4, 4)) }",
    ),
    (
        &[0x1C, 0x08],
        "Property { info: 8, name: None, count: None, values: None }",
    ),
    (
        &[0x1C, 0x20, 8, 5, 8, 6],
        "Property { info: 32, name: None, count: None, values: Some((2, 6)) }",
    ),
    (
        &[0x1C, 0x40, 8, 5, 8, 6, 8, 7, 8, 8],
        "Property { info: 64, name: None, count: None, values: Some((2, 10)) }",
    ),
    (
        &[0x1C, 0x80, 8, 1, 8, 2, 8, 3, 8, 4, 8, 5, 8, 6, 8, 7, 8, 8],
        "Property { info: 128, name: None, count: None, values: Some((2, 18)) }",
    ),
];

// The kinds of point lists and each direction.
const LISTS: [Case; 7] = [
    (
        &[0x16, 0x20, 0, 2, 4, 7],
        "points: Some(Deltas { kind: 0, items: List { items: [Point { x: 2, y: 0 }, Point { x: 0, y: -3 }] } }) } }",
    ),
    (
        &[0x16, 0x20, 1, 2, 7, 4],
        "points: Some(Deltas { kind: 1, items: List { items: [Point { x: 0, y: -3 }, Point { x: 2, y: 0 }] } }) } }",
    ),
    (
        &[0x16, 0x20, 2, 4, 4, 9, 14, 19],
        "points: Some(Deltas { kind: 2, items: List { items: [Point { x: 1, y: 0 }, Point { x: 0, y: 2 }, Point { x: -3, y: 0 }, Point { x: 0, y: -4 }] } }) } }",
    ),
    (
        &[0x16, 0x20, 3, 8, 8, 9, 10, 11, 12, 13, 14, 15],
        "points: Some(Deltas { kind: 3, items: List { items: [Point { x: 1, y: 0 }, Point { x: 0, y: 1 }, Point { x: -1, y: 0 }, Point { x: 0, y: -1 }, Point { x: 1, y: 1 }, Point { x: -1, y: 1 }, Point { x: -1, y: -1 }, Point { x: 1, y: -1 }] } }) } }",
    ),
    (
        &[0x16, 0x20, 4, 2, 0x74, 0x1E],
        "points: Some(Deltas { kind: 4, items: List { items: [Point { x: -7, y: 0 }, Point { x: 1, y: -1 }] } }) } }",
    ),
    (
        &[0x16, 0x20, 5, 2, 0x07, 5, 0xA1, 0x01, 0],
        "points: Some(Deltas { kind: 5, items: List { items: [Point { x: -1, y: -2 }, Point { x: 40, y: 0 }] } }) } }",
    ),
    (
        &[0x15, 0x20, 0, 2, 4, 7],
        "points: Some(Deltas { kind: 0, items: List { items: [Point { x: 2, y: 0 }, Point { x: 0, y: -3 }] } }) } }",
    ),
];

// The kinds of repetitions.
const REPEATED: [Case; 12] = [
    (
        &[0x14, 4, 0],
        "repetition: Some(Same) }, kind: Rectangle { width: None, height: None } }",
    ),
    (
        &[0x14, 4, 1, 0, 1, 5, 6],
        "repetition: Some(Grid { x_dim: 2, y_dim: 3, x_space: 5, y_space: 6 }) }, kind: Rectangle { width: None, height: None } }",
    ),
    (
        &[0x14, 4, 2, 1, 5],
        "repetition: Some(Row { dim: 3, space: 5 }) }, kind: Rectangle { width: None, height: None } }",
    ),
    (
        &[0x14, 4, 3, 1, 5],
        "repetition: Some(Column { dim: 3, space: 5 }) }, kind: Rectangle { width: None, height: None } }",
    ),
    (
        &[0x14, 4, 4, 1, 5, 6],
        "repetition: Some(RowSpaces { dim: 3, spaces: List { items: [5, 6] } }) }, kind: Rectangle { width: None, height: None } }",
    ),
    (
        &[0x14, 4, 5, 0, 9, 5],
        "repetition: Some(RowOnGrid { dim: 2, grid: 9, spaces: List { items: [5] } }) }, kind: Rectangle { width: None, height: None } }",
    ),
    (
        &[0x14, 4, 6, 1, 5, 6],
        "repetition: Some(ColumnSpaces { dim: 3, spaces: List { items: [5, 6] } }) }, kind: Rectangle { width: None, height: None } }",
    ),
    (
        &[0x14, 4, 7, 0, 9, 5],
        "repetition: Some(ColumnOnGrid { dim: 2, grid: 9, spaces: List { items: [5] } }) }, kind: Rectangle { width: None, height: None } }",
    ),
    (
        &[0x14, 4, 8, 0, 1, 0x74, 0x07, 5],
        "repetition: Some(Lattice { n_dim: 2, m_dim: 3, u: Point { x: -7, y: 0 }, v: Point { x: -1, y: -2 } }) }, kind: Rectangle { width: None, height: None } }",
    ),
    (
        &[0x14, 4, 9, 0, 0x74],
        "repetition: Some(Line { dim: 2, u: Point { x: -7, y: 0 } }) }, kind: Rectangle { width: None, height: None } }",
    ),
    (
        &[0x14, 4, 10, 1, 0x74, 0x74],
        "repetition: Some(Moves { dim: 3, moves: List { items: [Point { x: -7, y: 0 }, Point { x: -7, y: 0 }] } }) }, kind: Rectangle { width: None, height: None } }",
    ),
    (
        &[0x14, 4, 11, 0, 9, 0x74],
        "repetition: Some(MovesOnGrid { dim: 2, grid: 9, moves: List { items: [Point { x: -7, y: 0 }] } }) }, kind: Rectangle { width: None, height: None } }",
    ),
];

// Each id with an info byte, with all its fields.
const WRITTEN: [Case; 13] = [
    (
        &[0x11, 0xF8, 2, 4, 6, 0],
        "Placement { info: 248, cell: Some(Number(2)), turn: None, x: Some(2), y: Some(3), repetition: Some(Same) }",
    ),
    (
        &[0x12, 0xBE, 1, 0x41, 0, 1, 1, 90, 4, 6, 0],
        "Placement { info: 190, cell: Some(Text(3, 4)), turn: Some(Turn { magnification: Some(Real { kind: 0, a: 1, b: 0 }), angle: Some(Real { kind: 1, a: 90, b: 0 }) }), x: Some(2), y: Some(3), repetition: Some(Same) }",
    ),
    (
        &[0x13, 0x7F, 3, 1, 2, 4, 6, 0],
        "Text { info: 127, text: Some(Number(3)), textlayer: Some(1), texttype: Some(2), x: Some(2), y: Some(3), repetition: Some(Same) }",
    ),
    (
        &[0x14, 0x7F, 1, 0, 10, 11, 4, 7, 0],
        "Shape { head: ShapeHead { info: 127, layer: Some(1), datatype: Some(0), x: Some(2), y: Some(-3), repetition: Some(Same) }, kind: Rectangle { width: Some(10), height: Some(11) } }",
    ),
    (
        &[0x15, 0x3F, 1, 0, 2, 1, 4, 4, 7, 0],
        "Shape { head: ShapeHead { info: 63, layer: Some(1), datatype: Some(0), x: Some(2), y: Some(-3), repetition: Some(Same) }, kind: Polygon { points: Some(Deltas { kind: 2, items: List { items: [Point { x: 1, y: 0 }] } }) } }",
    ),
    (
        &[0x16, 0xFF, 1, 0, 5, 15, 2, 5, 2, 1, 4, 4, 7, 0],
        "Shape { head: ShapeHead { info: 255, layer: Some(1), datatype: Some(0), x: Some(2), y: Some(-3), repetition: Some(Same) }, kind: Path { half_width: Some(5), extension: Some(15), start: Some(1), end: Some(-2), points: Some(Deltas { kind: 2, items: List { items: [Point { x: 1, y: 0 }] } }) } }",
    ),
    (
        &[0x17, 0xFF, 1, 0, 22, 11, 22, 23, 4, 7, 0],
        "Shape { head: ShapeHead { info: 255, layer: Some(1), datatype: Some(0), x: Some(2), y: Some(-3), repetition: Some(Same) }, kind: Trapezoid { width: Some(22), height: Some(11), deltas: Both(11, -11) } }",
    ),
    (
        &[0x18, 0xFF, 1, 0, 22, 11, 22, 4, 7, 0],
        "Shape { head: ShapeHead { info: 255, layer: Some(1), datatype: Some(0), x: Some(2), y: Some(-3), repetition: Some(Same) }, kind: Trapezoid { width: Some(22), height: Some(11), deltas: A(11) } }",
    ),
    (
        &[0x19, 0xFF, 1, 0, 22, 11, 22, 4, 7, 0],
        "Shape { head: ShapeHead { info: 255, layer: Some(1), datatype: Some(0), x: Some(2), y: Some(-3), repetition: Some(Same) }, kind: Trapezoid { width: Some(22), height: Some(11), deltas: B(11) } }",
    ),
    (
        &[0x1A, 0xFF, 1, 0, 25, 10, 12, 4, 7, 0],
        "Shape { head: ShapeHead { info: 255, layer: Some(1), datatype: Some(0), x: Some(2), y: Some(-3), repetition: Some(Same) }, kind: Ctrapezoid { trapezoid_type: Some(25), width: Some(10), height: Some(12) } }",
    ),
    (
        &[0x1B, 0x3F, 1, 0, 5, 4, 7, 0],
        "Shape { head: ShapeHead { info: 63, layer: Some(1), datatype: Some(0), x: Some(2), y: Some(-3), repetition: Some(Same) }, kind: Circle { radius: Some(5) } }",
    ),
    (
        &[0x21, 0x1F, 7, 1, 0, 1, 0x41, 4, 7, 0],
        "Shape { head: ShapeHead { info: 31, layer: Some(1), datatype: Some(0), x: Some(2), y: Some(-3), repetition: Some(Same) }, kind: XGeometry { attribute: 7, text: (6, 7) } }",
    ),
    // An extension at one end alone.
    (
        &[0x16, 0x88, 0x0D, 7, 0],
        "y: Some(0), repetition: None }, kind: Path { half_width: None, extension: Some(13), start: Some(-3), end: None, points: None } }",
    ),
];

#[test]
fn reads_records_and_no_cut_ones(rt: HostRuntime) -> Result<(), Fail> {
    record_laws();
    let alloc = rt.alloc();
    are_records(&rt, alloc, &NAMED)?;
    are_records(&rt, alloc, &VALUES)?;
    are_records(&rt, alloc, &LISTS)?;
    are_records(&rt, alloc, &REPEATED)?;
    are_records(&rt, alloc, &WRITTEN)?;
    Ok(())
}

// How many bytes a bit of the info byte adds to the record, and the field that it writes.
type Bit<'a> = (usize, &'a str);

const NONE: Bit = (0, "");

const LAYER: Bit = (1, "layer: Some(2)");

const DATATYPE: Bit = (1, "datatype: Some(2)");

const WIDTH: Bit = (1, "width: Some(2)");

const HEIGHT: Bit = (1, "height: Some(2)");

const CELL: Bit = (3, "cell: Some(Text(3, 5))");

const X: Bit = (1, "x: Some(1)");

const Y: Bit = (1, "y: Some(1)");

const ROW: Bit = (3, "repetition: Some(Row { dim: 4, space: 2 })");

const POINTS: Bit = (4, "points: Some(Deltas { kind: 2");

// The bits from the lowest to the highest. Those that no record has are left out.
const BITS: [(u8, &[Bit]); 12] = [
    (17, &[NONE, NONE, NONE, ROW, Y, X, NONE, CELL]),
    (
        18,
        &[
            NONE,
            (2, "angle: Some(Real { kind: 2, a: 2, b: 0 })"),
            (2, "magnification: Some(Real { kind: 2, a: 2, b: 0 })"),
            ROW,
            Y,
            X,
            NONE,
            CELL,
        ],
    ),
    (
        19,
        &[
            (1, "textlayer: Some(2)"),
            (1, "texttype: Some(2)"),
            ROW,
            Y,
            X,
            NONE,
            (3, "text: Some(Text(3, 5))"),
        ],
    ),
    (20, &[LAYER, DATATYPE, ROW, Y, X, HEIGHT, WIDTH, NONE]),
    (21, &[LAYER, DATATYPE, ROW, Y, X, POINTS]),
    (
        22,
        &[
            LAYER,
            DATATYPE,
            ROW,
            Y,
            X,
            POINTS,
            (1, "half_width: Some(2)"),
            (1, "extension: Some(2)"),
        ],
    ),
    (23, &[LAYER, DATATYPE, ROW, Y, X, HEIGHT, WIDTH, NONE]),
    (24, &[LAYER, DATATYPE, ROW, Y, X, HEIGHT, WIDTH, NONE]),
    (25, &[LAYER, DATATYPE, ROW, Y, X, HEIGHT, WIDTH, NONE]),
    (
        26,
        &[
            LAYER,
            DATATYPE,
            ROW,
            Y,
            X,
            HEIGHT,
            WIDTH,
            (1, "trapezoid_type: Some(2)"),
        ],
    ),
    (27, &[LAYER, DATATYPE, ROW, Y, X, (1, "radius: Some(2)")]),
    (33, &[LAYER, DATATYPE, ROW, Y, X]),
];

// The record of this id with this info byte, and enough numbers after it.
fn with_info(id: u8, info: u8) -> [u8; 20] {
    [
        id, info, 2, 2, 2, 2, 2, 2, 2, 2, 2, 2, 2, 2, 2, 2, 2, 2, 2, 2,
    ]
}

fn are_written(rt: &impl Abort, alloc: Global, id: u8, bits: &[Bit]) -> Result<(), AllocError> {
    let plain = end_of(&with_info(id, 0), false);
    let mut info: u8 = 1;
    for (more, field) in bits {
        let bytes = with_info(id, info);
        let text = shown(alloc, &bytes)?;
        assert!(rt; text.as_str().contains(*field), "{text}");
        assert_eq!(rt;
            end_of(&bytes, false),
            plain.map(|end| end.wrapping_add(*more))
        );
        info = info.wrapping_mul(2);
    }
    if info != 0 {
        assert_eq!(rt; end_of(&with_info(id, info), false), Err(RecordBad::Shape));
    }
    Ok(())
}

#[test]
fn writes_a_field_by_its_bit(rt: HostRuntime) -> Result<(), Fail> {
    for (id, bits) in &BITS {
        are_written(&rt, rt.alloc(), *id, bits)?;
    }
    Ok(())
}

fn are_refused(rt: &impl Abort, cases: &[&[u8]], bad: RecordBad) {
    for bytes in cases {
        assert_eq!(rt; end_of(bytes, false), Err(bad));
    }
}

// Info bytes, an interval, an extension byte, a type, a point list's kind and counts, and a repetition's kind.
const MISSHAPEN: [&[u8]; 12] = [
    &[0x13, 0x80],
    &[0x14, 0xA0],
    &[0x15, 0x40],
    &[0x21, 0x20],
    &[0x0B, 0x00, 0x05],
    &[0x16, 0x80, 0x10],
    &[0x1A, 0x80, 0x1A],
    &[0x15, 0x20, 0x06],
    &[0x15, 0x20, 0x04, 0x00],
    &[0x15, 0x20, 0x00, 0x03],
    &[0x15, 0x20, 0x00, 0x00],
    &[0x14, 0x04, 0x0C],
];

// A real's kind, a property value's kind, an id.
const UNKNOWN: [&[u8]; 3] = [&[0x01, 0, 8], &[0x1C, 0x10, 16], &[0x23]];

// A count of 2^60 takes no memory.
const CUT: [&[u8]; 2] = [
    &[
        0x15, 0x20, 4, 0x80, 0x80, 0x80, 0x80, 0x80, 0x80, 0x80, 0x80, 0x10,
    ],
    &[0x16, 0x20, 0, 3],
];

const WIDE: [&[u8]; 1] = [&[
    0x14, 0x01, 0xFF, 0xFF, 0xFF, 0xFF, 0xFF, 0xFF, 0xFF, 0xFF, 0xFF, 0x01,
]];

#[test]
fn refuses_at_the_first_byte_that_breaks(rt: HostRuntime) {
    let alloc = rt.alloc();
    are_refused(&rt, &MISSHAPEN, RecordBad::Shape);
    are_refused(&rt, &UNKNOWN, RecordBad::Kind);
    are_refused(&rt, &CUT, RecordBad::Short);
    are_refused(&rt, &WIDE, RecordBad::Wide);
    are_refused(&rt, &[&[0x22]], RecordBad::Packed);
    // With table offsets END is longer.
    assert_eq!(rt; end_of(&[0x02, 0, 0], true), Err(RecordBad::Short));
    assert_eq!(rt;
        end_of(&[0x02, 0, 0, 0, 0, 0, 0, 0, 0, 0, 0, 0, 0, 0, 0], true),
        Ok(15)
    );
}

// The bytes are one plain rectangle, and cut anywhere they are none.
fn is_plain(rt: &impl Abort, bytes: &[u8], wanted: PlainRectangle) {
    assert_eq!(rt; plain_rectangle_at(bytes, 0), Some((wanted, bytes.len())));
    for cut in 0..bytes.len() {
        assert_eq!(rt; plain_rectangle_at(&bytes[..cut], 0), None);
    }
}

// A repetition, the height of a square, another id.
const NOT_PLAIN: [&[u8]; 3] = [
    &[0x14, 0x1C, 3, 2, 0],
    &[0x14, 0xA0, 5],
    &[0x1B, 0x18, 3, 2],
];

fn are_not_plain(rt: &impl Abort, cases: &[&[u8]]) {
    for bytes in cases {
        assert_eq!(rt; plain_rectangle_at(bytes, 0), None);
    }
}

#[test]
fn reads_plain_rectangles(rt: HostRuntime) {
    let bare = PlainRectangle {
        info: 0,
        layer: None,
        datatype: None,
        width: None,
        height: None,
        x: None,
        y: None,
    };
    let placed = PlainRectangle {
        info: 0x18,
        x: Some(-1),
        y: Some(1),
        ..bare
    };
    let whole = PlainRectangle {
        info: 0x7B,
        layer: Some(1),
        datatype: Some(0),
        width: Some(300),
        height: Some(20),
        x: Some(-150),
        y: Some(64),
    };
    is_plain(&rt, &[0x14, 0], bare);
    is_plain(&rt, &[0x14, 0x18, 3, 2], placed);
    is_plain(
        &rt,
        &[0x14, 0x7B, 1, 0, 0xAC, 2, 20, 0xAD, 2, 0x80, 1],
        whole,
    );
    are_not_plain(&rt, &NOT_PLAIN);
}
