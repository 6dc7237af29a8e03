//! Files by their records, and the first fault of bytes that hold no layout.
use gds_reader::{GdsBad, read_gds};
use geo_stream::Refusal;
use half_grid::Point;
use layout_model::{Counts, Layout, Orient, Pair};
use std::alloc::Global;
use std::test::Fail;

// A library with the beginning of one structure, TOP.
const HEAD: [u8; 96] = [
    0x00, 0x06, 0x00, 0x02, 0x02, 0x58, // HEADER, version 600
    0x00, 0x1C, 0x01, 0x02, 0, 0, 0, 0, 0, 0, 0, 0, 0, 0, 0, 0, // BGNLIB
    0, 0, 0, 0, 0, 0, 0, 0, 0, 0, 0, 0, //
    0x00, 0x06, 0x02, 0x06, 0x4C, 0x00, // LIBNAME
    0x00, 0x14, 0x03, 0x05, 0x3E, 0x41, 0x89, 0x37, 0x4B, 0xC6, 0xA7, 0xF0, // UNITS
    0x39, 0x44, 0xB8, 0x2F, 0xA0, 0x9B, 0x5A, 0x54, //
    0x00, 0x1C, 0x05, 0x02, 0, 0, 0, 0, 0, 0, 0, 0, 0, 0, 0, 0, // BGNSTR
    0, 0, 0, 0, 0, 0, 0, 0, 0, 0, 0, 0, //
    0x00, 0x08, 0x06, 0x06, 0x54, 0x4F, 0x50, 0x00, // STRNAME
];

const TAIL: [u8; 8] = [
    0x00, 0x04, 0x07, 0x00, // ENDSTR
    0x00, 0x04, 0x04, 0x00, // ENDLIB
];

const WANTED: [Pair; 3] = [
    Pair {
        layer: 7,
        datatype: 7,
    },
    Pair {
        layer: 1,
        datatype: 0,
    },
    Pair {
        layer: 0,
        datatype: 3,
    },
];

const BOUNDARY: &[u8] = b"\x00\x04\x08\x00";

const PATH: &[u8] = b"\x00\x04\x09\x00";

const SREF: &[u8] = b"\x00\x04\x0A\x00";

const AREF: &[u8] = b"\x00\x04\x0B\x00";

const TEXT: &[u8] = b"\x00\x04\x0C\x00";

const NODE: &[u8] = b"\x00\x04\x15\x00";

const BOX: &[u8] = b"\x00\x04\x2D\x00";

const ENDEL: &[u8] = b"\x00\x04\x11\x00";

const ELFLAGS: &[u8] = b"\x00\x06\x26\x01\x00\x00";

const PLEX: &[u8] = b"\x00\x08\x2F\x03\x00\x00\x00\x00";

const LAYER: &[u8] = b"\x00\x06\x0D\x02\x00\x01";

const OTHER: &[u8] = b"\x00\x06\x0D\x02\x00\x02";

const DATATYPE: &[u8] = b"\x00\x06\x0E\x02\x00\x00";

const NODETYPE: &[u8] = b"\x00\x06\x2A\x02\x00\x00";

const BOXTYPE: &[u8] = b"\x00\x06\x2E\x02\x00\x00";

const ATTRIBUTE: &[u8] = b"\x00\x06\x2B\x02\x00\x01";

const VALUE: &[u8] = b"\x00\x06\x2C\x06\x41\x00";

const SNAME: &[u8] = b"\x00\x06\x12\x06\x41\x00";

const STRANS: &[u8] = b"\x00\x06\x1A\x01\x80\x00";

const COLROW: &[u8] = b"\x00\x08\x13\x02\x00\x03\x00\x02";

const MAG: &[u8] = b"\x00\x0C\x1B\x05\x41\x10\x00\x00\x00\x00\x00\x00";

const ANGLE: &[u8] = b"\x00\x0C\x1C\x05\x42\x5A\x00\x00\x00\x00\x00\x00";

const PATHTYPE: &[u8] = b"\x00\x06\x21\x02\x00\x04";

const WIDTH: &[u8] = b"\x00\x08\x0F\x03\xFF\xFF\xFF\xEC";

const BGNEXTN: &[u8] = b"\x00\x08\x30\x03\x00\x00\x00\x05";

const ENDEXTN: &[u8] = b"\x00\x08\x31\x03\xFF\xFF\xFF\xF9";

const TEXTTYPE: &[u8] = b"\x00\x06\x16\x02\x00\x00";

const PRESENTATION: &[u8] = b"\x00\x06\x17\x01\x00\x00";

const STRING: &[u8] = b"\x00\x06\x19\x06\x41\x00";

const POINT: &[u8] = b"\x00\x0C\x10\x03\x00\x00\x00\x64\x00\x00\x00\xC8";
// The square from (0, 0) to (10, 10).
const SQUARE: &[u8] = &[
    0x00, 0x2C, 0x10, 0x03, 0, 0, 0, 0, 0, 0, 0, 0, // (0, 0)
    0, 0, 0, 0, 0, 0, 0, 10, 0, 0, 0, 10, 0, 0, 0, 10, // (0, 10), (10, 10)
    0, 0, 0, 10, 0, 0, 0, 0, 0, 0, 0, 0, 0, 0, 0, 0, // (10, 0), (0, 0)
];

// (0, 0), (0, 10), (10, 10), (10, 0)
const OPEN: &[u8] = &[
    0x00, 0x24, 0x10, 0x03, 0, 0, 0, 0, 0, 0, 0, 0, // (0, 0)
    0, 0, 0, 0, 0, 0, 0, 10, 0, 0, 0, 10, 0, 0, 0, 10, // (0, 10), (10, 10)
    0, 0, 0, 10, 0, 0, 0, 0, // (10, 0)
];

// (0, 0), (0, 10), (10, 11), (0, 0)
const SLANTED: &[u8] = &[
    0x00, 0x24, 0x10, 0x03, 0, 0, 0, 0, 0, 0, 0, 0, // (0, 0)
    0, 0, 0, 0, 0, 0, 0, 10, 0, 0, 0, 10, 0, 0, 0, 11, // (0, 10), (10, 11)
    0, 0, 0, 0, 0, 0, 0, 0, // (0, 0)
];

// From (0, 0) to (100, 0).
const LINE: &[u8] = &[
    0x00, 0x14, 0x10, 0x03, 0, 0, 0, 0, 0, 0, 0, 0, 0, 0, 0, 100, 0, 0, 0, 0,
];

// The origin, three columns and two rows of an array.
const ARRAY: &[u8] = &[
    0x00, 0x1C, 0x10, 0x03, 0, 0, 0, 100, 0, 0, 0, 200, // (100, 200)
    0, 0, 0, 130, 0, 0, 0, 200, 0, 0, 0, 100, 0, 0, 0, 240, // (130, 200), (100, 240)
];

// The same with columns that don't divide.
const UNEVEN: &[u8] = &[
    0x00, 0x1C, 0x10, 0x03, 0, 0, 0, 100, 0, 0, 0, 200, // (100, 200)
    0, 0, 0, 131, 0, 0, 0, 200, 0, 0, 0, 100, 0, 0, 0, 240, // (131, 200), (100, 240)
];

// The file with these records in its structure.
fn file_of(alloc: Global, records: &[&[u8]]) -> Result<Vec<u8>, Fail> {
    let mut bytes = Vec::new(alloc);
    bytes.extend_from_slice(&HEAD)?;
    for record in records {
        bytes.extend_from_slice(record)?;
    }
    bytes.extend_from_slice(&TAIL)?;
    Ok(bytes)
}

// The fault of these bytes, or none where they hold a layout.
fn refusal_of(alloc: Global, bytes: &[u8], unit: u32) -> Result<Option<GdsBad>, Fail> {
    match read_gds(alloc, bytes, unit, &WANTED) {
        Ok(_) => Ok(None),
        Err(Refusal::Fault(bad)) => Ok(Some(bad)),
        Err(Refusal::NoMemory) => Err(Fail::new("memory ran out")),
    }
}

fn refusal(alloc: Global, records: &[&[u8]]) -> Result<Option<GdsBad>, Fail> {
    refusal_of(alloc, &file_of(alloc, records)?, 1000)
}

fn layout_of(alloc: Global, records: &[&[u8]]) -> Result<Layout, Fail> {
    let layout = read_gds(alloc, &file_of(alloc, records)?, 1000, &WANTED)
        .ok()
        .ok_or("refused")?;
    Ok(layout)
}

#[test]
fn reads_shapes(rt: HostRuntime) -> Result<(), Fail> {
    let records = [
        BOUNDARY, LAYER, DATATYPE, SQUARE, ENDEL, BOUNDARY, OTHER, DATATYPE, LINE, ENDEL, NODE,
        LAYER, NODETYPE, LINE, ENDEL, BOX, LAYER, BOXTYPE, SQUARE, ENDEL, TEXT, POINT, STRANS,
        LAYER, ATTRIBUTE, VALUE, ENDEL,
    ];
    let layout = layout_of(rt.alloc(), &records)?;
    let counts = Counts {
        kept: 1,
        other: 1,
        texts: 1,
        nodes: 1,
        boxes: 1,
        properties: 1,
    };
    assert_eq!(rt; layout.counts, counts);
    let cells = layout.cells.as_slice();
    assert_eq!(rt; cells.len(), 1);
    assert_eq!(rt; cells[0].name.bytes(), b"TOP".as_slice());
    let shapes = &cells[0].shapes;
    assert_eq!(rt; shapes.len(), 1);
    let ring = [
        Point { x: 0, y: 0 },
        Point { x: 0, y: 20 },
        Point { x: 20, y: 20 },
        Point { x: 20, y: 0 },
        Point { x: 0, y: 0 },
    ];
    let shape = shapes.get(0);
    assert!(rt; shape.outline().as_slice() == Some(ring.as_slice()));
    assert!(rt; !shape.is_fixed() && shape.pair() == WANTED[1]);
    Ok(())
}

// Type 2 and the width -20, by hand: half a width further at both ends, and not to be enlarged.
#[test]
fn reads_a_path(rt: HostRuntime) -> Result<(), Fail> {
    let records = [
        PATH,
        ELFLAGS,
        PLEX,
        LAYER,
        DATATYPE,
        b"\x00\x06\x21\x02\x00\x02".as_slice(),
        b"\x00\x08\x0F\x03\xFF\xFF\xFF\xEC".as_slice(),
        LINE,
        ENDEL,
    ];
    let layout = layout_of(rt.alloc(), &records)?;
    let cells = layout.cells.as_slice();
    assert_eq!(rt; cells.len(), 1);
    let shapes = &cells[0].shapes;
    assert_eq!(rt; shapes.len(), 1);
    let shape = shapes.get(0);
    let outline = shape.outline();
    let points = outline.as_slice().unwrap_or(&[]);
    assert_eq!(rt; points.len(), 5);
    assert_eq!(rt; points[0], Point { x: -20, y: -20 });
    assert_eq!(rt; points[2], Point { x: 220, y: 20 });
    assert!(rt; shape.is_fixed());
    Ok(())
}

#[test]
fn reads_an_array(rt: HostRuntime) -> Result<(), Fail> {
    let records = [
        AREF,
        SNAME,
        STRANS,
        b"\x00\x0C\x1B\x05\x41\x20\x00\x00\x00\x00\x00\x00".as_slice(),
        b"\x00\x0C\x1C\x05\x43\x10\xE0\x00\x00\x00\x00\x00".as_slice(),
        COLROW,
        ARRAY,
        ENDEL,
    ];
    let layout = layout_of(rt.alloc(), &records)?;
    let cells = layout.cells.as_slice();
    assert_eq!(rt; cells.len(), 1);
    let placements = cells[0].placements.as_slice();
    assert_eq!(rt; placements.len(), 1);
    let orient = Orient {
        flip: true,
        turns: 3,
        mag: 2,
    };
    assert_eq!(rt; placements[0].orient, orient);
    assert_eq!(rt; placements[0].at, Point { x: 200, y: 400 });
    assert_eq!(rt; placements[0].target.bytes(), b"A".as_slice());
    let offsets = &placements[0].offsets;
    assert_eq!(rt; offsets.count(), 6);
    assert_eq!(rt; offsets.nth(1), Point { x: 20, y: 0 });
    assert_eq!(rt; offsets.nth(3), Point { x: 0, y: 40 });
    Ok(())
}

#[test]
fn refuses_out_of_order(rt: HostRuntime) -> Result<(), Fail> {
    // PLEX twice, PLEX before ELFLAGS, no LAYER, DATATYPE of a box, PROPVALUE alone
    let at_104 = [PLEX, PLEX, LAYER];
    assert_eq!(rt;
        refusal(rt.alloc(), &[BOUNDARY, PLEX, PLEX])?,
        Some(GdsBad::Order(108))
    );
    assert_eq!(rt;
        refusal(rt.alloc(), &[BOUNDARY, PLEX, ELFLAGS])?,
        Some(GdsBad::Order(108))
    );
    assert_eq!(rt;
        refusal(rt.alloc(), &[BOUNDARY, DATATYPE])?,
        Some(GdsBad::Order(100))
    );
    assert_eq!(rt;
        refusal(rt.alloc(), &[BOX, LAYER, DATATYPE])?,
        Some(GdsBad::Order(106))
    );
    assert_eq!(rt;
        refusal(rt.alloc(), &[TEXT, VALUE])?,
        Some(GdsBad::Order(100))
    );
    assert_eq!(rt; refusal(rt.alloc(), &at_104)?, Some(GdsBad::Order(96)));
    Ok(())
}

// Whether the record at this offset breaks this value rule first.
fn breaks(alloc: Global, records: &[&[u8]], at: usize, rule: u8) -> Result<bool, Fail> {
    Ok(refusal(alloc, records)? == Some(GdsBad::Value(at, rule)))
}

#[test]
fn refuses_values(rt: HostRuntime) -> Result<(), Fail> {
    let alloc = rt.alloc();
    let absolute = b"\x00\x06\x1A\x01\x00\x04".as_slice();
    let magnified = b"\x00\x0C\x1B\x05\x42\x11\x00\x00\x00\x00\x00\x00".as_slice();
    let most = b"\x00\x0C\x1B\x05\x42\x10\x00\x00\x00\x00\x00\x00".as_slice();
    let slanted = b"\x00\x0C\x1C\x05\x42\x2D\x00\x00\x00\x00\x00\x00".as_slice();
    let blank = b"\x00\x06\x12\x06\x00\x00".as_slice();
    let columns = b"\x00\x08\x13\x02\x00\x00\x00\x02".as_slice();
    let round = b"\x00\x06\x21\x02\x00\x01".as_slice();
    let wide = b"\x00\x08\x0F\x03\x00\x00\x00\x14".as_slice();
    let plain = b"\x00\x06\x1A\x01\x00\x00".as_slice();
    assert!(rt; breaks(alloc, &[SREF, blank], 100, 2)?);
    assert!(rt; breaks(alloc, &[SREF, SNAME, absolute], 106, 3)?);
    assert!(rt; breaks(alloc, &[SREF, SNAME, plain, magnified], 112, 4)?);
    assert!(rt; breaks(alloc, &[SREF, SNAME, plain, most, slanted], 124, 5)?);
    assert!(rt; breaks(alloc, &[AREF, SNAME, columns], 106, 6)?);
    assert!(rt; breaks(alloc, &[SREF, SNAME, LINE], 106, 7)?);
    assert!(rt; breaks(alloc, &[AREF, SNAME, COLROW, LINE], 114, 8)?);
    assert!(rt; breaks(alloc, &[AREF, SNAME, COLROW, UNEVEN], 114, 9)?);
    assert!(rt; breaks(alloc, &[BOUNDARY, LAYER, DATATYPE, LINE], 112, 10)?);
    assert!(rt; breaks(alloc, &[BOUNDARY, LAYER, DATATYPE, OPEN], 112, 11)?);
    assert!(rt; breaks(alloc, &[BOUNDARY, LAYER, DATATYPE, SLANTED], 112, 12)?);
    assert_eq!(rt;
        refusal(alloc, &[BOUNDARY, OTHER, DATATYPE, SLANTED, ENDEL])?,
        None
    );
    assert!(rt; breaks(alloc, &[PATH, LAYER, DATATYPE, wide, SLANTED], 120, 14)?);
    assert_eq!(rt;
        refusal(alloc, &[PATH, LAYER, DATATYPE, SLANTED, ENDEL])?,
        None
    );
    assert!(rt; breaks(alloc, &[PATH, LAYER, DATATYPE, round], 112, 13)?);
    assert_eq!(rt;
        refusal(alloc, &[PATH, OTHER, DATATYPE, round, LINE, ENDEL])?,
        None
    );
    Ok(())
}

#[test]
fn refuses_files(rt: HostRuntime) -> Result<(), Fail> {
    assert_eq!(rt; refusal_of(rt.alloc(), &[], 1000)?, Some(GdsBad::Short(0)));
    assert_eq!(rt;
        refusal_of(rt.alloc(), b"\x00\x03\x00\x02", 1000)?,
        Some(GdsBad::Length(0))
    );
    assert_eq!(rt;
        refusal_of(rt.alloc(), b"\x00\x06\x00\x03\x00\x00", 1000)?,
        Some(GdsBad::Kind(0))
    );
    assert_eq!(rt;
        refusal_of(rt.alloc(), b"\x00\x04\x00\x02", 1000)?,
        Some(GdsBad::Size(0))
    );
    let mut bytes = file_of(rt.alloc(), &[])?;
    assert_eq!(rt; refusal_of(rt.alloc(), &bytes, 1000)?, None);
    assert_eq!(rt;
        refusal_of(rt.alloc(), &bytes, 2000)?,
        Some(GdsBad::Unit(0x3944B82FA09B5A54))
    );
    bytes.extend_from_slice(&[0, 0, 1])?;
    assert_eq!(rt;
        refusal_of(rt.alloc(), &bytes, 1000)?,
        Some(GdsBad::Tail(106))
    );
    let begin =
        b"\x00\x1C\x05\x02\x00\x00\x00\x00\x00\x00\x00\x00\x00\x00\x00\x00\x00\x00\x00\x00\x00\x00\x00\x00\x00\x00\x00\x00".as_slice();
    let again = b"\x00\x0A\x06\x06TOP\x00\x00\x00".as_slice();
    let end = b"\x00\x04\x07\x00".as_slice();
    assert_eq!(rt;
        refusal(rt.alloc(), &[end, begin, again])?,
        Some(GdsBad::Twice(88, 128))
    );
    Ok(())
}

// A reference with the real of MAG, or of ANGLE.
fn refusal_of_real(alloc: Global, head: &[u8], real: &[u8]) -> Result<Option<GdsBad>, Fail> {
    refusal(alloc, &[SREF, SNAME, STRANS, head, real, POINT, ENDEL])
}

#[test]
fn judges_reals(rt: HostRuntime) -> Result<(), Fail> {
    let mag = b"\x00\x0C\x1B\x05".as_slice();
    let rows: [(&[u8], Option<GdsBad>); 5] = [
        (b"\x41\x10\x00\x00\x00\x00\x00\x00", None),
        (b"\x42\x10\x00\x00\x00\x00\x00\x00", None),
        (
            b"\x42\x11\x00\x00\x00\x00\x00\x00",
            Some(GdsBad::Value(112, 4)),
        ),
        (
            b"\x40\x80\x00\x00\x00\x00\x00\x00",
            Some(GdsBad::Value(112, 4)),
        ),
        (
            b"\xC1\x10\x00\x00\x00\x00\x00\x00",
            Some(GdsBad::Value(112, 4)),
        ),
    ];
    for (real, bad) in rows {
        assert_eq!(rt; refusal_of_real(rt.alloc(), mag, real)?, bad);
    }
    let angle = b"\x00\x0C\x1C\x05".as_slice();
    let rows: [(&[u8], Option<GdsBad>); 5] = [
        (b"\xC3\x16\x80\x00\x00\x00\x00\x00", None),
        (b"\x43\x16\x80\x00\x00\x00\x00\x00", None),
        (b"\x42\x5A\x00\x00\x00\x00\x00\x00", None),
        (
            b"\x42\x2D\x00\x00\x00\x00\x00\x00",
            Some(GdsBad::Value(112, 5)),
        ),
        (
            b"\x43\x1C\x20\x00\x00\x00\x00\x00",
            Some(GdsBad::Value(112, 5)),
        ),
    ];
    for (real, bad) in rows {
        assert_eq!(rt; refusal_of_real(rt.alloc(), angle, real)?, bad);
    }
    Ok(())
}

// How a record stands in its element: it must be there, it may be, it is STRANS or one that follows STRANS alone, or it
// is the value of the attribute before it.
#[derive(Clone, Copy, PartialEq, Eq)]
enum Part {
    Needed,
    Free,
    Strans,
    AfterStrans,
    Value,
}

// A part with its record.
type Entry = (Part, &'static [u8]);

const BOUNDARIES: [Entry; 9] = [
    (Part::Needed, BOUNDARY),
    (Part::Free, ELFLAGS),
    (Part::Free, PLEX),
    (Part::Needed, LAYER),
    (Part::Needed, DATATYPE),
    (Part::Needed, SQUARE),
    (Part::Free, ATTRIBUTE),
    (Part::Value, VALUE),
    (Part::Needed, ENDEL),
];

const BOXES: [Entry; 9] = [
    (Part::Needed, BOX),
    (Part::Free, ELFLAGS),
    (Part::Free, PLEX),
    (Part::Needed, LAYER),
    (Part::Needed, BOXTYPE),
    (Part::Needed, SQUARE),
    (Part::Free, ATTRIBUTE),
    (Part::Value, VALUE),
    (Part::Needed, ENDEL),
];

const NODES: [Entry; 9] = [
    (Part::Needed, NODE),
    (Part::Free, ELFLAGS),
    (Part::Free, PLEX),
    (Part::Needed, LAYER),
    (Part::Needed, NODETYPE),
    (Part::Needed, LINE),
    (Part::Free, ATTRIBUTE),
    (Part::Value, VALUE),
    (Part::Needed, ENDEL),
];

const PATHS: [Entry; 13] = [
    (Part::Needed, PATH),
    (Part::Free, ELFLAGS),
    (Part::Free, PLEX),
    (Part::Needed, LAYER),
    (Part::Needed, DATATYPE),
    (Part::Free, PATHTYPE),
    (Part::Free, WIDTH),
    (Part::Free, BGNEXTN),
    (Part::Free, ENDEXTN),
    (Part::Needed, LINE),
    (Part::Free, ATTRIBUTE),
    (Part::Value, VALUE),
    (Part::Needed, ENDEL),
];

const REFERENCES: [Entry; 11] = [
    (Part::Needed, SREF),
    (Part::Free, ELFLAGS),
    (Part::Free, PLEX),
    (Part::Needed, SNAME),
    (Part::Strans, STRANS),
    (Part::AfterStrans, MAG),
    (Part::AfterStrans, ANGLE),
    (Part::Needed, POINT),
    (Part::Free, ATTRIBUTE),
    (Part::Value, VALUE),
    (Part::Needed, ENDEL),
];

const ARRAYS: [Entry; 12] = [
    (Part::Needed, AREF),
    (Part::Free, ELFLAGS),
    (Part::Free, PLEX),
    (Part::Needed, SNAME),
    (Part::Strans, STRANS),
    (Part::AfterStrans, MAG),
    (Part::AfterStrans, ANGLE),
    (Part::Needed, COLROW),
    (Part::Needed, ARRAY),
    (Part::Free, ATTRIBUTE),
    (Part::Value, VALUE),
    (Part::Needed, ENDEL),
];

// A text's own records stand in any order, its properties after them.
const TEXTS: [Entry; 16] = [
    (Part::Needed, TEXT),
    (Part::Free, ELFLAGS),
    (Part::Free, PLEX),
    (Part::Free, LAYER),
    (Part::Free, TEXTTYPE),
    (Part::Free, PRESENTATION),
    (Part::Free, PATHTYPE),
    (Part::Free, WIDTH),
    (Part::Free, STRANS),
    (Part::Free, MAG),
    (Part::Free, ANGLE),
    (Part::Free, POINT),
    (Part::Free, STRING),
    (Part::Free, ATTRIBUTE),
    (Part::Value, VALUE),
    (Part::Needed, ENDEL),
];

// The place of the first record of a text that isn't one of its own.
const BEHIND_TEXT: usize = 13;

// The file of these records, of which those at two places are exchanged, and the offset of a place in it.
fn exchanged(
    alloc: Global,
    entries: &[Entry],
    places: (usize, usize),
    asked: usize,
) -> Result<(Vec<u8>, usize), Fail> {
    let mut bytes = Vec::new(alloc);
    bytes.extend_from_slice(&HEAD)?;
    let mut at = 0;
    for place in 0..entries.len() {
        if place == asked {
            at = bytes.len();
        }
        let source = match places {
            (first, second) if place == first => second,
            (first, second) if place == second => first,
            _ => place,
        };
        if let Some((_, record)) = entries.get(source) {
            bytes.extend_from_slice(record)?;
        }
    }
    Ok((bytes, at))
}

// Whether the later of two records may stand in the earlier one's place, after those before that.
fn may_come_early(entries: &[Entry], first: usize, second: usize) -> bool {
    if let (Some((early, _)), Some((late, _))) = (entries.get(first), entries.get(second)) {
        if *early == Part::Value || *late == Part::Value {
            return false;
        }
        if *early == Part::Strans && *late == Part::AfterStrans {
            return false;
        }
    }
    for place in first..second {
        if let Some((Part::Needed, _)) = entries.get(place) {
            return false;
        }
    }
    true
}

// The first of the exchanges with this later place that isn't refused where the order breaks: in the place of the earlier
// record, or after it.
fn wrong_exchange_with(
    alloc: Global,
    entries: &[Entry],
    second: usize,
) -> Result<Option<usize>, Fail> {
    for first in 0..second {
        let asked = if may_come_early(entries, first, second) {
            first + 1
        } else {
            first
        };
        let (mut bytes, at) = exchanged(alloc, entries, (first, second), asked)?;
        bytes.extend_from_slice(&TAIL)?;
        if refusal_of(alloc, &bytes, 1000)? != Some(GdsBad::Order(at)) {
            return Ok(Some(first));
        }
    }
    Ok(None)
}

// Whether each exchange of two of the element's records is refused where the order breaks, and the element itself isn't.
fn keeps_its_order(alloc: Global, entries: &[Entry]) -> Result<bool, Fail> {
    let (mut bytes, _) = exchanged(alloc, entries, (0, 0), 0)?;
    bytes.extend_from_slice(&TAIL)?;
    if refusal_of(alloc, &bytes, 1000)?.is_some() {
        return Ok(false);
    }
    for second in 1..entries.len() {
        if wrong_exchange_with(alloc, entries, second)?.is_some() {
            return Ok(false);
        }
    }
    Ok(true)
}

// Every record that an element may have, and each two of them exchanged.
#[test]
fn keeps_the_order_of_shapes(rt: HostRuntime) -> Result<(), Fail> {
    assert!(rt; keeps_its_order(rt.alloc(), &BOUNDARIES)?);
    assert!(rt; keeps_its_order(rt.alloc(), &BOXES)?);
    assert!(rt; keeps_its_order(rt.alloc(), &NODES)?);
    assert!(rt; keeps_its_order(rt.alloc(), &PATHS)?);
    Ok(())
}

#[test]
fn keeps_the_order_of_references(rt: HostRuntime) -> Result<(), Fail> {
    assert!(rt; keeps_its_order(rt.alloc(), &REFERENCES)?);
    assert!(rt; keeps_its_order(rt.alloc(), &ARRAYS)?);
    Ok(())
}

// Whether the text is accepted with each two of its own records exchanged, the later one at this place.
fn takes_exchanges_with(alloc: Global, second: usize) -> Result<bool, Fail> {
    for first in 1..second {
        let (mut bytes, _) = exchanged(alloc, &TEXTS, (first, second), 0)?;
        bytes.extend_from_slice(&TAIL)?;
        if refusal_of(alloc, &bytes, 1000)?.is_some() {
            return Ok(false);
        }
    }
    Ok(true)
}

// Each two of a text's own records exchanged, and each of them with what begins the text or stands after it.
#[test]
fn takes_texts_in_any_order(rt: HostRuntime) -> Result<(), Fail> {
    for second in 2..BEHIND_TEXT {
        assert!(rt; takes_exchanges_with(rt.alloc(), second)?);
    }
    for second in BEHIND_TEXT..TEXTS.len() {
        assert_eq!(rt; wrong_exchange_with(rt.alloc(), &TEXTS, second)?, None);
    }
    for own in 1..BEHIND_TEXT {
        let (bytes, at) = exchanged(rt.alloc(), &TEXTS, (0, own), 0)?;
        assert_eq!(rt;
            refusal_of(rt.alloc(), &bytes, 1000)?,
            Some(GdsBad::Order(at))
        );
    }
    Ok(())
}

// The two opposite corners of the rectangle of a path, and whether it is fixed.
fn path_of(
    alloc: Global,
    path_type: &[u8],
    width: &[u8],
) -> Result<Option<(Point, Point, bool)>, Fail> {
    let records = [
        PATH, LAYER, DATATYPE, path_type, width, BGNEXTN, ENDEXTN, LINE, ENDEL,
    ];
    let layout = layout_of(alloc, &records)?;
    if let [cell] = layout.cells.as_slice() {
        if cell.shapes.len() == 1 {
            let shape = cell.shapes.get(0);
            if let Some([first, _, third, _, _]) = shape.outline().as_slice() {
                return Ok(Some((*first, *third, shape.is_fixed())));
            }
        }
    }
    Ok(None)
}

// By hand, in half units: the line ends at 0 and 200, BGNEXTN is 10 further, ENDEXTN 14 less far.
#[test]
fn fixes_paths_of_negative_width(rt: HostRuntime) -> Result<(), Fail> {
    let plain = b"\x00\x08\x0F\x03\x00\x00\x00\x14".as_slice();
    let rows: [(&[u8], &[u8], i64, i64, bool); 4] = [
        (b"\x00\x06\x21\x02\x00\x00", WIDTH, 0, 200, true),
        (b"\x00\x06\x21\x02\x00\x02", WIDTH, -20, 220, true),
        (b"\x00\x06\x21\x02\x00\x04", WIDTH, -10, 186, true),
        (b"\x00\x06\x21\x02\x00\x04", plain, -10, 186, false),
    ];
    for (path_type, width, left, right, fixed) in rows {
        let low = Point { x: left, y: -20 };
        let high = Point { x: right, y: 20 };
        assert_eq!(rt;
            path_of(rt.alloc(), path_type, width)?,
            Some((low, high, fixed))
        );
    }
    Ok(())
}

// The refusal of a library with this record before UNITS.
fn refusal_of_library(alloc: Global, record: &[u8]) -> Result<Option<GdsBad>, Fail> {
    let mut bytes = Vec::new(alloc);
    bytes.extend_from_slice(&HEAD[..40])?;
    bytes.extend_from_slice(record)?;
    bytes.extend_from_slice(&HEAD[40..])?;
    bytes.extend_from_slice(&TAIL)?;
    refusal_of(alloc, &bytes, 1000)
}

const ENDSTR: &[u8] = b"\x00\x04\x07\x00";

const BGNSTR: &[u8] = &[
    0x00, 0x1C, 0x05, 0x02, 0, 0, 0, 0, 0, 0, 0, 0, 0, 0, 0, 0, //
    0, 0, 0, 0, 0, 0, 0, 0, 0, 0, 0, 0,
];

const LETTERS: &[u8] = &[0x7E; 1024];

// The refusal where a second structure's name has 1,024 letters between this head and this end.
fn refusal_of_name(alloc: Global, head: &[u8], end: &[u8]) -> Result<Option<GdsBad>, Fail> {
    refusal(alloc, &[ENDSTR, BGNSTR, head, LETTERS, end])
}

// The refusal where the name in a reference is such a name.
fn refusal_of_target(alloc: Global, head: &[u8], end: &[u8]) -> Result<Option<GdsBad>, Fail> {
    refusal(alloc, &[SREF, head, LETTERS, end, POINT, ENDEL])
}

// The refusal where two structures have such names, the second without an end.
fn refusal_of_names(
    alloc: Global,
    head: &[u8],
    end: &[u8],
    second: &[u8],
) -> Result<Option<GdsBad>, Fail> {
    let records = [
        ENDSTR, BGNSTR, head, LETTERS, end, ENDSTR, BGNSTR, second, LETTERS,
    ];
    refusal(alloc, &records)
}

#[test]
fn judges_libraries_and_long_names(rt: HostRuntime) -> Result<(), Fail> {
    let format = b"\x00\x06\x36\x02\x00\x00".as_slice();
    assert_eq!(rt; refusal_of_library(rt.alloc(), format)?, None);
    let format = b"\x00\x06\x36\x02\x00\x01".as_slice();
    assert_eq!(rt;
        refusal_of_library(rt.alloc(), format)?,
        Some(GdsBad::Value(40, 1))
    );
    // zeros after ENDLIB, then a one among them
    let mut bytes = file_of(rt.alloc(), &[])?;
    bytes.extend_from_slice(&[0; 7])?;
    assert_eq!(rt; refusal_of(rt.alloc(), &bytes, 1000)?, None);
    bytes.extend_from_slice(&[1, 0])?;
    assert_eq!(rt;
        refusal_of(rt.alloc(), &bytes, 1000)?,
        Some(GdsBad::Tail(111))
    );
    // names of 1,024 bytes, without NULs after and with, and of 1,025
    let exact = b"\x04\x04\x06\x06".as_slice();
    let padded = b"\x04\x06\x06\x06".as_slice();
    let nuls = b"\x00\x00".as_slice();
    let letter = b"~\x00".as_slice();
    let target = b"\x04\x06\x12\x06".as_slice();
    assert_eq!(rt; refusal_of_name(rt.alloc(), exact, b"")?, None);
    assert_eq!(rt; refusal_of_name(rt.alloc(), padded, nuls)?, None);
    assert_eq!(rt;
        refusal_of_name(rt.alloc(), padded, letter)?,
        Some(GdsBad::Value(128, 2))
    );
    assert_eq!(rt; refusal_of_target(rt.alloc(), target, nuls)?, None);
    assert_eq!(rt;
        refusal_of_target(rt.alloc(), target, letter)?,
        Some(GdsBad::Value(100, 2))
    );
    assert_eq!(rt;
        refusal_of_names(rt.alloc(), padded, nuls, exact)?,
        Some(GdsBad::Twice(128, 1190))
    );
    Ok(())
}
