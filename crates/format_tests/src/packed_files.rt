//! The shots of packed files by their bytes, both ways, and the first fault of bytes that are no packed file.
use depot::MemDepot;
use geo_stream::Refusal;
use half_grid::{Line, Trap};
use layout_model::Pair;
use shot_repeat::{PackBad, pack_shots, packing_laws, read_packed, reading_laws};
use shot_writer::Head;
use std::alloc::Global;
use std::test::Fail;

const PAIR: Pair = Pair {
    layer: 1,
    datatype: 0,
};

// Up to the first record, for the unit 2000.
const HEAD: &[u8] =
    b"%SEMI-OASIS\r\n\x01\x031.0\x00\xD0\x0F\x00\0\0\0\0\0\0\0\0\0\0\0\0\x0E\x05SHOTS";

// The file of these records for the unit 2000.
fn file_of(alloc: Global, records: &[u8]) -> Result<Vec<u8>, Fail> {
    let mut bytes = Vec::new(alloc);
    bytes.extend_from_slice(HEAD)?;
    bytes.extend_from_slice(records)?;
    bytes.extend_from_slice(&[0x02, 0xFC, 0x01])?;
    bytes.extend_from_slice(&[0; 253])?;
    Ok(bytes)
}

// The rows and the sides of shots.
type Sides = (i64, i64, Line, Line);

fn shots_of(alloc: Global, sides: &[Sides]) -> Result<Vec<Trap>, Fail> {
    let mut shots = Vec::new(alloc);
    for (y0, y1, left, right) in sides {
        shots.push(Trap::new(*y0, *y1, *left, *right).ok_or("no shot")?)?;
    }
    Ok(shots)
}

// Lists of shots, the records of each, and how many there are.
const FILES: [(&[Sides], &[u8], u64); 8] = [
    // no shots
    (&[], b"", 0),
    // three in a row, and two
    (
        &[
            (0, 20, Line::Upright(0), Line::Upright(20)),
            (0, 20, Line::Upright(40), Line::Upright(60)),
            (0, 20, Line::Upright(80), Line::Upright(100)),
        ],
        b"\x14\x67\x01\x00\x14\x14\x09\x01\xA1\x01\x00",
        1,
    ),
    (
        &[
            (0, 20, Line::Upright(0), Line::Upright(20)),
            (0, 20, Line::Upright(40), Line::Upright(60)),
        ],
        b"\x14\x63\x01\x00\x14\x14\x14\x10\x50",
        2,
    ),
    // each of another width or at another place
    (
        &[
            (0, 10, Line::Upright(0), Line::Upright(20)),
            (10, 20, Line::Upright(0), Line::Upright(30)),
            (20, 30, Line::Upright(10), Line::Upright(30)),
        ],
        b"\x14\x63\x01\x00\x14\x0A\x14\x48\x1E\x14\x14\x58\x14\x14\x28",
        3,
    ),
    // one three times
    (
        &[
            (2, 22, Line::Upright(1), Line::Upright(21)),
            (2, 22, Line::Upright(1), Line::Upright(21)),
            (2, 22, Line::Upright(1), Line::Upright(21)),
        ],
        b"\x14\x7F\x01\x00\x14\x14\x02\x04\x09\x01\x01\x00",
        1,
    ),
    // to the left and down, and one more after it that has the first's y
    (
        &[
            (0, 20, Line::Upright(0), Line::Upright(20)),
            (-30, -10, Line::Upright(-1), Line::Upright(19)),
            (-60, -40, Line::Upright(-2), Line::Upright(18)),
            (0, 20, Line::Upright(7), Line::Upright(27)),
        ],
        b"\x14\x67\x01\x00\x14\x14\x09\x01\x07\x3D\x14\x10\x0E",
        2,
    ),
    // a run that begins with the last of two
    (
        &[
            (0, 20, Line::Upright(0), Line::Upright(20)),
            (5, 25, Line::Upright(0), Line::Upright(20)),
            (9, 29, Line::Upright(0), Line::Upright(20)),
            (13, 33, Line::Upright(0), Line::Upright(20)),
        ],
        b"\x14\x63\x01\x00\x14\x14\x14\x0C\x0A\x09\x01\x01\x08",
        2,
    ),
    // the sizes of a rectangle, kept for a trapezoid
    (
        &[
            (0, 20, Line::Upright(0), Line::Upright(20)),
            (0, 20, Line::Rising(0), Line::Upright(20)),
            (0, 20, Line::Upright(0), Line::Upright(20)),
        ],
        b"\x14\x63\x01\x00\x14\x14\x18\x00\x28\x14\x00",
        3,
    ),
];

#[test]
fn packs_and_reads_back(rt: HostRuntime) -> Result<(), Fail> {
    packing_laws();
    let head = Head {
        unit: 2000,
        pair: PAIR,
    };
    for (sides, records, count) in FILES {
        let shots = shots_of(rt.alloc(), sides)?;
        let bytes = file_of(rt.alloc(), records)?;
        let mut depot = MemDepot::new(rt.alloc());
        assert_eq!(rt; pack_shots(&mut depot, "out", head, &shots)?, count);
        assert_eq!(rt; depot.made("out"), Some(bytes.as_slice()));
        let file = read_packed(rt.alloc(), &bytes).ok().ok_or("refused")?;
        assert_eq!(rt; file.unit, 2000);
        assert_eq!(rt; file.pair.is_some(), count > 0);
        assert_eq!(rt; file.shots.as_slice(), shots.as_slice());
    }
    Ok(())
}

// Records at 41, and the first fault of their file.
const REFUSED: [(&[u8], PackBad); 22] = [
    // another id, bit 80, another kind, bit 0 of the delta clear
    (b"\x15\x7B\x01\x00\x14\x14\x00\x00", PackBad::Record(41)),
    (b"\x14\xFB\x01\x00\x14\x14\x00\x00", PackBad::Record(41)),
    (
        b"\x14\x67\x01\x00\x14\x14\x08\x01\xA1\x01\x00",
        PackBad::Record(41),
    ),
    (
        b"\x14\x67\x01\x00\x14\x14\x09\x01\xA0\x01\x00",
        PackBad::Record(41),
    ),
    // a group of zeros at the end of a width and of a dimension, a layer of 64 bits
    (
        b"\x14\x7B\x01\x00\x94\x00\x14\x00\x00",
        PackBad::Spelling(41),
    ),
    (
        b"\x14\x67\x01\x00\x14\x14\x09\x81\x00\xA1\x01\x00",
        PackBad::Spelling(41),
    ),
    (
        b"\x14\x7B\x81\x80\x80\x80\x80\x80\x80\x80\x80\x01\x00\x14\x14\x00\x00",
        PackBad::Spelling(41),
    ),
    // west where x is 0, a delta of 0
    (
        b"\x14\x67\x01\x00\x14\x14\x09\x01\x03\x00",
        PackBad::Spelling(41),
    ),
    (
        b"\x18\x7B\x01\x00\x14\x14\x00\x00\x00",
        PackBad::Spelling(41),
    ),
    // no layer, no datatype, no width, no height
    (b"\x14\x7A\x00\x14\x14\x00\x00", PackBad::Undefined(41)),
    (b"\x14\x79\x01\x14\x14\x00\x00", PackBad::Undefined(41)),
    (b"\x14\x3B\x01\x00\x14\x00\x00", PackBad::Undefined(41)),
    (b"\x14\x5B\x01\x00\x14\x00\x00", PackBad::Undefined(41)),
    // another datatype later
    (b"\x14\x63\x01\x00\x14\x14\x14\x02\x01", PackBad::Pair(47)),
    // one more than 16,777,216; twice as many and three more
    (
        b"\x14\x67\x01\x00\x14\x14\x09\xFF\xFF\xFF\x07\x01\x00",
        PackBad::Many(41),
    ),
    (
        b"\x14\x67\x01\x00\x14\x14\x09\xFF\xFF\xFF\x0F\x01\x00",
        PackBad::Many(41),
    ),
    // a width of 0; a third shot that is too far
    (b"\x14\x63\x01\x00\x00\x14", PackBad::Illegal(41)),
    (
        b"\x14\x67\x01\x00\x14\x14\x09\x01\x81\x80\x80\x80\x80\x80\x10\x00",
        PackBad::Illegal(41),
    ),
    // a record after one that is right
    (
        b"\x14\x63\x01\x00\x14\x14\x14\x20\x00",
        PackBad::Illegal(47),
    ),
    // the first cause of two
    (b"\x14\x7A\x00\x00\x14\x00\x00", PackBad::Undefined(41)),
    (
        b"\x14\x63\x01\x00\x14\x14\x14\x42\x01\x00",
        PackBad::Pair(47),
    ),
    // an END that goes on otherwise
    (b"\x02\xFC\x01", PackBad::End(41)),
];

#[test]
fn refuses_records(rt: HostRuntime) -> Result<(), Fail> {
    reading_laws();
    let none = read_packed(rt.alloc(), &[]).err();
    assert_eq!(rt; none, Some(Refusal::Fault(PackBad::Head(0))));
    for (records, bad) in REFUSED {
        let bytes = file_of(rt.alloc(), records)?;
        let refusal = read_packed(rt.alloc(), &bytes).err();
        assert_eq!(rt; refusal, Some(Refusal::Fault(bad)));
    }
    Ok(())
}

#[test]
fn refuses_what_is_cut(rt: HostRuntime) -> Result<(), Fail> {
    let bytes = file_of(rt.alloc(), b"\x14\x67\x01\x00\x14\x14\x09\x01\xA1\x01\x00")?;
    for (count, _byte) in bytes.iter().enumerate() {
        let bad = match count {
            0..=40 => PackBad::Head(count),
            41..=51 => PackBad::Record(41),
            52 => PackBad::Record(52),
            _ => PackBad::End(52),
        };
        let refusal = read_packed(rt.alloc(), &bytes[..count]).err();
        assert_eq!(rt; refusal, Some(Refusal::Fault(bad)));
    }
    Ok(())
}
