//! The shots of small files by their bytes, and the first fault of bytes that are no shot file.
use crate::{ShotBad, ShotFile, read_shots, reading_laws};
use geo_stream::Refusal;
use half_grid::{Line, Trap};
use layout_model::Pair;
use std::alloc::Global;
use std::test::Fail;

const PAIR: Pair = Pair {
    layer: 1,
    datatype: 0,
};

// The unit 2000.
const UNIT: &[u8] = &[0xD0, 0x0F];

const SQUARE: &[u8] = &[0x14, 0x7B, 0x01, 0x00, 0x14, 0x14, 0x00, 0x00];

// A head with these bytes as its unit, these records, and these bytes after them.
fn bytes_of(alloc: Global, unit: &[u8], records: &[u8], last: &[u8]) -> Result<Vec<u8>, Fail> {
    let mut bytes = Vec::new(alloc);
    bytes.extend_from_slice(b"%SEMI-OASIS\r\n\x01\x031.0\x00")?;
    bytes.extend_from_slice(unit)?;
    bytes.extend_from_slice(&[0; 13])?;
    bytes.extend_from_slice(b"\x0E\x05SHOTS")?;
    bytes.extend_from_slice(records)?;
    bytes.extend_from_slice(last)?;
    Ok(bytes)
}

// END.
fn end_of(alloc: Global) -> Result<Vec<u8>, Fail> {
    let mut bytes = Vec::new(alloc);
    bytes.extend_from_slice(&[0x02, 0xFC, 0x01])?;
    bytes.extend_from_slice(&[0; 253])?;
    Ok(bytes)
}

// The file of these records for the unit 2000.
fn file_of(alloc: Global, records: &[u8]) -> Result<Vec<u8>, Fail> {
    bytes_of(alloc, UNIT, records, &end_of(alloc)?)
}

// The first fault of the bytes, where they have one.
fn fault_in(alloc: Global, bytes: &[u8]) -> Result<Option<ShotBad>, Fail> {
    match read_shots(alloc, bytes) {
        Ok(_file) => Ok(None),
        Err(Refusal::Fault(bad)) => Ok(Some(bad)),
        Err(Refusal::NoMemory) => Err(Fail::from("no memory")),
    }
}

// What the file of these records says.
fn read(alloc: Global, records: &[u8]) -> Result<ShotFile, Fail> {
    let file = read_shots(alloc, &file_of(alloc, records)?)
        .ok()
        .ok_or("refused")?;
    Ok(file)
}

#[test]
fn reads_no_shots(rt: HostRuntime) -> Result<(), Fail> {
    reading_laws();
    let file = read(rt.alloc(), &[])?;
    assert_eq!(rt; file.unit, 2000);
    assert_eq!(rt; file.pair, None);
    assert_eq!(rt; file.shots.as_slice().len(), 0);
    Ok(())
}

// The rows and the sides of a shot of each kind, and its record.
const KINDS: [(i64, i64, Line, Line, &[u8]); 5] = [
    (0, 20, Line::Upright(0), Line::Upright(20), SQUARE),
    (
        0,
        20,
        Line::Rising(0),
        Line::Upright(20),
        b"\x18\x7B\x01\x00\x14\x14\x28\x00\x00",
    ),
    (
        0,
        20,
        Line::Upright(0),
        Line::Falling(10),
        b"\x19\x7B\x01\x00\x14\x14\x29\x00\x00",
    ),
    (
        0,
        11,
        Line::Rising(0),
        Line::Falling(11),
        b"\x17\x7B\x01\x00\x16\x0B\x16\x17\x00\x00",
    ),
    (
        -1,
        0,
        Line::Upright(-1),
        Line::Upright(23),
        b"\x14\x7B\x01\x00\x18\x01\x03\x03",
    ),
];

#[test]
fn reads_each_kind(rt: HostRuntime) -> Result<(), Fail> {
    let mut records = Vec::new(rt.alloc());
    let mut shots = Vec::new(rt.alloc());
    for (y0, y1, left, right, record) in KINDS {
        let shot = Trap::new(y0, y1, left, right).ok_or("no shot")?;
        let one = read(rt.alloc(), record)?;
        assert_eq!(rt; one.unit, 2000);
        assert_eq!(rt; one.pair, Some(PAIR));
        assert_eq!(rt; one.shots.as_slice(), [shot].as_slice());
        records.extend_from_slice(record)?;
        shots.push(shot)?;
    }
    let all = read(rt.alloc(), &records)?;
    assert_eq!(rt; all.shots.as_slice(), shots.as_slice());
    Ok(())
}

#[test]
fn refuses_heads(rt: HostRuntime) -> Result<(), Fail> {
    assert_eq!(rt; fault_in(rt.alloc(), &[])?, Some(ShotBad::Head(0)));
    // the bytes of the unit
    let rows: [(&[u8], Option<ShotBad>); 10] = [
        (&[0x02], None),
        // 2,000,000, and two more
        (&[0x80, 0x89, 0x7A], None),
        (&[0x82, 0x89, 0x7A], Some(ShotBad::Head(21))),
        // none
        (&[0x00], Some(ShotBad::Head(19))),
        // an odd one
        (&[0xD1, 0x0F], Some(ShotBad::Head(19))),
        // a group of zeros at its end
        (&[0xD0, 0x00], Some(ShotBad::Head(20))),
        (&[0xD0, 0x8F, 0x00], Some(ShotBad::Head(21))),
        // four groups
        (&[0xD0, 0x8F, 0x80, 0x01], Some(ShotBad::Head(21))),
        // another byte after it
        (&[0xD0, 0x0F, 0x01], Some(ShotBad::Head(21))),
        (&[0x80, 0x89, 0x7A, 0x00], Some(ShotBad::Head(35))),
    ];
    for (unit, bad) in rows {
        let bytes = bytes_of(rt.alloc(), unit, SQUARE, &end_of(rt.alloc())?)?;
        assert_eq!(rt; fault_in(rt.alloc(), &bytes)?, bad);
    }
    Ok(())
}

// Records at 41, and the first fault of their file.
const REFUSED: [(&[u8], ShotBad); 13] = [
    // another id
    (b"\x15\x7B\x01\x00\x14\x14\x00\x00", ShotBad::Record(41)),
    // another info byte
    (b"\x14\x7A\x01\x00\x14\x14\x00\x00", ShotBad::Record(41)),
    // a width of 0
    (b"\x14\x7B\x01\x00\x00\x14\x00\x00", ShotBad::Illegal(41)),
    // a side that leads too far
    (
        b"\x18\x7B\x01\x00\x14\x14\x2A\x00\x00",
        ShotBad::Illegal(41),
    ),
    // a width with a group of zeros at its end
    (
        b"\x14\x7B\x01\x00\x94\x00\x14\x00\x00",
        ShotBad::Spelling(41),
    ),
    // a layer of 64 bits
    (
        b"\x14\x7B\x81\x80\x80\x80\x80\x80\x80\x80\x80\x01\x00\x14\x14\x00\x00",
        ShotBad::Spelling(41),
    ),
    // deltas that are 0
    (
        b"\x18\x7B\x01\x00\x14\x14\x00\x00\x00",
        ShotBad::Spelling(41),
    ),
    (
        b"\x17\x7B\x01\x00\x14\x14\x28\x00\x00\x00",
        ShotBad::Spelling(41),
    ),
    // a minus 0
    (b"\x14\x7B\x01\x00\x14\x14\x01\x00", ShotBad::Spelling(41)),
    // another layer, and another datatype, in the second record
    (
        b"\x14\x7B\x01\x00\x14\x14\x00\x00\x14\x7B\x02\x00\x14\x14\x00\x28",
        ShotBad::Spelling(49),
    ),
    (
        b"\x14\x7B\x01\x00\x14\x14\x00\x00\x14\x7B\x01\x01\x14\x14\x00\x28",
        ShotBad::Spelling(49),
    ),
    // the first of two faults
    (
        b"\x14\x7B\x01\x00\x00\x14\x00\x00\x15\x7B\x01\x00\x14\x14\x00\x00",
        ShotBad::Illegal(41),
    ),
    // an END that goes on otherwise
    (b"\x02\xFC\x01", ShotBad::End(41)),
];

#[test]
fn refuses_records(rt: HostRuntime) -> Result<(), Fail> {
    for (records, bad) in REFUSED {
        let bytes = file_of(rt.alloc(), records)?;
        assert_eq!(rt; fault_in(rt.alloc(), &bytes)?, Some(bad));
    }
    Ok(())
}

#[test]
fn refuses_ends(rt: HostRuntime) -> Result<(), Fail> {
    let end = end_of(rt.alloc())?;
    // one byte more
    let mut more = bytes_of(rt.alloc(), UNIT, SQUARE, &end)?;
    more.push(0)?;
    assert_eq!(rt; fault_in(rt.alloc(), &more)?, Some(ShotBad::End(49)));
    // each byte but the first changed
    for (index, _byte) in end.iter().enumerate() {
        let mut other = end_of(rt.alloc())?;
        if let Some(byte) = other.get_mut(index) {
            *byte ^= 0x40;
        }
        let bad = if index == 0 {
            ShotBad::Record(49)
        } else {
            ShotBad::End(49)
        };
        let bytes = bytes_of(rt.alloc(), UNIT, SQUARE, &other)?;
        assert_eq!(rt; fault_in(rt.alloc(), &bytes)?, Some(bad));
    }
    Ok(())
}

#[test]
fn refuses_what_is_cut(rt: HostRuntime) -> Result<(), Fail> {
    let bytes = file_of(rt.alloc(), SQUARE)?;
    assert_eq!(rt; bytes.len(), 305);
    for (count, _byte) in bytes.iter().enumerate() {
        let bad = match count {
            0..=40 => ShotBad::Head(count),
            41..=48 => ShotBad::Record(41),
            49 => ShotBad::Record(49),
            _ => ShotBad::End(49),
        };
        assert_eq!(rt; fault_in(rt.alloc(), &bytes[..count])?, Some(bad));
    }
    Ok(())
}
