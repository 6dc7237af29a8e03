//! The shot file of one square by its bytes, and what a fault at each call leaves.
ghost use Rattle.std.specs.Prelude.{◌^◌, ◌<◌};
ghost use Rattle.shot_writer.specs.Writing.{triangles_of};

use crate::parts::triangles_in;
use crate::{Head, ShotWriter, Sums, encode, writing_law};
use depot::{DepotBad, MemDepot};
use geo_stream::FromSlice;
use half_grid::{Line, REACH, Trap};
use layout_model::Pair;
use std::alloc::Global;
use std::test::Fail;

const PAIR: Pair = Pair {
    layer: 1,
    datatype: 0,
};

// Up to the first record, for the unit 2000.
const HEAD: &[u8] =
    b"%SEMI-OASIS\r\n\x01\x031.0\x00\xD0\x0F\x00\0\0\0\0\0\0\0\0\0\0\0\0\x0E\x05SHOTS";

const SQUARE: &[u8] = &[0x14, 0x7B, 0x01, 0x00, 0x14, 0x14, 0x00, 0x00];

fn square() -> Option<Trap> {
    Trap::new(0, 20, Line::Upright(0), Line::Upright(20))
}

// The rows and the lines of a shot, and its record.
const RECORDS: [(i64, i64, Line, Line, &[u8]); 7] = [
    (0, 20, Line::Upright(0), Line::Upright(20), SQUARE),
    (
        0,
        20,
        Line::Rising(0),
        Line::Upright(20),
        b"\x18\x7B\x01\x00\x14\x14\x28\x00\x00",
    ),
    (
        0,
        11,
        Line::Rising(0),
        Line::Falling(11),
        b"\x17\x7B\x01\x00\x16\x0B\x16\x17\x00\x00",
    ),
    (
        -1,
        0,
        Line::Upright(-1),
        Line::Upright(23),
        b"\x14\x7B\x01\x00\x18\x01\x03\x03",
    ),
    (
        0,
        1,
        Line::Upright(-1),
        Line::Upright(23),
        b"\x14\x7B\x01\x00\x18\x01\x03\x00",
    ),
    (
        1,
        12,
        Line::Rising(-1),
        Line::Falling(12),
        b"\x17\x7B\x01\x00\x18\x0B\x16\x17\x03\x02",
    ),
    (
        -REACH,
        1 - REACH,
        Line::Upright(-REACH),
        Line::Upright(1 - REACH),
        b"\x14\x7B\x01\x00\x01\x01\x81\x80\x80\x80\x80\x80\x08\x81\x80\x80\x80\x80\x80\x08",
    ),
];

#[test]
fn records_of_shots(rt: HostRuntime) -> Result<(), Fail> {
    for (y0, y1, left, right, record) in RECORDS {
        let shot = Trap::new(y0, y1, left, right).ok_or("no shot")?;
        assert_eq!(rt; encode(&shot, PAIR).bytes(), record);
    }
    Ok(())
}

// Writes the file of these shots.
fn write_file(depot: &mut MemDepot, shots: &[Trap]) -> Result<Sums, DepotBad>
    requires { triangles_of shots.now < 2 ^ 127 }
{
    let head = Head {
        unit: 2000,
        pair: PAIR,
    };
    let mut writer = ShotWriter::start(depot, "out", head)?;
    writer.put(depot, &mut FromSlice::new(shots))?;
    let so_far = writer.sums();
    let all = writer.finish(depot)?;
    if all == so_far {
        Ok(all)
    } else {
        Err(DepotBad::Failed)
    }
}

#[test]
fn one_square(rt: HostRuntime) -> Result<(), Fail> {
    writing_law();
    let shot = square().ok_or("no square")?;
    assert_eq!(rt; encode(&shot, PAIR).bytes(), SQUARE);
    let mut depot = MemDepot::new(rt.alloc());
    if triangles_in(&shot) < 1000 {
        let sums = write_file(&mut depot, &[shot])?;
        assert_eq!(rt;
            sums,
            Sums {
                shots: 1,
                triangles: 800
            }
        );
    }
    let made = depot.made("out").ok_or("no file")?;
    let records = made.strip_prefix(HEAD).ok_or("another head")?;
    let end = records.strip_prefix(SQUARE).ok_or("another record")?;
    let zeros = end.strip_prefix(&[0x02, 0xFC, 0x01]).ok_or("no end")?;
    assert_eq!(rt; zeros, [0u8; 253].as_slice());
    Ok(())
}

// How many bytes are made of more shots than the buffer holds, where the call of that number fails.
fn made_after_fault(alloc: Global, call: u64) -> Result<Option<usize>, Fail> {
    let shot = square().ok_or("no square")?;
    let mut depot = MemDepot::new(alloc);
    depot.fail_at(call)?;
    if triangles_in(&shot) < 1000 {
        let _sums = write_file(&mut depot, &[shot; 1100]);
    }
    Ok(depot.made("out").map(|bytes| bytes.len()))
}

#[test]
fn each_call_fails_in_turn(rt: HostRuntime) -> Result<(), Fail> {
    let table = [
        (0, None),
        (1, Some(0)),
        (2, Some(41)),
        (3, Some(41 + 1015 * 8)),
        (4, Some(41 + 1100 * 8)),
        (5, Some(41 + 1100 * 8 + 256)),
    ];
    for (call, made) in table {
        assert_eq!(rt; made_after_fault(rt.alloc(), call)?, made);
    }
    Ok(())
}
