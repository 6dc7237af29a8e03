//! The file for 1, by its bytes at places that follow from the format's description.

use crate::generate;
use depot::{DepotBad, MemDepot};
use std::test::Fail;

// Where a piece stands, and the piece.
const PIECES: [(usize, &[u8]); 6] = [
    (0, b"\x00\x06\x00\x02\x02\x58\x00\x1C\x01\x02"),
    (62, b"\x00\x1C\x05\x02"),
    (90, b"\x00\x08\x06\x06LEAF\x00\x04\x08\x00"),
    // shape 1 has the side 57, and goes up first
    (114, b"\x00\x2C\x10\x03\0\0\0\0\0\0\0\0\0\0\0\0\0\0\0\x39"),
    (
        1160,
        b"\x00\x04\x0B\x00\x00\x08\x12\x06LEAF\x00\x08\x13\x02\0\x01\0\x01",
    ),
    (1262, b"\x00\x04\x04\x00"),
];

#[test]
fn the_file_of_one(rt: HostRuntime) -> Result<(), Fail> {
    let mut depot = MemDepot::new(rt.alloc());
    assert_eq!(rt; generate(&mut depot, 1, "f")?, 1266);
    let made = depot.made("f").ok_or("no file")?;
    assert_eq!(rt; made.len(), 1266);
    for (at, piece) in PIECES {
        let rest = made.get(at..).ok_or("too short")?;
        assert!(rt; rest.starts_with(piece));
    }
    Ok(())
}

#[test]
fn a_write_that_fails(rt: HostRuntime) -> Result<(), Fail> {
    let mut depot = MemDepot::new(rt.alloc());
    depot.fail_at(1)?;
    assert_eq!(rt; generate(&mut depot, 1000, "f"), Err(DepotBad::Failed));
    assert_eq!(rt; depot.made("f"), Some(b"".as_slice()));
    Ok(())
}
