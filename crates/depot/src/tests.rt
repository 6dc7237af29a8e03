//! One happy path of each public call over each depot, and a refusal of each kind.
use crate::{
    Buffer, Depot, DepotBad, FaultCause, FileDepot, MemDepot, Phase, Progress, Refused, SureDepot,
    flush, make_file, nothing_fails, put_piece, read_all, say_whole, write_whole,
};
use std::alloc::Global;
use std::fs;
use std::test::Fail;

const LIMIT: usize = 268_435_456;

// Reads one file, makes another of its bytes, tells how far that is, and says a line.
fn copy<D: Depot>(alloc: Global, depot: &mut D) -> Result<(), Refused> {
    let bytes = read_all(alloc, depot, "in", LIMIT)?;
    make_file(depot, "out", &bytes)?;
    depot.note(Progress::up_to(Phase::Writing, -1, 3, 3, 2));
    say_whole(depot, b"done\n")?;
    Ok(())
}

#[test]
fn files_in_memory(rt: HostRuntime) -> Result<(), Fail> {
    let mut depot = MemDepot::new(rt.alloc());
    depot.add("in", b"old")?;
    depot.add("in", b"\x00abc")?;
    copy(rt.alloc(), &mut depot)?;
    let made = depot.made("out").ok_or("no file")?;
    assert_eq!(rt; made, b"\x00abc".as_slice());
    assert_eq!(rt; depot.said(), b"done\n".as_slice());
    Ok(())
}

#[test]
fn pieces_add_up(rt: HostRuntime) -> Result<(), Fail> {
    let mut depot = MemDepot::new(rt.alloc());
    depot.start_write("out")?;
    write_whole(&mut depot, b"ab")?;
    write_whole(&mut depot, b"c")?;
    let made = depot.made("out").ok_or("no file")?;
    assert_eq!(rt; made, b"abc".as_slice());
    Ok(())
}

#[test]
fn one_byte_a_call(rt: HostRuntime) -> Result<(), Fail> {
    let mut depot = MemDepot::new(rt.alloc());
    depot.add("in", b"abc")?;
    depot.short();
    let mut buf = [0u8; 2];
    depot.start_read("in")?;
    assert_eq!(rt; depot.read(&mut buf)?, 1);
    copy(rt.alloc(), &mut depot)?;
    let made = depot.made("out").ok_or("no file")?;
    assert_eq!(rt; made, b"abc".as_slice());
    Ok(())
}

#[test]
fn a_depot_that_never_fails(rt: HostRuntime) -> Result<(), Fail> {
    nothing_fails();
    let mut depot = SureDepot::new(rt.alloc());
    copy(rt.alloc(), &mut depot)?;
    depot.add("in", b"abc")?;
    copy(rt.alloc(), &mut depot)?;
    let made = depot.made("out").ok_or("no file")?;
    assert_eq!(rt; made, b"abc".as_slice());
    assert_eq!(rt; depot.said(), b"done\ndone\n".as_slice());
    Ok(())
}

// What a copy leaves over a depot whose call of that number fails: the counts, and how many bytes were made.
fn after_fault(alloc: Global, call: u64) -> Result<((u64, u64, u64), Option<usize>), Fail> {
    let mut depot = MemDepot::new(alloc);
    depot.add("in", b"abc")?;
    depot.fail_at(call)?;
    let _outcome = copy(alloc, &mut depot);
    Ok((depot.counts(), depot.made("out").map(|bytes| bytes.len())))
}

#[test]
fn each_call_fails_in_turn(rt: HostRuntime) -> Result<(), Fail> {
    let table = [
        (0, (1, 0, 0), None),
        (1, (1, 0, 0), None),
        (2, (1, 0, 0), None),
        (3, (0, 1, 0), None),
        (4, (0, 1, 0), Some(0)),
        (5, (0, 1, 0), Some(3)),
        (6, (0, 0, 0), Some(3)),
    ];
    for (call, counts, made) in table {
        assert_eq!(rt; after_fault(rt.alloc(), call)?, (counts, made));
    }
    Ok(())
}

#[test]
fn limits_and_missing_files(rt: HostRuntime) -> Result<(), Fail> {
    let mut depot = MemDepot::new(rt.alloc());
    depot.add("a.gds", b"abc")?;
    let bytes = read_all(rt.alloc(), &mut depot, "a.gds", 3)?;
    assert_eq!(rt; bytes.as_slice(), b"abc".as_slice());
    let long = read_all(rt.alloc(), &mut depot, "a.gds", 2);
    assert_eq!(rt; long.err(), Some(Refused::TooLong));
    let missing = read_all(rt.alloc(), &mut depot, "b.gds", 3);
    assert_eq!(rt; missing.err(), Some(Refused::Fault));
    assert_eq!(rt; depot.counts(), (0, 0, 0));
    Ok(())
}

const REAL: &str = "depot-test.tmp";

// A file of the system with these bytes, made by a depot of its own.
fn make_real(rt: HostRuntime, bytes: &[u8]) -> Result<(), Fail> {
    let mut depot = FileDepot::new(rt);
    make_file(&mut depot, REAL, bytes)?;
    depot.finish()?;
    Ok(())
}

#[test]
fn real_files(rt: HostRuntime) -> Result<(), Fail> {
    make_real(rt.clone()?, b"a longer file before")?;
    make_real(rt.clone()?, b"\x00abc")?;
    let mut depot = FileDepot::new(rt.clone()?);
    let bytes = read_all(rt.alloc(), &mut depot, REAL, LIMIT)?;
    assert_eq!(rt; bytes.as_slice(), b"\x00abc".as_slice());
    let input = make_file(&mut depot, REAL, b"ab");
    assert_eq!(rt; input.err(), Some(DepotBad::Failed));
    let fault = depot.fault().ok_or("no fault")?;
    assert_eq!(rt; (fault.name(), fault.cause()), (REAL, FaultCause::IsInput));
    fs::remove_file(&rt, REAL)?;
    let missing = read_all(rt.alloc(), &mut depot, REAL, LIMIT);
    assert_eq!(rt; missing.err(), Some(Refused::Fault));
    say_whole(&mut depot, b"done\n")?;
    assert!(rt; depot.leftovers().is_empty());
    Ok(())
}

#[test]
fn a_long_piece(rt: HostRuntime) -> Result<(), Fail> {
    let mut depot = MemDepot::new(rt.alloc());
    let mut buffer = Buffer::new();
    put_piece(&mut depot, &mut buffer, b"check refused: ")?;
    put_piece(&mut depot, &mut buffer, &[b'x'; 9000])?;
    put_piece(&mut depot, &mut buffer, b": head at 0\n")?;
    flush(&mut depot, &mut buffer)?;
    assert_eq!(rt; depot.said().len(), 15 + 9000 + 12);
    assert!(rt; depot.said().starts_with(b"check refused: x"));
    assert!(rt; depot.said().ends_with(b"x: head at 0\n"));
    Ok(())
}
