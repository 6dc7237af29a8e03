//! The commands from end to end: files and lines that were worked out by hand, and calls that fail.
use depot::{MemDepot, Refused, SureDepot};
use geo_stream::NoMemory;
use mdp_job::{run, run_surely};
use std::alloc::Global;
use std::test::Fail;

/// A library with one structure that holds one square of side 10 on layer 1, datatype 0.
const SQUARE: [u8; 168] = [
    0x00, 0x06, 0x00, 0x02, 0x02, 0x58, // HEADER, version 600
    0x00, 0x1C, 0x01, 0x02, 0, 0, 0, 0, 0, 0, 0, 0, 0, 0, 0, 0, // BGNLIB
    0, 0, 0, 0, 0, 0, 0, 0, 0, 0, 0, 0, //
    0x00, 0x06, 0x02, 0x06, 0x4C, 0x00, // LIBNAME
    0x00, 0x14, 0x03, 0x05, 0x3E, 0x41, 0x89, 0x37, 0x4B, 0xC6, 0xA7, 0xF0, // UNITS
    0x39, 0x44, 0xB8, 0x2F, 0xA0, 0x9B, 0x5A, 0x54, //
    0x00, 0x1C, 0x05, 0x02, 0, 0, 0, 0, 0, 0, 0, 0, 0, 0, 0, 0, // BGNSTR
    0, 0, 0, 0, 0, 0, 0, 0, 0, 0, 0, 0, //
    0x00, 0x08, 0x06, 0x06, 0x54, 0x4F, 0x50, 0x00, // STRNAME
    0x00, 0x04, 0x08, 0x00, // BOUNDARY
    0x00, 0x06, 0x0D, 0x02, 0x00, 0x01, // LAYER
    0x00, 0x06, 0x0E, 0x02, 0x00, 0x00, // DATATYPE
    0x00, 0x2C, 0x10, 0x03, 0, 0, 0, 0, 0, 0, 0, 0, // XY
    0, 0, 0, 0, 0, 0, 0, 10, 0, 0, 0, 10, 0, 0, 0, 10, //
    0, 0, 0, 10, 0, 0, 0, 0, 0, 0, 0, 0, 0, 0, 0, 0, //
    0x00, 0x04, 0x11, 0x00, // ENDEL
    0x00, 0x04, 0x07, 0x00, // ENDSTR
    0x00, 0x04, 0x04, 0x00, // ENDLIB
];

const DECK: &[u8] = b"unit 1000\ntop TOP\nlayer A 1 0\nwrite A out.oas 1 0\n";

const TWO: &[u8] = b"unit 1000\ntop TOP\nlayer A 1 0\nwrite A out.oas 1 0\nwrite A two.oas 2 0\n";

const FRACTURE: [&str; 3] = ["fracture", "G.gds", "K"];

const REPORT: &str =
    "format gdsii\ncells 1\nkept 1\nother 0\ntexts 0\nnodes 0\nboxes 0\nproperties 0\n\
    output out.oas shots 1 triangles 800\n";

const LISTING: &str = "unit 2000\nlayer 1 0\n0 20 0 20 0 20\nshots 1 triangles 800\n";

/// The magic bytes, START and CELL of a shot file for 1,000 grid steps a micrometre.
const HEAD: [u8; 41] = [
    0x25, 0x53, 0x45, 0x4D, 0x49, 0x2D, 0x4F, 0x41, 0x53, 0x49, 0x53, 0x0D, 0x0A, //
    0x01, 0x03, 0x31, 0x2E, 0x30, 0x00, 0xD0, 0x0F, 0x00, 0, 0, 0, 0, 0, 0, 0, 0, 0, 0, 0, 0, //
    0x0E, 0x05, 0x53, 0x48, 0x4F, 0x54, 0x53,
];

// The shot file with these records.
fn file_of(alloc: Global, records: &[u8]) -> Result<Vec<u8>, NoMemory> {
    let mut file = Vec::from_slice(alloc, &HEAD)?;
    file.extend_from_slice(records)?;
    file.extend_from_slice(&[0x02, 0xFC, 0x01])?;
    file.extend_from_slice(&[0; 253])?;
    Ok(file)
}

// The shot file of the square on this layer.
fn square_file(alloc: Global, layer: u8) -> Result<Vec<u8>, NoMemory> {
    file_of(alloc, &[0x14, 0x7B, layer, 0x00, 0x14, 0x14, 0x00, 0x00])
}

// These words, as a command has them.
fn words(alloc: Global, parts: &[&str]) -> Result<Vec<String>, NoMemory> {
    let mut words = Vec::new(alloc);
    for part in parts {
        words.push(String::from_str(alloc, part)?)?;
    }
    Ok(words)
}

// A depot in memory with the square and this deck.
fn depot_of(alloc: Global, deck: &[u8]) -> Result<MemDepot, Fail> {
    let mut depot = MemDepot::new(alloc);
    depot.add("G.gds", &SQUARE)?;
    depot.add("K", deck)?;
    Ok(depot)
}

#[test]
fn the_square_is_written(rt: HostRuntime) -> Result<(), Fail> {
    let alloc = rt.alloc();
    let want = square_file(alloc, 1)?;
    assert_eq!(rt; want.len(), 305);
    let command = words(alloc, &FRACTURE)?;
    for short in [false, true] {
        let mut depot = depot_of(alloc, DECK)?;
        if short {
            depot.short();
        }
        assert!(rt; run(alloc, &command, &mut depot).code() == 0);
        let made = depot.made("out.oas").ok_or("no file")?;
        assert_eq!(rt; made, want.as_slice());
        assert_eq!(rt; depot.said(), REPORT.as_bytes());
    }
    let mut sure = SureDepot::new(alloc);
    sure.add("G.gds", &SQUARE)?;
    sure.add("K", DECK)?;
    assert!(rt; run_surely(alloc, &command, &mut sure).code() == 0);
    let made = sure.made("out.oas").ok_or("no file")?;
    assert_eq!(rt; made, want.as_slice());
    Ok(())
}

/// The same square in an OASIS file, without END.
const OASIS: &[u8] =
    b"%SEMI-OASIS\r\n\x01\x031.0\x00\xE8\x07\x00\0\0\0\0\0\0\0\0\0\0\0\0\x0E\x03TOP\x14\x7B\x01\x00\x0A\x0A\x00\x00";

#[test]
fn an_oasis_layout_is_written(rt: HostRuntime) -> Result<(), Fail> {
    let alloc = rt.alloc();
    let mut layout = Vec::from_slice(alloc, OASIS)?;
    layout.extend_from_slice(&[0x02, 0xFC, 0x01])?;
    layout.extend_from_slice(&[0; 253])?;
    let mut depot = MemDepot::new(alloc);
    depot.add("G.gds", &layout)?;
    depot.add("K", DECK)?;
    assert!(rt; run(alloc, &words(alloc, &FRACTURE)?, &mut depot).code() == 0);
    let made = depot.made("out.oas").ok_or("no file")?;
    assert_eq!(rt; made, square_file(alloc, 1)?.as_slice());
    assert!(rt; depot.said().starts_with(b"format oasis\ncells 1\n"));
    Ok(())
}

// What a run over a depot, one of whose calls fails, made and said, with its code.
#[derive(Drop)]
struct Ended {
    code: u8,
    first: Option<usize>,
    second: Option<usize>,
    said: usize,
}

// The command with two outputs, where the call of this number fails.
fn two_outputs(alloc: Global, call: u64) -> Result<Ended, Fail> {
    let mut depot = depot_of(alloc, TWO)?;
    depot.fail_at(call)?;
    let code = run(alloc, &words(alloc, &FRACTURE)?, &mut depot).code();
    Ok(Ended {
        code,
        first: depot.made("out.oas").map(|bytes| bytes.len()),
        second: depot.made("two.oas").map(|bytes| bytes.len()),
        said: depot.said().len(),
    })
}

#[test]
fn each_call_of_two_outputs_fails(rt: HostRuntime) -> Result<(), Fail> {
    let alloc = rt.alloc();
    // the calls are: start, read, read the deck; the same for the layout;
    // for each output start, head, shots and end; say
    let rows: [(u64, u8, Option<usize>, Option<usize>); 15] = [
        (0, 4, None, None),
        (1, 4, None, None),
        (2, 4, None, None),
        (3, 4, None, None),
        (4, 4, None, None),
        (5, 4, None, None),
        (6, 5, None, None),
        (7, 5, Some(0), None),
        (8, 5, Some(41), None),
        (9, 5, Some(49), None),
        (10, 5, Some(305), None),
        (11, 5, Some(305), Some(0)),
        (12, 5, Some(305), Some(41)),
        (13, 5, Some(305), Some(49)),
        (14, 5, Some(305), Some(305)),
    ];
    for (call, code, first, second) in rows {
        let ended = two_outputs(alloc, call)?;
        assert_eq!(rt; ended.code, code, "at {call}");
        assert_eq!(rt; ended.first, first, "at {call}");
        assert_eq!(rt; ended.second, second, "at {call}");
        // `read fault` or `write fault`
        assert_eq!(rt; ended.said, if code == 4 { 11 } else { 12 }, "at {call}");
    }
    let ended = two_outputs(alloc, 15)?;
    assert_eq!(rt; ended.code, 0);
    assert_eq!(rt; ended.said, REPORT.len() + 37);
    Ok(())
}

// The words, the deck, the code, what is said.
const LINES: [(&[&str], &[u8], u8, &str); 8] = [
    (&["fracture", "G.gds"], DECK, 1, "words refused\n"),
    (&[], DECK, 1, "words refused\n"),
    (&["generate", "0", "F"], DECK, 1, "words refused\n"),
    (&["shots", "F"], DECK, 4, "read fault\n"),
    (&["fracture", "G", "K"], DECK, 4, "read fault\n"),
    (
        &FRACTURE,
        b"unit 1000\ntop TOP\nlayer A 1 0\nor C A\n",
        2,
        "deck refused: line 4 column 7\n",
    ),
    (
        &FRACTURE,
        b"unit 2000\ntop TOP\nlayer A 1 0\nwrite A F 1 0\n",
        3,
        "layout refused: gdsii unit 3944b82fa09b5a54\n",
    ),
    (
        &FRACTURE,
        b"unit 1000\ntop R\nlayer A 1 0\nwrite A F 1 0\n",
        3,
        "layout refused: no cell R\n",
    ),
];

#[test]
fn refusals_have_their_lines(rt: HostRuntime) -> Result<(), Fail> {
    let alloc = rt.alloc();
    for (parts, deck, code, line) in LINES {
        let mut depot = depot_of(alloc, deck)?;
        let ended = run(alloc, &words(alloc, parts)?, &mut depot);
        assert_eq!(rt; ended.code(), code);
        assert_eq!(rt; depot.said(), line.as_bytes());
        assert_eq!(rt; depot.counts(), (0, 0, 0));
    }
    // a deck of 65,537 bytes, also where the layout isn't there
    let mut depot = MemDepot::new(alloc);
    depot.add("K", &[b' '; 65_537])?;
    assert_eq!(rt; run(alloc, &words(alloc, &FRACTURE)?, &mut depot).code(), 2);
    assert_eq!(rt;
        depot.said(),
        b"deck refused: longer than 65536 bytes\n".as_slice()
    );
    // a line that can't be said changes nothing
    let mut depot = MemDepot::new(alloc);
    depot.fail_at(0)?;
    assert_eq!(rt; run(alloc, &[], &mut depot).code(), 1);
    assert_eq!(rt; depot.said(), b"".as_slice());
    assert_eq!(rt; depot.counts(), (0, 1, 0));
    Ok(())
}

// Records of a shot file, the code, what is said of it.
const FILES: [(&[u8], u8, &str); 4] = [
    (
        &[0x14, 0x7B, 0x01, 0x00, 0x14, 0x14, 0x00, 0x00],
        0,
        LISTING,
    ),
    (&[], 0, "unit 2000\nshots 0 triangles 0\n"),
    (
        &[0x14, 0x7B, 0x01, 0x00, 0x14, 0x00, 0x00, 0x00],
        7,
        "check refused: F: illegal at 41\n",
    ),
    (
        &[0x14, 0x7B, 0x01, 0x00, 0x94, 0x00, 0x14, 0x00, 0x00],
        7,
        "check refused: F: spelling at 41\n",
    ),
];

#[test]
fn files_are_listed_or_refused(rt: HostRuntime) -> Result<(), Fail> {
    let alloc = rt.alloc();
    let command = words(alloc, &["shots", "F"])?;
    for (records, code, said) in FILES {
        let mut depot = MemDepot::new(alloc);
        depot.add("F", &file_of(alloc, records)?)?;
        assert_eq!(rt; run(alloc, &command, &mut depot).code(), code);
        assert_eq!(rt; depot.said(), said.as_bytes());
    }
    // one byte a call: 305 are read, and the end; the eleventh that is said fails
    let mut depot = MemDepot::new(alloc);
    depot.add("F", &square_file(alloc, 1)?)?;
    depot.short();
    depot.fail_at(317)?;
    assert_eq!(rt; run(alloc, &command, &mut depot).code(), 5);
    assert_eq!(rt; depot.said(), b"unit 2000\nwrite fault\n".as_slice());
    Ok(())
}

/// A square of side 10 on layer 1 and one on layer 2, the same twice, and one of side 0.
const FIRST: &[u8] = &[0x14, 0x7B, 0x01, 0x00, 0x14, 0x14, 0x00, 0x00];

const SECOND: &[u8] = &[0x14, 0x7B, 0x02, 0x00, 0x14, 0x14, 0x00, 0x00];

const TWICE: &[u8] = &[
    0x14, 0x7B, 0x02, 0x00, 0x14, 0x14, 0x00, 0x00, //
    0x14, 0x7B, 0x02, 0x00, 0x14, 0x14, 0x00, 0x00,
];

const FLAT: &[u8] = &[0x14, 0x7B, 0x01, 0x00, 0x14, 0x00, 0x00, 0x00];

const SMALL: &[u8] =
    b"unit 1000\ntop TOP\nlimits 10 20\nlayer A 1 0\nwrite A out.oas 1 0\nwrite A two.oas 2 0\n";

const EXACT: &str =
    "format gdsii\ncells 1\nkept 1\nother 0\ntexts 0\nnodes 0\nboxes 0\nproperties 0\n\
exact out.oas shots 1 triangles 800\nexact two.oas shots 1 triangles 800\n";

// The deck, the records of both files, if they are there, the code, what is said.
const CHECKS: [(&[u8], Option<&[u8]>, Option<&[u8]>, u8, &str); 8] = [
    (TWO, Some(FIRST), Some(SECOND), 0, EXACT),
    (
        TWO,
        Some(FIRST),
        Some(TWICE),
        7,
        "check refused: two.oas: tile 0 0 left count 2 wanted 1\n",
    ),
    (
        TWO,
        Some(b""),
        None,
        7,
        "check refused: out.oas: tile 0 0 left count 0 wanted 1\n",
    ),
    (
        TWO,
        Some(SECOND),
        Some(SECOND),
        7,
        "check refused: out.oas: unit or layer differs\n",
    ),
    (
        TWO,
        Some(FLAT),
        None,
        7,
        "check refused: out.oas: illegal at 41\n",
    ),
    (
        SMALL,
        Some(FIRST),
        None,
        7,
        "check refused: out.oas: shot 0 too large\n",
    ),
    (TWO, Some(FIRST), None, 4, "read fault\n"),
    (TWO, None, Some(SECOND), 4, "read fault\n"),
];

#[test]
fn files_are_exact_or_refused(rt: HostRuntime) -> Result<(), Fail> {
    let alloc = rt.alloc();
    let command = words(alloc, &["check", "G.gds", "K"])?;
    for (deck, first, second, code, said) in CHECKS {
        let mut depot = depot_of(alloc, deck)?;
        if let Some(records) = first {
            depot.add("out.oas", &file_of(alloc, records)?)?;
        }
        if let Some(records) = second {
            depot.add("two.oas", &file_of(alloc, records)?)?;
        }
        assert_eq!(rt; run(alloc, &command, &mut depot).code(), code);
        assert_eq!(rt; depot.said(), said.as_bytes());
        assert_eq!(rt; depot.made("out.oas"), None);
    }
    Ok(())
}

#[test]
fn a_layout_is_generated(rt: HostRuntime) -> Result<(), Fail> {
    let alloc = rt.alloc();
    let mut depot = MemDepot::new(alloc);
    let command = words(alloc, &["generate", "007", "F"])?;
    assert_eq!(rt; run(alloc, &command, &mut depot).code(), 0);
    assert_eq!(rt; depot.said(), b"generated 1266 bytes\n".as_slice());
    let made = depot.made("F").ok_or("no file")?;
    assert_eq!(rt; made.len(), 1266);
    Ok(())
}

/// Three squares of side 10 side by side, 10 apart; and the one record with a repetition that stands for them.
const THREE: &[u8] = &[
    0x14, 0x7B, 0x01, 0x00, 0x14, 0x14, 0x00, 0x00, //
    0x14, 0x7B, 0x01, 0x00, 0x14, 0x14, 0x50, 0x00, //
    0x14, 0x7B, 0x01, 0x00, 0x14, 0x14, 0xA0, 0x01, 0x00,
];

const PACKED: &[u8] = &[
    0x14, 0x67, 0x01, 0x00, 0x14, 0x14, 0x09, 0x01, 0xA1, 0x01, 0x00,
];

#[test]
fn a_file_is_packed(rt: HostRuntime) -> Result<(), Fail> {
    let alloc = rt.alloc();
    let mut depot = MemDepot::new(alloc);
    depot.add("F", &file_of(alloc, THREE)?)?;
    let command = words(alloc, &["pack", "F", "A"])?;
    assert_eq!(rt; run(alloc, &command, &mut depot).code(), 0);
    assert_eq!(rt;
        depot.made("A").ok_or("no file")?,
        file_of(alloc, PACKED)?.as_slice()
    );
    assert_eq!(rt; depot.said(), b"packed 3 shots in 1 records\n".as_slice());
    Ok(())
}

#[test]
fn a_packed_file_is_unpacked(rt: HostRuntime) -> Result<(), Fail> {
    let alloc = rt.alloc();
    let mut depot = MemDepot::new(alloc);
    depot.add("P", &file_of(alloc, PACKED)?)?;
    let command = words(alloc, &["unpack", "P", "B"])?;
    assert_eq!(rt; run(alloc, &command, &mut depot).code(), 0);
    assert_eq!(rt;
        depot.made("B").ok_or("no file")?,
        file_of(alloc, THREE)?.as_slice()
    );
    assert_eq!(rt; depot.said(), b"unpacked 3 shots\n".as_slice());
    Ok(())
}

/// A triangle with its right angle at the lower right, and what of it lies in the fields of 16 half units of stripe 1.
const TRIANGLE: &[u8] = &[0x18, 0x7B, 0x01, 0x00, 0x14, 0x14, 0x28, 0x00, 0x00];

const TIP: &[u8] = &[0x18, 0x7B, 0x01, 0x00, 0x04, 0x04, 0x08, 0x20, 0x20];

#[test]
fn a_file_is_split(rt: HostRuntime) -> Result<(), Fail> {
    let alloc = rt.alloc();
    let mut depot = MemDepot::new(alloc);
    depot.add("F", &file_of(alloc, TRIANGLE)?)?;
    let command = words(alloc, &["split", "16", "F", "s"])?;
    assert_eq!(rt; run(alloc, &command, &mut depot).code(), 0);
    assert_eq!(rt;
        depot.made("s.1").ok_or("no file")?,
        file_of(alloc, TIP)?.as_slice()
    );
    assert_eq!(rt;
        depot.said(),
        b"stripe 0 shots 2 triangles 384\nstripe 1 shots 1 triangles 16\nshots 3 triangles 400\n".as_slice()
    );
    Ok(())
}

#[test]
fn windows_are_counted(rt: HostRuntime) -> Result<(), Fail> {
    let alloc = rt.alloc();
    let mut depot = depot_of(alloc, DECK)?;
    let command = words(alloc, &["density", "64", "G.gds", "K"])?;
    assert_eq!(rt; run(alloc, &command, &mut depot).code(), 0);
    assert_eq!(rt;
        depot.said(),
        b"density out.oas size 64\n0 0 800\nmost 0 0 800\ntriangles 800\n".as_slice()
    );
    Ok(())
}

#[test]
fn why_a_file_is_not_read(rt: HostRuntime) -> Result<(), Fail> {
    let alloc = rt.alloc();
    let rows = [
        (Refused::Fault, "the file can't be read"),
        (Refused::TooLong, "the file is too long"),
        (Refused::NoMemory, "memory is wanting"),
    ];
    for (refused, text) in rows {
        assert_eq!(rt; format!(in alloc; "{refused}")?.as_str(), text);
    }
    Ok(())
}
