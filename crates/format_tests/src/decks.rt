//! Decks of each form, and decks with one or two faults.
use deck_text::{Deck, DeckBad, Step, Text, read_deck};
use geo_stream::Refusal;
use half_grid::{Frame, Limits};
use layout_model::Pair;
use std::alloc::Global;
use std::test::Fail;

// A fault with the name that it keeps lent.
#[derive(Clone, Copy, Debug, PartialEq, Eq)]
enum Told<'a> {
    Line(usize, usize),
    Order(usize),
    Twice(usize, usize),
    Unknown(usize, &'a str),
    NoFrame(usize),
    Range(usize, i64),
    Odd(usize),
    Names(usize),
    Many(usize),
}

fn lent(bad: &DeckBad) -> Told<'_> {
    match bad {
        DeckBad::Line(line, column) => Told::Line(*line, *column),
        DeckBad::Order(line) => Told::Order(*line),
        DeckBad::Twice(line, earlier) => Told::Twice(*line, *earlier),
        DeckBad::Unknown(line, name) => Told::Unknown(*line, name.as_str()),
        DeckBad::NoFrame(line) => Told::NoFrame(*line),
        DeckBad::Range(line, value) => Told::Range(*line, *value),
        DeckBad::Odd(line) => Told::Odd(*line),
        DeckBad::Names(line) => Told::Names(*line),
        DeckBad::Many(line) => Told::Many(*line),
    }
}

// The deck of at most 65,536 bytes, with `G.gds` as the layout and `K` as the deck.
fn read(alloc: Global, bytes: &[u8]) -> Option<Result<Deck, Refusal<DeckBad>>> {
    if 65536 < bytes.len() {
        return None;
    }
    Some(read_deck(alloc, bytes, "G.gds", "K"))
}

// Each line stands after `unit 1000`, `top TOP` and `layer A 1 0`.
const FOURTH: [(&[u8], Told<'static>); 38] = [
    (b"or C A", Told::Line(4, 7)),
    (b"or C A B", Told::Unknown(4, "B")),
    (b"invert C A", Told::NoFrame(4)),
    (b"unit 1000", Told::Order(4)),
    (b"write A G.gds 1 0", Told::Names(4)),
    (b"layer Z 1 -1", Told::Range(4, -1)),
    (b"", Told::Order(4)),
    (b"grow E A 3 2", Told::Odd(4)),
    // no form: a word, a name, a number, a token too many or too few, a byte of no token
    (b"  Layer Z 1 0\n", Told::Line(4, 3)),
    (b"unit x\n", Told::Line(4, 6)),
    (b"layer 9 1 0", Told::Line(4, 7)),
    (
        b"layer AbcdefghijAbcdefghijAbcdefghijAbc 1 0",
        Told::Line(4, 7),
    ),
    (b"layer Z 1 0000000000000000000", Told::Line(4, 11)),
    (b"layer Z 1 --1", Told::Line(4, 11)),
    (b"layer Z 1 0 0", Told::Line(4, 13)),
    (b"layer Z 1 0 # no", Told::Line(4, 13)),
    (b"grow E A 3 1 1", Told::Line(4, 14)),
    (b"or C A \t\r\n", Told::Line(4, 9)),
    (b"lay\x01er Z 1 0", Told::Line(4, 1)),
    (b"or C A\x80 B", Told::Line(4, 7)),
    (b"layer Z 1 0\x7F", Told::Line(4, 12)),
    // CR stays where no LF follows it, and before another CR
    (b"write A out.oas 1 0\r", Told::Line(4, 20)),
    (b"write A out.oas 1 0\r\r\n", Told::Line(4, 20)),
    // Order before Twice, Twice before Unknown, NoFrame and Range
    (b"top TOP", Told::Order(4)),
    (b"or A X Y", Told::Twice(4, 3)),
    (b"invert A A", Told::Twice(4, 3)),
    (b"layer A -1 0", Told::Twice(4, 3)),
    // Unknown before NoFrame, Range, Odd and Names; the first operand
    (b"invert C C", Told::Unknown(4, "C")),
    (b"grow C X 65537 0", Told::Unknown(4, "X")),
    (b"xor C X Y", Told::Unknown(4, "X")),
    (b"write X K 1 0", Told::Unknown(4, "X")),
    // Range before Odd and Names; the first number, without its zeros
    (b"shrink C A 65537 2", Told::Range(4, 65537)),
    (b"grow C A 2 -007", Told::Range(4, -7)),
    (b"mirror C A 1073741825", Told::Range(4, 1073741825)),
    (b"write A K 4294967296 -1", Told::Range(4, 4294967296)),
    // one of two outputs
    (b"write A K 1 0", Told::Names(4)),
    (b"write A f 1 0\nwrite A f 2 0", Told::Names(5)),
    (b"# x\n\t #y\n\nlayer A 1 0", Told::Twice(7, 3)),
];

// Each text stands alone.
const ALONE: [(&[u8], Told<'static>); 16] = [
    (b"", Told::Order(1)),
    (b"\n", Told::Order(2)),
    (b"# x", Told::Order(2)),
    (b"unit 1\nlayer A 1 0\ntop T", Told::Order(2)),
    (b"top T\nwrite A f 1 0\nunit 1", Told::Order(2)),
    (b"unit 1\nunit 0", Told::Twice(2, 1)),
    (b"unit 0", Told::Range(1, 0)),
    (b"unit 1000001", Told::Range(1, 1000001)),
    (b"band 1023", Told::Range(1, 1023)),
    (b"limits 0 -1", Told::Range(1, 0)),
    (b"limits 4 7", Told::Range(1, 7)),
    (b"limits 16777216 33554433", Told::Range(1, 33554433)),
    (b"frame -1073741825 0 0 0", Told::Range(1, -1073741825)),
    (b"frame 5 0 5 0", Told::Range(1, 5)),
    (b"frame 5 3 6 3", Told::Range(1, 3)),
    (b"frame 0 0 1 1073741825", Told::Range(1, 1073741825)),
];

// The fault for which the bytes are refused.
fn refusal(alloc: Global, bytes: &[u8]) -> Result<DeckBad, Fail> {
    match read(alloc, bytes).ok_or("long")? {
        Ok(_) => Err(Fail::from("accepted")),
        Err(Refusal::Fault(bad)) => Ok(bad),
        Err(Refusal::NoMemory) => Err(Fail::from("memory")),
    }
}

#[test]
fn refuses_the_fourth_line(rt: HostRuntime) -> Result<(), Fail> {
    for (line, wanted) in FOURTH {
        let mut bytes = Vec::new(rt.alloc());
        bytes.extend_from_slice(b"unit 1000\ntop TOP\nlayer A 1 0\n")?;
        bytes.extend_from_slice(line)?;
        assert_eq!(rt; lent(&refusal(rt.alloc(), &bytes)?), wanted);
    }
    Ok(())
}

#[test]
fn refuses_decks(rt: HostRuntime) -> Result<(), Fail> {
    for (bytes, wanted) in ALONE {
        assert_eq!(rt; lent(&refusal(rt.alloc(), bytes)?), wanted);
    }
    Ok(())
}

// `unit`, `top`, and so many definitions with names of two letters.
fn definitions(alloc: Global, count: usize) -> Result<Vec<u8>, Fail> {
    let mut bytes = Vec::new(alloc);
    bytes.extend_from_slice(b"unit 1\ntop T\n")?;
    for n in 0..count {
        let letters = [b'A' + (n / 20 % 20) as u8, b'A' + (n % 20) as u8];
        bytes.extend_from_slice(b"layer ")?;
        bytes.extend_from_slice(&letters)?;
        bytes.extend_from_slice(b" 1 0\n")?;
    }
    Ok(bytes)
}

#[test]
fn refuses_too_many(rt: HostRuntime) -> Result<(), Fail> {
    let mut bytes = definitions(rt.alloc(), 256)?;
    bytes.extend_from_slice(b"grow E AA 1 0")?;
    assert_eq!(rt; lent(&refusal(rt.alloc(), &bytes)?), Told::Odd(259));
    let mut bytes = definitions(rt.alloc(), 257)?;
    bytes.extend_from_slice(b"write AA g 1 0")?;
    assert_eq!(rt; lent(&refusal(rt.alloc(), &bytes)?), Told::Many(259));
    let mut bytes = definitions(rt.alloc(), 256)?;
    for n in 0..64u8 {
        bytes.extend_from_slice(b"write AA f")?;
        bytes.push(b'0' + n)?;
        bytes.extend_from_slice(b" 1 0\n")?;
    }
    let deck = read(rt.alloc(), &bytes)
        .ok_or("long")?
        .ok()
        .ok_or("refused")?;
    assert_eq!(rt; deck.steps.as_slice().len(), 256);
    assert_eq!(rt; deck.outputs.as_slice().len(), 64);
    bytes.extend_from_slice(b"write AA g 1 0")?;
    assert_eq!(rt; lent(&refusal(rt.alloc(), &bytes)?), Told::Many(323));
    Ok(())
}

const ALL: &[u8] = b"# every form\r\n\
unit\t001000\r\n\
  top $TOP\r\n\
band 1024\n\
limits 200 400\n\
frame -1073741824 0 20 1073741824\n\
layer A 4294967295 -0\n\
layer _b2 1 000000000000000007\n\
or C A _b2\nand D C A\nsub E D C\nxor F A A\n\
grow G A 3\nshrink H G 9 3\ninvert I H\nmirror J I -5\n\
write J out.oas 1 0\nwrite A a/b 2 3";

#[test]
fn reads_each_form(rt: HostRuntime) -> Result<(), Fail> {
    let deck = read(rt.alloc(), ALL).ok_or("long")?.ok().ok_or("refused")?;
    assert_eq!(rt; deck.unit, 1000);
    assert_eq!(rt; deck.top.bytes(), b"$TOP".as_slice());
    assert_eq!(rt; deck.band, 1024);
    assert_eq!(rt;
        deck.limits,
        Limits {
            height: 200,
            width: 400
        }
    );
    let frame = Frame {
        x0: -1073741824,
        y0: 0,
        x1: 20,
        y1: 1073741824,
    };
    assert_eq!(rt; deck.frame, Some(frame));
    Ok(())
}

#[test]
fn reads_each_step(rt: HostRuntime) -> Result<(), Fail> {
    let deck = read(rt.alloc(), ALL).ok_or("long")?.ok().ok_or("refused")?;
    let wide = Pair {
        layer: 4294967295,
        datatype: 0,
    };
    let low = Pair {
        layer: 1,
        datatype: 7,
    };
    let steps = [
        Step::Layer(wide),
        Step::Layer(low),
        Step::Or(0, 1),
        Step::And(2, 0),
        Step::Sub(3, 2),
        Step::Xor(0, 0),
        Step::Grow(0, 3, 3),
        Step::Shrink(6, 9, 3),
        Step::Invert(7),
        Step::Mirror(8, -5),
    ];
    assert_eq!(rt; deck.steps.as_slice(), steps.as_slice());
    let outputs = deck.outputs.as_slice();
    assert_eq!(rt; outputs.len(), 2);
    assert_eq!(rt; outputs[0].name, 9);
    assert_eq!(rt; outputs[0].file.as_str(), "out.oas");
    assert_eq!(rt; outputs[1].name, 0);
    assert_eq!(rt; outputs[1].file.as_str(), "a/b");
    assert_eq!(rt;
        outputs[1].pair,
        Pair {
            layer: 2,
            datatype: 3
        }
    );
    assert_eq!(rt; deck.wanted(rt.alloc())?.as_slice(), [low, wide].as_slice());
    Ok(())
}

#[test]
fn reads_the_least_deck(rt: HostRuntime) -> Result<(), Fail> {
    let bytes = b"unit 1000\ntop TOP\nlayer A 1 0\nwrite A out.oas 1 0\n";
    let deck = read(rt.alloc(), bytes)
        .ok_or("long")?
        .ok()
        .ok_or("refused")?;
    assert_eq!(rt; deck.band, 1048576);
    assert_eq!(rt;
        deck.limits,
        Limits {
            height: 1048576,
            width: 2097152
        }
    );
    assert_eq!(rt; deck.frame, None);
    let text = Text::new(rt.alloc(), "out.oas")?;
    assert_eq!(rt; text.as_str(), "out.oas");
    Ok(())
}
