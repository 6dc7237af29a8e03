//! A small layout with its deck, and the refusals in the order in which they are tried.
use crate::{DeckFault, Input, InputBad, LayoutFault, read_input};
use cell_tree::TreeBad;
use deck_text::DeckBad;
use depot::MemDepot;
use gds_reader::GdsBad;
use geo_stream::{NoMemory, Refusal};
use oas_reader::OasBad;
use std::alloc::Global;
use std::test::Fail;

/// A library with one structure that holds one square of side 10 on layer 1, datatype 0.
const SQUARE: [u8; 168] = [
    0x00, 0x06, 0x00, 0x02, 0x02, 0x58, // HEADER, version 600
    0x00, 0x1C, 0x01, 0x02, 0, 0, 0, 0, 0, 0, 0, 0, 0, 0, 0, 0, // BGNLIB
    0, 0, 0, 0, 0, 0, 0, 0, 0, 0, 0, 0, //
    0x00, 0x06, 0x02, 0x06, 0x4C, 0x00, // LIBNAME
    0x00, 0x14, 0x03, 0x05, 0x3E, 0x41, 0x89, 0x37, 0x4B, 0xC6, 0xA7, 0xF0, // UNITS
    0x39, 0x44, 0xB8, 0x2F, 0xA0, 0x9B, 0x5A, 0x54, //
    0x00, 0x1C, 0x05, 0x02, 0, 0, 0, 0, 0, 0, 0, 0, 0, 0, 0, 0, // BGNSTR
    0, 0, 0, 0, 0, 0, 0, 0, 0, 0, 0, 0, //
    0x00, 0x08, 0x06, 0x06, 0x54, 0x4F, 0x50, 0x00, // STRNAME
    0x00, 0x04, 0x08, 0x00, // BOUNDARY
    0x00, 0x06, 0x0D, 0x02, 0x00, 0x01, // LAYER
    0x00, 0x06, 0x0E, 0x02, 0x00, 0x00, // DATATYPE
    0x00, 0x2C, 0x10, 0x03, 0, 0, 0, 0, 0, 0, 0, 0, // XY
    0, 0, 0, 0, 0, 0, 0, 10, 0, 0, 0, 10, 0, 0, 0, 10, //
    0, 0, 0, 10, 0, 0, 0, 0, 0, 0, 0, 0, 0, 0, 0, 0, //
    0x00, 0x04, 0x11, 0x00, // ENDEL
    0x00, 0x04, 0x07, 0x00, // ENDSTR
    0x00, 0x04, 0x04, 0x00, // ENDLIB
];

const DECK: &[u8] = b"unit 1000\ntop TOP\nlayer A 1 0\nwrite A out.oas 1 0\n";

/// The deck with another top cell.
const OTHER: &[u8] = b"unit 1000\ntop OTHER\nlayer A 1 0\nwrite A out.oas 1 0\n";

/// That cell.
const TOP: &[u8] = b"OTHER";

/// The deck with the layout's name as that of an output.
const TAKEN: &[u8] = b"unit 1000\ntop TOP\nlayer A 1 0\nwrite A G.gds 1 0\n";

// What is read of a depot with this layout and this deck.
fn read(
    alloc: Global,
    layout: Option<&[u8]>,
    deck: &[u8],
) -> Result<Result<Input, Refusal<InputBad>>, NoMemory> {
    let mut depot = MemDepot::new(alloc);
    match layout {
        Some(bytes) => depot.add("G.gds", bytes)?,
        None => {}
    }
    depot.add("K", deck)?;
    Ok(read_input(alloc, &mut depot, "G.gds", "K"))
}

#[test]
fn the_square_is_read(rt: HostRuntime) -> Result<(), Fail> {
    let alloc = rt.alloc();
    let Ok(input) = read(alloc, Some(&SQUARE), DECK)? else {
        return Err("refused".into());
    };
    assert_eq!(rt; input.deck.unit, 1000);
    assert_eq!(rt; input.tree.top(), 0);
    let cells = input.tree.cells();
    assert_eq!(rt; cells.len(), 1);
    assert_eq!(rt; cells[0].shapes.len(), 1);
    Ok(())
}

// Whether a deck that is too long is refused where the layout isn't there.
fn is_long(alloc: Global) -> bool {
    let Ok(deck) = vec![in alloc; b'#'; 65_537] else {
        return false;
    };
    let answer = read(alloc, None, &deck);
    matches!(
        answer,
        Ok(Err(Refusal::Fault(InputBad::Deck(DeckFault::Long))))
    )
}

// Whether an empty deck is refused at line 1.
fn is_empty(alloc: Global) -> bool {
    let answer = read(alloc, None, b"");
    matches!(
        answer,
        Ok(Err(Refusal::Fault(InputBad::Deck(DeckFault::Bad(DeckBad::Order(1))))))
    )
}

// Whether a deck that writes to the layout is refused.
fn is_taken(alloc: Global) -> bool {
    let answer = read(alloc, None, TAKEN);
    matches!(
        answer,
        Ok(Err(Refusal::Fault(InputBad::Deck(DeckFault::Bad(DeckBad::Names(4))))))
    )
}

#[test]
fn the_deck_is_refused_first(rt: HostRuntime) {
    let alloc = rt.alloc();
    assert!(rt; is_long(alloc));
    assert!(rt; is_empty(alloc));
    assert!(rt; is_taken(alloc));
}

// Whether a layout that isn't there is a read fault.
fn is_missing(alloc: Global) -> bool {
    let answer = read(alloc, None, DECK);
    matches!(answer, Ok(Err(Refusal::Fault(InputBad::ReadFault))))
}

// Whether a layout that begins with 25 hex is refused as OASIS.
fn is_oasis(alloc: Global) -> bool {
    let answer = read(alloc, Some(b"%"), DECK);
    matches!(
        answer,
        Ok(Err(Refusal::Fault(InputBad::Layout(LayoutFault::Oas(OasBad::Magic), _))))
    )
}

// Whether a layout of no bytes is refused at its begin.
fn is_short(alloc: Global) -> bool {
    let answer = read(alloc, Some(b""), DECK);
    matches!(
        answer,
        Ok(Err(Refusal::Fault(InputBad::Layout(LayoutFault::Gds(GdsBad::Short(0)), _))))
    )
}

// Whether a layout without the deck's top cell is refused with that cell's name.
fn is_without_top(alloc: Global) -> bool {
    match read(alloc, Some(&SQUARE), OTHER) {
        Ok(Err(Refusal::Fault(InputBad::Layout(LayoutFault::Tree(TreeBad::NoTop), top)))) => {
            top.bytes() == TOP
        }
        _ => false,
    }
}

#[test]
fn then_the_layout_is(rt: HostRuntime) {
    let alloc = rt.alloc();
    assert!(rt; is_missing(alloc));
    assert!(rt; is_oasis(alloc));
    assert!(rt; is_short(alloc));
    assert!(rt; is_without_top(alloc));
}
