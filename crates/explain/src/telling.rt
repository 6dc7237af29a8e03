//! What is told of each answer.
ghost use Rattle.std.specs.Prelude.{IsTrue};
ghost use Rattle.depot.specs.Content.{ChangesLeftOnly};

use crate::advice::Advice;
use crate::deck::{Source, line_number, tell_deck};
use crate::deck_advice::deck_advice;
use crate::deck_lines::{line_with, text_of, unit_of};
use crate::file_advice::{IS_LAYOUT, no_deck, no_layout};
use crate::gdsii::{tell_gds, tell_structure};
use crate::layout_advice::layout_advice;
use crate::missing::{Missing, tell_missing};
use crate::names::Names;
use crate::note::Note;
use crate::oasis;
use crate::oasis::tell_oas;
use crate::reading::{DECK_LIMIT, FILE_LIMIT, begins_as_layout, bytes_of};
use crate::shot_advice::shot_advice;
use crate::shots::{Judged, output_line, tell_file};
use crate::tree::tell_tree;
use crate::units::{gds_steps, oas_steps, tell_units};
use cell_tree::TreeBad;
use deck_text::DeckBad;
use depot::Depot;
use gds_reader::GdsBad;
use geo_stream::NoMemory;
use job_input::{DeckFault, LayoutFault};
use job_report::CheckFault;
use oas_reader::OasBad;
use std::alloc::Global;

/// Tells what is refused of a file, or of none.
pub(crate) fn tell_means(note: &mut Note, file: &str, advice: Advice) -> Result<(), NoMemory> {
    note.put("nettletide: ")?;
    if !file.is_empty() {
        note.put(file)?;
        note.put(": ")?;
    }
    note.put(advice.means)?;
    note.put("\n")
}

/// Tells what to do.
pub(crate) fn tell_advice(note: &mut Note, advice: Advice) -> Result<(), NoMemory> {
    note.put("    ")?;
    note.put(advice.advice)?;
    note.put("\n")
}

// Tells what is refused of a file, and what to do.
fn tell_both(note: &mut Note, file: &str, advice: Advice) -> Result<(), NoMemory> {
    tell_means(note, file, advice)?;
    tell_advice(note, advice)
}

// Tells the first fault of a deck's bytes.
fn tell_bad_deck(
    note: &mut Note,
    source: &Source,
    bad: &DeckBad,
    advice: Advice,
) -> Result<(), NoMemory> {
    note.put("nettletide: ")?;
    note.put(source.deck)?;
    note.put(": line ")?;
    note.put_number(line_number(bad) as u128)?;
    note.put(": ")?;
    note.put(advice.means)?;
    note.put("\n")?;
    if !source.bytes.is_empty() {
        tell_deck(note, source, bad)?;
    }
    tell_advice(note, advice)
}

/// Tells why a deck is refused.
pub(crate) fn explain_deck<D: Depot>(
    alloc: Global,
    note: &mut Note,
    names: Names,
    fault: &DeckFault,
    depot: &mut D,
) -> Result<(), NoMemory>
    ensures reads { IsTrue D.tells → ChangesLeftOnly (D.content depot.old) (D.content depot.new) }
{
    let advice = deck_advice(fault);
    match fault {
        DeckFault::Long => {
            let is_layout = begins_as_layout(depot, names.deck);
            tell_both(note, names.deck, if is_layout { IS_LAYOUT } else { advice })
        }
        DeckFault::Bad(bad) => {
            let bytes = bytes_of(alloc, depot, names.deck, DECK_LIMIT);
            if let Some(other) = no_deck(&bytes) {
                return tell_both(note, names.deck, other);
            }
            let source = Source {
                bytes: &bytes,
                layout: names.layout,
                deck: names.deck,
            };
            tell_bad_deck(note, &source, bad, advice)
        }
    }
}

// Tells two offsets.
fn tell_two(note: &mut Note, first: usize, second: usize) -> Result<(), NoMemory> {
    note.put_byte(first)?;
    note.put(" and ")?;
    note.put_byte(second)?;
    note.put("\n")
}

// Tells where a GDSII file has its first fault.
fn tell_gds_fault(note: &mut Note, bytes: &[u8], bad: &GdsBad, unit: u32) -> Result<(), NoMemory> {
    match bad {
        GdsBad::Short(at)
        | GdsBad::Length(at)
        | GdsBad::Kind(at)
        | GdsBad::Size(at)
        | GdsBad::Order(at)
        | GdsBad::Tail(at) => tell_gds(note, bytes, *at, 0, unit),
        GdsBad::Value(at, rule) => tell_gds(note, bytes, *at, *rule, unit),
        GdsBad::Unit(bits) => tell_units(note, gds_steps(*bits), unit),
        GdsBad::Twice(first, second) => {
            note.put("    cell ")?;
            tell_structure(note, bytes, *second)?;
            note.put("; ")?;
            tell_two(note, *first, *second)
        }
    }
}

// Tells where an OASIS file has its first fault.
fn tell_oas_fault(note: &mut Note, bytes: &[u8], bad: &OasBad, unit: u32) -> Result<(), NoMemory> {
    match bad {
        OasBad::Magic => Ok(()),
        OasBad::Lexical(at, _)
        | OasBad::Order(at)
        | OasBad::Undefined(at, _)
        | OasBad::Value(at, _)
        | OasBad::Tail(at) => tell_oas(note, bytes, *at, unit),
        OasBad::Unit(_) => {
            let steps = match oasis::unit_of(bytes) {
                Some(real) => oas_steps(&real),
                None => None,
            };
            tell_units(note, steps, unit)
        }
        OasBad::Names(first, second) => {
            note.put("    ")?;
            tell_two(note, *first, *second)
        }
    }
}

// Tells the cells that a layout is refused for.
fn tell_tree_fault(
    alloc: Global,
    note: &mut Note,
    bytes: &[u8],
    deck: &[u8],
    bad: &TreeBad,
) -> Result<(), NoMemory> {
    let top = text_of(line_with(deck, b"top", 0), 1);
    let unit = unit_of(deck);
    match bad {
        TreeBad::Unknown(cell, name) => {
            let missing = Missing {
                bytes,
                top,
                cell: cell.bytes(),
                name: name.bytes(),
                unit,
            };
            tell_missing(alloc, note, &missing)
        }
        _ => tell_tree(note, bad, top, unit.saturating_mul(2)),
    }
}

// Tells where a layout's bytes have their first fault.
fn tell_layout_fault(
    alloc: Global,
    note: &mut Note,
    bytes: &[u8],
    deck: &[u8],
    fault: &LayoutFault,
) -> Result<(), NoMemory> {
    let unit = unit_of(deck);
    match fault {
        LayoutFault::Long => Ok(()),
        LayoutFault::Gds(bad) => tell_gds_fault(note, bytes, bad, unit),
        LayoutFault::Oas(bad) => tell_oas_fault(note, bytes, bad, unit),
        LayoutFault::Tree(bad) => tell_tree_fault(alloc, note, bytes, deck, bad),
    }
}

// Whether the layout has to be read again to tell where its fault is.
fn is_in_bytes(fault: &LayoutFault) -> bool {
    matches!(
        fault,
        LayoutFault::Gds(_) | LayoutFault::Oas(_) | LayoutFault::Tree(TreeBad::Unknown(_, _))
    )
}

// What a layout's file is that is no layout.
fn other_file(bytes: &[u8], fault: &LayoutFault) -> Option<Advice> {
    match fault {
        LayoutFault::Gds(_) | LayoutFault::Oas(_) => no_layout(bytes),
        LayoutFault::Tree(_) | LayoutFault::Long => None,
    }
}

/// Tells why a layout is refused.
pub(crate) fn explain_layout<D: Depot>(
    alloc: Global,
    note: &mut Note,
    names: Names,
    fault: &LayoutFault,
    depot: &mut D,
) -> Result<(), NoMemory>
    ensures reads { IsTrue D.tells → ChangesLeftOnly (D.content depot.old) (D.content depot.new) }
{
    let advice = layout_advice(fault);
    let deck = bytes_of(alloc, depot, names.deck, DECK_LIMIT);
    let limit = if is_in_bytes(fault) { FILE_LIMIT } else { 0 };
    let bytes = bytes_of(alloc, depot, names.layout, limit);
    if let Some(other) = other_file(&bytes, fault) {
        return tell_both(note, names.layout, other);
    }
    tell_means(note, names.layout, advice)?;
    tell_layout_fault(alloc, note, &bytes, &deck, fault)?;
    tell_advice(note, advice)
}

// Whether a shot file has to be read again to tell where its fault is.
fn is_of_shots(fault: &CheckFault) -> bool {
    matches!(
        fault,
        CheckFault::Head
            | CheckFault::Miscovered(_, _, _)
            | CheckFault::TooLarge(_)
            | CheckFault::Wide(_)
    )
}

/// Tells why a shot file is refused. The deck has no bytes where there is none.
fn tell_shot_file<D: Depot>(
    alloc: Global,
    note: &mut Note,
    file: &str,
    deck: &[u8],
    output: usize,
    fault: &CheckFault,
    depot: &mut D,
) -> Result<(), NoMemory>
    ensures reads { IsTrue D.tells → ChangesLeftOnly (D.content depot.old) (D.content depot.new) }
{
    let advice = shot_advice(fault);
    let limit = if is_of_shots(fault) { FILE_LIMIT } else { 0 };
    let bytes = bytes_of(alloc, depot, file, limit);
    tell_means(note, file, advice)?;
    let judged = Judged {
        bytes: &bytes,
        deck,
        unit: unit_of(deck),
        output,
    };
    tell_file(alloc, note, &judged, fault)?;
    tell_advice(note, advice)
}

/// Tells why a shot file is refused that the command names.
pub(crate) fn explain_file<D: Depot>(
    alloc: Global,
    note: &mut Note,
    file: &str,
    fault: &CheckFault,
    depot: &mut D,
) -> Result<(), NoMemory>
    ensures reads { IsTrue D.tells → ChangesLeftOnly (D.content depot.old) (D.content depot.new) }
{
    tell_shot_file(alloc, note, file, &[], 0, fault, depot)
}

// The name of the file of a deck's output.
fn output_name(deck: &[u8], output: usize) -> &str {
    match str::from_utf8(text_of(output_line(deck, output), 2)) {
        Ok(name) => name,
        Err(_bad) => "",
    }
}

/// Tells why the shot file of a deck's output is refused.
pub(crate) fn explain_output<D: Depot>(
    alloc: Global,
    note: &mut Note,
    deck_name: &str,
    output: usize,
    fault: &CheckFault,
    depot: &mut D,
) -> Result<(), NoMemory>
    ensures reads { IsTrue D.tells → ChangesLeftOnly (D.content depot.old) (D.content depot.new) }
{
    let deck = bytes_of(alloc, depot, deck_name, DECK_LIMIT);
    let name = output_name(&deck, output);
    tell_shot_file(alloc, note, name, &deck, output, fault, depot)
}
