//! The layers of a deck on which the top cell shows nothing.
//!
//! An output with shots tells of some layers that they show something, as of both layers of `and`. Only where this leaves a
//! layer open the layout is looked at: its records are walked once for the cells that are shown, and then up to a shape on
//! each of these layers.
use crate::reached::{Cells, cells_below};
use crate::walk::{Found, Walk};
use deck_text::{Deck, Output, Step};
use geo_stream::NoMemory;
use layout_model::Pair;
use std::alloc::Global;

// The areas that have a tile where the one of this step has one.
fn needed(step: &Step) -> (Option<usize>, Option<usize>) {
    match step {
        Step::And(a, b) => (Some(*a), Some(*b)),
        Step::Sub(a, _) => (Some(*a), None),
        Step::Grow(a, _, _) | Step::Shrink(a, _, _) | Step::Mirror(a, _) => (Some(*a), None),
        Step::Layer(_) | Step::Or(_, _) | Step::Xor(_, _) | Step::Invert(_) => (None, None),
    }
}

// Notes that an area has a tile.
fn fill(filled: &mut Vec<bool>, area: Option<usize>) {
    if let Some(number) = area {
        if let Some(is_filled) = filled.get_mut(number) {
            *is_filled = true;
        }
    }
}

// Notes of the areas of outputs with shots that they have a tile.
fn fill_outputs(filled: &mut Vec<bool>, outputs: &[Output], shots: &[u64]) {
    for (output, count) in outputs.iter().zip(shots) {
        if *count > 0 {
            fill(filled, Some(output.name));
        }
    }
}

// Whether an area is known to have a tile.
fn is_filled(filled: &[bool], area: usize) -> bool {
    filled.get(area).copied() == Some(true)
}

// Which areas of a deck have a tile, as far as its outputs tell.
fn filled_areas(alloc: Global, deck: &Deck, shots: &[u64]) -> Result<Vec<bool>, NoMemory> {
    let steps = deck.steps.as_slice();
    let mut filled = vec![in alloc; false; steps.len()]?;
    fill_outputs(&mut filled, deck.outputs.as_slice(), shots);
    for (number, step) in steps.iter().enumerate().rev() {
        if is_filled(&filled, number) {
            let (a, b) = needed(step);
            fill(&mut filled, a);
            fill(&mut filled, b);
        }
    }
    Ok(filled)
}

// The pairs of the layers of which it is known, or of which it isn't, that they have a tile.
fn pairs_where(
    alloc: Global,
    deck: &Deck,
    filled: &[bool],
    wanted: bool,
) -> Result<Vec<Pair>, NoMemory> {
    let mut pairs = Vec::new(alloc);
    for (number, step) in deck.steps.as_slice().iter().enumerate() {
        if let Step::Layer(pair) = step {
            if is_filled(filled, number) == wanted {
                pairs.push(*pair)?;
            }
        }
    }
    Ok(pairs)
}

/// The pairs of a deck's layers of which the shots of its outputs don't tell that the top cell shows something.
pub(crate) fn open_pairs(alloc: Global, deck: &Deck, shots: &[u64]) -> Result<Vec<Pair>, NoMemory> {
    let filled = filled_areas(alloc, deck, shots)?;
    let known = pairs_where(alloc, deck, &filled, true)?;
    let mut open = Vec::new(alloc);
    for pair in pairs_where(alloc, deck, &filled, false)?.as_slice() {
        if !known.as_slice().contains(pair) {
            open.push(*pair)?;
        }
    }
    Ok(open)
}

// Takes the pairs out of which the shown cells have a shape.
fn take_shown(bytes: &[u8], cells: &Cells, pairs: &mut Vec<Pair>) {
    let mut walk = Walk::new(bytes);
    let mut is_shown = false;
    for _record in 0..bytes.len() {
        if pairs.is_empty() {
            return;
        }
        match walk.next() {
            Some(Found::Cell(title)) => is_shown = cells.is_reached(title),
            Some(Found::Shape(pair)) => {
                if is_shown {
                    pairs.retain(|other| *other != pair);
                }
            }
            Some(_) => {}
            None => return,
        }
    }
}

/// Those of the pairs on which the top cell of a layout shows nothing.
pub(crate) fn hidden_pairs(
    alloc: Global,
    bytes: &[u8],
    top: &[u8],
    pairs: Vec<Pair>,
) -> Result<Vec<Pair>, NoMemory> {
    let mut left = pairs;
    match cells_below(alloc, bytes, top)? {
        Some(cells) => take_shown(bytes, &cells, &mut left),
        None => left.clear(),
    }
    Ok(left)
}
