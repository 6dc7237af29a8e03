//! How many cells a chain of placements has.

ghost use Rattle.std.specs.Prelude.{◌≡◌, ◌<◌, ◌≤◌, ℕ, length, slice_get, slice_index, Some, IfOk, IfSome, IfNone};
ghost use Rattle.cell_tree.specs.Linking.{AreTargetsBelow};
ghost use Rattle.cell_tree.specs.Orders.{IsUpward};
ghost use Rattle.cell_tree.specs.Heights.{IsHeightOf, AreHeights, AreHeightsBelow, IsDeepChain};

use crate::linked::Linked;
use geo_stream::NoMemory;
use std::alloc::Global;

// A chain of so many cells is too long, and of longer ones no more is known.
const TOO_MANY: u8 = 65;

// The number of cells in the longest chain from a cell, by those of the cells that it places.
fn height_of(targets: &[Option<usize>], heights: &[u8]) -> u8
    requires { AreTargetsBelow (length heights.now) targets.now }
    ensures { IsHeightOf targets.now heights.now result }
{
    let mut tallest = 0;
    for target in targets {
        if let Some(cell) = target {
            if tallest < heights[*cell] {
                tallest = heights[*cell];
            }
        }
    }
    if tallest < TOO_MANY {
        tallest + 1
    } else {
        TOO_MANY
    }
}

/// The number of cells in the longest chain from each of the cells of the order, at most 65.
pub(crate) fn heights(alloc: Global, linked: &Linked, order: &[usize]) -> Result<Vec<u8>, NoMemory>
    requires { IsUpward linked.now.cells order.now }
    ensures long { IfOk result (λ heights. length heights.items ≡ length linked.now.cells) }
    ensures heights { IfOk result (λ heights. AreHeights linked.now.cells order.now heights.items) }
{
    let mut heights = vec![in alloc; 0; linked.cells().len()]?;
    for cell in order {
        heights[*cell] = height_of(linked.targets(*cell), heights.as_slice());
    }
    Ok(heights)
}

// A placed cell with a chain of so many cells.
fn find_tall(targets: &[Option<usize>], heights: &[u8], least: u8) -> Option<usize>
    requires { AreTargetsBelow (length heights.now) targets.now }
    ensures some { IfSome result (λ m. ((k : ℕ) × (slice_get targets.now k ≡ Some (Some m))) × (least ≤ slice_index heights.now m)) }
    ensures none { IfNone result ((k m : ℕ) → slice_get targets.now k ≡ Some (Some m) → slice_index heights.now m < least) }
{
    for target in targets {
        if let Some(cell) = target {
            if least <= heights[*cell] {
                return Some(*cell);
            }
        }
    }
    None
}

/// The cells of a chain of 65 cells from the top cell.
pub(crate) fn deep_chain(
    alloc: Global,
    linked: &Linked,
    heights: &[u8],
    top: usize,
) -> Result<Vec<usize>, NoMemory>
    requires top { top < length linked.now.cells }
    requires long { length heights.now ≡ length linked.now.cells }
    requires heights { AreHeightsBelow linked.now.cells top heights.now }
    requires tall { 65 ≤ slice_index heights.now top }
    ensures { IfOk result (λ chain. IsDeepChain linked.now.cells top chain.items) }
{
    let mut chain = Vec::new(alloc);
    chain.push(top)?;
    let mut cell = top;
    for done in 1..TOO_MANY {
        match find_tall(linked.targets(cell), heights, TOO_MANY - done) {
            Some(next) => {
                chain.push(next)?;
                cell = next;
            }
            None => unreachable!(),
        }
    }
    Ok(chain)
}
