//! How many flattened shapes there are.
ghost use Rattle.std.specs.Prelude.{◌≡◌, ◌<◌, ◌≤◌, ◌-◌, ◌^◌, ℕ, length, take, drop, slice_index, IfOk, IfSome};
ghost use Rattle.cell_tree.specs.Cells.{PlacesAt};
ghost use Rattle.cell_tree.specs.Chains.{IsShort};
ghost use Rattle.cell_tree.specs.Orders.{IsUpward, IsAmong};
ghost use Rattle.cell_tree.specs.Flattening.{shape_count};
ghost use Rattle.cell_tree.specs.Counting.{saturated, own_count, copies_of, AreCounted};

use crate::linked::Linked;
use geo_stream::NoMemory;
use layout_model::{Placement, Shapes};
use std::alloc::Global;

// The most flattened shapes that a cell may have.
const MOST: u128 = 1 << 40;

/// A cell, and the number of its flattened shapes.
#[derive(Clone, Copy, Debug)]
pub(crate) struct Crowd {
    pub(crate) cell: usize,
    pub(crate) count: u128,
}

// How often the shapes from a number on up to another stand.
fn count_between(shapes: &Shapes, from: usize, end: usize) -> u128
    requires order { from ≤ end }
    requires within { end ≤ length shapes.now }
    ensures { result ≡ saturated (own_count (take (end - from) (drop from shapes.now))) }
{
    let mut count = 0u128;
    for number in from..end {
        count = count.saturating_add(u128::from(shapes.get(number).count()));
    }
    count
}

// How often the shapes stand. Those that are given again and again are gone through once.
fn own_count(shapes: &Shapes) -> u128
    ensures { result ≡ saturated (own_count shapes.now) }
{
    let many = shapes.len();
    let mut count = 0u128;
    let mut k = 0;
    while k < many {
        let copies = shapes.copies_at(k);
        let once = count_between(shapes, k, k + copies.period);
        count = count.saturating_add(once.saturating_mul(copies.times as u128));
        k += copies.times * copies.period;
    }
    count
}

// How many flattened shapes a placement shows.
fn copies(counts: &[u64], placement: &Placement, target: Option<usize>) -> u128
    requires { IfSome target (λ m. m < length counts.now) }
    ensures { result ≡ saturated (copies_of counts.now placement.now target) }
{
    let Some(target) = target else {
        return 0;
    };
    u128::from(placement.offsets.count()).saturating_mul(u128::from(counts[target]))
}

// The number of flattened shapes of a cell, by those of the cells that it places.
fn count_of(linked: &Linked, cell: usize, counts: &[u64]) -> u128
    requires cell { cell < length linked.now.cells }
    requires long { length counts.now ≡ length linked.now.cells }
    requires short { IsShort linked.now.cells 64 cell }
    requires placed { (k m : ℕ) → PlacesAt linked.now.cells cell k m → slice_index counts.now m ≡ shape_count linked.now.cells m }
    ensures { result ≡ saturated (shape_count linked.now.cells cell) }
{
    let mut count = own_count(linked.shapes(cell));
    let placements = linked.placements(cell);
    for (k, target) in linked.targets(cell).iter().enumerate() {
        count = count.saturating_add(copies(counts, &placements[k], *target));
    }
    count
}

/// The numbers of flattened shapes of some cells, or the first of these that has more than 2^40.
#[derive(Drop)]
pub(crate) enum Counted {
    /// By the number of the cell.
    Each(Vec<u64>),
    Crowded(Crowd),
}

/// Counts the flattened shapes of the cells of the order.
pub(crate) fn count_shapes(
    alloc: Global,
    linked: &Linked,
    order: &[usize],
) -> Result<Counted, NoMemory>
    requires order { IsUpward linked.now.cells order.now }
    requires short { (n : ℕ) → IsAmong order.now n → IsShort linked.now.cells 64 n }
    ensures { IfOk result (AreCounted linked.now.cells order.now) }
{
    let mut counts = vec![in alloc; 0; linked.cells().len()]?;
    for cell in order {
        let count = count_of(linked, *cell, counts.as_slice());
        if count > MOST {
            return Ok(Counted::Crowded(Crowd { cell: *cell, count }));
        }
        counts[*cell] = count as u64;
    }
    Ok(Counted::Each(counts))
}
