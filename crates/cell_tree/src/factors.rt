//! What chains of placements enlarge by.

ghost use Rattle.std.specs.Prelude.{◌≡◌, ◌<◌, ◌≤◌, ◌↔◌, ◌*◌, ℕ, length, slice_get, get_or, Some, None, IsTrue, IsFalse, IfOk, IfSome, IfNone, MatchOption, All, false};
ghost use Rattle.layout_model.specs.Layouts.{IsLayoutOnGrid};
ghost use Rattle.cell_tree.specs.Cells.{HasFixedShape, HasNoneFixed};
ghost use Rattle.cell_tree.specs.Linking.{AreTargetsBelow};
ghost use Rattle.cell_tree.specs.Orders.{IsUpward};
ghost use Rattle.cell_tree.specs.Trees.{IsShallow};
ghost use Rattle.cell_tree.specs.Factors.{IsEnd, IsFarthestOf, AreFarthest, AreFarthestBelow, IsCapped, GoesBeyond};
ghost use Rattle.cell_tree.specs.Factors.{LeadsBeyond, better, through, IsScaledChain, placed_far};
ghost use Rattle.cell_tree.specs.declared.factors.Far.{Far as AFar};

use crate::linked::Linked;
use geo_stream::NoMemory;
use layout_model::{Placement, Shapes};
use std::alloc::Global;

// A factor from here on is too great, and of greater ones no more is known.
const TOO_GREAT: u64 = 17;

// No chain has more placements than so.
const LONGEST: u8 = 64;

/// The end of a chain of placements, and the chain's factor.
#[derive(Clone, Copy, Debug)]
pub(crate) struct Far {
    pub(crate) cell: usize,
    pub(crate) factor: u64,
}

/// A chain of placements by its cells, and its factor.
#[derive(Debug, Drop)]
pub(crate) struct Scaled {
    pub(crate) cells: Vec<usize>,
    pub(crate) factor: u64,
}

// Whether one of the shapes from a number on up to another may not be enlarged.
fn has_fixed_between(shapes: &Shapes, from: usize, end: usize) -> bool
    requires { end ≤ length shapes.now }
    ensures yes { IsTrue result → HasFixedShape shapes.now }
    ensures no { IsFalse result → HasNoneFixed shapes.now from end }
{
    for number in from..end {
        if shapes.get(number).is_fixed() {
            return true;
        }
    }
    false
}

// Whether one of the shapes may not be enlarged. Those that are given again and again are gone through once.
fn has_fixed(shapes: &Shapes) -> bool
    ensures { IsTrue result ↔ HasFixedShape shapes.now }
{
    let many = shapes.len();
    let mut k = 0;
    while k < many {
        let copies = shapes.copies_at(k);
        if has_fixed_between(shapes, k, k + copies.period) {
            return true;
        }
        k += copies.times * copies.period;
    }
    false
}

// The chain that has this placement first.
fn placed(placement: &Placement, far: Far) -> Far
    requires { far.factor ≤ 17 }
    ensures { result ≡ placed_far placement.now far }
{
    let factor = u64::from(placement.orient.mag) * far.factor;
    let factor = if factor < TOO_GREAT {
        factor
    } else {
        TOO_GREAT
    };
    Far {
        cell: far.cell,
        factor,
    }
}

// The one of the greater factor.
fn better(first: Option<Far>, second: Option<Far>) -> Option<Far>
    ensures { result ≡ better first second }
{
    let Some(one) = first else {
        return second;
    };
    let Some(other) = second else {
        return first;
    };
    if other.factor < one.factor {
        return first;
    }
    second
}

// The farthest chain by way of a placement.
fn through(farthest: &[Option<Far>], placement: &Placement, target: Option<usize>) -> Option<Far>
    requires target { IfSome target (λ m. m < length farthest.now) }
    requires small { All IsCapped farthest.now }
    ensures { result ≡ through farthest.now placement.now target }
{
    let Some(target) = target else {
        return None;
    };
    match farthest[target] {
        Some(far) => Some(placed(placement, far)),
        None => None,
    }
}

// The chain of no placement, if it ends where it is to end.
fn ends_here(linked: &Linked, cell: usize, only_fixed: bool) -> Option<Far>
    requires { cell < length linked.now.cells }
    ensures { MatchOption result (IsEnd linked.now.cells only_fixed cell → ⊥)
        (λ far. (far.cell ≡ cell) × (far.factor ≡ 1) × IsEnd linked.now.cells only_fixed cell) }
{
    if only_fixed && !has_fixed(linked.shapes(cell)) {
        return None;
    }
    Some(Far { cell, factor: 1 })
}

// The chain of the greatest factor from a cell, by those of the cells that it places.
fn farthest_of(
    linked: &Linked,
    cell: usize,
    farthest: &[Option<Far>],
    only_fixed: bool,
) -> Option<Far>
    requires cell { cell < length linked.now.cells }
    requires long { length farthest.now ≡ length linked.now.cells }
    requires small { All IsCapped farthest.now }
    ensures of { IsFarthestOf linked.now.cells only_fixed farthest.now cell result }
    ensures capped { IsCapped result }
{
    let mut best = ends_here(linked, cell, only_fixed);
    let placements = linked.placements(cell);
    for (k, target) in linked.targets(cell).iter().enumerate() {
        best = better(best, through(farthest, &placements[k], *target));
    }
    best
}

/// The end and the factor of a chain of the greatest factor from each of the cells of the order. A factor above 16
/// counts as 17. Where only fixed shapes are asked for, the chain ends in a cell that has one.
pub(crate) fn farthest(
    alloc: Global,
    linked: &Linked,
    order: &[usize],
    only_fixed: bool,
) -> Result<Vec<Option<Far>>, NoMemory>
    requires grid { IsLayoutOnGrid linked.now }
    requires order { IsUpward linked.now.cells order.now }
    ensures long { IfOk result (λ farthest. length farthest.items ≡ length linked.now.cells) }
    ensures capped { IfOk result (λ farthest. All IsCapped farthest.items) }
    ensures farthest { IfOk result (λ farthest. AreFarthest linked.now.cells only_fixed order.now farthest.items) }
{
    let mut farthest = vec![in alloc; None; linked.cells().len()]?;
    for cell in order {
        farthest[*cell] = farthest_of(linked, *cell, farthest.as_slice(), only_fixed);
    }
    Ok(farthest)
}

// The placed cell and the factor up to it, if from there a chain leads on to a factor above 16.
fn beyond(
    farthest: &[Option<Far>],
    factor: u64,
    placement: &Placement,
    target: Option<usize>,
) -> Option<Far>
    requires target { IfSome target (λ m. m < length farthest.now) }
    requires capped { All IsCapped farthest.now }
    requires factor { factor ≤ 16 }
    ensures some { IfSome result (GoesBeyond farthest.now factor placement.now target) }
    ensures none { IfNone result ((far : AFar) → GoesBeyond farthest.now factor placement.now target far → ⊥) }
{
    let Some(cell) = target else {
        return None;
    };
    let Some(far) = farthest[cell] else {
        return None;
    };
    let factor = factor * u64::from(placement.orient.mag);
    if factor * far.factor < TOO_GREAT {
        return None;
    }
    Some(Far { cell, factor })
}

// The first placement that leads to a factor above 16.
fn find_enlarging(
    placements: &[Placement],
    targets: &[Option<usize>],
    farthest: &[Option<Far>],
    factor: u64,
) -> Option<Far>
    requires long { length placements.now ≡ length targets.now }
    requires below { AreTargetsBelow (length farthest.now) targets.now }
    requires capped { All IsCapped farthest.now }
    requires factor { factor ≤ 16 }
    ensures some { IfSome result (λ far. (k : ℕ) × LeadsBeyond placements.now targets.now farthest.now factor k far) }
    ensures none { IfNone result ((k : ℕ) (far : AFar) → LeadsBeyond placements.now targets.now farthest.now factor k far → ⊥) }
{
    for (k, target) in targets.iter().enumerate() {
        if let Some(far) = beyond(farthest, factor, &placements[k], *target) {
            return Some(far);
        }
    }
    None
}

/// A chain from the top cell of a factor above 16, while it isn't without its last placement.
pub(crate) fn scaled_chain(
    alloc: Global,
    linked: &Linked,
    farthest: &[Option<Far>],
    top: usize,
) -> Result<Scaled, NoMemory>
    requires grid { IsLayoutOnGrid linked.now }
    requires top { top < length linked.now.cells }
    requires long { length farthest.now ≡ length linked.now.cells }
    requires capped { All IsCapped farthest.now }
    requires farthest { AreFarthestBelow linked.now.cells false top farthest.now }
    requires shallow { IsShallow linked.now.cells top }
    requires beyond { (far : AFar) × (get_or farthest.now top None ≡ Some far) × (17 ≤ far.factor) }
    ensures { IfOk result (λ scaled. IsScaledChain linked.now.cells top scaled.cells.items scaled.factor) }
{
    let mut cells = Vec::new(alloc);
    cells.push(top)?;
    let mut cell = top;
    let mut factor = 1;
    for _step in 0..LONGEST {
        let placements = linked.placements(cell);
        match find_enlarging(placements, linked.targets(cell), farthest, factor) {
            Some(far) => {
                cells.push(far.cell)?;
                if far.factor >= TOO_GREAT {
                    return Ok(Scaled {
                        cells,
                        factor: far.factor,
                    });
                }
                cell = far.cell;
                factor = far.factor;
            }
            None => unreachable!(),
        }
    }
    unreachable!()
}
