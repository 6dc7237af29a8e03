//! Placements of names that no cell has.

ghost use Rattle.std.specs.Prelude.{◌≡◌, ◌<◌, ℕ, All, length, slice_get, Some, None, IfSome, IfNone};
ghost use Rattle.cell_tree.specs.Cells.{targets_at};
ghost use Rattle.cell_tree.specs.Orders.{IsAmong};

use crate::linked::Linked;

/// A placement of a cell, by numbers.
#[derive(Clone, Copy, Debug)]
pub(crate) struct Place {
    pub(crate) cell: usize,
    pub(crate) placement: usize,
}

// The number of the first placement of a name that no cell has.
fn first_unknown(targets: &[Option<usize>]) -> Option<usize>
    ensures some { IfSome result (λ k. slice_get targets.now k ≡ Some None) }
    ensures none { IfNone result ((k : ℕ) → slice_get targets.now k ≡ Some None → ⊥) }
{
    for (k, target) in targets.iter().enumerate() {
        if target.is_none() {
            return Some(k);
        }
    }
    None
}

/// A placement, in one of these cells, of a name that no cell has.
pub(crate) fn find_unknown(linked: &Linked, order: &[usize]) -> Option<Place>
    requires { All (λ n. n < length linked.now.cells) order.now }
    ensures some { IfSome result (λ place. IsAmong order.now place.cell
        × (slice_get (targets_at linked.now.cells place.cell) place.placement ≡ Some None)) }
    ensures none { IfNone result ((n k : ℕ) → IsAmong order.now n → slice_get (targets_at linked.now.cells n) k ≡ Some None → ⊥) }
{
    for cell in order {
        if let Some(placement) = first_unknown(linked.targets(*cell)) {
            return Some(Place {
                cell: *cell,
                placement,
            });
        }
    }
    None
}
