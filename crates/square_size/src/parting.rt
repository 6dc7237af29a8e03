//! Lone trapezoids, shrunk by themselves.
ghost use Rattle.std.specs.Prelude.{◌↔◌, ◌⊎◌, ◌+◌, ◌≤◌, pos, ◌≤ℤ◌, length, ◌++◌, ◌∷◌, [], IfOk, IfSome, OnOk, Contains, List, IsFalse};
ghost use Rattle.half_grid.specs.JoinedLists.{IsJoined};
ghost use Rattle.half_grid.specs.Nearness.{IsShrunk};
ghost use Rattle.half_grid.specs.Trapezoids.{Trapezoid};
ghost use Rattle.half_grid.specs.Windows.{RowRange};
ghost use Rattle.half_grid.specs.declared.plane.Tile.{Tile};
ghost use Rattle.square_size.specs.Lone.{IsInOne, IsLone};
ghost use Rattle.square_size.specs.Parting.{IsParted};

use crate::levels::touching;
use crate::shrinking::shrunk;
use geo_stream::NoMemory;
use half_grid::Trap;
use std::alloc::Global;

/// A list of which what can shrink by itself is shrunk.
#[derive(Debug, Drop)]
pub struct Parted {
    /// What is left of the trapezoids that touch no other one.
    pub shrunk: Vec<Trap>,
    /// The other ones, as they were.
    pub rest: Vec<Trap>,
}

// Puts a trapezoid of the list where it belongs.
fn put(parted: &mut Parted, touches: bool, trap: &Trap, d: i64) -> Result<(), NoMemory>
    requires low { pos 1 ≤ℤ d }
    requires high { d ≤ℤ pos 65536 }
    ensures { (traps done : List Trapezoid) → (IsFalse touches → IsLone traps trap.now) → Contains traps trap.now
        → IsParted d traps done parted.old.shrunk.items parted.old.rest.items
        → OnOk result (IsParted d traps (done ++ trap.now ∷ []) parted.new.shrunk.items parted.new.rest.items) }
{
    if touches {
        parted.rest.push(*trap)?;
        return Ok(());
    }
    if let Some(small) = shrunk(trap, d) {
        parted.shrunk.push(small)?;
    }
    Ok(())
}

/// Parts a joined list into the trapezoids that touch no other one, each shrunk by itself by a square of half side `d`, in
/// half units, and the rest. None where it isn't known which touch. It takes a bisection a trapezoid, and time
/// for each pair that touches.
pub fn shrink_lone(alloc: Global, traps: &[Trap], d: i64) -> Result<Option<Parted>, NoMemory>
    requires low { pos 1 ≤ℤ d }
    requires high { d ≤ℤ pos 65536 }
    requires joined { (window : RowRange) × IsJoined window traps.now }
    ensures left { IfOk result (λ answer. IfSome answer (λ parted. (t : Tile) → IsShrunk d d (IsInOne traps.now) t ↔ (IsInOne parted.shrunk.items t ⊎ IsShrunk d d (IsInOne parted.rest.items) t))) }
    ensures few { IfOk result (λ answer. IfSome answer (λ parted. length parted.shrunk.items + length parted.rest.items ≤ length traps.now)) }
    ensures rest { IfOk result (λ answer. IfSome answer (λ parted. (z : Trapezoid) → Contains parted.rest.items z → Contains traps.now z)) }
{
    let Some(marks) = touching(alloc, traps)? else {
        return Ok(None);
    };
    let mut parted = Parted {
        shrunk: Vec::with_capacity(alloc, traps.len())?,
        rest: Vec::new(alloc),
    };
    for k in 0..traps.len() {
        put(&mut parted, marks[k], &traps[k], d)?;
    }
    Ok(Some(parted))
}
