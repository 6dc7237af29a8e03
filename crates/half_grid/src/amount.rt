//! How many tiles a trapezoid has.
ghost use Rattle.std.specs.Prelude.{◌≡◌, pos, ◌-ℤ◌, ◌+ℤ◌, ◌*ℤ◌, ◌≤◌, ◌^◌};
ghost use Rattle.half_grid.specs.Trapezoids.{IsInTrapezoid, IsShot, bottom_of, top_of};
ghost use Rattle.half_grid.specs.Sizes.{IsNumberIn};

use crate::shot::Trap;

// The number of its rows.
fn rows_of(trap: &Trap) -> u64
    ensures { pos result ≡ trap.now.y1 -ℤ trap.now.y0 }
{
    (trap.y1() - trap.y0()) as u64
}

// The length of its lower side.
fn bottom_of(trap: &Trap) -> u64
    ensures value { pos result ≡ bottom_of trap.now }
    ensures small { result ≤ 2 ^ 46 }
{
    let _first = trap.y0();
    (trap.bottom_right() - trap.bottom_left()) as u64
}

// The length of its upper side.
fn top_of(trap: &Trap) -> u64
    ensures value { pos result ≡ top_of trap.now }
    ensures small { result ≤ 2 ^ 46 }
    ensures shot { IsShot trap.now }
{
    let _first = trap.y0();
    (trap.top_right() - trap.top_left()) as u64
}

/// The number of a trapezoid's tiles: its height times the sum of the lengths of its parallel sides.
pub fn size_of(trap: &Trap) -> u128
    ensures value { pos result ≡ (trap.now.y1 -ℤ trap.now.y0) *ℤ (bottom_of trap.now +ℤ top_of trap.now) }
    ensures tiles { IsNumberIn (IsInTrapezoid trap.now) result }
{
    u128::from(rows_of(trap)) * u128::from(bottom_of(trap) + top_of(trap))
}
