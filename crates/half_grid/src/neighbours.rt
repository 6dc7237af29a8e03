//! Which tiles are near each other.
ghost use Rattle.std.specs.Prelude.{◌↔◌, IsTrue};
ghost use Rattle.half_grid.specs.Nearness.{DifferAtMost, IsNear};
ghost use Rattle.half_grid.specs.Reach.{IsTileWithinReach};

use crate::plane::Tile;
use crate::rows::strips;
use crate::sums::{difference, half_sum};

fn differ_at_most(limit: i64, a: i64, b: i64) -> bool
    ensures { IsTrue result ↔ DifferAtMost limit a b }
{
    let limit = limit as i128;
    if limit < difference(a, b) {
        return false;
    }
    difference(b, a) <= limit
}

/// Whether two tiles are near by a rectangle of half sides `dx` and `dy`, whose sum is even.
pub fn near(t: Tile, u: Tile, dx: i64, dy: i64) -> bool
    requires first { IsTileWithinReach t }
    requires second { IsTileWithinReach u }
    ensures { IsTrue result ↔ IsNear dx dy t u }
{
    let diagonal = half_sum(dx, dy);
    let (first, second) = (strips(t), strips(u));
    if !differ_at_most(dx, first.i, second.i) {
        return false;
    }
    if !differ_at_most(dy, first.j, second.j) {
        return false;
    }
    if !differ_at_most(diagonal, first.p, second.p) {
        return false;
    }
    differ_at_most(diagonal, first.q, second.q)
}
