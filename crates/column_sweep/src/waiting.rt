//! The order in which columns come to edges.
ghost use Rattle.std.specs.Prelude.{◌≡◌, ◌++◌, ℤ, All, IsPermutation};
ghost use Rattle.column_sweep.specs.Parts.{LiesRight};
ghost use Rattle.column_sweep.specs.Dealing.{RisesPast};
ghost use Rattle.column_sweep.specs.Waiting.{least_x, LeastsAscend};

use crate::cuts::Cut;
use half_grid::{Edge, x_at};

/// The least X of an edge.
pub(crate) fn least_x(edge: &Edge) -> Cut
    ensures { result ≡ least_x edge.now }
{
    Cut {
        x: x_at(edge.line(), edge.y0()).min(x_at(edge.line(), edge.y1())),
    }
}

/// Sorts edges by their least X. It takes no memory.
pub(crate) fn sort_by_least_x(edges: &mut Vec<Edge>)
    ensures permutation { IsPermutation edges.old.items edges.new.items }
    ensures ascend { LeastsAscend edges.new.items }
{
    edges.sort_unstable_by_key(|edge| least_x(edge));
}

/// Parts the waiting edges in those that lie left of the cut with some part, and those that wait on.
pub(crate) fn split_before(waiting: &[Edge], cut: Cut) -> (&[Edge], &[Edge])
    requires { RisesPast cut.x waiting.now }
    ensures whole { result.0.now ++ result.1.now ≡ waiting.now }
    ensures rises { (x : ℤ) → RisesPast x waiting.now → RisesPast x result.1.now }
    ensures right { All (LiesRight cut.x) result.1.now }
{
    let mut count = 0;
    let mut left = waiting;
    while let Some((edge, rest)) = left.split_first() {
        if cut.x <= least_x(edge).x {
            return waiting.split_at(count);
        }
        count += 1;
        left = rest;
    }
    waiting.split_at(count)
}
