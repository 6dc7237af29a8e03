//! Ranges of rows.
ghost use Rattle.std.specs.Prelude.{◌≡◌, ◌≤ℤ◌, ◌+ℤ◌, int_lt, IsTrue};
ghost use Rattle.std.specs.Int.{int_min, int_max};
ghost use Rattle.flat_walk.specs.Quads.{lowest_of, highest_of, has_row_in};

use half_grid::{Point, Quad, Window};

// The rows from `low` up to below `high`, where there are some.
#[derive(Clone, Copy)]
pub(crate) struct Rows {
    pub(crate) low: i64,
    pub(crate) high: i64,
}

// The rows between two points.
pub(crate) fn rows_between(p: Point, q: Point) -> Rows
    ensures low { result.low ≡ int_min p.y q.y }
    ensures high { result.high ≡ int_max p.y q.y }
{
    Rows {
        low: p.y.min(q.y),
        high: p.y.max(q.y),
    }
}

// The rows from the least to the greatest of both.
fn joined(a: Rows, b: Rows) -> Rows
    ensures low { result.low ≡ int_min a.low b.low }
    ensures high { result.high ≡ int_max a.high b.high }
{
    Rows {
        low: a.low.min(b.low),
        high: a.high.max(b.high),
    }
}

// The rows of a quadrilateral.
fn rows_of(quad: &Quad) -> Rows
    ensures low { result.low ≡ lowest_of quad.now }
    ensures high { result.high ≡ highest_of quad.now }
{
    joined(
        rows_between(quad.a(), quad.b()),
        rows_between(quad.c(), quad.d()),
    )
}

// The rows that are in the window too.
fn shared(rows: Rows, window: Window) -> Rows
    ensures low { result.low ≡ int_max window.y0 rows.low }
    ensures high { result.high ≡ int_min window.y1 rows.high }
{
    Rows {
        low: window.y0().max(rows.low),
        high: window.y1().min(rows.high),
    }
}

/// Whether some row is in the window.
pub(crate) fn meet(rows: Rows, window: Window) -> bool
    ensures { result ≡ int_lt (int_max window.y0 rows.low) (int_min window.y1 rows.high) }
{
    let shared = shared(rows, window);
    shared.low < shared.high
}

/// Whether all of the rows, moved up by so much, are in the window. False where 64 bits don't hold a sum.
pub(crate) fn are_within(rows: Rows, by: i64, window: Window) -> bool
    ensures low { IsTrue result → window.y0 ≤ℤ (rows.low +ℤ by) }
    ensures high { IsTrue result → (rows.high +ℤ by) ≤ℤ window.y1 }
{
    let Some(low) = rows.low.checked_add(by) else {
        return false;
    };
    let Some(high) = rows.high.checked_add(by) else {
        return false;
    };
    if low < window.y0() {
        return false;
    }
    high <= window.y1()
}

/// Whether some row of the window is one of the quadrilateral.
#[tactic(auto, unfolding(crate::specs::Quads::has_row_in))]
pub(crate) fn has_row(quad: &Quad, window: Window) -> bool
    ensures { result ≡ has_row_in window quad.now }
{
    meet(rows_of(quad), window)
}
