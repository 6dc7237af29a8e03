//! How many rows a strip of a band has. It is for speed and memory alone: no list depends on it.
ghost use Rattle.std.specs.Prelude.{◌≡◌, ◌≤ℤ◌, ◌<ℤ◌};
ghost use Rattle.deck_plan.specs.Needs.{IsAskedBand};

use crate::groups::{Rise, Row};
use half_grid::{Trap, Window};

// How many trapezoids a strip should have where the cells have few pieces.
const MANY: u64 = 65_536;

// No area is asked for in more rows at once.
const MOST_ROWS: i64 = 16_777_216;

/// The least rows of a strip, by how many rows beyond it its area looks at: each row is looked at for few strips.
pub(crate) fn least_rise(halo: Rise) -> Rise {
    Rise {
        rows: halo.rows.saturating_mul(8).max(1),
    }
}

/// How many trapezoids a strip should have, by how many pieces the cells have. The more there are the more memory these take,
/// and the less is left for a strip; but each strip may have to look at each of them, so there should be few strips where most
/// pieces are shown once.
pub(crate) fn aim_of(pieces: u64) -> u64 {
    (pieces / 32).max(MANY.saturating_sub(pieces / 64))
}

/// The rows of the first strip, by about how many trapezoids the layout has, by how many a strip should have, and by the
/// output's rows.
pub(crate) fn first_rise(weight: u64, aim: u64, output: Window) -> Rise {
    let strips = (weight / aim.max(1)).clamp(1, 16_777_216) as i64;
    Rise {
        rows: output.y1().saturating_sub(output.y0()) / strips,
    }
}

// As many of the rows as have so many trapezoids, where these have `traps`.
fn share(rise: Rise, aim: u64, traps: u64) -> i64 {
    let rows = rise.rows.clamp(1, MOST_ROWS) as u64;
    let share = rows.saturating_mul(aim) / traps.max(1);
    share.min(MOST_ROWS as u64) as i64
}

/// The rows of the next strip, by those of the last one, by how many trapezoids a strip should have, how many that one had
/// and how many reached it from below. Where most of them only pass through, strips are cut for nothing, and where they are
/// few, they cost more than they save.
pub(crate) fn next_rise(rise: Rise, aim: u64, traps: usize, carried: usize) -> Rise {
    let traps = traps as u64;
    let passing = (carried as u64).saturating_mul(2);
    let rows = if traps < aim / 4 || traps < passing {
        rise.rows.saturating_mul(4)
    } else if aim.saturating_mul(4) < traps {
        rise.rows / 4
    } else {
        share(rise, aim, traps)
    };
    Rise {
        rows: rows.clamp(1, MOST_ROWS),
    }
}

/// How many trapezoids of a strip are at its bottom: they pass through it, or begin there.
pub(crate) fn number_at_bottom(traps: &[Trap], strip: Window) -> usize {
    traps.iter().filter(|trap| trap.y0() <= strip.y0()).count()
}

fn quarter_of(rise: Rise) -> Rise {
    Rise {
        rows: rise.rows / 4,
    }
}

// The row so many rows above this one, or above the first that the output has.
fn rows_above(row: Row, rise: Rise, output: Window) -> Row {
    Row {
        y: row.y.max(output.y0()).saturating_add(rise.rows),
    }
}

/// The top of a strip from this row on: so many rows above the first one that the output has, or the band's, where that is
/// no further or little is left below it.
pub(crate) fn strip_top(band: Window, next: Row, rise: Rise, output: Window) -> Row
    requires band { IsAskedBand band }
    requires next { next.y <ℤ band.y1 }
    ensures some { next.y <ℤ result.y }
    ensures high { result.y ≤ℤ band.y1 }
{
    let top = rows_above(next, rise, output);
    let little = rows_above(top, quarter_of(rise), output);
    if band.y1().min(output.y1()) <= little.y {
        return Row { y: band.y1() };
    }
    if top.y <= next.y || band.y1() <= top.y {
        return Row { y: band.y1() };
    }
    top
}
