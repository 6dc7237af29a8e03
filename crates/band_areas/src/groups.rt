//! Which bands are computed at once, and where their list is cut.
ghost use Rattle.std.specs.Prelude.{◌≡◌, ◌⊎◌, pos, ◌+ℤ◌, ◌-ℤ◌, ◌≤ℤ◌, ◌<ℤ◌};
ghost use Rattle.half_grid.specs.Reach.{IsWithinReach};
ghost use Rattle.half_grid.specs.Windows.{row_range};
ghost use Rattle.deck_plan.specs.Bands.{AreRowsNear};
ghost use Rattle.deck_plan.specs.Needs.{IsBand, IsAskedBand};
ghost use Rattle.band_areas.specs.Parts.{IsWithin};

use half_grid::Window;

// No area is asked for in more rows at once.
const MOST_ROWS: i64 = 16_777_216;

/// A row.
#[derive(Clone, Copy, Debug)]
pub(crate) struct Row {
    pub(crate) y: i64,
}

/// A number of rows.
#[derive(Clone, Copy, Debug)]
pub(crate) struct Rise {
    pub(crate) rows: i64,
}

/// The rows of a window below a row.
pub(crate) fn lower(window: Window, row: Row) -> Window
    requires { window.y0 ≤ℤ row.y }
    ensures { result ≡ row_range window.y0 row.y }
{
    match Window::new(window.y0(), row.y) {
        Some(rows) => rows,
        None => unreachable!(),
    }
}

/// The rows of a window from a row on.
pub(crate) fn upper(window: Window, row: Row) -> Window
    requires { row.y ≤ℤ window.y1 }
    ensures { result ≡ row_range row.y window.y1 }
{
    match Window::new(row.y, window.y1()) {
        Some(rows) => rows,
        None => unreachable!(),
    }
}

// How many rows a band has.
fn height_of(band: Window) -> Rise
    requires { IsBand band }
    ensures { result.rows ≡ band.y1 -ℤ band.y0 }
{
    Rise {
        rows: band.y1() - band.y0(),
    }
}

// The rows of as many whole bands as have at most so many rows.
fn whole_bands(rise: Rise, height: Rise) -> Rise
    requires height { pos 0 <ℤ height.rows }
    requires low { pos 0 ≤ℤ rise.rows }
    ensures low { pos 0 ≤ℤ result.rows }
    ensures high { result.rows ≤ℤ rise.rows }
{
    Rise {
        rows: rise.rows - rise.rows.rem_euclid(height.rows),
    }
}

// Half of the rows above the band.
fn half_above(band: Window, window: Window) -> Rise
    requires band { IsBand band }
    requires window { IsBand window }
    requires above { band.y1 <ℤ window.y1 }
    ensures low { pos 0 ≤ℤ result.rows }
    ensures high { (band.y1 +ℤ result.rows) <ℤ window.y1 }
{
    Rise {
        rows: (window.y1() - band.y1()) / 2,
    }
}

// The row so far above a band.
fn above(band: Window, rise: Rise) -> Row
    requires band { IsBand band }
    requires low { pos 0 ≤ℤ rise.rows }
    requires high { IsWithinReach (band.y1 +ℤ rise.rows) }
    ensures { result.y ≡ band.y1 +ℤ rise.rows }
{
    Row {
        y: band.y1() + rise.rows,
    }
}

/// The edge of a band, about in the middle of the rows above this one.
pub(crate) fn middle(band: Window, window: Window) -> Row
    requires band { IsBand band }
    requires window { IsBand window }
    requires above { band.y1 <ℤ window.y1 }
    ensures low { band.y1 ≤ℤ result.y }
    ensures high { result.y <ℤ window.y1 }
{
    let half = half_above(band, window);
    above(band, whole_bands(half, height_of(band)))
}

// How many rows there are from the first of the band up to the end of the output. It is negative where the band begins
// beyond that.
fn up_to_end(band: Window, output: Window) -> Rise
    requires band { IsBand band }
    requires near { AreRowsNear output }
    ensures { result.rows ≡ output.y1 -ℤ band.y0 }
{
    Rise {
        rows: output.y1() - band.y0(),
    }
}

// The most rows that a group with bands of this height has before its number of bands is made whole, so that it has no
// more than may be asked for then.
fn most_rows(height: Rise) -> Rise
    requires low { pos 0 <ℤ height.rows }
    requires high { height.rows ≤ℤ pos 16777216 }
    ensures { result.rows ≡ pos 16777217 -ℤ height.rows }
{
    Rise {
        rows: MOST_ROWS + 1 - height.rows,
    }
}

fn lesser(a: Rise, b: Rise) -> Rise
    ensures first { result.rows ≤ℤ a.rows }
    ensures second { result.rows ≤ℤ b.rows }
    ensures either { (result ≡ a) ⊎ (result ≡ b) }
{
    Rise {
        rows: a.rows.min(b.rows),
    }
}

// One less, but not below 0.
fn one_less(rise: Rise) -> Rise
    ensures low { pos 0 ≤ℤ result.rows }
    ensures high { (result.rows ≡ pos 0) ⊎ (result.rows +ℤ pos 1 ≡ rise.rows) }
{
    if rise.rows <= 0 {
        return Rise { rows: 0 };
    }
    Rise {
        rows: rise.rows - 1,
    }
}

/// The rows of the bands that are computed at once: this one, and as many above it as are needed for as many rows as the
/// halo has, but none beyond the output's rows, and no more rows than may be asked for.
pub(crate) fn group_of(band: Window, halo: Rise, output: Window) -> Window
    requires band { IsAskedBand band }
    requires near { AreRowsNear output }
    ensures asked { IsAskedBand result }
    ensures within { IsWithin band result }
{
    let height = height_of(band);
    let most = lesser(up_to_end(band, output), most_rows(height));
    // One row less than a whole band more makes no band more.
    let more = whole_bands(one_less(lesser(halo, most)), height);
    lower(band, above(band, more))
}
