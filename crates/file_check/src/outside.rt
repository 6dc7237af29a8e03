//! The rows that an output has no area in: all below its first band, and all above its last.
ghost use Rattle.std.specs.Prelude.{◌≡◌, pos, neg_ℤ, ◌≤ℤ◌, ◌^◌};
ghost use Rattle.half_grid.specs.Windows.{row_range};

use half_grid::{REACH, Window};

/// All rows of shots below the band.
pub(crate) fn rows_below(band: Window) -> Window
    requires { neg_ℤ (pos 4294967296) ≤ℤ band.y0 }
    ensures { result ≡ row_range (neg_ℤ (pos (2 ^ 44))) band.y0 }
{
    match Window::new(-REACH, band.y0()) {
        Some(rows) => rows,
        None => unreachable!(),
    }
}

/// All rows of shots from the bottom of the band on.
pub(crate) fn rows_from(band: Window) -> Window
    requires { band.y0 ≤ℤ pos 4294967296 }
    ensures { result ≡ row_range band.y0 (pos (2 ^ 44)) }
{
    match Window::new(band.y0(), REACH) {
        Some(rows) => rows,
        None => unreachable!(),
    }
}
