//! Windows.
ghost use Rattle.std.specs.Prelude.{◌≡◌, ◌^◌, pos, ◌≤ℤ◌};
ghost use Rattle.half_grid.specs.Windows.{row_range};
ghost use Rattle.cell_tree.specs.Boxes.{IsUpTo};
ghost use Rattle.deck_plan.specs.Needs.{widened};

use half_grid::Window;

/// The window with this many more rows on both sides.
pub(crate) fn widened(window: Window, by: i64) -> Window
    requires low { IsUpTo (2 ^ 50) window.y0 }
    requires high { IsUpTo (2 ^ 50) window.y1 }
    requires some { pos 0 ≤ℤ by }
    requires few { by ≤ℤ pos (2 ^ 50) }
    ensures { result ≡ widened by window }
{
    match Window::new(window.y0() - by, window.y1() + by) {
        Some(window) => window,
        None => unreachable!(),
    }
}

/// No rows.
pub(crate) fn no_rows() -> Window
    ensures { result ≡ row_range (pos 0) (pos 0) }
{
    match Window::new(0, 0) {
        Some(window) => window,
        None => unreachable!(),
    }
}
