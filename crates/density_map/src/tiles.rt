//! The number of a trapezoid's tiles in a frame.
ghost use Rattle.std.specs.Prelude.{◌≡◌, ◌*◌, ◌≤◌, ◌^◌, ◌-ℤ◌, ◌<ℤ◌, SomeIff};
ghost use Rattle.std.specs.Int.{int_min, int_max};
ghost use Rattle.half_grid.specs.Lines.{x_on};
ghost use Rattle.half_grid.specs.Reach.{IsWithinReach};
ghost use Rattle.half_grid.specs.Trapezoids.{IsShot};
ghost use Rattle.half_grid.specs.Windows.{row_range};
ghost use Rattle.density_map.specs.Frames.{natural, IsNearSide, IsNearFrame, count_in_frame};
ghost use Rattle.density_map.specs.Wedges.{IsLineWithin, AreRowsOf, tiles_before, count_in_rows};

use half_grid::{Frame, Line, Point, Trap, Window, x_at};

/// How far the line lies right of the point, or 0 where it doesn't.
fn beyond(line: Line, point: Point) -> u64
    requires line { IsWithinReach (x_on line point.y) }
    requires y { IsWithinReach point.y }
    requires x { IsNearSide point.x }
    ensures value { result ≡ natural (x_on line point.y -ℤ point.x) }
    ensures small { result ≤ 2 ^ 46 }
{
    let distance = x_at(line, point.y) - point.x;
    if distance <= 0 {
        return 0;
    }
    distance as u64
}

fn squared(side: u64) -> u128
    requires { side ≤ 2 ^ 46 }
    ensures value { result ≡ side * side }
    ensures small { result ≤ 2 ^ 92 }
{
    u128::from(side) * u128::from(side)
}

// The number of the rows.
fn height_of(rows: Window) -> u128
    requires low { IsWithinReach rows.y0 }
    requires high { IsWithinReach rows.y1 }
    ensures { result ≡ natural (rows.y1 -ℤ rows.y0) }
{
    (rows.y1() - rows.y0()) as u128
}

/// How many tiles of the rows lie right of `X = x` and left of the line. They are a rectangle, or the whole or the part
/// of a triangle: in half squares, twice its area.
fn tiles_before(line: Line, x: i64, rows: Window) -> u128
    requires line { IsLineWithin line rows }
    requires x { IsNearSide x }
    ensures value { result ≡ tiles_before line x rows.y0 (natural (rows.y1 -ℤ rows.y0)) }
    ensures small { result ≤ 2 ^ 92 }
{
    let bottom = beyond(line, Point { x, y: rows.y0() });
    let top = beyond(line, Point { x, y: rows.y1() });
    match line {
        Line::Upright(_) => u128::from(2 * bottom) * height_of(rows),
        Line::Rising(_) => squared(top) - squared(bottom),
        Line::Falling(_) => squared(bottom) - squared(top),
    }
}

/// The rows of the trapezoid that are rows of the frame. None where there are none.
fn shared_rows(trap: &Trap, frame: &Frame) -> Option<Window>
    ensures shot { IsShot trap.now }
    ensures rows { SomeIff result (int_max trap.now.y0 frame.now.y0 <ℤ int_min trap.now.y1 frame.now.y1)
        (row_range (int_max trap.now.y0 frame.now.y0) (int_min trap.now.y1 frame.now.y1)) }
{
    let y0 = trap.y0().max(frame.y0);
    let y1 = trap.y1().min(frame.y1);
    if y1 <= y0 {
        return None;
    }
    Window::new(y0, y1)
}

/// The tiles of these rows that lie right of the frame's left side and left of the right line, with those right of its
/// right side and left of the left line, are as many as those with the sides exchanged and the tiles sought together.
fn tiles_of_rows(trap: &Trap, frame: &Frame, rows: Window) -> u128
    requires near { IsNearFrame frame.now }
    requires rows { AreRowsOf trap.now frame.now rows }
    ensures { result ≡ count_in_rows frame.now rows trap.now }
{
    let (left, right) = (trap.left(), trap.right());
    let above = tiles_before(right, frame.x0, rows) + tiles_before(left, frame.x1, rows);
    let below = tiles_before(left, frame.x0, rows) + tiles_before(right, frame.x1, rows);
    above - below
}

/// The number of the trapezoid's tiles in the frame. It takes time that no number changes, and no memory.
pub fn tiles_in(trap: &Trap, frame: &Frame) -> u128
    requires { IsNearFrame frame.now }
    ensures value { result ≡ count_in_frame frame.now trap.now }
{
    if frame.x1 <= frame.x0 {
        return 0;
    }
    let Some(rows) = shared_rows(trap, frame) else {
        return 0;
    };
    tiles_of_rows(trap, frame, rows)
}
