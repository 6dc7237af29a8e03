//! The mirror image of one trapezoid.
ghost use Rattle.std.specs.Prelude.{◌≡◌, ◌↔◌};
ghost use Rattle.half_grid.specs.Lines.{first_strip};
ghost use Rattle.half_grid.specs.Reach.{IsWithinReach};
ghost use Rattle.half_grid.specs.Trapezoids.{IsInTrapezoid};
ghost use Rattle.half_grid.specs.declared.plane.Tile.{Tile};
ghost use Rattle.tone_mirror.specs.Mirrors.{mirrored_line, mirrored_tile, mirrored_trapezoid, HasImageWithinReach};

use half_grid::{Line, Trap};

// The mirror image of a line.
fn mirrored_line(line: Line, m: i64) -> Line
    requires line { IsWithinReach (first_strip line) }
    requires mirror { IsWithinReach m }
    ensures { result ≡ mirrored_line m line }
{
    match line {
        Line::Upright(c) => Line::Upright(2 * m - c),
        Line::Rising(c) => Line::Falling(m - c),
        Line::Falling(c) => Line::Rising(m - c),
    }
}

/// The mirror image of a trapezoid at the line `X = m`. It takes no memory.
///
/// The image is within reach.
pub fn mirrored(trap: &Trap, m: i64) -> Trap
    requires { HasImageWithinReach m trap.now }
    ensures image { result ≡ mirrored_trapezoid m trap.now }
    ensures tiles { (t : Tile) → IsInTrapezoid result t ↔ IsInTrapezoid trap.now (mirrored_tile m t) }
{
    let left = mirrored_line(trap.right(), m);
    let right = mirrored_line(trap.left(), m);
    Trap::of(trap.y0(), trap.y1(), left, right)
}
