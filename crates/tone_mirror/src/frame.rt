//! The rectangle of a frame.
ghost use Rattle.std.specs.Prelude.{◌≡◌, ◌↔◌};
ghost use Rattle.half_grid.specs.Trapezoids.{IsInTrapezoid, trapezoid};
ghost use Rattle.half_grid.specs.declared.plane.Line.TheVariants.{Upright};
ghost use Rattle.half_grid.specs.declared.plane.Tile.{Tile};
ghost use Rattle.tone_mirror.specs.Frames.{IsFrame, IsInFrame};

use half_grid::{Frame, Line, Trap};

/// A frame as a rectangle. It takes no memory.
///
/// The frame has columns and rows, and is within reach.
pub fn frame_trap(frame: &Frame) -> Trap
    requires { IsFrame frame.now }
    ensures rectangle { result ≡ trapezoid frame.now.y0 frame.now.y1 (Upright frame.now.x0) (Upright frame.now.x1) }
    ensures tiles { (t : Tile) → IsInTrapezoid result t ↔ IsInFrame frame.now t }
{
    let (left, right) = (Line::Upright(frame.x0), Line::Upright(frame.x1));
    Trap::of(frame.y0, frame.y1, left, right)
}
