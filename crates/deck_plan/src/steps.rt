//! The area of one step.
ghost use Rattle.std.specs.Prelude.{◌≡◌, ◌<◌, ◌^◌, length, map, All, IfOk, Contains};
ghost use Rattle.cell_tree.specs.Boxes.{IsUpTo};
ghost use Rattle.flat_walk.specs.Tables.{AreCut};
ghost use Rattle.half_grid.specs.Trapezoids.{Trapezoid};
ghost use Rattle.square_size.specs.EdgeLaws.{IsInSome};
ghost use Rattle.tone_mirror.specs.Frames.{IsFrame, IsInFrame};
ghost use Rattle.tone_mirror.specs.Mirrors.{mirrored_tile};
ghost use Rattle.deck_text.specs.Sound.{IsDeckCoordinate};
ghost use Rattle.deck_plan.specs.Lists.{HasArea, IsJoinedSomewhere, OfBoth};
ghost use Rattle.deck_plan.specs.Bounds.{HasCornersUpTo};

use crate::kept::{kept, lie_in, list_of};
use crate::mirroring::{Axis, images_in_order};
use bool_ops::{Op, combine};
use geo_stream::{FromSlice, NoMemory, gather};
use half_grid::{Frame, Trap, Window};
use std::alloc::Global;
use tone_mirror::{Mirrored, frame_trap};

/// The joined list, in the window, of the tiles that the operation takes of two joined lists. No sweep is needed where it
/// is one of the two.
pub(crate) fn combined_area(
    alloc: Global,
    op: Op,
    a: &[Trap],
    b: &[Trap],
    window: Window,
) -> Result<Vec<Trap>, NoMemory>
    requires first { IsJoinedSomewhere a.now }
    requires second { IsJoinedSomewhere b.now }
    ensures { IfOk result (λ combined. HasArea window (λ t. OfBoth op (IsInSome a.now t) (IsInSome b.now t)) combined.items) }
{
    if let Some(operand) = kept(op, a, b, window) {
        let mut copy = Vec::new(alloc);
        copy.extend_from_slice(list_of(operand, a, b))?;
        return Ok(copy);
    }
    combine(alloc, op, a, b, window)
}

/// The joined list, in the window, of the tiles of the frame that are in none of the trapezoids.
pub(crate) fn inverted_area(
    alloc: Global,
    frame: &Frame,
    traps: &[Trap],
    window: Window,
) -> Result<Vec<Trap>, NoMemory>
    requires { IsFrame frame.now }
    ensures { IfOk result (λ inverted. HasArea window (λ t. IsInFrame frame.now t × (IsInSome traps.now t → ⊥)) inverted.items) }
{
    let whole = [frame_trap(frame)];
    combine(alloc, Op::Sub, &whole, traps, window)
}

/// The joined list, in the window, of the tiles whose mirror images at `X = m` are in the trapezoids of a joined list. No
/// sweep is needed where all of these lie in the window.
pub(crate) fn mirrored_area(
    alloc: Global,
    traps: &[Trap],
    m: i64,
    window: Window,
) -> Result<Vec<Trap>, NoMemory>
    requires joined { IsJoinedSomewhere traps.now }
    requires near { All (HasCornersUpTo (2 ^ 42)) traps.now }
    requires at { IsDeckCoordinate m }
    ensures { IfOk result (λ mirrored. HasArea window (λ t. IsInSome traps.now (mirrored_tile m t)) mirrored.items) }
{
    if lie_in(traps, window) {
        return images_in_order(alloc, traps, Axis { m });
    }
    let images = gather(alloc, Mirrored::new(FromSlice::new(traps), m))?;
    combine(alloc, Op::Or, images.as_slice(), &[], window)
}
