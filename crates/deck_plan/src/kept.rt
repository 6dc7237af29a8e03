//! Set operations that give one of their two lists as it is.
ghost use Rattle.std.specs.Prelude.{◌≡◌, ◌↔◌, All, IfSome, IsTrue};
ghost use Rattle.half_grid.specs.JoinedLists.{IsInWindow};
ghost use Rattle.half_grid.specs.Trapezoids.{IsInTrapezoid};
ghost use Rattle.half_grid.specs.declared.plane.Tile.{Tile};
ghost use Rattle.square_size.specs.EdgeLaws.{IsInSome};
ghost use Rattle.tone_mirror.specs.Frames.{IsInFrame};
ghost use Rattle.deck_plan.specs.Bounds.{IsAround};
ghost use Rattle.deck_plan.specs.Lists.{OfBoth};
ghost use Rattle.deck_plan.specs.Moves.{list_of};

use bool_ops::Op;
use half_grid::{Frame, Line, Operand, Trap, Window};

/// Whether all of the trapezoids are in the window's rows.
pub(crate) fn lie_in(traps: &[Trap], window: Window) -> bool
    ensures { IsTrue result → All (IsInWindow window) traps.now }
{
    for trap in traps {
        if trap.y0() < window.y0() || window.y1() < trap.y1() {
            return false;
        }
    }
    true
}

// The rectangle that a trapezoid is.
fn rectangle_of(trap: &Trap) -> Option<Frame>
    ensures { IfSome result (λ frame. (t : Tile) → IsInFrame frame t → IsInTrapezoid trap.now t) }
{
    match (trap.left(), trap.right()) {
        (Line::Upright(x0), Line::Upright(x1)) => Some(Frame {
            x0,
            y0: trap.y0(),
            x1,
            y1: trap.y1(),
        }),
        _ => None,
    }
}

// Whether the box has all of the trapezoids.
fn has_all(frame: &Frame, traps: &[Trap]) -> bool
    ensures { IsTrue result → All (IsAround frame.now) traps.now }
{
    for trap in traps {
        if trap.y0() < frame.y0 || frame.y1 < trap.y1() {
            return false;
        }
        if trap.least_x() < frame.x0 || frame.x1 < trap.greatest_x() {
            return false;
        }
    }
    true
}

// Whether the second list is one rectangle, and it has all of the first.
fn is_in_rectangle(traps: &[Trap], others: &[Trap]) -> bool
    ensures { IsTrue result → (t : Tile) → IsInSome traps.now t → IsInSome others.now t }
{
    if others.len() != 1 {
        return false;
    }
    match rectangle_of(&others[0]) {
        Some(frame) => has_all(&frame, traps),
        None => false,
    }
}

// Whose list has the tiles that the operation takes of two lists, where that is seen at once: a list is empty, or a
// rectangle that has all of the other.
fn same_as(op: Op, a: &[Trap], b: &[Trap]) -> Option<Operand>
    ensures { IfSome result (λ operand. (t : Tile) → IsInSome (list_of operand a.now b.now) t ↔ OfBoth op (IsInSome a.now t) (IsInSome b.now t)) }
{
    match op {
        Op::Or | Op::Xor => {
            if a.is_empty() {
                Some(Operand::B)
            } else if b.is_empty() {
                Some(Operand::A)
            } else {
                None
            }
        }
        Op::And => {
            if a.is_empty() {
                Some(Operand::A)
            } else if b.is_empty() {
                Some(Operand::B)
            } else if is_in_rectangle(a, b) {
                Some(Operand::A)
            } else if is_in_rectangle(b, a) {
                Some(Operand::B)
            } else {
                None
            }
        }
        Op::Sub => {
            if a.is_empty() || b.is_empty() {
                Some(Operand::A)
            } else {
                None
            }
        }
    }
}

/// The list of an operand.
pub(crate) fn list_of<'t>(operand: Operand, a: &'t [Trap], b: &'t [Trap]) -> &'t [Trap]
    ensures { result.now ≡ list_of operand a.now b.now }
{
    match operand {
        Operand::A => a,
        Operand::B => b,
    }
}

/// Whose list, of two, is the one that the operation gives in the window, where that is seen at once.
pub(crate) fn kept(op: Op, a: &[Trap], b: &[Trap], window: Window) -> Option<Operand>
    ensures inside { IfSome result (λ operand. All (IsInWindow window) (list_of operand a.now b.now)) }
    ensures tiles { IfSome result (λ operand. (t : Tile) → IsInSome (list_of operand a.now b.now) t ↔ OfBoth op (IsInSome a.now t) (IsInSome b.now t)) }
{
    let Some(operand) = same_as(op, a, b) else {
        return None;
    };
    if lie_in(list_of(operand, a, b), window) {
        return Some(operand);
    }
    None
}
