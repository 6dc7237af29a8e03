//! Set operations whose list is that of an operand.
ghost use Rattle.std.specs.Prelude.{◌≡◌, ◌<◌, ◌≤◌, ℕ, true, length, map, get_or, List, Option, Some, None, IfSome};
ghost use Rattle.half_grid.specs.declared.extent.Frame.{Frame};
ghost use Rattle.layout_model.specs.declared.cells.Cell.{Cell};
ghost use Rattle.deck_text.specs.Sound.{IsSoundStep};
ghost use Rattle.deck_plan.specs.Areas.{IsInStep};
ghost use Rattle.deck_plan.specs.Lists.{HasArea, IsJoinedSomewhere, IsListed, list_at};
ghost use Rattle.deck_plan.specs.Moves.{name_of, step_of};
ghost use Rattle.deck_plan.specs.OwnLayers.{pair_of};
ghost use Rattle.deck_plan.specs.Ready.{ends_at};

use crate::kept::kept;
use crate::lists::list;
use crate::needs::Needs;
use bool_ops::Op;
use deck_text::Step;
use half_grid::{Operand, Trap, Window};

/// A set operation on two definitions.
#[derive(Clone, Copy)]
pub(crate) struct Pair {
    pub(crate) op: Op,
    pub(crate) a: usize,
    pub(crate) b: usize,
}

/// The set operation that a step is.
pub(crate) fn pair_of(step: &Step) -> Option<Pair>
    ensures step { IfSome result (λ pair. step.now ≡ step_of pair) }
    ensures value { result ≡ pair_of (Some step.now) }
{
    let (op, a, b) = match step {
        Step::Or(a, b) => (Op::Or, *a, *b),
        Step::And(a, b) => (Op::And, *a, *b),
        Step::Sub(a, b) => (Op::Sub, *a, *b),
        Step::Xor(a, b) => (Op::Xor, *a, *b),
        _ => return None,
    };
    Some(Pair { op, a, b })
}

fn name_of(pair: Pair, operand: Operand) -> usize
    ensures { result ≡ name_of pair operand }
{
    match operand {
        Operand::A => pair.a,
        Operand::B => pair.b,
    }
}

/// The operand whose list is that of the step in the window, where that is seen at once and the definition `user` is the
/// last that takes it.
pub(crate) fn kept_operand(
    needs: &Needs,
    step: &Step,
    areas: &[Vec<Trap>],
    user: usize,
    window: Window,
) -> Option<usize>
    requires sound { (frame : Option Frame) × IsSoundStep frame (length areas.now) step.now }
    requires few { length areas.now ≤ 256 }
    requires joined { (a : ℕ) → IsJoinedSomewhere (list_at (map (λ list. list.items) areas.now) a) }
    ensures inside { IfSome result (λ name. name < length areas.now) }
    ensures last { IfSome result (λ name. ends_at (get_or needs.now.by_name name None) user ≡ true) }
    ensures area { IfSome result (λ name. (cells : List Cell) (top : ℕ) (frame : Option Frame)
        → HasArea window (λ t. IsInStep cells top frame (IsListed (map (λ list. list.items) areas.now)) step.now t) (list_at (map (λ list. list.items) areas.now) name)) }
{
    let Some(pair) = pair_of(step) else {
        return None;
    };
    let (a, b) = (list(areas, pair.a), list(areas, pair.b));
    let Some(operand) = kept(pair.op, a, b, window) else {
        return None;
    };
    let name = name_of(pair, operand);
    if needs.ends_at(name, user) {
        return Some(name);
    }
    None
}
