//! Set operations on two layers that nothing else takes.
ghost use Rattle.std.specs.Prelude.{◌≡◌, ◌<◌, ◌≤◌, Option, length};
ghost use Rattle.half_grid.specs.declared.extent.Frame.{Frame};
ghost use Rattle.deck_text.specs.Sound.{IsSoundStep};
ghost use Rattle.deck_text.specs.declared.deck.Step.{Step as AStep};
ghost use Rattle.std.specs.Prelude.{slice_get, Some};
ghost use Rattle.deck_plan.specs.OwnLayers.{own_layer, own_layers};

use crate::moving::pair_of;
use crate::needs::{Needs, step_at};
use bool_ops::Op;
use deck_text::Step;
use layout_model::Pair;

/// A set operation on two layers.
#[derive(Clone, Copy)]
pub(crate) struct Layers {
    pub(crate) op: Op,
    pub(crate) a: Pair,
    pub(crate) b: Pair,
}

// The layer that a definition is, where the definition `user` alone takes it.
fn own_layer(needs: &Needs, steps: &[Step], user: usize, name: usize) -> Option<Pair>
    requires name { name < length steps.now }
    requires few { length steps.now ≤ 256 }
    ensures { result ≡ own_layer steps.now needs.now.by_name user name }
{
    if !needs.is_only(name, user) {
        return None;
    }
    match step_at(steps, name) {
        Step::Layer(pair) => Some(pair),
        _ => None,
    }
}

/// The layers of a set operation, where both of its operands are layers that it alone takes.
pub(crate) fn own_layers(needs: &Needs, steps: &[Step], user: usize) -> Option<Layers>
    requires user { user < length steps.now }
    requires few { length steps.now ≤ 256 }
    requires sound { (step : AStep) → slice_get steps.now user ≡ Some step → (frame : Option Frame) × IsSoundStep frame user step }
    ensures { result ≡ own_layers steps.now needs.now.by_name user }
{
    let Some(pair) = pair_of(&step_at(steps, user)) else {
        return None;
    };
    let Some(a) = own_layer(needs, steps, user, pair.a) else {
        return None;
    };
    let Some(b) = own_layer(needs, steps, user, pair.b) else {
        return None;
    };
    Some(Layers { op: pair.op, a, b })
}
