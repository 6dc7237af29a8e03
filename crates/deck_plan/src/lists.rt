//! The lists of the definitions of an output, each as long as it is needed.
ghost use Rattle.std.specs.Prelude.{◌≡◌, ◌<◌, ◌≤◌, [], length, map, slice_set, IfSome};
ghost use Rattle.deck_plan.specs.Lists.{list_at};
ghost use Rattle.deck_plan.specs.Ready.{let_go};

use crate::needs::{Needs, Operands, Taken};
use half_grid::Trap;
use std::alloc::Global;
use std::mem::replace;

/// The list of a definition.
pub(crate) fn list(areas: &[Vec<Trap>], number: usize) -> &[Trap]
    requires { number < length areas.now }
    ensures { result.now ≡ list_at (map (λ list. list.items) areas.now) number }
{
    areas[number].as_slice()
}

/// Takes the list of a definition, which has none then.
pub(crate) fn take_list(alloc: Global, areas: &mut Vec<Vec<Trap>>, name: usize) -> Vec<Trap>
    requires { name < length areas.old.items }
    ensures list { result.items ≡ list_at (map (λ list. list.items) areas.old.items) name }
    ensures left { map (λ list. list.items) areas.new.items ≡ slice_set (map (λ list. list.items) areas.old.items) name [] }
{
    replace(&mut areas[name], Vec::new(alloc))
}

// Lets go of the list of an operand, where the definition `user` is the last that takes it.
fn let_go_one(
    alloc: Global,
    areas: &mut Vec<Vec<Trap>>,
    needs: &Needs,
    operand: Option<Taken>,
    user: usize,
)
    requires operand { IfSome operand (λ operand. operand.name < length areas.old.items) }
    requires few { length areas.old.items ≤ 256 }
    ensures { map (λ list. list.items) areas.new.items ≡ let_go needs.now.by_name user operand (map (λ list. list.items) areas.old.items) }
{
    let Some(operand) = operand else {
        return;
    };
    if needs.ends_at(operand.name, user) {
        areas[operand.name] = Vec::new(alloc);
    }
}

/// Lets go of the lists of the operands of the definition `user` that no later one takes.
pub(crate) fn let_go(
    alloc: Global,
    areas: &mut Vec<Vec<Trap>>,
    needs: &Needs,
    operands: Operands,
    user: usize,
)
    requires first { IfSome operands.first (λ operand. operand.name < length areas.old.items) }
    requires second { IfSome operands.second (λ operand. operand.name < length areas.old.items) }
    requires few { length areas.old.items ≤ 256 }
    ensures { map (λ list. list.items) areas.new.items ≡ let_go needs.now.by_name user operands.second (let_go needs.now.by_name user operands.first (map (λ list. list.items) areas.old.items)) }
{
    let_go_one(alloc, areas, needs, operands.first, user);
    let_go_one(alloc, areas, needs, operands.second, user);
}
