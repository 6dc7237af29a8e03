//! What the edges of one operand wind around: all of it, or what is left without the other operand.
ghost use Rattle.std.specs.Prelude.{IfOk, IfSome, IfNone, ◌≡◌, ◌<◌, ◌-◌, ◌^◌, ◌&&◌, pos, not};
ghost use Rattle.std.specs.Ordering.{int_eq};
ghost use Rattle.bool_ops.specs.Operations.{IsJoinedOf, IsLeftIn, IsWoundIn};
ghost use Rattle.scan_line.specs.Runs.{IsBalanced};

use column_sweep::{swept, swept_within};
use geo_stream::NoMemory;
use half_grid::{Edge, Trap, Window};
use scan_line::Rule;
use std::alloc::Global;

/// The joined list of the window's tiles at which the winding of operand A isn't 0. Only memory that runs out refuses
/// it. In each row of the window each operand has as many edges that go up as edges that go down.
pub fn unite(alloc: Global, edges: Vec<Edge>, window: Window) -> Result<Vec<Trap>, NoMemory>
    requires { IsBalanced edges.items window }
    ensures { IfOk result (λ traps. IsJoinedOf window (IsWoundIn edges.items window) traps.items) }
{
    let asked = |first: i128, _second: i128| -> bool
        ensures { result ≡ not (int_eq first (pos 0)) }
    { first != 0 };
    swept(alloc, edges, window, Rule::new(asked))
}

/// The same list as of `unite`, as long as no more edges than about so many are gone over: None where it is given up, and the
/// edges are lost. With the greatest number it never is.
pub fn unite_within(
    alloc: Global,
    edges: Vec<Edge>,
    window: Window,
    most: u64,
) -> Result<Option<Vec<Trap>>, NoMemory>
    requires { IsBalanced edges.items window }
    ensures joined { IfOk result (λ answer. IfSome answer (λ traps. IsJoinedOf window (IsWoundIn edges.items window) traps.items)) }
    ensures given_up { IfOk result (λ answer. IfNone answer (most < 2 ^ 64 - 1)) }
{
    let asked = |winding: i128, _other: i128| -> bool
        ensures { result ≡ not (int_eq winding (pos 0)) }
    { winding != 0 };
    match swept_within(alloc, edges, window, Rule::new(asked), most)? {
        Some(traps) => Ok(Some(traps)),
        None => Ok(None),
    }
}

/// The joined list of the window's tiles at which the winding of operand B isn't 0 and that of operand A is, as long as no
/// more edges than about so many are gone over: None where it is given up, and the edges are lost. With the greatest number it
/// never is. Only memory that runs out refuses it. In each row of the window each operand has as many edges that go up
/// as edges that go down.
pub fn left_over_within(
    alloc: Global,
    edges: Vec<Edge>,
    window: Window,
    most: u64,
) -> Result<Option<Vec<Trap>>, NoMemory>
    requires { IsBalanced edges.items window }
    ensures joined { IfOk result (λ answer. IfSome answer (λ traps. IsJoinedOf window (IsLeftIn edges.items window) traps.items)) }
    ensures given_up { IfOk result (λ answer. IfNone answer (most < 2 ^ 64 - 1)) }
{
    let asked = |first: i128, second: i128| -> bool
        ensures { result ≡ (int_eq first (pos 0) && not (int_eq second (pos 0))) }
    { first == 0 && second != 0 };
    match swept_within(alloc, edges, window, Rule::new(asked), most)? {
        Some(traps) => Ok(Some(traps)),
        None => Ok(None),
    }
}
