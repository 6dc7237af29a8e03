//! Set operations on two areas.
ghost use Rattle.std.specs.Prelude.{IfOk, IfSome, IfNone, ◌≡◌, ◌<◌, ◌-◌, ◌^◌, pos, not};
ghost use Rattle.std.specs.Ordering.{int_eq};
ghost use Rattle.bool_ops.specs.Operations.{IsJoinedOf, IsInResult, IsWoundBy, takes};
ghost use Rattle.scan_line.specs.Runs.{IsBalanced};

use column_sweep::{operand_edges, swept, swept_within};
use geo_stream::NoMemory;
use half_grid::{Edge, Trap, Window};
use scan_line::Rule;
use std::alloc::Global;

/// A set operation on two areas.
#[derive(Clone, Copy, Debug, PartialEq, Eq)]
pub enum Op {
    /// What is in A or in B.
    Or,
    /// What is in both.
    And,
    /// What is in A and not in B.
    Sub,
    /// What is in just one of them.
    Xor,
}

impl Op {
    // Whether it takes what is in A, and is in B, as told.
    fn takes(self, a: bool, b: bool) -> bool
        ensures { result ≡ takes self a b }
    {
        match self {
            Op::Or => a || b,
            Op::And => a && b,
            Op::Sub => a && !b,
            Op::Xor => (a && !b) || (!a && b),
        }
    }
}

/// The joined list of the window's tiles that the operation takes: by whether a tile is in some trapezoid of `a`, and
/// whether it is in some of `b`. Only memory that runs out refuses it.
pub fn combine(
    alloc: Global,
    op: Op,
    a: &[Trap],
    b: &[Trap],
    window: Window,
) -> Result<Vec<Trap>, NoMemory>
    ensures { IfOk result (λ traps. IsJoinedOf window (IsInResult op a.now b.now window) traps.items) }
{
    let edges = operand_edges(alloc, a, b, window)?;
    combine_edges(alloc, op, edges, window)
}

/// The joined list of the window's tiles that the operation takes: by whether the winding of operand A isn't 0 at a tile,
/// and whether that of operand B isn't. Only memory that runs out refuses it. In each row of the window each operand
/// has as many edges that go up as edges that go down.
pub fn combine_edges(
    alloc: Global,
    op: Op,
    edges: Vec<Edge>,
    window: Window,
) -> Result<Vec<Trap>, NoMemory>
    requires { IsBalanced edges.items window }
    ensures { IfOk result (λ traps. IsJoinedOf window (IsWoundBy op edges.items window) traps.items) }
{
    let asked = move |first: i128, second: i128| -> bool
        ensures { result ≡ takes op (not (int_eq first (pos 0))) (not (int_eq second (pos 0))) }
    { op.takes(first != 0, second != 0) };
    swept(alloc, edges, window, Rule::new(asked))
}

/// The same list as of `combine_edges`, as long as no more edges than about so many are gone over: None where it is given up,
/// and the edges are lost. With the greatest number it never is.
pub fn combine_edges_within(
    alloc: Global,
    op: Op,
    edges: Vec<Edge>,
    window: Window,
    most: u64,
) -> Result<Option<Vec<Trap>>, NoMemory>
    requires { IsBalanced edges.items window }
    ensures joined { IfOk result (λ answer. IfSome answer (λ traps. IsJoinedOf window (IsWoundBy op edges.items window) traps.items)) }
    ensures given_up { IfOk result (λ answer. IfNone answer (most < 2 ^ 64 - 1)) }
{
    let asked = move |first: i128, second: i128| -> bool
        ensures { result ≡ takes op (not (int_eq first (pos 0))) (not (int_eq second (pos 0))) }
    { op.takes(first != 0, second != 0) };
    match swept_within(alloc, edges, window, Rule::new(asked), most)? {
        Some(traps) => Ok(Some(traps)),
        None => Ok(None),
    }
}
