//! The sweep: what a rule takes of edges in a window, one trapezoid at a time.
ghost use Rattle.std.specs.Prelude.{◌≡◌, ◌≤◌, ◌+◌, ◌++◌, ◌∷◌, [], true, false, IsErr, IfOk, OnOk, OnErr, IfSome, IfNone, List, All, length};
ghost use Rattle.std.specs.Option.{option_to_list};
ghost use Rattle.half_grid.specs.Edges.{EdgeParts};
ghost use Rattle.half_grid.specs.JoinedLists.{IsJoined, StandsBefore};
ghost use Rattle.half_grid.specs.Trapezoids.{Trapezoid, CoversExactly};
ghost use Rattle.scan_line.specs.Rules.{IsRule};
ghost use Rattle.scan_line.specs.Runs.{IsBalanced};
ghost use Rattle.trap_join.specs.Joins.{IsTakenIn};
ghost use Rattle.trap_join.specs.Maximal.{IsMaximal, AreMaximal};
ghost use Rattle.scan_line.specs.ClippedEdges.{parts_in};
ghost use Rattle.plane_sweep.specs.PlaneSweeps.{HasGiven, left_to_give};
ghost use Rattle.plane_sweep.specs.Sources.{AreEventsOf};
ghost use Rattle.plane_sweep.specs.SweptLists.{IsSwept};

use crate::event::{EventSource, SortedEvents};
use crate::progress::Progress;
use geo_stream::NoMemory;
use half_grid::{Edge, Trap, Window};
use scan_line::Rule;
use std::alloc::Global;
use std::marker::Model;

/// The joined list of the tiles of a window that a rule takes, swept from below, one trapezoid at a time. Each is given soon
/// after the sweep comes to its top: what a sweep keeps are the edges' ends still to come and the lines of one row.
#[derive(Drop)]
pub struct Sweep<F, E: EventSource> {
    rule: Rule<F>,
    progress: Progress<E>,
    failed: bool,
}

impl<F, E: EventSource> Model for Sweep<F, E> {
    ghost use Rattle.active_lines.specs.ActiveLists.{items};
    ghost use Rattle.plane_sweep.specs.PlaneSweeps.{SweepState};

    ghost Value = { SweepState F };

    ghost view = { λ sweep. record { rule = sweep.rule; window = sweep.progress.window; from = sweep.progress.from.y; lines = items sweep.progress.front.lines; left = E.left sweep.progress.events; waiting = sweep.progress.front.waiting.items; failed = sweep.failed } };
}

impl<F: Fn(i128, i128) -> bool> Sweep<F, SortedEvents> {
    /// A sweep of the edges in the rows of the window, below all of them. Edges are cut to these rows, and those outside are
    /// left out. In each row of the window each operand has as many edges that go up as edges that go down.
    pub fn begin(
        alloc: Global,
        edges: Vec<Edge>,
        window: Window,
        rule: Rule<F>,
    ) -> Result<Sweep<F, SortedEvents>, NoMemory>
        requires rule { IsRule (F.pre rule) (F.post rule) }
        requires balanced { IsBalanced edges.items window }
        ensures given { IfOk result (λ sweep. HasGiven (F.post rule) edges.items sweep []) }
        ensures rule { IfOk result (λ sweep. sweep.rule ≡ rule) }
        ensures window { IfOk result (λ sweep. sweep.window ≡ window) }
        ensures going { IfOk result (λ sweep. sweep.failed ≡ false) }
    {
        let events = SortedEvents::of_parts(alloc, edges.as_slice(), window)?;
        Ok(Sweep::begin_from(alloc, events, window, rule))
    }
}

impl<F: Fn(i128, i128) -> bool, E: EventSource> Sweep<F, E> {
    /// A sweep, below all of them, of edges whose events come from a source: those of the edges' parts in the rows of the
    /// window, by ascending Y, and those of one Y from left to right.
    pub fn begin_from(alloc: Global, events: E, window: Window, rule: Rule<F>) -> Sweep<F, E>
        requires rule { IsRule (F.pre rule) (F.post rule) }
        ensures given { (edges : List EdgeParts) → IsBalanced edges window → AreEventsOf (parts_in window edges) (E.left events) → HasGiven (F.post rule) edges result [] }
        ensures rule { result.rule ≡ rule }
        ensures window { result.window ≡ window }
        ensures going { result.failed ≡ false }
    {
        Sweep {
            rule,
            progress: Progress::over(alloc, events, window),
            failed: false,
        }
    }

    /// The next trapezoid of the joined list of the tiles that the rule takes in the window. None where each was given.
    /// After NoMemory each call answers NoMemory.
    pub fn next(&mut self) -> Result<Option<Trap>, NoMemory>
        requires rule { IsRule (F.pre self.old.rule) (F.post self.old.rule) }
        requires going { self.old.failed ≡ false → (edges : List EdgeParts) × (given : List Trapezoid) × HasGiven (F.post self.old.rule) edges self.old given }
        ensures gives { (edges : List EdgeParts) (given : List Trapezoid) → HasGiven (F.post self.old.rule) edges self.old given → IfOk result (λ answer. IfSome answer (λ trap. HasGiven (F.post self.old.rule) edges self.new (given ++ trap ∷ []))) }
        ensures maximal { (edges : List EdgeParts) (given : List Trapezoid) → HasGiven (F.post self.old.rule) edges self.old given → IfOk result (λ answer. IfSome answer (IsMaximal (IsTakenIn (F.post self.old.rule) edges self.old.window) self.old.window)) }
        ensures in_order { (edges : List EdgeParts) (given : List Trapezoid) → HasGiven (F.post self.old.rule) edges self.old given → IfOk result (λ answer. IfSome answer (λ trap. All (λ z. StandsBefore z trap) given)) }
        ensures ends { (edges : List EdgeParts) (given : List Trapezoid) → HasGiven (F.post self.old.rule) edges self.old given → IfOk result (λ answer. IfNone answer (HasGiven (F.post self.old.rule) edges self.new given)) }
        ensures joined { (edges : List EdgeParts) (given : List Trapezoid) → HasGiven (F.post self.old.rule) edges self.old given → IfOk result (λ answer. IfNone answer (IsJoined self.old.window given)) }
        ensures whole { (edges : List EdgeParts) (given : List Trapezoid) → HasGiven (F.post self.old.rule) edges self.old given → IfOk result (λ answer. IfNone answer (AreMaximal (IsTakenIn (F.post self.old.rule) edges self.old.window) self.old.window given)) }
        ensures covers { (edges : List EdgeParts) (given : List Trapezoid) → HasGiven (F.post self.old.rule) edges self.old given → IfOk result (λ answer. IfNone answer (CoversExactly given (IsTakenIn (F.post self.old.rule) edges self.old.window))) }
        ensures fewer { IfOk result (λ answer. left_to_give self.new + length (option_to_list answer) ≤ left_to_give self.old) }
        ensures going { OnOk result (self.new.failed ≡ false) }
        ensures fails { OnErr result (self.new.failed ≡ true) }
        ensures failed { self.old.failed ≡ true → IsErr result }
        ensures rule { self.new.rule ≡ self.old.rule }
        ensures window { self.new.window ≡ self.old.window }
    {
        if self.failed {
            return Err(NoMemory);
        }
        match self.progress.take_next(&self.rule) {
            Ok(answer) => Ok(answer),
            Err(refused) => {
                self.failed = true;
                Err(refused)
            }
        }
    }
}

/// The joined list of the window's tiles that the rule takes. It is refused only where memory runs out. In each row of the
/// window each operand has as many edges that go up as edges that go down.
pub fn swept<F: Fn(i128, i128) -> bool + Drop>(
    alloc: Global,
    edges: Vec<Edge>,
    window: Window,
    rule: Rule<F>,
) -> Result<Vec<Trap>, NoMemory>
    requires rule { IsRule (F.pre rule) (F.post rule) }
    requires balanced { IsBalanced edges.items window }
    ensures { IfOk result (λ traps. IsSwept (F.post rule) edges.items window traps.items) }
{
    let mut sweep = Sweep::begin(alloc, edges, window, rule)?;
    let mut traps = Vec::new(alloc);
    while let Some(trap) = sweep.next()? {
        traps.push(trap)?;
    }
    Ok(traps)
}
