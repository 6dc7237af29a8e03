//! How far a sweep has come.
ghost use Rattle.std.specs.Prelude.{ℤ, pos, ◌≡◌, ◌+ℤ◌, ◌<◌, ◌≤◌, ◌+◌, ◌^◌, ◌++◌, ◌∷◌, [], false, IsTrue, IfOk, OnOk, IfSome, IfNone, Bool, List, All, length};
ghost use Rattle.std.specs.Option.{option_to_list};
ghost use Rattle.half_grid.specs.Edges.{EdgeParts};
ghost use Rattle.half_grid.specs.JoinedLists.{IsJoined, StandsBefore};
ghost use Rattle.half_grid.specs.Reach.{IsWithinReach};
ghost use Rattle.half_grid.specs.Trapezoids.{Trapezoid, CoversExactly};
ghost use Rattle.scan_line.specs.ClippedEdges.{parts_in};
ghost use Rattle.scan_line.specs.Rules.{IsRule};
ghost use Rattle.scan_line.specs.Runs.{IsBalanced};
ghost use Rattle.trap_join.specs.Joins.{IsTakenIn, IsJoinedSoFar};
ghost use Rattle.trap_join.specs.Maximal.{IsMaximal, AreMaximal};
ghost use Rattle.active_lines.specs.ActiveLists.{items};
ghost use Rattle.plane_sweep.specs.PlaneSweeps.{IsBelowAll, HasComeTo, left_in};

use crate::event::{EventSource, SortedEvents};
use crate::next_stop::next_stop;
use crate::point::Front;
use crate::runs::Level;
use crate::stop::pass_stop;
use geo_stream::NoMemory;
use half_grid::{Edge, Trap, Window};
use scan_line::Rule;
use std::alloc::Global;
use std::collections::VecDeque;

/// A sweep's lines above some stop, and what is still to come.
#[derive(Drop)]
pub(crate) struct Progress<E> {
    pub(crate) window: Window,
    pub(crate) events: E,
    pub(crate) front: Front,
    /// Each stop still to come is at this Y or above it.
    pub(crate) from: Level,
}

// No list has more items than this.
fn know_waiting(waiting: &VecDeque<Trap>)
    ensures { length waiting.now.items < 2 ^ 64 }
{
    let _count = waiting.len();
}

// The Y above the stop's.
fn after(level: Level) -> Level
    requires { IsWithinReach level.y }
    ensures { result.y ≡ level.y +ℤ pos 1 }
{
    Level { y: level.y + 1 }
}

impl Progress<SortedEvents> {
    /// Below the window, where there are no lines. Edges count by their parts in the rows of the window.
    pub(crate) fn begin(
        alloc: Global,
        edges: &[Edge],
        window: Window,
    ) -> Result<Progress<SortedEvents>, NoMemory>
        ensures below { IfOk result (IsBelowAll (λ events. events) (parts_in window edges.now) window) }
        ensures window { IfOk result (λ progress. progress.window ≡ window) }
    {
        let events = SortedEvents::of_parts(alloc, edges, window)?;
        Ok(Progress::over(alloc, events, window))
    }
}

impl<E: EventSource> Progress<E> {
    /// Below the window, where there are no lines, with the events of a source.
    pub(crate) fn over(alloc: Global, events: E, window: Window) -> Progress<E>
        ensures events { result.events ≡ events }
        ensures window { result.window ≡ window }
        ensures lines { items result.front.lines ≡ [] }
        ensures waiting { result.front.waiting.items ≡ [] }
        ensures from { result.from.y ≡ window.y0 }
    {
        Progress {
            window,
            events,
            front: Front::new(alloc),
            from: Level { y: window.y0() },
        }
    }

    /// Goes over the next stop. False where none is left.
    pub(crate) fn advance<F: Fn(i128, i128) -> bool>(
        &mut self,
        rule: &Rule<F>,
    ) -> Result<bool, NoMemory>
        requires rule { IsRule (F.pre rule.now) (F.post rule.now) }
        requires given { (edges : List EdgeParts) × (given : List Trapezoid) × HasComeTo E.left (F.post rule.now) edges self.old given }
        ensures given { (edges : List EdgeParts) (given : List Trapezoid) → HasComeTo E.left (F.post rule.now) edges self.old given → OnOk result (HasComeTo E.left (F.post rule.now) edges self.new given) }
        ensures whole { (edges : List EdgeParts) (given : List Trapezoid) → HasComeTo E.left (F.post rule.now) edges self.old given → IfOk result (λ more. more ≡ false → IsJoinedSoFar (F.post rule.now) (parts_in self.old.window edges) self.old.window self.old.window.y1 (given ++ self.old.front.waiting.items) []) }
        ensures same { IfOk result (λ more. more ≡ false → self.new.front.waiting.items ≡ self.old.front.waiting.items) }
        ensures fewer { IfOk result (λ more. IsTrue more → left_in self.new < left_in self.old) }
        ensures never_more { OnOk result (left_in self.new ≤ left_in self.old) }
        ensures window { self.new.window ≡ self.old.window }
    {
        let Some(stop) = next_stop(&mut self.front.lines, &self.events) else {
            return Ok(false);
        };
        pass_stop(
            &mut self.front,
            &mut self.events,
            rule,
            stop.level,
            stop.meets,
        )?;
        know_waiting(&self.front.waiting);
        self.from = after(stop.level);
        Ok(true)
    }

    /// The next trapezoid that ended.
    pub(crate) fn take_next<F: Fn(i128, i128) -> bool>(
        &mut self,
        rule: &Rule<F>,
    ) -> Result<Option<Trap>, NoMemory>
        requires rule { IsRule (F.pre rule.now) (F.post rule.now) }
        requires given { (edges : List EdgeParts) × (given : List Trapezoid) × HasComeTo E.left (F.post rule.now) edges self.old given }
        ensures gives { (edges : List EdgeParts) (given : List Trapezoid) → HasComeTo E.left (F.post rule.now) edges self.old given → IfOk result (λ answer. IfSome answer (λ trap. HasComeTo E.left (F.post rule.now) edges self.new (given ++ trap ∷ []))) }
        ensures maximal { (edges : List EdgeParts) (given : List Trapezoid) → HasComeTo E.left (F.post rule.now) edges self.old given → IfOk result (λ answer. IfSome answer (IsMaximal (IsTakenIn (F.post rule.now) edges self.old.window) self.old.window)) }
        ensures in_order { (edges : List EdgeParts) (given : List Trapezoid) → HasComeTo E.left (F.post rule.now) edges self.old given → IfOk result (λ answer. IfSome answer (λ trap. All (λ z. StandsBefore z trap) given)) }
        ensures ends { (edges : List EdgeParts) (given : List Trapezoid) → HasComeTo E.left (F.post rule.now) edges self.old given → IfOk result (λ answer. IfNone answer (HasComeTo E.left (F.post rule.now) edges self.new given)) }
        ensures joined { (edges : List EdgeParts) (given : List Trapezoid) → HasComeTo E.left (F.post rule.now) edges self.old given → IfOk result (λ answer. IfNone answer (IsJoined self.old.window given)) }
        ensures whole { (edges : List EdgeParts) (given : List Trapezoid) → HasComeTo E.left (F.post rule.now) edges self.old given → IfOk result (λ answer. IfNone answer (AreMaximal (IsTakenIn (F.post rule.now) edges self.old.window) self.old.window given)) }
        ensures covers { (edges : List EdgeParts) (given : List Trapezoid) → HasComeTo E.left (F.post rule.now) edges self.old given → IfOk result (λ answer. IfNone answer (CoversExactly given (IsTakenIn (F.post rule.now) edges self.old.window))) }
        ensures fewer { IfOk result (λ answer. left_in self.new + length (option_to_list answer) ≤ left_in self.old) }
        ensures window { self.new.window ≡ self.old.window }
    {
        loop {
            if let Some(trap) = self.front.waiting.pop_front() {
                return Ok(Some(trap));
            }
            if !self.advance(rule)? {
                return Ok(None);
            }
        }
    }
}
