//! The row lists of edges, from stop to stop.
ghost use Rattle.std.specs.Prelude.{ℤ, ◌≡◌, IfOk, IfSome, IfNone, List};
ghost use Rattle.half_grid.specs.Edges.{EdgeParts};
ghost use Rattle.active_lines.specs.ActiveLists.{items};
ghost use Rattle.scan_line.specs.Rules.{IsRule};
ghost use Rattle.plane_sweep.specs.RowSweeps.{IsAbove, GoesUp, StaysAbove};

use crate::event::{SortedEvents, know_edges};
use crate::next_stop::next_stop;
use crate::point::Front;
use crate::stop::pass_stop;
use active_lines::ActiveLines;
use geo_stream::NoMemory;
use half_grid::Edge;
use scan_line::Rule;
use std::alloc::Global;
use std::marker::Model;

/// The lines of a sweep over edges, stop by stop. Contracts see its lines, from left to right, and the events still to come.
#[derive(Drop)]
pub struct RowSweep {
    front: Front,
    events: SortedEvents,
}

impl Model for RowSweep {
    ghost use Rattle.active_lines.specs.ActiveLists.{items};
    ghost use Rattle.plane_sweep.specs.RowSweeps.{RowSweepState};

    ghost Value = { RowSweepState };

    ghost view = { λ sweep. record { lines = items sweep.front.lines; left = sweep.events } };
}

impl RowSweep {
    /// A sweep below all of the edges, which has no lines yet.
    pub fn begin(alloc: Global, edges: &[Edge]) -> Result<RowSweep, NoMemory>
        ensures { IfOk result (λ sweep. (y : ℤ) × IsAbove edges.now y sweep) }
    {
        know_edges(edges);
        let events = SortedEvents::of_edges(alloc, edges)?;
        Ok(RowSweep {
            front: Front::new(alloc),
            events,
        })
    }

    /// Goes up over the next stop, and gives its Y: the lowest at which an edge begins or ends or two neighbours meet. None
    /// where no stop is left. After NoMemory nothing is said of the lines. The rule says which tiles the open trapezoids cover.
    pub fn next<F: Fn(i128, i128) -> bool>(
        &mut self,
        rule: &Rule<F>,
    ) -> Result<Option<i64>, NoMemory>
        requires rule { IsRule (F.pre rule.now) (F.post rule.now) }
        requires above { (edges : List EdgeParts) × (y : ℤ) × IsAbove edges y self.old }
        ensures up { (edges : List EdgeParts) (y : ℤ) → IsAbove edges y self.old → IfOk result (λ next. IfSome next (GoesUp edges y self.old self.new)) }
        ensures end { (edges : List EdgeParts) (y : ℤ) → IsAbove edges y self.old → IfOk result (λ next. IfNone next (StaysAbove edges y self.old)) }
        ensures same { IfOk result (λ next. IfNone next (self.new ≡ self.old)) }
    {
        let Some(stop) = next_stop(&mut self.front.lines, &self.events) else {
            return Ok(None);
        };
        pass_stop(
            &mut self.front,
            &mut self.events,
            rule,
            stop.level,
            stop.meets,
        )?;
        Ok(Some(stop.level.y))
    }

    /// Its lines.
    pub fn into_lines(self) -> ActiveLines
        ensures { items result ≡ self.lines }
    {
        self.front.lines
    }
}
