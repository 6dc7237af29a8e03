//! A sweep of edges from stop to stop, upward.
ghost use Rattle.std.specs.Prelude.{◌≡◌, ◌<ℤ◌, [], IfOk, IfSome, IfNone, IsSome, IsPermutation};
ghost use Rattle.half_grid.specs.Windows.{row_range};
ghost use Rattle.scan_line.specs.Rules.{IsRule};
ghost use Rattle.scan_line.specs.Stops.{IsSlab, IsWithin};
ghost use Rattle.scan_line.specs.Runs.{IsBalanced, AreRunsOfSlab};

use crate::filling::fill;
use crate::rule::Rule;
use crate::runs::{Run, Slab};
use crate::sweep::Sweep;
use geo_stream::NoMemory;
use half_grid::{Edge, Window};
use std::alloc::Global;
use std::marker::Model;

/// A sweep of edges from stop to stop, upward.
#[derive(Drop)]
pub struct Scan<F> {
    rule: Rule<F>,
    sweep: Sweep,
    runs: Vec<Run>,
}

impl<F> Model for Scan<F> {
    ghost use Rattle.std.specs.Prelude.{vec_capacity};
    ghost use Rattle.scan_line.specs.Scans.{ScanState, HasRoomAndBalance};

    ghost Value = { ScanState F };

    ghost view = { λ scan. record { rule = scan.rule; edges = scan.sweep.edges; window = scan.sweep.window; y = scan.sweep.y; runs = scan.runs.items; walked = scan.sweep.walked } };

    ghost invariant = { λ scan. HasRoomAndBalance scan.sweep.edges scan.sweep.window (vec_capacity scan.runs) };
}

impl<F: Fn(i128, i128) -> bool> Scan<F> {
    /// A scan of the edges in the rows of the window, before its first slab.
    pub fn begin(
        alloc: Global,
        edges: Vec<Edge>,
        window: Window,
        rule: Rule<F>,
    ) -> Result<Scan<F>, NoMemory>
        requires rule { IsRule (F.pre rule) (F.post rule) }
        requires balanced { IsBalanced edges.items window }
        ensures rule { IfOk result (λ scan. scan.rule ≡ rule) }
        ensures edges { IfOk result (λ scan. IsPermutation scan.edges edges.items) }
        ensures window { IfOk result (λ scan. scan.window ≡ window) }
        ensures bottom { IfOk result (λ scan. scan.y ≡ window.y0) }
        ensures no_runs { IfOk result (λ scan. scan.runs ≡ []) }
        ensures idle { IfOk result (λ scan. scan.walked ≡ 0) }
    {
        let runs = Vec::with_capacity(alloc, edges.len())?;
        let sweep = Sweep::new(alloc, edges, window)?;
        Ok(Scan { rule, sweep, runs })
    }

    /// The next slab, of which `runs` then lends the runs. None exactly where the slab of each two consecutive stops
    /// was given.
    pub fn next(&mut self) -> Option<Slab>
        requires { IsRule (F.pre self.old.rule) (F.post self.old.rule) }
        ensures slab { IfSome result (λ slab. IsSlab self.old.edges self.old.window (row_range slab.y0 slab.y1)) }
        ensures within { IfSome result (λ slab. IsWithin self.old.window (row_range slab.y0 slab.y1)) }
        ensures from { IfSome result (λ slab. slab.y0 ≡ self.old.y) }
        ensures to { IfSome result (λ slab. self.new.y ≡ slab.y1) }
        ensures runs { IfSome result (λ slab. AreRunsOfSlab (F.post self.old.rule) self.old.edges (row_range slab.y0 slab.y1) self.new.runs) }
        ensures some { self.old.y <ℤ self.old.window.y1 → IsSome result }
        ensures none { IfNone result (self.old.y ≡ self.old.window.y1) }
        ensures end { IfNone result (self.new.y ≡ self.old.y) }
        ensures no_runs { IfNone result (self.new.runs ≡ []) }
        ensures rule { self.new.rule ≡ self.old.rule }
        ensures edges { self.new.edges ≡ self.old.edges }
        ensures window { self.new.window ≡ self.old.window }
    {
        match self.sweep.next() {
            Some(slab) => {
                fill(&mut self.runs, self.sweep.active(), &self.rule);
                Some(slab)
            }
            None => {
                self.runs.clear();
                None
            }
        }
    }

    /// The runs of the slab that the last call of `next` gave, from left to right. Before the first such call, and
    /// after None, there are none.
    pub fn runs(&self) -> &[Run]
        ensures { result.now ≡ self.now.runs }
    {
        self.runs.as_slice()
    }

    /// How many edges were gone over so far, each as often as a slab has it. It is a measure, of which nothing is promised.
    pub fn walked(&self) -> u64
        ensures { result ≡ self.now.walked }
    {
        self.sweep.walked()
    }
}

impl<F: Drop> Scan<F> {
    /// Gives its edges back, as the scan keeps them.
    pub fn into_edges(self) -> Vec<Edge>
        ensures { result.items ≡ self.edges }
    {
        self.sweep.into_edges()
    }
}
