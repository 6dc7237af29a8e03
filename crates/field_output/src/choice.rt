//! The shots that meet a stripe, stripe by stripe upward.
ghost use Rattle.std.specs.Prelude.{◌≡◌, ◌+◌, ◌<◌, ◌≤◌, All, IfOk, length};
ghost use Rattle.field_output.specs.Chains.{IsReady};
ghost use Rattle.field_output.specs.Meeting.{IsPlaced, numbers, meets};
ghost use Rattle.half_grid.specs.Trapezoids.{IsShot};

use crate::filling::{fill_merged, keep_carried};
use crate::linking::link;
use crate::places::Span;
use geo_stream::NoMemory;
use half_grid::Trap;
use std::alloc::Global;

/// The numbers of the shots that meet a stripe. A shot is in the chain of the first stripe that it meets, and is carried
/// from stripe to stripe up to its last one. So all turns together cost as much as the shots and the stripes that each
/// meets.
#[derive(Drop)]
pub(crate) struct Choice {
    heads: Vec<u32>,
    next: Vec<u32>,
    carried: Vec<u32>,
    chosen: Vec<u32>,
}

impl Choice {
    /// The choice before the first stripe. It takes all its memory: three numbers a shot, and one a stripe.
    pub(crate) fn new(alloc: Global, shots: &[Trap], span: Span) -> Result<Choice, NoMemory>
        requires placed { All (IsPlaced span.size span.first span.count) shots.now }
        requires few { length shots.now ≤ 33554432 }
        ensures { IfOk result (IsReady span.size span.first span.count shots.now 0) }
    {
        let end = shots.len() as u32;
        let mut heads = vec![in alloc; end; span.count]?;
        let mut next = vec![in alloc; end; shots.len()]?;
        link(heads.as_mut_slice(), next.as_mut_slice(), shots, span);
        Ok(Choice {
            heads,
            next,
            carried: Vec::with_capacity(alloc, shots.len())?,
            chosen: Vec::with_capacity(alloc, shots.len())?,
        })
    }

    /// Chooses the shots that meet the next stripe.
    pub(crate) fn turn(&mut self, shots: &[Trap], span: Span, stripe: usize)
        requires legal { All IsShot shots.now }
        requires placed { All (IsPlaced span.size span.first span.count) shots.now }
        requires ready { IsReady span.size span.first span.count shots.now stripe self.old }
        requires stripe { stripe < span.count }
        ensures ready { IsReady span.size span.first span.count shots.now (stripe + 1) self.new }
        ensures chosen { self.new.chosen.items ≡ numbers (meets span.size span.first stripe) 0 shots.now }
    {
        let head = self.heads[stripe];
        fill_merged(
            &mut self.chosen,
            self.carried.as_slice(),
            self.next.as_slice(),
            head,
        );
        keep_carried(
            &mut self.carried,
            self.chosen.as_slice(),
            shots,
            span,
            stripe,
        );
    }

    /// Their numbers.
    pub(crate) fn numbers(&self) -> &[u32]
        ensures { result.now ≡ self.now.chosen.items }
    {
        self.chosen.as_slice()
    }
}
