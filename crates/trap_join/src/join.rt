//! Maximal trapezoids, one by one, out of a sweep's slabs.
ghost use Rattle.std.specs.Prelude.{◌≡◌, ◌<◌, ◌+◌, ◌≤◌, List, [], ◌∷◌, ◌++◌, map, length, All, IsTrue, IsOk, IsErr, IfOk, OnOk, OnErr, IfSome, IfNone, MatchOption, true, false};
ghost use Rattle.std.specs.Option.{option_to_list};
ghost use Rattle.half_grid.specs.Trapezoids.{Trapezoid, CoversExactly};
ghost use Rattle.half_grid.specs.JoinedLists.{IsJoined, StandsBefore};
ghost use Rattle.scan_line.specs.Rules.{IsRule};
ghost use Rattle.trap_join.specs.Maximal.{IsMaximal, AreMaximal};
ghost use Rattle.trap_join.specs.Joins.{IsTakenIn, IsJoinedSoFar, IsFrontOf, HasGiven, TopIsKnown, left_in, left_to_give, join_area};

use crate::front::Front;
use geo_stream::NoMemory;
use half_grid::{Edge, Trap};
use scan_line::Scan;
use std::alloc::Global;
use std::collections::VecDeque;
use std::marker::Model;

/// The maximal trapezoids of the tiles that a scan's rule takes in its window, one by one.
#[derive(Drop)]
pub struct Join<F> {
    scan: Scan<F>,
    front: Front,
    failed: bool,
}

impl<F> Model for Join<F> {
    ghost use Rattle.std.specs.Prelude.{map};
    ghost use Rattle.trap_join.specs.Fronts.{ended_at};
    ghost use Rattle.trap_join.specs.Joins.{JoinState, TopIsKnown};

    ghost Value = { JoinState F };

    ghost view = { λ join. record { rule = join.scan.rule; edges = join.scan.edges; window = join.scan.window; y = join.scan.y; waiting = join.front.waiting.items; front = map (ended_at join.scan.y) join.front.growing.items; failed = join.failed; walked = join.scan.walked } };

    ghost invariant = { λ join. TopIsKnown join.front join.scan.y };
}

// Joins the next slab, or ends all that grows after the last one. False where there is nothing left.
fn advance<F: Fn(i128, i128) -> bool>(
    scan: &mut Scan<F>,
    front: &mut Front,
) -> Result<bool, NoMemory>
    requires rule { IsRule (F.pre scan.old.rule) (F.post scan.old.rule) }
    requires so_far { (given : List Trapezoid) × IsFrontOf (F.post scan.old.rule) scan.old front.old given }
    requires top { TopIsKnown front.old scan.old.y }
    ensures joined { (given : List Trapezoid) → IsFrontOf (F.post scan.old.rule) scan.old front.old given → OnOk result (IsFrontOf (F.post scan.old.rule) scan.new front.new given) }
    ensures fewer { IfOk result (λ more. IsTrue more → left_in scan.new front.new < left_in scan.old front.old) }
    ensures never_more { OnOk result (left_in scan.new front.new ≤ left_in scan.old front.old) }
    ensures over { IfOk result (λ more. more ≡ false → scan.new.y ≡ scan.new.window.y1) }
    ensures none { IfOk result (λ more. more ≡ false → front.new.growing.items ≡ []) }
    ensures same { IfOk result (λ more. more ≡ false → front.new.waiting.items ≡ front.old.waiting.items) }
    ensures rule { scan.new.rule ≡ scan.old.rule }
    ensures edges { scan.new.edges ≡ scan.old.edges }
    ensures window { scan.new.window ≡ scan.old.window }
    ensures top { TopIsKnown front.new scan.new.y }
{
    let Some(slab) = scan.next() else {
        if front.growing.is_empty() {
            return Ok(false);
        }
        front.end_growing(front.top)?;
        return Ok(true);
    };
    front.top = slab.y1;
    front.join_runs(scan.runs(), slab.y0)?;
    Ok(true)
}

// The next trapezoid that ended.
fn take_next<F: Fn(i128, i128) -> bool>(
    scan: &mut Scan<F>,
    front: &mut Front,
) -> Result<Option<Trap>, NoMemory>
    requires rule { IsRule (F.pre scan.old.rule) (F.post scan.old.rule) }
    requires so_far { (given : List Trapezoid) × IsFrontOf (F.post scan.old.rule) scan.old front.old given }
    requires top { TopIsKnown front.old scan.old.y }
    ensures gives { (given : List Trapezoid) → IsFrontOf (F.post scan.old.rule) scan.old front.old given → IfOk result (λ answer. IfSome answer (λ trap. IsFrontOf (F.post scan.old.rule) scan.new front.new (given ++ trap ∷ []))) }
    ensures maximal { IfOk result (λ answer. IfSome answer (IsMaximal (IsTakenIn (F.post scan.old.rule) scan.old.edges scan.old.window) scan.old.window)) }
    ensures in_order { (given : List Trapezoid) → IsFrontOf (F.post scan.old.rule) scan.old front.old given → IfOk result (λ answer. IfSome answer (λ trap. All (λ z. StandsBefore z trap) given)) }
    ensures ends { (given : List Trapezoid) → IsFrontOf (F.post scan.old.rule) scan.old front.old given → IfOk result (λ answer. IfNone answer (IsFrontOf (F.post scan.old.rule) scan.new front.new given)) }
    ensures joined { (given : List Trapezoid) → IsFrontOf (F.post scan.old.rule) scan.old front.old given → IfOk result (λ answer. IfNone answer (IsJoined scan.old.window given)) }
    ensures whole { (given : List Trapezoid) → IsFrontOf (F.post scan.old.rule) scan.old front.old given → IfOk result (λ answer. IfNone answer (AreMaximal (IsTakenIn (F.post scan.old.rule) scan.old.edges scan.old.window) scan.old.window given)) }
    ensures covers { (given : List Trapezoid) → IsFrontOf (F.post scan.old.rule) scan.old front.old given → IfOk result (λ answer. IfNone answer (CoversExactly given (IsTakenIn (F.post scan.old.rule) scan.old.edges scan.old.window))) }
    ensures fewer { IfOk result (λ answer. left_in scan.new front.new + length (option_to_list answer) ≤ left_in scan.old front.old) }
    ensures rule { scan.new.rule ≡ scan.old.rule }
    ensures edges { scan.new.edges ≡ scan.old.edges }
    ensures window { scan.new.window ≡ scan.old.window }
    ensures top { TopIsKnown front.new scan.new.y }
{
    loop {
        if let Some(trap) = front.waiting.pop_front() {
            return Ok(Some(trap));
        }
        if !advance(scan, front)? {
            return Ok(None);
        }
    }
}

// Goes on until a trapezoid waits, or nothing is left. False where none waits, and more edges than this were gone over.
fn climb<F: Fn(i128, i128) -> bool>(
    scan: &mut Scan<F>,
    front: &mut Front,
    most: u64,
) -> Result<bool, NoMemory>
    requires rule { IsRule (F.pre scan.old.rule) (F.post scan.old.rule) }
    requires so_far { (given : List Trapezoid) × IsFrontOf (F.post scan.old.rule) scan.old front.old given }
    requires top { TopIsKnown front.old scan.old.y }
    ensures joined { (given : List Trapezoid) → IsFrontOf (F.post scan.old.rule) scan.old front.old given → OnOk result (IsFrontOf (F.post scan.old.rule) scan.new front.new given) }
    ensures never_more { OnOk result (left_in scan.new front.new ≤ left_in scan.old front.old) }
    ensures over { IfOk result (λ within. within ≡ false → most < scan.new.walked) }
    ensures none_ready { IfOk result (λ within. within ≡ false → front.new.waiting.items ≡ []) }
    ensures ends { IfOk result (λ within. within ≡ true → front.new.waiting.items ≡ [] → scan.new.y ≡ scan.new.window.y1) }
    ensures none_grows { IfOk result (λ within. within ≡ true → front.new.waiting.items ≡ [] → front.new.growing.items ≡ []) }
    ensures rule { scan.new.rule ≡ scan.old.rule }
    ensures edges { scan.new.edges ≡ scan.old.edges }
    ensures window { scan.new.window ≡ scan.old.window }
    ensures top { TopIsKnown front.new scan.new.y }
{
    while front.waiting.is_empty() {
        if most < scan.walked() {
            return Ok(false);
        }
        if !advance(scan, front)? {
            break;
        }
    }
    Ok(true)
}

impl<F: Fn(i128, i128) -> bool> Join<F> {
    /// A join of a scan whose first slab wasn't taken yet. It takes no memory.
    pub fn begin(alloc: Global, scan: Scan<F>) -> Result<Join<F>, NoMemory>
        requires rule { IsRule (F.pre scan.rule) (F.post scan.rule) }
        requires fresh { scan.y ≡ scan.window.y0 }
        ensures begins { IsOk result }
        ensures given { IfOk result (λ join. HasGiven (F.post scan.rule) join []) }
        ensures rule { IfOk result (λ join. join.rule ≡ scan.rule) }
        ensures edges { IfOk result (λ join. join.edges ≡ scan.edges) }
        ensures window { IfOk result (λ join. join.window ≡ scan.window) }
        ensures going { IfOk result (λ join. join.failed ≡ false) }
        ensures walked { IfOk result (λ join. join.walked ≡ scan.walked) }
    {
        Ok(Join {
            scan,
            front: Front {
                growing: Vec::new(alloc),
                spare: Vec::new(alloc),
                waiting: VecDeque::new(alloc),
                top: 0,
            },
            failed: false,
        })
    }

    /// The next trapezoid of the joined list of the tiles that the scan's rule takes in its window. None where each
    /// was given. After NoMemory each call answers NoMemory.
    pub fn next(&mut self) -> Result<Option<Trap>, NoMemory>
        requires rule { IsRule (F.pre self.old.rule) (F.post self.old.rule) }
        requires going { self.old.failed ≡ false → (given : List Trapezoid) × HasGiven (F.post self.old.rule) self.old given }
        ensures gives { (given : List Trapezoid) → HasGiven (F.post self.old.rule) self.old given → IfOk result (λ answer. IfSome answer (λ trap. HasGiven (F.post self.old.rule) self.new (given ++ trap ∷ []))) }
        ensures maximal { IfOk result (λ answer. IfSome answer (IsMaximal (join_area (F.post self.old.rule) self.old) self.old.window)) }
        ensures in_order { (given : List Trapezoid) → HasGiven (F.post self.old.rule) self.old given → IfOk result (λ answer. IfSome answer (λ trap. All (λ z. StandsBefore z trap) given)) }
        ensures ends { (given : List Trapezoid) → HasGiven (F.post self.old.rule) self.old given → IfOk result (λ answer. IfNone answer (HasGiven (F.post self.old.rule) self.new given)) }
        ensures joined { (given : List Trapezoid) → HasGiven (F.post self.old.rule) self.old given → IfOk result (λ answer. IfNone answer (IsJoined self.old.window given)) }
        ensures whole { (given : List Trapezoid) → HasGiven (F.post self.old.rule) self.old given → IfOk result (λ answer. IfNone answer (AreMaximal (join_area (F.post self.old.rule) self.old) self.old.window given)) }
        ensures covers { (given : List Trapezoid) → HasGiven (F.post self.old.rule) self.old given → IfOk result (λ answer. IfNone answer (CoversExactly given (join_area (F.post self.old.rule) self.old))) }
        ensures fewer { IfOk result (λ answer. left_to_give self.new + length (option_to_list answer) ≤ left_to_give self.old) }
        ensures going { OnOk result (self.new.failed ≡ false) }
        ensures fails { OnErr result (self.new.failed ≡ true) }
        ensures failed { self.old.failed ≡ true → IsErr result }
        ensures rule { self.new.rule ≡ self.old.rule }
        ensures edges { self.new.edges ≡ self.old.edges }
        ensures window { self.new.window ≡ self.old.window }
    {
        if self.failed {
            return Err(NoMemory);
        }
        match take_next(&mut self.scan, &mut self.front) {
            Ok(answer) => Ok(answer),
            Err(refused) => {
                self.failed = true;
                Err(refused)
            }
        }
    }

    /// Goes up slab by slab to where the next trapezoid ends, which `next` then gives at once, or to the end of the
    /// window, where none is left. False where none is ready, and the scan has gone over more than `most` edges: the join
    /// may go on all the same. After NoMemory each call answers NoMemory.
    pub fn climb_within(&mut self, most: u64) -> Result<bool, NoMemory>
        requires rule { IsRule (F.pre self.old.rule) (F.post self.old.rule) }
        requires going { self.old.failed ≡ false → (given : List Trapezoid) × HasGiven (F.post self.old.rule) self.old given }
        ensures same { (given : List Trapezoid) → HasGiven (F.post self.old.rule) self.old given → OnOk result (HasGiven (F.post self.old.rule) self.new given) }
        ensures never_more { OnOk result (left_to_give self.new ≤ left_to_give self.old) }
        ensures over { IfOk result (λ within. within ≡ false → most < self.new.walked) }
        ensures none_ready { IfOk result (λ within. within ≡ false → self.new.waiting ≡ []) }
        ensures ends { IfOk result (λ within. within ≡ true → self.new.waiting ≡ [] → self.new.y ≡ self.new.window.y1) }
        ensures none_grows { IfOk result (λ within. within ≡ true → self.new.waiting ≡ [] → self.new.front ≡ []) }
        ensures going { OnOk result (self.new.failed ≡ false) }
        ensures fails { OnErr result (self.new.failed ≡ true) }
        ensures failed { self.old.failed ≡ true → IsErr result }
        ensures rule { self.new.rule ≡ self.old.rule }
        ensures edges { self.new.edges ≡ self.old.edges }
        ensures window { self.new.window ≡ self.old.window }
    {
        if self.failed {
            return Err(NoMemory);
        }
        let climbed = climb(&mut self.scan, &mut self.front, most);
        self.failed = climbed.is_err();
        climbed
    }

    /// How many edges its scan went over so far. It is a measure, of which nothing is promised.
    pub fn walked(&self) -> u64
        ensures { result ≡ self.now.walked }
    {
        self.scan.walked()
    }
}

impl<F: Drop> Join<F> {
    /// Gives the edges of its scan back, as the scan keeps them.
    pub fn into_edges(self) -> Vec<Edge>
        ensures { result.items ≡ self.edges }
    {
        self.scan.into_edges()
    }
}
