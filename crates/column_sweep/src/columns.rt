//! Columns swept one after another from left to right.
ghost use Rattle.std.specs.Prelude.{◌≡◌, ◌↔◌, ◌<ℤ◌, ◌≤ℤ◌, ◌<◌, ◌++◌, ◌+◌, ◌-◌, ◌^◌, ℤ, pos, negsuc, true, List, [], ◌∷◌, All, IsTrue, IfOk, OnOk, IfErr};
ghost use Rattle.half_grid.specs.Edges.{EdgeParts, IsEdge};
ghost use Rattle.half_grid.specs.Trapezoids.{Trapezoid};
ghost use Rattle.half_grid.specs.Reach.{IsWithinReach};
ghost use Rattle.scan_line.specs.Rules.{IsRule, IsWinding, Takes};
ghost use Rattle.scan_line.specs.Runs.{IsBalanced};
ghost use Rattle.trap_join.specs.Joins.{IsTakenIn};
ghost use Rattle.column_sweep.specs.declared.halting.Halt.TheVariants.{Long};
ghost use Rattle.column_sweep.specs.ColumnLaws.{IsStrictlyInside};
ghost use Rattle.column_sweep.specs.Parts.{LiesRight};
ghost use Rattle.column_sweep.specs.Sewing.{CoverTogether, AreSewn, AreSortedBehind, AreSweptBehind, AreSweptTo, AreLeft};
ghost use Rattle.column_sweep.specs.Sweeps.{IsSwept};

use crate::cuts::Cut;
use crate::dealing::sort_for_cuts;
use crate::halting::Halt;
use crate::parting::parted;
use crate::waiting::split_before;
use geo_stream::NoMemory;
use half_grid::{Edge, REACH, Trap, Window};
use scan_line::{Rule, Scan};
use std::alloc::Global;
use trap_join::Join;

/// Trapezoids of an area, and how many edges were gone over to make them. The final ones are maximal in all of it. The
/// others have the rest of its tiles.
#[derive(Drop)]
pub(crate) struct Sewn {
    pub(crate) finals: Vec<Trap>,
    pub(crate) seams: Vec<Trap>,
    pub(crate) walked: u64,
}

/// The tiles from one X up to below another.
#[derive(Clone, Copy)]
struct Column {
    from: Cut,
    to: Cut,
}

/// An area that was swept up to some X: the edges of what is right of it, apart from those that wait, and the
/// trapezoids of what is left of it.
#[derive(Drop)]
struct Progress {
    from: Cut,
    edges: Vec<Edge>,
    sewn: Sewn,
}

/// A cut left of all edges.
pub(crate) fn before_all() -> Cut
    ensures { result.x ≡ negsuc (2 ^ 44) }
{
    Cut { x: -REACH - 1 }
}

// A cut right of all edges.
fn behind_all() -> Cut
    ensures { result.x ≡ pos (2 ^ 44 + 1) }
{
    Cut { x: REACH + 1 }
}

/// Whether the cut is right of the other, and within reach.
pub(crate) fn is_next(from: Cut, cut: Cut) -> bool
    ensures right { result ≡ true → from.x <ℤ cut.x }
    ensures within { result ≡ true → IsWithinReach cut.x }
{
    if cut.x <= from.x {
        return false;
    }
    if cut.x < -REACH {
        return false;
    }
    cut.x <= REACH
}

// Whether no corner of the trapezoid lies on a side of the column, or beyond it.
fn is_inside(trap: &Trap, column: Column) -> bool
    ensures { result ≡ true → IsStrictlyInside column.from.x column.to.x trap.now }
{
    if trap.bottom_left() <= column.from.x {
        return false;
    }
    if trap.top_left() <= column.from.x {
        return false;
    }
    if column.to.x <= trap.bottom_right() {
        return false;
    }
    trap.top_right() < column.to.x
}

// Puts one more trapezoid of a column where it belongs.
fn sort_in(sewn: &mut Sewn, trap: &Trap, column: Column) -> Result<(), NoMemory>
    ensures { (traps finals seams : List Trapezoid) → AreSortedBehind column.from.x column.to.x traps finals seams sewn.old.finals.items sewn.old.seams.items
        → OnOk result (AreSortedBehind column.from.x column.to.x (traps ++ trap.now ∷ []) finals seams sewn.new.finals.items sewn.new.seams.items) }
{
    if is_inside(trap, column) {
        sewn.finals.push(*trap)?;
        return Ok(());
    }
    sewn.seams.push(*trap)?;
    Ok(())
}

// Puts all trapezoids of a scan that gave no slab yet after those of the columns before: those strictly inside the column,
// and those that touch a side. It is given up where that, or what was done before, goes over more edges than this.
fn sort_out<F: Fn(i128, i128) -> bool + Drop>(
    alloc: Global,
    sewn: &mut Sewn,
    scan: Scan<F>,
    column: Column,
    most: u64,
) -> Result<(), Halt>
    requires rule { IsRule (F.pre scan.rule) (F.post scan.rule) }
    requires fresh { scan.y ≡ scan.window.y0 }
    ensures swept { OnOk result (AreSweptBehind (IsSwept (F.post scan.rule) scan.edges scan.window) column.from.x column.to.x sewn.old.finals.items sewn.old.seams.items sewn.new.finals.items sewn.new.seams.items) }
    ensures long { IfErr result (λ halt. halt ≡ Long → most < 2 ^ 64 - 1) }
{
    if most < sewn.walked {
        return Err(Halt::Long);
    }
    let mut join = Join::begin(alloc, scan)?;
    while join.climb_within(most)? {
        match join.next()? {
            Some(trap) => sort_in(sewn, &trap, column)?,
            None => {
                sewn.walked = sewn.walked.saturating_add(join.walked());
                return Ok(());
            }
        }
    }
    sewn.walked = sewn.walked.saturating_add(join.walked());
    Err(Halt::Long)
}

// The trapezoids of one column, from edges that wind round no tile outside of it, after those of the columns before.
fn sweep_part<F: Fn(i128, i128) -> bool + Drop>(
    alloc: Global,
    sewn: &mut Sewn,
    edges: Vec<Edge>,
    window: Window,
    rule: &Rule<F>,
    column: Column,
    most: u64,
) -> Result<(), Halt>
    requires rule { IsRule (F.pre rule.now) (F.post rule.now) }
    requires balanced { IsBalanced edges.items window }
    ensures swept { OnOk result (AreSweptBehind (IsSwept (F.post rule.now) edges.items window) column.from.x column.to.x sewn.old.finals.items sewn.old.seams.items sewn.new.finals.items sewn.new.seams.items) }
    ensures long { IfErr result (λ halt. halt ≡ Long → most < 2 ^ 64 - 1) }
{
    let asked = Rule::new(
        |a: i128, b: i128| -> bool
            requires rule { IsRule (F.pre rule.now) (F.post rule.now) }
            requires first { IsWinding a }
            requires second { IsWinding b }
            ensures { IsTrue result ↔ Takes (F.post rule.entry.now) a b }
        { rule.asks(a, b) },
    );
    let scan = Scan::begin(alloc, edges, window, asked)?;
    sort_out(alloc, sewn, scan, column, most)
}

// One column further, up to the cut, with those of the waiting edges that were taken for it. None of the others lies left
// of the cut.
fn swept_column<F: Fn(i128, i128) -> bool + Drop>(
    alloc: Global,
    progress: Progress,
    taken: &[Edge],
    window: Window,
    rule: &Rule<F>,
    cut: Cut,
    most: u64,
) -> Result<Progress, Halt>
    requires rule { IsRule (F.pre rule.now) (F.post rule.now) }
    requires cut { IsWithinReach cut.x }
    ensures from { IfOk result (λ next. next.from ≡ cut) }
    ensures left { (edges later : List EdgeParts) → All (LiesRight cut.x) later → progress.from.x <ℤ cut.x → AreLeft progress.from.x edges ((progress.edges.items ++ taken.now) ++ later)
        → IfOk result (λ next. AreLeft cut.x edges (next.edges.items ++ later)) }
    ensures swept { (edges later : List EdgeParts) (low : ℤ) → All (LiesRight cut.x) later → low ≤ℤ progress.from.x → progress.from.x <ℤ cut.x → AreLeft progress.from.x edges ((progress.edges.items ++ taken.now) ++ later)
        → AreSweptTo (IsTakenIn (F.post rule.now) edges window) window low progress.from.x progress.sewn.finals.items progress.sewn.seams.items
        → IfOk result (λ next. AreSweptTo (IsTakenIn (F.post rule.now) edges window) window low cut.x next.sewn.finals.items next.sewn.seams.items) }
    ensures long { IfErr result (λ halt. halt ≡ Long → most < 2 ^ 64 - 1) }
{
    let parts = parted(alloc, progress.edges.as_slice(), taken, cut)?;
    let column = Column {
        from: progress.from,
        to: cut,
    };
    let mut sewn = progress.sewn;
    sweep_part(alloc, &mut sewn, parts.own, window, rule, column, most)?;
    Ok(Progress {
        from: cut,
        edges: parts.beyond,
        sewn,
    })
}

// The last column, with the edges that wait.
fn finish<F: Fn(i128, i128) -> bool + Drop>(
    alloc: Global,
    progress: Progress,
    later: &[Edge],
    window: Window,
    rule: &Rule<F>,
    most: u64,
) -> Result<Sewn, Halt>
    requires rule { IsRule (F.pre rule.now) (F.post rule.now) }
    requires balanced { IsBalanced (progress.edges.items ++ later.now) window }
    ensures swept { (edges : List EdgeParts) (low : ℤ) → low ≤ℤ progress.from.x → progress.from.x <ℤ pos (2 ^ 44 + 1) → All IsEdge edges → IsBalanced edges window → AreLeft progress.from.x edges (progress.edges.items ++ later.now)
        → AreSweptTo (IsTakenIn (F.post rule.now) edges window) window low progress.from.x progress.sewn.finals.items progress.sewn.seams.items
        → IfOk result (λ sewn. AreSweptTo (IsTakenIn (F.post rule.now) edges window) window low (pos (2 ^ 44 + 1)) sewn.finals.items sewn.seams.items) }
    ensures long { IfErr result (λ halt. halt ≡ Long → most < 2 ^ 64 - 1) }
{
    let mut edges = progress.edges;
    edges.extend_from_slice(later)?;
    let column = Column {
        from: progress.from,
        to: behind_all(),
    };
    let mut sewn = progress.sewn;
    sweep_part(alloc, &mut sewn, edges, window, rule, column, most)?;
    Ok(sewn)
}

/// What each item of a list of edges is, from its own promise.
pub(crate) fn know_edges(edges: &[Edge])
    ensures { All IsEdge edges.now }
{
    for edge in edges {
        let _promised = edge.y0();
    }
}

fn begin(alloc: Global) -> Progress
    ensures from { result.from.x ≡ negsuc (2 ^ 44) }
    ensures edges { result.edges.items ≡ [] }
    ensures finals { result.sewn.finals.items ≡ [] }
    ensures seams { result.sewn.seams.items ≡ [] }
{
    Progress {
        from: before_all(),
        edges: Vec::new(alloc),
        sewn: Sewn {
            finals: Vec::new(alloc),
            seams: Vec::new(alloc),
            walked: 0,
        },
    }
}

/// The area that the rule takes, swept in the columns between the cuts. A cut that isn't right of those before it, or
/// is beyond reach, is left out. It is given up where more edges are gone over than this, or some more in the last column.
pub(crate) fn swept_columns<F: Fn(i128, i128) -> bool + Drop>(
    alloc: Global,
    edges: Vec<Edge>,
    window: Window,
    rule: &Rule<F>,
    cuts: &[Cut],
    most: u64,
) -> Result<Sewn, Halt>
    requires rule { IsRule (F.pre rule.now) (F.post rule.now) }
    requires balanced { IsBalanced edges.items window }
    ensures sewn { IfOk result (λ sewn. AreSewn window sewn.finals.items sewn.seams.items) }
    ensures covers { IfOk result (λ sewn. CoverTogether (IsTakenIn (F.post rule.now) edges.items window) sewn.finals.items sewn.seams.items) }
    ensures long { IfErr result (λ halt. halt ≡ Long → most < 2 ^ 64 - 1) }
{
    let mut waiting = edges;
    sort_for_cuts(&mut waiting, cuts);
    know_edges(waiting.as_slice());
    let mut later = waiting.as_slice();
    let mut progress = begin(alloc);
    for cut in cuts {
        if !is_next(progress.from, *cut) {
            continue;
        }
        let (taken, rest) = split_before(later, *cut);
        progress = swept_column(alloc, progress, taken, window, rule, *cut, most)?;
        later = rest;
    }
    finish(alloc, progress, later, window, rule, most)
}
