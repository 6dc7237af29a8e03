//! The sweep that suits the edges: in columns, or without.
ghost use Rattle.std.specs.Prelude.{IfOk, IfErr, IfSome, IfNone, ◌≡◌, ◌↔◌, ◌<◌, ◌-◌, ◌^◌, IsTrue};
ghost use Rattle.scan_line.specs.Rules.{IsRule, IsWinding, Takes};
ghost use Rattle.scan_line.specs.Runs.{IsBalanced};
ghost use Rattle.column_sweep.specs.declared.halting.Halt.TheVariants.{Long};
ghost use Rattle.column_sweep.specs.Sweeps.{IsSwept};
ghost use Rattle.column_sweep.specs.Tries.{IsGivenUpFor, IsTried};

use crate::columns::swept_columns;
use crate::counted::Swept;
use crate::cuts::{Cut, are_often_crossed, chosen_cuts, plain_budget};
use crate::cutting::cut_to;
use crate::halting::Halt;
use crate::lengths::are_long;
use crate::seams::joined_seams;
use geo_stream::NoMemory;
use half_grid::{Edge, Trap, Window};
use scan_line::{Rule, Scan};
use std::alloc::Global;
use trap_join::Join;

// All trapezoids of a scan that gave no slab yet.
fn joined<F: Fn(i128, i128) -> bool + Drop>(alloc: Global, scan: Scan<F>) -> Result<Swept, NoMemory>
    requires rule { IsRule (F.pre scan.rule) (F.post scan.rule) }
    requires fresh { scan.y ≡ scan.window.y0 }
    ensures { IfOk result (λ swept. IsSwept (F.post scan.rule) scan.edges scan.window swept.traps.items) }
{
    let mut join = Join::begin(alloc, scan)?;
    let mut traps = Vec::new(alloc);
    while let Some(trap) = join.next()? {
        traps.push(trap)?;
    }
    let walked = join.walked();
    Ok(Swept { traps, walked })
}

/// What became of a sweep that may not go over too many edges.
#[derive(Drop)]
pub(crate) enum Tried {
    /// All trapezoids.
    Whole(Swept),
    /// It was given up, and the edges are given back. So many were gone over for nothing.
    GivenUp(Vec<Edge>, u64),
}

// The same, as long as it goes over no more edges than this.
fn joined_within<F: Fn(i128, i128) -> bool + Drop>(
    alloc: Global,
    scan: Scan<F>,
    most: u64,
) -> Result<Tried, NoMemory>
    requires rule { IsRule (F.pre scan.rule) (F.post scan.rule) }
    requires fresh { scan.y ≡ scan.window.y0 }
    ensures tried { IfOk result (IsTried (F.post scan.rule) scan.edges scan.window) }
    ensures long { IfOk result (IsGivenUpFor most) }
{
    let mut join = Join::begin(alloc, scan)?;
    let mut traps = Vec::new(alloc);
    while join.climb_within(most)? {
        match join.next()? {
            Some(trap) => traps.push(trap)?,
            None => {
                let walked = join.walked();
                return Ok(Tried::Whole(Swept { traps, walked }));
            }
        }
    }
    let walked = join.walked();
    Ok(Tried::GivenUp(join.into_edges(), walked))
}

/// The same list as of `swept`, for a lent rule, by one sweep of the whole window without columns. That takes about as long
/// where few edges span a row, and far longer where many do.
pub fn plain<F: Fn(i128, i128) -> bool + Drop>(
    alloc: Global,
    edges: Vec<Edge>,
    window: Window,
    rule: &Rule<F>,
) -> Result<Vec<Trap>, NoMemory>
    requires rule { IsRule (F.pre rule.now) (F.post rule.now) }
    requires balanced { IsBalanced edges.items window }
    ensures { IfOk result (λ traps. IsSwept (F.post rule.now) edges.items window traps.items) }
{
    Ok(plain_counted(alloc, edges, window, rule)?.traps)
}

/// The same, with the count of edges gone over.
pub(crate) fn plain_counted<F: Fn(i128, i128) -> bool + Drop>(
    alloc: Global,
    edges: Vec<Edge>,
    window: Window,
    rule: &Rule<F>,
) -> Result<Swept, NoMemory>
    requires rule { IsRule (F.pre rule.now) (F.post rule.now) }
    requires balanced { IsBalanced edges.items window }
    ensures { IfOk result (λ swept. IsSwept (F.post rule.now) edges.items window swept.traps.items) }
{
    let asked = Rule::new(
        |a: i128, b: i128| -> bool
            requires rule { IsRule (F.pre rule.now) (F.post rule.now) }
            requires first { IsWinding a }
            requires second { IsWinding b }
            ensures { IsTrue result ↔ Takes (F.post rule.entry.now) a b }
        { rule.asks(a, b) },
    );
    let scan = Scan::begin(alloc, edges, window, asked)?;
    joined(alloc, scan)
}

// The same, as long as that goes over no more edges than this.
fn plain_within<F: Fn(i128, i128) -> bool + Drop>(
    alloc: Global,
    edges: Vec<Edge>,
    window: Window,
    rule: &Rule<F>,
    most: u64,
) -> Result<Tried, NoMemory>
    requires rule { IsRule (F.pre rule.now) (F.post rule.now) }
    requires balanced { IsBalanced edges.items window }
    ensures tried { IfOk result (IsTried (F.post rule.now) edges.items window) }
    ensures long { IfOk result (IsGivenUpFor most) }
{
    let asked = Rule::new(
        |a: i128, b: i128| -> bool
            requires rule { IsRule (F.pre rule.now) (F.post rule.now) }
            requires first { IsWinding a }
            requires second { IsWinding b }
            ensures { IsTrue result ↔ Takes (F.post rule.entry.now) a b }
        { rule.asks(a, b) },
    );
    let scan = Scan::begin(alloc, edges, window, asked)?;
    joined_within(alloc, scan, most)
}

// Without columns, where that is likely to be cheap, and as long as it is.
fn tried_plain<F: Fn(i128, i128) -> bool + Drop>(
    alloc: Global,
    edges: Vec<Edge>,
    window: Window,
    rule: &Rule<F>,
) -> Result<Tried, NoMemory>
    requires rule { IsRule (F.pre rule.now) (F.post rule.now) }
    requires balanced { IsBalanced edges.items window }
    ensures { IfOk result (IsTried (F.post rule.now) edges.items window) }
{
    match plain_budget(alloc, edges.as_slice())? {
        Some(most) => plain_within(alloc, edges, window, rule, most),
        None => Ok(Tried::GivenUp(edges, 0)),
    }
}

// The joined list without columns. It is given up where that goes over more edges than this.
fn plain_unless<F: Fn(i128, i128) -> bool + Drop>(
    alloc: Global,
    edges: Vec<Edge>,
    window: Window,
    rule: &Rule<F>,
    most: u64,
) -> Result<Swept, Halt>
    requires rule { IsRule (F.pre rule.now) (F.post rule.now) }
    requires balanced { IsBalanced edges.items window }
    ensures swept { IfOk result (λ swept. IsSwept (F.post rule.now) edges.items window swept.traps.items) }
    ensures long { IfErr result (λ halt. halt ≡ Long → most < 2 ^ 64 - 1) }
{
    match plain_within(alloc, edges, window, rule, most)? {
        Tried::Whole(swept) => Ok(swept),
        Tried::GivenUp(_rest, _walked) => Err(Halt::Long),
    }
}

/// The joined list, swept in the columns between these cuts, whatever they are. It is given up where they go over more
/// edges than this, and some more.
pub(crate) fn swept_at<F: Fn(i128, i128) -> bool + Drop>(
    alloc: Global,
    edges: Vec<Edge>,
    window: Window,
    rule: &Rule<F>,
    cuts: &[Cut],
    most: u64,
) -> Result<Swept, Halt>
    requires rule { IsRule (F.pre rule.now) (F.post rule.now) }
    requires balanced { IsBalanced edges.items window }
    ensures swept { IfOk result (λ swept. IsSwept (F.post rule.now) edges.items window swept.traps.items) }
    ensures long { IfErr result (λ halt. halt ≡ Long → most < 2 ^ 64 - 1) }
{
    if cuts.is_empty() {
        return plain_unless(alloc, edges, window, rule, most);
    }
    let sewn = swept_columns(alloc, edges, window, rule, cuts, most)?;
    let whole = joined_seams(alloc, sewn, window, cuts, most)?;
    Ok(whole)
}

// In columns, between cuts that are chosen by the edges. Where edges that lean cross these often, by a sweep that looks only
// where something happens.
fn swept_by_need<F: Fn(i128, i128) -> bool + Drop>(
    alloc: Global,
    edges: Vec<Edge>,
    window: Window,
    rule: Rule<F>,
    most: u64,
) -> Result<Swept, Halt>
    requires rule { IsRule (F.pre rule) (F.post rule) }
    requires balanced { IsBalanced edges.items window }
    ensures swept { IfOk result (λ swept. IsSwept (F.post rule) edges.items window swept.traps.items) }
    ensures long { IfErr result (λ halt. halt ≡ Long → most < 2 ^ 64 - 1) }
{
    let cuts = chosen_cuts(alloc, edges.as_slice())?;
    if are_often_crossed(edges.as_slice(), cuts.as_slice()) {
        let traps = plane_sweep::swept(alloc, edges, window, rule)?;
        return Ok(Swept { traps, walked: 0 });
    }
    swept_at(alloc, edges, window, &rule, cuts.as_slice(), most)
}

// The joined list by the sweep that suits the edges, with the count of edges gone over. It is given up where the columns go
// over more edges than this, and some more.
fn swept_unless<F: Fn(i128, i128) -> bool + Drop>(
    alloc: Global,
    edges: Vec<Edge>,
    window: Window,
    rule: Rule<F>,
    most: u64,
) -> Result<Swept, Halt>
    requires rule { IsRule (F.pre rule) (F.post rule) }
    requires balanced { IsBalanced edges.items window }
    ensures swept { IfOk result (λ swept. IsSwept (F.post rule) edges.items window swept.traps.items) }
    ensures long { IfErr result (λ halt. halt ≡ Long → most < 2 ^ 64 - 1) }
{
    if are_long(edges.as_slice()) {
        let traps = plane_sweep::swept(alloc, edges, window, rule)?;
        return Ok(Swept { traps, walked: 0 });
    }
    let mut edges = edges;
    cut_to(&mut edges, window);
    match tried_plain(alloc, edges, window, &rule)? {
        Tried::Whole(swept) => Ok(swept),
        Tried::GivenUp(rest, before) => {
            let mut again = swept_by_need(alloc, rest, window, rule, most)?;
            again.walked = again.walked.saturating_add(before);
            Ok(again)
        }
    }
}

/// The joined list of the window's tiles that the rule takes. It is refused only where memory runs out. In each row of the
/// window each operand has as many edges that go up as edges that go down.
pub fn swept<F: Fn(i128, i128) -> bool + Drop>(
    alloc: Global,
    edges: Vec<Edge>,
    window: Window,
    rule: Rule<F>,
) -> Result<Vec<Trap>, NoMemory>
    requires rule { IsRule (F.pre rule) (F.post rule) }
    requires balanced { IsBalanced edges.items window }
    ensures { IfOk result (λ traps. IsSwept (F.post rule) edges.items window traps.items) }
{
    Ok(swept_counted(alloc, edges, window, rule)?.traps)
}

/// The same list as of `swept`, with the count of edges gone over: in the columns, at the seams, and in a sweep of the whole
/// window that was given up.
pub fn swept_counted<F: Fn(i128, i128) -> bool + Drop>(
    alloc: Global,
    edges: Vec<Edge>,
    window: Window,
    rule: Rule<F>,
) -> Result<Swept, NoMemory>
    requires rule { IsRule (F.pre rule) (F.post rule) }
    requires balanced { IsBalanced edges.items window }
    ensures { IfOk result (λ swept. IsSwept (F.post rule) edges.items window swept.traps.items) }
{
    match swept_unless(alloc, edges, window, rule, u64::MAX) {
        Ok(swept) => Ok(swept),
        Err(Halt::NoMemory) => Err(NoMemory),
        Err(Halt::Long) => unreachable!(),
    }
}

/// The same list as of `swept`, as long as its columns go over no more edges than about so many: None where it is given up,
/// and the edges are lost. With the greatest number it never is.
pub fn swept_within<F: Fn(i128, i128) -> bool + Drop>(
    alloc: Global,
    edges: Vec<Edge>,
    window: Window,
    rule: Rule<F>,
    most: u64,
) -> Result<Option<Vec<Trap>>, NoMemory>
    requires rule { IsRule (F.pre rule) (F.post rule) }
    requires balanced { IsBalanced edges.items window }
    ensures swept { IfOk result (λ answer. IfSome answer (λ traps. IsSwept (F.post rule) edges.items window traps.items)) }
    ensures given_up { IfOk result (λ answer. IfNone answer (most < 2 ^ 64 - 1)) }
{
    match swept_unless(alloc, edges, window, rule, most) {
        Ok(swept) => Ok(Some(swept.traps)),
        Err(Halt::NoMemory) => Err(NoMemory),
        Err(Halt::Long) => Ok(None),
    }
}
