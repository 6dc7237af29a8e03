//! The lowest tile that a rule takes, looked for in one column after another.
ghost use Rattle.std.specs.Prelude.{◌≡◌, ◌<ℤ◌, ◌≤ℤ◌, ◌++◌, ◌+◌, ◌^◌, pos, negsuc, List, [], None, filter, All, IfOk, IfSome, IfNone};
ghost use Rattle.half_grid.specs.Edges.{EdgeParts, IsEdge};
ghost use Rattle.half_grid.specs.Reach.{IsWithinReach};
ghost use Rattle.scan_line.specs.Rules.{IsRule};
ghost use Rattle.scan_line.specs.Runs.{IsBalanced};
ghost use Rattle.plane_sweep.specs.Lowest.{IsLowest, TakesNone};
ghost use Rattle.column_sweep.specs.Looking.{rows_below, begins_below, first_of, AddUpIn, IsLookedTo, IsFoundLeftOf, IsFirstTaken};
ghost use Rattle.column_sweep.specs.Parts.{LiesRight};

use crate::columns::{before_all, is_next, know_edges};
use crate::cuts::{Cut, are_often_crossed, chosen_cuts};
use crate::dealing::sort_for_cuts;
use crate::lengths::are_long;
use crate::lowest_tile::lowest_within;
use crate::parting::parted;
use crate::waiting::split_before;
use geo_stream::NoMemory;
use half_grid::{Edge, Window};
use plane_sweep::LowestTile;
use scan_line::Rule;
use std::alloc::Global;

/// What is known left of a cut: the lowest tile there, if any. And the edges of what is right of it, apart from those
/// that wait, as far as they begin below that tile.
#[derive(Drop)]
struct Looked {
    from: Cut,
    edges: Vec<Edge>,
    found: Option<LowestTile>,
}

// The rows below the tile that was found, of all that the window has: further right no other tile comes before it.
fn rows_below(window: Window, found: Option<LowestTile>) -> Window
    requires { IfSome found (λ lowest. window.y0 ≤ℤ lowest.tile.j) }
    ensures { result ≡ rows_below window found }
{
    match found {
        Some(lowest) => Window::new(window.y0(), lowest.tile.j).unwrap(),
        None => window,
    }
}

// The tile that was found below all others, if any, else the one from before.
fn first_of(lower: Option<LowestTile>, before: Option<LowestTile>) -> Option<LowestTile>
    ensures { result ≡ first_of lower before }
{
    match lower {
        Some(lowest) => Some(lowest),
        None => before,
    }
}

// Whether the edge begins below the top of the rows.
fn begins_below(edge: &Edge, rows: Window) -> bool
    ensures { result ≡ begins_below rows edge.now }
{
    edge.y0() < rows.y1()
}

// Those of the edges that begin below the top of the rows.
fn those_below(alloc: Global, edges: &[Edge], rows: Window) -> Result<Vec<Edge>, NoMemory>
    ensures { IfOk result (λ some. some.items ≡ filter (begins_below rows) edges.now) }
{
    let mut some = Vec::new(alloc);
    for edge in edges {
        if begins_below(edge, rows) {
            some.push(*edge)?;
        }
    }
    Ok(some)
}

// The edges without those that have none of the rows, unless the rows are those of the whole window.
fn lower_edges(
    alloc: Global,
    edges: Vec<Edge>,
    rows: Window,
    window: Window,
) -> Result<Vec<Edge>, NoMemory>
    ensures { IfOk result (λ some. AddUpIn rows some.items edges.items) }
{
    if rows.y1() == window.y1() {
        return Ok(edges);
    }
    let some = those_below(alloc, edges.as_slice(), rows)?;
    Ok(some)
}

// One column further, up to the cut. None of the edges that wait lies left of it.
fn looked_column<F: Fn(i128, i128) -> bool + Drop>(
    alloc: Global,
    looked: Looked,
    window: Window,
    rule: &Rule<F>,
    cut: Cut,
) -> Result<Looked, NoMemory>
    requires rule { IsRule (F.pre rule.now) (F.post rule.now) }
    requires found { IfSome looked.found (λ lowest. window.y0 ≤ℤ lowest.tile.j) }
    requires cut { IsWithinReach cut.x }
    ensures from { IfOk result (λ next. next.from ≡ cut) }
    ensures looked { (edges later : List EdgeParts) → All (LiesRight cut.x) later → looked.from.x <ℤ cut.x → IsLookedTo (F.post rule.now) edges window looked.from.x (looked.edges.items ++ later) looked.found
        → IfOk result (λ next. IsLookedTo (F.post rule.now) edges window cut.x (next.edges.items ++ later) next.found) }
{
    let rows = rows_below(window, looked.found);
    let edges = lower_edges(alloc, looked.edges, rows, window)?;
    let parts = parted(alloc, edges.as_slice(), &[], cut)?;
    let lower = lowest_within(alloc, parts.own, rows, rule)?;
    Ok(Looked {
        from: cut,
        edges: parts.beyond,
        found: first_of(lower, looked.found),
    })
}

// The last column, with the edges that wait.
fn finish<F: Fn(i128, i128) -> bool + Drop>(
    alloc: Global,
    looked: Looked,
    later: &[Edge],
    window: Window,
    rule: &Rule<F>,
) -> Result<Option<LowestTile>, NoMemory>
    requires rule { IsRule (F.pre rule.now) (F.post rule.now) }
    requires found { IfSome looked.found (λ lowest. window.y0 ≤ℤ lowest.tile.j) }
    requires balanced { IsBalanced (looked.edges.items ++ later.now) (rows_below window looked.found) }
    ensures { (edges : List EdgeParts) → looked.from.x <ℤ pos (2 ^ 44 + 1) → All IsEdge edges → IsBalanced edges window → IsLookedTo (F.post rule.now) edges window looked.from.x (looked.edges.items ++ later.now) looked.found
        → IfOk result (IsFoundLeftOf (F.post rule.now) edges window (pos (2 ^ 44 + 1))) }
{
    let rows = rows_below(window, looked.found);
    let mut edges = looked.edges;
    edges.extend_from_slice(later)?;
    let own = lower_edges(alloc, edges, rows, window)?;
    let lower = lowest_within(alloc, own, rows, rule)?;
    Ok(first_of(lower, looked.found))
}

fn begin(alloc: Global) -> Looked
    ensures from { result.from.x ≡ negsuc (2 ^ 44) }
    ensures edges { result.edges.items ≡ [] }
    ensures found { result.found ≡ None }
{
    Looked {
        from: before_all(),
        edges: Vec::new(alloc),
        found: None,
    }
}

// The lowest tile that the rule takes, looked for in the columns between the cuts. A cut that isn't right of those
// before it, or is beyond reach, is left out.
fn looked_columns<F: Fn(i128, i128) -> bool + Drop>(
    alloc: Global,
    edges: Vec<Edge>,
    window: Window,
    rule: &Rule<F>,
    cuts: &[Cut],
) -> Result<Option<LowestTile>, NoMemory>
    requires rule { IsRule (F.pre rule.now) (F.post rule.now) }
    requires balanced { IsBalanced edges.items window }
    ensures { IfOk result (IsFirstTaken (F.post rule.now) edges.items window) }
{
    let mut waiting = edges;
    sort_for_cuts(&mut waiting, cuts);
    know_edges(waiting.as_slice());
    let mut later = waiting.as_slice();
    let mut looked = begin(alloc);
    for cut in cuts {
        if !is_next(looked.from, *cut) {
            continue;
        }
        let (taken, rest) = split_before(later, *cut);
        looked.edges.extend_from_slice(taken)?;
        later = rest;
        looked = looked_column(alloc, looked, window, rule, *cut)?;
    }
    finish(alloc, looked, later, window, rule)
}

/// The lowest tile that a lent rule takes, looked for in the columns between these cuts, whatever they are.
pub(crate) fn lowest_at<F: Fn(i128, i128) -> bool + Drop>(
    alloc: Global,
    edges: Vec<Edge>,
    window: Window,
    rule: &Rule<F>,
    cuts: &[Cut],
) -> Result<Option<LowestTile>, NoMemory>
    requires rule { IsRule (F.pre rule.now) (F.post rule.now) }
    requires balanced { IsBalanced edges.items window }
    ensures { IfOk result (IsFirstTaken (F.post rule.now) edges.items window) }
{
    if cuts.is_empty() {
        return lowest_within(alloc, edges, window, rule);
    }
    looked_columns(alloc, edges, window, rule, cuts)
}

/// The lowest tile of the window that the rule takes, leftmost in its row, with its windings. None exactly where the
/// rule takes no tile of the window. Only memory that runs out refuses it. In each row of the window each operand has
/// as many edges that go up as edges that go down.
///
/// Each column is swept from below, and only below the lowest tile that another one has. So above the first column's
/// tile nothing is looked at any more. Where edges that lean cross the cuts often, or long shapes stand side by side,
/// `plane_sweep` looks for it.
pub fn lowest<F: Fn(i128, i128) -> bool + Drop>(
    alloc: Global,
    edges: Vec<Edge>,
    window: Window,
    rule: Rule<F>,
) -> Result<Option<LowestTile>, NoMemory>
    requires rule { IsRule (F.pre rule) (F.post rule) }
    requires balanced { IsBalanced edges.items window }
    ensures found { IfOk result (λ answer. IfSome answer (IsLowest (F.post rule) edges.items window)) }
    ensures none { IfOk result (λ answer. IfNone answer (TakesNone (F.post rule) edges.items window)) }
{
    if are_long(edges.as_slice()) {
        return plane_sweep::lowest(alloc, edges, window, rule);
    }
    let cuts = chosen_cuts(alloc, edges.as_slice())?;
    if are_often_crossed(edges.as_slice(), cuts.as_slice()) {
        return plane_sweep::lowest(alloc, edges, window, rule);
    }
    lowest_at(alloc, edges, window, &rule, cuts.as_slice())
}
