//! The lowest tile that a rule takes.
ghost use Rattle.std.specs.Prelude.{ℤ, pos, negsuc, ◌≤ℤ◌, ◌≤◌, ◌≡◌, ◌⊎◌, ◌++◌, false, [], ◌∷◌, Some, IsTrue, IfOk, IfSome, IfNone, List, All};
ghost use Rattle.half_grid.specs.Edges.{EdgeParts, edges_winding, has_on_right, is_of};
ghost use Rattle.half_grid.specs.Trapezoids.{Trapezoid, IsShot};
ghost use Rattle.half_grid.specs.declared.plane.Tile.{Tile as AnyTile};
ghost use Rattle.scan_line.specs.Rules.{IsRule};
ghost use Rattle.scan_line.specs.Runs.{IsBalanced};
ghost use Rattle.trap_join.specs.Joins.{IsTakenIn};
ghost use Rattle.active_lines.specs.ActiveLists.{items};
ghost use Rattle.plane_sweep.specs.Lowest.{IsLowest, TakesNone, IsSpotOf, IsSpotIn, IsFirstIn, IsFirstOfAll, IsNoLater, first_spot, open_up_to};
ghost use Rattle.plane_sweep.specs.PlaneSweeps.{HasComeTo, left_in};

use crate::event::SortedEvents;
use crate::progress::Progress;
use active_lines::{ActiveLine, ActiveLines};
use geo_stream::NoMemory;
use half_grid::{Edge, Operand, Tile, Trap, Window, place_of, tile_at};
use scan_line::Rule;
use std::alloc::Global;
use std::collections::VecDeque;

/// A tile and its windings.
#[derive(Clone, Copy, Debug, PartialEq, Eq)]
pub struct LowestTile {
    /// The tile.
    pub tile: Tile,
    /// The winding of operand A there.
    pub a: i128,
    /// The winding of operand B there.
    pub b: i128,
}

/// A tile by its row and its number there.
#[derive(Clone, Copy)]
pub(crate) struct Spot {
    pub(crate) row: i64,
    pub(crate) number: i64,
}

// The leftmost tile of the trapezoid's lowest row.
fn first_spot(trap: &Trap) -> Spot
    ensures { result ≡ first_spot trap.now }
{
    Spot {
        row: trap.y0(),
        number: place_of(trap.left(), trap.y0()),
    }
}

// Whether the first is lower, or in one row with the second and no further right.
fn is_no_later(first: Spot, second: Spot) -> bool
    ensures yes { IsTrue result → IsNoLater first second }
    ensures no { result ≡ false → IsNoLater second first }
{
    if first.row < second.row {
        return true;
    }
    if second.row < first.row {
        return false;
    }
    first.number <= second.number
}

// The lower of two.
fn lower(found: Option<Spot>, spot: Spot) -> Spot
    ensures either { (result ≡ spot) ⊎ (found ≡ Some result) }
    ensures new { IsNoLater result spot }
    ensures old { IfSome found (IsNoLater result) }
{
    let Some(found) = found else {
        return spot;
    };
    if is_no_later(found, spot) {
        return found;
    }
    spot
}

// Whether two operands are one.
fn is_of(operand: Operand, other: Operand) -> bool
    ensures { result ≡ is_of operand other }
{
    match (operand, other) {
        (Operand::A, Operand::A) => true,
        (Operand::B, Operand::B) => true,
        (Operand::A, Operand::B) => false,
        (Operand::B, Operand::A) => false,
    }
}

// Whether the edge spans the row and has the tile on its right.
fn is_left_of(edge: &Edge, spot: Spot) -> bool
    ensures { (t : AnyTile) → IsSpotOf spot t → result ≡ has_on_right edge.now t }
{
    if spot.row < edge.y0() || edge.y1() <= spot.row {
        return false;
    }
    if spot.number < place_of(edge.line(), spot.row) {
        return false;
    }
    true
}

// What the edge adds to the operand's winding of the tile.
fn added(edge: &Edge, operand: Operand, spot: Spot) -> i64
    ensures adds { (t : AnyTile) → IsSpotOf spot t → result ≡ edges_winding operand (edge.now ∷ []) t }
    ensures low { negsuc 0 ≤ℤ result }
    ensures high { result ≤ℤ pos 1 }
{
    if !is_of(operand, edge.operand()) {
        return 0;
    }
    if !is_left_of(edge, spot) {
        return 0;
    }
    if edge.is_up() { 1 } else { -1 }
}

// The operand's winding of the tile.
fn winding_at(edges: &[Edge], operand: Operand, spot: Spot) -> i128
    ensures { (t : AnyTile) → IsSpotOf spot t → result ≡ edges_winding operand edges.now t }
{
    let mut sum: i128 = 0;
    let mut left = edges;
    while let Some((edge, rest)) = left.split_first() {
        sum += i128::from(added(edge, operand, spot));
        left = rest;
    }
    sum
}

// The lower of what was found and of the trapezoid that is open at the line, where one is.
fn lower_at(found: Option<Spot>, line: ActiveLine) -> Option<Spot>
    requires { (top : ℤ) × All IsShot (open_up_to top (line ∷ [])) }
    ensures { (traps : List Trapezoid) (top : ℤ) → IsFirstOfAll traps found → IsFirstOfAll (traps ++ open_up_to top (line ∷ [])) result }
{
    let Some(opened) = line.opened else {
        return found;
    };
    Some(lower(
        found,
        Spot {
            row: opened.since,
            number: place_of(line.line, opened.since),
        },
    ))
}

/// What was found, and how many stops are passed before the next look at all lines.
#[derive(Clone, Copy)]
struct Look {
    found: Option<Spot>,
    stops: u64,
}

// The lowest of what was found and of the open trapezoids.
fn lowest_open(lines: &mut ActiveLines, found: Option<Spot>) -> Look
    requires { (top : ℤ) × All IsShot (open_up_to top (items lines.old)) }
    ensures same { items lines.new ≡ items lines.old }
    ensures lowest { (traps : List Trapezoid) (top : ℤ) → IsFirstOfAll traps found → IsFirstOfAll (traps ++ open_up_to top (items lines.old)) result.found }
{
    lines.rewind();
    let mut look = Look { found, stops: 0 };
    while let Some(line) = lines.first() {
        look = Look {
            found: lower_at(look.found, line),
            stops: look.stops.saturating_add(1),
        };
        lines.pass(line);
    }
    look
}

// The lowest of those that wait. None waits after that.
fn lowest_waiting(waiting: &mut VecDeque<Trap>) -> Option<Spot>
    ensures lowest { IsFirstOfAll waiting.old.items result }
    ensures none { waiting.new.items ≡ [] }
{
    let mut found = None;
    while let Some(trap) = waiting.pop_front() {
        found = Some(lower(found, first_spot(&trap)));
    }
    found
}

// Looks at all that ended or is open, where no more stops are to be passed before.
fn look_at<F: Fn(i128, i128) -> bool>(
    progress: &mut Progress<SortedEvents>,
    rule: &Rule<F>,
    stops: u64,
) -> Look
    requires rule { IsRule (F.pre rule.now) (F.post rule.now) }
    requires come { (edges : List EdgeParts) × HasComeTo (λ events. events) (F.post rule.now) edges progress.old [] }
    ensures found { (edges : List EdgeParts) → HasComeTo (λ events. events) (F.post rule.now) edges progress.old [] → IfSome result.found (IsFirstIn (IsTakenIn (F.post rule.now) edges progress.old.window)) }
    ensures none { (edges : List EdgeParts) → HasComeTo (λ events. events) (F.post rule.now) edges progress.old [] → IfNone result.found (HasComeTo (λ events. events) (F.post rule.now) edges progress.new []) }
    ensures fewer { left_in progress.new ≤ left_in progress.old }
    ensures window { progress.new.window ≡ progress.old.window }
{
    if 0 < stops {
        return Look {
            found: None,
            stops: stops - 1,
        };
    }
    let found = lowest_waiting(&mut progress.front.waiting);
    if progress.window.y1() < progress.from.y {
        return Look { found, stops: 0 };
    }
    lowest_open(&mut progress.front.lines, found)
}

// The lowest tile that the rule takes, leftmost in its row. It ends soon after the first trapezoid is open: all lines are
// looked at again after as many stops as there were lines, so all looks together take no longer than the stops.
fn lowest_spot<F: Fn(i128, i128) -> bool>(
    progress: &mut Progress<SortedEvents>,
    rule: &Rule<F>,
) -> Result<Option<Spot>, NoMemory>
    requires rule { IsRule (F.pre rule.now) (F.post rule.now) }
    requires come { (edges : List EdgeParts) × HasComeTo (λ events. events) (F.post rule.now) edges progress.old [] }
    ensures { (edges : List EdgeParts) → HasComeTo (λ events. events) (F.post rule.now) edges progress.old [] → IfOk result (IsSpotIn (IsTakenIn (F.post rule.now) edges progress.old.window)) }
{
    let mut stops = 0;
    loop {
        let look = look_at(progress, rule, stops);
        if let Some(spot) = look.found {
            return Ok(Some(spot));
        }
        stops = look.stops;
        if !progress.advance(rule)? {
            return Ok(lowest_waiting(&mut progress.front.waiting));
        }
    }
}

/// The lowest tile of the window that the rule takes, leftmost in its row, with its windings. None exactly where the rule
/// takes no tile of the window. It is refused only where memory runs out. In each row of the window each operand has as many
/// edges that go up as edges that go down.
///
/// Where it takes none, that takes as long as a sweep of the whole window. Else the sweep ends soon after it comes to the
/// tile, and then the edges are gone over once for each operand.
pub fn lowest<F: Fn(i128, i128) -> bool + Drop>(
    alloc: Global,
    edges: Vec<Edge>,
    window: Window,
    rule: Rule<F>,
) -> Result<Option<LowestTile>, NoMemory>
    requires rule { IsRule (F.pre rule) (F.post rule) }
    requires balanced { IsBalanced edges.items window }
    ensures found { IfOk result (λ answer. IfSome answer (IsLowest (F.post rule) edges.items window)) }
    ensures none { IfOk result (λ answer. IfNone answer (TakesNone (F.post rule) edges.items window)) }
{
    let mut progress = Progress::begin(alloc, edges.as_slice(), window)?;
    let Some(spot) = lowest_spot(&mut progress, &rule)? else {
        return Ok(None);
    };
    Ok(Some(LowestTile {
        tile: tile_at(spot.row, spot.number),
        a: winding_at(edges.as_slice(), Operand::A, spot),
        b: winding_at(edges.as_slice(), Operand::B, spot),
    }))
}
