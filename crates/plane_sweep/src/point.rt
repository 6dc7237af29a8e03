//! A point of a stop: the lines through it give way to those of the row above.
ghost use Rattle.std.specs.Prelude.{pos, ◌≡◌, ◌↔◌, ◌+ℤ◌, ◌++◌, ◌∷◌, [], Some, None, IfOk, OnOk, IsTrue, List, drop};
ghost use Rattle.half_grid.specs.Lines.{x_on};
ghost use Rattle.half_grid.specs.Edges.{EdgeParts};
ghost use Rattle.half_grid.specs.Reach.{IsWithinReach, IsPointWithinReach};
ghost use Rattle.active_lines.specs.ActiveLists.{items, first_of, BeginsOn};
ghost use Rattle.active_lines.specs.declared.item.ActiveLine.{ActiveLine as AnActiveLine};
ghost use Rattle.row_lists.specs.RowLists.{AreAlike};
ghost use Rattle.row_lists.specs.RowRuns.{last_windings};
ghost use Rattle.row_lists.specs.Halfway.{PassAt};
ghost use Rattle.scan_line.specs.Rules.{IsRule};
ghost use Rattle.plane_sweep.specs.WayRuns.{PassesOver, CrossesRuns, PassesRun};
ghost use Rattle.plane_sweep.specs.Stops.{IsAt, AreWithin, AreNear, PassesLines, PassedLines, PassedEvents, PassesAlone};

use crate::bundle::{bundle_of, difference, fill, shut, sum};
use crate::entry::{Runs, pass_runs};
use crate::event::{EventSource, take_events};
use crate::runs::Level;
use active_lines::{ActiveLine, ActiveLines, Windings};
use geo_stream::NoMemory;
use half_grid::{Point, Trap, x_at};
use scan_line::Rule;
use std::alloc::Global;
use std::collections::VecDeque;

/// The lines of a sweep, each with the trapezoid that is open there, and the trapezoids that ended.
#[derive(Drop)]
pub(crate) struct Front {
    pub(crate) alloc: Global,
    pub(crate) lines: ActiveLines,
    /// What ended and waits to be given, in order.
    pub(crate) waiting: VecDeque<Trap>,
    // what ended at this stop so far
    pub(crate) ended: VecDeque<Trap>,
    // the lines through a point below and above it, and those above it with what is open there
    pub(crate) below: Vec<ActiveLine>,
    pub(crate) above: Vec<ActiveLine>,
    pub(crate) opened: Vec<ActiveLine>,
}

impl Front {
    /// With no lines yet, and nothing that waits.
    pub(crate) fn new(alloc: Global) -> Front
        ensures lines { items result.lines ≡ [] }
        ensures waiting { result.waiting.items ≡ [] }
    {
        Front {
            alloc,
            lines: ActiveLines::new(alloc),
            waiting: VecDeque::new(alloc),
            ended: VecDeque::new(alloc),
            below: Vec::new(alloc),
            above: Vec::new(alloc),
            opened: Vec::new(alloc),
        }
    }
}

/// The windings at a place of a stop, in the row below it and in the row above.
#[derive(Clone, Copy)]
pub(crate) struct Sides {
    pub(crate) below: Windings,
    pub(crate) above: Windings,
}

/// A place between two points of a stop.
#[derive(Clone, Copy)]
pub(crate) struct Gap {
    /// The windings there.
    pub(crate) sides: Sides,
    /// The runs there.
    pub(crate) runs: Runs,
}

// Whether the line passes through the point.
fn passes(line: &ActiveLine, point: Point) -> bool
    requires y { IsWithinReach point.y }
    requires x { IsWithinReach (x_on line.now.line point.y) }
    ensures { IsTrue result ↔ (x_on line.now.line point.y ≡ point.x) }
{
    x_at(line.line, point.y) == point.x
}

// Takes the lines through the point out of the list.
fn take_through(
    lines: &mut ActiveLines,
    taken: &mut Vec<ActiveLine>,
    point: Point,
) -> Result<(), NoMemory>
    requires y { IsWithinReach point.y }
    requires within { AreWithin point.y lines.old.after }
    ensures passes { OnOk result (PassesLines point.y point.x lines.old.after taken.new.items lines.new.after) }
    ensures before { OnOk result (lines.new.before ≡ lines.old.before) }
{
    taken.clear();
    while let Some(line) = lines.first() {
        if !passes(&line, point) {
            break;
        }
        taken.push(line)?;
        let _line = lines.take();
    }
    Ok(())
}

// The windings right of the lines.
fn right_of(lines: &[ActiveLine], left: Windings) -> Windings
    ensures { result ≡ last_windings left lines.now }
{
    match lines.split_last() {
        Some((line, _)) => line.windings,
        None => left,
    }
}

// Takes the lines through the point out of the list, and makes those of the row above by them and by the events there.
fn cross<E: EventSource>(
    front: &mut Front,
    events: &mut E,
    point: Point,
    left: Sides,
) -> Result<Sides, NoMemory>
    requires point { IsPointWithinReach point }
    requires is_at { (edges : List EdgeParts) × IsAt edges point.y point.x left.below left.above front.old.lines.before front.old.lines.after (E.left events.old) }
    ensures at { (edges : List EdgeParts) → IsAt edges point.y point.x left.below left.above front.old.lines.before front.old.lines.after (E.left events.old) → IfOk result (λ right. IsAt edges point.y (point.x +ℤ pos 1) right.below right.above (front.old.lines.before ++ front.new.above.items) front.new.lines.after (E.left events.new)) }
    ensures passes { OnOk result (PassesLines point.y point.x front.old.lines.after front.new.below.items front.new.lines.after) }
    ensures before { OnOk result (front.new.lines.before ≡ front.old.lines.before) }
    ensures near { OnOk result (AreNear front.new.above.items) }
    ensures through { OnOk result (PassAt point.y point.x front.new.above.items) }
    ensures sides { IfOk result (λ right. (right.below ≡ last_windings left.below front.new.below.items) × (right.above ≡ last_windings left.above front.new.above.items)) }
    ensures events { OnOk result (PassedEvents point.y point.x (E.left events.old) (E.left events.new)) }
    ensures ended { OnOk result (front.new.ended.items ≡ front.old.ended.items) }
    ensures waiting { OnOk result (front.new.waiting.items ≡ front.old.waiting.items) }
{
    take_through(&mut front.lines, &mut front.below, point)?;
    let bundle = bundle_of(front.below.as_slice(), left.below)?;
    let bundle = take_events(events, point, bundle)?;
    let above = fill(&mut front.above, point, bundle, left.above)?;
    let below = right_of(front.below.as_slice(), left.below);
    Ok(Sides { below, above })
}

// Puts the lines at the place.
fn put_all(alloc: Global, lines: &mut ActiveLines, put: &[ActiveLine]) -> Result<(), NoMemory>
    requires { AreNear put.now }
    ensures before { OnOk result (lines.new.before ≡ lines.old.before ++ put.now) }
    ensures after { OnOk result (lines.new.after ≡ lines.old.after) }
{
    for line in put {
        lines.put(alloc, *line)?;
    }
    Ok(())
}

// What becomes of the runs at the noted lines: those above are noted each with what is open there. Right of them the row above
// has the windings `beyond`. The answer is what the rows have right of them.
fn cross_runs<F: Fn(i128, i128) -> bool>(
    rule: &Rule<F>,
    front: &mut Front,
    level: Level,
    left: Gap,
    beyond: Windings,
) -> Result<Runs, NoMemory>
    requires { IsRule (F.pre rule.now) (F.post rule.now) }
    ensures alike { OnOk result (AreAlike front.old.lines.before front.new.lines.before) }
    ensures opened { OnOk result (AreAlike front.old.above.items front.new.opened.items) }
    ensures after { OnOk result (front.new.lines.after ≡ front.old.lines.after) }
    ensures runs { IfOk result (PassesOver (F.post rule.now) level.y left.sides.above beyond left.runs front.old front.new) }
    ensures waiting { OnOk result (front.new.waiting.items ≡ front.old.waiting.items) }
{
    let runs = pass_runs(
        rule,
        &mut front.lines,
        &mut front.ended,
        level,
        left.sides.above,
        beyond,
        left.runs,
        front.below.as_slice(),
        front.above.as_slice(),
        &mut front.opened,
    )?;
    Ok(runs)
}

/// Goes over a point: the lines through it are put in the order of the row above, with the events there, and what ends there
/// is put after what ended at the stop before. The answer is what the rows have right of it.
pub(crate) fn pass_point<F: Fn(i128, i128) -> bool, E: EventSource>(
    rule: &Rule<F>,
    front: &mut Front,
    events: &mut E,
    point: Point,
    left: Gap,
) -> Result<Gap, NoMemory>
    requires rule { IsRule (F.pre rule.now) (F.post rule.now) }
    requires point { IsPointWithinReach point }
    requires is_at { (edges : List EdgeParts) × IsAt edges point.y point.x left.sides.below left.sides.above front.old.lines.before front.old.lines.after (E.left events.old) }
    ensures at { (edges : List EdgeParts) → IsAt edges point.y point.x left.sides.below left.sides.above front.old.lines.before front.old.lines.after (E.left events.old) → IfOk result (λ right. IsAt edges point.y (point.x +ℤ pos 1) right.sides.below right.sides.above front.new.lines.before front.new.lines.after (E.left events.new)) }
    ensures passes { OnOk result (PassedLines point.y point.x front.old.lines.after front.new.lines.after) }
    ensures events { OnOk result (PassedEvents point.y point.x (E.left events.old) (E.left events.new)) }
    ensures runs { IfOk result (CrossesRuns (F.post rule.now) point.y point.x left front.old.lines front.old.ended.items front.new.lines front.new.ended.items) }
    ensures waiting { OnOk result (front.new.waiting.items ≡ front.old.waiting.items) }
{
    let sides = cross(front, events, point, left.sides)?;
    let runs = cross_runs(rule, front, Level { y: point.y }, left, sides.above)?;
    put_all(front.alloc, &mut front.lines, front.opened.as_slice())?;
    Ok(Gap { sides, runs })
}

// Notes the line as the only one through its point, in the row below and, with other windings, in the row above.
fn note_line(front: &mut Front, line: ActiveLine, above: Windings) -> Result<(), NoMemory>
    ensures below { OnOk result (front.new.below.items ≡ line ∷ []) }
    ensures above { OnOk result (front.new.above.items ≡ (record { line = line.line; windings = above; opened = None }) ∷ []) }
    ensures lines { OnOk result (front.new.lines ≡ front.old.lines) }
    ensures ended { OnOk result (front.new.ended.items ≡ front.old.ended.items) }
    ensures waiting { OnOk result (front.new.waiting.items ≡ front.old.waiting.items) }
{
    front.below.clear();
    front.below.push(line)?;
    front.above.clear();
    front.above.push(shut(line.line, above))?;
    Ok(())
}

// Passes the line after the place, which changes to the only one of these.
fn pass_one(lines: &mut ActiveLines, one: &[ActiveLine])
    requires { (l : AnActiveLine) × (one.now ≡ l ∷ []) × BeginsOn l.line lines.old.after }
    ensures before { lines.new.before ≡ lines.old.before ++ one.now }
    ensures after { lines.new.after ≡ drop 1 lines.old.after }
{
    lines.pass(one[0]);
}

/// Goes over the line after the place, which alone passes through its point, without events. What ends there is put after
/// what ended at the stop before. The answer is what the rows have right of it.
pub(crate) fn pass_line<F: Fn(i128, i128) -> bool>(
    rule: &Rule<F>,
    front: &mut Front,
    level: Level,
    left: Gap,
    line: ActiveLine,
) -> Result<Gap, NoMemory>
    requires rule { IsRule (F.pre rule.now) (F.post rule.now) }
    requires first { first_of front.old.lines.after ≡ Some line }
    ensures at { IfOk result (λ right. PassesAlone level.y left.sides line front.old.lines front.new.lines right.sides) }
    ensures after { OnOk result (front.old.lines.after ≡ line ∷ front.new.lines.after) }
    ensures runs { IfOk result (PassesRun (F.post rule.now) level.y left line front.old.lines front.old.ended.items front.new.lines front.new.ended.items) }
    ensures waiting { OnOk result (front.new.waiting.items ≡ front.old.waiting.items) }
{
    let above = sum(
        left.sides.above,
        difference(line.windings, left.sides.below)?,
    )?;
    note_line(front, line, above)?;
    let runs = cross_runs(rule, front, level, left, above)?;
    pass_one(&mut front.lines, front.opened.as_slice());
    Ok(Gap {
        sides: Sides {
            below: line.windings,
            above,
        },
        runs,
    })
}
