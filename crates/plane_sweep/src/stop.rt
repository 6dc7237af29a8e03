//! A stop: from the row list of the row below it to that of the row above.
ghost use Rattle.std.specs.Prelude.{◌≡◌, ◌≢◌, ◌++◌, [], IfOk, OnOk, IsTrue, false, All, List};
ghost use Rattle.half_grid.specs.Edges.{EdgeParts};
ghost use Rattle.half_grid.specs.Lines.{x_on};
ghost use Rattle.half_grid.specs.Reach.{IsWithinReach};
ghost use Rattle.active_lines.specs.ActiveLists.{items};
ghost use Rattle.active_lines.specs.Neighbours.{SomeMeeting};
ghost use Rattle.active_lines.specs.Points.{AscendAt, IsBefore, IsNotBefore};
ghost use Rattle.row_lists.specs.RowLists.{AreAlike, no_windings};
ghost use Rattle.row_lists.specs.RowRuns.{last_windings};
ghost use Rattle.scan_line.specs.Rules.{IsRule};
ghost use Rattle.plane_sweep.specs.declared.entry.Runs.TheVariants.{Alike};
ghost use Rattle.plane_sweep.specs.StopSettles.{SettlesStop, SettlesRows};
ghost use Rattle.plane_sweep.specs.WayRuns.{PassesRunsOn, SettlesRuns, IsSettledGap, ComesToRuns};
ghost use Rattle.plane_sweep.specs.Stops.{AreWithin, nearer_of, IsEventPoint, IsMeetingPoint, IsBeforeEnd, IsAtEnd, IsPassedUpTo, HasEnded, PassesLinesOn, ComesTo, MeetsAfter, IsBelowStop, IsAboveStop};

use crate::entry::Runs;
use crate::event::EventSource;
use crate::point::{Front, Gap, Sides, pass_line, pass_point};
use crate::runs::Level;
use active_lines::{ActiveLine, ActiveLines, Opened, Windings};
use geo_stream::NoMemory;
use half_grid::{Point, x_at};
use scan_line::Rule;

/// The nearer of two points of the stop, where there are any.
fn nearer(p: Option<Point>, q: Option<Point>) -> Option<Point>
    ensures { result ≡ nearer_of p q }
{
    match (p, q) {
        (Some(p), Some(q)) => { if p.x <= q.x { Some(p) } else { Some(q) } }
        (Some(p), None) => Some(p),
        (None, q) => q,
    }
}

// The point of the next event, where that is at the stop.
fn next_event<E: EventSource>(events: &E, level: Level) -> Option<Point>
    ensures { IsEventPoint level.y (E.left events.now) result }
{
    let Some(event) = events.first() else {
        return None;
    };
    if event.y != level.y {
        return None;
    }
    Some(Point {
        x: event.x,
        y: level.y,
    })
}

// The point of the line at the stop.
fn point_of(line: &ActiveLine, level: Level) -> Point
    requires y { IsWithinReach level.y }
    requires x { IsWithinReach (x_on line.now.line level.y) }
    ensures x { result.x ≡ x_on line.now.line level.y }
    ensures y { result.y ≡ level.y }
{
    Point {
        x: x_at(line.line, level.y),
        y: level.y,
    }
}

// The point of the leftmost meeting at the stop, of those after the place.
fn next_meeting(lines: &ActiveLines, level: Level) -> Option<Point>
    requires y { IsWithinReach level.y }
    requires within { AreWithin level.y lines.now.after }
    ensures { IsMeetingPoint level.y lines.now.after result }
{
    let Some(line) = lines.first_meeting(level.y) else {
        return None;
    };
    Some(point_of(&line, level))
}

// The windings right of the lines before the place.
fn windings_here(lines: &ActiveLines) -> Windings
    ensures { result ≡ last_windings no_windings lines.now.before }
{
    match lines.last() {
        Some(line) => line.windings,
        None => Windings { a: 0, b: 0 },
    }
}

// No windings and no runs, as left of all lines.
fn none() -> Gap
    ensures below { result.sides.below ≡ no_windings }
    ensures above { result.sides.above ≡ no_windings }
    ensures runs { result.runs ≡ Alike }
{
    let none = Windings { a: 0, b: 0 };
    Gap {
        sides: Sides {
            below: none,
            above: none,
        },
        runs: Runs::Alike,
    }
}

// Goes to the point, over lines at which nothing changes.
fn go_to(lines: &mut ActiveLines, point: Point) -> Sides
    requires y { IsWithinReach point.y }
    requires ascend { AscendAt point.y (items lines.old) }
    ensures same { items lines.new ≡ items lines.old }
    ensures before { All (IsBefore point.x point.y) lines.new.before }
    ensures after { All (IsNotBefore point.x point.y) lines.new.after }
    ensures below { result.below ≡ last_windings no_windings lines.new.before }
    ensures above { result.above ≡ last_windings no_windings lines.new.before }
{
    lines.seek(point);
    let windings = windings_here(lines);
    Sides {
        below: windings,
        above: windings,
    }
}

// Whether the line passes left of where the way ends.
fn is_before_end(line: &ActiveLine, level: Level, end: Option<Point>) -> bool
    requires y { IsWithinReach level.y }
    requires x { IsWithinReach (x_on line.now.line level.y) }
    ensures yes { IsTrue result → IsBeforeEnd level.y end line.now }
    ensures no { result ≡ false → IsAtEnd level.y end line.now }
{
    let Some(end) = end else {
        return true;
    };
    point_of(line, level).x < end.x
}

// Whether the windings are the same below and above.
fn are_same(sides: Sides) -> bool
    ensures yes { IsTrue result → sides.below ≡ sides.above }
    ensures no { result ≡ false → sides.below ≢ sides.above }
{
    sides.below == sides.above
}

// Goes over lines whose windings change, up to where the way ends, or to where they don't change any more.
fn pass_lines<F: Fn(i128, i128) -> bool>(
    rule: &Rule<F>,
    front: &mut Front,
    level: Level,
    left: Gap,
    end: Option<Point>,
) -> Result<Gap, NoMemory>
    requires rule { IsRule (F.pre rule.now) (F.post rule.now) }
    requires y { IsWithinReach level.y }
    requires within { AreWithin level.y front.old.lines.after }
    ensures on { IfOk result (λ right. PassesLinesOn level.y end left.sides front.old.lines front.new.lines right.sides) }
    ensures passed { OnOk result (IsPassedUpTo level.y end front.old.lines.after front.new.lines.after) }
    ensures ended { IfOk result (λ right. AscendAt level.y front.old.lines.after → HasEnded level.y end right.sides front.new.lines.after) }
    ensures runs { IfOk result (PassesRunsOn (F.post rule.now) level.y end left front.old.lines front.old.ended.items front.new.lines front.new.ended.items) }
    ensures waiting { OnOk result (front.new.waiting.items ≡ front.old.waiting.items) }
{
    let mut gap = left;
    while !are_same(gap.sides) {
        let Some(line) = front.lines.first() else {
            return Ok(gap);
        };
        if !is_before_end(&line, level, end) {
            return Ok(gap);
        }
        gap = pass_line(rule, front, level, gap, line)?;
    }
    Ok(gap)
}

// Where the windings are the same below and above, so are the runs: what is open there ends where the run below does.
fn settle(lines: &mut ActiveLines, level: Level, left: Gap) -> Gap
    ensures sides { result.sides ≡ left.sides }
    ensures alike { AreAlike lines.old.before lines.new.before }
    ensures after { lines.new.after ≡ lines.old.after }
    ensures runs { SettlesRuns level.y left lines.old lines.new result }
{
    if !are_same(left.sides) {
        return left;
    }
    let settled = Gap {
        sides: left.sides,
        runs: Runs::Alike,
    };
    let Runs::Apart(apart) = left.runs else {
        return settled;
    };
    let Some(right) = apart else {
        return settled;
    };
    let _was = lines.reopen(Opened {
        right,
        since: level.y,
    });
    settled
}

// Goes over lines whose windings change, and settles the runs right of them.
fn pass_way<F: Fn(i128, i128) -> bool>(
    rule: &Rule<F>,
    front: &mut Front,
    level: Level,
    left: Gap,
    end: Option<Point>,
) -> Result<Gap, NoMemory>
    requires rule { IsRule (F.pre rule.now) (F.post rule.now) }
    requires y { IsWithinReach level.y }
    requires within { AreWithin level.y front.old.lines.after }
    ensures on { IfOk result (λ right. PassesLinesOn level.y end left.sides front.old.lines front.new.lines right.sides) }
    ensures passed { OnOk result (IsPassedUpTo level.y end front.old.lines.after front.new.lines.after) }
    ensures ended { IfOk result (λ right. AscendAt level.y front.old.lines.after → HasEnded level.y end right.sides front.new.lines.after) }
    ensures runs { IfOk result (PassesRunsOn (F.post rule.now) level.y end left front.old.lines front.old.ended.items front.new.lines front.new.ended.items) }
    ensures settled { IfOk result IsSettledGap }
    ensures waiting { OnOk result (front.new.waiting.items ≡ front.old.waiting.items) }
{
    let right = pass_lines(rule, front, level, left, end)?;
    Ok(settle(&mut front.lines, level, right))
}

// Comes to the point, where the lines up to it were passed.
fn come_to(lines: &mut ActiveLines, point: Point, left: Gap) -> Gap
    requires y { IsWithinReach point.y }
    requires ascend { AscendAt point.y (items lines.old) }
    ensures sides { ComesTo point left.sides lines.old lines.new result.sides }
    ensures runs { ComesToRuns point left lines.old lines.new result }
{
    if !are_same(left.sides) {
        return left;
    }
    Gap {
        sides: go_to(lines, point),
        runs: left.runs,
    }
}

// The leftmost meeting at the stop, before its first point.
fn first_meeting(lines: &ActiveLines, level: Level, meets: bool) -> Option<Point>
    requires y { IsWithinReach level.y }
    requires within { AreWithin level.y lines.now.after }
    requires meets { meets ≡ false → SomeMeeting lines.now.after level.y → ⊥ }
    ensures { IsMeetingPoint level.y lines.now.after result }
{
    if !meets {
        return None;
    }
    next_meeting(lines, level)
}

// The leftmost meeting of those after the place, where it was this one before the point.
fn meeting_after(lines: &ActiveLines, point: Point, meeting: Option<Point>) -> Option<Point>
    requires y { IsWithinReach point.y }
    requires within { AreWithin point.y lines.now.after }
    ensures { MeetsAfter point meeting lines.now.after result }
{
    let Some(at) = meeting else {
        return None;
    };
    if point.x < at.x {
        return meeting;
    }
    next_meeting(lines, Level { y: point.y })
}

// Goes over all points of the stop, from left to right. Where `meets` is false, no lines meet there.
fn pass_points<F: Fn(i128, i128) -> bool, E: EventSource>(
    front: &mut Front,
    events: &mut E,
    rule: &Rule<F>,
    level: Level,
    meets: bool,
) -> Result<(), NoMemory>
    requires rule { IsRule (F.pre rule.now) (F.post rule.now) }
    requires y { IsWithinReach level.y }
    requires below { (edges : List EdgeParts) × IsBelowStop edges level.y (items front.old.lines) (E.left events.old) }
    requires meets { meets ≡ false → SomeMeeting (items front.old.lines) level.y → ⊥ }
    ensures above { (edges : List EdgeParts) → IsBelowStop edges level.y (items front.old.lines) (E.left events.old) → OnOk result (IsAboveStop edges level.y (items front.new.lines) (E.left events.new)) }
    ensures settles { front.old.ended.items ≡ [] → OnOk result (SettlesRows (F.post rule.now) level.y (items front.old.lines) (items front.new.lines) front.new.ended.items) }
    ensures waiting { OnOk result (front.new.waiting.items ≡ front.old.waiting.items) }
{
    front.lines.rewind();
    let mut meeting = first_meeting(&front.lines, level, meets);
    let mut gap = none();
    loop {
        let next = nearer(next_event(events, level), meeting);
        let right = pass_way(rule, front, level, gap, next)?;
        let Some(point) = next else {
            return Ok(());
        };
        let left = come_to(&mut front.lines, point, right);
        gap = pass_point(rule, front, events, point, left)?;
        meeting = meeting_after(&front.lines, point, meeting);
    }
}

// Puts what ended at the stop after what waits.
fn give(front: &mut Front) -> Result<(), NoMemory>
    ensures waiting { OnOk result (front.new.waiting.items ≡ front.old.waiting.items ++ front.old.ended.items) }
    ensures lines { OnOk result (front.new.lines ≡ front.old.lines) }
{
    while let Some(trap) = front.ended.pop_front() {
        front.waiting.push_back(trap)?;
    }
    Ok(())
}

/// Goes over all points of the stop: the lines and the runs of the row below it give way to those of the row above. What ends
/// there is put after what waits. Where `meets` is false, no lines meet there.
pub(crate) fn pass_stop<F: Fn(i128, i128) -> bool, E: EventSource>(
    front: &mut Front,
    events: &mut E,
    rule: &Rule<F>,
    level: Level,
    meets: bool,
) -> Result<(), NoMemory>
    requires rule { IsRule (F.pre rule.now) (F.post rule.now) }
    requires y { IsWithinReach level.y }
    requires below { (edges : List EdgeParts) × IsBelowStop edges level.y (items front.old.lines) (E.left events.old) }
    requires meets { meets ≡ false → SomeMeeting (items front.old.lines) level.y → ⊥ }
    ensures above { (edges : List EdgeParts) → IsBelowStop edges level.y (items front.old.lines) (E.left events.old) → OnOk result (IsAboveStop edges level.y (items front.new.lines) (E.left events.new)) }
    ensures settles { OnOk result (SettlesStop (F.post rule.now) level.y (items front.old.lines) front.old.waiting.items (items front.new.lines) front.new.waiting.items) }
{
    front.ended.clear();
    pass_points(front, events, rule, level, meets)?;
    give(front)?;
    Ok(())
}
