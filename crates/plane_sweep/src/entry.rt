//! What becomes of the runs at a point of a stop.
ghost use Rattle.std.specs.Prelude.{Bool, ◌≡◌, ◌++◌, ◌∷◌, [], IfOk, IfSome, IfNone, OnOk, option_map};
ghost use Rattle.half_grid.specs.Trapezoids.{trapezoid, IsShot};
ghost use Rattle.row_lists.specs.RowLists.{AreAlike};
ghost use Rattle.scan_line.specs.Rules.{IsRule};
ghost use Rattle.active_lines.specs.declared.item.Windings.{Windings};
ghost use Rattle.plane_sweep.specs.RuleTests.{IsTest, growing_at};
ghost use Rattle.plane_sweep.specs.Crossings.{LeaveApart, LeavesOn, EndsStep, EndedBut, EndsLast, EndsOpen, EntersAlike, EntersApart, Enters, EndsLines, PassesRuns, beyond_of, after_of, runs_after};

use crate::runs::{Leaving, Level, begins_at, end_among, leaving_of, open_new, takes};
use active_lines::{ActiveLine, ActiveLines, Opened, Windings};
use geo_stream::NoMemory;
use half_grid::{Line, Trap};
use scan_line::Rule;
use std::collections::VecDeque;

/// What the rows below and above the stop have at a place between two points.
#[derive(Clone, Copy)]
pub(crate) enum Runs {
    /// The same run, which may go on above the stop, or none.
    Alike,
    /// Others. Where the row below has a run, this is its right line.
    Apart(Option<Line>),
}

/// What enters a point.
#[derive(Clone, Copy)]
pub(crate) enum Entered {
    /// One run, which passes the point below and above.
    Together,
    /// Others, or none. Where a run below passes the point, this is its right line.
    Separate(Option<Line>),
}

// Ends the trapezoid at the stop, where it began below it.
fn end(
    waiting: &mut VecDeque<Trap>,
    level: Level,
    left: Line,
    opened: Opened,
) -> Result<(), NoMemory>
    ensures shot { IsShot (trapezoid opened.since level.y left opened.right) → OnOk result (waiting.new.items ≡ waiting.old.items ++ trapezoid opened.since level.y left opened.right ∷ []) }
    ensures none { opened.since ≡ level.y → OnOk result (waiting.new.items ≡ waiting.old.items) }
{
    if let Some(trap) = Trap::new(opened.since, level.y, left, opened.right) {
        waiting.push_back(trap)?;
    }
    Ok(())
}

// Ends the trapezoid that was open last, if there is one.
fn end_last(
    waiting: &mut VecDeque<Trap>,
    level: Level,
    last: Option<Leaving>,
) -> Result<(), NoMemory>
    ensures { OnOk result (EndsLast level.y waiting.old.items (option_map growing_at last) waiting.new.items) }
{
    let Some(last) = last else {
        return Ok(());
    };
    end(waiting, level, last.left, last.opened)?;
    Ok(())
}

// Ends the trapezoid that was open last, where another one is open at the line. The answer is the one that is open last now.
fn end_before(
    waiting: &mut VecDeque<Trap>,
    level: Level,
    last: Option<Leaving>,
    line: &ActiveLine,
) -> Result<Option<Leaving>, NoMemory>
    ensures { IfOk result (λ next. EndsStep level.y waiting.old.items (option_map growing_at last) line.now waiting.new.items (option_map growing_at next)) }
{
    let Some(opened) = line.opened else {
        return Ok(last);
    };
    end_last(waiting, level, last)?;
    Ok(Some(Leaving {
        left: line.line,
        opened,
    }))
}

// Ends the trapezoids of the lines, but for the last one, which is the answer.
fn end_old(
    waiting: &mut VecDeque<Trap>,
    level: Level,
    lines: &[ActiveLine],
) -> Result<Option<Leaving>, NoMemory>
    ensures { IfOk result (λ last. EndedBut level.y waiting.old.items lines.now waiting.new.items (option_map growing_at last)) }
{
    let mut last = None;
    let mut left = lines;
    while let Some((line, rest)) = left.split_first() {
        last = end_before(waiting, level, last, line)?;
        left = rest;
    }
    Ok(last)
}

// Ends the trapezoid that is open last before the place; another one is open there up to this line. The answer is the right
// line of the one that ended.
fn end_open(
    lines: &mut ActiveLines,
    waiting: &mut VecDeque<Trap>,
    level: Level,
    right: Line,
) -> Result<Option<Line>, NoMemory>
    ensures ends { IfOk result (λ found. EndsOpen level.y lines.old.before lines.new.before right waiting.old.items waiting.new.items found) }
    ensures alike { OnOk result (AreAlike lines.old.before lines.new.before) }
    ensures after { OnOk result (lines.new.after ≡ lines.old.after) }
{
    let Some(was) = lines.reopen(Opened {
        right,
        since: level.y,
    }) else {
        return Ok(None);
    };
    let Some(opened) = was.opened else {
        return Ok(None);
    };
    end(waiting, level, was.line, opened)?;
    Ok(Some(opened.right))
}

// What enters where the rows have the same run, or none: where the run ends below and above, if among the point's lines.
fn enter_alike(
    lines: &mut ActiveLines,
    waiting: &mut VecDeque<Trap>,
    level: Level,
    inside: bool,
    below: Option<Line>,
    above: Option<Line>,
) -> Result<Entered, NoMemory>
    ensures enters { IfOk result (λ entered. EntersAlike level.y inside below above lines.old.before lines.new.before waiting.old.items waiting.new.items entered) }
    ensures alike { OnOk result (AreAlike lines.old.before lines.new.before) }
    ensures after { OnOk result (lines.new.after ≡ lines.old.after) }
{
    if !inside {
        return Ok(Entered::Separate(None));
    }
    let Some(end) = below else {
        let Some(right) = above else {
            return Ok(Entered::Together);
        };
        return Ok(Entered::Separate(end_open(lines, waiting, level, right)?));
    };
    let Some(right) = above else {
        end_open(lines, waiting, level, end)?;
        return Ok(Entered::Separate(None));
    };
    if right != end {
        end_open(lines, waiting, level, right)?;
    }
    Ok(Entered::Separate(None))
}

// What is right of the point of the run below: nothing where it ends at one of the point's lines.
fn beyond_of(apart: Option<Line>, below: Option<Line>) -> Option<Line>
    ensures { result ≡ beyond_of apart below }
{
    match below {
        Some(_) => None,
        None => apart,
    }
}

// What enters where the rows have other runs.
fn enter_apart(
    lines: &mut ActiveLines,
    level: Level,
    apart: Option<Line>,
    inside: bool,
    below: Option<Line>,
    above: Option<Line>,
) -> Entered
    ensures enters { EntersApart level.y inside apart below above lines.old.before lines.new.before result }
    ensures alike { AreAlike lines.old.before lines.new.before }
    ensures after { lines.new.after ≡ lines.old.after }
{
    let beyond = beyond_of(apart, below);
    if !inside {
        return Entered::Separate(beyond);
    }
    let Some(right) = above else {
        return Entered::Separate(beyond);
    };
    let _was = lines.reopen(Opened {
        right,
        since: level.y,
    });
    Entered::Separate(beyond)
}

// What is open at the line where a run begins that leaves the point, where it is the one that leaves it below too.
fn kept_of(leaving: Option<Leaving>, begun: Option<ActiveLine>) -> Option<Opened>
    ensures some { IfSome result (LeavesOn (option_map growing_at leaving) begun) }
    ensures none { IfNone result (LeaveApart (option_map growing_at leaving) begun) }
{
    let leaving = leaving?;
    let begun = begun?;
    if leaving.left == begun.line {
        Some(leaving.opened)
    } else {
        None
    }
}

// The right line of the run below that is open after the point, and was given.
fn after_of(right: Option<Line>, leaving: Option<Leaving>) -> Option<Line>
    ensures { result ≡ after_of right (option_map growing_at leaving) }
{
    if right.is_some() {
        return right;
    }
    match leaving {
        Some(leaving) => Some(leaving.opened.right),
        None => None,
    }
}

// The runs right of the point; `taken` are the windings there in the row above.
fn runs_after(entered: Entered, leaving: Option<Leaving>, goes_on: bool, taken: bool) -> Runs
    ensures { result ≡ runs_after entered (option_map growing_at leaving) goes_on taken }
{
    let Entered::Separate(right) = entered else {
        return Runs::Alike;
    };
    if goes_on {
        return Runs::Alike;
    }
    match after_of(right, leaving) {
        Some(line) => Runs::Apart(Some(line)),
        None => {
            if taken {
                Runs::Apart(None)
            } else {
                Runs::Alike
            }
        }
    }
}

// What enters the point: where the runs below and above end that are open left of it, if among the point's lines.
fn enter(
    lines: &mut ActiveLines,
    waiting: &mut VecDeque<Trap>,
    level: Level,
    runs: Runs,
    inside: bool,
    below: Option<Line>,
    above: Option<Line>,
) -> Result<Entered, NoMemory>
    ensures enters { IfOk result (λ entered. Enters level.y inside runs below above lines.old.before lines.new.before waiting.old.items waiting.new.items entered) }
    ensures alike { OnOk result (AreAlike lines.old.before lines.new.before) }
    ensures after { OnOk result (lines.new.after ≡ lines.old.after) }
{
    match runs {
        Runs::Alike => enter_alike(lines, waiting, level, inside, below, above),
        Runs::Apart(apart) => Ok(enter_apart(lines, level, apart, inside, below, above)),
    }
}

// Ends the trapezoids of the lines, but for the last one where it goes on.
fn leave(
    waiting: &mut VecDeque<Trap>,
    level: Level,
    lines: &[ActiveLine],
    goes_on: bool,
) -> Result<(), NoMemory>
    ensures { OnOk result (EndsLines level.y waiting.old.items lines.now goes_on waiting.new.items) }
{
    let last = end_old(waiting, level, lines)?;
    if !goes_on {
        end_last(waiting, level, last)?;
    }
    Ok(())
}

/// What becomes of the runs at a point: trapezoids that end there are put after those that wait, and `opened` are the new
/// lines with what is open there. `above` are the windings of the row above left of the point, and `beyond` right of it. The
/// answer is what the rows have right of the point.
pub(crate) fn pass_runs<F: Fn(i128, i128) -> bool>(
    rule: &Rule<F>,
    lines: &mut ActiveLines,
    waiting: &mut VecDeque<Trap>,
    level: Level,
    above: Windings,
    beyond: Windings,
    runs: Runs,
    old: &[ActiveLine],
    new: &[ActiveLine],
    opened: &mut Vec<ActiveLine>,
) -> Result<Runs, NoMemory>
    requires { IsRule (F.pre rule.now) (F.post rule.now) }
    ensures runs { IfOk result (λ passed. PassesRuns (F.post rule.now) level.y above beyond runs old.now new.now opened.new.items lines.old.before lines.new.before waiting.old.items waiting.new.items passed) }
    ensures before { OnOk result (AreAlike lines.old.before lines.new.before) }
    ensures opened { (test : Windings → Bool) → IsTest (F.post rule.now) test → OnOk result (AreAlike new.now opened.new.items) }
    ensures after { OnOk result (lines.new.after ≡ lines.old.after) }
{
    let inside = takes(rule, above);
    let entered = enter(
        lines,
        waiting,
        level,
        runs,
        inside,
        end_among(rule, old),
        end_among(rule, new),
    )?;
    let leaving = leaving_of(rule, old);
    let kept = kept_of(leaving, begins_at(rule, inside, new));
    leave(waiting, level, old, kept.is_some())?;
    open_new(rule, inside, level, kept, new, opened)?;
    Ok(runs_after(entered, leaving, kept.is_some(), takes(rule, beyond)))
}
