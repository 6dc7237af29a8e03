//! One step upward: which trapezoids go on, end and begin at a stop.
ghost use Rattle.std.specs.Prelude.{[], ◌≡◌, ◌<ℤ◌, ◌-ℤ◌, pos, map, ◌++◌, ◌∷◌, All, OnOk, OnErr, length, ◌<◌, ◌^◌};
ghost use Rattle.half_grid.specs.Rows.{place};
ghost use Rattle.half_grid.specs.Sides.{IsSide};
ghost use Rattle.half_grid.specs.Trapezoids.{IsShot};
ghost use Rattle.scan_line.specs.Runs.{StandApart};
ghost use Rattle.trap_join.specs.Fronts.{is_same_line, goes_on, all_go_on, bottom_of, grown_into, ended_at, ended, FrontStandsApart, IsMeeting};

use crate::front::{Front, Growing, Meeting};
use geo_stream::NoMemory;
use half_grid::{Line, Trap, x_at};
use scan_line::Run;
use std::collections::VecDeque;
use std::mem;

fn is_same_line(a: Line, b: Line) -> bool
    ensures { result ≡ is_same_line a b }
{
    a == b
}

// Whether the growing trapezoid and the run have the same two lines.
fn goes_on(growing: &Growing, run: &Run) -> bool
    ensures { result ≡ goes_on growing.now run.now }
{
    is_same_line(growing.left, run.left) && is_same_line(growing.right, run.right)
}

// What comes of the leftmost growing trapezoid and the leftmost run at the stop. They are compared by the X of their
// left lines there. At equal X a growing one that ends in a point ends first.
fn meet(growing: &Growing, run: &Run, y: i64) -> Meeting
    requires growing { IsShot (ended_at y growing.now) }
    requires run { IsSide run.now.left run.now.right y }
    requires has_tile { place run.now.left y <ℤ place run.now.right y }
    ensures { IsMeeting y growing.now run.now result }
{
    if goes_on(growing, run) {
        return Meeting::GoesOn;
    }
    let end = x_at(growing.left, y);
    let start = x_at(run.left, y);
    if end < start {
        return Meeting::Ends;
    }
    if start < end {
        return Meeting::Begins;
    }
    if x_at(growing.right, y) == end {
        return Meeting::Ends;
    }
    Meeting::Begins
}

// The growing trapezoid, which ends at the stop.
fn ended_at(growing: &Growing, y: i64) -> Trap
    requires { IsShot (ended_at y growing.now) }
    ensures { result ≡ ended_at y growing.now }
{
    Trap::of(growing.y0, y, growing.left, growing.right)
}

// The trapezoid that the run begins at the stop.
fn begun_at(run: &Run, y: i64) -> Growing
    ensures { result ≡ grown_into [] y run.now }
{
    Growing {
        y0: y,
        left: run.left,
        right: run.right,
    }
}

// All growing trapezoids end at the stop.
fn end_all(front: &[Growing], y: i64, waiting: &mut VecDeque<Trap>) -> Result<(), NoMemory>
    requires { All (λ growing. IsShot (ended_at y growing)) front.now }
    ensures { OnOk result (waiting.new.items ≡ waiting.old.items ++ map (ended_at y) front.now) }
{
    for growing in front {
        waiting.push_back(ended_at(growing, y))?;
    }
    Ok(())
}

// Each run begins a trapezoid at the stop.
fn begin_all(runs: &[Run], y: i64, fresh: &mut Vec<Growing>) -> Result<(), NoMemory>
    ensures { OnOk result (fresh.new.items ≡ fresh.old.items ++ map (grown_into [] y) runs.now) }
{
    for run in runs {
        fresh.push(begun_at(run, y))?;
    }
    Ok(())
}

// Puts the growing trapezoids of the row above the stop into `fresh`, and those that end at the stop into `waiting`.
fn merge(
    front: &[Growing],
    runs: &[Run],
    y: i64,
    fresh: &mut Vec<Growing>,
    waiting: &mut VecDeque<Trap>,
) -> Result<(), NoMemory>
    requires shots { All (λ growing. IsShot (ended_at y growing)) front.now }
    requires front { FrontStandsApart (y -ℤ pos 1) front.now }
    requires sides { All (λ run. IsSide run.left run.right y) runs.now }
    requires runs { StandApart y runs.now }
    ensures fresh { OnOk result (fresh.new.items ≡ fresh.old.items ++ map (grown_into front.now y) runs.now) }
    ensures waiting { OnOk result (waiting.new.items ≡ waiting.old.items ++ ended runs.now y front.now) }
{
    let mut i = 0;
    let mut k = 0;
    while i < front.len() && k < runs.len() {
        match meet(&front[i], &runs[k], y) {
            Meeting::Ends => {
                waiting.push_back(ended_at(&front[i], y))?;
                i += 1;
            }
            Meeting::Begins => {
                fresh.push(begun_at(&runs[k], y))?;
                k += 1;
            }
            Meeting::GoesOn => {
                fresh.push(front[i])?;
                i += 1;
                k += 1;
            }
        }
    }
    end_all(&front[i..], y, waiting)?;
    begin_all(&runs[k..], y, fresh)
}

// Whether each growing trapezoid goes on in a run, and each run is gone on in.
fn all_go_on(front: &[Growing], runs: &[Run]) -> bool
    ensures value { result ≡ all_go_on front.now runs.now }
    ensures count { length runs.now < 2 ^ 64 }
{
    if front.len() != runs.len() {
        return false;
    }
    for (i, growing) in front.iter().enumerate() {
        if !goes_on(growing, &runs[i]) {
            return false;
        }
    }
    true
}

impl Front {
    /// Joins the runs of the row above the stop to the front: what goes on in none of them ends there. Where each goes
    /// on, nothing is written.
    pub(crate) fn join_runs(&mut self, runs: &[Run], y: i64) -> Result<(), NoMemory>
        requires shots { All (λ growing. IsShot (ended_at y growing)) self.old.growing.items }
        requires front { FrontStandsApart (y -ℤ pos 1) self.old.growing.items }
        requires sides { All (λ run. IsSide run.left run.right y) runs.now }
        requires runs { StandApart y runs.now }
        ensures growing { OnOk result (self.new.growing.items ≡ map (grown_into self.old.growing.items y) runs.now) }
        ensures waiting { OnOk result (self.new.waiting.items ≡ self.old.waiting.items ++ ended runs.now y self.old.growing.items) }
        ensures top { self.new.top ≡ self.old.top }
        ensures count { length runs.now < 2 ^ 64 }
    {
        if all_go_on(self.growing.as_slice(), runs) {
            return Ok(());
        }
        self.spare.clear();
        merge(
            self.growing.as_slice(),
            runs,
            y,
            &mut self.spare,
            &mut self.waiting,
        )?;
        mem::swap(&mut self.growing, &mut self.spare);
        Ok(())
    }

    /// Ends each growing trapezoid at y.
    pub(crate) fn end_growing(&mut self, y: i64) -> Result<(), NoMemory>
        requires { All (λ growing. IsShot (ended_at y growing)) self.old.growing.items }
        ensures growing { OnOk result (self.new.growing.items ≡ []) }
        ensures waiting { OnOk result (self.new.waiting.items ≡ self.old.waiting.items ++ map (ended_at y) self.old.growing.items) }
        ensures same { OnErr result (self.new.growing.items ≡ self.old.growing.items) }
        ensures top { self.new.top ≡ self.old.top }
    {
        end_all(self.growing.as_slice(), y, &mut self.waiting)?;
        self.growing.clear();
        Ok(())
    }
}
