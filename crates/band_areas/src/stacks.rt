//! Joined lists of rows that lie upon each other.
ghost use Rattle.std.specs.Prelude.{◌≡◌, ◌≤◌, ◌∷◌, [], ◌++◌, ◌≤ℤ◌, ◌<ℤ◌, ◌+ℤ◌, ◌-ℤ◌, ◌^◌, ℤ, pos, neg_ℤ, true, false, List, All, IfOk, OnOk, length, map, take, drop};
ghost use Rattle.half_grid.specs.Lines.{x_on};
ghost use Rattle.half_grid.specs.Rows.{place};
ghost use Rattle.half_grid.specs.Trapezoids.{Trapezoid, trapezoid, IsShot};
ghost use Rattle.trap_join.specs.Fronts.{is_same_line};
ghost use Rattle.deck_plan.specs.Stacks.{goes_on, lengthened, ended};
ghost use Rattle.band_areas.specs.Growing.{AreGrowing, TopsAscend, IsNumberBelow, going_on, IsStack};

use crate::cuts::top_place;
use crate::groups::Row;
use geo_stream::NoMemory;
use half_grid::{Line, Trap};
use std::alloc::Global;

/// What comes of trapezoids that reach a row, and of the joined list of the rows from there on.
#[derive(Drop)]
pub(crate) struct Stack {
    /// Those that go on in none of the list, from left to right.
    pub(crate) ended: Vec<Trap>,
    /// Those of the list, lengthened, that end below some top.
    pub(crate) below: Vec<Trap>,
    /// Those of the list, lengthened, that reach it.
    pub(crate) growing: Vec<Trap>,
}

// A place in a row.
#[derive(Clone, Copy)]
struct Place {
    at: i64,
}

fn is_same_line(a: Line, b: Line) -> bool
    ensures { result ≡ is_same_line a b }
{
    a == b
}

// Whether the first ends where the second begins, between the same lines.
fn goes_on(trap: &Trap, above: &Trap) -> bool
    ensures { result ≡ goes_on trap.now above.now }
{
    trap.y1() == above.y0()
        && (is_same_line(trap.left(), above.left()) && is_same_line(trap.right(), above.right()))
}

// How far right the line goes with one row down.
fn tilt(line: Line) -> Place
    ensures is { (y : ℤ) → x_on line (y -ℤ pos 1) ≡ x_on line y +ℤ result.at }
    ensures low { pos 0 ≤ℤ (result.at +ℤ pos 1) }
    ensures high { result.at ≤ℤ pos 1 }
{
    match line {
        Line::Upright(_) => Place { at: 0 },
        Line::Rising(_) => Place { at: -1 },
        Line::Falling(_) => Place { at: 1 },
    }
}

// The X of a trapezoid's left line one row below its bottom.
fn x_below(trap: &Trap) -> Place
    ensures is { result.at ≡ x_on trap.now.left (trap.now.y0 -ℤ pos 1) }
    ensures low { neg_ℤ (pos (2 ^ 45)) ≤ℤ result.at }
    ensures high { result.at ≤ℤ pos (2 ^ 45) }
{
    let tilt = tilt(trap.left());
    Place {
        at: trap.bottom_left() + tilt.at,
    }
}

// The place of a trapezoid's left line in the row below its bottom.
fn place_below(trap: &Trap) -> Place
    ensures { result.at ≡ place trap.now.left (trap.now.y0 -ℤ pos 1) }
{
    let below = x_below(trap);
    Place {
        at: below.at + trap.bottom_left(),
    }
}

// The number of the growing trapezoid that goes on in the one above.
fn number_below(growing: &[Trap], bottom: Row, above: &Trap) -> Option<usize>
    requires growing { AreGrowing growing.now }
    requires tops { All (λ z. z.y1 ≡ bottom.y) growing.now }
    ensures { IsNumberBelow growing.now above.now result }
{
    if above.y0() != bottom.y {
        return None;
    }
    let place = place_below(above);
    let at = growing.partition_point(|trap| top_place(trap) < place.at);
    if at < growing.len() && goes_on(&growing[at], above) {
        return Some(at);
    }
    None
}

// Both trapezoids as one: the second goes on from the first.
fn both(trap: &Trap, above: &Trap) -> Trap
    requires { goes_on trap.now above.now ≡ true }
    ensures { result ≡ trapezoid trap.now.y0 above.now.y1 above.now.left above.now.right }
{
    Trap::of(trap.y0(), above.y1(), above.left(), above.right())
}

// The trapezoid with the rows of the one that goes on in it, which is marked.
fn lengthened(growing: &[Trap], marks: &mut [bool], bottom: Row, above: &Trap) -> Trap
    requires growing { AreGrowing growing.now }
    requires tops { All (λ z. z.y1 ≡ bottom.y) growing.now }
    requires marks { length marks.old ≡ length growing.now }
    ensures is { result ≡ lengthened growing.now above.now }
    ensures marks { (done : List Trapezoid) → marks.old ≡ going_on growing.now done → marks.new ≡ going_on growing.now (done ++ above.now ∷ []) }
{
    let Some(at) = number_below(growing, bottom, above) else {
        return *above;
    };
    marks[at] = true;
    both(&growing[at], above)
}

// Lengthens all of a list, and marks what goes on.
fn lengthen(growing: &[Trap], marks: &mut [bool], bottom: Row, strip: &mut Vec<Trap>)
    requires growing { AreGrowing growing.now }
    requires tops { All (λ z. z.y1 ≡ bottom.y) growing.now }
    requires none { marks.old ≡ going_on growing.now [] }
    ensures list { strip.new.items ≡ map (lengthened growing.now) strip.old.items }
    ensures marks { marks.new ≡ going_on growing.now strip.old.items }
{
    for n in 0..strip.len() {
        strip[n] = lengthened(growing, marks, bottom, &strip[n]);
    }
}

// Those that aren't marked.
fn unmarked(alloc: Global, growing: &[Trap], marks: &[bool]) -> Result<Vec<Trap>, NoMemory>
    requires { length marks.now ≡ length growing.now }
    ensures { (strip : List Trapezoid) → marks.now ≡ going_on growing.now strip → IfOk result (λ list. list.items ≡ ended strip growing.now) }
{
    let mut list = Vec::new(alloc);
    for (n, trap) in growing.iter().enumerate() {
        if !marks[n] {
            list.push(*trap)?;
        }
    }
    Ok(list)
}

// How many of a list end below a row. They are the first of it.
fn count_below(traps: &[Trap], top: Row) -> usize
    requires { TopsAscend traps.now }
    ensures bound { result ≤ length traps.now }
    ensures below { All (λ z. z.y1 <ℤ top.y) (take result traps.now) }
    ensures others { All (λ z. top.y ≤ℤ z.y1) (drop result traps.now) }
{
    traps.partition_point(|trap| trap.y1() < top.y)
}

// Takes those off a list that reach a top. They are the last of it.
fn taken_off(alloc: Global, list: &mut Vec<Trap>, top: Row) -> Result<Vec<Trap>, NoMemory>
    requires { TopsAscend list.old.items }
    ensures list { IfOk result (λ rest. list.new.items ++ rest.items ≡ list.old.items) }
    ensures below { OnOk result (All (λ z. z.y1 <ℤ top.y) list.new.items) }
    ensures reach { IfOk result (λ rest. All (λ z. top.y ≤ℤ z.y1) rest.items) }
{
    let count = count_below(list.as_slice(), top);
    let (_below, rest) = list.as_slice().split_at(count);
    let rest = Vec::from_slice(alloc, rest)?;
    list.truncate(count);
    Ok(rest)
}

/// What comes of trapezoids that reach a row, the bottom of a list, and of the list, where what reaches a top is kept
/// apart. The time is that of a pass through the list, and of a search among the growing ones for each of the list that
/// begins at its bottom.
pub(crate) fn stacked(
    alloc: Global,
    growing: &[Trap],
    bottom: Row,
    strip: Vec<Trap>,
    top: Row,
) -> Result<Stack, NoMemory>
    requires growing { AreGrowing growing.now }
    requires tops { All (λ z. z.y1 ≡ bottom.y) growing.now }
    requires ascend { TopsAscend strip.items }
    ensures stack { IfOk result (IsStack growing.now strip.items) }
    ensures below { IfOk result (λ stack. All (λ z. z.y1 <ℤ top.y) stack.below.items) }
    ensures reach { IfOk result (λ stack. All (λ z. top.y ≤ℤ z.y1) stack.growing.items) }
{
    let mut below = strip;
    let mut marks = vec![in alloc; false; growing.len()]?;
    lengthen(growing, marks.as_mut_slice(), bottom, &mut below);
    let ended = unmarked(alloc, growing, marks.as_slice())?;
    let growing = taken_off(alloc, &mut below, top)?;
    Ok(Stack {
        ended,
        below,
        growing,
    })
}
