//! Upright edges that sum up in each row to what other edges do.

ghost use Rattle.std.specs.Prelude.{◌≡◌, ◌<◌, ◌+ℤ◌, ℤ, pos, true, [], ◌∷◌, ◌++◌, length, IfOk, IfSome, OnOk};
ghost use Rattle.std.specs.Option.{option_to_list};
ghost use Rattle.half_grid.specs.Edges.{is_of};
ghost use Rattle.half_grid.specs.Reach.{IsWithinReach};
ghost use Rattle.half_grid.specs.declared.border.Operand.{Operand};
ghost use Rattle.half_grid.specs.declared.plane.Line.TheVariants.{Upright};
ghost use Rattle.column_sweep.specs.RowSums.{row_sum};
ghost use Rattle.column_sweep.specs.Steps.{height, AreSteps};
ghost use Rattle.column_sweep.specs.Parts.{AreSumsOf, AreSums};

use crate::cuts::Cut;
use geo_stream::NoMemory;
use half_grid::{Edge, Line, Operand};
use std::alloc::Global;

/// A Y at which something begins or ends.
#[derive(Clone, Copy, Debug, PartialEq, Eq, PartialOrd, Ord)]
pub(crate) struct Level {
    pub(crate) y: i64,
}

/// The levels at which a sum over rows rises by one, and those at which it falls by one.
#[derive(Drop)]
struct Steps {
    rises: Vec<Level>,
    falls: Vec<Level>,
}

/// Where the edge begins.
pub(crate) fn bottom_of(edge: &Edge) -> Level
    ensures level { result.y ≡ edge.now.y0 }
    ensures within { IsWithinReach result.y }
{
    Level { y: edge.y0() }
}

/// Where it ends.
pub(crate) fn top_of(edge: &Edge) -> Level
    ensures level { result.y ≡ edge.now.y1 }
    ensures within { IsWithinReach result.y }
{
    Level { y: edge.y1() }
}

/// The levels at which the sum of one edge changes.
#[derive(Clone, Copy)]
struct Step {
    rise: Level,
    fall: Level,
}

fn step_of(edge: &Edge) -> Step
    ensures { (o : Operand) → is_of o edge.now.operand ≡ true → AreSteps (λ j. row_sum o j (edge.now ∷ [])) (result.rise ∷ []) (result.fall ∷ []) }
{
    if edge.is_up() {
        return Step {
            rise: bottom_of(edge),
            fall: top_of(edge),
        };
    }
    Step {
        rise: top_of(edge),
        fall: bottom_of(edge),
    }
}

// Whether two operands are one.
pub(crate) fn is_of(operand: Operand, other: Operand) -> bool
    ensures { result ≡ is_of operand other }
{
    match (operand, other) {
        (Operand::A, Operand::A) => true,
        (Operand::B, Operand::B) => true,
        (Operand::A, Operand::B) => false,
        (Operand::B, Operand::A) => false,
    }
}

// Puts the edge's step at the end, where the edge is the operand's.
fn add_step(steps: &mut Steps, edge: &Edge, operand: Operand) -> Result<(), NoMemory>
    ensures { (sum : ℤ → ℤ) → AreSteps sum steps.old.rises.items steps.old.falls.items → OnOk result (AreSteps (λ j. sum j +ℤ row_sum operand j (edge.now ∷ [])) steps.new.rises.items steps.new.falls.items) }
{
    if !is_of(operand, edge.operand()) {
        return Ok(());
    }
    let step = step_of(edge);
    steps.rises.push(step.rise)?;
    steps.falls.push(step.fall)?;
    Ok(())
}

// Whether the two edges go over the same rows for one operand, one up and the other down, so that they add up to nothing.
fn are_opposite(e: &Edge, f: &Edge) -> bool
    ensures { result ≡ true → (o : Operand) (j : ℤ) → row_sum o j (e.now ∷ f.now ∷ []) ≡ pos 0 }
{
    if e.y0() != f.y0() {
        return false;
    }
    if e.y1() != f.y1() {
        return false;
    }
    if e.is_up() == f.is_up() {
        return false;
    }
    is_of(e.operand(), f.operand())
}

// The edges after the first two, where these add up to nothing, as the two sides of a trapezoid do.
fn behind_opposites(edges: &[Edge]) -> Option<&[Edge]>
    ensures sums { IfSome result (λ rest. (o : Operand) (j : ℤ) → row_sum o j rest.now ≡ row_sum o j edges.now) }
    ensures fewer { IfSome result (λ rest. length rest.now < length edges.now) }
{
    let (first, later) = edges.split_first()?;
    let (second, rest) = later.split_first()?;
    if are_opposite(first, second) {
        return Some(rest);
    }
    None
}

// The steps of the operand's edges.
fn steps_of(alloc: Global, edges: &[Edge], operand: Operand) -> Result<Steps, NoMemory>
    ensures { IfOk result (λ steps. AreSteps (λ j. row_sum operand j edges.now) steps.rises.items steps.falls.items) }
{
    let mut steps = Steps {
        rises: Vec::new(alloc),
        falls: Vec::new(alloc),
    };
    let mut left = edges;
    while let Some((edge, rest)) = left.split_first() {
        if let Some(others) = behind_opposites(left) {
            left = others;
            continue;
        }
        add_step(&mut steps, edge, operand)?;
        left = rest;
    }
    Ok(steps)
}

// Without pairs of a rise and a fall at one level, as far as two sorted lists tell.
fn cancelled(alloc: Global, rises: &[Level], falls: &[Level]) -> Result<Steps, NoMemory>
    ensures { (sum : ℤ → ℤ) → AreSteps sum rises.now falls.now → IfOk result (λ steps. AreSteps sum steps.rises.items steps.falls.items) }
{
    let mut up = Vec::new(alloc);
    let mut down = Vec::new(alloc);
    let mut rising = rises;
    let mut falling = falls;
    while let (Some((rise, later_rises)), Some((fall, later_falls))) = (
        rising.split_first(),
        falling.split_first(),
    ) {
        if rise.y < fall.y {
            up.push(*rise)?;
            rising = later_rises;
        } else if fall.y < rise.y {
            down.push(*fall)?;
            falling = later_falls;
        } else {
            rising = later_rises;
            falling = later_falls;
        }
    }
    up.extend_from_slice(rising)?;
    down.extend_from_slice(falling)?;
    Ok(Steps {
        rises: up,
        falls: down,
    })
}

// The upright edge that rises at the one level and falls at the other, where they differ.
fn sum_edge(step: Step, cut: Cut, operand: Operand) -> Option<Edge>
    requires cut { IsWithinReach cut.x }
    requires rise { IsWithinReach step.rise.y }
    requires fall { IsWithinReach step.fall.y }
    ensures { AreSumsOf cut.x operand (λ j. height j (step.rise ∷ []) (step.fall ∷ [])) (option_to_list result) }
{
    if step.rise.y < step.fall.y {
        return Some(Edge::of(
            step.rise.y,
            step.fall.y,
            Line::Upright(cut.x),
            true,
            operand,
        ));
    }
    if step.fall.y < step.rise.y {
        return Some(Edge::of(
            step.fall.y,
            step.rise.y,
            Line::Upright(cut.x),
            false,
            operand,
        ));
    }
    None
}

/// Puts the edge at the end, where there is one.
pub(crate) fn put(edges: &mut Vec<Edge>, edge: Option<Edge>) -> Result<(), NoMemory>
    ensures { OnOk result (edges.new.items ≡ edges.old.items ++ option_to_list edge) }
{
    if let Some(edge) = edge {
        edges.push(edge)?;
    }
    Ok(())
}

// An edge for each two steps that differ.
fn sums_of(alloc: Global, steps: &Steps, cut: Cut, operand: Operand) -> Result<Vec<Edge>, NoMemory>
    requires cut { IsWithinReach cut.x }
    requires steps { (sum : ℤ → ℤ) × AreSteps sum steps.now.rises.items steps.now.falls.items }
    ensures { (sum : ℤ → ℤ) → AreSteps sum steps.now.rises.items steps.now.falls.items → IfOk result (λ sums. AreSumsOf cut.x operand sum sums.items) }
{
    let mut sums = Vec::new(alloc);
    let mut rising = steps.rises.as_slice();
    let mut falling = steps.falls.as_slice();
    while let Some((rise, later_rises)) = rising.split_first() {
        let Some((fall, later_falls)) = falling.split_first() else {
            unreachable!();
        };
        let step = Step {
            rise: *rise,
            fall: *fall,
        };
        put(&mut sums, sum_edge(step, cut, operand))?;
        rising = later_rises;
        falling = later_falls;
    }
    Ok(sums)
}

// Upright edges on the cut that sum up in each row to what the operand's edges do.
fn sums_for(
    alloc: Global,
    edges: &[Edge],
    cut: Cut,
    operand: Operand,
) -> Result<Vec<Edge>, NoMemory>
    requires { IsWithinReach cut.x }
    ensures { IfOk result (λ sums. AreSumsOf cut.x operand (λ j. row_sum operand j edges.now) sums.items) }
{
    let mut steps = steps_of(alloc, edges, operand)?;
    steps.rises.sort_unstable();
    steps.falls.sort_unstable();
    let left = cancelled(alloc, steps.rises.as_slice(), steps.falls.as_slice())?;
    sums_of(alloc, &left, cut, operand)
}

/// Upright edges on the cut that sum up in each row, for each operand, to what the edges do. There are at most as many.
pub(crate) fn row_sums(alloc: Global, edges: &[Edge], cut: Cut) -> Result<Vec<Edge>, NoMemory>
    requires { IsWithinReach cut.x }
    ensures { IfOk result (λ sums. AreSums cut.x edges.now sums.items) }
{
    let mut sums = sums_for(alloc, edges, cut, Operand::A)?;
    let others = sums_for(alloc, edges, cut, Operand::B)?;
    sums.extend_from_slice(others.as_slice())?;
    Ok(sums)
}
