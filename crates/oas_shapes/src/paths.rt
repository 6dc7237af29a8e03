//! The shapes of paths.
ghost use Rattle.std.specs.Prelude.{◌≡◌, ◌⊎◌, ◌↔◌, ◌++◌, ℕ, pos, ◌≤ℤ◌, All, map, false, IsTrue, OnOk, IfOk, Err, option_copied};
ghost use Rattle.half_grid.specs.Halves.{twice};
ghost use Rattle.layout_model.specs.Layouts.{IsShapeOnGrid, AreOffsets};
ghost use Rattle.layout_model.specs.PathBounds.{IsNearOnPath as IsNearInHalves};
ghost use Rattle.layout_model.specs.Segments.{moved_segment, AreNearAfter};
ghost use Rattle.oas_shapes.specs.Plane.{IsLength};
ghost use Rattle.oas_shapes.specs.Brushes.{halves_of, lengths_of, AreHalves, IsDrawn, drawn_by, along_by, undrawn_by, KeepsCourse};
ghost use Rattle.oas_shapes.specs.PathLists.{KeepsOffsets};
ghost use Rattle.oas_shapes.specs.Repetitions.{offsets_in as all_offsets};
ghost use Rattle.oas_shapes.specs.Rules.{AreNear, IsBrush, IsLowest};
ghost use Rattle.oas_shapes.specs.Short.{IsShortIn};
ghost use Rattle.oas_shapes.specs.declared.drawing.Undrawn.TheVariants.{Rule, NoMemory as Wanting};

use crate::drawing::Undrawn;
use crate::figures::Brush;
use crate::repetitions::{alone, offsets_in};
use crate::sharing::Repetition;
use crate::trails::Unplaced;
use geo_stream::NoMemory;
use half_grid::Point;
use layout_model::{
    Brush as Lengths, KeptShape, Offsets, Pair, PathBad, Shapes, SharedPath, path_shapes,
};
use std::alloc::Global;

// At most so far from 0, in grid steps.
const FARTHEST: i64 = 1 << 40;

/// Half of a path's width and what it is longer by at its ends, in half units.
#[derive(Clone, Copy, Debug)]
pub(crate) struct Halves {
    half: i64,
    begin: i64,
    end: i64,
}

impl Halves {
    /// Whether the path has no width.
    pub(crate) fn has_no_width(self) -> bool
        ensures { IsTrue result ↔ (self.half ≡ pos 0) }
    {
        self.half == 0
    }

    /// The same as a path's lengths.
    pub(crate) fn lengths(self) -> Lengths
        ensures { result ≡ lengths_of self }
    {
        Lengths {
            half: self.half,
            begin: self.begin,
            end: self.end,
        }
    }
}

fn is_length(length: i128) -> bool
    ensures { IsTrue result ↔ IsLength length }
{
    -i128::from(FARTHEST) <= length && length <= i128::from(FARTHEST)
}

// A length in grid steps.
#[derive(Clone, Copy)]
struct Length {
    steps: i128,
}

impl Length {
    fn halves(self) -> i64
        requires { IsLength self.steps }
        ensures { result ≡ twice self.steps }
    {
        (self.steps + self.steps) as i64
    }
}

impl Brush {
    /// Whether its lengths are at most 2^40.
    pub(crate) fn is_near(self) -> bool
        ensures { IsTrue result ↔ IsBrush self }
    {
        self.half_width <= FARTHEST as u64 && is_length(self.start) && is_length(self.end)
    }

    /// Its lengths in half units.
    pub(crate) fn halves(self) -> Halves
        requires { IsBrush self }
        ensures value { result ≡ halves_of self }
        ensures near { AreHalves result }
    {
        let half = Length {
            steps: i128::from(self.half_width),
        };
        let begin = Length { steps: self.start };
        let end = Length { steps: self.end };
        Halves {
            half: half.halves(),
            begin: begin.halves(),
            end: end.halves(),
        }
    }
}

// Why a path isn't drawn: it breaks its rule, or memory is wanting.
fn undrawn(bad: PathBad) -> Undrawn
    ensures { result ≡ undrawn_by bad }
{
    match bad {
        PathBad::NoMemory => Undrawn::NoMemory,
        PathBad::NoLength | PathBad::Diagonal(_) | PathBad::TurnBack(_) | PathBad::EmptyEnd =>
            Undrawn::Rule(8),
    }
}

// The shapes of a path at these offsets.
fn drawn(
    alloc: Global,
    pair: Pair,
    points: &[Point],
    brush: Halves,
    offsets: &Offsets,
) -> Result<Vec<KeptShape>, Undrawn>
    requires points { AreNear points.now }
    requires brush { AreHalves brush }
    requires offsets { AreOffsets offsets.now }
    ensures shapes { IfOk result (λ shapes. shapes.items ≡ drawn_by pair brush points.now offsets.now) }
    ensures grid { IfOk result (λ shapes. All IsShapeOnGrid shapes.items) }
    ensures kept { IfOk result (λ _. IsDrawn brush points.now) }
    ensures broken { (rule : ℕ) → result ≡ Err (Rule rule) → (rule ≡ 8) × ¬ IsDrawn brush points.now }
    ensures memory { result ≡ Err Wanting → IsDrawn brush points.now }
{
    let Halves { half, begin, end } = brush;
    match path_shapes(alloc, pair, points, half, begin, end, offsets, false) {
        Ok(shapes) => Ok(shapes),
        Err(bad) => Err(undrawn(bad)),
    }
}

// The rule that a path breaks whose repetition has too large a dimension. Where memory is wanting for its shapes, it
// has been looked at whether it can be drawn.
fn rule_of_many(alloc: Global, pair: Pair, points: &[Point], brush: Halves) -> Undrawn
    requires points { AreNear points.now }
    requires brush { AreHalves brush }
    ensures many { (rule : ℕ) → result ≡ Rule rule
        → ((rule ≡ 8) × ¬ IsDrawn brush points.now) ⊎ ((rule ≡ 11) × IsDrawn brush points.now) }
    ensures memory { (result ≡ Wanting) → ⊥ }
{
    let Ok(offsets) = alone(alloc) else {
        return Undrawn::NoMemory;
    };
    match drawn(alloc, pair, points, brush, &offsets) {
        Ok(_) | Err(Undrawn::NoMemory) => Undrawn::Rule(11),
        Err(Undrawn::Rule(rule)) => Undrawn::Rule(rule),
    }
}

// The rule that a path breaks whose offsets break none, or else the want of memory for these.
fn rule_of_unkept(alloc: Global, pair: Pair, points: &[Point], brush: Halves) -> Undrawn
    requires points { AreNear points.now }
    requires brush { AreHalves brush }
    ensures undrawn { (rule : ℕ) → result ≡ Rule rule → (rule ≡ 8) × ¬ IsDrawn brush points.now }
    ensures memory { result ≡ Wanting → IsDrawn brush points.now }
{
    let Ok(offsets) = alone(alloc) else {
        return Undrawn::NoMemory;
    };
    match drawn(alloc, pair, points, brush, &offsets) {
        Ok(_) => Undrawn::NoMemory,
        Err(bad) => bad,
    }
}

// The shapes of a path, repeated so.
fn repeated(
    alloc: Global,
    pair: Pair,
    points: &[Point],
    brush: Halves,
    repetition: Option<&Repetition<'_>>,
) -> Result<Vec<KeptShape>, Undrawn>
    requires points { AreNear points.now }
    requires brush { AreHalves brush }
    ensures shapes { IfOk result (λ shapes. shapes.items ≡ drawn_by pair brush points.now (all_offsets (option_copied repetition.entry))) }
    ensures grid { IfOk result (λ shapes. All IsShapeOnGrid shapes.items) }
    ensures kept { IfOk result (λ _. (rule : ℕ) → KeepsCourse brush points.now (option_copied repetition.entry) rule) }
    ensures broken { (rule : ℕ) → result ≡ Err (Rule rule) → IsLowest (KeepsCourse brush points.now (option_copied repetition.entry)) rule }
    ensures memory { IsShortIn (option_copied repetition.entry) → result ≡ Err Wanting
        → (rule : ℕ) → KeepsCourse brush points.now (option_copied repetition.entry) rule }
{
    match offsets_in(alloc, repetition) {
        Ok(offsets) => drawn(alloc, pair, points, brush, &offsets),
        Err(Unplaced::Far) => Err(Undrawn::Rule(1)),
        Err(Unplaced::Many) => Err(rule_of_many(alloc, pair, points, brush)),
        Err(Unplaced::Unkept) => Err(rule_of_unkept(alloc, pair, points, brush)),
        Err(Unplaced::NoMemory) => Err(Undrawn::NoMemory),
    }
}

fn push_all(list: &mut Shapes, shapes: Vec<KeptShape>) -> Result<(), NoMemory>
    ensures { OnOk result (list.new ≡ list.old ++ shapes.items) }
{
    for shape in shapes {
        list.push(shape)?;
    }
    Ok(())
}

/// Adds the shapes of a path with these points, repeated so.
pub(crate) fn add_path(
    alloc: Global,
    pair: Pair,
    points: &[Point],
    brush: Halves,
    repetition: Option<&Repetition<'_>>,
    shapes: &mut Shapes,
) -> Result<(), Undrawn>
    requires points { AreNear points.now }
    requires brush { AreHalves brush }
    ensures shapes { OnOk result (shapes.new ≡ shapes.old ++ drawn_by pair brush points.now (all_offsets (option_copied repetition.entry))) }
    ensures grid { All IsShapeOnGrid shapes.old → OnOk result (All IsShapeOnGrid shapes.new) }
    ensures kept { OnOk result ((rule : ℕ) → KeepsCourse brush points.now (option_copied repetition.entry) rule) }
    ensures broken { (rule : ℕ) → result ≡ Err (Rule rule) → IsLowest (KeepsCourse brush points.now (option_copied repetition.entry)) rule }
    ensures memory { IsShortIn (option_copied repetition.entry) → result ≡ Err Wanting
        → (rule : ℕ) → KeepsCourse brush points.now (option_copied repetition.entry) rule }
{
    match repeated(alloc, pair, points, brush, repetition) {
        Ok(drawn) => match push_all(shapes, drawn) {
            Ok(()) => Ok(()),
            Err(_) => Err(Undrawn::NoMemory),
        },
        Err(bad) => Err(bad),
    }
}

/// Looks at the offsets of a path without width, which has no shapes.
pub(crate) fn add_none(alloc: Global, repetition: Option<&Repetition<'_>>) -> Result<(), Undrawn>
    ensures kept { OnOk result ((rule : ℕ) → KeepsOffsets (option_copied repetition.entry) rule) }
    ensures broken { (rule : ℕ) → result ≡ Err (Rule rule) → IsLowest (KeepsOffsets (option_copied repetition.entry)) rule }
    ensures memory { IsShortIn (option_copied repetition.entry) → result ≡ Err Wanting
        → (rule : ℕ) → KeepsOffsets (option_copied repetition.entry) rule }
{
    match offsets_in(alloc, repetition) {
        Ok(_) => Ok(()),
        Err(Unplaced::Far) => Err(Undrawn::Rule(1)),
        Err(Unplaced::Many) => Err(Undrawn::Rule(11)),
        Err(Unplaced::Unkept) => Err(Undrawn::NoMemory),
        Err(Unplaced::NoMemory) => Err(Undrawn::NoMemory),
    }
}

/// Adds the shapes of a shared path that is moved so, with these lengths, repeated so. It takes no longer than the
/// repetition.
pub(crate) fn add_along(
    alloc: Global,
    pair: Pair,
    path: &SharedPath,
    by: Point,
    brush: Halves,
    repetition: Option<&Repetition<'_>>,
    shapes: &mut Shapes,
) -> Result<(), Undrawn>
    requires near { AreNearAfter by path.now }
    requires brush { AreHalves brush }
    ensures shapes { OnOk result (shapes.new ≡ shapes.old ++ along_by pair brush (map (moved_segment by) path.now) (all_offsets (option_copied repetition.entry))) }
    ensures offsets { OnOk result (AreOffsets (all_offsets (option_copied repetition.entry))) }
    ensures kept { OnOk result ((rule : ℕ) → KeepsOffsets (option_copied repetition.entry) rule) }
    ensures broken { (rule : ℕ) → result ≡ Err (Rule rule) → IsLowest (KeepsOffsets (option_copied repetition.entry)) rule }
    ensures memory { IsShortIn (option_copied repetition.entry) → result ≡ Err Wanting
        → (rule : ℕ) → KeepsOffsets (option_copied repetition.entry) rule }
{
    match offsets_in(alloc, repetition) {
        Ok(offsets) => match shapes.push_path(path, by, pair, brush.lengths(), offsets, false) {
            Ok(()) => Ok(()),
            Err(_) => Err(Undrawn::NoMemory),
        },
        Err(Unplaced::Far) => Err(Undrawn::Rule(1)),
        Err(Unplaced::Many) => Err(Undrawn::Rule(11)),
        Err(Unplaced::Unkept) => Err(Undrawn::NoMemory),
        Err(Unplaced::NoMemory) => Err(Undrawn::NoMemory),
    }
}
