//! Runs of shots that follow one another by one step.
ghost use Rattle.std.specs.Prelude.{◌≡◌, ◌+◌, ◌<◌, ◌≤◌, ◌^◌, ◌∷◌, ◌&&◌, ◌-ℤ◌, List, length, map, drop, min, IsTrue, IfSome, unsigned_abs};
ghost use Rattle.half_grid.specs.Trapezoids.{Trapezoid};
ghost use Rattle.oas_lex.specs.ShotText.{fields_of};
ghost use Rattle.shot_reader.specs.Near.{AreNear};
ghost use Rattle.shot_repeat.specs.Packed.{most_of_record};
ghost use Rattle.shot_repeat.specs.Packer.{step_between, has_shape_of, is_step, followers, run_length, repetition_of};
ghost use Rattle.shot_repeat.specs.Records.{IsNarrowRepetition};

use crate::record::Repetition;
use half_grid::{Point, Trap};
use layout_model::Pair;
use oas_lex::{ShotFields, fields_of};

/// How many shots one record may stand for.
const MOST: u64 = 16_777_216;

/// The fields of the shot at `at`.
pub(crate) fn fields_at(shots: &[Trap], at: usize, pair: Pair) -> ShotFields
    requires here { at < length shots.now }
    requires layer { pair.layer < 2 ^ 63 }
    requires datatype { pair.datatype < 2 ^ 63 }
    ensures value { map (fields_of pair.layer pair.datatype) (drop at shots.now) ≡ result ∷ map (fields_of pair.layer pair.datatype) (drop (at + 1) shots.now) }
    ensures near { AreNear result }
    ensures layer { result.layer ≡ pair.layer }
    ensures datatype { result.datatype ≡ pair.datatype }
{
    let shot = &shots[at];
    let _bottom = shot.y0();
    fields_of(shot, pair.layer, pair.datatype)
}

// Whether both have one width, one height and the same deltas.
fn has_shape_of(first: &ShotFields, second: &ShotFields) -> bool
    ensures { result ≡ has_shape_of first.now second.now }
{
    if first.width != second.width {
        return false;
    }
    if first.height != second.height {
        return false;
    }
    if first.left_delta != second.left_delta {
        return false;
    }
    first.right_delta == second.right_delta
}

// How far the second lies from the first.
fn step_between(first: &ShotFields, second: &ShotFields) -> Point
    requires first { AreNear first.now }
    requires second { AreNear second.now }
    ensures value { result ≡ step_between first.now second.now }
    ensures x { unsigned_abs result.x < 2 ^ 61 }
    ensures y { unsigned_abs result.y < 2 ^ 61 }
{
    Point {
        x: second.x - first.x,
        y: second.y - first.y,
    }
}

// Whether the second is the first, moved by the step.
fn is_step(step: Point, first: &ShotFields, second: &ShotFields) -> bool
    requires first { AreNear first.now }
    requires second { AreNear second.now }
    ensures { result ≡ is_step step first.now second.now }
{
    if !has_shape_of(first, second) {
        return false;
    }
    let own = step_between(first, second);
    if own.x != step.x {
        return false;
    }
    own.y == step.y
}

// How many shots the run has whose first two are followed by those from `at` on.
fn run_from(shots: &[Trap], at: usize, pair: Pair, second: &ShotFields, step: Point) -> u64
    requires here { at ≤ length shots.now }
    requires layer { pair.layer < 2 ^ 63 }
    requires datatype { pair.datatype < 2 ^ 63 }
    requires second { AreNear second.now }
    ensures { result ≡ min most_of_record (2 + followers step second.now (map (fields_of pair.layer pair.datatype) (drop at shots.now))) }
{
    let mut count = 2;
    let mut last = *second;
    let mut next = at;
    while next < shots.len() && count < MOST {
        let fields = fields_at(shots, next, pair);
        if !is_step(step, &last, &fields) {
            return count;
        }
        count += 1;
        last = fields;
        next += 1;
    }
    count
}

/// The repetition of the record that stands for the run from the shot at `at` on, if it has one. Each shot is looked at
/// once, and so is the one after the run.
pub(crate) fn repetition_from(
    shots: &[Trap],
    at: usize,
    pair: Pair,
    first: &ShotFields,
) -> Option<Repetition>
    requires here { at < length shots.now }
    requires layer { pair.layer < 2 ^ 63 }
    requires datatype { pair.datatype < 2 ^ 63 }
    requires near { AreNear first.now }
    requires first { map (fields_of pair.layer pair.datatype) (drop at shots.now) ≡ first.now ∷ map (fields_of pair.layer pair.datatype) (drop (at + 1) shots.now) }
    ensures value { result ≡ repetition_of (map (fields_of pair.layer pair.datatype) (drop at shots.now)) }
    ensures narrow { IsNarrowRepetition result }
{
    if shots.len() - at < 2 {
        return None;
    }
    let second = fields_at(shots, at + 1, pair);
    if !has_shape_of(first, &second) {
        return None;
    }
    let step = step_between(first, &second);
    let count = run_from(shots, at + 2, pair, &second, step);
    if count < 3 {
        return None;
    }
    Some(Repetition {
        more: count - 2,
        x: step.x,
        y: step.y,
    })
}
