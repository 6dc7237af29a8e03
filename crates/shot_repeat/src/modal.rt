//! The values of the fields that a record doesn't write.
ghost use Rattle.std.specs.Prelude.{◌≡◌, ◌≤◌, ◌+◌, ◌<◌, ◌^◌, ◌⊎◌, ◌↔◌, ℕ, pos, List, Option, IfSome, IsSome, IsTrue, IfOk, IfErr, unwrap_or};
ghost use Rattle.oas_lex.specs.declared.fields.ShotFields.{ShotFields as Fields};
ghost use Rattle.shot_reader.specs.Reading.{AgreesWithPair};
ghost use Rattle.shot_repeat.specs.Values.{newer, shot_count, step_of};
ghost use Rattle.shot_repeat.specs.Modal.{updated, IsShown};

use crate::record::{PackRecord, Repetition};
use half_grid::Point;
use layout_model::Pair;
use oas_lex::ShotFields;

/// The last value of each field.
#[derive(Clone, Copy)]
pub(crate) struct Modal {
    pub(crate) layer: Option<u64>,
    pub(crate) datatype: Option<u64>,
    pub(crate) width: Option<u64>,
    pub(crate) height: Option<u64>,
    pub(crate) x: i64,
    pub(crate) y: i64,
}

/// Before the first written.
pub(crate) fn nothing_written() -> Modal
    ensures layer { result.layer ≡ None }
    ensures datatype { result.datatype ≡ None }
    ensures width { result.width ≡ None }
    ensures height { result.height ≡ None }
    ensures x { result.x ≡ pos 0 }
    ensures y { result.y ≡ pos 0 }
{
    Modal {
        layer: None,
        datatype: None,
        width: None,
        height: None,
        x: 0,
        y: 0,
    }
}

// The value that is written, or else the one before.
fn newer(own: Option<u64>, before: Option<u64>) -> Option<u64>
    ensures { result ≡ newer own before }
{
    match own {
        Some(value) => Some(value),
        None => before,
    }
}

// The place that is written, or else the one before.
fn newer_place(own: Option<i64>, before: i64) -> i64
    ensures { result ≡ unwrap_or own before }
{
    match own {
        Some(value) => value,
        None => before,
    }
}

/// The last values after the written.
pub(crate) fn updated(modal: &Modal, written: &PackRecord) -> Modal
    ensures { result ≡ updated modal.now written.now }
{
    Modal {
        layer: newer(written.layer, modal.layer),
        datatype: newer(written.datatype, modal.datatype),
        width: newer(written.width, modal.width),
        height: newer(written.height, modal.height),
        x: newer_place(written.x, modal.x),
        y: newer_place(written.y, modal.y),
    }
}

/// The fields of the record's first shot, by the last values after the written. None where a layer, a datatype, a width
/// or a height was never written.
pub(crate) fn fields_shown(modal: &Modal, written: &PackRecord) -> Option<ShotFields>
    ensures some { IfSome result (λ f. IsShown modal.now written.now f) }
    ensures all { (f : Fields) → IsShown modal.now written.now f → IsSome result }
{
    let Some(layer) = modal.layer else {
        return None;
    };
    let Some(datatype) = modal.datatype else {
        return None;
    };
    let Some(width) = modal.width else {
        return None;
    };
    let Some(height) = modal.height else {
        return None;
    };
    Some(ShotFields {
        layer,
        datatype,
        width,
        height,
        left_delta: written.left_delta,
        right_delta: written.right_delta,
        x: modal.x,
        y: modal.y,
    })
}

/// Whether a record with the pair may come after those with the first.
pub(crate) fn agrees(first: Option<Pair>, layer: u64, datatype: u64) -> bool
    ensures { IsTrue result ↔ AgreesWithPair first layer datatype }
{
    match first {
        None => true,
        Some(own) => own.layer == layer && own.datatype == datatype,
    }
}

/// How many shots the record gives.
pub(crate) fn count_of(repetition: &Option<Repetition>) -> u64
    requires { shot_count repetition.now < 2 ^ 64 }
    ensures { result ≡ shot_count repetition.now }
{
    match repetition {
        None => 1,
        Some(repetition) => repetition.more + 2,
    }
}

/// How far each of its shots lies from the one before it.
pub(crate) fn step_of(repetition: &Option<Repetition>) -> Point
    ensures { result ≡ step_of repetition.now }
{
    match repetition {
        None => Point { x: 0, y: 0 },
        Some(repetition) => Point {
            x: repetition.x,
            y: repetition.y,
        },
    }
}
