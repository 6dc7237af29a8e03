//! Numbers and deltas one after the other, and point lists.

ghost use Rattle.std.specs.Prelude.{◌≡◌, ◌<◌, ◌≤◌, ◌^◌, ℕ, List, length, IfOk, IfErr};
ghost use Rattle.half_grid.specs.declared.plane.Point.{Point as APoint};
ghost use Rattle.oas_record.specs.Lists.{allows_count, HasDeltas, HasNumbers, HasPoints, NoDeltas, NoNumbers, NoPoints};

use crate::delta_form::{DeltaForm, delta_form};
use crate::deltas::delta_at;
use crate::faults::RecordBad;
use crate::fields::Deltas;
use crate::items::{Moves, Numbers};
use crate::lexical::{byte_at, number_at};

// The offset after so many unsigned numbers from `at` on.
pub(crate) fn end_of_numbers(bytes: &[u8], at: usize, count: u64) -> Result<usize, RecordBad>
    requires { at ≤ length bytes.now }
    ensures ok { IfOk result (λ next. (ns : List ℕ) × (length ns ≡ count) × HasNumbers bytes.now at ns next) }
    ensures bad { IfErr result (λ bad. NoNumbers count bytes.now at bad) }
    ensures within { IfOk result (λ next. next ≤ length bytes.now) }
{
    let mut next = at;
    for _index in 0..count {
        let (_number, end) = number_at(bytes, next)?;
        next = end;
    }
    Ok(next)
}

// So many unsigned numbers from `at` on, and the offset after them.
pub(crate) fn numbers_at(
    bytes: &[u8],
    at: usize,
    count: u64,
) -> Result<(Numbers<'_>, usize), RecordBad>
    requires { at ≤ length bytes.now }
    ensures ok { IfOk result (λ r. HasNumbers bytes.now at r.0 r.1) }
    ensures size { IfOk result (λ r. length r.0 ≡ count) }
    ensures bad { IfErr result (λ bad. NoNumbers count bytes.now at bad) }
    ensures within { IfOk result (λ r. r.1 ≤ length bytes.now) }
{
    let next = end_of_numbers(bytes, at, count)?;
    Ok((Numbers::new(bytes, at, count), next))
}

// The offset after so many deltas from `at` on, the first of this form.
fn end_of_deltas(bytes: &[u8], at: usize, count: u64, form: DeltaForm) -> Result<usize, RecordBad>
    requires { at ≤ length bytes.now }
    ensures ok { IfOk result (λ next. (ps : List APoint) × (length ps ≡ count) × HasDeltas form bytes.now at ps next) }
    ensures bad { IfErr result (λ bad. NoDeltas form count bytes.now at bad) }
    ensures within { IfOk result (λ next. next ≤ length bytes.now) }
{
    let mut next = at;
    let mut current = form;
    for _index in 0..count {
        let (_delta, end) = delta_at(bytes, next, current)?;
        next = end;
        current = current.turned();
    }
    Ok(next)
}

// So many deltas from `at` on, the first of this form, and the offset after them.
pub(crate) fn deltas_at(
    bytes: &[u8],
    at: usize,
    count: u64,
    form: DeltaForm,
) -> Result<(Moves<'_>, usize), RecordBad>
    requires { at ≤ length bytes.now }
    ensures ok { IfOk result (λ r. HasDeltas form bytes.now at r.0 r.1) }
    ensures size { IfOk result (λ r. length r.0 ≡ count) }
    ensures bad { IfErr result (λ bad. NoDeltas form count bytes.now at bad) }
    ensures within { IfOk result (λ r. r.1 ≤ length bytes.now) }
{
    let next = end_of_deltas(bytes, at, count, form)?;
    Ok((Moves::new(bytes, at, count, form), next))
}

// Whether a point list of this kind may have so many stored deltas.
fn allows_count(is_polygon: bool, kind: u8, count: u64) -> bool
    ensures { result ≡ allows_count is_polygon kind count }
{
    if is_polygon && kind < 2 {
        return count > 1 && count % 2 == 0;
    }
    count > 0
}

// The point list at `at` of a polygon or a path, and the offset after it.
pub(crate) fn points_at(
    bytes: &[u8],
    at: usize,
    is_polygon: bool,
) -> Result<(Deltas<'_>, usize), RecordBad>
    requires { at ≤ length bytes.now }
    ensures ok { IfOk result (λ r. HasPoints is_polygon bytes.now at r.0 r.1) }
    ensures bad { IfErr result (λ bad. NoPoints is_polygon bytes.now at bad) }
    ensures within { IfOk result (λ r. r.1 ≤ length bytes.now) }
{
    let kind = byte_at(bytes, at)?;
    let Some(form) = delta_form(kind) else {
        return Err(RecordBad::Shape);
    };
    let (count, first) = number_at(bytes, at + 1)?;
    if !allows_count(is_polygon, kind, count) {
        return Err(RecordBad::Shape);
    }
    let (items, next) = deltas_at(bytes, first, count, form)?;
    Ok((Deltas { kind, items }, next))
}
