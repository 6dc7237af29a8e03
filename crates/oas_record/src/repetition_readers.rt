//! Repetitions among bytes.

ghost use Rattle.std.specs.Prelude.{◌≡◌, ◌+◌, ◌<◌, ◌≤◌, ◌^◌, Some, [], ◌∷◌, length, IfOk, IfErr};
ghost use Rattle.oas_record.specs.Repetitions.{rep_rows, row_at, kind_of, dims_of, numbers_of, deltas_of, HasRepetitionRow, HasRep, RepetitionRowFails, NoRep};

use crate::delta_form::DeltaForm;
use crate::deltas::delta_at;
use crate::faults::RecordBad;
use crate::items::Numbers;
use crate::lexical::{byte_at, number_at};
use crate::lists::{deltas_at, numbers_at};
use crate::repetition::Rep;
use half_grid::Point;

/// The least dimension, which is stored as 0.
const FEWEST: u64 = 2;

// The dimension of which this is stored.
fn dimension(stored: u64) -> u64
    requires { stored < 2 ^ 63 }
    ensures { result ≡ stored + 2 }
{
    stored + FEWEST
}

// A dimension and a space.
fn spaced(bytes: &[u8], at: usize) -> Result<(u64, u64, usize), RecordBad>
    requires { at ≤ length bytes.now }
    ensures ok { IfOk result (λ r. HasRepetitionRow (row_at rep_rows 2) bytes.now at (r.0 ∷ []) (r.1 ∷ []) [] r.2) }
    ensures bad { IfErr result (λ bad. RepetitionRowFails (row_at rep_rows 2) bytes.now at bad) }
    ensures within { IfOk result (λ r. r.2 ≤ length bytes.now) }
{
    let (stored, first) = number_at(bytes, at)?;
    let (space, next) = number_at(bytes, first)?;
    Ok((dimension(stored), space, next))
}

// Two dimensions and two spaces.
fn grid(bytes: &[u8], at: usize) -> Result<(Rep<'_>, usize), RecordBad>
    requires { at ≤ length bytes.now }
    ensures kind { IfOk result (λ r. kind_of r.0 ≡ 1) }
    ensures ok { IfOk result (λ r. HasRepetitionRow (row_at rep_rows 1) bytes.now at (dims_of r.0) (numbers_of r.0) (deltas_of r.0) r.1) }
    ensures bad { IfErr result (λ bad. RepetitionRowFails (row_at rep_rows 1) bytes.now at bad) }
    ensures within { IfOk result (λ r. r.1 ≤ length bytes.now) }
{
    let (x_stored, second) = number_at(bytes, at)?;
    let (y_stored, first) = number_at(bytes, second)?;
    let (x_space, last) = number_at(bytes, first)?;
    let (y_space, next) = number_at(bytes, last)?;
    let rep = Rep::Grid {
        x_dim: dimension(x_stored),
        y_dim: dimension(y_stored),
        x_space,
        y_space,
    };
    Ok((rep, next))
}

// A dimension, and one space fewer.
fn spaces(bytes: &[u8], at: usize) -> Result<(u64, Numbers<'_>, usize), RecordBad>
    requires { at ≤ length bytes.now }
    ensures ok { IfOk result (λ r. HasRepetitionRow (row_at rep_rows 4) bytes.now at (r.0 ∷ []) r.1 [] r.2) }
    ensures bad { IfErr result (λ bad. RepetitionRowFails (row_at rep_rows 4) bytes.now at bad) }
    ensures within { IfOk result (λ r. r.2 ≤ length bytes.now) }
{
    let (stored, first) = number_at(bytes, at)?;
    let (spaces, next) = numbers_at(bytes, first, stored + 1)?;
    Ok((dimension(stored), spaces, next))
}

// A dimension, a grid, and one space fewer than the dimension.
fn spaces_on_grid(bytes: &[u8], at: usize) -> Result<(u64, u64, Numbers<'_>, usize), RecordBad>
    requires { at ≤ length bytes.now }
    ensures ok { IfOk result (λ r. HasRepetitionRow (row_at rep_rows 5) bytes.now at (r.0 ∷ []) (r.1 ∷ r.2) [] r.3) }
    ensures bad { IfErr result (λ bad. RepetitionRowFails (row_at rep_rows 5) bytes.now at bad) }
    ensures within { IfOk result (λ r. r.3 ≤ length bytes.now) }
{
    let (stored, grid_at) = number_at(bytes, at)?;
    let (grid, first) = number_at(bytes, grid_at)?;
    let (spaces, next) = numbers_at(bytes, first, stored + 1)?;
    Ok((dimension(stored), grid, spaces, next))
}

// Two dimensions and two moves.
fn lattice(bytes: &[u8], at: usize) -> Result<(Rep<'_>, usize), RecordBad>
    requires { at ≤ length bytes.now }
    ensures kind { IfOk result (λ r. kind_of r.0 ≡ 8) }
    ensures ok { IfOk result (λ r. HasRepetitionRow (row_at rep_rows 8) bytes.now at (dims_of r.0) (numbers_of r.0) (deltas_of r.0) r.1) }
    ensures bad { IfErr result (λ bad. RepetitionRowFails (row_at rep_rows 8) bytes.now at bad) }
    ensures within { IfOk result (λ r. r.1 ≤ length bytes.now) }
{
    let (n_stored, second) = number_at(bytes, at)?;
    let (m_stored, first) = number_at(bytes, second)?;
    let (u, last) = delta_at(bytes, first, DeltaForm::GDelta)?;
    let (v, next) = delta_at(bytes, last, DeltaForm::GDelta)?;
    let rep = Rep::Lattice {
        n_dim: dimension(n_stored),
        m_dim: dimension(m_stored),
        u,
        v,
    };
    Ok((rep, next))
}

// A dimension and a move.
fn line(bytes: &[u8], at: usize) -> Result<(Rep<'_>, usize), RecordBad>
    requires { at ≤ length bytes.now }
    ensures kind { IfOk result (λ r. kind_of r.0 ≡ 9) }
    ensures ok { IfOk result (λ r. HasRepetitionRow (row_at rep_rows 9) bytes.now at (dims_of r.0) (numbers_of r.0) (deltas_of r.0) r.1) }
    ensures bad { IfErr result (λ bad. RepetitionRowFails (row_at rep_rows 9) bytes.now at bad) }
    ensures within { IfOk result (λ r. r.1 ≤ length bytes.now) }
{
    let (stored, first) = number_at(bytes, at)?;
    let (u, next) = delta_at(bytes, first, DeltaForm::GDelta)?;
    let rep = Rep::Line {
        dim: dimension(stored),
        u,
    };
    Ok((rep, next))
}

// A dimension, and one move fewer.
fn moves(bytes: &[u8], at: usize) -> Result<(Rep<'_>, usize), RecordBad>
    requires { at ≤ length bytes.now }
    ensures kind { IfOk result (λ r. kind_of r.0 ≡ 10) }
    ensures ok { IfOk result (λ r. HasRepetitionRow (row_at rep_rows 10) bytes.now at (dims_of r.0) (numbers_of r.0) (deltas_of r.0) r.1) }
    ensures bad { IfErr result (λ bad. RepetitionRowFails (row_at rep_rows 10) bytes.now at bad) }
    ensures within { IfOk result (λ r. r.1 ≤ length bytes.now) }
{
    let (stored, first) = number_at(bytes, at)?;
    let (moves, next) = deltas_at(bytes, first, stored + 1, DeltaForm::GDelta)?;
    let rep = Rep::Moves {
        dim: dimension(stored),
        moves,
    };
    Ok((rep, next))
}

// A dimension, a grid, and one move fewer than the dimension.
fn moves_on_grid(bytes: &[u8], at: usize) -> Result<(Rep<'_>, usize), RecordBad>
    requires { at ≤ length bytes.now }
    ensures kind { IfOk result (λ r. kind_of r.0 ≡ 11) }
    ensures ok { IfOk result (λ r. HasRepetitionRow (row_at rep_rows 11) bytes.now at (dims_of r.0) (numbers_of r.0) (deltas_of r.0) r.1) }
    ensures bad { IfErr result (λ bad. RepetitionRowFails (row_at rep_rows 11) bytes.now at bad) }
    ensures within { IfOk result (λ r. r.1 ≤ length bytes.now) }
{
    let (stored, grid_at) = number_at(bytes, at)?;
    let (grid, first) = number_at(bytes, grid_at)?;
    let (moves, next) = deltas_at(bytes, first, stored + 1, DeltaForm::GDelta)?;
    let rep = Rep::MovesOnGrid {
        dim: dimension(stored),
        grid,
        moves,
    };
    Ok((rep, next))
}

// The rest of a repetition of this kind, from `at` on.
fn rest_of(bytes: &[u8], at: usize, kind: u8) -> Result<(Rep<'_>, usize), RecordBad>
    requires { at ≤ length bytes.now }
    ensures kind { IfOk result (λ r. kind_of r.0 ≡ kind) }
    ensures ok { IfOk result (λ r. HasRepetitionRow (row_at rep_rows kind) bytes.now at (dims_of r.0) (numbers_of r.0) (deltas_of r.0) r.1) }
    ensures bad { IfErr result (λ bad. RepetitionRowFails (row_at rep_rows kind) bytes.now at bad) }
    ensures within { IfOk result (λ r. r.1 ≤ length bytes.now) }
{
    match kind {
        0 => Ok((Rep::Same, at)),
        1 => grid(bytes, at),
        2 => {
            let (dim, space, next) = spaced(bytes, at)?;
            Ok((Rep::Row { dim, space }, next))
        }
        3 => {
            let (dim, space, next) = spaced(bytes, at)?;
            Ok((Rep::Column { dim, space }, next))
        }
        4 => {
            let (dim, spaces, next) = spaces(bytes, at)?;
            Ok((Rep::RowSpaces { dim, spaces }, next))
        }
        5 => {
            let (dim, grid, spaces, next) = spaces_on_grid(bytes, at)?;
            Ok((Rep::RowOnGrid { dim, grid, spaces }, next))
        }
        6 => {
            let (dim, spaces, next) = spaces(bytes, at)?;
            Ok((Rep::ColumnSpaces { dim, spaces }, next))
        }
        7 => {
            let (dim, grid, spaces, next) = spaces_on_grid(bytes, at)?;
            Ok((Rep::ColumnOnGrid { dim, grid, spaces }, next))
        }
        8 => lattice(bytes, at),
        9 => line(bytes, at),
        10 => moves(bytes, at),
        11 => moves_on_grid(bytes, at),
        _ => Err(RecordBad::Shape),
    }
}

// The repetition at `at`, and the offset after it.
pub(crate) fn repetition_at(bytes: &[u8], at: usize) -> Result<(Rep<'_>, usize), RecordBad>
    requires { at ≤ length bytes.now }
    ensures ok { IfOk result (λ r. HasRep bytes.now at r.0 r.1) }
    ensures bad { IfErr result (λ bad. NoRep bytes.now at bad) }
    ensures within { IfOk result (λ r. r.1 ≤ length bytes.now) }
{
    let kind = byte_at(bytes, at)?;
    rest_of(bytes, at + 1, kind)
}
