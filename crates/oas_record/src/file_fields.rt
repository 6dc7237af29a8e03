//! The table offsets of START and END, and the validation bytes.

ghost use Rattle.std.specs.Prelude.{◌≡◌, ◌≤◌, length, IfOk, IfErr};
ghost use Rattle.oas_record.specs.Records.{span_or, switch_of};
ghost use Rattle.oas_record.specs.Rows.{Bit, FourBytes, NotZero, Tables, Zero, HasWhere, NoWhere, is_written};

use crate::faults::RecordBad;
use crate::lexical::four_bytes_at;
use crate::values::end_of_tables;

// Where the table offsets at `at` start and end where they are written, and the offset after them.
fn tables_if(
    bytes: &[u8],
    at: usize,
    is_written: bool,
) -> Result<(Option<(usize, usize)>, usize), RecordBad>
    requires { at ≤ length bytes.now }
    ensures ok { IfOk result (λ r. HasWhere is_written Tables 0 bytes.now at (span_or r.0) r.1) }
    ensures bad { IfErr result (λ bad. NoWhere is_written Tables 0 bytes.now at bad) }
    ensures within { IfOk result (λ r. r.1 ≤ length bytes.now) }
{
    if !is_written {
        return Ok((None, at));
    }
    let next = end_of_tables(bytes, at)?;
    Ok((Some((at, next)), next))
}

fn is_zero(flag: u64) -> bool
    ensures { result ≡ is_written Zero flag }
{
    flag == 0
}

fn is_indexed(tables: bool) -> bool
    ensures { result ≡ is_written (Bit 0) (switch_of tables) }
{
    tables
}

fn is_validated(scheme: u64) -> bool
    ensures { result ≡ is_written NotZero scheme }
{
    scheme != 0
}

// The table offsets of START, which are written where the offset flag is 0.
pub(crate) fn start_tables_at(
    bytes: &[u8],
    at: usize,
    flag: u64,
) -> Result<(Option<(usize, usize)>, usize), RecordBad>
    requires { at ≤ length bytes.now }
    ensures ok { IfOk result (λ r. HasWhere (is_written Zero flag) Tables flag bytes.now at (span_or r.0) r.1) }
    ensures bad { IfErr result (λ bad. NoWhere (is_written Zero flag) Tables flag bytes.now at bad) }
    ensures within { IfOk result (λ r. r.1 ≤ length bytes.now) }
{
    tables_if(bytes, at, is_zero(flag))
}

// The table offsets of END.
pub(crate) fn end_tables_at(
    bytes: &[u8],
    at: usize,
    tables: bool,
) -> Result<(Option<(usize, usize)>, usize), RecordBad>
    requires { at ≤ length bytes.now }
    ensures ok { IfOk result (λ r. HasWhere (is_written (Bit 0) (switch_of tables)) Tables (switch_of tables) bytes.now at (span_or r.0) r.1) }
    ensures bad { IfErr result (λ bad. NoWhere (is_written (Bit 0) (switch_of tables)) Tables (switch_of tables) bytes.now at bad) }
    ensures within { IfOk result (λ r. r.1 ≤ length bytes.now) }
{
    tables_if(bytes, at, is_indexed(tables))
}

// Where the validation bytes at `at` start and end where they are written, and the offset after them.
fn validation_if(
    bytes: &[u8],
    at: usize,
    is_written: bool,
) -> Result<(Option<(usize, usize)>, usize), RecordBad>
    requires { at ≤ length bytes.now }
    ensures ok { IfOk result (λ r. HasWhere is_written FourBytes 0 bytes.now at (span_or r.0) r.1) }
    ensures bad { IfErr result (λ bad. NoWhere is_written FourBytes 0 bytes.now at bad) }
    ensures within { IfOk result (λ r. r.1 ≤ length bytes.now) }
{
    if !is_written {
        return Ok((None, at));
    }
    let next = four_bytes_at(bytes, at)?;
    Ok((Some((at, next)), next))
}

// The validation bytes at `at`, which are written where the scheme isn't 0.
pub(crate) fn validation_at(
    bytes: &[u8],
    at: usize,
    scheme: u64,
) -> Result<(Option<(usize, usize)>, usize), RecordBad>
    requires { at ≤ length bytes.now }
    ensures ok { IfOk result (λ r. HasWhere (is_written NotZero scheme) FourBytes scheme bytes.now at (span_or r.0) r.1) }
    ensures bad { IfErr result (λ bad. NoWhere (is_written NotZero scheme) FourBytes scheme bytes.now at bad) }
    ensures within { IfOk result (λ r. r.1 ≤ length bytes.now) }
{
    validation_if(bytes, at, is_validated(scheme))
}
