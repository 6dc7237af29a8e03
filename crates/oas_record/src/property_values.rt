//! The count and the values of a property.

ghost use Rattle.std.specs.Prelude.{◌≡◌, ◌≤◌, ◌/◌, length, IfOk, IfErr};
ghost use Rattle.oas_record.specs.Records.{number_or, span_or};
ghost use Rattle.oas_record.specs.Rows.{Clear, Count, Fifteen, Values, HasWhere, NoWhere, is_written, with_count};

use crate::faults::RecordBad;
use crate::lexical::number_at;
use crate::optional::is_set;
use crate::values::end_of_values;

/// The four highest bits of an info byte where a count is written.
const COUNTED: u8 = 15;

// The count at `at` where the four highest bits are set, and the offset after it.
pub(crate) fn count_where(
    bytes: &[u8],
    at: usize,
    info: u8,
) -> Result<(Option<u64>, usize), RecordBad>
    requires { at ≤ length bytes.now }
    ensures ok { IfOk result (λ r. HasWhere (is_written Fifteen info) Count info bytes.now at (number_or r.0) r.1) }
    ensures bad { IfErr result (λ bad. NoWhere (is_written Fifteen info) Count info bytes.now at bad) }
    ensures within { IfOk result (λ r. r.1 ≤ length bytes.now) }
{
    if info / 16 != COUNTED {
        return Ok((None, at));
    }
    let (count, next) = number_at(bytes, at)?;
    Ok((Some(count), next))
}

// How many values a property has.
fn total(info: u8, count: Option<u64>) -> u64
    ensures { result ≡ with_count (number_or count) info / 16 }
{
    match count {
        Some(count) => count,
        None => u64::from(info / 16),
    }
}

// Whether the values are written.
fn has_values(info: u8, _count: Option<u64>) -> bool
    ensures { result ≡ is_written (Clear 3) (with_count (number_or _count) info) }
{
    !is_set(info, 3)
}

// Where the values at `at` start and end where they are written, and the offset after them.
pub(crate) fn values_at(
    bytes: &[u8],
    at: usize,
    info: u8,
    count: Option<u64>,
) -> Result<(Option<(usize, usize)>, usize), RecordBad>
    requires { at ≤ length bytes.now }
    ensures ok { IfOk result (λ r. HasWhere (is_written (Clear 3) (with_count (number_or count) info)) Values (with_count (number_or count) info) bytes.now at (span_or r.0) r.1) }
    ensures bad { IfErr result (λ bad. NoWhere (is_written (Clear 3) (with_count (number_or count) info)) Values (with_count (number_or count) info) bytes.now at bad) }
    ensures within { IfOk result (λ r. r.1 ≤ length bytes.now) }
{
    if !has_values(info, count) {
        return Ok((None, at));
    }
    let next = end_of_values(bytes, at, total(info, count))?;
    Ok((Some((at, next)), next))
}
