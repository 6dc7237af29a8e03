//! What is written, else what was there.
ghost use Rattle.std.specs.Prelude.{◌≡◌};
ghost use Rattle.oas_fields.specs.Steps.{value_or, height_by};
ghost use Rattle.oas_fields.specs.Values.{or_else, length_of};
ghost use Rattle.oas_fields.specs.Writes.{repetition_by, writes_of};
ghost use Rattle.oas_record.specs.Plain.{rectangle_of};

use crate::extension::Extension;
use crate::written::Written;
use oas_record::{Called, Deltas, PlainRectangle, Rep};
use oas_shapes::{PathList, PointList, Repetition};

#[inline(always)]
pub(crate) fn number_or(written: Option<u64>, before: Option<u64>) -> Option<u64>
    ensures { result ≡ or_else written before }
{
    match written {
        Some(number) => Some(number),
        None => before,
    }
}

#[inline(always)]
pub(crate) fn length_or(written: Option<i128>, before: Option<i128>) -> Option<i128>
    ensures { result ≡ or_else written before }
{
    match written {
        Some(length) => Some(length),
        None => before,
    }
}

#[inline(always)]
pub(crate) fn cell_or(written: Option<Called>, before: Option<Called>) -> Option<Called>
    ensures { result ≡ or_else written before }
{
    match written {
        Some(cell) => Some(cell),
        None => before,
    }
}

#[inline(always)]
pub(crate) fn mode_or(written: Option<bool>, before: bool) -> bool
    ensures { result ≡ value_or written before }
{
    match written {
        Some(is_relative) => is_relative,
        None => before,
    }
}

/// The height that a record writes, with this width: a square's is the width.
#[inline(always)]
pub(crate) fn height_by(written: Written, width: Option<u64>) -> Option<u64>
    ensures { result ≡ height_by written width }
{
    if written.is_square {
        return width;
    }
    written.height
}

/// The height that a RECTANGLE writes, with this width: a square's is the width.
#[inline(always)]
pub(crate) fn square_height(current: &PlainRectangle, width: Option<u64>) -> Option<u64>
    ensures { result ≡ height_by (writes_of (rectangle_of current.now)) width }
{
    if current.info >= 128 {
        return width;
    }
    current.height
}

/// The length of an end of a path of this half width.
#[inline(always)]
pub(crate) fn length_of(half_width: Option<u64>, written: Option<Extension>) -> Option<i128>
    ensures { result ≡ length_of half_width written }
{
    match written {
        None => None,
        Some(Extension::Flush) => Some(0),
        Some(Extension::HalfWidth) => match half_width {
            Some(half_width) => Some(i128::from(half_width)),
            None => None,
        },
        Some(Extension::Length(length)) => Some(i128::from(length)),
    }
}

// A written point list as one that paths may use again.
fn path_again(written: Option<Deltas<'_>>) -> Option<PathList<'_>>
    ensures { result ≡ written.entry }
{
    match written {
        Some(points) => Some(PathList::new(points)),
        None => None,
    }
}

/// Keeps the point list of a path where one is written.
pub(crate) fn keep_path_points<'f>(kept: &mut Option<PathList<'f>>, written: Option<Deltas<'f>>)
    ensures { kept.new ≡ or_else written.entry kept.old }
{
    match &written {
        Some(_) => *kept = path_again(written),
        None => {}
    }
}

// A written point list as one that polygons may use again.
fn points_again(written: Option<Deltas<'_>>) -> Option<PointList<'_>>
    ensures { result ≡ written.entry }
{
    match written {
        Some(points) => Some(PointList::new(points)),
        None => None,
    }
}

/// Keeps the point list of a polygon where one is written.
pub(crate) fn keep_polygon_points<'f>(kept: &mut Option<PointList<'f>>, written: Option<Deltas<'f>>)
    ensures { kept.new ≡ or_else written.entry kept.old }
{
    match &written {
        Some(_) => *kept = points_again(written),
        None => {}
    }
}

// A written repetition as one that records may use again.
fn used_again(written: Option<Rep<'_>>) -> Option<Repetition<'_>>
    ensures { result ≡ written.entry }
{
    match written {
        Some(repetition) => Some(Repetition::new(repetition)),
        None => None,
    }
}

/// Keeps a repetition where one is written; kind 0 is the last one again.
pub(crate) fn keep_repetition<'f>(kept: &mut Option<Repetition<'f>>, written: Option<Rep<'f>>)
    ensures { kept.new ≡ or_else (repetition_by written.entry) kept.old }
{
    match &written {
        Some(Rep::Same) => {}
        Some(_) => *kept = used_again(written),
        None => {}
    }
}
