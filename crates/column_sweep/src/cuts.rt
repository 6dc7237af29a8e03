//! Where a sweep is cut into columns. Any cuts give the same answer, so what is here steers the cost alone.
ghost use Rattle.std.specs.Prelude.{◌<◌, length, IfOk};

use crate::waiting::least_x;
use geo_stream::NoMemory;
use half_grid::{Edge, Line, x_at};
use std::alloc::Global;

/// An upright line between two columns, by its X.
#[derive(Clone, Copy, Debug, PartialEq, Eq, PartialOrd, Ord)]
pub(crate) struct Cut {
    pub(crate) x: i64,
}

/// Every eighth cut: fewer than before, but where there are none.
pub(crate) fn fewer(alloc: Global, cuts: &[Cut]) -> Result<Vec<Cut>, NoMemory>
    ensures { 0 < length cuts.now → IfOk result (λ some. length some.items < length cuts.now) }
{
    let mut some = Vec::new(alloc);
    let mut left = cuts;
    while left.len() >= 8 {
        some.push(left[7])?;
        left = &left[8..];
    }
    Ok(some)
}

/// No more edges than this are looked at for where to cut.
const SAMPLE: usize = 16384;

/// Sums over all edges, and the box round them.
#[derive(Clone, Copy)]
struct Sums {
    bottom: i64,
    top: i64,
    left: i64,
    right: i64,
    heights: u128,
    area: i128,
}

fn height_of(edge: &Edge) -> u64 {
    edge.y1().abs_diff(edge.y0())
}

// The X of the edge's upper end.
fn upper_x(edge: &Edge) -> i64 {
    x_at(edge.line(), edge.y1())
}

// The edge's part of twice the area inside: its height, times the sum of the X of its ends.
fn area_of(edge: &Edge) -> i128 {
    let ends = i128::from(least_x(edge).x).wrapping_add(i128::from(upper_x(edge)));
    let area = ends.wrapping_mul(i128::from(height_of(edge)));
    if edge.is_up() {
        return area.wrapping_neg();
    }
    area
}

impl Sums {
    fn none() -> Sums {
        Sums {
            bottom: i64::MAX,
            top: i64::MIN,
            left: i64::MAX,
            right: i64::MIN,
            heights: 0,
            area: 0,
        }
    }

    fn with(self, edge: &Edge) -> Sums {
        let x = least_x(edge).x;
        Sums {
            bottom: self.bottom.min(edge.y0()),
            top: self.top.max(edge.y1()),
            left: self.left.min(x),
            right: self.right.max(x),
            heights: self.heights.wrapping_add(u128::from(height_of(edge))),
            area: self.area.wrapping_add(area_of(edge)),
        }
    }

    // How many edges a row has.
    fn alive(self) -> u128 {
        let rows = u128::from(self.top.abs_diff(self.bottom));
        self.heights.checked_div(rows).unwrap_or(0)
    }

    // How many shapes lie on a point, at least one.
    fn depth(self) -> u128 {
        let rows = u128::from(self.top.abs_diff(self.bottom));
        let room = rows.wrapping_mul(u128::from(self.right.abs_diff(self.left)));
        let twice = self.area.unsigned_abs() / 2;
        twice.checked_div(room).unwrap_or(0).max(1)
    }
}

fn sums_of(edges: &[Edge]) -> Sums {
    let mut sums = Sums::none();
    for edge in edges {
        sums = sums.with(edge);
    }
    sums
}

// How many columns these edges are to be swept in. A column costs some 200 steps for each edge that crosses into it, and
// the more columns there are, the fewer edges does a stop go over.
fn columns_for(edges: &[Edge]) -> u128 {
    let sums = sums_of(edges);
    let depth = sums.depth();
    let each = depth
        .saturating_mul(depth.saturating_mul(4).saturating_add(200))
        .isqrt()
        .max(1);
    let wanted = sums.alive().checked_div(each).unwrap_or(0);
    wanted.min(edges.len() as u128 / 16)
}

// The lower Y of some of the edges, sorted.
fn bottoms(alloc: Global, edges: &[Edge]) -> Result<Vec<i64>, NoMemory> {
    let mut some = Vec::new(alloc);
    let step = (edges.len() / SAMPLE).max(1);
    for edge in edges.iter().step_by(step) {
        some.push(edge.y0())?;
    }
    some.sort_unstable();
    Ok(some)
}

// How many different numbers a sorted list has.
fn different(sorted: &[i64]) -> u128 {
    let mut count = 0u128;
    let mut last = None;
    for y in sorted {
        if last != Some(*y) {
            count = count.wrapping_add(1);
        }
        last = Some(*y);
    }
    count
}

/// How many edges a sweep without columns may go over, where it is to be tried first: where many edges begin at one Y,
/// as in an array, and so few stops are to be expected that it goes over an edge some dozen times at most.
pub(crate) fn plain_budget(alloc: Global, edges: &[Edge]) -> Result<Option<u64>, NoMemory> {
    let some = bottoms(alloc, edges)?;
    let stops = different(some.as_slice());
    if (some.len() as u128) < stops.saturating_mul(2) {
        return Ok(None);
    }
    let walked = stops
        .saturating_mul(2)
        .saturating_mul(sums_of(edges).alive());
    if (edges.len() as u128).saturating_mul(24) < walked {
        return Ok(None);
    }
    Ok(Some((edges.len() as u64).saturating_mul(48)))
}

// How many of the cuts are left of the X, or on it.
fn cuts_up_to(cuts: &[Cut], x: i64) -> usize {
    cuts.partition_point(|cut| cut.x <= x)
}

// How many of the cuts an edge that leans crosses.
fn crossed_by(edge: &Edge, cuts: &[Cut]) -> u64 {
    let left = least_x(edge).x;
    let right = left.saturating_add_unsigned(height_of(edge));
    cuts_up_to(cuts, right).abs_diff(cuts_up_to(cuts, left)) as u64
}

/// Whether edges that lean cross the cuts more than twice for each edge there is. A part costs as much as an edge, so a sweep
/// in columns would take long then: that of 3,000 long wires at 45 degrees goes over a million parts.
pub(crate) fn are_often_crossed(edges: &[Edge], cuts: &[Cut]) -> bool {
    let mut crossings = 0u64;
    for edge in edges {
        if !matches!(edge.line(), Line::Upright(_)) {
            crossings = crossings.wrapping_add(crossed_by(edge, cuts));
        }
    }
    (edges.len() as u64).saturating_mul(2) < crossings
}

// The least X of some of the edges, sorted.
fn sample(alloc: Global, edges: &[Edge]) -> Result<Vec<Cut>, NoMemory> {
    let mut some = Vec::new(alloc);
    let step = (edges.len() / SAMPLE).max(1);
    for edge in edges.iter().step_by(step) {
        some.push(least_x(edge))?;
    }
    some.sort_unstable();
    Ok(some)
}

/// Where to cut a sweep of these edges.
pub(crate) fn chosen_cuts(alloc: Global, edges: &[Edge]) -> Result<Vec<Cut>, NoMemory> {
    let mut cuts = Vec::new(alloc);
    let columns = columns_for(edges);
    if columns < 2 {
        return Ok(cuts);
    }
    let some = sample(alloc, edges)?;
    let each = (some.len() as u128 / columns).max(1);
    let each = usize::try_from(each).unwrap_or(usize::MAX);
    for at in some.iter().step_by(each).skip(1) {
        cuts.push(Cut {
            x: at.x.saturating_sub(1),
        })?;
    }
    Ok(cuts)
}
