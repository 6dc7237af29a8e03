//! Whether columns would cut shapes often. No answer depends on it: it steers the cost alone.

use half_grid::{Edge, x_at};

// About so many pairs of edges are looked at, or twice as many.
const SAMPLE: usize = 4096;
// A column has about so many edges side by side.
const SIDE_BY_SIDE: u128 = 14;
// Where a level side crosses more columns than this, they cost more than a sweep that has none, unless shapes cross each other
// as often.
const OFTEN: u128 = 20;
// Where so many shapes lie one over another, that sweep goes over each line whose windings change.
const PILED: u128 = 4;

// Sums over pairs of edges that follow one another, and the box round them.
#[derive(Clone, Copy)]
struct Extent {
    bottom: i64,
    top: i64,
    left: i64,
    right: i64,
    pairs: u64,
    heights: u128,
    lengths: u128,
}

// An edge's X at its lower end.
fn lower_x(edge: &Edge) -> i64 {
    x_at(edge.line(), edge.y0())
}

fn upper_x(edge: &Edge) -> i64 {
    x_at(edge.line(), edge.y1())
}

fn height_of(edge: &Edge) -> u64 {
    edge.y1().abs_diff(edge.y0())
}

// Whether a level side may lead from one edge to the other.
fn share_an_end(edge: &Edge, next: &Edge) -> bool {
    let bottom = edge.y0();
    let top = edge.y1();
    bottom == next.y0() || top == next.y1() || bottom == next.y1() || top == next.y0()
}

// How long that side is.
fn length_between(edge: &Edge, next: &Edge) -> u64 {
    if share_an_end(edge, next) {
        return lower_x(edge).abs_diff(lower_x(next));
    }
    0
}

// The edge's part of twice the area inside, each part as often as shapes lie on it: its height, times the sum of the X of its
// ends.
fn area_of(edge: &Edge) -> i128 {
    let ends = i128::from(lower_x(edge)).wrapping_add(i128::from(upper_x(edge)));
    let area = ends.wrapping_mul(i128::from(height_of(edge)));
    if edge.is_up() {
        return area.wrapping_neg();
    }
    area
}

impl Extent {
    fn none() -> Extent {
        Extent {
            bottom: i64::MAX,
            top: i64::MIN,
            left: i64::MAX,
            right: i64::MIN,
            pairs: 0,
            heights: 0,
            lengths: 0,
        }
    }

    fn with(self, edge: &Edge, next: &Edge) -> Extent {
        let x = lower_x(edge);
        let heights = u128::from(height_of(edge)).wrapping_add(u128::from(height_of(next)));
        Extent {
            bottom: self.bottom.min(edge.y0()),
            top: self.top.max(edge.y1()),
            left: self.left.min(x),
            right: self.right.max(x),
            pairs: self.pairs.wrapping_add(1),
            heights: self.heights.wrapping_add(heights),
            lengths: self
                .lengths
                .wrapping_add(u128::from(length_between(edge, next))),
        }
    }

    // How many columns a level side crosses, where there are so many edges in all.
    fn crossings(self, edges: usize) -> u128 {
        let height = u128::from(self.top.abs_diff(self.bottom)).max(1);
        let width = u128::from(self.right.abs_diff(self.left)).max(1);
        let pairs = u128::from(self.pairs).max(1);
        let each = self.heights / pairs / 2;
        let alive = each.wrapping_mul(edges as u128) / height;
        let columns = alive / SIDE_BY_SIDE;
        (self.lengths / pairs).wrapping_mul(columns) / width
    }

    // How many shapes lie on a point of the box round these edges.
    fn depth(self, edges: &[Edge]) -> u128 {
        let height = u128::from(self.top.abs_diff(self.bottom)).max(1);
        let width = u128::from(self.right.abs_diff(self.left)).max(1);
        let mut area = 0i128;
        for edge in edges {
            area = area.wrapping_add(area_of(edge));
        }
        area.unsigned_abs() / 2 / height.wrapping_mul(width).max(1)
    }
}

/// Whether the shapes of these edges are so long, and so many stand side by side and not one over another, that columns would
/// cut each of them often: a spiral, say. It looks at some thousand of the edges, and at all of them where it seems so.
pub(crate) fn are_long(edges: &[Edge]) -> bool {
    // An odd step: what is to be seen may come with every second edge, or with every fourth.
    let step = (edges.len() / SAMPLE / 2).max(1) * 2 + 1;
    let mut extent = Extent::none();
    for some in edges.chunks(step) {
        if let Some((edge, others)) = some.split_first() {
            if let Some((next, _rest)) = others.split_first() {
                extent = extent.with(edge, next);
            }
        }
    }
    extent.crossings(edges.len()) > OFTEN && extent.depth(edges) < PILED
}
