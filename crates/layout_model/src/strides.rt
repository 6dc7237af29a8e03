//! The first place of a grid in an interval, by division.
ghost use Rattle.std.specs.Int.{int_min, int_max};
ghost use Rattle.std.specs.Prelude.{◌≡◌, ◌↔◌, ◌<◌, ◌≤◌, ◌+◌, ◌*◌, ◌^◌, ℕ, ℤ, pos, neg_ℤ, ◌+ℤ◌, ◌-ℤ◌, ◌*ℤ◌, ◌≤ℤ◌};
ghost use Rattle.layout_model.specs.Intervals.{IsBetween};
ghost use Rattle.layout_model.specs.Strides.{after_steps, mark, IsNearby, IsNearInterval, IsStride, IsRuler, Finds};

use crate::intervals::Interval;
use crate::products::{combine, sum, times};

// A way to go, and how far a step goes.
#[derive(Clone, Copy)]
struct Way {
    length: i64,
    pace: i64,
}

// Steps on an axis that are all alike.
#[derive(Clone, Copy)]
pub(crate) struct Stride {
    pub(crate) start: i64,
    pub(crate) step: i64,
}

// A grid's places on an axis: place `k` is at `(k mod nu)*u + (k div nu)*v`.
#[derive(Clone, Copy)]
pub(crate) struct Ruler {
    pub(crate) nu: u64,
    pub(crate) nv: u64,
    pub(crate) u: i64,
    pub(crate) v: i64,
}

// No place of a grid is farther from 0.
const FAR: i64 = 1 << 45;

// The coordinate, or the farthest one.
fn near(interval: Interval) -> Interval
    ensures near { IsNearInterval result }
    ensures low { result.low ≡ int_min (int_max interval.low (neg_ℤ (pos (2 ^ 45)))) (pos (2 ^ 45)) }
    ensures high { result.high ≡ int_min (int_max interval.high (neg_ℤ (pos (2 ^ 45)))) (pos (2 ^ 45)) }
{
    Interval {
        axis: interval.axis,
        low: interval.low.max(-FAR).min(FAR),
        high: interval.high.max(-FAR).min(FAR),
    }
}

impl Way {
    // How many steps go at least so far.
    fn steps(self) -> u64
        requires length { self.length ≤ℤ pos (2 ^ 46) }
        requires pace { pos 1 ≤ℤ self.pace }
        requires short { self.pace ≤ℤ pos (2 ^ 45) }
        ensures { (n : ℕ) → (self.length ≤ℤ (pos n *ℤ self.pace)) ↔ (result ≤ n) }
    {
        if self.length <= 0 {
            return 0;
        }
        let pace = self.pace as u64;
        (self.length as u64 + (pace - 1)) / pace
    }
}

impl Stride {
    // The coordinate after so many steps.
    fn at(self, count: u64, n: u64) -> i64
        requires stride { IsStride self count }
        requires inside { n < count }
        ensures { result ≡ after_steps self n }
    {
        sum(i128::from(self.start), times(n, self.step))
    }

    // The way up to the least coordinate of an interval.
    fn way_up(self, interval: Interval) -> Way
        requires start { IsNearby self.start }
        requires near { IsNearInterval interval }
        ensures length { result.length ≡ interval.low -ℤ self.start }
        ensures pace { result.pace ≡ self.step }
    {
        Way {
            length: interval.low - self.start,
            pace: self.step,
        }
    }

    // The way down to its greatest coordinate.
    fn way_down(self, interval: Interval) -> Way
        requires start { IsNearby self.start }
        requires step { IsNearby self.step }
        requires near { IsNearInterval interval }
        ensures length { result.length ≡ self.start -ℤ interval.high }
        ensures pace { result.pace ≡ neg_ℤ self.step }
    {
        Way {
            length: self.start - interval.high,
            pace: -self.step,
        }
    }

    // The first number of steps that goes far enough for the interval. Earlier ones don't reach it, and from there on
    // what leaves the interval doesn't come back.
    fn entry(self, interval: Interval) -> u64
        requires start { IsNearby self.start }
        requires step { IsNearby self.step }
        requires near { IsNearInterval interval }
        ensures early { (n : ℕ) → n < result → ¬ IsBetween interval.low interval.high (after_steps self n) }
        ensures onward { (n m : ℕ) → result ≤ n → n ≤ m → IsBetween interval.low interval.high (after_steps self m)
            → IsBetween interval.low interval.high (after_steps self n) }
    {
        if self.step > 0 {
            return self.way_up(interval).steps();
        }
        if self.step < 0 {
            return self.way_down(interval).steps();
        }
        0
    }

    // From this number of steps up to below the count the first that comes into the interval.
    fn first_in(self, interval: Interval, from: u64, count: u64) -> Option<u64>
        requires stride { IsStride self count }
        requires near { IsNearInterval interval }
        ensures { Finds interval (after_steps self) from count result }
    {
        let n = from.max(self.entry(interval));
        if n >= count {
            return None;
        }
        if interval.spans(self.at(count, n)) {
            return Some(n);
        }
        None
    }
}

impl Ruler {
    // The places of a row.
    fn row(self, row: u64) -> Stride
        requires ruler { IsRuler self }
        requires inside { row < self.nv }
        ensures start { result.start ≡ (pos 0 *ℤ self.u) +ℤ (pos row *ℤ self.v) }
        ensures step { result.step ≡ self.u }
    {
        Stride {
            start: combine(0, self.u, row, self.v),
            step: self.u,
        }
    }

    // The rows, by the first place of each.
    fn rows(self) -> Stride
        ensures start { result.start ≡ pos 0 }
        ensures step { result.step ≡ self.v }
    {
        Stride {
            start: 0,
            step: self.v,
        }
    }

    // The first place of a row in the interval, from a column on.
    fn first_in_row(self, interval: Interval, column: u64, row: u64) -> Option<u64>
        requires ruler { IsRuler self }
        requires near { IsNearInterval interval }
        requires inside { row < self.nv }
        ensures { Finds interval (mark self) (row * self.nu + column) ((row + 1) * self.nu) result }
    {
        match self.row(row).first_in(interval, column, self.nu) {
            Some(column) => Some(row * self.nu + column),
            None => None,
        }
    }

    // The first place in the interval, from a row on.
    fn first_in_rows(self, interval: Interval, first: u64) -> Option<u64>
        requires ruler { IsRuler self }
        requires near { IsNearInterval interval }
        requires inside { first ≤ self.nv }
        ensures { Finds interval (mark self) (first * self.nu) (self.nu * self.nv) result }
    {
        for row in first..self.nv {
            if let Some(place) = self.first_in_row(interval, 0, row) {
                return Some(place);
            }
        }
        None
    }

    // The same where the places of a row are all alike.
    fn first_alike(self, interval: Interval, from: u64) -> Option<u64>
        requires ruler { IsRuler self }
        requires near { IsNearInterval interval }
        requires inside { from < self.nu * self.nv }
        requires alike { self.u ≡ pos 0 }
        ensures { Finds interval (mark self) from (self.nu * self.nv) result }
    {
        let row = from / self.nu;
        match self.rows().first_in(interval, row, self.nv) {
            Some(found) if found == row => Some(from),
            Some(found) => Some(found * self.nu),
            None => None,
        }
    }

    // The first place in an interval from number `from` on. It takes a step for each row, and one for all rows where the
    // places of a row are all alike.
    fn first_near(self, interval: Interval, from: u64) -> Option<u64>
        requires ruler { IsRuler self }
        requires near { IsNearInterval interval }
        requires inside { from < self.nu * self.nv }
        ensures { Finds interval (mark self) from (self.nu * self.nv) result }
    {
        if self.u == 0 {
            return self.first_alike(interval, from);
        }
        let row = from / self.nu;
        if let Some(place) = self.first_in_row(interval, from % self.nu, row) {
            return Some(place);
        }
        self.first_in_rows(interval, row + 1)
    }

    /// The first place in an interval from number `from` on.
    pub(crate) fn first_in(self, interval: Interval, from: u64) -> Option<u64>
        requires ruler { IsRuler self }
        requires inside { from < self.nu * self.nv }
        ensures { Finds interval (mark self) from (self.nu * self.nv) result }
    {
        self.first_near(near(interval), from)
    }
}
