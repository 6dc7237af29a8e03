//! Fields of a record that aren't numbers, reals or strings.

use crate::items::Moves;

/// A name, by its number or by its string.
#[derive(Clone, Copy, Debug, PartialEq, Eq)]
pub enum Called {
    /// The number of a name record.
    Number(u64),
    /// Where the bytes of the string start and end.
    Text(usize, usize),
}

/// A range of layers or datatypes. A number that its kind doesn't have is 0.
#[derive(Clone, Copy, Debug, PartialEq, Eq)]
pub struct Interval {
    /// 0 all, 1 up to `a`, 2 from `a` on, 3 just `a`, 4 from `a` to `b`.
    pub kind: u8,
    /// The first number.
    pub a: u64,
    /// The second number.
    pub b: u64,
}

/// A point list as it is stored, in grid steps: each delta as a point, before any adding up.
#[derive(Debug)]
pub struct Deltas<'f> {
    /// 0 and 1 deltas along x and y by turns, 0 horizontal first and 1 vertical first; 2 along x or y; 3 at multiples of
    /// 45 degrees; 4 any; 5 any, each added to the delta before.
    pub kind: u8,
    /// The stored deltas.
    pub items: Moves<'f>,
}

// Written out, so that it is proved once here, and not again in each crate that lets one go.
impl<'f> Drop for Deltas<'f> {
    fn drop(self) {
        let Deltas { kind: _, items: _ } = self;
    }
}
