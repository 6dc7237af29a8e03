//! How much was written into the files of stripes.

use shot_writer::Sums;

/// How much was written into the file of one stripe.
#[derive(Clone, Copy, Debug, PartialEq, Eq)]
pub struct StripeSums {
    /// The number of the stripe.
    pub number: i64,
    /// The shots in its file, and their triangles.
    pub sums: Sums,
}

/// How much was written into the files of all stripes.
#[derive(Debug, Drop)]
pub struct Stripes {
    /// The stripes in ascending order, without a gap.
    pub each: Vec<StripeSums>,
    /// The shots in all files, and their triangles.
    pub all: Sums,
}
