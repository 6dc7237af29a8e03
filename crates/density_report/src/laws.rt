//! What holds of density tables.
ghost use Rattle.density_report.specs.Laws.{NumbersAreTrue, OneTable};

/// What holds of the density table of each output: each of its counts is that of the area's triangles in its window, they
/// add up to the number of the area's triangles, and no window has more than the one that is named for having the most; and
/// an output has one table. It costs nothing.
pub fn density_laws()
    ensures numbers { NumbersAreTrue }
    ensures one { OneTable }
{}
