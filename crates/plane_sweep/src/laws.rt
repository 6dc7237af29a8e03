//! What holds at each stop of a sweep.
ghost use Rattle.plane_sweep.specs.Settled.{NothingSettled, OneEnds, OneBegins, OneGoesOn};

/// The trapezoids that grow up to a stop, and the runs of the row above it, are settled one after another from left to
/// right: nothing is settled at first, a trapezoid ends, a run begins one, or it goes on in a run. It costs nothing.
pub fn settle_laws()
    ensures none { NothingSettled }
    ensures one_ends { OneEnds }
    ensures begins { OneBegins }
    ensures goes { OneGoesOn }
{}
