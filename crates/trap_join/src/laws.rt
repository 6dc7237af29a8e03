//! Laws of joined lists and maximal trapezoids.
ghost use Rattle.trap_join.specs.Maximal.{JoinedAreMaximal};

/// Joined lists and maximal trapezoids: it holds of all areas and lists, and costs nothing.
pub fn maximal_law()
    ensures { JoinedAreMaximal }
{}
