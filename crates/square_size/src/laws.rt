//! What holds of all grown trapezoids.
ghost use Rattle.square_size.specs.EdgeLaws.{EdgesHaveWinding, GrownAreBalanced, GrownWind, OthersDoNotWind};
ghost use Rattle.square_size.specs.Ranges.{NearByStrips};

/// Which tiles are near to a trapezoid: it holds of all of them, and costs nothing.
pub fn near_law()
    ensures { NearByStrips }
{}

/// The windings of the edges of grown trapezoids: it holds of all lists of legal trapezoids, and costs nothing.
pub fn ring_laws()
    ensures winding { EdgesHaveWinding }
    ensures near { GrownWind }
    ensures others { OthersDoNotWind }
    ensures balanced { GrownAreBalanced }
{}
