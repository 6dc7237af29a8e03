//! Laws of the windings of edges.
ghost use Rattle.scan_line.specs.ClippedLaws.{WindsInWindow, StaysBalanced};
ghost use Rattle.scan_line.specs.OutlineLaws.{WindsAsOutline, WindsNotForOther, OutlineIsBalanced};

/// The windings of the edges of a point list: it holds of all lists, and costs nothing.
pub fn outline_laws()
    ensures winding { WindsAsOutline }
    ensures other { WindsNotForOther }
    ensures balanced { OutlineIsBalanced }
{}

/// The windings of the parts of edges in a window: it holds of all edges, and costs nothing.
pub fn clipped_laws()
    ensures winding { WindsInWindow }
    ensures balanced { StaysBalanced }
{}
