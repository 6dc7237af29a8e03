//! What holds of the area of every definition of a deck.
ghost use Rattle.job_laws.specs.AreaLaws.{AreasDecided, CountsTell};

/// Each triangle is in the area of a definition or isn't, for all cells and decks. So where a list covers an
/// area exactly, a triangle that is in one of its trapezoids is in the area, and not just not outside of it.
/// It costs nothing.
pub fn area_laws()
    ensures area_decided { AreasDecided }
    ensures counts_tell { CountsTell }
{}
