//! Laws of the definitions.
ghost use Rattle.gds_reader.specs.Reading.{OneLayout, OneFault, NoLayoutWithFault, OthersHaveFault};

/// Bytes hold at most one layout and at most one first fault, never both, and never neither. There is nothing to run.
pub fn reading_laws()
    ensures layout { OneLayout }
    ensures fault { OneFault }
    ensures apart { NoLayoutWithFault }
    ensures others_have_fault { OthersHaveFault }
{}
