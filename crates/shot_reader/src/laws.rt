//! What holds of the reading of shot files.
ghost use Rattle.shot_reader.specs.Laws.{OneReading, OneFault, FileHasNoFault, OthersHaveFault};

/// The reading of shot files is one. Bytes say at most one unit, pair and list of shots, and have at most one first
/// fault; a shot file has none, and bytes that are no shot file have one. It holds of all bytes, and costs nothing.
pub fn reading_laws()
    ensures one_reading { OneReading }
    ensures one_fault { OneFault }
    ensures file_has_no_fault { FileHasNoFault }
    ensures others_have_fault { OthersHaveFault }
{}
