//! What holds of packed shot files.
ghost use Rattle.shot_repeat.specs.Laws.{OneReading, OneFault, FileHasNoFault, OthersHaveFault};
ghost use Rattle.shot_repeat.specs.PackingLaws.{TextStands, TextIsFile, TextIsShort, TextIsPacked, OnePackedText, RunIsLongest};

/// The reading of packed shot files is one. Bytes say at most one unit, pair and list of shots, and have at most one
/// first fault; a packed shot file of few enough shots has none, and other bytes have one. It holds of all bytes, and
/// costs nothing.
pub fn reading_laws()
    ensures one_reading { OneReading }
    ensures one_fault { OneFault }
    ensures file_has_no_fault { FileHasNoFault }
    ensures others_have_fault { OthersHaveFault }
{}

/// The packed text of shots stands for them, is no longer than their plain text, and is one: what is worked out is the
/// packed text, and no other text is. Each of its runs is the longest. It holds of all lists, and costs nothing.
pub fn packing_laws()
    ensures text_stands { TextStands }
    ensures text_is_file { TextIsFile }
    ensures text_is_short { TextIsShort }
    ensures text_is_packed { TextIsPacked }
    ensures one_packed_text { OnePackedText }
    ensures run_is_longest { RunIsLongest }
{}
