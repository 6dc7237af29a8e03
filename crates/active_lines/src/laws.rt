//! What holds of lines from left to right.
ghost use Rattle.active_lines.specs.LeaningLaws.{MeetsWhereItLeans};

/// Which neighbours meet above: it holds of all lines and rows, and costs nothing.
pub fn leaning_law()
    ensures { MeetsWhereItLeans }
{}
