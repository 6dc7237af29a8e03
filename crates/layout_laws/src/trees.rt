//! What holds of the cells of every layout.
ghost use Rattle.layout_laws.specs.TreeLaws.{FaultlessIsTree};

/// Cells of which nothing is a first fault are a tree below the top cell, whatever the cells are. So none
/// fall into a gap between what is accepted and what is refused. It costs nothing.
pub fn tree_law()
    ensures { FaultlessIsTree }
{}
