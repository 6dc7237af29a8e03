//! What holds of row lists.
ghost use Rattle.row_lists.specs.RowListLaws.{GivesWindings, StaysUntilStop, OneRowList, NoneInEmptyRow};
ghost use Rattle.row_lists.specs.RowRuns.{RunsByRowList};
ghost use Rattle.row_lists.specs.Halfway.{BeginsHalfway, GoesOnHalfway, PassesPoint, EndsHalfway};
ghost use Rattle.row_lists.specs.Events.{WeightsByEvents};

/// Row lists give the windings and the runs of their rows, stay until the next stop, and are one a row: it holds of all
/// edges and lists, and costs nothing.
pub fn row_list_laws()
    ensures windings { GivesWindings }
    ensures stays { StaysUntilStop }
    ensures one { OneRowList }
    ensures runs { RunsByRowList }
    ensures none { NoneInEmptyRow }
{}

/// From the row list below a stop to the one above it, point by point: it holds of all edges and lists, and costs nothing.
pub fn stop_laws()
    ensures begins { BeginsHalfway }
    ensures goes_on { GoesOnHalfway }
    ensures passes { PassesPoint }
    ensures ends { EndsHalfway }
{}

/// How weights change from row to row: it holds of all edges and all orders of their events, and costs nothing.
pub fn event_laws()
    ensures { WeightsByEvents }
{}
