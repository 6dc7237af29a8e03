//! The laws of the half grid.
ghost use Rattle.half_grid.specs.RowLaws.{RightByPlace, LeftByPlace, StripsNameTile, NumberNamesTile, PlaceNamesLine, LegalPlaces};
ghost use Rattle.half_grid.specs.LineLaws.{PlacesDiffer, OrderChanges, NumbersOfRow, LineWithinReach};
ghost use Rattle.half_grid.specs.EdgeLaws.{WindingsAdd, OneInside, NoneOutside, WindingIsCount, OperandsApart};
ghost use Rattle.half_grid.specs.JoinedLists.{OneJoinedList};

/// The arithmetic of one row, on which everything above rests: it holds of all tiles and lines, and costs nothing.
pub fn row_laws()
    ensures right_by_place { RightByPlace }
    ensures left_by_place { LeftByPlace }
    ensures strips_name_tile { StripsNameTile }
    ensures number_names_tile { NumberNamesTile }
    ensures place_names_line { PlaceNamesLine }
    ensures legal_places { LegalPlaces }
{}

/// How places go from row to row, and the numbers of a trapezoid's tiles: it holds of all lines and trapezoids, and
/// costs nothing.
pub fn line_laws()
    ensures places_differ { PlacesDiffer }
    ensures order_changes { OrderChanges }
    ensures numbers_of_row { NumbersOfRow }
    ensures line_within_reach { LineWithinReach }
{}

/// The winding of the edges of trapezoids: it holds of all lists of legal trapezoids, and costs nothing.
pub fn edge_laws()
    ensures windings_add { WindingsAdd }
    ensures one_inside { OneInside }
    ensures none_outside { NoneOutside }
    ensures winding_is_count { WindingIsCount }
    ensures operands_apart { OperandsApart }
{}

/// A window and a set of tiles have at most one joined list: it holds of all lists, and costs nothing.
pub fn joined_law()
    ensures { OneJoinedList }
{}
