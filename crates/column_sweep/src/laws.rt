//! Why a sweep in columns gives the maximal trapezoids of the whole.
ghost use Rattle.column_sweep.specs.ColumnLaws.{StaysMaximal, OthersStay};

/// Maximal trapezoids in columns, and what is left without some of them. It holds of all areas, and costs nothing.
pub fn column_laws()
    ensures stays { StaysMaximal }
    ensures others { OthersStay }
{}
