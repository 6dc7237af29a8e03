//! What holds of counts over tiles.
ghost use Rattle.density_map.specs.Laws.{EachTileOnce, NoOtherTile, SumIsCount, OneMore};

/// What holds of counts over tiles: a frame's tiles are those in its columns and rows, each once; trapezoids that share
/// no tile have in a window, all together, as many tiles as the area that they are; and a trapezoid that is added to a
/// row of counts is one more that it counts. It costs nothing.
pub fn count_laws()
    ensures once { EachTileOnce }
    ensures never { NoOtherTile }
    ensures sum { SumIsCount }
    ensures more { OneMore }
{}
