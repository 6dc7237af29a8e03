//! The laws of cutting trapezoids into shots.
ghost use Rattle.fracture.specs.Laws.{SameTiles, AreShots, FitTheLimits, NoneWithin, NoneBetween};

/// What holds of the shots of every list of trapezoids: each tile is in as many of the shots as of the trapezoids; each
/// shot is legal, within reach and within the limits; and no cut is needless, neither within a trapezoid nor between
/// those of a joined list. It costs nothing.
pub fn cut_laws()
    ensures same_tiles { SameTiles }
    ensures shots { AreShots }
    ensures fit { FitTheLimits }
    ensures none_within { NoneWithin }
    ensures none_between { NoneBetween }
{}
