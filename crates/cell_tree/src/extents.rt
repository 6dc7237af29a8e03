//! How far the flattened layout reaches.
ghost use Rattle.std.specs.Prelude.{◌≡◌, [], ◌∷◌, find};
ghost use Rattle.cell_tree.specs.Faults.{is_beyond};

use half_grid::Frame;

const FAR: i64 = 1 << 30;

fn is_beyond(z: i64) -> bool
    ensures { result ≡ is_beyond z }
{
    z < -FAR || FAR < z
}

/// The first of the box's sides that is further than 2^30 from 0.
pub(crate) fn first_beyond(hull: Frame) -> Option<i64>
    ensures { result ≡ find is_beyond (hull.x0 ∷ hull.y0 ∷ hull.x1 ∷ hull.y1 ∷ []) }
{
    if is_beyond(hull.x0) {
        return Some(hull.x0);
    }
    if is_beyond(hull.y0) {
        return Some(hull.y0);
    }
    if is_beyond(hull.x1) {
        return Some(hull.x1);
    }
    if is_beyond(hull.y1) {
        return Some(hull.y1);
    }
    None
}
