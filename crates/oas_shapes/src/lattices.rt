//! Regular repetitions.
ghost use Rattle.std.specs.Prelude.{◌≡◌, ◌↔◌, ◌-◌, ◌≤◌, map, All, IsTrue, IfOk, IfSome, IfNone, Err, false};
ghost use Rattle.layout_model.specs.Images.{enlarged};
ghost use Rattle.layout_model.specs.Layouts.{AreOffsets};
ghost use Rattle.oas_shapes.specs.Plane.{IsNearInSteps, doubled as in_halves};
ghost use Rattle.oas_shapes.specs.Lattices.{IsLattice, places_of};
ghost use Rattle.oas_shapes.specs.Rules.{AreNear};
ghost use Rattle.oas_shapes.specs.Ways.{way_of};
ghost use Rattle.oas_shapes.specs.declared.trails.Unplaced.TheVariants.{Far, Many, Unkept, NoMemory as Wanting};

use crate::trails::Unplaced;
use crate::wide::{ORIGIN, Wide, doubled, moved, times, widened};
use half_grid::Point;
use layout_model::Offsets;
use std::alloc::Global;

/// The places `a*u + b*v` for `a < nu`, `b < nv`, where `a` runs fastest, in grid steps.
#[derive(Clone, Copy)]
pub(crate) struct Lattice {
    pub(crate) nu: u64,
    pub(crate) nv: u64,
    pub(crate) u: Wide,
    pub(crate) v: Wide,
}

// The last of so many places in a row, if it is near 0.
fn last(count: u64, step: Wide) -> Option<Point>
    requires { 1 ≤ count }
    ensures some { IfSome result (λ p. (p ≡ enlarged (count - 1) (way_of step)) × IsNearInSteps p) }
    ensures none { IfNone result (¬ IsNearInSteps (enlarged (count - 1) (way_of step))) }
{
    match times(count - 1, step) {
        Some(way) => moved(ORIGIN, way),
        None => None,
    }
}

// A short move in half units.
fn short(way: Wide) -> Point
    requires { IsNearInSteps (way_of way) }
    ensures { result ≡ in_halves (way_of way) }
{
    doubled(Point {
        x: way.x as i64,
        y: way.y as i64,
    })
}

impl Lattice {
    // Whether all its places are near 0: its four corners are, of which one is the origin.
    fn is_near(self) -> bool
        ensures { IsTrue result ↔ All IsNearInSteps (places_of self) }
    {
        if self.nu == 0 || self.nv == 0 {
            return true;
        }
        let Some(across) = last(self.nu, self.u) else {
            return false;
        };
        let Some(upward) = last(self.nv, self.v) else {
            return false;
        };
        let Some(_corner) = moved(across, widened(upward)) else {
            return false;
        };
        true
    }

    // Its places in half units.
    fn grid(self, alloc: Global) -> Result<Offsets, Unplaced>
        requires fits { IsLattice self }
        requires near { All IsNearInSteps (places_of self) }
        ensures ok { IfOk result (λ offsets. (offsets ≡ map in_halves (places_of self)) × AreOffsets offsets) }
        ensures far { (result ≡ Err Far) → ⊥ }
        ensures many { (result ≡ Err Many) → ⊥ }
        ensures wanting { (result ≡ Err Wanting) → ⊥ }
    {
        match Offsets::grid(alloc, self.nu, self.nv, short(self.u), short(self.v)) {
            Ok(offsets) => Ok(offsets),
            Err(_) => Err(Unplaced::Unkept),
        }
    }

    /// Its places in half units, where they are near and there may be this many.
    pub(crate) fn offsets(self, alloc: Global, is_allowed: bool) -> Result<Offsets, Unplaced>
        requires { IsTrue is_allowed → IsLattice self }
        ensures ok { IfOk result (λ offsets. (offsets ≡ map in_halves (places_of self)) × AreOffsets offsets × IsTrue is_allowed) }
        ensures far { result ≡ Err Far → ¬ AreNear (map in_halves (places_of self)) }
        ensures many { result ≡ Err Many → AreNear (map in_halves (places_of self)) × (is_allowed ≡ false) }
        ensures unkept { result ≡ Err Unkept → AreNear (map in_halves (places_of self)) × IsTrue is_allowed }
        ensures wanting { (result ≡ Err Wanting) → ⊥ }
    {
        if !self.is_near() {
            return Err(Unplaced::Far);
        }
        if !is_allowed {
            return Err(Unplaced::Many);
        }
        self.grid(alloc)
    }
}
