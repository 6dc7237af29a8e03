//! Point lists that paths use again.
ghost use Rattle.std.specs.Prelude.{◌≡◌, ◌^◌, Some, IfSome};
ghost use Rattle.layout_model.specs.Images.{moved as place_after};
ghost use Rattle.layout_model.specs.Layouts.{IsWithin};
ghost use Rattle.oas_shapes.specs.Plane.{IsNearInSteps, IsNearInHalves};
ghost use Rattle.oas_shapes.specs.Brushes.{IsNotCutShort};
ghost use Rattle.oas_shapes.specs.Moves.{way_between, low_corner, high_corner};
ghost use Rattle.oas_shapes.specs.PathLists.{IsItsPath};

use crate::lists::path_points;
use crate::outlines::{high_after, is_near, low_after, way};
use crate::paths::Halves;
use half_grid::{Frame, Point};
use layout_model::{SharedPath, box_of};
use oas_record::Deltas;
use std::alloc::Global;
use std::marker::Model;

// The segments of a list that is as long as this or longer are kept once for all paths that use it.
const LONG: u64 = 10;

/// What is kept of a list at this position, in grid steps.
#[derive(Debug, Drop)]
pub(crate) struct MadePath {
    at: Point,
    // The bounding box of its points.
    hull: Frame,
    // Its segments, where it is a path for some lengths.
    path: Option<SharedPath>,
}

/// The point list of paths as it is written. The segments of a long one are made once, and all paths that use the list
/// share them, moved to their positions, whatever their lengths. Contracts see what is written.
#[derive(Debug, Drop)]
pub struct PathList<'f> {
    written: Deltas<'f>,
    // The segments, once they were made.
    made: Option<MadePath>,
}

impl<'f> Model for PathList<'f> {
    ghost use Rattle.oas_record.specs.declared.fields.Deltas.{Deltas as ADeltas};
    ghost use Rattle.oas_shapes.specs.PathLists.{IsMadePath};

    ghost Value = { ADeltas };

    ghost view = { λ list. list.written };

    ghost invariant = { λ list. IsMadePath list.written list.made };
}

impl MadePath {
    /// How it gets to this position, where its points are near 0 there.
    pub(crate) fn way_to(&self, at: Point) -> Option<Point>
        requires here { IsNearInSteps self.now.at }
        requires low { IsNearInHalves (low_corner self.now.hull) }
        requires high { IsNearInHalves (high_corner self.now.hull) }
        requires there { IsNearInSteps at }
        ensures way { IfSome result (λ by. by ≡ way_between self.now.at at) }
        ensures low { IfSome result (λ by. IsNearInHalves (place_after by (low_corner self.now.hull))) }
        ensures high { IfSome result (λ by. IsNearInHalves (place_after by (high_corner self.now.hull))) }
    {
        let by = way(self.at, at);
        if !is_near(low_after(self.hull, by)) {
            return None;
        }
        if !is_near(high_after(self.hull, by)) {
            return None;
        }
        Some(by)
    }

    /// Its segments, where a path with these lengths, whose width isn't 0, can be drawn. It takes constant time.
    pub(crate) fn drawn_by(&self, brush: Halves) -> Option<&SharedPath>
        ensures path { IfSome result (λ path. self.now.path ≡ Some path.now) }
        ensures ends { IfSome result (λ path. IsNotCutShort brush path.now) }
    {
        let Some(path) = &self.path else {
            return None;
        };
        if path.has_empty_end(brush.lengths()) {
            return None;
        }
        Some(path)
    }
}

// What is kept of a list at this position, where it is near 0 there, and where memory is there.
fn made_path(alloc: Global, at: Point, written: &Deltas<'_>) -> Option<MadePath>
    requires near { IsNearInSteps at }
    ensures { IfSome result (IsItsPath written.now) }
{
    let Ok(points) = path_points(alloc, at, written) else {
        return None;
    };
    let hull = box_of(points.as_slice());
    match SharedPath::of(alloc, points.as_slice()) {
        Ok(path) => Some(MadePath { at, hull, path }),
        Err(_) => None,
    }
}

impl<'f> PathList<'f> {
    /// The list that is written so.
    pub fn new(written: Deltas<'f>) -> PathList<'f>
        ensures { result ≡ written.entry }
    {
        PathList {
            written,
            made: None,
        }
    }

    /// What is written.
    pub fn written(&self) -> &Deltas<'f>
        ensures { result.now ≡ self.now }
    {
        &self.written
    }

    /// Makes the segments of a long list at this position, where they aren't made yet, the list is near 0 there, and
    /// where memory is there: in the time and the memory of the list. It changes nothing else.
    pub fn make_segments(&mut self, alloc: Global, at: Point)
        requires { IsWithin (2 ^ 40) at }
        ensures { self.new ≡ self.old }
    {
        if self.written.items.len() < LONG {
            return;
        }
        if self.made.is_some() {
            return;
        }
        if let Some(made) = made_path(alloc, at, &self.written) {
            self.made = Some(made);
        }
    }

    /// Its segments, where they were made.
    pub(crate) fn made(&self) -> Option<&MadePath>
        ensures { IfSome result (λ made. IsItsPath self.now made.now) }
    {
        self.made.as_ref()
    }
}
