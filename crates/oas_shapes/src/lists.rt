//! The places of point lists.
ghost use Rattle.std.specs.Prelude.{◌≡◌, ◌≢◌, ◌≤◌, ◌<◌, ◌++◌, [], ◌∷◌, length, IsOk, IsOkAnd, OnOk, IfOk, IfErr, Err};
ghost use Rattle.oas_shapes.specs.Plane.{IsNearInSteps};
ghost use Rattle.oas_shapes.specs.PointLists.{implied};
ghost use Rattle.oas_shapes.specs.Outlines.{path_points as the_path_points, polygon_outline as the_polygon_outline};
ghost use Rattle.oas_shapes.specs.Rules.{AreNear};
ghost use Rattle.oas_shapes.specs.Short.{HasFewPoints, HasFewVertices};
ghost use Rattle.oas_shapes.specs.declared.trails.Unplaced.TheVariants.{Far};
ghost use Rattle.oas_shapes.specs.Vertices.{option_list, ring_by};

use crate::trails::{Places, Unplaced, along, along_changes};
use half_grid::Point;
use oas_record::Deltas;
use std::alloc::Global;

/// The points of a path from this position, in half units.
pub(crate) fn path_points(alloc: Global, at: Point, points: &Deltas<'_>) -> Result<Places, Unplaced>
    requires { IsNearInSteps at }
    ensures places { IfOk result (λ places. places.items ≡ the_path_points at points.now) }
    ensures near { IfOk result (λ places. AreNear places.items) }
    ensures far { result ≡ Err Far → ¬ AreNear (the_path_points at points.now) }
    ensures few { HasFewPoints points.now → IfErr result (λ bad. bad ≡ Far) }
    ensures room { IfOk result (λ places. 12 ≤ places.capacity) }
{
    if points.kind == 5 {
        return along_changes(alloc, at, &points.items);
    }
    along(alloc, at, &points.items)
}

// The vertex from which a level and an upright edge lead back to the first, in half units.
fn last_vertex(kind: u8, first: Point, last: Point) -> Option<Point>
    ensures { option_list result ≡ implied kind first last }
{
    match kind {
        0 => Some(Point {
            x: first.x,
            y: last.y,
        }),
        1 => Some(Point {
            x: last.x,
            y: first.y,
        }),
        _ => None,
    }
}

// Puts a point last.
fn put(places: &mut Places, point: Point) -> Result<(), Unplaced>
    ensures ok { OnOk result (places.new.items ≡ places.old.items ++ point ∷ []) }
    ensures far { (result ≡ Err Far) → ⊥ }
    ensures room { length places.old.items < places.old.capacity → IsOk result }
    ensures capacity { places.old.capacity ≤ places.new.capacity }
{
    match places.push(point) {
        Ok(()) => Ok(()),
        Err(_) => Err(Unplaced::NoMemory),
    }
}

// These vertices and the one that isn't stored.
fn all_vertices(kind: u8, vertices: Places, first: Point, last: Point) -> Result<Places, Unplaced>
    ensures ok { IfOk result (λ all. all.items ≡ vertices.items ++ implied kind first last) }
    ensures far { (result ≡ Err Far) → ⊥ }
    ensures few { length vertices.items ≤ 10 → 12 ≤ vertices.capacity
        → IsOkAnd result (λ all. (length all.items ≤ 11) × (12 ≤ all.capacity)) }
{
    let mut all = vertices;
    match last_vertex(kind, first, last) {
        Some(vertex) => match put(&mut all, vertex) {
            Ok(()) => Ok(all),
            Err(bad) => Err(bad),
        },
        None => Ok(all),
    }
}

// The outline with these vertices, of which there is one, and with the one that isn't stored.
fn closed(kind: u8, vertices: Places) -> Result<Places, Unplaced>
    requires { vertices.items ≢ [] }
    ensures ok { IfOk result (λ outline. outline.items ≡ ring_by kind vertices.items) }
    ensures far { (result ≡ Err Far) → ⊥ }
    ensures few { length vertices.items ≤ 10 → 12 ≤ vertices.capacity → IsOk result }
{
    let stored = vertices.as_slice();
    let first = stored[0];
    let last = stored[stored.len() - 1];
    match all_vertices(kind, vertices, first, last) {
        Ok(all) => {
            let mut outline = all;
            match put(&mut outline, first) {
                Ok(()) => Ok(outline),
                Err(bad) => Err(bad),
            }
        }
        Err(bad) => Err(bad),
    }
}

/// The outline of a polygon at this position, in half units. One of up to twelve points takes no memory.
pub(crate) fn polygon_outline(
    alloc: Global,
    at: Point,
    points: &Deltas<'_>,
) -> Result<Places, Unplaced>
    requires { IsNearInSteps at }
    ensures outline { IfOk result (λ outline. outline.items ≡ the_polygon_outline at points.now) }
    ensures near { IfOk result (λ outline. AreNear outline.items) }
    ensures far { result ≡ Err Far → ¬ AreNear (the_polygon_outline at points.now) }
    ensures few { HasFewVertices points.now → IfErr result (λ bad. bad ≡ Far) }
{
    match path_points(alloc, at, points) {
        Ok(vertices) => match closed(points.kind, vertices) {
            Ok(outline) => Ok(outline),
            Err(bad) => Err(bad),
        },
        Err(bad) => Err(bad),
    }
}
