//! The placements of references.
ghost use Rattle.std.specs.Prelude.{◌≡◌, ◌≢◌, ◌≤◌, ◌⊎◌, ◌++◌, ◌^◌, ℕ, ℤ, pos, neg_ℤ, ◌-ℤ◌, if◌then◌else◌};
ghost use Rattle.std.specs.Prelude.{Some, length, All, OnOk, IfOk, IfSome, IfNone, Err};
ghost use Rattle.geo_stream.specs.Refusals.{IfFault};
ghost use Rattle.geo_stream.specs.declared.refusal.Refusal.TheVariants.{NoMemory as Wanting};
ghost use Rattle.layout_model.specs.Grids.{IsGrid, grid_places};
ghost use Rattle.layout_model.specs.Layouts.{AreOffsets, IsPlacementOnGrid};
ghost use Rattle.layout_model.specs.Images.{IsOrient};
ghost use Rattle.layout_model.specs.Names.{IsName};
ghost use Rattle.gds_record.specs.declared.kinds.Kind.TheVariants.{Sref, Aref};
ghost use Rattle.gds_reader.specs.Elements.{IsHeld, IsFilePoint, KeepsOf, place_kept, placements_kept};
ghost use Rattle.gds_reader.specs.Meaning.{first_of, step_of, array_places as the_places};
ghost use Rattle.gds_reader.specs.Refused.{IsRefusedBy, BreaksNone};
ghost use Rattle.gds_reader.specs.Steppings.{IsNearPlace, IsEvenPart, IsPartOf, IsStepping};
ghost use Rattle.gds_reader.specs.Values.{Divides, KeepsAref, name_in};

use crate::drawing::ORIGIN;
use crate::elements::Element;
use crate::naming::name_of;
use crate::refusing::GdsBad;
use gds_record::Kind;
use geo_stream::{List, NoMemory, Refusal};
use half_grid::Point;
use layout_model::{Name, NameBad, Offsets, Placement};
use std::alloc::Global;

// The size of each of so many steps of this length together, where it is even.
fn whole_part(length: u64, count: u16) -> Option<u64>
    requires some { 1 ≤ count }
    ensures part { IfSome result (λ size. IsEvenPart count length size) }
    ensures none { IfNone result ((size : ℕ) → ¬ IsEvenPart count length size) }
{
    let double = 2 * u64::from(count);
    if length % double != 0 {
        return None;
    }
    Some(length / double * 2)
}

// A number by its size.
fn with_sign(size: u64, is_negative: bool) -> i64
    requires { size ≤ 2 ^ 40 }
    ensures { result ≡ (if is_negative then neg_ℤ (pos size) else pos size) }
{
    if is_negative {
        -(size as i64)
    } else {
        size as i64
    }
}

// The part of a way that is one of so many steps, where these are whole units of the file.
fn part(way: i64, count: u16) -> Option<i64>
    requires way { IsNearPlace way }
    requires some { 1 ≤ count }
    ensures part { IfSome result (λ step. IsPartOf count way step) }
    ensures none { IfNone result ((step : ℤ) → ¬ IsPartOf count way step) }
{
    match whole_part(way.unsigned_abs(), count) {
        Some(size) => Some(with_sign(size, way < 0)),
        None => None,
    }
}

fn way_between(from: Point, to: Point) -> Point
    requires from { IsFilePoint from }
    requires to { IsFilePoint to }
    ensures x { result.x ≡ to.x -ℤ from.x }
    ensures y { result.y ≡ to.y -ℤ from.y }
    ensures near_x { IsNearPlace result.x }
    ensures near_y { IsNearPlace result.y }
{
    Point {
        x: to.x - from.x,
        y: to.y - from.y,
    }
}

// The step of an array from one point to another, where the way is so many steps of whole units.
fn step(count: u16, from: Point, to: Point) -> Option<Point>
    requires from { IsFilePoint from }
    requires to { IsFilePoint to }
    ensures exact { IfSome result (λ step. IsStepping count from to step) }
    ensures none { IfNone result (¬ Divides count from to) }
{
    if count == 0 {
        return None;
    }
    let way = way_between(from, to);
    match part(way.x, count) {
        Some(x) => match part(way.y, count) {
            Some(y) => Some(Point { x, y }),
            None => None,
        },
        None => None,
    }
}

/// The steps of an array, from column to column and from row to row.
#[derive(Clone, Copy)]
struct Steps {
    across: Point,
    upward: Point,
}

// The steps of an array from one point to the right and up, where both ways divide.
fn array_steps(columns: u16, rows: u16, origin: Point, right: Point, up: Point) -> Option<Steps>
    requires origin { IsFilePoint origin }
    requires right { IsFilePoint right }
    requires up { IsFilePoint up }
    ensures places { IfSome result (λ steps. grid_places columns rows steps.across steps.upward
        ≡ grid_places columns rows (step_of columns origin right) (step_of rows origin up)) }
    ensures fits { IfSome result (λ steps. IsGrid columns rows steps.across steps.upward) }
    ensures grid { IfSome result (λ steps. AreOffsets (grid_places columns rows steps.across steps.upward)) }
    ensures some { IfSome result (λ _. Divides columns origin right × Divides rows origin up) }
    ensures none { IfNone result (¬ (Divides columns origin right × Divides rows origin up)) }
{
    match step(columns, origin, right) {
        Some(across) => match step(rows, origin, up) {
            Some(upward) => Some(Steps { across, upward }),
            None => None,
        },
        None => None,
    }
}

// The places of an array with these steps.
fn spread(alloc: Global, columns: u16, rows: u16, steps: Steps) -> Result<Offsets, NoMemory>
    requires fits { IsGrid columns rows steps.across steps.upward }
    requires grid { AreOffsets (grid_places columns rows steps.across steps.upward) }
    ensures places { IfOk result (λ offsets. offsets ≡ grid_places columns rows steps.across steps.upward) }
    ensures grid { IfOk result AreOffsets }
{
    let nu = u64::from(columns);
    let nv = u64::from(rows);
    match Offsets::grid(alloc, nu, nv, steps.across, steps.upward) {
        Ok(offsets) => Ok(offsets),
        Err(_) => Err(NoMemory),
    }
}

// The places of an array with these points. `at` is the offset of its XY.
fn array_places(
    alloc: Global,
    element: &Element,
    points: &[Point],
    at: usize,
) -> Result<Offsets, Refusal<GdsBad>>
    requires { All IsFilePoint points.now }
    ensures places { IfOk result (λ offsets. offsets ≡ the_places element.now.columns element.now.rows points.now) }
    ensures grid { IfOk result AreOffsets }
    ensures three { IfOk result (λ _. length points.now ≡ 3) }
    ensures kept { IfOk result (λ _. (rule : ℕ) → KeepsAref element.now.columns element.now.rows points.now rule) }
    ensures broken { IfFault result (IsRefusedBy (KeepsAref element.now.columns element.now.rows points.now) at) }
    ensures memory { result ≡ Err Wanting → (rule : ℕ)
        → KeepsAref element.now.columns element.now.rows points.now rule }
{
    let [origin, right, up] = points else {
        return Err(Refusal::Fault(GdsBad::Value(at, 8)));
    };
    match array_steps(element.columns, element.rows, *origin, *right, *up) {
        Some(steps) => match spread(alloc, element.columns, element.rows, steps) {
            Ok(offsets) => Ok(offsets),
            Err(_) => Err(Refusal::NoMemory),
        },
        None => Err(Refusal::Fault(GdsBad::Value(at, 9))),
    }
}

// Adds the placement of an element with a name.
fn put(
    alloc: Global,
    bytes: &[u8],
    element: &Element,
    at: Point,
    offsets: Offsets,
    placements: &mut List<Placement>,
) -> Result<(), NoMemory>
    requires held { IfSome element.now.target (IsHeld bytes.now) }
    requires named { IfSome element.now.target (λ r. IsName (name_in bytes.now r)) }
    requires orient { IsOrient element.now.orient }
    requires at { IsFilePoint at }
    requires offsets { AreOffsets offsets }
    ensures put { OnOk result (placements.new
        ≡ placements.old ++ place_kept bytes.now element.now element.now.target at offsets) }
    ensures grid { All IsPlacementOnGrid placements.old → OnOk result (All IsPlacementOnGrid placements.new) }
{
    let Some(named) = element.target else {
        return Ok(());
    };
    match Name::new(alloc, name_of(bytes, named)) {
        Ok(target) => {
            let orient = element.orient;
            placements.push(Placement {
                target,
                orient,
                at,
                offsets,
            })?;
            Ok(())
        }
        Err(_) => Err(NoMemory),
    }
}

fn place_array(
    alloc: Global,
    bytes: &[u8],
    element: &Element,
    points: &[Point],
    at: usize,
    placements: &mut List<Placement>,
) -> Result<(), Refusal<GdsBad>>
    requires points { All IsFilePoint points.now }
    requires held { IfSome element.now.target (IsHeld bytes.now) }
    requires named { IfSome element.now.target (λ r. IsName (name_in bytes.now r)) }
    requires orient { IsOrient element.now.orient }
    ensures put { OnOk result (placements.new ≡ placements.old
        ++ place_kept bytes.now element.now element.now.target (first_of points.now)
        (the_places element.now.columns element.now.rows points.now)) }
    ensures grid { All IsPlacementOnGrid placements.old → OnOk result (All IsPlacementOnGrid placements.new) }
    ensures kept { OnOk result ((rule : ℕ) → KeepsAref element.now.columns element.now.rows points.now rule) }
    ensures broken { IfFault result (IsRefusedBy (KeepsAref element.now.columns element.now.rows points.now) at) }
    ensures memory { result ≡ Err Wanting → BreaksNone (KeepsAref element.now.columns element.now.rows points.now) }
{
    let offsets = array_places(alloc, element, points, at)?;
    put(alloc, bytes, element, points[0], offsets, placements)?;
    Ok(())
}

/// Places the structure of a reference with these points. `at` is the offset of its XY. A rule that it breaks is
/// reported even where memory runs out.
pub(crate) fn place(
    alloc: Global,
    bytes: &[u8],
    element: &Element,
    points: &[Point],
    at: usize,
    placements: &mut List<Placement>,
) -> Result<(), Refusal<GdsBad>>
    requires points { All IsFilePoint points.now }
    requires held { IfSome element.now.target (IsHeld bytes.now) }
    requires named { IfSome element.now.target (λ r. IsName (name_in bytes.now r)) }
    requires orient { IsOrient element.now.orient }
    requires kind { (element.now.kind ≡ Some Sref) ⊎ (element.now.kind ≡ Some Aref) }
    ensures put { OnOk result (placements.new
        ≡ placements.old ++ placements_kept element.now.kind bytes.now element.now points.now) }
    ensures grid { All IsPlacementOnGrid placements.old → OnOk result (All IsPlacementOnGrid placements.new) }
    ensures kept { OnOk result ((rule : ℕ) → KeepsOf element.now.kind element.now points.now rule) }
    ensures broken { IfFault result (IsRefusedBy (KeepsOf element.now.kind element.now points.now) at) }
    ensures memory { result ≡ Err Wanting → BreaksNone (KeepsOf element.now.kind element.now points.now) }
{
    match element.kind {
        Some(Kind::Sref) => {
            let [point] = points else {
                return Err(Refusal::Fault(GdsBad::Value(at, 7)));
            };
            let offsets = Offsets::list(alloc, &[ORIGIN])?;
            put(alloc, bytes, element, *point, offsets, placements)?;
            Ok(())
        }
        Some(Kind::Aref) => place_array(alloc, bytes, element, points, at, placements),
        _ => Ok(()),
    }
}
