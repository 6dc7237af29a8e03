//! The shot that the fields of a record name.
ghost use Rattle.std.specs.Prelude.{◌≡◌, ◌≤◌, ◌↔◌, ℤ, pos, ◌+ℤ◌, unsigned_abs, ◌^◌, IsTrue, IsSome, IfSome};
ghost use Rattle.std.specs.Int.{int_min, int_max};
ghost use Rattle.half_grid.specs.Trapezoids.{Trapezoid, IsShot};
ghost use Rattle.shot_reader.specs.Fields.{HasShape, AreCorners, IsCornered};
ghost use Rattle.shot_reader.specs.Near.{AreNear};

use half_grid::{Point, Trap, line_through};
use oas_lex::ShotFields;

/// No size and no place of a shot is further from 0.
const FAR: u64 = 1 << 46;

/// The corners of a trapezoid.
#[derive(Clone, Copy)]
pub(crate) struct Corners {
    pub(crate) bottom_left: Point,
    pub(crate) bottom_right: Point,
    pub(crate) top_left: Point,
    pub(crate) top_right: Point,
}

fn are_near(fields: &ShotFields) -> bool
    ensures { IsTrue result ↔ AreNear fields.now }
{
    if fields.width > FAR || fields.height > FAR {
        return false;
    }
    if fields.left_delta.unsigned_abs() > FAR || fields.right_delta.unsigned_abs() > FAR {
        return false;
    }
    if fields.x.unsigned_abs() > FAR || fields.y.unsigned_abs() > FAR {
        return false;
    }
    true
}

// The two X whose least is x and whose second is so much greater than the first.
fn with_least(x: i64, delta: i64) -> (i64, i64)
    requires x { unsigned_abs x ≤ 2 ^ 46 }
    requires delta { unsigned_abs delta ≤ 2 ^ 46 }
    ensures least { int_min result.0 result.1 ≡ x }
    ensures delta { result.1 ≡ result.0 +ℤ delta }
{
    if delta < 0 {
        (x - delta, x)
    } else {
        (x, x + delta)
    }
}

// The two X whose greatest is x + width and whose second is so much greater than the first.
fn with_greatest(x: i64, width: u64, delta: i64) -> (i64, i64)
    requires x { unsigned_abs x ≤ 2 ^ 46 }
    requires width { width ≤ 2 ^ 46 }
    requires delta { unsigned_abs delta ≤ 2 ^ 46 }
    ensures greatest { int_max result.0 result.1 ≡ x +ℤ pos width }
    ensures delta { result.1 ≡ result.0 +ℤ delta }
{
    let most = x + width as i64;
    if delta < 0 {
        (most, most + delta)
    } else {
        (most - delta, most)
    }
}

// The corners that the fields say.
fn corners_of(fields: &ShotFields) -> Corners
    requires { AreNear fields.now }
    ensures { AreCorners fields.now result }
{
    let (bottom_left, top_left) = with_least(fields.x, fields.left_delta);
    let (bottom_right, top_right) = with_greatest(fields.x, fields.width, fields.right_delta);
    let bottom = fields.y;
    let top = fields.y + fields.height as i64;
    Corners {
        bottom_left: Point {
            x: bottom_left,
            y: bottom,
        },
        bottom_right: Point {
            x: bottom_right,
            y: bottom,
        },
        top_left: Point {
            x: top_left,
            y: top,
        },
        top_right: Point {
            x: top_right,
            y: top,
        },
    }
}

// The trapezoid with these corners, where the two bottom ones have one Y, and the two top ones.
fn trap_with(corners: &Corners) -> Option<Trap>
    requires bottom { corners.now.bottom_left.y ≡ corners.now.bottom_right.y }
    requires top { corners.now.top_left.y ≡ corners.now.top_right.y }
    ensures some { IfSome result (λ z. IsShot z × IsCornered corners.now z) }
    ensures all { (z : Trapezoid) → IsShot z → IsCornered corners.now z → IsSome result }
{
    let left = line_through(corners.bottom_left, corners.top_left)?;
    let right = line_through(corners.bottom_right, corners.top_right)?;
    Trap::new(corners.bottom_left.y, corners.top_left.y, left, right)
}

/// The shot that the fields name. None exactly where they are those of no shot.
pub fn trap_of(fields: &ShotFields) -> Option<Trap>
    ensures some { IfSome result (λ z. IsShot z × HasShape fields.now z) }
    ensures all { (z : Trapezoid) → IsShot z → HasShape fields.now z → IsSome result }
{
    if !are_near(fields) {
        return None;
    }
    trap_with(&corners_of(fields))
}
