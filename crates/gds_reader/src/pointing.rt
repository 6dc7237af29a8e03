//! The points of XY.
ghost use Rattle.std.specs.Prelude.{◌≡◌, ◌≤◌, ◌+◌, ◌-◌, ◌^◌, pos, neg_ℤ, ◌≤ℤ◌, true, length, All, OnOk};
ghost use Rattle.half_grid.specs.Halves.{twice, is_even};
ghost use Rattle.gds_record.specs.Numbers.{signed_at};
ghost use Rattle.gds_record.specs.declared.kinds.Kind.TheVariants.{Xy};
ghost use Rattle.gds_reader.specs.Elements.{IsHeld, IsFilePoint};
ghost use Rattle.gds_reader.specs.Values.{point_at as the_point_at, points_in};

use gds_record::{Record, int4};
use geo_stream::NoMemory;
use half_grid::Point;

/// The bytes of a point.
const POINT: usize = 8;

// A coordinate in half units.
fn coordinate(bytes: &[u8], at: usize) -> i64
    requires { at + 4 ≤ length bytes.now }
    ensures value { result ≡ twice (signed_at 4 bytes.now at) }
    ensures even { is_even result ≡ true }
    ensures low { neg_ℤ (pos (2 ^ 32)) ≤ℤ result }
    ensures high { result ≤ℤ pos (2 ^ 32) }
{
    2 * i64::from(int4(bytes, at))
}

fn point_at(bytes: &[u8], at: usize) -> Point
    requires { at + 8 ≤ length bytes.now }
    ensures point { result ≡ the_point_at bytes.now at }
    ensures grid { IsFilePoint result }
{
    Point {
        x: coordinate(bytes, at),
        y: coordinate(bytes, at + 4),
    }
}

/// Puts the points of an XY record into the buffer, in place of those that it has.
pub(crate) fn read_points(
    bytes: &[u8],
    current: Record,
    points: &mut Vec<Point>,
) -> Result<(), NoMemory>
    requires held { IsHeld bytes.now current }
    requires kind { current.kind ≡ Xy }
    ensures points { OnOk result (points.new.items ≡ points_in bytes.now current) }
    ensures grid { OnOk result (All IsFilePoint points.new.items) }
    ensures count { OnOk result (length points.new.items ≤ 8191) }
{
    points.clear();
    let count = (current.next - current.first) / POINT;
    for index in 0..count {
        points.push(point_at(bytes, current.first + POINT * index))?;
    }
    Ok(())
}
