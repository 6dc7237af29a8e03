//! The pieces of shots in fields, worked out by hand, and their tiles.
ghost use Rattle.half_grid.specs.Reach.{IsWithinReach};

use field_split::{Fields, Pieces, field_laws, stripes, too_wide};
use geo_stream::{FromSlice, Stream, gather};
use half_grid::{Line, Side, Tile, Trap, covers};
use std::alloc::Global;
use std::process::Abort;

fn trap(rt: &impl Abort, y0: i64, y1: i64, left: Line, right: Line) -> Trap {
    Trap::new(y0, y1, left, right).expect(rt, "a legal trapezoid")
}

// The pieces of the shot in the stripe of the row, where fields are 16 wide and high.
fn pieces(rt: &impl Abort, alloc: Global, shot: Trap, row: i64) -> Vec<Trap>
    requires { IsWithinReach row }
{
    let fields = Fields::new(16).expect(rt, "a size");
    let shots = [shot];
    assert_eq!(rt; too_wide(&shots), None);
    let stripe = fields.stripe_of(row);
    gather(alloc, Pieces::new(FromSlice::new(&shots), fields, stripe)).expect(rt, "memory")
}

// A shot by its rows and corners: y0, y1, bottom left, bottom right, top left, top right.
type Corners = (i64, i64, i64, i64, i64, i64);

fn corners(shot: &Trap) -> Corners {
    (
        shot.y0(),
        shot.y1(),
        shot.bottom_left(),
        shot.bottom_right(),
        shot.top_left(),
        shot.top_right(),
    )
}

fn are(shots: &[Trap], wanted: &[Corners]) -> bool {
    if shots.len() != wanted.len() {
        return false;
    }
    for (shot, corners_wanted) in shots.iter().zip(wanted) {
        if corners(shot) != *corners_wanted {
            return false;
        }
    }
    true
}

#[test]
fn a_square_corner_over_two_stripes(rt: HostRuntime) {
    let shot = trap(&rt, 0, 20, Line::Rising(0), Line::Upright(20));
    let low = pieces(&rt, rt.alloc(), shot, 0);
    assert!(rt;
        are(
            low.as_slice(),
            &[(0, 16, 0, 16, 16, 16), (0, 16, 16, 20, 16, 20)]
        )
    );
    let high = pieces(&rt, rt.alloc(), shot, 16);
    assert!(rt; are(high.as_slice(), &[(16, 20, 16, 20, 20, 20)]));
}

#[test]
fn a_side_that_passes_a_line_within_a_field(rt: HostRuntime) {
    let shot = trap(&rt, 0, 20, Line::Rising(2), Line::Upright(24));
    let low = pieces(&rt, rt.alloc(), shot, 15);
    assert!(rt;
        are(
            low.as_slice(),
            &[
                (0, 12, 4, 16, 16, 16),
                (0, 12, 16, 24, 16, 24),
                (12, 16, 16, 24, 20, 24),
            ]
        )
    );
    let high = pieces(&rt, rt.alloc(), shot, 31);
    assert!(rt; are(high.as_slice(), &[(16, 20, 20, 24, 24, 24)]));
}

#[test]
fn below_and_left_of_the_origin(rt: HostRuntime) {
    let shot = trap(&rt, -4, 4, Line::Upright(-8), Line::Upright(8));
    let low = pieces(&rt, rt.alloc(), shot, -1);
    assert!(rt;
        are(
            low.as_slice(),
            &[(-4, 0, -8, 0, -8, 0), (-4, 0, 0, 8, 0, 8)]
        )
    );
    let none = pieces(&rt, rt.alloc(), shot, -17);
    assert!(rt; none.is_empty());
}

// Whether each tile of stripe 0 is in as many of the pieces as of the trapezoid.
fn have_its_tiles(pieces: &[Trap], trap: &Trap) -> bool {
    for j in 0..16 {
        for i in -20..44 {
            for side in [Side::Left, Side::Right] {
                let tile = Tile { i, j, side };
                let count = pieces.iter().filter(|piece| covers(piece, tile)).count();
                if count != usize::from(covers(trap, tile)) {
                    return false;
                }
            }
        }
    }
    true
}

#[test]
fn sides_of_every_kind(rt: HostRuntime) {
    for left in [Line::Upright(-16), Line::Rising(-3), Line::Falling(3)] {
        for right in [Line::Upright(20), Line::Rising(8), Line::Falling(16)] {
            let whole = trap(&rt, -2, 12, left, right);
            let cut = pieces(&rt, rt.alloc(), whole, 0);
            assert!(rt; have_its_tiles(cut.as_slice(), &whole));
        }
    }
}

#[test]
fn what_a_list_shows(rt: HostRuntime) {
    field_laws();
    assert!(rt; Fields::new(15).is_none());
    assert!(rt; Fields::new(16_777_217).is_none());
    let fields = Fields::new(16).expect(&rt, "a size");
    let shot = trap(&rt, -1, 17, Line::Upright(0), Line::Upright(33_554_432));
    assert_eq!(rt; stripes(&[shot, shot], &fields), Some((-1, 1)));
    assert_eq!(rt; stripes(&[], &fields), None);
    let wide = trap(&rt, -1, 17, Line::Upright(0), Line::Upright(33_554_433));
    assert_eq!(rt; too_wide(&[shot, wide, wide]), Some(1));
}
