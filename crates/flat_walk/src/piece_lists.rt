//! The pieces of a shape, wherever they are kept.
ghost use Rattle.std.specs.Prelude.{◌≡◌, [], length, MatchOption};
ghost use Rattle.half_grid.specs.Quads.{corners_of};
ghost use Rattle.half_grid.specs.Trapezoids.{IsShot};
ghost use Rattle.flat_walk.specs.PieceLists.{listed, upright, AreShots, IsNextPiece};

use crate::kept_pieces::ShortPiece;
use half_grid::{Frame, Point, Quad, Trap};

/// Pieces that are left of a shape's list: what they are, `listed` says.
#[derive(Clone, Copy)]
pub(crate) enum PieceList<'t> {
    /// The one of a rectangle, by its box.
    Only(Frame),
    /// Those whose numbers are of 32 bits each.
    Short(&'t [ShortPiece]),
    /// Any.
    Wide(&'t [Trap]),
}

// The corners of a box, from the lower left one up and round.
#[inline(always)]
fn quad_of(frame: Frame) -> Quad
    requires { IsShot (upright frame) }
    ensures { result ≡ corners_of (upright frame) }
{
    Quad::new(
        Point {
            x: frame.x0,
            y: frame.y0,
        },
        Point {
            x: frame.x0,
            y: frame.y1,
        },
        Point {
            x: frame.x1,
            y: frame.y1,
        },
        Point {
            x: frame.x1,
            y: frame.y0,
        },
    )
}

impl<'t> PieceList<'t> {
    /// No pieces.
    pub(crate) fn none() -> PieceList<'t>
        ensures list { listed result ≡ [] }
        ensures shots { AreShots result }
    {
        PieceList::Wide(&[])
    }

    /// How many there are.
    pub(crate) fn len(&self) -> usize
        ensures { result ≡ length (listed self.now) }
    {
        match self {
            PieceList::Only(_) => 1,
            PieceList::Short(pieces) => pieces.len(),
            PieceList::Wide(traps) => traps.len(),
        }
    }

    /// Takes the first piece off: its corners, from the lower left one up and round.
    #[inline(always)]
    pub(crate) fn next(&mut self) -> Option<Quad>
        requires { AreShots self.old }
        ensures shots { AreShots self.new }
        ensures next { MatchOption result ((listed self.old ≡ []) × (listed self.new ≡ []))
            (λ quad. IsNextPiece (listed self.old) quad (listed self.new)) }
    {
        match *self {
            PieceList::Only(frame) => {
                *self = PieceList::none();
                Some(quad_of(frame))
            }
            PieceList::Short(pieces) => {
                let (first, others) = pieces.split_first()?;
                *self = PieceList::Short(others);
                Some(first.quad())
            }
            PieceList::Wide(traps) => {
                let (first, others) = traps.split_first()?;
                *self = PieceList::Wide(others);
                Some(Quad::of(first))
            }
        }
    }
}
