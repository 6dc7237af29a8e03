//! The shots of a stream of trapezoids.
ghost use Rattle.std.specs.Prelude.{◌≡◌, ◌+◌, ◌*◌, ◌≤ℤ◌, ◌-ℤ◌, suc, [], ◌∷◌, List, MatchOption, length};
ghost use Rattle.std.specs.Option.{ForSome};
ghost use Rattle.geo_stream.specs.Stream.{HasList};
ghost use Rattle.half_grid.specs.Trapezoids.{Trapezoid, IsShot, trapezoid};
ghost use Rattle.fracture.specs.Limits.{AreLimits};

use crate::parts::{cut_by_height, cut_by_width};
use geo_stream::Stream;
use half_grid::{Limits, Line, Trap};

// A part of a trapezoid that is still to be cut, by its numbers alone: a generic function takes by value no stream that
// has a field of a type with a model.
#[derive(Clone, Copy, Debug)]
struct Rest {
    y0: i64,
    y1: i64,
    left: Line,
    right: Line,
    ghost shot: { IsShot (trapezoid y0 y1 left right) },
}

impl Rest {
    ghost use Rattle.fracture.specs.Cuts.{trap_of};

    fn of(trap: Trap) -> Rest
        ensures { trapezoid result.y0 result.y1 result.left result.right ≡ trap }
    {
        Rest {
            y0: trap.y0(),
            y1: trap.y1(),
            left: trap.left(),
            right: trap.right(),
        }
    }

    // The rest of a cut, to be kept.
    fn of_some(rest: Option<Trap>) -> Option<Rest>
        ensures { trap_of result ≡ rest }
    {
        match rest {
            Some(trap) => Some(Rest::of(trap)),
            None => None,
        }
    }

    fn trap(self) -> Trap
        ensures { result ≡ trapezoid self.y0 self.y1 self.left self.right }
    {
        Trap::of(self.y0, self.y1, self.left, self.right)
    }
}

// What is left of the trapezoid in hand: a piece that isn't higher than the limits, and the rows above it.
#[derive(Clone, Copy, Debug)]
struct InHand {
    limits: Limits,
    piece: Option<Rest>,
    above: Option<Rest>,
    ghost within: { AreLimits limits.height limits.width },
    ghost low: { ForSome piece (λ z. (z.y1 -ℤ z.y0) ≤ℤ limits.height) },
}

impl InHand {
    ghost use Rattle.fracture.specs.Cutting.{height_of, cut_by_width as shots_of_low, cut_list};
    ghost use Rattle.fracture.specs.Cuts.{trap_of, shots_of_piece, shots_in_hand};

    // The first shot of a piece that isn't higher than the limits; what is left of the piece is in hand.
    fn cut_piece(&mut self, piece: Trap) -> Trap
        requires { height_of piece ≤ℤ self.old.limits.height }
        ensures shots { shots_of_low self.old.limits.width piece ≡ result ∷ shots_of_piece self.old.limits.width (trap_of self.new.piece) }
        ensures above { self.new.above ≡ self.old.above }
        ensures limits { self.new.limits ≡ self.old.limits }
    {
        let cut = cut_by_width(&piece, &self.limits);
        self.piece = Rest::of_some(cut.rest);
        cut.part
    }

    // The first shot of a trapezoid; what is left of the trapezoid is in hand.
    fn cut_trap(&mut self, trap: Trap) -> Trap
        ensures shots { cut_list self.old.limits.height self.old.limits.width trap ≡ result ∷ shots_in_hand self.new }
        ensures limits { self.new.limits ≡ self.old.limits }
    {
        let cut = cut_by_height(&trap, &self.limits);
        self.above = Rest::of_some(cut.rest);
        self.cut_piece(cut.part)
    }

    // The first shot in hand, which it takes off. None exactly where nothing is in hand, and nothing is then.
    fn next(&mut self) -> Option<Trap>
        ensures shots { MatchOption result ((shots_in_hand self.old ≡ []) × (shots_in_hand self.new ≡ []))
            (λ shot. shots_in_hand self.old ≡ shot ∷ shots_in_hand self.new) }
        ensures limits { self.new.limits ≡ self.old.limits }
    {
        if let Some(piece) = self.piece {
            return Some(self.cut_piece(piece.trap()));
        }
        if let Some(rows) = self.above {
            return Some(self.cut_trap(rows.trap()));
        }
        None
    }
}

/// The shots of a stream of trapezoids: each trapezoid is cut by height from below, and each piece of that by width
/// from the left. It looks at each trapezoid once, and takes no memory.
#[derive(Drop)]
pub struct Cuts<S> {
    source: S,
    in_hand: InHand,
}

impl<S: Stream<Item = Trap>> Cuts<S> {
    ghost use Rattle.fracture.specs.Cutting.{shots_of};

    /// The stream of the shots of the trapezoids that `source` gives, within the limits: a height of at least one row,
    /// and a width of at least twice the height.
    pub fn new(source: S, limits: Limits) -> Cuts<S>
        requires { AreLimits limits.height limits.width }
        ensures some_list { HasList S.stands_for source → HasList ⟦<Cuts<S> as Stream>⟧.stands_for result }
        ensures list { (traps : List Trapezoid) → S.stands_for source traps
            → ⟦<Cuts<S> as Stream>⟧.stands_for result (shots_of limits.height limits.width traps) }
    {
        Cuts {
            source,
            in_hand: InHand {
                limits,
                piece: None,
                above: None,
            },
        }
    }
}

impl<S: Stream<Item = Trap>> Stream for Cuts<S> {
    type Item = Trap;

    ghost use Rattle.fracture.specs.Cutting.{enough_cuts};
    ghost use Rattle.fracture.specs.Cuts.{StandsForCuts, shots_in_hand, most_shots};
    ghost use Rattle.fracture.specs.StreamLaws.{Cuts-one_list, Cuts-no_longer, Cuts-bounded};

    ghost stands_for = { λ stream. StandsForCuts S.stands_for stream.source stream.in_hand };

    ghost size = { λ stream. length (shots_in_hand stream.in_hand) + most_shots * S.size stream.source };

    ghost most = { (suc enough_cuts + most_shots) + most_shots * S.most };

    fn next(&mut self) -> Option<Trap> {
        if let Some(shot) = self.in_hand.next() {
            return Some(shot);
        }
        match self.source.next() {
            Some(trap) => Some(self.in_hand.cut_trap(trap)),
            None => None,
        }
    }

    ghost one_list = { λ stream xs ys. Cuts-one_list S.one_list stream.source stream.in_hand xs ys };

    ghost no_longer = { λ stream xs. Cuts-no_longer S.no_longer stream.source stream.in_hand xs };

    ghost bounded = { λ stream xs. Cuts-bounded S.bounded stream.source stream.in_hand xs };
}
