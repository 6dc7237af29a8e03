//! The pieces of a stream of shots in a stripe.
ghost use Rattle.std.specs.Prelude.{◌≡◌, ℤ, ◌+◌, ◌*◌, All, List, length};
ghost use Rattle.geo_stream.specs.Stream.{HasList};
ghost use Rattle.half_grid.specs.Reach.{IsWithinReach};
ghost use Rattle.half_grid.specs.Trapezoids.{Trapezoid};
ghost use Rattle.field_split.specs.Fields.{IsInStretch, IsStripeList};
ghost use Rattle.field_split.specs.Looks.{IsFieldShot};

use crate::fields::Fields;
use crate::in_hand::InHand;
use crate::stripe::Stripe;
use geo_stream::Stream;
use half_grid::Trap;

/// The pieces of a stream of shots in the fields of one stripe: each shot is cut along the fields' lines, and its pieces
/// come field by field from the left, in each from below. It looks at each shot once, and takes no memory.
#[derive(Drop)]
pub struct Pieces<S> {
    source: S,
    stripe: Stripe,
    in_hand: InHand,
}

impl<S: Stream<Item = Trap>> Pieces<S> {
    /// The stream of the pieces in the stripe of the shots that `source` gives. Each shot is within the reach of a field,
    /// and the stripe is that of some row within reach.
    pub fn new(source: S, fields: Fields, stripe: i64) -> Pieces<S>
        requires stripe { (y : ℤ) × IsWithinReach y × IsInStretch fields stripe y }
        requires shots { (shots : List Trapezoid) × S.stands_for source shots × All IsFieldShot shots }
        ensures some_list { HasList ⟦<Pieces<S> as Stream>⟧.stands_for result }
        ensures list { (shots : List Trapezoid) → S.stands_for source shots
            → (pieces : List Trapezoid) × IsStripeList fields stripe shots pieces
            × ⟦<Pieces<S> as Stream>⟧.stands_for result pieces }
    {
        Pieces {
            source,
            stripe: Stripe {
                size: fields.size(),
                number: stripe,
            },
            in_hand: InHand::none(),
        }
    }
}

impl<S: Stream<Item = Trap>> Stream for Pieces<S> {
    type Item = Trap;

    ghost use Rattle.field_split.specs.Pieces.{StandsForPieces, pieces_in_hand};
    ghost use Rattle.field_split.specs.Cutting.{most_pieces};
    ghost use Rattle.field_split.specs.StreamLaws.{Pieces-one_list, Pieces-no_longer, Pieces-bounded};

    ghost stands_for = { λ stream. StandsForPieces S.stands_for stream.stripe.size stream.stripe.number stream.source stream.in_hand };

    ghost size = { λ stream. length (pieces_in_hand stream.stripe.size stream.in_hand) + most_pieces * S.size stream.source };

    ghost most = { most_pieces + most_pieces * S.most };

    fn next(&mut self) -> Option<Trap> {
        loop {
            if let Some(piece) = self.in_hand.next(self.stripe) {
                return Some(piece);
            }
            match self.source.next() {
                Some(shot) => self.in_hand = InHand::of(&shot, self.stripe),
                None => return None,
            }
        }
    }

    ghost one_list = { λ stream xs ys. Pieces-one_list S.one_list stream.stripe.size stream.stripe.number stream.source stream.in_hand xs ys };

    ghost no_longer = { λ stream xs. Pieces-no_longer S.no_longer stream.stripe.size stream.stripe.number stream.source stream.in_hand xs };

    ghost bounded = { λ stream xs. Pieces-bounded S.bounded stream.stripe.size stream.stripe.number stream.source stream.in_hand xs };
}
