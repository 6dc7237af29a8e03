//! The pieces of one shot in a stripe, field by field.
ghost use Rattle.std.specs.Prelude.{◌≡◌, ◌+◌, ◌*◌, ◌<◌, ◌≤◌, ℤ, [], ◌++◌, ◌∷◌, Some, ◌≤ℤ◌, ◌<ℤ◌, ◌+ℤ◌, ◌-ℤ◌, ◌*ℤ◌, pos, neg_ℤ, ◌^◌, IfNone, IsTrue, MatchOption, length};
ghost use Rattle.field_split.specs.Cutting.{most_fields, pieces_of_part, pieces_of_shot};
ghost use Rattle.field_split.specs.Looks.{IsWithinFieldReach};

use crate::part::Part;
use crate::parts::{Columns, parts_in};
use crate::stripe::{Stripe, in_stripe};
use half_grid::Trap;

/// The fields of a stripe that are still to be opened: this many, of which the first begins at the column `x`.
#[derive(Clone, Copy, Debug)]
pub(crate) struct Ahead {
    part: Part,
    x: i64,
    fields: u64,
    ghost few: { fields ≤ most_fields },
    ghost low: { neg_ℤ (pos (2 ^ 45)) ≤ℤ x },
    ghost high: { (x +ℤ (pos fields *ℤ pos 16777216)) ≤ℤ pos (2 ^ 52) },
}

/// What is left of the current shot: the pieces of the field that was opened last, and the fields ahead.
#[derive(Clone, Copy, Debug)]
pub(crate) struct InHand {
    lower: Option<Part>,
    middle: Option<Part>,
    upper: Option<Part>,
    ahead: Option<Ahead>,
}

impl Ahead {
    ghost use Rattle.field_split.specs.Cutting.{AreColumns, columns, greatest_x, first_field, last_field, number_of_fields, pieces_in};
    ghost use Rattle.field_split.specs.Pieces.{shape_of, pieces_ahead};

    // The field that has the part's least X.
    fn first_field(part: Part, stripe: Stripe) -> i64
        ensures { result ≡ first_field stripe.size (shape_of part) }
    {
        part.trap().least_x().div_euclid(stripe.size)
    }

    // The last column that it may have tiles in.
    fn last_column(part: Part) -> i64
        ensures { result ≡ greatest_x (shape_of part) -ℤ pos 1 }
    {
        part.trap().greatest_x() - 1
    }

    // The field that has this column.
    fn last_field(part: Part, stripe: Stripe) -> i64
        ensures { result ≡ last_field stripe.size (shape_of part) }
    {
        Ahead::last_column(part).div_euclid(stripe.size)
    }

    // The first column of the field that has the part's least X.
    fn start(part: Part, stripe: Stripe) -> i64
        ensures value { result ≡ first_field stripe.size (shape_of part) *ℤ stripe.size }
        ensures low { neg_ℤ (pos (2 ^ 45)) ≤ℤ result }
        ensures high { result ≤ℤ pos (2 ^ 45) }
    {
        Ahead::first_field(part, stripe) * stripe.size
    }

    // How many fields after the first the part meets.
    fn further(part: Part, stripe: Stripe) -> i64
        requires { IsWithinFieldReach (shape_of part) }
        ensures value { result ≡ last_field stripe.size (shape_of part) -ℤ first_field stripe.size (shape_of part) }
        ensures low { pos 0 ≤ℤ result }
        ensures high { result ≤ℤ pos 33554432 }
    {
        Ahead::last_field(part, stripe) - Ahead::first_field(part, stripe)
    }

    // In how many fields the part lies.
    fn count(part: Part, stripe: Stripe) -> u64
        requires { IsWithinFieldReach (shape_of part) }
        ensures value { result ≡ number_of_fields stripe.size (shape_of part) }
        ensures few { result ≤ most_fields }
    {
        Ahead::further(part, stripe) as u64 + 1
    }

    // All fields of the stripe that the part meets.
    #[tactic(auto, unfolding(crate::specs::Cutting::pieces_of_part))]
    fn of(part: Part, stripe: Stripe) -> Ahead
        requires { IsWithinFieldReach (shape_of part) }
        ensures { pieces_ahead stripe.size (Some result) ≡ pieces_of_part stripe.size (shape_of part) }
    {
        Ahead {
            part,
            x: Ahead::start(part, stripe),
            fields: Ahead::count(part, stripe),
        }
    }

    // The columns of the next field.
    fn columns(self, stripe: Stripe) -> Columns
        ensures value { result ≡ columns self.x (self.x +ℤ stripe.size) }
        ensures near { AreColumns result }
    {
        Columns {
            x0: self.x,
            x1: self.x + stripe.size,
        }
    }

    // The fields after the next.
    fn after(self, stripe: Stripe) -> Ahead
        requires { 0 < self.fields }
        ensures pieces { pieces_ahead stripe.size (Some self) ≡ pieces_in (shape_of self.part) (columns self.x (self.x +ℤ stripe.size)) ++ pieces_ahead stripe.size (Some result) }
        ensures fewer { result.fields < self.fields }
    {
        Ahead {
            part: self.part,
            x: self.x + stripe.size,
            fields: self.fields - 1,
        }
    }
}

impl InHand {
    ghost use Rattle.field_split.specs.Pieces.{waiting, waiting_in, fields_ahead, pieces_in_hand};

    /// No current shot.
    pub(crate) fn none() -> InHand
        ensures { (size : ℤ) → pieces_in_hand size result ≡ [] }
    {
        InHand {
            lower: None,
            middle: None,
            upper: None,
            ahead: None,
        }
    }

    /// The whole of a shot.
    pub(crate) fn of(shot: &Trap, stripe: Stripe) -> InHand
        requires { IsWithinFieldReach shot.now }
        ensures { pieces_in_hand stripe.size result ≡ pieces_of_shot stripe.size stripe.number shot.now }
    {
        match in_stripe(shot, stripe) {
            None => InHand::none(),
            Some(part) => InHand {
                lower: None,
                middle: None,
                upper: None,
                ahead: Some(Ahead::of(part, stripe)),
            },
        }
    }

    // The first piece that waits, which it takes off. None exactly where none does.
    fn take_waiting(&mut self) -> Option<Part>
        ensures taken { waiting_in self.old ≡ waiting result ++ waiting_in self.new }
        ensures none { IfNone result (waiting_in self.old ≡ []) }
        ensures ahead { self.new.ahead ≡ self.old.ahead }
    {
        if let Some(piece) = self.lower.take() {
            return Some(piece);
        }
        if let Some(piece) = self.middle.take() {
            return Some(piece);
        }
        self.upper.take()
    }

    // Opens the next field, where no piece waits. False exactly where no field is ahead.
    fn open_next(&mut self, stripe: Stripe) -> bool
        requires { waiting_in self.old ≡ [] }
        ensures pieces { pieces_in_hand stripe.size self.new ≡ pieces_in_hand stripe.size self.old }
        ensures opened { IsTrue result → fields_ahead self.new < fields_ahead self.old }
        ensures closed { (IsTrue result → ⊥) → pieces_in_hand stripe.size self.new ≡ [] }
    {
        let Some(ahead) = self.ahead else {
            return false;
        };
        if ahead.fields == 0 {
            return false;
        }
        let parts = parts_in(&ahead.part, ahead.columns(stripe));
        self.lower = parts.lower;
        self.middle = parts.middle;
        self.upper = parts.upper;
        self.ahead = Some(ahead.after(stripe));
        true
    }

    /// The first piece that is left, which is removed. None exactly where none is left.
    pub(crate) fn next(&mut self, stripe: Stripe) -> Option<Trap>
        ensures { MatchOption result
            ((pieces_in_hand stripe.size self.old ≡ []) × (pieces_in_hand stripe.size self.new ≡ []))
            (λ piece. pieces_in_hand stripe.size self.old ≡ piece ∷ pieces_in_hand stripe.size self.new) }
    {
        loop {
            if let Some(piece) = self.take_waiting() {
                return Some(piece.trap());
            }
            if !self.open_next(stripe) {
                return None;
            }
        }
    }
}
