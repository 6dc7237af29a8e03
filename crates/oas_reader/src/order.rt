//! The order of the records.
ghost use Rattle.std.specs.Prelude.{◌≡◌, ℕ, List, [], ◌∷◌, IfSome, IfNone, false, true};
ghost use Rattle.oas_reader.specs.Order.{may_follow};
ghost use Rattle.oas_reader.specs.Places.{IsPlace};

/// Where a file is after some records.
#[derive(Clone, Copy, Debug, PartialEq, Eq)]
pub(crate) enum Place {
    /// Before START.
    Start,
    /// Outside of cells.
    Outside,
    /// In a cell.
    Cell,
}

impl Place {
    /// The place after one more record of this id, which may come there; else none.
    #[inline(always)]
    pub(crate) fn after(self, id: u8) -> Option<Place>
        ensures some { (past : List ℕ) → IsPlace past self → IfSome result (λ place. (may_follow past id ≡ true) × IsPlace (id ∷ past) place) }
        ensures none { (past : List ℕ) → IsPlace past self → IfNone result (may_follow past id ≡ false) }
    {
        match self {
            Place::Start => match id {
                1 => Some(Place::Outside),
                _ => None,
            },
            Place::Outside => match id {
                1 | 15..=27 | 32..=33 => None,
                13..=14 => Some(Place::Cell),
                _ => Some(Place::Outside),
            },
            Place::Cell => match id {
                1 => None,
                3..=12 | 30..=31 => Some(Place::Outside),
                _ => Some(Place::Cell),
            },
        }
    }
}
