//! Shots of a list, by their numbers.
ghost use Rattle.std.specs.Prelude.{◌≡◌, ◌^◌, ◌<◌, List, length};
ghost use Rattle.std.specs.List.{AllZip};
ghost use Rattle.half_grid.specs.Trapezoids.{Trapezoid};
ghost use Rattle.field_output.specs.Meeting.{HasNumber};
ghost use Rattle.field_output.specs.StreamLaws.{Chosen-one_list, Chosen-no_longer, Chosen-bounded};

use geo_stream::Stream;
use half_grid::Trap;

/// The shots of a list that have these numbers.
#[derive(Clone, Copy, Debug)]
pub(crate) struct Chosen<'a> {
    shots: &'a [Trap],
    numbers: &'a [u32],
    ghost fits: { length numbers.now < 2 ^ 64 },
}

impl<'a> Chosen<'a> {
    /// The shots of these numbers.
    pub(crate) fn new(shots: &'a [Trap], numbers: &'a [u32]) -> Chosen<'a>
        ensures { (items : List Trapezoid) → AllZip (HasNumber shots.entry.now) numbers.entry.now items
            → ⟦<Chosen<'a> as Stream>⟧.stands_for result items }
    {
        Chosen { shots, numbers }
    }
}

impl<'a> Stream for Chosen<'a> {
    type Item = Trap;

    ghost stands_for = { λ chosen items. AllZip (HasNumber chosen.shots.now) chosen.numbers.now items };

    ghost size = { λ chosen. length chosen.numbers.now };

    ghost most = { 2 ^ 64 };

    fn next(&mut self) -> Option<Trap> {
        let (number, rest) = self.numbers.split_first()?;
        self.numbers = rest;
        Some(self.shots[*number as usize])
    }

    ghost one_list = { λ chosen xs ys. Chosen-one_list chosen.shots.now chosen.numbers.now xs ys };

    ghost no_longer = { λ chosen xs. Chosen-no_longer chosen.shots.now chosen.numbers.now xs };

    ghost bounded = { λ chosen xs p. Chosen-bounded (length chosen.numbers.now) (2 ^ 64) chosen.fits };
}
