//! Repetitions that records use again.
ghost use Rattle.std.specs.Prelude.{◌≡◌, IfOk, Err};
ghost use Rattle.layout_model.specs.Layouts.{AreOffsets};
ghost use Rattle.oas_shapes.specs.Repetitions.{HasDimensions, offsets_of as the_offsets_of};
ghost use Rattle.oas_shapes.specs.Rules.{AreNear};
ghost use Rattle.oas_shapes.specs.Short.{IsShort};
ghost use Rattle.oas_shapes.specs.declared.trails.Unplaced.TheVariants.{Far, Many, Unkept, NoMemory as Wanting};

use crate::repetitions::{dimensions_are_allowed, spread};
use crate::trails::Unplaced;
use layout_model::Offsets;
use oas_record::Rep;
use std::alloc::Global;
use std::marker::Model;

/// A repetition as it is written. The places of one that lists them are made once, and all shapes and placements that
/// are repeated so share them. Contracts see what is written.
#[derive(Debug, Drop)]
pub struct Repetition<'f> {
    written: Rep<'f>,
    // Its places, once they were made.
    places: Option<Offsets>,
}

impl<'f> Model for Repetition<'f> {
    ghost use Rattle.oas_record.specs.declared.repetition.Rep.{Rep as ARep};
    ghost use Rattle.oas_shapes.specs.Sharing.{IsShared};

    ghost Value = { ARep };

    ghost view = { λ repetition. repetition.written };

    ghost invariant = { λ repetition. IsShared repetition.written repetition.places };
}

// Whether it lists spaces or moves.
fn is_listed(repetition: &Rep<'_>) -> bool {
    match repetition {
        Rep::RowSpaces { .. } | Rep::RowOnGrid { .. } => true,
        Rep::ColumnSpaces { .. } | Rep::ColumnOnGrid { .. } => true,
        Rep::Moves { .. } | Rep::MovesOnGrid { .. } => true,
        _ => false,
    }
}

impl<'f> Repetition<'f> {
    /// The repetition that is written so.
    pub fn new(written: Rep<'f>) -> Repetition<'f>
        ensures { result ≡ written.entry }
    {
        Repetition {
            written,
            places: None,
        }
    }

    /// What is written.
    pub fn written(&self) -> &Rep<'f>
        ensures { result.now ≡ self.now }
    {
        &self.written
    }

    /// Makes its places, where it lists them and they aren't made yet, and where memory is there: in the time and the
    /// memory of the list. It changes nothing else.
    pub fn make_places(&mut self, alloc: Global)
        ensures { self.new ≡ self.old }
    {
        if self.places.is_some() {
            return;
        }
        if !is_listed(&self.written) {
            return;
        }
        let is_allowed = dimensions_are_allowed(&self.written);
        match spread(alloc, &self.written, is_allowed) {
            Ok(places) => self.places = Some(places),
            Err(_) => {}
        }
    }

    // Its offsets in half units. Those that are made already are shared.
    pub(crate) fn offsets(&self, alloc: Global) -> Result<Offsets, Unplaced>
        ensures ok { IfOk result (λ offsets. (offsets ≡ the_offsets_of self.now) × AreOffsets offsets × HasDimensions self.now) }
        ensures far { result ≡ Err Far → ¬ AreNear (the_offsets_of self.now) }
        ensures many { result ≡ Err Many → AreNear (the_offsets_of self.now) × ¬ HasDimensions self.now }
        ensures unkept { result ≡ Err Unkept → AreNear (the_offsets_of self.now) × HasDimensions self.now }
        ensures few { IsShort self.now → result ≡ Err Wanting → ⊥ }
    {
        match &self.places {
            Some(places) => match places.copy(alloc) {
                Ok(places) => Ok(places),
                Err(_) => Err(Unplaced::Unkept),
            },
            None => spread(alloc, &self.written, dimensions_are_allowed(&self.written)),
        }
    }
}
