//! Cells whose names may be numbers yet.
ghost use Rattle.std.specs.Prelude.{◌≡◌, ◌++◌, ℕ, List as AList, [], ◌∷◌, OnOk, IfOk};
ghost use Rattle.layout_model.specs.declared.pair.Pair.{Pair};
ghost use Rattle.oas_reader.specs.Cells.{begun_at, closed};
ghost use Rattle.oas_reader.specs.Readers.{AreDraftsOf, AreDraftsWithin};

use crate::placing::Placing;
use geo_stream::NoMemory;
use layout_model::Shapes;
use oas_record::Called;
use std::alloc::Global;
use std::mem::replace;

/// A cell, and the offset of its CELL record.
#[derive(Drop)]
pub(crate) struct Draft {
    pub(crate) at: usize,
    pub(crate) called: Called,
    pub(crate) shapes: Shapes,
    pub(crate) placings: Vec<Placing>,
}

// The CELL record of the open cell.
#[derive(Clone, Copy)]
struct Begun {
    at: usize,
    called: Called,
}

/// The cells so far, and the open one.
#[derive(Drop)]
pub(crate) struct Drafts {
    begun: Option<Begun>,
    pub(crate) shapes: Shapes,
    placings: Vec<Placing>,
    whole: Vec<Draft>,
}

impl Drafts {
    pub(crate) fn new(alloc: Global) -> Drafts
        ensures drafts { (wanted : AList Pair) → AreDraftsOf wanted [] result }
        ensures within { (bytes : AList ℕ) → AreDraftsWithin bytes result }
    {
        Drafts {
            begun: None,
            shapes: Shapes::new(alloc),
            placings: Vec::new(alloc),
            whole: Vec::new(alloc),
        }
    }

    // Ends the open cell.
    fn close(&mut self, alloc: Global) -> Result<(), NoMemory>
        ensures shapes { OnOk result (self.new.shapes ≡ []) }
        ensures placings { OnOk result (self.new.placings.items ≡ []) }
        ensures whole { OnOk result (self.new.whole.items ≡ self.old.whole.items ++ closed self.old.begun self.old.shapes self.old.placings) }
    {
        let shapes = replace(&mut self.shapes, Shapes::new(alloc));
        let placings = replace(&mut self.placings, Vec::new(alloc));
        let Some(begun) = self.begun else {
            return Ok(());
        };
        let draft = Draft {
            at: begun.at,
            called: begun.called,
            shapes,
            placings,
        };
        match self.whole.push(draft) {
            Ok(()) => Ok(()),
            Err(_) => Err(NoMemory),
        }
    }

    /// Begins the cell whose CELL record is at this offset.
    pub(crate) fn begin(&mut self, alloc: Global, called: Called, at: usize) -> Result<(), NoMemory>
        ensures begun { OnOk result (self.new.begun ≡ begun_at at called) }
        ensures shapes { OnOk result (self.new.shapes ≡ []) }
        ensures placings { OnOk result (self.new.placings.items ≡ []) }
        ensures whole { OnOk result (self.new.whole.items ≡ self.old.whole.items ++ closed self.old.begun self.old.shapes self.old.placings) }
    {
        self.close(alloc)?;
        self.begun = Some(Begun { at, called });
        Ok(())
    }

    /// Adds a placement to the open cell.
    pub(crate) fn place(&mut self, placing: Placing) -> Result<(), NoMemory>
        ensures placings { OnOk result (self.new.placings.items ≡ self.old.placings.items ++ placing ∷ []) }
        ensures shapes { self.new.shapes ≡ self.old.shapes }
        ensures begun { self.new.begun ≡ self.old.begun }
        ensures whole { self.new.whole ≡ self.old.whole }
    {
        match self.placings.push(placing) {
            Ok(()) => Ok(()),
            Err(_) => Err(NoMemory),
        }
    }

    /// All cells, the open one too.
    pub(crate) fn finish(mut self, alloc: Global) -> Result<Vec<Draft>, NoMemory>
        ensures { IfOk result (λ drafts. drafts.items ≡ self.whole.items ++ closed self.begun self.shapes self.placings) }
    {
        self.close(alloc)?;
        let Drafts { whole, .. } = self;
        Ok(whole)
    }
}
