//! Deck and layout read from a depot.
ghost use Rattle.std.specs.Prelude.{◌≡◌, ◌⊎◌, ℕ, List as Items, [], Ok, Err, IsTrue, IfOk, OnOk};
ghost use Rattle.depot.specs.Content.{IsNotThere, IsLongerThan, ChangesLeftOnly, with_left};
ghost use Rattle.depot.specs.Counts.{NeverFall, Rose};
ghost use Rattle.geo_stream.specs.declared.refusal.Refusal.TheVariants.{Fault, NoMemory};
ghost use Rattle.gds_reader.specs.declared.refusing.GdsBad.{GdsBad as AGdsBad};
ghost use Rattle.oas_reader.specs.declared.refusing.OasBad.{OasBad as AnOasBad};
ghost use Rattle.cell_tree.specs.declared.faults.TreeBad.{TreeBad as ATreeBad};
ghost use Rattle.deck_text.specs.declared.refusal.DeckBad.{DeckBad as ADeckBad};
ghost use Rattle.job_input.specs.Accepted.{HoldsInput, IsOfBytes};
ghost use Rattle.job_input.specs.Refused.{HoldsDeckFault, IsLongLayout, HoldsGdsFault, HoldsOasFault, HoldsTreeFault};
ghost use Rattle.job_input.specs.Refused.{IsWanting};
ghost use Rattle.job_input.specs.Clauses.{IsReadExactlyWhere, ComesByKind, CountsFor};
ghost use Rattle.job_input.specs.Parts.{IsInputAnswer, layout_refused};
ghost use Rattle.job_input.specs.declared.reading.Input.{Input as AnInput};

use crate::decks::take_deck;
use crate::formats::Format;
use crate::layouts::take_layout;
use crate::refusing::{DeckFault, InputBad, LayoutBad, LayoutFault};
use cell_tree::Tree;
use deck_text::Deck;
use depot::Depot;
use geo_stream::Refusal;
use layout_model::Name;
use oas_reader::reading_laws;
use std::alloc::Global;

/// What a job is about: an accepted deck, and the cells of an accepted layout below the deck's top cell.
#[derive(Debug, Drop)]
pub struct Input {
    /// What the deck says.
    pub deck: Deck,
    /// The format of the layout's file.
    pub format: Format,
    /// The layout's cells. Shapes that are on none of the deck's layers were left out.
    pub tree: Tree,
}

// The answer to a refused layout.
fn layout_refused(bad: LayoutBad, top: Name) -> InputBad
    ensures { result ≡ layout_refused bad top }
{
    match bad {
        LayoutBad::Refused(fault) => InputBad::Layout(fault, top),
        LayoutBad::ReadFault => InputBad::ReadFault,
    }
}

// Reads deck and layout, by the table of answers.
fn read_both<D: Depot>(
    alloc: Global,
    depot: &mut D,
    layout: &str,
    deck: &str,
) -> Result<Input, Refusal<InputBad>>
    ensures answer { IsTrue D.tells → IsInputAnswer (D.content depot.old)
        (Rose (D.counts depot.old).read_faults (D.counts depot.new).read_faults) layout.now deck.now result }
    ensures read_fault { result ≡ Err (Fault InputBad.ReadFault)
        → Rose (D.counts depot.old).read_faults (D.counts depot.new).read_faults
        ⊎ (IsTrue D.tells × IsWanting (D.content depot.old) layout.now deck.now) }
    ensures missing_deck { IsTrue D.tells → IsNotThere (D.content depot.old) deck.now
        → (result ≡ Err (Fault InputBad.ReadFault))
        ⊎ ((result ≡ Err NoMemory) × Rose (D.counts depot.old).refused (D.counts depot.new).refused) }
    ensures of_bytes { IfOk result (IsOfBytes layout.now deck.now) }
    ensures whole { OnOk result (IsTrue D.tells
        → D.content depot.new ≡ with_left (D.content depot.old) []) }
    ensures others { IsTrue D.tells → ChangesLeftOnly (D.content depot.old) (D.content depot.new) }
    ensures counts { CountsFor (D.counts depot.old) (D.counts depot.new) result }
    ensures counted { NeverFall (D.counts depot.old) (D.counts depot.new) }
{
    let deck = take_deck(alloc, depot, layout, deck)?;
    match take_layout(alloc, depot, layout, &deck) {
        Ok(found) => Ok(Input {
            deck,
            format: found.format,
            tree: found.tree,
        }),
        Err(Refusal::Fault(bad)) => Err(Refusal::Fault(layout_refused(bad, deck.top))),
        Err(Refusal::NoMemory) => Err(Refusal::NoMemory),
    }
}

/// Reads the deck and the layout of these names. The deck is read first and judged, then the layout is read and judged,
/// as an OASIS file where its first byte is 25 hex and else as a GDSII file, and then the tree of its cells below the
/// deck's top cell. The first refusal is answered. An output may take neither of the two names.
///
/// But for what is left to be read, the content of the depot is as before, whatever the answer. The clauses on content
/// hold over a depot that tells it. The others hold over every depot.
pub fn read_input<D: Depot>(
    alloc: Global,
    depot: &mut D,
    layout: &str,
    deck: &str,
) -> Result<Input, Refusal<InputBad>>
    // What is accepted is given.
    ensures given { IsTrue D.tells → (input : AnInput) → IsReadExactlyWhere
        (Rose (D.counts depot.old).read_faults (D.counts depot.new).read_faults) result
        (Ok input) (HoldsInput (D.content depot.old) layout.now deck.now input) }

    // The cause of each refusal.
    ensures deck_long { IsTrue D.tells → IsReadExactlyWhere
        (Rose (D.counts depot.old).read_faults (D.counts depot.new).read_faults) result
        (Err (Fault (InputBad.Deck DeckFault.Long))) (IsLongerThan 65536 (D.content depot.old) deck.now) }
    ensures deck_bad { IsTrue D.tells → (bad : ADeckBad) → IsReadExactlyWhere
        (Rose (D.counts depot.old).read_faults (D.counts depot.new).read_faults) result
        (Err (Fault (InputBad.Deck (DeckFault.Bad bad))))
        (HoldsDeckFault (D.content depot.old) layout.now deck.now bad) }
    // Those of the layout keep the name of the deck's top cell.
    ensures layout_long { IsTrue D.tells → (top : Items ℕ) → IsReadExactlyWhere
        (Rose (D.counts depot.old).read_faults (D.counts depot.new).read_faults) result
        (Err (Fault (InputBad.Layout LayoutFault.Long top)))
        (IsLongLayout (D.content depot.old) layout.now deck.now top) }
    ensures layout_gds { IsTrue D.tells → (bad : AGdsBad) (top : Items ℕ) → IsReadExactlyWhere
        (Rose (D.counts depot.old).read_faults (D.counts depot.new).read_faults) result
        (Err (Fault (InputBad.Layout (LayoutFault.Gds bad) top)))
        (HoldsGdsFault (D.content depot.old) layout.now deck.now bad top) }
    ensures layout_oas { IsTrue D.tells → (bad : AnOasBad) (top : Items ℕ) → IsReadExactlyWhere
        (Rose (D.counts depot.old).read_faults (D.counts depot.new).read_faults) result
        (Err (Fault (InputBad.Layout (LayoutFault.Oas bad) top)))
        (HoldsOasFault (D.content depot.old) layout.now deck.now bad top) }
    ensures layout_tree { IsTrue D.tells → (bad : ATreeBad) (top : Items ℕ) → ComesByKind
        (Rose (D.counts depot.old).read_faults (D.counts depot.new).read_faults) result
        bad top (HoldsTreeFault (D.content depot.old) layout.now deck.now bad top) }

    // A fault of reading comes only where it was counted or a name that has to be read isn't there, and where such a
    // name isn't there only that comes or want of memory.
    ensures read_fault { result ≡ Err (Fault InputBad.ReadFault)
        → Rose (D.counts depot.old).read_faults (D.counts depot.new).read_faults
        ⊎ (IsTrue D.tells × IsWanting (D.content depot.old) layout.now deck.now) }
    ensures missing { IsTrue D.tells → IsWanting (D.content depot.old) layout.now deck.now
        → (result ≡ Err (Fault InputBad.ReadFault)) ⊎ (result ≡ Err NoMemory) }
    // Where the deck isn't there, want of memory comes only where it was counted. Where the layout isn't there it may
    // also be that the deck's memory was wanting, which no depot counts.
    ensures missing_deck { IsTrue D.tells → IsNotThere (D.content depot.old) deck.now
        → (result ≡ Err (Fault InputBad.ReadFault))
        ⊎ ((result ≡ Err NoMemory) × Rose (D.counts depot.old).refused (D.counts depot.new).refused) }

    // What is given is the deck and the layout of some bytes, over every depot.
    ensures of_bytes { IfOk result (IsOfBytes layout.now deck.now) }

    // What changes.
    ensures whole { OnOk result (IsTrue D.tells
        → D.content depot.new ≡ with_left (D.content depot.old) []) }
    ensures others { IsTrue D.tells → ChangesLeftOnly (D.content depot.old) (D.content depot.new) }
    ensures counts { CountsFor (D.counts depot.old) (D.counts depot.new) result }
    ensures counted { NeverFall (D.counts depot.old) (D.counts depot.new) }
{
    // bytes are one OASIS layout at most, or have one first fault
    reading_laws();
    read_both(alloc, depot, layout, deck)
}
