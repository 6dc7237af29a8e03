//! The deck of a name.
ghost use Rattle.std.specs.Prelude.{◌≡◌, ◌⊎◌, ◌≤◌, ℕ, List, [], Err, IsTrue, IfOk, OnOk, length};
ghost use Rattle.depot.specs.Content.{IsNotThere, ChangesLeftOnly, with_left};
ghost use Rattle.depot.specs.Counts.{NeverFall, Rose};
ghost use Rattle.geo_stream.specs.declared.refusal.Refusal.TheVariants.{Fault, NoMemory};
ghost use Rattle.deck_text.specs.Decks.{IsDeck};
ghost use Rattle.job_input.specs.Clauses.{CountsFor};
ghost use Rattle.job_input.specs.Parts.{IsDeckTold, IsDeckAnswer};

use crate::refusing::{DeckFault, InputBad};
use deck_text::{Deck, read_deck};
use depot::{Depot, Refused, read_all};
use geo_stream::Refusal;
use std::alloc::Global;

/// A deck has at most this many bytes.
const DECK_LIMIT: usize = 65_536;

// The deck that the bytes are.
fn deck_in(alloc: Global, bytes: &[u8], layout: &str, deck: &str) -> Result<Deck, Refusal<InputBad>>
    requires { length bytes.now ≤ 65536 }
    ensures told { IsDeckTold bytes.now layout.now deck.now result }
{
    match read_deck(alloc, bytes, layout, deck) {
        Ok(deck) => Ok(deck),
        Err(Refusal::Fault(bad)) => Err(Refusal::Fault(InputBad::Deck(DeckFault::Bad(bad)))),
        Err(Refusal::NoMemory) => Err(Refusal::NoMemory),
    }
}

/// Reads the deck of the name `deck`.
pub(crate) fn take_deck<D: Depot>(
    alloc: Global,
    depot: &mut D,
    layout: &str,
    deck: &str,
) -> Result<Deck, Refusal<InputBad>>
    ensures answer { IsTrue D.tells → IsDeckAnswer (D.content depot.old)
        (Rose (D.counts depot.old).read_faults (D.counts depot.new).read_faults) layout.now deck.now result }
    ensures read_fault { result ≡ Err (Fault InputBad.ReadFault)
        → Rose (D.counts depot.old).read_faults (D.counts depot.new).read_faults
        ⊎ (IsTrue D.tells × IsNotThere (D.content depot.old) deck.now) }
    ensures of_bytes { IfOk result (λ d. (bytes : List ℕ) × IsDeck bytes layout.now deck.now d) }
    ensures missing { IsTrue D.tells → IsNotThere (D.content depot.old) deck.now
        → (result ≡ Err (Fault InputBad.ReadFault))
        ⊎ ((result ≡ Err NoMemory) × Rose (D.counts depot.old).refused (D.counts depot.new).refused) }
    ensures whole { OnOk result (IsTrue D.tells
        → D.content depot.new ≡ with_left (D.content depot.old) []) }
    ensures others { IsTrue D.tells → ChangesLeftOnly (D.content depot.old) (D.content depot.new) }
    ensures counts { CountsFor (D.counts depot.old) (D.counts depot.new) result }
    ensures counted { NeverFall (D.counts depot.old) (D.counts depot.new) }
{
    match read_all(alloc, depot, deck, DECK_LIMIT) {
        Ok(bytes) => deck_in(alloc, &bytes, layout, deck),
        Err(Refused::Fault) => Err(Refusal::Fault(InputBad::ReadFault)),
        Err(Refused::TooLong) => Err(Refusal::Fault(InputBad::Deck(DeckFault::Long))),
        Err(Refused::NoMemory) => Err(Refusal::NoMemory),
    }
}
