//! The layout of a name.
ghost use Rattle.std.specs.Prelude.{◌≡◌, ◌⊎◌, ℕ, List, [], Err, IsTrue, IfOk, OnOk};
ghost use Rattle.depot.specs.Content.{IsNotThere, ChangesLeftOnly, with_left};
ghost use Rattle.depot.specs.Counts.{NeverFall, Rose};
ghost use Rattle.geo_stream.specs.declared.refusal.Refusal.TheVariants.{Fault, NoMemory};
ghost use Rattle.layout_model.specs.Layouts.{IsLayoutOnGrid};
ghost use Rattle.job_input.specs.Accepted.{IsFormatOf, IsLayoutFor, IsTreeFor};
ghost use Rattle.job_input.specs.Parts.{IsLayoutTold, IsRootTold, IsTreeTold, IsTreeAnswer, LayoutCountsFor};

use crate::formats::{Format, format_of};
use crate::refusing::{LayoutBad, LayoutFault};
use cell_tree::{Tree, resolve};
use deck_text::Deck;
use depot::{Depot, Refused, read_all};
use gds_reader::read_gds;
use geo_stream::Refusal;
use layout_model::Layout;
use oas_reader::read_oas;
use std::alloc::Global;

/// A layout has at most this many bytes.
const LAYOUT_LIMIT: usize = 268_435_456;

/// An accepted layout.
#[derive(Drop)]
pub(crate) struct Found {
    /// The format of its file.
    pub(crate) format: Format,
    /// Its cells below the deck's top cell.
    pub(crate) tree: Tree,
}

// The layout that the bytes of a GDSII file are.
fn gds_layout(alloc: Global, bytes: &[u8], deck: &Deck) -> Result<Layout, Refusal<LayoutBad>>
    requires { IsFormatOf bytes.now Format.Gdsii }
    ensures told { IsLayoutTold deck.now bytes.now Format.Gdsii result }
    ensures grid { IfOk result IsLayoutOnGrid }
{
    let pairs = deck.layers(alloc)?;
    match read_gds(alloc, bytes, deck.unit, pairs.as_slice()) {
        Ok(layout) => Ok(layout),
        Err(Refusal::Fault(bad)) => Err(Refusal::Fault(LayoutBad::Refused(LayoutFault::Gds(bad)))),
        Err(Refusal::NoMemory) => Err(Refusal::NoMemory),
    }
}

// The layout that the bytes of an OASIS file are.
fn oas_layout(alloc: Global, bytes: &[u8], deck: &Deck) -> Result<Layout, Refusal<LayoutBad>>
    requires { IsFormatOf bytes.now Format.Oasis }
    ensures told { IsLayoutTold deck.now bytes.now Format.Oasis result }
    ensures grid { IfOk result IsLayoutOnGrid }
{
    let pairs = deck.layers(alloc)?;
    match read_oas(alloc, bytes, deck.unit, pairs.as_slice()) {
        Ok(layout) => Ok(layout),
        Err(Refusal::Fault(bad)) => Err(Refusal::Fault(LayoutBad::Refused(LayoutFault::Oas(bad)))),
        Err(Refusal::NoMemory) => Err(Refusal::NoMemory),
    }
}

// The layout that the bytes of a file of this format are.
fn layout_in(
    alloc: Global,
    bytes: &[u8],
    format: Format,
    deck: &Deck,
) -> Result<Layout, Refusal<LayoutBad>>
    requires { IsFormatOf bytes.now format }
    ensures told { IsLayoutTold deck.now bytes.now format result }
    ensures grid { IfOk result IsLayoutOnGrid }
{
    match format {
        Format::Gdsii => gds_layout(alloc, bytes, deck),
        Format::Oasis => oas_layout(alloc, bytes, deck),
    }
}

// The tree of the layout's cells below the deck's top cell.
fn tree_of(alloc: Global, layout: Layout, deck: &Deck) -> Result<Tree, Refusal<LayoutBad>>
    requires { IsLayoutOnGrid layout }
    ensures told { IsRootTold deck.now layout result }
{
    match resolve(alloc, layout, &deck.top) {
        Ok(tree) => Ok(tree),
        Err(Refusal::Fault(bad)) => Err(Refusal::Fault(LayoutBad::Refused(LayoutFault::Tree(bad)))),
        Err(Refusal::NoMemory) => Err(Refusal::NoMemory),
    }
}

// The layout that the bytes are, with the tree of its cells.
fn tree_in(alloc: Global, bytes: &[u8], deck: &Deck) -> Result<Found, Refusal<LayoutBad>>
    ensures told { IsTreeTold deck.now bytes.now result }
{
    let format = format_of(bytes);
    let layout = layout_in(alloc, bytes, format, deck)?;
    let tree = tree_of(alloc, layout, deck)?;
    Ok(Found { format, tree })
}

/// Reads the layout of the name, for an accepted deck.
pub(crate) fn take_layout<D: Depot>(
    alloc: Global,
    depot: &mut D,
    layout: &str,
    deck: &Deck,
) -> Result<Found, Refusal<LayoutBad>>
    ensures answer { IsTrue D.tells → IsTreeAnswer (D.content depot.old)
        (Rose (D.counts depot.old).read_faults (D.counts depot.new).read_faults) layout.now deck.now result }
    ensures read_fault { result ≡ Err (Fault LayoutBad.ReadFault)
        → Rose (D.counts depot.old).read_faults (D.counts depot.new).read_faults
        ⊎ (IsTrue D.tells × IsNotThere (D.content depot.old) layout.now) }
    ensures of_bytes { IfOk result (λ found. (bytes : List ℕ)
        × IsLayoutFor deck.now bytes found.format found.tree.layout × IsTreeFor deck.now found.tree) }
    ensures missing { IsTrue D.tells → IsNotThere (D.content depot.old) layout.now
        → (result ≡ Err (Fault LayoutBad.ReadFault))
        ⊎ ((result ≡ Err NoMemory) × Rose (D.counts depot.old).refused (D.counts depot.new).refused) }
    ensures whole { OnOk result (IsTrue D.tells
        → D.content depot.new ≡ with_left (D.content depot.old) []) }
    ensures others { IsTrue D.tells → ChangesLeftOnly (D.content depot.old) (D.content depot.new) }
    ensures counts { LayoutCountsFor (D.counts depot.old) (D.counts depot.new) result }
    ensures counted { NeverFall (D.counts depot.old) (D.counts depot.new) }
{
    match read_all(alloc, depot, layout, LAYOUT_LIMIT) {
        Ok(bytes) => tree_in(alloc, &bytes, deck),
        Err(Refused::Fault) => Err(Refusal::Fault(LayoutBad::ReadFault)),
        Err(Refused::TooLong) => Err(Refusal::Fault(LayoutBad::Refused(LayoutFault::Long))),
        Err(Refused::NoMemory) => Err(Refusal::NoMemory),
    }
}
