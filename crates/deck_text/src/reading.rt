//! Decks read from their bytes.
ghost use Rattle.std.specs.Prelude.{◌≡◌, ◌⊎◌, ◌≤◌, true, None, Some, length, IfOk, OnOk};
ghost use Rattle.geo_stream.specs.Refusals.{IsForFault, IfFault};
ghost use Rattle.geo_stream.specs.declared.refusal.Refusal.TheVariants.{Fault, NoMemory};
ghost use Rattle.deck_text.specs.Lines.{lines_of};
ghost use Rattle.deck_text.specs.Rules.{broken_rule};
ghost use Rattle.deck_text.specs.Decks.{AreAccepted, has_output, said, saids_from, IsFirstDeckFault, IsDeck};
ghost use Rattle.deck_text.specs.Begun.{IsBegun};
ghost use Rattle.deck_text.specs.Indexes.{IsIndexOf, HasRoom, HasNewName};
ghost use Rattle.deck_text.specs.Views.{statement_view};
ghost use Rattle.deck_text.specs.SaidViews.{said_view, said_views};
ghost use Rattle.deck_text.specs.declared.deck.Deck.{Deck};
ghost use Rattle.deck_text.specs.declared.refusal.DeckBad.{DeckBad};

use crate::deck::Deck;
use crate::forms::reading;
use crate::index::Index;
use crate::lines::line_at;
use crate::refusal::DeckBad;
use crate::rules::{
    has_odd_sum, has_output, is_misplaced, is_too_many, lacks_frame, out_of_range, repeated_line,
    takes_name, unknown_operand,
};
use crate::said::Said;
use crate::statement::Statement;
use crate::text::Text;
use crate::writing::deck_of;
use geo_stream::Refusal;
use std::alloc::Global;

/// The names that the command gives.
#[derive(Clone, Copy)]
struct Names<'a> {
    layout: &'a str,
    deck: &'a str,
}

// The refusal of a line for an operand that isn't defined.
fn unknown(alloc: Global, line: usize, name: &str) -> Refusal<DeckBad>
    ensures { IsForFault (λ bad. bad ≡ DeckBad.Unknown line name.now) result }
{
    match Text::new(alloc, name) {
        Ok(name) => Refusal::Fault(DeckBad::Unknown(line, name)),
        Err(_refused) => Refusal::NoMemory,
    }
}

// The statement of a line, where it breaks no rule after those before it.
fn accepted<'a>(
    alloc: Global,
    names: Names,
    before: &[Said<'a>],
    index: &Index<'a>,
    line: usize,
    says: Statement<'a>,
) -> Result<Said<'a>, Refusal<DeckBad>>
    requires { IsIndexOf (said_views before.now) index.now }
    ensures room { OnOk result (HasRoom index.now (statement_view says.entry)) }
    ensures new { OnOk result (HasNewName index.now (statement_view says.entry)) }
    ensures said { IfOk result (λ own. said_view own ≡ said line (statement_view says.entry)) }
    ensures ok { IfOk result (λ own. broken_rule names.entry.layout.now names.entry.deck.now (said_views before.now) line (statement_view says.entry) ≡ None) }
    ensures refused { IfFault result (λ bad. broken_rule names.entry.layout.now names.entry.deck.now (said_views before.now) line (statement_view says.entry)
        ≡ Some bad) }
{
    if is_misplaced(before, &says) {
        return Err(Refusal::Fault(DeckBad::Order(line)));
    }
    match repeated_line(before, index, &says) {
        Some(earlier) => return Err(Refusal::Fault(DeckBad::Twice(line, earlier))),
        None => {}
    }
    match unknown_operand(index, &says) {
        Some(name) => return Err(unknown(alloc, line, name)),
        None => {}
    }
    if lacks_frame(before, &says) {
        return Err(Refusal::Fault(DeckBad::NoFrame(line)));
    }
    match out_of_range(&says) {
        Some(value) => return Err(Refusal::Fault(DeckBad::Range(line, value))),
        None => {}
    }
    if has_odd_sum(&says) {
        return Err(Refusal::Fault(DeckBad::Odd(line)));
    }
    if takes_name(names.layout, names.deck, index, &says) {
        return Err(Refusal::Fault(DeckBad::Names(line)));
    }
    if is_too_many(index, &says) {
        return Err(Refusal::Fault(DeckBad::Many(line)));
    }
    Ok(Said { line, says })
}

/// The statements of some lines with their index.
#[derive(Drop)]
struct Lines<'a> {
    saids: Vec<Said<'a>>,
    index: Index<'a>,
}

// The statements of all lines, or the first fault.
fn statements<'a>(
    alloc: Global,
    bytes: &'a [u8],
    names: Names,
) -> Result<Lines<'a>, Refusal<DeckBad>>
    requires { length bytes.now ≤ 65536 }
    ensures saids { IfOk result (λ lines. said_views lines.saids.items ≡ saids_from 1 (lines_of bytes.now)) }
    ensures index { IfOk result (λ lines. IsIndexOf (said_views lines.saids.items) lines.index) }
    ensures accepted { OnOk result (AreAccepted names.entry.layout.now names.entry.deck.now (lines_of bytes.now) (length (lines_of bytes.now))) }
    ensures some { OnOk result (has_output (saids_from 1 (lines_of bytes.now)) ≡ true) }
    ensures begun { OnOk result (IsBegun (saids_from 1 (lines_of bytes.now))) }
    ensures refused { IfFault result (IsFirstDeckFault bytes.now names.entry.layout.now names.entry.deck.now) }
{
    let mut saids = Vec::new(alloc);
    let mut index = Index::new(alloc);
    let mut lines = 0;
    let mut at = 0;
    while at < bytes.len() {
        let (line, next) = line_at(bytes, at);
        lines += 1;
        at = next;
        match reading(line) {
            Err(column) => return Err(Refusal::Fault(DeckBad::Line(lines, column))),
            Ok(None) => {}
            Ok(Some(says)) => {
                let said = accepted(alloc, names, saids.as_slice(), &index, lines, says)?;
                index.put(said)?;
                match saids.push(said) {
                    Ok(()) => {}
                    Err(_refused) => return Err(Refusal::NoMemory),
                }
            }
        }
    }
    if !has_output(saids.as_slice()) {
        return Err(Refusal::Fault(DeckBad::Order(lines + 1)));
    }
    Ok(Lines { saids, index })
}

/// The deck that the bytes are, where the command gives these names of layout and deck. Bytes that are no deck are
/// refused by their first fault. NoMemory may come in place of any answer where memory runs out.
pub fn read_deck(
    alloc: Global,
    bytes: &[u8],
    layout: &str,
    deck: &str,
) -> Result<Deck, Refusal<DeckBad>>
    requires { length bytes.now ≤ 65536 }
    ensures found { IfOk result (IsDeck bytes.now layout.now deck.now) }
    ensures read { (d : Deck) → IsDeck bytes.now layout.now deck.now d → (result ≡ Ok d) ⊎ (result ≡ Err NoMemory) }
    ensures first_fault { IfFault result (IsFirstDeckFault bytes.now layout.now deck.now) }
    ensures every_fault { (bad : DeckBad) → IsFirstDeckFault bytes.now layout.now deck.now bad → (result ≡ Err (Fault bad)) ⊎ (result ≡ Err NoMemory) }
{
    let lines = statements(alloc, bytes, Names { layout, deck })?;
    let deck = deck_of(alloc, lines.saids.as_slice(), &lines.index)?;
    Ok(deck)
}
