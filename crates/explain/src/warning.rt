//! What a person would want to know of a run that went well.
ghost use Rattle.std.specs.Prelude.{IsTrue};
ghost use Rattle.depot.specs.Content.{ChangesLeftOnly};

use crate::deck_lines::{line_with, next_line, text_of};
use crate::hidden::{hidden_pairs, open_pairs};
use crate::names::Names;
use crate::note::Note;
use crate::pieces::{Pieces, many_pieces};
use crate::reading::{DECK_LIMIT, FILE_LIMIT, bytes_of};
use crate::walk::{Found, Walk};
use deck_text::{Deck, digits_value, read_deck};
use depot::Depot;
use geo_stream::NoMemory;
use job_words::{check_names, fracture_names};
use layout_model::Pair;
use std::alloc::Global;

/// An output with fewer shots is taken as it is.
const FEW_SHOTS: u64 = 100;

/// How many pairs of a layout are told.
const MOST_PAIRS: usize = 24;

// Puts a pair last, where it isn't there and there are few.
fn put_new(pairs: &mut Vec<Pair>, pair: Pair) -> Result<(), NoMemory> {
    if pairs.len() <= MOST_PAIRS && !pairs.as_slice().contains(&pair) {
        pairs.push(pair)?;
    }
    Ok(())
}

// The layers and datatypes that shapes of a layout's file are on, up to a limit.
fn pairs_in(alloc: Global, bytes: &[u8]) -> Result<Vec<Pair>, NoMemory> {
    let mut pairs = Vec::new(alloc);
    let mut walk = Walk::new(bytes);
    for _record in 0..bytes.len() {
        match walk.next() {
            Some(Found::Shape(pair)) => put_new(&mut pairs, pair)?,
            Some(_) => {}
            None => break,
        }
    }
    pairs.sort_unstable();
    Ok(pairs)
}

/// The layers of a deck on which the top cell shows nothing, and those that the layout has.
#[derive(Drop)]
struct Layers {
    hidden: Vec<Pair>,
    there: Vec<Pair>,
}

// The layers of a layout's file: which of these the top cell doesn't show, and those that are there if it doesn't show some.
fn layers_in(alloc: Global, bytes: &[u8], top: &[u8], open: Vec<Pair>) -> Result<Layers, NoMemory> {
    let hidden = hidden_pairs(alloc, bytes, top, open)?;
    let there = if hidden.is_empty() {
        Vec::new(alloc)
    } else {
        pairs_in(alloc, bytes)?
    };
    Ok(Layers { hidden, there })
}

// Tells the pairs that a layout has.
fn tell_pairs(note: &mut Note, pairs: &[Pair]) -> Result<(), NoMemory> {
    let mut before = "; the layout has ";
    for (number, pair) in pairs.iter().enumerate() {
        note.put(before)?;
        if number == MOST_PAIRS {
            return note.put("and more");
        }
        note.put_pair(pair.layer, pair.datatype)?;
        before = ", ";
    }
    Ok(())
}

// The pair that a `layer` line gives.
fn pair_of(line: &[u8]) -> Option<Pair> {
    let layer = digits_value(text_of(line, 2))?;
    let datatype = digits_value(text_of(line, 3))?;
    Some(Pair {
        layer: u64::try_from(layer).ok()?,
        datatype: u64::try_from(datatype).ok()?,
    })
}

// Tells of a `layer` line without shapes.
fn warn_layer(note: &mut Note, line: &[u8], layers: &Layers) -> Result<(), NoMemory> {
    let Some(pair) = pair_of(line) else {
        return Ok(());
    };
    if !layers.hidden.as_slice().contains(&pair) {
        return Ok(());
    }
    note.put("nettletide: warning: layer ")?;
    note.put_bytes(text_of(line, 1))?;
    note.put(" ")?;
    note.put_pair(pair.layer, pair.datatype)?;
    note.put(": no shapes")?;
    if layers.there.as_slice().contains(&pair) {
        return note.put(", but in cells that the top cell doesn't place\n");
    }
    tell_pairs(note, layers.there.as_slice())?;
    note.put("\n")
}

// Begins to tell of a `write` line.
fn begin_output(note: &mut Note, line: &[u8]) -> Result<(), NoMemory> {
    note.put("nettletide: warning: output ")?;
    note.put_bytes(text_of(line, 2))?;
    note.put(": ")
}

// The settings of a deck that have shots cut, as lines.
#[derive(Clone, Copy)]
struct Cutting<'a> {
    band: &'a [u8],
    limits: &'a [u8],
}

impl<'a> Cutting<'a> {
    fn of(deck: &'a [u8]) -> Cutting<'a> {
        Cutting {
            band: line_with(deck, b"band", 0),
            limits: line_with(deck, b"limits", 0),
        }
    }

    fn is_there(&self) -> bool {
        !self.band.is_empty() || !self.limits.is_empty()
    }

    // Tells the settings, and what to do.
    fn tell(&self, note: &mut Note) -> Result<(), NoMemory> {
        if !self.band.is_empty() {
            tell_setting(note, self.band)?;
        }
        if !self.band.is_empty() && !self.limits.is_empty() {
            note.put(" and ")?;
        }
        if !self.limits.is_empty() {
            tell_setting(note, self.limits)?;
        }
        note.put(" cut them; greater numbers make fewer shots\n")
    }
}

// Tells the words of a setting.
fn tell_setting(note: &mut Note, line: &[u8]) -> Result<(), NoMemory> {
    note.put("`")?;
    note.put_bytes(text_of(line, 0))?;
    for place in 1..3usize {
        let word = text_of(line, place);
        if !word.is_empty() {
            note.put(" ")?;
            note.put_bytes(word)?;
        }
    }
    note.put("`")
}

// Tells of how many trapezoids an output's shots are the pieces.
fn tell_pieces(
    note: &mut Note,
    line: &[u8],
    shots: u64,
    pieces: Pieces,
    cutting: &Cutting,
) -> Result<(), NoMemory> {
    begin_output(note, line)?;
    if pieces.shots < shots {
        note.put("the first ")?;
    }
    note.put_number(u128::from(pieces.shots))?;
    note.put(" shots of ")?;
    note.put_number(u128::from(pieces.traps))?;
    note.put(if pieces.traps == 1 {
        " trapezoid: "
    } else {
        " trapezoids: "
    })?;
    cutting.tell(note)
}

/// What is known of a run that went well.
#[derive(Clone, Copy)]
struct Made<'a> {
    // the bytes of the deck, and what they say
    text: &'a [u8],
    deck: &'a Deck,
    // how many shots each output has
    shots: &'a [u64],
    layers: &'a Layers,
    // whether the outputs were written in this run
    is_new: bool,
}

// Tells of a `write` line with no shots, or with many.
fn warn_output<D: Depot>(
    alloc: Global,
    note: &mut Note,
    line: &[u8],
    shots: u64,
    made: &Made,
    depot: &mut D,
) -> Result<(), NoMemory>
    ensures reads { IsTrue D.tells → ChangesLeftOnly (D.content depot.old) (D.content depot.new) }
{
    if shots == 0 {
        begin_output(note, line)?;
        return note.put("no shots\n");
    }
    let cutting = Cutting::of(made.text);
    if shots < FEW_SHOTS || !made.is_new || !cutting.is_there() {
        return Ok(());
    }
    let Ok(file) = str::from_utf8(text_of(line, 2)) else {
        return Ok(());
    };
    match many_pieces(alloc, depot, file, shots, made.deck.band)? {
        Some(pieces) => tell_pieces(note, line, shots, pieces, &cutting),
        None => Ok(()),
    }
}

// Tells of the output of this number.
fn warn_numbered<D: Depot>(
    alloc: Global,
    note: &mut Note,
    line: &[u8],
    output: usize,
    made: &Made,
    depot: &mut D,
) -> Result<(), NoMemory>
    ensures reads { IsTrue D.tells → ChangesLeftOnly (D.content depot.old) (D.content depot.new) }
{
    match made.shots.get(output) {
        Some(shots) => warn_output(alloc, note, line, *shots, made, depot),
        None => Ok(()),
    }
}

// Tells of a line of a deck after so many outputs, and answers how many there are with it.
fn warn_line<D: Depot>(
    alloc: Global,
    note: &mut Note,
    line: &[u8],
    output: usize,
    made: &Made,
    depot: &mut D,
) -> Result<usize, NoMemory>
    ensures reads { IsTrue D.tells → ChangesLeftOnly (D.content depot.old) (D.content depot.new) }
{
    match text_of(line, 0) {
        b"layer" => {
            warn_layer(note, line, made.layers)?;
            Ok(output)
        }
        b"write" => {
            warn_numbered(alloc, note, line, output, made, depot)?;
            Ok(output.saturating_add(1))
        }
        _ => Ok(output),
    }
}

// Tells of all lines of a deck of which a person would want to know.
fn warn_lines<D: Depot>(
    alloc: Global,
    note: &mut Note,
    made: &Made,
    depot: &mut D,
) -> Result<(), NoMemory>
    ensures reads { IsTrue D.tells → ChangesLeftOnly (D.content depot.old) (D.content depot.new) }
{
    let mut rest = made.text;
    let mut output = 0usize;
    for _line in 0..made.text.len() {
        let Some((line, more)) = next_line(rest) else {
            return Ok(());
        };
        rest = more;
        output = warn_line(alloc, note, line, output, made, depot)?;
    }
    Ok(())
}

// The layers of a deck on which the top cell shows nothing. The layout is read only where the outputs leave a layer open.
fn layers_of<D: Depot>(
    alloc: Global,
    names: Names,
    deck: &Deck,
    shots: &[u64],
    depot: &mut D,
) -> Result<Layers, NoMemory>
    ensures reads { IsTrue D.tells → ChangesLeftOnly (D.content depot.old) (D.content depot.new) }
{
    let open = open_pairs(alloc, deck, shots)?;
    if open.is_empty() {
        return Ok(Layers {
            hidden: open,
            there: Vec::new(alloc),
        });
    }
    let bytes = bytes_of(alloc, depot, names.layout, FILE_LIMIT);
    layers_in(alloc, &bytes, deck.top.bytes(), open)
}

// The deck that a file's text is.
fn deck_in(alloc: Global, text: &[u8], names: Names) -> Option<Deck> {
    if text.len() > DECK_LIMIT {
        return None;
    }
    read_deck(alloc, text, names.layout, names.deck).ok()
}

/// Tells, in the order of the deck, its layers on which the top cell shows nothing, its outputs without shots, and those that
/// were cut into many. `fracture` or `check` has said how many shots each has.
pub(crate) fn warn<D: Depot>(
    alloc: Global,
    note: &mut Note,
    words: &[String],
    names: Names,
    shots: &[u64],
    depot: &mut D,
) -> Result<(), NoMemory>
    ensures reads { IsTrue D.tells → ChangesLeftOnly (D.content depot.old) (D.content depot.new) }
{
    let is_new = fracture_names(words).is_some();
    if !is_new && check_names(words).is_none() {
        return Ok(());
    }
    let text = bytes_of(alloc, depot, names.deck, DECK_LIMIT);
    let Some(deck) = deck_in(alloc, &text, names) else {
        return Ok(());
    };
    let layers = layers_of(alloc, names, &deck, shots, depot)?;
    let made = Made {
        text: &text,
        deck: &deck,
        shots,
        layers: &layers,
        is_new,
    };
    warn_lines(alloc, note, &made, depot)
}
