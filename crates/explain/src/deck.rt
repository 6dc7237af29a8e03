//! Where a deck is refused: its line, with a mark under what doesn't fit, and what would.
ghost use Rattle.std.specs.Prelude.{◌≡◌, ◌++◌, OnOk, codes};
ghost use Rattle.explain.specs.Shown.{blanks};

use crate::deck_forms::{COMMANDS, form_of, is_definition, is_setting, kind_of, range_of};
use crate::deck_lines::{
    column_of, is_word, line_of, place_of_word, text_of, word_of, words_before,
};
use crate::note::Note;
use deck_text::{DeckBad, digits_value};
use geo_stream::NoMemory;

/// How many bytes of a line are shown.
const SHOWN: usize = 96;

/// How many bytes of a long line are shown before the mark.
const BEFORE: usize = 48;

/// The bytes of a deck, and the names that the command gives.
#[derive(Clone, Copy)]
pub(crate) struct Source<'a> {
    /// The bytes of the deck.
    pub(crate) bytes: &'a [u8],
    /// LAYOUT.
    pub(crate) layout: &'a str,
    /// DECK.
    pub(crate) deck: &'a str,
}

// How many bytes of a line aren't shown before those that are, where the mark is at this column.
fn hidden_before(column: usize) -> usize {
    if column < SHOWN {
        return 0;
    }
    column.saturating_sub(BEFORE)
}

// The first bytes, as many as are shown.
fn first_bytes(bytes: &[u8]) -> &[u8] {
    match bytes.get(..SHOWN) {
        Some(first) => first,
        None => bytes,
    }
}

// The bytes of a line that are shown after those that aren't.
fn shown_after(line: &[u8], hidden: usize) -> &[u8] {
    match line.get(hidden..) {
        Some(rest) => first_bytes(rest),
        None => &[],
    }
}

// Tells a mark after so many blanks.
fn tell_mark(note: &mut Note, before: usize) -> Result<(), NoMemory>
    ensures ok { OnOk result (note.new ≡ (note.old ++ blanks before) ++ codes "^") }
{
    note.put_blanks(before)?;
    note.put("^")
}

// Tells a line, and below it the mark at a column, counted from 1.
fn tell_line(note: &mut Note, line: &[u8], column: usize) -> Result<(), NoMemory> {
    let hidden = hidden_before(column);
    note.put("    ")?;
    note.put_bytes(shown_after(line, hidden))?;
    note.put("\n    ")?;
    tell_mark(note, column.saturating_sub(hidden).saturating_sub(1))
}

// Tells what could stand at a column of a line.
fn tell_fit(note: &mut Note, line: &[u8], column: usize) -> Result<(), NoMemory> {
    let place = words_before(line, column);
    let command = text_of(line, 0);
    let Some(form) = form_of(command) else {
        note.put(" unknown command '")?;
        note.put_bytes(command)?;
        note.put("': ")?;
        return note.put(COMMANDS);
    };
    note.put(" ")?;
    note.put(kind_of(text_of(form.as_bytes(), place)))?;
    note.put(": ")?;
    note.put(form)
}

// Tells what is out of order at a line.
fn tell_order(note: &mut Note, source: &Source, number: usize) -> Result<(), NoMemory> {
    let command = text_of(line_of(source.bytes, number), 0);
    if command.is_empty() {
        return note.put(" the deck ends here, and has no `write`");
    }
    if is_setting(command) {
        return note.put(" a setting after a definition or a `write`");
    }
    note.put(" `unit` and `top` come first")
}

// Tells the line that an earlier one is.
fn tell_earlier(note: &mut Note, source: &Source, earlier: usize) -> Result<(), NoMemory> {
    note.put(" line ")?;
    note.put_number(earlier as u128)?;
    note.put(" is: ")?;
    note.put_bytes(first_bytes(line_of(source.bytes, earlier)))
}

// Tells the names that are defined above a line, in their order.
fn tell_names(note: &mut Note, source: &Source, number: usize) -> Result<(), NoMemory> {
    note.put(" defined above:")?;
    let mut before = " ";
    for earlier in 1..number {
        let line = line_of(source.bytes, earlier);
        if is_definition(text_of(line, 0)) {
            note.put(before)?;
            note.put_bytes(text_of(line, 1))?;
            before = ", ";
        }
    }
    if before == " " {
        note.put(" no area")?;
    }
    Ok(())
}

// Whether a word is this number.
fn is_number(word: &[u8], value: i64) -> bool {
    match word {
        [b'-', digits @ ..] => digits_value(digits).map(|n| -n) == Some(value),
        digits => digits_value(digits) == Some(value),
    }
}

// The place of the first word of a line that is this number.
fn place_of_number(line: &[u8], value: i64) -> usize {
    for place in 1..6usize {
        if is_number(text_of(line, place), value) {
            return place;
        }
    }
    0
}

// Tells who has a file's name.
fn tell_holder(note: &mut Note, source: &Source, number: usize) -> Result<(), NoMemory> {
    let file = text_of(line_of(source.bytes, number), 2);
    if file == source.layout.as_bytes() {
        return note.put(" it is LAYOUT");
    }
    if file == source.deck.as_bytes() {
        return note.put(" it is DECK");
    }
    for earlier in 1..number {
        let line = line_of(source.bytes, earlier);
        if is_word(line, b"write") && text_of(line, 2) == file {
            return tell_earlier(note, source, earlier);
        }
    }
    Ok(())
}

/// The line of a deck that its first fault is on, counted from 1.
pub(crate) fn line_number(bad: &DeckBad) -> usize {
    match bad {
        DeckBad::Line(line, _)
        | DeckBad::Order(line)
        | DeckBad::Twice(line, _)
        | DeckBad::Unknown(line, _)
        | DeckBad::NoFrame(line)
        | DeckBad::Range(line, _)
        | DeckBad::Odd(line)
        | DeckBad::Names(line)
        | DeckBad::Many(line) => *line,
    }
}

// The column of what a line is refused for.
fn column_in(line: &[u8], bad: &DeckBad) -> usize {
    match bad {
        DeckBad::Line(_, column) => *column,
        DeckBad::Twice(_, _) if is_definition(text_of(line, 0)) => column_of(line, 1),
        DeckBad::Unknown(_, name) => {
            let from = if is_definition(text_of(line, 0)) {
                2
            } else {
                1
            };
            match place_of_word(line, from, name.as_str().as_bytes()) {
                Some(place) => column_of(line, place),
                None => 1,
            }
        }
        DeckBad::Range(_, value) => column_of(line, place_of_number(line, *value)),
        DeckBad::Odd(_) => column_of(line, 3),
        DeckBad::Names(_) => column_of(line, 2),
        _ => column_of(line, 0),
    }
}

/// Tells the line that a deck is refused for.
pub(crate) fn tell_deck(note: &mut Note, source: &Source, bad: &DeckBad) -> Result<(), NoMemory> {
    let number = line_number(bad);
    let line = line_of(source.bytes, number);
    tell_line(note, line, column_in(line, bad))?;
    match bad {
        DeckBad::Line(_, column) => tell_fit(note, line, *column)?,
        DeckBad::Order(_) => tell_order(note, source, number)?,
        DeckBad::Twice(_, earlier) => tell_earlier(note, source, *earlier)?,
        DeckBad::Unknown(_, _) => tell_names(note, source, number)?,
        DeckBad::Range(_, value) => {
            note.put(" ")?;
            note.put(range_of(text_of(line, 0), place_of_number(line, *value)))?;
        }
        DeckBad::Names(_) => tell_holder(note, source, number)?,
        DeckBad::NoFrame(_) | DeckBad::Odd(_) | DeckBad::Many(_) => {}
    }
    note.put("\n")
}
