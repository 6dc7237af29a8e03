//! The lines of a deck and their words.
ghost use Rattle.std.specs.Prelude.{◌≤◌, length};

use deck_text::digits_value;

// Where the byte first stands, and the length where it doesn't.
fn place_of(bytes: &[u8], wanted: u8) -> usize
    ensures { result ≤ length bytes.now }
{
    for (place, byte) in bytes.iter().enumerate() {
        if *byte == wanted {
            return place;
        }
    }
    bytes.len()
}

// The lines after the first one.
fn after_line(bytes: &[u8]) -> &[u8] {
    let end = place_of(bytes, b'\n');
    match bytes.get(end..) {
        Some([_, rest @ ..]) => rest,
        _ => &[],
    }
}

// The first line, without what ends it.
fn first_line(bytes: &[u8]) -> &[u8] {
    let end = place_of(bytes, b'\n');
    match bytes.get(..end) {
        Some([line @ .., b'\r']) => line,
        Some(line) => line,
        None => &[],
    }
}

/// The line of this number, counted from 1, without what ends it.
pub(crate) fn line_of(bytes: &[u8], number: usize) -> &[u8] {
    let mut rest = bytes;
    for _earlier in 1..number {
        rest = after_line(rest);
    }
    first_line(rest)
}

/// The first line, without what ends it, and the lines after it. None where there are no bytes.
pub(crate) fn next_line(bytes: &[u8]) -> Option<(&[u8], &[u8])> {
    if bytes.is_empty() {
        return None;
    }
    Some((first_line(bytes), after_line(bytes)))
}

/// The line that begins with this word and has so many of that kind before it.
pub(crate) fn line_with<'a>(bytes: &'a [u8], word: &[u8], before: usize) -> &'a [u8] {
    let mut rest = bytes;
    let mut seen = 0usize;
    for _line in 0..bytes.len() {
        let Some((line, more)) = next_line(rest) else {
            return &[];
        };
        if is_word(line, word) {
            if seen == before {
                return line;
            }
            seen = seen.saturating_add(1);
        }
        rest = more;
    }
    &[]
}

/// The unit of an accepted deck, and 0 where there is none.
pub(crate) fn unit_of(deck: &[u8]) -> u32 {
    match digits_value(text_of(line_with(deck, b"unit", 0), 1)) {
        Some(unit) => u32::try_from(unit).unwrap_or(0),
        None => 0,
    }
}

// Whether the byte separates words.
fn is_blank(byte: u8) -> bool {
    byte == b' ' || byte == b'\t'
}

/// A word of a line.
#[derive(Clone, Copy)]
pub(crate) struct Word<'a> {
    /// The column of its first byte, counted from 1.
    pub(crate) column: usize,
    /// Its bytes.
    pub(crate) text: &'a [u8],
}

// Where the word of this place, counted from 0, begins and ends.
fn bounds_of(line: &[u8], wanted: usize) -> Option<(usize, usize)> {
    let mut begin = None;
    let mut place = 0usize;
    for (at, byte) in line.iter().enumerate() {
        match begin {
            None => {
                if !is_blank(*byte) {
                    begin = Some(at);
                }
            }
            Some(first) => {
                if is_blank(*byte) {
                    if place == wanted {
                        return Some((first, at));
                    }
                    place = place.saturating_add(1);
                    begin = None;
                }
            }
        }
    }
    match begin {
        Some(first) if place == wanted => Some((first, line.len())),
        _ => None,
    }
}

/// The word of this place in a line, counted from 0.
pub(crate) fn word_of(line: &[u8], place: usize) -> Option<Word<'_>> {
    let (begin, end) = bounds_of(line, place)?;
    let text = line.get(begin..end)?;
    Some(Word {
        column: begin.saturating_add(1),
        text,
    })
}

/// The bytes of the word of this place in a line, none where it isn't there.
pub(crate) fn text_of(line: &[u8], place: usize) -> &[u8] {
    match word_of(line, place) {
        Some(word) => word.text,
        None => &[],
    }
}

/// Whether the line begins with this word.
pub(crate) fn is_word(line: &[u8], word: &[u8]) -> bool {
    text_of(line, 0) == word
}

/// The column of the word of this place in a line, and 1 where it isn't there.
pub(crate) fn column_of(line: &[u8], place: usize) -> usize {
    match word_of(line, place) {
        Some(word) => word.column,
        None => 1,
    }
}

/// How many words of a line begin before this column.
pub(crate) fn words_before(line: &[u8], column: usize) -> usize {
    let mut words = 0usize;
    let mut was_blank = true;
    for (at, byte) in line.iter().enumerate() {
        if column <= at.saturating_add(1) {
            return words;
        }
        let blank = is_blank(*byte);
        if was_blank && !blank {
            words = words.saturating_add(1);
        }
        was_blank = blank;
    }
    words
}

/// The place of the word with these bytes among the first ones of a line, from this place on.
pub(crate) fn place_of_word(line: &[u8], from: usize, wanted: &[u8]) -> Option<usize> {
    (from..6).find(|place| text_of(line, *place) == wanted)
}
