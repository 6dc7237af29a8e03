//! What the tokens of a line may be.
ghost use Rattle.std.specs.Prelude.{◌≡◌, ◌≤◌, length, IfOk, IfSome, IfNone};
ghost use Rattle.std.specs.List.{list_all};
ghost use Rattle.std.specs.Char.{is_ascii_graphic};
ghost use Rattle.deck_text.specs.Tokens.{pieces_at};
ghost use Rattle.deck_text.specs.Kinds.{is_letter, is_word, is_name, is_token, name_value, file_value, cell_value};
ghost use Rattle.deck_text.specs.Kinds.{number_value, taken_as, second_side, ended, Name, File, Cell, Number, Sides};
ghost use Rattle.deck_text.specs.Kinds.{taken};
ghost use Rattle.deck_text.specs.Forms.{past};
ghost use Rattle.deck_text.specs.Views.{Reads, Gives};

use crate::numbers::number_value;
use crate::statement::CellWord;
use crate::tokens::next_piece;

// Whether the byte is a letter or `_`.
fn is_letter(byte: u8) -> bool
    ensures { result ≡ is_letter byte }
{
    byte.is_ascii_alphabetic() || byte == b'_'
}

// Whether the byte is a letter, a digit or `_`.
fn is_word(byte: u8) -> bool
    ensures { result ≡ is_word byte }
{
    is_letter(byte) || byte.is_ascii_digit()
}

// Whether each byte is a letter, a digit or `_`.
fn are_word(bytes: &[u8]) -> bool
    ensures { result ≡ list_all is_word bytes.now }
{
    for byte in bytes {
        if !is_word(*byte) {
            return false;
        }
    }
    true
}

// Whether the token is a letter or `_`, then letters, digits or `_`, of at most 32 bytes.
#[tactic(auto, unfolding(crate::specs::Kinds::is_name))]
fn is_name(token: &[u8]) -> bool
    ensures { result ≡ is_name token.now }
{
    match token {
        [] => false,
        [first, rest @ ..] => {
            if !is_letter(*first) {
                return false;
            }
            if 31 < rest.len() {
                return false;
            }
            are_word(rest)
        }
    }
}

// Whether each byte is one of a token.
fn are_visible(bytes: &[u8]) -> bool
    ensures { result ≡ list_all is_ascii_graphic bytes.now }
{
    for byte in bytes {
        if !byte.is_ascii_graphic() {
            return false;
        }
    }
    true
}

// Whether this is a token of at least one and at most so many bytes.
#[tactic(auto, unfolding(crate::specs::Kinds::is_token))]
fn is_token(bytes: &[u8], most: usize) -> bool
    ensures { result ≡ is_token most bytes.now }
{
    if bytes.is_empty() {
        return false;
    }
    if most < bytes.len() {
        return false;
    }
    are_visible(bytes)
}

// The NAME that a token is.
fn name_value(token: &[u8]) -> Option<&str>
    ensures { Gives (λ name. name.now) result (name_value token.now) }
{
    if !is_name(token) {
        return None;
    }
    match std::str::from_utf8(token) {
        Ok(name) => Some(name),
        Err(_) => None,
    }
}

// The FILE that a token is.
fn file_value(token: &[u8]) -> Option<&str>
    ensures { Gives (λ file. file.now) result (file_value token.now) }
{
    if !is_token(token, 255) {
        return None;
    }
    match std::str::from_utf8(token) {
        Ok(file) => Some(file),
        Err(_) => None,
    }
}

// The CELL that a token is.
fn cell_value(token: &[u8]) -> Option<CellWord<'_>>
    ensures { Gives (λ cell. cell.bytes.now) result (cell_value token.now) }
{
    if !is_token(token, 1024) {
        return None;
    }
    Some(CellWord { bytes: token })
}

/// The NAME from `at` on and the offset after it, or the column of what doesn't fit.
#[tactic(auto, unfolding(crate::specs::Kinds::taken_as))]
pub(crate) fn name(line: &[u8], at: usize) -> Result<(&str, usize), usize>
    requires { at ≤ length line.now }
    ensures read { Reads (λ x. (x.0.now, pieces_at line.now x.1)) result (taken Name (past line.now) (pieces_at line.now at)) }
    ensures within { IfOk result (λ x. x.1 ≤ length line.now) }
{
    let Some(span) = next_piece(line, at) else {
        return Err(line.len() + 1);
    };
    match name_value(&line[span.start..span.end]) {
        Some(name) => Ok((name, span.end)),
        None => Err(span.start + 1),
    }
}

/// The FILE from `at` on and the offset after it, or the column of what doesn't fit.
#[tactic(auto, unfolding(crate::specs::Kinds::taken_as))]
pub(crate) fn file(line: &[u8], at: usize) -> Result<(&str, usize), usize>
    requires { at ≤ length line.now }
    ensures read { Reads (λ x. (x.0.now, pieces_at line.now x.1)) result (taken File (past line.now) (pieces_at line.now at)) }
    ensures within { IfOk result (λ x. x.1 ≤ length line.now) }
{
    let Some(span) = next_piece(line, at) else {
        return Err(line.len() + 1);
    };
    match file_value(&line[span.start..span.end]) {
        Some(file) => Ok((file, span.end)),
        None => Err(span.start + 1),
    }
}

/// The CELL from `at` on and the offset after it, or the column of what doesn't fit.
#[tactic(auto, unfolding(crate::specs::Kinds::taken_as))]
pub(crate) fn cell(line: &[u8], at: usize) -> Result<(CellWord<'_>, usize), usize>
    requires { at ≤ length line.now }
    ensures read { Reads (λ x. (x.0.bytes.now, pieces_at line.now x.1)) result (taken Cell (past line.now) (pieces_at line.now at)) }
    ensures within { IfOk result (λ x. x.1 ≤ length line.now) }
{
    let Some(span) = next_piece(line, at) else {
        return Err(line.len() + 1);
    };
    match cell_value(&line[span.start..span.end]) {
        Some(cell) => Ok((cell, span.end)),
        None => Err(span.start + 1),
    }
}

/// The number from `at` on and the offset after it, or the column of what doesn't fit.
#[tactic(auto, unfolding(crate::specs::Kinds::taken_as))]
pub(crate) fn number(line: &[u8], at: usize) -> Result<(i64, usize), usize>
    requires { at ≤ length line.now }
    ensures read { Reads (λ x. (x.0, pieces_at line.now x.1)) result (taken Number (past line.now) (pieces_at line.now at)) }
    ensures within { IfOk result (λ x. x.1 ≤ length line.now) }
{
    let Some(span) = next_piece(line, at) else {
        return Err(line.len() + 1);
    };
    match number_value(&line[span.start..span.end]) {
        Some(value) => Ok((value, span.end)),
        None => Err(span.start + 1),
    }
}

// The second of two half sides from `at` on, which is the first where the line ends there.
#[tactic(auto, unfolding(crate::specs::Kinds::second_side))]
fn second_side(line: &[u8], at: usize, first: i64) -> Result<((i64, i64), usize), usize>
    requires { at ≤ length line.now }
    ensures read { Reads (λ x. (x.0, pieces_at line.now x.1)) result (second_side first (past line.now) (pieces_at line.now at)) }
    ensures within { IfOk result (λ x. x.1 ≤ length line.now) }
{
    if next_piece(line, at).is_none() {
        return Ok(((first, first), at));
    }
    let (second, at) = number(line, at)?;
    Ok(((first, second), at))
}

/// The half sides from `at` on, by one number or two, and the offset after them, or the column of what doesn't fit.
pub(crate) fn sides(line: &[u8], at: usize) -> Result<((i64, i64), usize), usize>
    requires { at ≤ length line.now }
    ensures read { Reads (λ x. (x.0, pieces_at line.now x.1)) result (taken Sides (past line.now) (pieces_at line.now at)) }
    ensures within { IfOk result (λ x. x.1 ≤ length line.now) }
{
    let (first, at) = number(line, at)?;
    second_side(line, at, first)
}

/// Refuses a piece that comes after the last, by its column.
#[tactic(auto, unfolding(crate::specs::Kinds::ended))]
pub(crate) fn end(line: &[u8], at: usize) -> Result<(), usize>
    requires { at ≤ length line.now }
    ensures { Reads (λ x. tt) result (ended (past line.now) (pieces_at line.now at)) }
{
    match next_piece(line, at) {
        None => Ok(()),
        Some(span) => Err(span.start + 1),
    }
}
