//! The settings among statements.
ghost use Rattle.std.specs.Prelude.{pos, ◌≤ℤ◌, IfSome};
ghost use Rattle.deck_text.specs.Decks.{setting_in, unit_of, top_of, band_of, limits_of, frame_of};
ghost use Rattle.deck_text.specs.SaidViews.{said_views};
ghost use Rattle.deck_text.specs.Views.{Gives, statement_view};

use crate::said::Said;
use crate::statement::{CellWord, Setting, Statement};
use half_grid::{Frame, Limits};

/// Rows per band, where the deck doesn't say.
pub(crate) const BAND: i64 = 1_048_576;

/// The limits of a shot, where the deck doesn't say.
pub(crate) const LIMITS: Limits = Limits {
    height: 1_048_576,
    width: 2_097_152,
};

// The unit that a statement gives.
fn unit_of(said: &Said) -> Option<i64>
    ensures value { Gives (λ n. n) result (unit_of (statement_view said.now.says)) }
    ensures range { IfSome result (λ n. (pos 1 ≤ℤ n) × (n ≤ℤ pos 1000000)) }
{
    match &said.says {
        Statement::Set(Setting::Unit(steps)) => Some(*steps),
        Statement::Set(Setting::Top(_)) => None,
        Statement::Set(Setting::Band(_)) => None,
        Statement::Set(Setting::Limits(_)) => None,
        Statement::Set(Setting::Frame(_)) => None,
        Statement::Define(_, _) => None,
        Statement::Write(_) => None,
    }
}

/// The unit that the deck gives.
pub(crate) fn unit_in(saids: &[Said]) -> Option<i64>
    ensures value { Gives (λ n. n) result (setting_in unit_of (said_views saids.now)) }
    ensures range { IfSome result (λ n. (pos 1 ≤ℤ n) × (n ≤ℤ pos 1000000)) }
{
    for said in saids {
        if let Some(found) = unit_of(said) {
            return Some(found);
        }
    }
    None
}

// The top cell that a statement gives.
fn top_of<'a>(said: &Said<'a>) -> Option<CellWord<'a>>
    ensures { Gives (λ cell. cell.bytes.now) result (top_of (statement_view said.now.says)) }
{
    match &said.says {
        Statement::Set(Setting::Unit(_)) => None,
        Statement::Set(Setting::Top(cell)) => Some(*cell),
        Statement::Set(Setting::Band(_)) => None,
        Statement::Set(Setting::Limits(_)) => None,
        Statement::Set(Setting::Frame(_)) => None,
        Statement::Define(_, _) => None,
        Statement::Write(_) => None,
    }
}

/// The top cell that the deck gives.
pub(crate) fn top_in<'a>(saids: &[Said<'a>]) -> Option<CellWord<'a>>
    ensures { Gives (λ cell. cell.bytes.now) result (setting_in top_of (said_views saids.now)) }
{
    for said in saids {
        if let Some(found) = top_of(said) {
            return Some(found);
        }
    }
    None
}

// The rows per band that a statement gives.
fn band_of(said: &Said) -> Option<i64>
    ensures { Gives (λ rows. rows) result (band_of (statement_view said.now.says)) }
{
    match &said.says {
        Statement::Set(Setting::Unit(_)) => None,
        Statement::Set(Setting::Top(_)) => None,
        Statement::Set(Setting::Band(rows)) => Some(*rows),
        Statement::Set(Setting::Limits(_)) => None,
        Statement::Set(Setting::Frame(_)) => None,
        Statement::Define(_, _) => None,
        Statement::Write(_) => None,
    }
}

/// The rows per band that the deck gives.
pub(crate) fn band_in(saids: &[Said]) -> Option<i64>
    ensures { Gives (λ rows. rows) result (setting_in band_of (said_views saids.now)) }
{
    for said in saids {
        if let Some(found) = band_of(said) {
            return Some(found);
        }
    }
    None
}

// The limits that a statement gives.
fn limits_of(said: &Said) -> Option<Limits>
    ensures { Gives (λ x. x) result (limits_of (statement_view said.now.says)) }
{
    match &said.says {
        Statement::Set(Setting::Unit(_)) => None,
        Statement::Set(Setting::Top(_)) => None,
        Statement::Set(Setting::Band(_)) => None,
        Statement::Set(Setting::Limits(limits)) => Some(*limits),
        Statement::Set(Setting::Frame(_)) => None,
        Statement::Define(_, _) => None,
        Statement::Write(_) => None,
    }
}

/// The limits that the deck gives.
pub(crate) fn limits_in(saids: &[Said]) -> Option<Limits>
    ensures { Gives (λ x. x) result (setting_in limits_of (said_views saids.now)) }
{
    for said in saids {
        if let Some(found) = limits_of(said) {
            return Some(found);
        }
    }
    None
}

// The frame that a statement gives.
fn frame_of(said: &Said) -> Option<Frame>
    ensures { Gives (λ x. x) result (frame_of (statement_view said.now.says)) }
{
    match &said.says {
        Statement::Set(Setting::Unit(_)) => None,
        Statement::Set(Setting::Top(_)) => None,
        Statement::Set(Setting::Band(_)) => None,
        Statement::Set(Setting::Limits(_)) => None,
        Statement::Set(Setting::Frame(frame)) => Some(*frame),
        Statement::Define(_, _) => None,
        Statement::Write(_) => None,
    }
}

/// The frame that the deck gives.
pub(crate) fn frame_in(saids: &[Said]) -> Option<Frame>
    ensures { Gives (λ x. x) result (setting_in frame_of (said_views saids.now)) }
{
    for said in saids {
        if let Some(found) = frame_of(said) {
            return Some(found);
        }
    }
    None
}
