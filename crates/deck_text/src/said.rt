//! The statements of a deck with their lines.
ghost use Rattle.std.specs.Prelude.{◌≡◌, None};
ghost use Rattle.deck_text.specs.Views.{statement_view};
ghost use Rattle.deck_text.specs.Rules.{out_of_range};

use crate::statement::Statement;

/// A statement whose numbers are in range, and its line, counted from 1.
#[derive(Clone, Copy, Debug)]
pub(crate) struct Said<'a> {
    pub line: usize,
    pub says: Statement<'a>,
    ghost in_range: { out_of_range (statement_view says) ≡ None },
}
