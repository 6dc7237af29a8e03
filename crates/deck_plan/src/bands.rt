//! The bands of a deck, one after another.
ghost use Rattle.std.specs.Prelude.{◌≡◌, pos, neg_ℤ, ◌+ℤ◌, ◌≤ℤ◌, ◌<ℤ◌};
ghost use Rattle.std.specs.Int.{int_rem_euclid};
ghost use Rattle.half_grid.specs.Windows.{row_range};
ghost use Rattle.deck_plan.specs.Bands.{AreRowsNear, IsBandOfDeck};

use deck_text::Deck;
use half_grid::Window;

// How many rows of a band lie below the first row of the window.
fn rows_below(deck: &Deck, rows: Window) -> i64
    requires some { pos 0 <ℤ deck.now.band }
    requires few { deck.now.band ≤ℤ pos 16777216 }
    ensures value { result ≡ int_rem_euclid rows.y0 deck.now.band }
    ensures low { pos 0 ≤ℤ result }
    ensures high { result ≤ℤ pos 16777216 }
{
    rows.y0().rem_euclid(deck.band)
}

/// The band that has the first row of the window. It takes no memory.
pub fn first_band(deck: &Deck, rows: Window) -> Window
    requires some { pos 0 <ℤ deck.now.band }
    requires few { deck.now.band ≤ℤ pos 16777216 }
    requires near { AreRowsNear rows }
    ensures band { IsBandOfDeck deck.now result }
    ensures below { result.y0 ≤ℤ rows.y0 }
    ensures low { neg_ℤ (pos 4294967296) ≤ℤ result.y0 }
    ensures height { result.y1 ≡ result.y0 +ℤ deck.now.band }
{
    let bottom = rows.y0() - rows_below(deck, rows);
    match Window::new(bottom, bottom + deck.band) {
        Some(band) => band,
        None => unreachable!(),
    }
}

/// The band above a band. It takes no memory.
pub fn next_band(deck: &Deck, band: Window) -> Window
    requires some { pos 0 <ℤ deck.now.band }
    requires few { deck.now.band ≤ℤ pos 16777216 }
    requires low { band.y0 ≤ℤ pos 4294967296 }
    requires height { band.y1 ≡ band.y0 +ℤ deck.now.band }
    ensures { result ≡ row_range band.y1 (band.y1 +ℤ deck.now.band) }
{
    match Window::new(band.y1(), band.y1() + deck.band) {
        Some(next) => next,
        None => unreachable!(),
    }
}
