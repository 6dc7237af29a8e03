//! Decks: the text that says what is made of a layout, read into settings, steps and outputs, or refused at its first
//! fault.
#![tactic(auto)]

mod command;
mod deck;
mod forms;
mod index;
mod kinds;
mod laws;
mod lines;
mod numbers;
mod reading;
mod refusal;
mod rules;
mod said;
mod settings;
mod statement;
mod text;
mod tokens;
mod writing;

pub use deck::{Deck, Output, Step};
pub use laws::deck_law;
pub use numbers::{all_digits, digits_value};
pub use reading::read_deck;
pub use refusal::DeckBad;
pub use text::Text;
