//! The names of a command.
use job_words::{check_names, density_words, fracture_names};

/// The names that the command gives.
#[derive(Clone, Copy)]
pub(crate) struct Names<'a> {
    /// LAYOUT.
    pub(crate) layout: &'a str,
    /// DECK.
    pub(crate) deck: &'a str,
}

/// The names of layout and deck, for the commands that read them.
pub(crate) fn names_of(words: &[String]) -> Option<Names<'_>> {
    if let Some((layout, deck)) = fracture_names(words) {
        return Some(Names { layout, deck });
    }
    if let Some((layout, deck)) = check_names(words) {
        return Some(Names { layout, deck });
    }
    let (_size, layout, deck) = density_words(words)?;
    Some(Names { layout, deck })
}
