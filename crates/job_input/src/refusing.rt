//! Why deck or layout are refused.
use cell_tree::TreeBad;
use deck_text::DeckBad;
use gds_reader::GdsBad;
use layout_model::Name;
use oas_reader::OasBad;

/// Why a deck is refused.
#[derive(Debug, Drop)]
pub enum DeckFault {
    /// It has more than 65,536 bytes.
    Long,
    /// It is no deck. This is its first fault.
    Bad(DeckBad),
}

/// Why a layout is refused.
#[derive(Debug, Drop)]
pub enum LayoutFault {
    /// It has more than 268,435,456 bytes.
    Long,
    /// It doesn't begin with the byte 25 hex and is no GDSII layout. This is its first fault.
    Gds(GdsBad),
    /// It begins with that byte and is no OASIS layout. This is its first fault.
    Oas(OasBad),
    /// It is a layout, and its cells are no tree within the limits below the top cell.
    Tree(TreeBad),
}

/// Why there is no input.
#[derive(Debug, Drop)]
pub enum InputBad {
    /// The deck was read and is refused.
    Deck(DeckFault),
    /// The deck is accepted, and the layout was read and is refused. The name is that of the deck's top cell.
    Layout(LayoutFault, Name),
    /// A read failed, or a file that has to be read isn't there.
    ReadFault,
}

/// Why there is no tree for an accepted deck.
#[derive(Drop)]
pub(crate) enum LayoutBad {
    /// The layout was read and is refused.
    Refused(LayoutFault),
    /// A read failed, or the layout isn't there.
    ReadFault,
}
