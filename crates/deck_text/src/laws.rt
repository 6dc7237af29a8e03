//! What holds of all decks.
ghost use Rattle.deck_text.specs.Laws.{OneDeck, OneFault, NeverBoth, NeverNeither};
ghost use Rattle.deck_text.specs.Sound.{AreSound};

/// Bytes have one deck at most, one first fault at most, never both and never neither, and every deck is sound.
pub fn deck_law()
    ensures one_deck { OneDeck }
    ensures one_fault { OneFault }
    ensures never_both { NeverBoth }
    ensures never_neither { NeverNeither }
    ensures sound { AreSound }
{}
