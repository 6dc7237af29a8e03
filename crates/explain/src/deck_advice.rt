//! What a refusal of a deck means, and what to do about it.
use crate::advice::Advice;
use deck_text::DeckBad;
use job_input::DeckFault;

/// `deck refused: longer than 65536 bytes`
pub(crate) const LONG_DECK: Advice = Advice {
    means: "the deck has more than 65,536 bytes",
    advice: "take remarks out of it, or split it",
};

/// `deck refused: line N column C`
pub(crate) const LINE: Advice = Advice {
    means: "a line has a word that can't stand there, or ends too early",
    advice: "compare it with the tables of DECK.md; a number has at most 18 digits, a name begins with none",
};

/// `deck refused: line N out of order`
pub(crate) const ORDER: Advice = Advice {
    means: "a line is out of order, or the deck ends without a `write`",
    advice: "put settings first, `unit` and `top` among them, then definitions, and at least one `write`",
};

/// `deck refused: line N repeats line M`
pub(crate) const TWICE: Advice = Advice {
    means: "a line gives a setting or a name that an earlier line gave",
    advice: "take one of the two lines out, or choose another name",
};

/// `deck refused: line N unknown NAME`
pub(crate) const UNKNOWN_AREA: Advice = Advice {
    means: "a line names an area that no earlier line defines",
    advice: "define it on an earlier line; upper and lower case differ",
};

/// `deck refused: line N has no frame`
pub(crate) const NO_FRAME: Advice = Advice {
    means: "`invert` needs a frame, and the deck has none",
    advice: "put `frame X0 Y0 X1 Y1` among the settings, with the rectangle to invert in",
};

/// `deck refused: line N out of range V`
pub(crate) const RANGE: Advice = Advice {
    means: "a number is out of its range",
    advice: "choose a number within the range",
};

/// `deck refused: line N odd sum`
pub(crate) const ODD: Advice = Advice {
    means: "DX + DY is odd, so an edge at 45 degrees would end between two half units",
    advice: "change one of the two by 1",
};

/// `deck refused: line N file name in use`
pub(crate) const NAMES: Advice = Advice {
    means: "another output has this FILE, or it is LAYOUT or DECK",
    advice: "choose another name",
};

/// `deck refused: line N over the limit`
pub(crate) const MANY: Advice = Advice {
    means: "the deck has more than 256 definitions or 64 outputs",
    advice: "use a second deck",
};

// The advice on a deck's first fault.
fn bad_advice(bad: &DeckBad) -> Advice {
    match bad {
        DeckBad::Line(_, _) => LINE,
        DeckBad::Order(_) => ORDER,
        DeckBad::Twice(_, _) => TWICE,
        DeckBad::Unknown(_, _) => UNKNOWN_AREA,
        DeckBad::NoFrame(_) => NO_FRAME,
        DeckBad::Range(_, _) => RANGE,
        DeckBad::Odd(_) => ODD,
        DeckBad::Names(_) => NAMES,
        DeckBad::Many(_) => MANY,
    }
}

/// The advice on a refused deck.
pub(crate) fn deck_advice(fault: &DeckFault) -> Advice {
    match fault {
        DeckFault::Long => LONG_DECK,
        DeckFault::Bad(bad) => bad_advice(bad),
    }
}
