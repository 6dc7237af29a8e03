//! What a line of a refusal means, and what to do about it. The texts are those of the tables of docs/DECK.md, which
//! tests/printed_lines.py compares; what is in backquotes before each is the line.

/// What a printed line means, and what to do about it.
#[derive(Clone, Copy, Debug)]
pub(crate) struct Advice {
    /// What it means.
    pub(crate) means: &'static str,
    /// What to do.
    pub(crate) advice: &'static str,
}

/// `words refused`
pub(crate) const WORDS: Advice = Advice {
    means: "the words are no command",
    advice: "see the usage below; a name with a space in it needs quotes in the shell",
};

/// `read fault`
pub(crate) const READ_FAULT: Advice = Advice {
    means: "a file can't be read",
    advice: "look whether it is there and readable; a deck's names are looked up where the program is run",
};

/// `write fault`
pub(crate) const WRITE_FAULT: Advice = Advice {
    means: "a file or the report couldn't be written: the files before it are whole, that one is as it was",
    advice: "look for a missing folder, a full disk, or a file that you may not write",
};

/// `want of memory`
pub(crate) const WANT_OF_MEMORY: Advice = Advice {
    means: "the system refused memory: files that are there are whole, the others are as they were",
    advice: "take a machine with more memory, or a smaller `band` where shapes are as tall as the chip",
};
