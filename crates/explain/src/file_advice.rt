//! What a file is that isn't what it should be, by its first bytes, and what to do about it.
use crate::advice::Advice;

/// How many of the first bytes are looked at.
pub(crate) const LOOKED_AT: usize = 512;

/// `empty`
pub(crate) const EMPTY: Advice = Advice {
    means: "the file is empty",
    advice: "look whether it was written or transferred to its end",
};

/// `gzip`
pub(crate) const GZIP: Advice = Advice {
    means: "the file is compressed by gzip, and no layout",
    advice: "run gunzip on it",
};

/// `zip`
pub(crate) const ZIP: Advice = Advice {
    means: "the file is a zip archive, and no layout",
    advice: "unpack it",
};

/// `DXF`
pub(crate) const DXF: Advice = Advice {
    means: "the file is a DXF drawing, and no layout",
    advice: "convert it to GDSII or OASIS with a layout editor",
};

/// `CIF`
pub(crate) const CIF: Advice = Advice {
    means: "the file is a layout in CIF, which isn't read",
    advice: "convert it to GDSII or OASIS with a layout editor",
};

/// `text GDSII`
pub(crate) const TEXT_GDS: Advice = Advice {
    means: "the file is a text of GDSII records, which isn't read",
    advice: "convert it to binary GDSII, with the tool that wrote it or a layout editor",
};

/// `text`
pub(crate) const TEXT: Advice = Advice {
    means: "the file is a text, and no layout",
    advice: "give LAYOUT before DECK, and as LAYOUT a GDSII or OASIS file",
};

/// `layout`
pub(crate) const IS_LAYOUT: Advice = Advice {
    means: "the file is a layout, and no deck",
    advice: "give LAYOUT before DECK",
};

// Whether a byte stands in texts.
fn is_of_text(byte: u8) -> bool {
    matches!(byte, b'\t' | b'\n' | b'\r' | 0x20..=0x7E)
}

// Whether the bytes are those of a text.
fn is_text(bytes: &[u8]) -> bool {
    for byte in bytes {
        if !is_of_text(*byte) {
            return false;
        }
    }
    true
}

// Whether the word stands somewhere in the bytes.
fn has_word(bytes: &[u8], word: &[u8]) -> bool {
    for at in 0..bytes.len() {
        if bytes[at..].starts_with(word) {
            return true;
        }
    }
    false
}

// What a text is that was given as a layout.
fn text_advice(text: &[u8]) -> Advice {
    if has_word(text, b"BGNLIB") {
        return TEXT_GDS;
    }
    if has_word(text, b"SECTION") && has_word(text, b"HEADER") {
        return DXF;
    }
    if has_word(text, b"DS ") && has_word(text, b";") {
        return CIF;
    }
    TEXT
}

// The bytes that are looked at.
fn head_of(bytes: &[u8]) -> &[u8] {
    match bytes.get(..LOOKED_AT) {
        Some(head) => head,
        None => bytes,
    }
}

/// What a file is that was read as a layout, where its first bytes show that it is another thing.
pub(crate) fn no_layout(bytes: &[u8]) -> Option<Advice> {
    let head = head_of(bytes);
    if head.is_empty() {
        return Some(EMPTY);
    }
    if head.starts_with(&[0x1F, 0x8B]) {
        return Some(GZIP);
    }
    if head.starts_with(&[0x50, 0x4B, 3, 4]) {
        return Some(ZIP);
    }
    if is_text(head) {
        return Some(text_advice(head));
    }
    None
}

/// What a file is that was read as a deck, where its first bytes show that it is another thing.
pub(crate) fn no_deck(bytes: &[u8]) -> Option<Advice> {
    if bytes.starts_with(&[0, 6, 0, 2]) || bytes.starts_with(b"%SEMI-OASIS") {
        return Some(IS_LAYOUT);
    }
    None
}
