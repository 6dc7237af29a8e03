//! What the words of a deck's lines may be.

/// The words that begin lines.
pub(crate) const COMMANDS: &str =
    "unit, top, band, limits, frame, layer, or, and, sub, xor, grow, shrink, invert, mirror, write";

/// Whether the word begins a setting.
pub(crate) fn is_setting(command: &[u8]) -> bool {
    matches!(command, b"unit" | b"top" | b"band" | b"limits" | b"frame")
}

/// Whether the word begins a definition.
pub(crate) fn is_definition(command: &[u8]) -> bool {
    matches!(
        command,
        b"layer" | b"or" | b"and" | b"sub" | b"xor" | b"grow" | b"shrink" | b"invert" | b"mirror"
    )
}

/// The form of the line that the word begins.
pub(crate) fn form_of(command: &[u8]) -> Option<&'static str> {
    match command {
        b"unit" => Some("unit N"),
        b"top" => Some("top CELL"),
        b"band" => Some("band ROWS"),
        b"limits" => Some("limits HEIGHT WIDTH"),
        b"frame" => Some("frame X0 Y0 X1 Y1"),
        b"layer" => Some("layer NAME L D"),
        b"or" => Some("or NAME A B"),
        b"and" => Some("and NAME A B"),
        b"sub" => Some("sub NAME A B"),
        b"xor" => Some("xor NAME A B"),
        b"grow" => Some("grow NAME A DX [DY]"),
        b"shrink" => Some("shrink NAME A DX [DY]"),
        b"invert" => Some("invert NAME A"),
        b"mirror" => Some("mirror NAME A M"),
        b"write" => Some("write A FILE L D"),
        _ => None,
    }
}

/// What may stand where a form has this word.
pub(crate) fn kind_of(word: &[u8]) -> &'static str {
    match word {
        b"" => "nothing more can stand here",
        b"CELL" => "a cell's name must stand here",
        b"NAME" => "a new name of letters, digits and `_` must stand here, at most 32",
        b"A" | b"B" => "the name of an area must stand here",
        b"FILE" => "a file's name must stand here, at most 255 characters",
        _ => "a whole number must stand here",
    }
}

/// The range of the numbers of the line that the word begins, at the place of the number.
pub(crate) fn range_of(command: &[u8], place: usize) -> &'static str {
    match command {
        b"unit" => "1 to 1,000,000",
        b"band" => "1,024 to 16,777,216",
        b"limits" if place == 1 => "HEIGHT is 1 to 16,777,216",
        b"limits" => "WIDTH is twice HEIGHT to 33,554,432",
        b"frame" => "within 1,073,741,824 of 0, X0 below X1, Y0 below Y1",
        b"grow" | b"shrink" => "0 to 65,536",
        b"mirror" => "within 1,073,741,824 of 0",
        _ => "0 to 4,294,967,295",
    }
}
