//! What is written to a terminal, so that one row of it shows a line.
ghost use Rattle.std.specs.Prelude.{◌≡◌, ◌≤◌, ◌<◌, length};
ghost use Rattle.progress_line.specs.Frames.{frame, whole_words, shown_columns};

use depot::Buffer;

/// Removes what is in the row, and goes to its first column.
pub(crate) const WIPE: &[u8] = b"\r\x1b[K";

/// From here on what a row has no room for doesn't go on in the next one.
const CUT: &[u8] = b"\x1b[?7l";

/// From here on it does, as terminals do at first.
const WRAP: &[u8] = b"\x1b[?7h";

// How many of these first columns of a line end before a space, so that no number is cut.
fn whole_words(line: &[u8], columns: usize) -> usize
    requires { columns < length line.now }
    ensures words { result ≡ whole_words line.now columns }
    ensures within { result ≤ columns }
{
    let mut end = columns;
    while 0 < end && line[end] != b' ' {
        end -= 1;
    }
    end
}

// How many columns of a line are shown where there are so many: all, or the first words that have room.
fn shown_columns(line: &[u8], columns: usize) -> usize
    ensures columns { result ≡ shown_columns line.now columns }
    ensures within { result ≤ length line.now }
{
    if line.len() <= columns {
        return line.len();
    }
    whole_words(line, columns)
}

/// The row is wiped, and has the words of the line that these columns have room for. Where the terminal has fewer it cuts them.
pub(crate) fn frame(line: &[u8], columns: usize) -> Buffer
    requires { length line.now ≤ 120 }
    ensures { result ≡ frame line.now columns }
{
    let mut buffer = Buffer::new();
    buffer.put(WIPE);
    buffer.put(CUT);
    buffer.put(&line[..shown_columns(line, columns)]);
    buffer.put(WRAP);
    buffer
}
