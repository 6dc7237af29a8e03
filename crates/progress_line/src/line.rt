//! One line of a terminal.
ghost use Rattle.std.specs.Prelude.{◌≡◌, [], ◌∷◌};
ghost use Rattle.progress_line.specs.Text.{shown, put};

use std::marker::Model;

/// How many columns a line has at most. A terminal may have fewer, and is shown the first of them.
pub const COLUMNS: usize = 120;

/// Visible ASCII characters and spaces, at most `COLUMNS` of them. Contracts see the list of them.
#[derive(Drop)]
pub struct Line {
    bytes: [u8; COLUMNS],
    used: usize,
}

impl Model for Line {
    ghost use Rattle.std.specs.Prelude.{ℕ, List, ◌≤◌, take};

    ghost Value = { List ℕ };

    ghost view = { λ l. take l.used l.bytes };

    ghost invariant = { λ l. l.used ≤ 120 };
}

// A byte as the line has it: a visible one as it is, and another as `?`.
fn visible(byte: u8) -> u8
    ensures { result ≡ shown byte }
{
    if byte >= b' ' && byte <= b'~' {
        byte
    } else {
        b'?'
    }
}

impl Line {
    /// An empty line.
    pub fn new() -> Line
        ensures { result ≡ [] }
    {
        Line {
            bytes: [0; COLUMNS],
            used: 0,
        }
    }

    /// Its characters.
    pub fn bytes(&self) -> &[u8]
        ensures { result.now ≡ self.now }
    {
        &self.bytes[..self.used]
    }

    // Puts a byte at the end, where there is room.
    fn push(&mut self, byte: u8)
        ensures { self.new ≡ put self.old (byte ∷ []) }
    {
        if self.used < COLUMNS {
            self.bytes[self.used] = visible(byte);
            self.used += 1;
        }
    }

    /// Puts bytes at the end, as many as there is room for. One that isn't a visible ASCII character or a space is
    /// shown as `?`, so that no name does anything to the terminal.
    pub fn put(&mut self, bytes: &[u8])
        ensures { self.new ≡ put self.old bytes.now }
    {
        let _opened = &self.used;
        for byte in bytes {
            self.push(*byte);
        }
    }
}
