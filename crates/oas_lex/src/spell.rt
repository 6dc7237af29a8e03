//! A small buffer in which numbers are spelled.
ghost use Rattle.std.specs.Prelude.{◌≡◌, ◌+◌, ◌^◌, ◌<◌, ◌≤◌, ℕ, List, [], ◌∷◌, ◌++◌, length, take, unsigned_abs};
ghost use Rattle.oas_lex.specs.Spelling.{unsigned_text, signed_text, signed_code};

use std::marker::Model;

/// How many bytes a spelling has room for. A shot's record has at most 74, a shot file's head at most 48.
pub const ROOM: usize = 80;

/// A few bytes that spell something, in a buffer of their own. Contracts see the list of the bytes.
#[derive(Drop)]
pub struct Spell {
    buffer: [u8; ROOM],
    used: usize,
}

impl Model for Spell {
    ghost Value = { List ℕ };

    ghost view = { λ s. take s.used s.buffer };

    ghost invariant = { λ s. s.used ≤ 80 };
}

// The sign in bit 0, the magnitude above.
fn signed_code(value: i64) -> u64
    requires { unsigned_abs value < 2 ^ 62 }
    ensures value { result ≡ signed_code value }
    ensures narrow { result < 2 ^ 63 }
{
    let sign = if value < 0 { 1 } else { 0 };
    2 * value.unsigned_abs() + sign
}

impl Spell {
    /// No bytes.
    pub fn new() -> Spell
        ensures { result ≡ [] }
    {
        Spell {
            buffer: [0; ROOM],
            used: 0,
        }
    }

    /// Its bytes, of which there are at most `ROOM`.
    pub fn bytes(&self) -> &[u8]
        ensures value { result.now ≡ self.now }
        ensures room { length result.now ≤ ROOM }
    {
        &self.buffer[..self.used]
    }

    /// Appends a byte.
    pub fn push(&mut self, byte: u8)
        requires { length self.old < ROOM }
        ensures value { self.new ≡ self.old ++ byte ∷ [] }
        ensures size { length self.new ≡ length self.old + 1 }
    {
        self.buffer[self.used] = byte;
        self.used += 1;
    }

    /// Appends bytes.
    pub fn put_bytes(&mut self, bytes: &[u8])
        requires { length self.old + length bytes.now ≤ ROOM }
        ensures value { self.new ≡ self.old ++ bytes.now }
        ensures size { length self.new ≡ length self.old + length bytes.now }
    {
        for byte in bytes {
            self.push(*byte);
        }
    }

    /// Appends the shortest spelling of an unsigned number.
    pub fn put_unsigned(&mut self, value: u64)
        requires narrow { value < 2 ^ 63 }
        requires room { length self.old + 9 ≤ ROOM }
        ensures value { self.new ≡ self.old ++ unsigned_text value }
        ensures size { length self.new ≤ length self.old + 9 }
    {
        let mut left = value;
        while left >= 128 {
            self.push((left % 128) as u8 + 128);
            left /= 128;
        }
        self.push(left as u8);
    }

    /// Appends the shortest spelling of a signed number.
    pub fn put_signed(&mut self, value: i64)
        requires narrow { unsigned_abs value < 2 ^ 62 }
        requires room { length self.old + 9 ≤ ROOM }
        ensures value { self.new ≡ self.old ++ signed_text value }
        ensures size { length self.new ≤ length self.old + 9 }
    {
        self.put_unsigned(signed_code(value));
    }
}

/// The shortest spelling of an unsigned number.
pub fn put_unsigned(value: u64) -> Spell
    requires { value < 2 ^ 63 }
    ensures { result ≡ unsigned_text value }
{
    let mut spell = Spell::new();
    spell.put_unsigned(value);
    spell
}

/// The shortest spelling of a signed number.
pub fn put_signed(value: i64) -> Spell
    requires { unsigned_abs value < 2 ^ 62 }
    ensures { result ≡ signed_text value }
{
    let mut spell = Spell::new();
    spell.put_signed(value);
    spell
}
