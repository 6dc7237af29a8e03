//! Bytes on their way to a depot.
ghost use Rattle.std.specs.Prelude.{◌≡◌, ◌+◌, ◌≤◌, ◌<◌, [], ◌∷◌, ◌++◌, length};

use std::marker::Model;

/// How many bytes a buffer holds.
pub const BUFFER_SIZE: usize = 8192;

/// Bytes that were put and haven't been written or printed, in an array that takes no memory. Contracts see the list of them.
#[derive(Drop)]
pub struct Buffer {
    bytes: [u8; BUFFER_SIZE],
    used: usize,
}

impl Model for Buffer {
    ghost use Rattle.std.specs.Prelude.{ℕ, List, ◌≤◌, take};

    ghost Value = { List ℕ };

    ghost view = { λ b. take b.used b.bytes };

    ghost invariant = { λ b. b.used ≤ 8192 };
}

impl Buffer {
    /// No bytes.
    pub fn new() -> Buffer
        ensures { result ≡ [] }
    {
        Buffer {
            bytes: [0; BUFFER_SIZE],
            used: 0,
        }
    }

    /// Its bytes.
    pub fn bytes(&self) -> &[u8]
        ensures { result.now ≡ self.now }
    {
        &self.bytes[..self.used]
    }

    /// How many more bytes have room.
    pub fn room(&self) -> usize
        ensures { result + length self.now ≡ BUFFER_SIZE }
    {
        BUFFER_SIZE - self.used
    }

    /// Takes all bytes off.
    pub fn clear(&mut self)
        ensures { self.new ≡ [] }
    {
        self.used = 0;
    }

    /// Puts a byte after those that it has.
    pub fn push(&mut self, byte: u8)
        requires { length self.old < BUFFER_SIZE }
        ensures value { self.new ≡ self.old ++ byte ∷ [] }
        ensures size { length self.new ≡ length self.old + 1 }
    {
        self.bytes[self.used] = byte;
        self.used += 1;
    }

    /// Puts bytes after those that it has.
    pub fn put(&mut self, bytes: &[u8])
        requires { length self.old + length bytes.now ≤ BUFFER_SIZE }
        ensures value { self.new ≡ self.old ++ bytes.now }
        ensures size { length self.new ≡ length self.old + length bytes.now }
    {
        for byte in bytes {
            self.push(*byte);
        }
    }
}
