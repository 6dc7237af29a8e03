//! The text of an explanation, put together piece by piece.
ghost use Rattle.std.specs.Prelude.{◌≡◌, ◌++◌, [], OnOk, map, decimal};
ghost use Rattle.explain.specs.Shown.{shown, comma_after, grouped, blanks};

use crate::number::{decimals_of, scaled};
use geo_stream::NoMemory;
use itoa::Buffer;
use std::alloc::Global;
use std::marker::Model;

/// A text that grows at its end. Contracts see its bytes.
#[derive(Debug, Drop)]
pub(crate) struct Note {
    bytes: Vec<u8>,
}

impl Model for Note {
    ghost use Rattle.std.specs.Prelude.{ℕ, List};

    ghost Value = { List ℕ };

    ghost view = { λ note. note.bytes.items };
}

// A byte as it is shown.
fn shown(byte: u8) -> u8
    ensures { result ≡ shown byte }
{
    if byte == b'\t' {
        return b' ';
    }
    if (0x20..=0x7E).contains(&byte) {
        byte
    } else {
        b'?'
    }
}

// The comma after a digit with so many digits after it.
fn comma_after(left: usize) -> &'static [u8]
    ensures { result.now ≡ comma_after left }
{
    if left == 0 {
        return b"";
    }
    if left % 3 == 0 { b"," } else { b"" }
}

impl Note {
    /// No text. It takes no memory.
    pub(crate) fn new(alloc: Global) -> Note
        ensures { result ≡ [] }
    {
        Note {
            bytes: Vec::new(alloc),
        }
    }

    /// The text.
    pub(crate) fn into_text(self) -> Vec<u8>
        ensures { result.items ≡ self }
    {
        self.bytes
    }

    /// Puts a piece last.
    pub(crate) fn put(&mut self, piece: &str) -> Result<(), NoMemory>
        ensures ok { OnOk result (self.new ≡ self.old ++ piece.now) }
    {
        self.bytes.extend_from_slice(piece.as_bytes())?;
        Ok(())
    }

    /// Puts bytes of a file last, as they are shown.
    pub(crate) fn put_bytes(&mut self, bytes: &[u8]) -> Result<(), NoMemory>
        ensures ok { OnOk result (self.new ≡ self.old ++ map shown bytes.now) }
    {
        for byte in bytes {
            self.bytes.push(shown(*byte))?;
        }
        Ok(())
    }

    /// Puts so many blanks last.
    pub(crate) fn put_blanks(&mut self, count: usize) -> Result<(), NoMemory>
        ensures ok { OnOk result (self.new ≡ self.old ++ blanks count) }
    {
        for _blank in 0..count {
            self.bytes.push(b' ')?;
        }
        Ok(())
    }

    // Puts digits last, in groups of three.
    fn put_grouped(&mut self, digits: &[u8]) -> Result<(), NoMemory>
        ensures ok { OnOk result (self.new ≡ self.old ++ grouped digits.now) }
    {
        for place in 0..digits.len() {
            self.bytes.push(digits[place])?;
            self.bytes
                .extend_from_slice(comma_after(digits.len() - place - 1))?;
        }
        Ok(())
    }

    /// Puts a number last, with a comma before each three digits.
    pub(crate) fn put_number(&mut self, number: u128) -> Result<(), NoMemory>
        ensures ok { OnOk result (self.new ≡ self.old ++ grouped (decimal number)) }
    {
        let mut buffer = Buffer::new();
        let digits = buffer.format(number).as_bytes();
        self.put_grouped(digits)
    }

    /// Puts an offset last, as `byte 1,234`.
    pub(crate) fn put_byte(&mut self, at: usize) -> Result<(), NoMemory> {
        self.put("byte ")?;
        self.put_number(at as u128)
    }

    /// Puts a number with a sign last, with a comma before each three digits.
    pub(crate) fn put_signed(&mut self, number: i64) -> Result<(), NoMemory> {
        if number < 0 {
            self.put("-")?;
        }
        self.put_number(u128::from(number.unsigned_abs()))
    }

    /// Puts a length in micrometres last, where a micrometre has so many of its steps.
    pub(crate) fn put_length(&mut self, length: i64, steps: u32) -> Result<(), NoMemory> {
        if length < 0 {
            self.put("-")?;
        }
        self.put_ratio(length.unsigned_abs(), u64::from(steps))
    }

    /// Puts a ratio last, as a decimal number. It is cut where it has more decimals than are shown.
    pub(crate) fn put_ratio(&mut self, top: u64, bottom: u64) -> Result<(), NoMemory> {
        if bottom == 0 {
            return self.put("?");
        }
        self.put_number(u128::from(top / bottom))?;
        self.put(".")?;
        let places = decimals_of(bottom);
        self.put_digits(scaled(top % bottom, bottom, places), places)
    }

    /// Puts a number last, with zeros before it where it has fewer digits.
    pub(crate) fn put_digits(&mut self, number: u64, digits: usize) -> Result<(), NoMemory> {
        let mut buffer = Buffer::new();
        let text = buffer.format(number);
        for _zero in text.len()..digits {
            self.put("0")?;
        }
        self.put(text)
    }

    /// Puts a layer and a datatype last, as `7/0`.
    pub(crate) fn put_pair(&mut self, layer: u64, datatype: u64) -> Result<(), NoMemory> {
        self.put_digits(layer, 1)?;
        self.put("/")?;
        self.put_digits(datatype, 1)
    }

    /// Puts a point last, in micrometres.
    pub(crate) fn put_point(&mut self, x: i64, y: i64, steps: u32) -> Result<(), NoMemory> {
        self.put("(")?;
        self.put_length(x, steps)?;
        self.put(", ")?;
        self.put_length(y, steps)?;
        self.put(")")
    }
}
