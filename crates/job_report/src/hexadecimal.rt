//! Hexadecimal digits.
ghost use Rattle.std.specs.Prelude.{◌≡◌, ◌+◌, ◌≤◌, ◌<◌, ◌++◌, length};
ghost use Rattle.job_report.specs.Pieces.{hex_digit, byte_digits, hex_text};

use depot::{BUFFER_SIZE, Buffer};

const DIGITS: [u8; 16] = *b"0123456789abcdef";

// The digit of a number below 16.
fn digit(number: u8) -> u8
    requires { number < 16 }
    ensures { result ≡ hex_digit number }
{
    DIGITS[usize::from(number)]
}

// Puts the two digits of a byte.
fn put_byte(buffer: &mut Buffer, byte: u8)
    requires { length buffer.old + 2 ≤ BUFFER_SIZE }
    ensures value { buffer.new ≡ buffer.old ++ byte_digits byte }
    ensures size { length buffer.new ≡ length buffer.old + 2 }
{
    buffer.push(digit(byte / 16));
    buffer.push(digit(byte % 16));
}

/// The bits as 16 digits, the highest first.
pub(crate) fn digits_of(bits: u64) -> Buffer
    ensures { result ≡ hex_text bits }
{
    let mut buffer = Buffer::new();
    for byte in bits.to_be_bytes() {
        put_byte(&mut buffer, byte);
    }
    buffer
}
