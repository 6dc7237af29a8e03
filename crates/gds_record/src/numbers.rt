//! Numbers in a record: the highest byte first (GDSII Stream Format Manual 6.0, data types).

ghost use Rattle.std.specs.Prelude.{◌≡◌, ◌≤◌, ◌+◌, length};
ghost use Rattle.gds_record.specs.Numbers.{number_at, signed_at};

use byteorder::{BigEndian, ByteOrder};

/// The number without a sign in the two bytes from `at` on, as in a record's length and head.
#[inline(always)]
pub fn unsigned2(bytes: &[u8], at: usize) -> u16
    requires { at + 2 ≤ length bytes.now }
    ensures { result ≡ number_at 2 bytes.now at }
{
    BigEndian::read_u16(&bytes[at..])
}

/// The number without a sign in the four bytes from `at` on.
fn unsigned4(bytes: &[u8], at: usize) -> u32
    requires { at + 4 ≤ length bytes.now }
    ensures { result ≡ number_at 4 bytes.now at }
{
    BigEndian::read_u32(&bytes[at..])
}

/// The number in the two bytes from `at` on.
pub fn int2(bytes: &[u8], at: usize) -> i16
    requires { at + 2 ≤ length bytes.now }
    ensures { result ≡ signed_at 2 bytes.now at }
{
    unsigned2(bytes, at).cast_signed()
}

/// The number in the four bytes from `at` on.
pub fn int4(bytes: &[u8], at: usize) -> i32
    requires { at + 4 ≤ length bytes.now }
    ensures { result ≡ signed_at 4 bytes.now at }
{
    unsigned4(bytes, at).cast_signed()
}

/// The eight bytes from `at` on as one number without a sign, such as the bits of an eight-byte real.
pub fn int8(bytes: &[u8], at: usize) -> u64
    requires { at + 8 ≤ length bytes.now }
    ensures { result ≡ number_at 8 bytes.now at }
{
    BigEndian::read_u64(&bytes[at..])
}
