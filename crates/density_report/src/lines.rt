//! The lines of a table, put into a buffer that has room for one.
ghost use Rattle.std.specs.Prelude.{◌≡◌, ◌+◌, ◌≤◌, ◌∷◌, [], ◌++◌, Some, decimal, length};
ghost use Rattle.std.specs.Fmt.{signed_decimal};
ghost use Rattle.density_report.specs.Texts.{entry_line, most_line, size_end, triangles_line};

use crate::entries::Entry;
use crate::strips::Mesh;
use depot::{BUFFER_SIZE, Buffer};

/// How many bytes a line without a file's name has at most.
pub(crate) const ROOM: usize = 128;

// Puts the decimal text of a number that isn't negative.
fn put_count(buffer: &mut Buffer, number: u128)
    requires { length buffer.old + 40 ≤ BUFFER_SIZE }
    ensures value { buffer.new ≡ buffer.old ++ decimal number }
    ensures size { length buffer.new ≤ length buffer.old + 40 }
{
    let mut digits = itoa::Buffer::new();
    buffer.put(digits.format(number).as_bytes());
}

// Puts the decimal text of a number, and the byte after it.
fn put_number(buffer: &mut Buffer, number: i64, after: u8)
    requires { length buffer.old + 21 ≤ BUFFER_SIZE }
    ensures value { buffer.new ≡ buffer.old ++ (signed_decimal number ++ after ∷ []) }
    ensures size { length buffer.new ≤ length buffer.old + 21 }
{
    let mut digits = itoa::Buffer::new();
    buffer.put(digits.format(number).as_bytes());
    buffer.push(after);
}

/// Puts the line of a window.
pub(crate) fn put_entry(buffer: &mut Buffer, entry: &Entry)
    requires { length buffer.old + 83 ≤ BUFFER_SIZE }
    ensures value { buffer.new ≡ buffer.old ++ entry_line entry.now }
    ensures size { length buffer.new ≤ length buffer.old + 83 }
{
    put_number(buffer, entry.column, b' ');
    put_number(buffer, entry.row, b' ');
    put_count(buffer, entry.tiles);
    buffer.push(b'\n');
}

/// Puts the line of the window that has the most triangles, where there is one.
pub(crate) fn put_most(buffer: &mut Buffer, most: Option<Entry>)
    requires { length buffer.old + ROOM ≤ BUFFER_SIZE }
    ensures { buffer.new ≡ buffer.old ++ most_line most }
{
    if let Some(entry) = most {
        buffer.put(b"most ");
        put_entry(buffer, &entry);
    }
}

/// Puts the line of the number of all triangles.
pub(crate) fn put_triangles(buffer: &mut Buffer, triangles: u128)
    requires { length buffer.old + ROOM ≤ BUFFER_SIZE }
    ensures { buffer.new ≡ buffer.old ++ triangles_line triangles }
{
    buffer.put(b"triangles ");
    put_count(buffer, triangles);
    buffer.push(b'\n');
}

/// Puts the rest of a table's first line, after the file's name.
pub(crate) fn put_size(buffer: &mut Buffer, mesh: &Mesh)
    requires { length buffer.old + ROOM ≤ BUFFER_SIZE }
    ensures { buffer.new ≡ buffer.old ++ size_end mesh.now.size }
{
    buffer.put(b" size ");
    put_number(buffer, mesh.size, b'\n');
}
