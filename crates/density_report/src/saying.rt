//! The lines of a table, printed through a buffer.
ghost use Rattle.std.specs.Prelude.{◌+◌, ◌≤◌, OnOk, ◌++◌, length, flat_map};
ghost use Rattle.depot.specs.Counting.{CountsWrites};
ghost use Rattle.depot.specs.Doing.{Adds, Puts};
ghost use Rattle.density_report.specs.Texts.{entry_line, last_lines, size_line};
ghost use Rattle.density_report.specs.Rows.{counted_line};

use crate::entries::{Entry, Totals, entry_of};
use crate::lines::{ROOM, put_entry, put_most, put_size, put_triangles};
use crate::strips::{Mesh, Strip};
use density_map::Counted;
use depot::{BUFFER_SIZE, Buffer, Depot, DepotBad, flush, put_piece};

// Has room for one more line in the buffer, which is said first where it has none.
fn make_room<D: Depot>(depot: &mut D, buffer: &mut Buffer) -> Result<(), DepotBad>
    ensures room { OnOk result (length buffer.new + ROOM ≤ BUFFER_SIZE) }
    ensures content { Puts D.tells (D.content depot.old) (D.content depot.new) buffer.old buffer.new result }
    ensures counts { CountsWrites (D.counts depot.old) (D.counts depot.new) result }
{
    if ROOM <= buffer.room() {
        return Ok(());
    }
    flush(depot, buffer)
}

// Puts the line of a window.
fn say_entry<D: Depot>(depot: &mut D, buffer: &mut Buffer, entry: &Entry) -> Result<(), DepotBad>
    ensures content { Adds D.tells (D.content depot.old) (D.content depot.new)
        buffer.old (buffer.old ++ entry_line entry.now) buffer.new result }
    ensures counts { CountsWrites (D.counts depot.old) (D.counts depot.new) result }
{
    make_room(depot, buffer)?;
    put_entry(buffer, entry);
    Ok(())
}

/// Puts the lines of a row of windows.
pub(crate) fn say_row<D: Depot>(
    depot: &mut D,
    buffer: &mut Buffer,
    strip: &Strip,
    counts: &[Counted],
) -> Result<(), DepotBad>
    ensures content { Puts D.tells (D.content depot.old) (D.content depot.new)
        (buffer.old ++ flat_map (counted_line strip.now.row) counts.now) buffer.new result }
    ensures counts { CountsWrites (D.counts depot.old) (D.counts depot.new) result }
{
    for counted in counts {
        say_entry(depot, buffer, &entry_of(strip, counted))?;
    }
    Ok(())
}

/// Puts the first line of a table.
pub(crate) fn say_size<D: Depot>(
    depot: &mut D,
    buffer: &mut Buffer,
    file: &str,
    mesh: &Mesh,
) -> Result<(), DepotBad>
    ensures content { Puts D.tells (D.content depot.old) (D.content depot.new)
        (buffer.old ++ size_line file.now mesh.now.size) buffer.new result }
    ensures counts { CountsWrites (D.counts depot.old) (D.counts depot.new) result }
{
    put_piece(depot, buffer, b"density ")?;
    put_piece(depot, buffer, file.as_bytes())?;
    make_room(depot, buffer)?;
    put_size(buffer, mesh);
    Ok(())
}

/// Puts the last lines of a table.
pub(crate) fn say_totals<D: Depot>(
    depot: &mut D,
    buffer: &mut Buffer,
    totals: &Totals,
) -> Result<(), DepotBad>
    ensures content { Puts D.tells (D.content depot.old) (D.content depot.new)
        (buffer.old ++ last_lines totals.now.most totals.now.triangles) buffer.new result }
    ensures counts { CountsWrites (D.counts depot.old) (D.counts depot.new) result }
{
    make_room(depot, buffer)?;
    put_most(buffer, totals.most);
    make_room(depot, buffer)?;
    put_triangles(buffer, totals.triangles);
    Ok(())
}
