//! What a density table lists, and what is at its end.
ghost use Rattle.std.specs.Prelude.{List, [], ◌∷◌, ◌++◌, ◌≡◌, ◌+◌, ◌^◌, ◌<◌};
ghost use Rattle.density_report.specs.Tables.{IsMost};
ghost use Rattle.density_report.specs.Rows.{entry_of, entries_of, triangles_of, AreTotals};
ghost use Rattle.density_report.specs.declared.entries.Entry.{Entry as AnEntry};

use crate::strips::Strip;
use density_map::Counted;

/// A window that has triangles of an area, and how many.
#[derive(Clone, Copy, Debug, PartialEq, Eq)]
pub struct Entry {
    /// The number of the column of windows.
    pub column: i64,
    /// The number of the row of windows.
    pub row: i64,
    /// The number of triangles.
    pub tiles: u128,
}

/// What a table has at its end.
#[derive(Clone, Copy, Debug, PartialEq, Eq)]
pub struct Totals {
    /// The first entry that has the most triangles, if there is any.
    pub most: Option<Entry>,
    /// The number of all triangles.
    pub triangles: u128,
}

/// The entry of a window of this row.
pub(crate) fn entry_of(strip: &Strip, counted: &Counted) -> Entry
    ensures { result ≡ entry_of strip.now.row counted.now }
{
    Entry {
        column: counted.column,
        row: strip.row,
        tiles: counted.tiles,
    }
}

// The first entry that has the most triangles, where one more comes last.
fn greater(most: Option<Entry>, last: Entry) -> Option<Entry>
    ensures { (entries : List AnEntry) → IsMost entries most → IsMost (entries ++ last ∷ []) result }
{
    if let Some(entry) = most {
        if last.tiles <= entry.tiles {
            return most;
        }
    }
    Some(last)
}

/// Counts the entries of one more row of windows.
pub(crate) fn count_row(totals: &mut Totals, strip: &Strip, counts: &[Counted])
    requires few { totals.old.triangles + triangles_of counts.now < 2 ^ 127 }
    ensures { (entries : List AnEntry) → AreTotals entries totals.old
        → AreTotals (entries ++ entries_of strip.now.row counts.now) totals.new }
{
    for counted in counts {
        totals.most = greater(totals.most, entry_of(strip, counted));
        totals.triangles += counted.tiles;
    }
}
