//! The counts of a row of windows, by ascending column.
ghost use Rattle.std.specs.Prelude.{◌≡◌, ◌-◌, false, vec_len, vec_capacity, ◌<◌, ◌≤◌, ◌+◌, ◌^◌, ◌↔◌, IsTrue, length};
ghost use Rattle.density_map.specs.Counts.{AreCounts, IsPlaceOf, HasColumn, IsLess, IsNotLess, IsCountedMore, count_at};

/// How many tiles the window of a column has.
#[derive(Clone, Copy, Debug, PartialEq, Eq)]
pub struct Counted {
    /// The number of the column of windows.
    pub column: i64,
    /// The number of tiles.
    pub tiles: u128,
}

// Whether the count at this place is of a column before the one that is sought.
fn is_less(counts: &[Counted], at: usize, sought: &Counted) -> bool
    requires { at < length counts.now }
    ensures less { IsTrue result → IsLess counts.now at sought.now.column }
    ensures not_less { result ≡ false → IsNotLess counts.now at sought.now.column }
{
    counts[at].column < sought.column
}

// Whether what stands before the place, if anything does, is less.
fn is_less_before(counts: &[Counted], at: usize, sought: &Counted) -> bool
    requires { at ≤ length counts.now }
    ensures { IsTrue result → 0 < at → IsLess counts.now (at - 1) sought.now.column }
{
    if at == 0 {
        return true;
    }
    is_less(counts, at - 1, sought)
}

// Whether what stands at the place, if anything does, isn't less.
fn is_not_less(counts: &[Counted], at: usize, sought: &Counted) -> bool
    ensures { IsTrue result → at < length counts.now → IsNotLess counts.now at sought.now.column }
{
    if counts.len() <= at {
        return true;
    }
    !is_less(counts, at, sought)
}

// Whether the column's place is seen to be here.
fn is_place(counts: &[Counted], at: usize, sought: &Counted) -> bool
    requires { AreCounts counts.now }
    ensures { IsTrue result → IsPlaceOf counts.now sought.now.column at }
{
    if counts.len() < at {
        return false;
    }
    if !is_less_before(counts, at, sought) {
        return false;
    }
    is_not_less(counts, at, sought)
}

// The column's place, by halving.
fn search(counts: &[Counted], sought: &Counted) -> usize
    requires { AreCounts counts.now }
    ensures { IsPlaceOf counts.now sought.now.column result }
{
    let mut low = 0;
    let mut high = counts.len();
    while low < high {
        let middle = low + (high - low) / 2;
        if is_less(counts, middle, sought) {
            low = middle + 1;
        } else {
            high = middle;
        }
    }
    low
}

/// The column's place. It takes no search where it is the one that is looked at first.
pub(crate) fn place_of(counts: &[Counted], first: usize, sought: &Counted) -> usize
    requires { AreCounts counts.now }
    ensures { IsPlaceOf counts.now sought.now.column result }
{
    if is_place(counts, first, sought) {
        return first;
    }
    search(counts, sought)
}

// Whether the count at this place is the column's.
fn has_column(counts: &[Counted], at: usize, sought: &Counted) -> bool
    ensures { IsTrue result ↔ HasColumn counts.now at sought.now.column }
{
    if counts.len() <= at {
        return false;
    }
    counts[at].column == sought.column
}

/// Adds to the count of a column whose place is known. There is room for one more.
pub(crate) fn add_at(counts: &mut Vec<Counted>, at: usize, more: Counted)
    requires counts { AreCounts counts.old.items }
    requires place { IsPlaceOf counts.old.items more.column at }
    requires room { vec_len counts.old < vec_capacity counts.old }
    requires some { 0 < more.tiles }
    requires small { count_at more.column counts.old.items + more.tiles < 2 ^ 128 }
    ensures counts { AreCounts counts.new.items }
    ensures more { IsCountedMore counts.old.items more counts.new.items }
    ensures len { vec_len counts.new ≤ vec_len counts.old + 1 }
    ensures capacity { vec_capacity counts.old ≤ vec_capacity counts.new }
{
    if has_column(counts.as_slice(), at, &more) {
        counts[at].tiles += more.tiles;
        return;
    }
    counts.insert(at, more).unwrap();
}
