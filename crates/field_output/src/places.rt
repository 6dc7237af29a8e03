//! The first and the last stripe that a shot meets, counted from the first stripe of all.
ghost use Rattle.std.specs.Prelude.{◌≡◌, ◌+ℤ◌, ◌*ℤ◌, ◌-ℤ◌, ◌≤ℤ◌, ◌<ℤ◌, ◌<◌, ◌≤◌, ◌^◌, pos};
ghost use Rattle.std.specs.Int.{int_div_euclid};
ghost use Rattle.field_split.specs.Fields.{IsFieldSize};
ghost use Rattle.field_output.specs.Meeting.{place_of, begin_at, end_at, IsPlaced};

use field_split::Fields;
use half_grid::Trap;

/// The stripes of a list of shots.
#[derive(Clone, Copy, Debug)]
pub(crate) struct Span {
    /// How wide and how high a field is.
    pub(crate) size: i64,
    /// The number of the first stripe.
    pub(crate) first: i64,
    /// How many stripes there are.
    pub(crate) count: usize,
    ghost positive: { pos 0 <ℤ size },
    ghost few: { count ≤ 4096 },
    ghost fits: { (first +ℤ pos count) ≤ℤ pos (2 ^ 63) },
}

impl Span {
    /// The stripes from the least to the greatest of a list.
    pub(crate) fn of(fields: &Fields, both: (i64, i64)) -> Span
        requires low { both.0 ≤ℤ both.1 }
        requires few { (both.1 -ℤ both.0) <ℤ pos 4096 }
        ensures sized { IsFieldSize fields.now }
        ensures size { result.size ≡ fields.now }
        ensures first { result.first ≡ both.0 }
        ensures count { (both.0 +ℤ pos result.count) ≡ (both.1 +ℤ pos 1) }
    {
        let more = both.1 - both.0;
        Span {
            size: fields.size(),
            first: both.0,
            count: more as usize + 1,
        }
    }

    /// The number of the stripe that is this many above the first.
    pub(crate) fn number_of(self, place: usize) -> i64
        requires { place < self.count }
        ensures { result ≡ self.first +ℤ pos place }
    {
        self.first + place as i64
    }

    // The stripe of a row.
    fn stripe_of(self, y: i64) -> i64
        ensures { result ≡ int_div_euclid y self.size }
    {
        y.div_euclid(self.size)
    }

    // How many stripes the stripe of a row is above the first.
    fn above_first(self, y: i64) -> i64
        requires low { (self.first *ℤ self.size) ≤ℤ y }
        requires high { y <ℤ ((self.first +ℤ pos self.count) *ℤ self.size) }
        ensures value { result ≡ int_div_euclid y self.size -ℤ self.first }
        ensures low { pos 0 ≤ℤ result }
        ensures high { result <ℤ pos self.count }
    {
        self.stripe_of(y) - self.first
    }

    // The stripe of a row, counted from the first.
    fn place_of(self, y: i64) -> usize
        requires low { (self.first *ℤ self.size) ≤ℤ y }
        requires high { y <ℤ ((self.first +ℤ pos self.count) *ℤ self.size) }
        ensures value { result ≡ place_of self.size self.first y }
        ensures range { result < self.count }
    {
        self.above_first(y) as usize
    }

    /// The first stripe that the shot meets.
    pub(crate) fn begin(self, shot: &Trap) -> usize
        requires { IsPlaced self.size self.first self.count shot.now }
        ensures value { result ≡ begin_at self.size self.first shot.now }
        ensures range { result < self.count }
    {
        self.place_of(shot.y0())
    }

    /// The last stripe that the shot meets.
    pub(crate) fn end(self, shot: &Trap) -> usize
        requires { IsPlaced self.size self.first self.count shot.now }
        ensures value { result ≡ end_at self.size self.first shot.now }
    {
        self.place_of(shot.y1() - 1)
    }
}
