//! How often a line is shown.
ghost use Rattle.std.specs.Prelude.{◌≡◌, ◌↔◌, ◌<◌, ◌-◌, max, IsTrue};
ghost use Rattle.progress_line.specs.Pace.{refilled};

/// How many lines may be shown at once.
pub const MOST: u64 = 8;

/// A pace of at most nine lines in any second: one more may be shown for each second that has gone by, and at most
/// `MOST` are saved up.
#[derive(Drop)]
pub struct Pace {
    left: u64,
    second: u64,
}

impl Pace {
    /// Nothing was shown yet.
    pub fn new() -> Pace
        ensures left { result.left ≡ MOST }
        ensures second { result.second ≡ 0 }
    {
        Pace {
            left: MOST,
            second: 0,
        }
    }

    /// Whether this second comes after the last one.
    pub fn is_new(&self, second: u64) -> bool
        ensures { IsTrue result ↔ self.now.second < second }
    {
        self.second < second
    }

    /// Whether a line may be shown in this second. A second before the last one counts as the last one.
    pub fn is_due(&mut self, second: u64) -> bool
        ensures due { IsTrue result ↔ 0 < refilled self.old.left self.old.second second }
        ensures left { self.new.left ≡ refilled self.old.left self.old.second second - 1 }
        ensures second { self.new.second ≡ max self.old.second second }
    {
        let gone = second.saturating_sub(self.second);
        if gone > 0 {
            self.second = second;
        }
        let left = self.left.saturating_add(gone).min(MOST);
        self.left = left.saturating_sub(1);
        left > 0
    }
}
