//! How far the check of an output's shots is.
ghost use Rattle.std.specs.Prelude.{◌≡◌};
ghost use Rattle.std.specs.Int.{int_gap, int_min};
ghost use Rattle.depot.specs.declared.outside.Phase.TheVariants.{Checking};

use depot::{Phase, Progress};
use half_grid::Window;

/// All that is compared: the rows of an output, and how many shots its file has.
#[derive(Clone, Copy)]
pub(crate) struct Whole {
    pub(crate) rows: Window,
    pub(crate) shots: usize,
}

impl Whole {
    /// How far the check is, once the rows below this one are compared.
    pub(crate) fn up_to(&self, row: i64) -> Progress
        ensures phase { result.phase ≡ Checking }
        ensures rows { result.rows ≡ int_gap self.now.rows.y0 (int_min row self.now.rows.y1) }
        ensures all_rows { result.all_rows ≡ int_gap self.now.rows.y0 self.now.rows.y1 }
        ensures shots { result.shots ≡ self.now.shots }
    {
        let rows = self.rows;
        let shots = self.shots as u128;
        Progress::up_to(Phase::Checking, rows.y0(), rows.y1(), row, shots)
    }
}
