//! How thick the shots of a file are, so that the thin ones are counted.

use std::alloc::Global;

/// How many different thicknesses are kept.
const MOST: usize = 4096;

/// A thickness, doubled, and how many shots have it. The thickness of a shot is the lesser of its height and the mean of its
/// lower and upper side, in half units.
#[derive(Clone, Copy, Debug)]
struct Thickness {
    double: u64,
    shots: u64,
}

/// The thicknesses of the shots of a file, from the least on. Nothing is known once there is no room for one.
#[derive(Drop)]
pub(crate) struct Thicknesses {
    counts: Vec<Thickness>,
    last: usize,
    is_lost: bool,
}

impl Thicknesses {
    /// No shot yet. It takes no memory.
    pub(crate) fn new(alloc: Global) -> Thicknesses {
        Thicknesses {
            counts: Vec::new(alloc),
            last: 0,
            is_lost: false,
        }
    }

    // Counts a shot among those at this place, where they have its thickness.
    fn counts_at(&mut self, place: usize, double: u64) -> bool {
        match self.counts.as_mut_slice().get_mut(place) {
            Some(found) if found.double == double => {
                found.shots = found.shots.saturating_add(1);
                true
            }
            _ => false,
        }
    }

    /// One more shot, with this thickness, doubled.
    pub(crate) fn add(&mut self, double: u64) {
        if self.is_lost || self.counts_at(self.last, double) {
            return;
        }
        let place = self
            .counts
            .as_slice()
            .partition_point(|it| it.double < double);
        self.last = place;
        if self.counts_at(place, double) {
            return;
        }
        let one = Thickness { double, shots: 1 };
        self.is_lost = self.counts.len() >= MOST
            || place > self.counts.len()
            || self.counts.insert(place, one).is_err();
    }

    // The doubled thickness of the shot with this number, from the thinnest on.
    fn at(&self, number: u64) -> u64 {
        let mut below: u64 = 0;
        for it in self.counts.as_slice() {
            below = below.saturating_add(it.shots);
            if number < below {
                return it.double;
            }
        }
        0
    }

    /// How many of these shots are thinner than a tenth of the median. None where that isn't known.
    pub(crate) fn thin(&self, shots: u64) -> Option<u64> {
        if self.is_lost || shots == 0 {
            return None;
        }
        // four times the median: of an even number of shots it is halfway between the two in the middle
        let middle = self.at((shots - 1) / 2).saturating_add(self.at(shots / 2));
        let mut thin: u64 = 0;
        for it in self.counts.as_slice() {
            if it.double.saturating_mul(20) < middle {
                thin = thin.saturating_add(it.shots);
            }
        }
        Some(thin)
    }
}
