//! How long the work takes.
ghost use Rattle.std.specs.Prelude.{◌≡◌, ◌<◌, ◌≤◌, ◌-◌, ◌*◌, ◌/◌};
ghost use Rattle.progress_line.specs.Text.{put, clock, is_told, time_left};

use crate::line::Line;
use itoa::Buffer;

/// Puts seconds at the end, as minutes and seconds.
pub(crate) fn put_clock(line: &mut Line, seconds: u128)
    ensures { line.new ≡ put line.old (clock seconds) }
{
    let mut digits = Buffer::new();
    line.put(digits.format(seconds / 60).as_bytes());
    line.put(b":");
    line.put(digits.format(seconds % 60 / 10).as_bytes());
    line.put(digits.format(seconds % 60 % 10).as_bytes());
}

// Whether the time that is left is told.
fn is_told(seconds: u64, done: u64, all: u64) -> bool
    ensures { result ≡ is_told seconds done all }
{
    if seconds < 10 {
        return false;
    }
    if done == 0 {
        return false;
    }
    done <= all
}

// The seconds that are left, if what is left goes as fast as what is done.
fn left_at(seconds: u64, done: u64, all: u64) -> u128
    requires some { 0 < done }
    requires part { done ≤ all }
    ensures { result ≡ seconds * (all - done) / done }
{
    u128::from(seconds) * u128::from(all - done) / u128::from(done)
}

/// Puts the time that is left at the end, where it is told.
pub(crate) fn put_left(line: &mut Line, seconds: u64, done: u64, all: u64)
    ensures { line.new ≡ put line.old (time_left seconds done all) }
{
    if !is_told(seconds, done, all) {
        line.put(b"");
        return;
    }
    line.put(b", ");
    put_clock(line, left_at(seconds, done, all));
    line.put(b" left");
}
