//! Looking over the records of a file, without memory for their shots.
ghost use Rattle.std.specs.Prelude.{◌≡◌, ◌≢◌, ◌⊎◌, ◌∷◌, [], ◌++◌, ◌<◌, ◌≤◌, ℕ, List as Items, Option, length, drop, slice_index, IsTrue, ◌↔◌, OnOk, IfOk, IfErr};
ghost use Rattle.oas_lex.specs.ShotText.{IsUnit};
ghost use Rattle.shot_repeat.specs.Asking.{AskForFew};
ghost use Rattle.shot_repeat.specs.Packed.{most_of_file};
ghost use Rattle.shot_repeat.specs.Progress.{IsStart, HasSeen};
ghost use Rattle.shot_repeat.specs.Refusals.{IsFirstPackFault};

use crate::fields::record_at;
use crate::giving::look_at_shots;
use crate::modal::{count_of, step_of};
use crate::reading::{END, MOST_OF_FILE, MOST_OF_RECORD, Progress, ends_right, next_record};
use crate::refusing::PackBad;

// Whether the records from `at` on give few enough shots, as far as they are spelled.
fn ask_for_few(bytes: &[u8], at: usize) -> bool
    requires { at ≤ length bytes.now }
    ensures { IsTrue result ↔ AskForFew (drop at bytes.now) }
{
    let mut next = at;
    let mut total: u64 = 0;
    while next < bytes.len() {
        let (record, after) = record_at(bytes, next);
        if bytes.len() < after {
            return true;
        }
        let count = count_of(&record.repetition);
        if MOST_OF_RECORD < count {
            return false;
        }
        if MOST_OF_FILE < total + count {
            return false;
        }
        total += count;
        next = after;
    }
    true
}

// Looks at the next record and its shots, after so many, and says how far the reading has come and how many there are.
fn look_at_one(
    bytes: &[u8],
    progress: &Progress,
    so_far: usize,
) -> Result<(Progress, usize), PackBad>
    requires here { progress.now.at < length bytes.now }
    requires no_end { slice_index bytes.now progress.now.at ≢ 2 }
    requires few { so_far ≤ most_of_file }
    ensures next { IfOk result (λ r. progress.now.at < r.0.at) }
    ensures ok { (unit : ℕ) → HasSeen bytes.now unit progress.now so_far → IfOk result (λ r. HasSeen bytes.now unit r.0 r.1) }
    ensures refused { (unit : ℕ) → IsUnit unit → HasSeen bytes.now unit progress.now so_far → IfErr result (IsFirstPackFault bytes.now) }
{
    let next = next_record(bytes, progress, so_far)?;
    let step = step_of(&next.record.repetition);
    let count = count_of(&next.record.repetition);
    look_at_shots(&next.fields, step, count, progress.at)?;
    Ok((next.progress, so_far + count as usize))
}

// Looks over the whole file for its first fault.
fn look_over(bytes: &[u8], start: &Progress) -> Result<(), PackBad>
    requires { (unit : ℕ) × IsStart bytes.now unit start.now }
    ensures ok { OnOk result (AskForFew (drop start.now.at bytes.now)) }
    ensures refused { IfErr result (IsFirstPackFault bytes.now) }
{
    let mut progress = *start;
    let mut count = 0;
    while progress.at < bytes.len() && bytes[progress.at] != END {
        let (next, so_far) = look_at_one(bytes, &progress, count)?;
        progress = next;
        count = so_far;
    }
    ends_right(bytes, progress.at)
}

/// Whether the records ask for few enough shots. Where they ask for too many the file is looked over for its first
/// fault, still without memory.
pub(crate) fn check_number(bytes: &[u8], start: &Progress) -> Result<(), PackBad>
    requires { (unit : ℕ) × IsStart bytes.now unit start.now }
    ensures ok { OnOk result (AskForFew (drop start.now.at bytes.now)) }
    ensures refused { IfErr result (IsFirstPackFault bytes.now) }
{
    if ask_for_few(bytes, start.at) {
        return Ok(());
    }
    look_over(bytes, start)
}
