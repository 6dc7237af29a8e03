//! The program: it takes the words of the command, does them over the real files, explains the answer on standard
//! error, and ends with its code.
#![tactic(auto)]

mod ending;
mod memory;
mod regular;
mod telling;
mod usage;
mod words;

use depot::FileDepot;
use ending::{answer_to, exit_code};
use explain::HeardDepot;
use memory::keep_what_is_given_back;
use progress_line::{Screen, ShownDepot, columns};
use std::io::{IsTerminal, Stderr};
use std::process::ExitCode;
use telling::tell_end;
use usage::tell_usage;
use words::words;

/// What is said where memory ran out, which may be in the middle of a file that no call of the depot refused.
const WANT_OF_MEMORY: &[u8] = b"want of memory\n";

// Standard error, where it is a terminal.
fn screen(rt: HostRuntime) -> Option<Screen<HostRuntime, Stderr>> {
    let to = rt.stderr();
    if to.is_terminal() {
        let (columns, alloc) = (columns(&rt), rt.alloc());
        Some(Screen::new(rt, to, columns, alloc))
    } else {
        None
    }
}

fn main(rt: HostRuntime) -> ExitCode {
    keep_what_is_given_back(rt.alloc());
    let words = words(&rt, rt.alloc());
    let mut files = FileDepot::new(rt);
    files.give_up_at(WANT_OF_MEMORY);
    let mut depot = ShownDepot::new(HeardDepot::new(files), screen(rt));
    let answer = answer_to(rt.alloc(), &words, &mut depot);
    let code = exit_code(&answer);
    depot.wipe();
    if code == 0 {
        depot.summarize();
    }
    tell_end(rt, &words, &answer, depot.depot());
    tell_usage(&rt, code);
    ExitCode::from(code)
}
