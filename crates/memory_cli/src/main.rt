//! The program over a depot in memory, for tests: it takes files of the system into such a depot, does there what the
//! words say, and puts what was made into files again. `tests/refusals.sh` and `tests/short.sh` run it.
//!
//!     memory_cli HOW HELD.. , MADE.. , WORD..
//!
//! HOW is `whole`, `short`, where a call moves a byte at most, or the number of a call that fails. HELD are the files
//! that the depot holds, MADE those that it may make, WORD the words of the command. What was printed comes on standard
//! output, and on standard error a line for each of the three counts that isn't 0. The program ends with the code of
//! the answer, or with 8 where the depot couldn't be had or what it made couldn't be put into files.
#![tactic(auto)]

use depot::{FileDepot, MemDepot, make_file, read_all, say_whole};
use mdp_job::run;
use std::alloc::Global;
use std::env;
use std::process::ExitCode;

/// The number where nothing was done, or what was done is lost.
const LOST: u8 = 8;

/// No file that the depot holds is longer.
const LONGEST: usize = 1 << 20;

// How many words come before the first comma.
fn before_comma(words: &[String]) -> usize {
    for (index, word) in words.iter().enumerate() {
        if word.as_str() == "," {
            return index;
        }
    }
    words.len()
}

// The words before the first comma, and those after it.
fn split(words: &[String]) -> (&[String], &[String]) {
    let (before, rest) = words.split_at(before_comma(words).min(words.len()));
    match rest.split_first() {
        Some((_comma, after)) => (before, after),
        None => (before, rest),
    }
}

// A depot with these files, that fails so.
fn depot_of(
    alloc: Global,
    files: &mut FileDepot<HostRuntime>,
    how: &str,
    held: &[String],
) -> Option<MemDepot> {
    let mut depot = MemDepot::new(alloc);
    for name in held {
        let bytes = read_all(alloc, files, name.as_str(), LONGEST).ok()?;
        depot.add(name.as_str(), bytes.as_slice()).ok()?;
    }
    match how {
        "whole" => {}
        "short" => depot.short(),
        call => depot.fail_at(call.parse().ok()?).ok()?,
    }
    Some(depot)
}

// Puts what the depot made under these names into files, and says what it said.
fn put_out(files: &mut FileDepot<HostRuntime>, depot: &MemDepot, made: &[String]) -> Option<()> {
    for name in made {
        if let Some(bytes) = depot.made(name.as_str()) {
            make_file(files, name.as_str(), bytes).ok()?;
        }
    }
    files.finish().ok()?;
    say_whole(files, depot.said()).ok()
}

// Tells which counts of the depot aren't 0. A refusal is passed over.
fn tell_counts(rt: &impl Eprint, depot: &MemDepot) {
    let (read, write, memory) = depot.counts();
    if read > 0 {
        let _told = rt.eprintln("counted: read fault");
    }
    if write > 0 {
        let _told = rt.eprintln("counted: write fault");
    }
    if memory > 0 {
        let _told = rt.eprintln("counted: want of memory");
    }
}

// Does what the words say, and gives the code of the answer.
fn answer(rt: HostRuntime) -> Option<u8> {
    let alloc = rt.alloc();
    let words: Vec<String> = env::args(&rt).ok()?.skip(1).collect(alloc).ok()?;
    let (how, rest) = words.split_first()?;
    let (held, rest) = split(rest);
    let (made, command) = split(rest);
    let mut files = FileDepot::new(rt);
    let mut depot = depot_of(alloc, &mut files, how.as_str(), held)?;
    let code = run(alloc, command, &mut depot).code();
    tell_counts(&rt, &depot);
    put_out(&mut files, &depot, made)?;
    Some(code)
}

fn main(rt: HostRuntime) -> ExitCode {
    ExitCode::from(answer(rt).unwrap_or(LOST))
}
