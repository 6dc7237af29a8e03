//! Measures single layers on inputs that it makes in memory, and prints how long each took. `make bench` runs it.
#![tactic(auto)]

mod agreeing;
mod layouts;
mod memory;
mod reading;
mod records;
mod shapes;
mod uniting;
mod walking;

use agreeing::{Agreement, sweep_each_way};
use reading::{time_gds, time_oasis};
use std::alloc::Global;
use std::process::ExitCode;
use std::{env, io};
use uniting::{Figure, Way, unite};
use walking::time_walks;

/// No input is larger than this.
const MOST: u32 = 16_000_000;

/// What the words ask for.
enum Task {
    /// A figure, united.
    Unite(Figure, Way),
    /// A GDSII file of this many squares.
    Gds(u32),
    /// OASIS records and files of this many rectangles, with all their fields and with their places alone.
    Oasis(u32),
    /// Walks over a flat cell of this many squares a side, an array of this many cells a side, and nested arrays.
    Walk(u16),
    /// So many random cases, swept in each way.
    Agree(u32),
}

fn count_of(word: &str) -> Option<u32> {
    let count: u32 = word.parse().ok()?;
    if count > MOST {
        return None;
    }
    Some(count)
}

fn task_of(kind: &str, count: u32) -> Option<Task> {
    match kind {
        "walk" => Some(Task::Walk(count.min(2000) as u16)),
        "agree" => Some(Task::Agree(count)),
        "gds" => Some(Task::Gds(count)),
        "oasis" => Some(Task::Oasis(count)),
        _ => Some(Task::Unite(Figure::named(kind, count)?, Way::Usual)),
    }
}

fn one_sweep_of(word: &str, kind: &str, count: u32) -> Option<Task> {
    match word {
        "plain" => Some(Task::Unite(Figure::named(kind, count)?, Way::Plain)),
        "plane" => Some(Task::Unite(Figure::named(kind, count)?, Way::Plane)),
        _ => None,
    }
}

fn asked(words: &[String]) -> Option<Task> {
    match words {
        [kind, count] => task_of(kind.as_str(), count_of(count.as_str())?),
        [word, kind, count] => {
            one_sweep_of(word.as_str(), kind.as_str(), count_of(count.as_str())?)
        }
        _ => None,
    }
}

fn compare(rt: &HostRuntime, alloc: Global, count: u32) -> io::Result<()> {
    match sweep_each_way(alloc, count) {
        Agreement::All(traps) => println!(rt;
            "agree: {count} cases, {traps} maximal trapezoids each way"
        ),
        Agreement::NotIn(number) => println!(rt; "agree: case {number} differs"),
        Agreement::Unknown => println!(rt; "agree: want of memory"),
    }
}

fn measure(rt: &HostRuntime, alloc: Global, task: Task) -> io::Result<()> {
    match task {
        Task::Unite(figure, way) => unite(rt, figure, way),
        Task::Gds(count) => time_gds(rt, alloc, count),
        Task::Oasis(count) => time_oasis(rt, alloc, count),
        Task::Walk(side) => time_walks(rt, side),
        Task::Agree(count) => compare(rt, alloc, count),
    }
}

fn run(rt: &HostRuntime) -> io::Result<()> {
    let alloc = rt.alloc();
    let Ok(words) = env::args(rt)?.skip(1).collect::<Vec<String>>(alloc) else {
        return Ok(());
    };
    match asked(words.as_slice()) {
        Some(task) => measure(rt, alloc, task),
        None => println!(rt;
            "words: [plain or plane] squares or hatch SIDE, [plain or plane] random, comb, pile, wires, leaning, jogs or mixed COUNT, walk SIDE, gds, oasis or agree COUNT; up to {MOST}"
        ),
    }
}

fn main(rt: HostRuntime) -> ExitCode {
    match run(&rt) {
        Ok(()) => ExitCode::SUCCESS,
        Err(_) => ExitCode::FAILURE,
    }
}
