//! Random cases that are swept in each way: as the program does it, slab by slab, and from one change to the next.
ghost use Rattle.std.specs.Prelude.{◌≡◌, ◌&&◌, ◌||◌, not, pos};
ghost use Rattle.std.specs.Ordering.{int_eq};
ghost use Rattle.scan_line.specs.Rules.{IsRule};
ghost use Rattle.scan_line.specs.Runs.{IsBalanced};

use crate::shapes::slanted;
use bool_ops::{Op, combine};
use column_sweep::{operand_edges, plain};
use geo_stream::NoMemory;
use half_grid::{Edge, Trap, Window};
use plane_sweep::swept;
use scan_line::Rule;
use std::alloc::{AllocError, Global};

/// What came of the cases.
#[derive(Clone, Copy, PartialEq, Eq)]
pub(crate) enum Agreement {
    /// Each gave the same list in each way, and this many trapezoids in all.
    All(u64),
    /// The case of this number didn't.
    NotIn(u32),
    /// Memory ran out.
    Unknown,
}

/// Two lists of trapezoids.
#[derive(Drop)]
struct Case {
    a: Vec<Trap>,
    b: Vec<Trap>,
}

/// How a case is swept.
#[derive(Clone, Copy)]
enum Way {
    /// Slab by slab, in one sweep of the whole window.
    Plain,
    /// By a sweep that looks only where something changes.
    Plane,
}

fn swept_by<F: Fn(i128, i128) -> bool + Drop>(
    way: Way,
    alloc: Global,
    edges: Vec<Edge>,
    window: Window,
    rule: Rule<F>,
) -> Result<Vec<Trap>, NoMemory>
    requires rule { IsRule (F.pre rule) (F.post rule) }
    requires balanced { IsBalanced edges.items window }
{
    match way {
        Way::Plain => plain(alloc, edges, window, &rule),
        Way::Plane => swept(alloc, edges, window, rule),
    }
}

// The window's tiles of either list, of both, or of the first alone.
fn taken_by(
    way: Way,
    alloc: Global,
    op: Op,
    case: &Case,
    window: Window,
) -> Result<Vec<Trap>, NoMemory> {
    let edges = operand_edges(alloc, case.a.as_slice(), case.b.as_slice(), window)?;
    match op {
        Op::Or => {
            let either = Rule::new(
                |a: i128, b: i128| -> bool
                    ensures { result ≡ (not (int_eq a (pos 0)) || not (int_eq b (pos 0))) }
                { a != 0 || b != 0 },
            );
            swept_by(way, alloc, edges, window, either)
        }
        Op::And => {
            let both = Rule::new(
                |a: i128, b: i128| -> bool
                    ensures { result ≡ (not (int_eq a (pos 0)) && not (int_eq b (pos 0))) }
                { a != 0 && b != 0 },
            );
            swept_by(way, alloc, edges, window, both)
        }
        Op::Sub | Op::Xor => {
            let first = Rule::new(
                |a: i128, b: i128| -> bool
                    ensures { result ≡ (not (int_eq a (pos 0)) && int_eq b (pos 0)) }
                { a != 0 && b == 0 },
            );
            swept_by(way, alloc, edges, window, first)
        }
    }
}

fn op_of(number: u32) -> Op {
    match number % 3 {
        0 => Op::Or,
        1 => Op::And,
        _ => Op::Sub,
    }
}

// How many trapezoids the case has, where all lists are the same.
fn agrees(
    alloc: Global,
    number: u32,
    case: &Case,
    window: Window,
) -> Result<Option<u64>, NoMemory> {
    let op = op_of(number);
    let columns = combine(alloc, op, case.a.as_slice(), case.b.as_slice(), window)?;
    for way in [Way::Plain, Way::Plane] {
        let others = taken_by(way, alloc, op, case, window)?;
        if columns.as_slice() != others.as_slice() {
            return Ok(None);
        }
    }
    Ok(Some(columns.len() as u64))
}

// The case that begins with this number, and the number from which the next begins.
fn case_from(alloc: Global, state: u64) -> Result<(Case, u64), AllocError> {
    let (a, after_a) = slanted(alloc, 1500, state)?;
    let (b, after_b) = slanted(alloc, 500, after_a)?;
    Ok((Case { a, b }, after_b))
}

/// Sweeps this many random cases in each way.
pub(crate) fn sweep_each_way(alloc: Global, count: u32) -> Agreement {
    let Some(window) = Window::new(-10, 1000) else {
        return Agreement::Unknown;
    };
    let mut state = 3u64;
    let mut all = 0u64;
    for number in 0..count {
        let Ok((case, later)) = case_from(alloc, state) else {
            return Agreement::Unknown;
        };
        state = later;
        match agrees(alloc, number, &case, window) {
            Ok(Some(some)) => all = all.saturating_add(some),
            Ok(None) => return Agreement::NotIn(number),
            Err(_) => return Agreement::Unknown,
        }
    }
    Agreement::All(all)
}
