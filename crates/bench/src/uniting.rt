//! Areas of trapezoids, united as the program does it, by one plain sweep, and by one plane sweep.
ghost use Rattle.std.specs.Prelude.{◌≡◌, ◌||◌, not, pos};
ghost use Rattle.std.specs.Ordering.{int_eq};
ghost use Rattle.scan_line.specs.Rules.{IsRule};

use crate::memory::greatest_memory;
use crate::shapes;
use column_sweep::{Swept, operand_edges, swept_counted};
use geo_stream::NoMemory;
use half_grid::{Trap, Window};
use scan_line::{Rule, Scan};
use std::alloc::{AllocError, Global};
use std::io;
use std::time::Instant;
use trap_join::Join;

/// The trapezoids that are united.
#[derive(Clone, Copy)]
pub(crate) enum Figure {
    /// A square array of this many squares a side.
    Squares(u32),
    /// So many random rectangles.
    Random(u32),
    /// So many tall rectangles, all alive at once.
    Comb(u32),
    /// So many upright bars, and as many level ones across them.
    Hatch(u32),
    /// So many squares round one point.
    Pile(u32),
    /// So many random rectangles, and upright wires over all of them.
    Wires(u32),
    /// So many long wires at 45 degrees.
    Leaning(u32),
    /// Wires with this many corners in all, each corner a jog.
    Jogs(u32),
    /// The same wires, their rectangles in an order in which neighbours don't follow one another.
    Mixed(u32),
}

/// How they are united.
#[derive(Clone, Copy)]
pub(crate) enum Way {
    /// As the program does it: in columns, or at once where that is cheap.
    Usual,
    /// By one sweep of the whole window, whatever it costs.
    Plain,
    /// By one sweep that looks only where something happens.
    Plane,
}

impl Figure {
    /// The figure of this name with this many shapes.
    pub(crate) fn named(kind: &str, count: u32) -> Option<Figure> {
        match kind {
            "squares" => Some(Figure::Squares(count.min(2000))),
            "random" => Some(Figure::Random(count)),
            "comb" => Some(Figure::Comb(count)),
            "hatch" => Some(Figure::Hatch(count.min(1000))),
            "pile" => Some(Figure::Pile(count.min(10_000))),
            "wires" => Some(Figure::Wires(count)),
            "leaning" => Some(Figure::Leaning(count.min(100_000))),
            "jogs" => Some(Figure::Jogs(count)),
            "mixed" => Some(Figure::Mixed(count)),
            _ => None,
        }
    }

    fn name(self) -> &'static str {
        match self {
            Figure::Squares(_) => "squares",
            Figure::Random(_) => "random",
            Figure::Comb(_) => "comb",
            Figure::Hatch(_) => "hatch",
            Figure::Pile(_) => "pile",
            Figure::Wires(_) => "wires",
            Figure::Leaning(_) => "leaning",
            Figure::Jogs(_) => "jogs",
            Figure::Mixed(_) => "mixed",
        }
    }

    fn traps(self, alloc: Global) -> Result<Vec<Trap>, AllocError> {
        match self {
            Figure::Squares(side) => shapes::squares(alloc, side),
            Figure::Random(count) => shapes::rectangles(alloc, count),
            Figure::Comb(count) => shapes::comb(alloc, count),
            Figure::Hatch(count) => shapes::hatch(alloc, count),
            Figure::Pile(count) => shapes::pile(alloc, count),
            Figure::Wires(count) => shapes::wires(alloc, count),
            Figure::Leaning(count) => shapes::leaning(alloc, count),
            Figure::Jogs(corners) => shapes::jogs(alloc, corners),
            Figure::Mixed(corners) => shapes::mixed(alloc, corners),
        }
    }
}

impl Way {
    // What stands before the figure's name.
    fn mark(self) -> &'static str {
        match self {
            Way::Usual => "",
            Way::Plain => "plain ",
            Way::Plane => "plane ",
        }
    }
}

// All trapezoids of a scan that gave no slab yet.
fn joined<F: Fn(i128, i128) -> bool + Drop>(alloc: Global, scan: Scan<F>) -> Result<Swept, NoMemory>
    requires rule { IsRule (F.pre scan.rule) (F.post scan.rule) }
    requires fresh { scan.y ≡ scan.window.y0 }
{
    let mut join = Join::begin(alloc, scan)?;
    let mut traps = Vec::new(alloc);
    while let Some(trap) = join.next()? {
        traps.push(trap)?;
    }
    let walked = join.walked();
    Ok(Swept { traps, walked })
}

// The window's tiles that some trapezoid has.
fn united(alloc: Global, way: Way, traps: &[Trap], window: Window) -> Result<Swept, NoMemory> {
    let edges = operand_edges(alloc, traps, &[], window)?;
    let either = Rule::new(
        |a: i128, b: i128| -> bool
            ensures { result ≡ (not (int_eq a (pos 0)) || not (int_eq b (pos 0))) }
        { a != 0 || b != 0 },
    );
    match way {
        Way::Usual => swept_counted(alloc, edges, window, either),
        Way::Plain => joined(alloc, Scan::begin(alloc, edges, window, either)?),
        Way::Plane => {
            let traps = plane_sweep::swept(alloc, edges, window, either)?;
            Ok(Swept { traps, walked: 0 })
        }
    }
}

// Unites the trapezoids, and prints how many maximal ones they have, how long it took and how many edges were gone
// over.
fn time(rt: &HostRuntime, figure: Figure, way: Way, traps: &[Trap]) -> io::Result<()> {
    let (mark, name) = (way.mark(), figure.name());
    let Some(window) = Window::new(-1_000_000_000, 1_000_000_000) else {
        return Ok(());
    };
    let start = Instant::now(rt)?;
    let Ok(whole) = united(rt.alloc(), way, traps, window) else {
        return println!(rt; "{mark}{name}: want of memory");
    };
    let nanoseconds = start.elapsed(rt)?.as_nanos();
    let walked = whole.walked;
    println!(rt;
        "{mark}{name}: {} shapes, {} maximal trapezoids, {} ms, {walked} walked edges, {} ns each, {} MB",
        traps.len(),
        whole.traps.len(),
        nanoseconds / 1_000_000,
        nanoseconds / u128::from(walked.max(1)),
        greatest_memory(rt)
    )
}

/// Makes the figure's trapezoids, and times how they are united.
pub(crate) fn unite(rt: &HostRuntime, figure: Figure, way: Way) -> io::Result<()> {
    match figure.traps(rt.alloc()) {
        Ok(traps) => time(rt, figure, way, traps.as_slice()),
        Err(_) => println!(rt; "{}{}: want of memory", way.mark(), figure.name()),
    }
}
