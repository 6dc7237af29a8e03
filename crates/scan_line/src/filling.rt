//! The runs of a row, from its edges.
ghost use Rattle.std.specs.Prelude.{◌≡◌, ◌↔◌, ◌<◌, ◌≤◌, ◌++◌, ◌∷◌, ℤ, List, [], Option, All, IsTrue, false, length, vec_len, vec_capacity};
ghost use Rattle.half_grid.specs.declared.border.Operand.{Operand};
ghost use Rattle.scan_line.specs.Actives.{AreInOrder};
ghost use Rattle.scan_line.specs.OpenRuns.{IsOpen, run_between, ended_at, open_after, ends_at};
ghost use Rattle.scan_line.specs.Rules.{IsRule};
ghost use Rattle.scan_line.specs.Runs.{AreRuns};
ghost use Rattle.scan_line.specs.Windings.{BeginsOn, HasLinesOf, IsEven};

use crate::rule::Rule;
use crate::runs::Run;
use crate::sums::{Windings, takes};
use half_grid::{Edge, Line};

// Whether the first of the edges lies on the line.
#[inline]
fn goes_on(line: Line, edges: &[Edge]) -> bool
    ensures { IsTrue result ↔ BeginsOn line edges.now }
{
    match edges.first() {
        Some(next) => next.line() == line,
        None => false,
    }
}

// Begins a run at the line.
#[inline]
fn begin(runs: &mut Vec<Run>, line: Line, windings: Windings)
    requires { vec_len runs.old < vec_capacity runs.old }
    ensures items { runs.new.items ≡ runs.old.items ++ run_between line line windings ∷ [] }
    ensures room { vec_capacity runs.new ≡ vec_capacity runs.old }
{
    runs.push_reserved(Run {
        left: line,
        right: line,
        a: i128::from(windings.a),
        b: i128::from(windings.b),
    });
}

// Ends the last run at the line.
#[inline]
fn end(runs: &mut Vec<Run>, line: Line)
    ensures items { (done : List Run) (run : Run) → runs.old.items ≡ done ++ run ∷ [] → runs.new.items ≡ done ++ ended_at line run ∷ [] }
    ensures room { vec_capacity runs.new ≡ vec_capacity runs.old }
{
    if let Some(run) = runs.last_mut() {
        run.right = line;
    }
}

// At the last edge of a line: a run begins there, goes on, or ends. The last run is one that is open where `inside`.
#[inline]
fn turn(runs: &mut Vec<Run>, inside: bool, line: Line, windings: Windings, taken: bool)
    requires { inside ≡ false → vec_len runs.old < vec_capacity runs.old }
    ensures items { (done : List Run) (run : Option Run) → IsOpen runs.old.items inside done run → IsOpen runs.new.items taken (done ++ ends_at line run taken) (open_after line windings run taken) }
    ensures room { vec_capacity runs.new ≡ vec_capacity runs.old }
{
    if taken {
        if !inside {
            begin(runs, line, windings);
        }
        return;
    }
    if inside {
        end(runs, line);
    }
}

/// Puts the runs that the rule takes among edges in order into `runs`, in place of what was there.
pub(crate) fn fill<F: Fn(i128, i128) -> bool>(runs: &mut Vec<Run>, edges: &[Edge], rule: &Rule<F>)
    requires rule { IsRule (F.pre rule.now) (F.post rule.now) }
    requires balanced { (o : Operand) → IsEven edges.now o }
    requires room { length edges.now ≤ vec_capacity runs.old }
    ensures rows { (j : ℤ) → AreInOrder j edges.now → AreRuns (F.post rule.now) edges.now j runs.new.items }
    ensures lines { All (HasLinesOf edges.now) runs.new.items }
    ensures room { vec_capacity runs.new ≡ vec_capacity runs.old }
{
    runs.clear();
    let mut windings = Windings::none();
    let mut inside = false;
    let mut left = edges;
    while let Some((edge, rest)) = left.split_first() {
        windings = windings.past(edge);
        if !goes_on(edge.line(), rest) {
            let taken = takes(rule, windings);
            turn(runs, inside, edge.line(), windings, taken);
            inside = taken;
        }
        left = rest;
    }
}
