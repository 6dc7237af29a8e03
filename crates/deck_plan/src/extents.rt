//! Rows outside of which areas are empty.
ghost use Rattle.std.specs.Prelude.{◌≡◌, ◌<◌, ◌≤◌, ◌+◌, ◌*◌, ◌^◌, pos, ◌≤ℤ◌, ◌+ℤ◌, ◌-ℤ◌, ℕ, length, slice_get, get_or, slice_set, Some, None, IfSome, All, Contains};
ghost use Rattle.std.specs.Int.{int_min, int_max};
ghost use Rattle.half_grid.specs.Windows.{row_range};
ghost use Rattle.cell_tree.specs.Boxes.{IsUpTo};
ghost use Rattle.half_grid.specs.declared.plane.Tile.{Tile};
ghost use Rattle.cell_tree.specs.Flattening.{IsInLayer};
ghost use Rattle.deck_text.specs.Sound.{IsFrame, IsSoundStep};
ghost use Rattle.deck_text.specs.declared.deck.Step.{Step as AStep};
ghost use Rattle.deck_plan.specs.Extents.{joined_rows, either_rows, shared_rows, both_rows, wider_rows, frame_rows, derived_rows, rows_at, AreExtents, AreRowsOf, IsInRowsOf, IsRowsUpTo};

use crate::needs::{Taken, operands_of, step_at};
use crate::windows::widened;
use cell_tree::Tree;
use deck_text::{Deck, Step};
use half_grid::{Frame, Window};
use layout_model::Pair;

/// The rows of two windows and those between them.
fn joined_rows(a: Window, b: Window) -> Window
    ensures { result ≡ joined_rows a b }
{
    match Window::new(a.y0().min(b.y0()), a.y1().max(b.y1())) {
        Some(window) => window,
        None => unreachable!(),
    }
}

/// The rows of two areas, where they have some.
pub(crate) fn either_rows(a: Option<Window>, b: Option<Window>) -> Option<Window>
    ensures { result ≡ either_rows a b }
{
    match (a, b) {
        (None, _) => b,
        (Some(_), None) => a,
        (Some(first), Some(second)) => Some(joined_rows(first, second)),
    }
}

fn later_start(a: Window, b: Window) -> i64
    ensures { result ≡ int_max a.y0 b.y0 }
{
    a.y0().max(b.y0())
}

fn earlier_end(a: Window, b: Window) -> i64
    ensures { result ≡ int_min a.y1 b.y1 }
{
    a.y1().min(b.y1())
}

// The rows that are in both windows, which may be none.
fn shared_rows(a: Window, b: Window) -> Option<Window>
    ensures { result ≡ shared_rows a b }
{
    Window::new(later_start(a, b), earlier_end(a, b))
}

/// The rows of what two areas share, where they have some.
pub(crate) fn both_rows(a: Option<Window>, b: Option<Window>) -> Option<Window>
    ensures { result ≡ both_rows a b }
{
    match (a, b) {
        (Some(first), Some(second)) => shared_rows(first, second),
        _ => None,
    }
}

/// The rows of an area that grows.
pub(crate) fn wider_rows(a: Option<Window>, by: i64) -> Option<Window>
    requires near { IfSome a (IsRowsUpTo (2 ^ 31)) }
    requires some { pos 0 ≤ℤ by }
    requires few { by ≤ℤ pos 65536 }
    ensures { result ≡ wider_rows by a }
{
    match a {
        Some(window) => Some(widened(window, by)),
        None => None,
    }
}

/// The rows of a frame.
pub(crate) fn frame_rows(frame: &Frame) -> Option<Window>
    ensures { result ≡ frame_rows frame.now }
{
    Window::new(frame.y0, frame.y1)
}

// The rows of a layer.
fn layer_rows(tree: &Tree, pair: Pair) -> Option<Window>
    ensures outside { (t : Tile) → IsInLayer tree.now.layout.cells tree.now.top pair t → IsInRowsOf result t }
    ensures near { IfSome result (IsRowsUpTo (2 ^ 30)) }
{
    let _cells = tree.cells();
    match tree.hull(tree.top(), pair) {
        Some(hull) => frame_rows(&hull),
        None => None,
    }
}

/// For each definition of a deck, up to some, rows outside of which its area is empty; none where it is empty.
#[derive(Debug, Drop)]
pub(crate) struct Extents {
    pub(crate) by_name: [Option<Window>; 256],
}

// The rows of a step that isn't a layer, by those of its operands. A layer has none here.
fn derived_rows(
    frame: Option<Frame>,
    step: &Step,
    first: Option<Window>,
    second: Option<Window>,
) -> Option<Window>
    requires near { IfSome first (IsRowsUpTo (2 ^ 31)) }
    requires sound { (n : ℕ) × IsSoundStep frame n step.now }
    ensures { result ≡ derived_rows frame step.now first second }
{
    match step {
        Step::Layer(_) => None,
        Step::Or(_, _) => either_rows(first, second),
        Step::And(_, _) => both_rows(first, second),
        Step::Sub(_, _) => first,
        Step::Xor(_, _) => either_rows(first, second),
        Step::Grow(_, _, dy) => wider_rows(first, *dy),
        Step::Shrink(_, _, _) => first,
        Step::Invert(_) => match frame {
            Some(frame) => frame_rows(&frame),
            None => None,
        },
        Step::Mirror(_, _) => first,
    }
}

impl Extents {
    // The rows of an operand.
    fn at(&self, operand: Option<Taken>) -> Option<Window>
        requires { IfSome operand (λ operand. operand.name < 256) }
        ensures { result ≡ rows_at self.now.by_name operand }
    {
        match operand {
            Some(operand) => self.by_name[operand.name],
            None => None,
        }
    }

    // The rows of a definition, by those of the definitions before it.
    fn of_step(&self, tree: &Tree, frame: Option<Frame>, step: &Step) -> Option<Window>
        requires sound { (n : ℕ) × (n < 256) × IsSoundStep frame n step.now }
        requires near { (n : ℕ) → IfSome (get_or self.now.by_name n None) (IsRowsUpTo (2 ^ 31)) }
        ensures { AreRowsOf tree.now.layout.cells tree.now.top frame self.now.by_name step.now result }
    {
        if let Step::Layer(pair) = step {
            return layer_rows(tree, *pair);
        }
        let operands = operands_of(step);
        derived_rows(
            frame,
            step,
            self.at(operands.first),
            self.at(operands.second),
        )
    }

    /// The rows of this many first definitions of a deck.
    pub(crate) fn of(deck: &Deck, tree: &Tree, count: usize) -> Extents
        requires count { count ≤ length deck.now.steps }
        requires few { length deck.now.steps ≤ 256 }
        requires sound { (k : ℕ) (step : AStep) → slice_get deck.now.steps k ≡ Some step → IsSoundStep deck.now.frame k step }
        requires frame { IfSome deck.now.frame IsFrame }
        ensures { AreExtents tree.now.layout.cells tree.now.top deck.now count result.by_name }
    {
        let steps = deck.steps.as_slice();
        let mut extents = Extents {
            by_name: [None; 256],
        };
        let mut number = 0;
        while number < count {
            let step = step_at(steps, number);
            extents.by_name[number] = extents.of_step(tree, deck.frame, &step);
            number += 1;
        }
        extents
    }
}
