//! The rows of each definition on which an output depends.
ghost use Rattle.std.specs.Prelude.{◌≡◌, ◌<◌, ◌≤◌, ◌^◌, ◌+ℤ◌, ◌≤ℤ◌, ◌++◌, ℕ, pos, List, length, slice_get, slice_set, get_or, Some, None, IfSome};
ghost use Rattle.std.specs.Option.{option_to_list};
ghost use Rattle.half_grid.specs.Reach.{IsWithinReach};
ghost use Rattle.deck_text.specs.Sound.{IsSoundStep};
ghost use Rattle.deck_text.specs.declared.deck.Step.{Step as AStep};
ghost use Rattle.deck_text.specs.declared.deck.Deck.{Deck as ADeck};
ghost use Rattle.deck_plan.specs.Needs.{operands_of};
ghost use Rattle.deck_plan.specs.declared.needs.Need.{Need as ANeed};
ghost use Rattle.deck_plan.specs.Ready.{ends_at};
ghost use Rattle.deck_plan.specs.OwnLayers.{is_only};
ghost use Rattle.deck_plan.specs.Halos.{AreHalos, IsSoundOperand, NeedIs, passed, raised, raised_at, window_for};

use crate::windows::{no_rows, widened};
use deck_text::{Deck, Step};
use half_grid::Window;

/// An operand of a step, and how many rows beyond a row of the step its area is looked at.
#[derive(Clone, Copy, Debug)]
pub(crate) struct Taken {
    pub(crate) name: usize,
    pub(crate) halo: i64,
}

/// The operands of a step.
#[derive(Clone, Copy, Debug)]
pub(crate) struct Operands {
    pub(crate) first: Option<Taken>,
    pub(crate) second: Option<Taken>,
}

/// What an output needs of a definition that it uses.
#[derive(Clone, Copy, Debug)]
pub(crate) struct Need {
    /// How many rows beyond those of the band on both sides.
    pub(crate) halo: i64,
    /// The last definition that takes this one, or the output's own.
    pub(crate) last: usize,
    /// Whether it is more than one operand.
    pub(crate) shared: bool,
}

/// What an output needs of each definition, by number; nothing of those that it doesn't use.
#[derive(Debug, Drop)]
pub(crate) struct Needs {
    pub(crate) by_name: [Option<Need>; 256],
}

// An operand of which the rows of the step alone are looked at.
fn level(name: usize) -> Option<Taken>
    ensures { result ≡ Some (record { name = name; halo = pos 0 }) }
{
    Some(Taken { name, halo: 0 })
}

fn two(a: usize, b: usize) -> Operands
    ensures first { result.first ≡ Some (record { name = a; halo = pos 0 }) }
    ensures second { result.second ≡ Some (record { name = b; halo = pos 0 }) }
{
    Operands {
        first: level(a),
        second: level(b),
    }
}

fn one(name: usize, halo: i64) -> Operands
    ensures first { result.first ≡ Some (record { name = name; halo = halo }) }
    ensures second { result.second ≡ None }
{
    Operands {
        first: Some(Taken { name, halo }),
        second: None,
    }
}

/// The operands of a step.
pub(crate) fn operands_of(step: &Step) -> Operands
    ensures list { option_to_list result.first ++ option_to_list result.second ≡ operands_of step.now }
    ensures first { result.first ≡ slice_get (operands_of step.now) 0 }
    ensures second { result.second ≡ slice_get (operands_of step.now) 1 }
{
    match step {
        Step::Layer(_) => Operands {
            first: None,
            second: None,
        },
        Step::Or(a, b) => two(*a, *b),
        Step::And(a, b) => two(*a, *b),
        Step::Sub(a, b) => two(*a, *b),
        Step::Xor(a, b) => two(*a, *b),
        Step::Grow(a, _, dy) => one(*a, *dy),
        Step::Shrink(a, _, dy) => one(*a, *dy),
        Step::Invert(a) => one(*a, 0),
        Step::Mirror(a, _) => one(*a, 0),
    }
}

// The need of an operand that the definition `user` asks so many rows beyond the band.
fn raised(need: Option<Need>, halo: i64, user: usize) -> Need
    ensures { result ≡ raised need halo user }
{
    match need {
        Some(need) => Need {
            halo: need.halo.max(halo),
            last: need.last,
            shared: true,
        },
        None => Need {
            halo,
            last: user,
            shared: false,
        },
    }
}

/// The step of a definition.
pub(crate) fn step_at(steps: &[Step], number: usize) -> Step
    requires { number < length steps.now }
    ensures { slice_get steps.now number ≡ Some result }
{
    steps[number]
}

impl Needs {
    // An operand of the definition `user`, of which so much is asked itself.
    fn raise(&mut self, operand: Taken, asked: Need, user: usize)
        requires name { operand.name < 256 }
        requires low { pos 0 ≤ℤ asked.halo }
        requires high { asked.halo ≤ℤ pos (2 ^ 40) }
        requires operand_low { pos 0 ≤ℤ operand.halo }
        requires operand_high { operand.halo ≤ℤ pos 65536 }
        ensures { self.new.by_name ≡ raised_at self.old.by_name operand.name (asked.halo +ℤ operand.halo) user }
    {
        let need = raised(self.by_name[operand.name], asked.halo + operand.halo, user);
        self.by_name[operand.name] = Some(need);
    }

    // What the definition `user` takes, where it is needed itself.
    fn pass(&mut self, operands: Operands, user: usize)
        requires user { user < 256 }
        requires first { IfSome operands.first (IsSoundOperand user) }
        requires second { IfSome operands.second (IsSoundOperand user) }
        requires halo { (need : ANeed) → NeedIs self.old.by_name user need → (pos 0 ≤ℤ need.halo) × (need.halo ≤ℤ pos (2 ^ 40)) }
        ensures { self.new.by_name ≡ passed self.old.by_name user (option_to_list operands.first ++ option_to_list operands.second) }
    {
        let Some(need) = self.by_name[user] else {
            return;
        };
        if let Some(operand) = operands.first {
            self.raise(operand, need, user);
        }
        if let Some(operand) = operands.second {
            self.raise(operand, need, user);
        }
    }

    /// What an output that names this definition needs of each.
    pub(crate) fn of(deck: &Deck, name: usize) -> Needs
        requires name { name < length deck.now.steps }
        requires few { length deck.now.steps ≤ 256 }
        requires sound { (k : ℕ) (step : AStep) → slice_get deck.now.steps k ≡ Some step → IsSoundStep deck.now.frame k step }
        ensures { AreHalos deck.now name 0 result.by_name }
    {
        let steps = deck.steps.as_slice();
        let mut needs = Needs {
            by_name: [None; 256],
        };
        needs.by_name[name] = Some(Need {
            halo: 0,
            last: name,
            shared: false,
        });
        let mut number = name + 1;
        while 0 < number {
            number -= 1;
            let step = step_at(steps, number);
            needs.pass(operands_of(&step), number);
        }
        needs
    }

    /// Whether the definition `user` is the last that takes this one.
    pub(crate) fn ends_at(&self, name: usize, user: usize) -> bool
        requires { name < 256 }
        ensures { result ≡ ends_at (get_or self.now.by_name name None) user }
    {
        match self.by_name[name] {
            Some(need) => need.last == user,
            None => false,
        }
    }

    /// Whether the definition `user` alone takes this one, and once.
    pub(crate) fn is_only(&self, name: usize, user: usize) -> bool
        requires { name < 256 }
        ensures { result ≡ is_only (get_or self.now.by_name name None) user }
    {
        match self.by_name[name] {
            Some(need) => need.last == user && !need.shared,
            None => false,
        }
    }

    /// The rows of a definition for a band: none where it isn't needed.
    pub(crate) fn window(&self, name: usize, band: Window) -> Window
        requires name { name < 256 }
        requires low { IsWithinReach band.y0 }
        requires high { IsWithinReach band.y1 }
        requires halo { (need : ANeed) → NeedIs self.now.by_name name need → (pos 0 ≤ℤ need.halo) × (need.halo ≤ℤ pos (2 ^ 40)) }
        ensures { result ≡ window_for band (get_or self.now.by_name name None) }
    {
        match self.by_name[name] {
            Some(need) => widened(band, need.halo),
            None => no_rows(),
        }
    }
}
