//! Why a call that reads or judges gives nothing.
use crate::NoMemory;

/// Why there is no answer: what was looked at has a fault, or memory ran out before it was known whether it has one.
#[derive(Debug, PartialEq, Eq, Drop)]
pub enum Refusal<F> {
    /// What was looked at has this fault.
    Fault(F),
    /// Memory ran out.
    NoMemory,
}

impl<F> From<NoMemory> for Refusal<F> {
    ghost use Rattle.std.specs.Prelude.{◌≡◌};
    ghost use Rattle.geo_stream.specs.declared.refusal.Refusal.TheVariants.{NoMemory as Wanting};

    ghost from_gives = { λ _ refusal. refusal ≡ Wanting };

    fn from(_wanting: NoMemory) -> Refusal<F> {
        Refusal::NoMemory
    }
}
