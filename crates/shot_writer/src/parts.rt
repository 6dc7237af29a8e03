//! What a shot file is made of: its head, its records, and the sums of what was written.
ghost use Rattle.std.specs.Prelude.{◌≡◌, ◌^◌, ◌<◌, ◌≤◌};
ghost use Rattle.oas_lex.specs.ShotText.{spelling_of};
ghost use Rattle.shot_writer.specs.Writing.{triangles_in};

use half_grid::{Trap, size_of};
use layout_model::Pair;
use oas_lex::{Spell, spell_shot};

/// What the head of a shot file and its records have in common.
#[derive(Clone, Copy, Debug, PartialEq, Eq)]
pub struct Head {
    /// How many half units a micron has, as the head states it: twice the number of grid steps in a micron.
    pub unit: u32,
    /// The layer and the datatype of each record.
    pub pair: Pair,
}

/// How much was written.
#[derive(Clone, Copy, Debug, PartialEq, Eq)]
pub struct Sums {
    /// The number of shots.
    pub shots: u128,
    /// The number of their triangles.
    pub triangles: u128,
}

/// The record of one shot for a layer and a datatype, in its one spelling.
pub fn encode(trap: &Trap, pair: Pair) -> Spell
    requires layer { pair.layer < 2 ^ 63 }
    requires datatype { pair.datatype < 2 ^ 63 }
    ensures { result ≡ spelling_of pair.layer pair.datatype trap.now }
{
    spell_shot(trap, pair.layer, pair.datatype)
}

/// How many triangles a shot has.
pub fn triangles_in(trap: &Trap) -> u128
    ensures value { result ≡ triangles_in trap.now }
    ensures some { 0 < result }
    ensures few { result ≤ 2 ^ 91 }
{
    let _bottom = trap.y0();
    size_of(trap)
}
