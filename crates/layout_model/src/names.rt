//! Names of cells.
ghost use Rattle.std.specs.Prelude.{◌≡◌, ◌≤◌, ◌↔◌, length, slice_index, EachIndex, IsTrue, IfOk, IsOk, Err};
ghost use Rattle.layout_model.specs.Names.{IsName, IsNameByte};
ghost use Rattle.layout_model.specs.declared.names.NameBad.TheVariants.{Form, NoMemory as Wanting};

use smallvec::SmallVec;
use std::alloc::{AllocError, Global};
use std::marker::Model;

// Names up to this length take no memory.
const INLINE: usize = 32;

/// The name of a cell: 1 to 1,024 bytes from 20 to 7E hex. Contracts see the list of the bytes, and names are compared
/// by their bytes.
#[derive(Debug, Drop)]
pub struct Name {
    bytes: SmallVec<u8, INLINE>,
}

impl Model for Name {
    ghost use Rattle.std.specs.Prelude.{ℕ, List};
    ghost use Rattle.layout_model.specs.Names.{IsName};

    ghost Value = { List ℕ };

    ghost view = { λ name. name.bytes.items };

    ghost invariant = { λ name. IsName name.bytes.items };
}

/// Why bytes are no name.
#[derive(Clone, Copy, Debug, PartialEq, Eq)]
pub enum NameBad {
    /// There aren't 1 to 1,024 bytes, or a byte isn't from 20 to 7E hex.
    Form,
    /// Memory ran out.
    NoMemory,
}

impl From<AllocError> for NameBad {
    ghost from_gives = { λ _ bad. bad ≡ Wanting };

    fn from(_refused: AllocError) -> NameBad {
        NameBad::NoMemory
    }
}

fn is_printable(bytes: &[u8]) -> bool
    ensures { IsTrue result ↔ EachIndex bytes.now (λ k. IsNameByte (slice_index bytes.now k)) }
{
    for byte in bytes {
        if *byte < 0x20 {
            return false;
        }
        if *byte > 0x7E {
            return false;
        }
    }
    true
}

/// Whether these bytes are a name: 1 to 1,024 of them, each from 20 to 7E hex. It takes no memory.
pub fn is_name(bytes: &[u8]) -> bool
    ensures { IsTrue result ↔ IsName bytes.now }
{
    if bytes.is_empty() {
        return false;
    }
    if bytes.len() > 1024 {
        return false;
    }
    is_printable(bytes)
}

impl Name {
    /// The name of these bytes. A name of at most 32 bytes takes no memory.
    pub fn new(alloc: Global, bytes: &[u8]) -> Result<Name, NameBad>
        ensures ok { IfOk result (λ name. (name ≡ bytes.now) × IsName bytes.now) }
        ensures form { (result ≡ Err Form) ↔ (IsName bytes.now → ⊥) }
        ensures short { length bytes.now ≤ 32 → IsName bytes.now → IsOk result }
    {
        if !is_name(bytes) {
            return Err(NameBad::Form);
        }
        let bytes = SmallVec::from_slice(alloc, bytes)?;
        Ok(Name { bytes })
    }

    /// Its bytes.
    pub fn bytes(&self) -> &[u8]
        ensures value { result.now ≡ self.now }
        ensures name { IsName result.now }
    {
        self.bytes.as_slice()
    }
}

impl PartialEq for Name {
    ghost use Rattle.std.specs.Prelude.{nat_eq};
    ghost use Rattle.std.specs.Cmp.Lexicographic.{nat_list_eq_equiv, pointwise};
    ghost use Rattle.std.specs.Cmp.{partial_equiv_from_equiv};

    ghost eq = { λ a b. pointwise nat_eq a b };

    ghost laws = { partial_equiv_from_equiv nat_list_eq_equiv };

    fn eq(&self, other: &Name) -> bool {
        self.bytes() == other.bytes()
    }
}

impl Eq for Name {
    ghost use Rattle.std.specs.Cmp.Lexicographic.{nat_list_eq_equiv};

    ghost laws = { nat_list_eq_equiv };
}
