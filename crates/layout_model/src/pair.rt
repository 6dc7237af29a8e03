//! Layer and datatype of a shape.
ghost use Rattle.layout_model.specs.Pairs.{by_layer};
ghost use Rattle.layout_model.specs.declared.pair.Pair.{Pair as APair};
ghost use Rattle.std.specs.Prelude.{◌≡◌};

/// Layer and datatype of a shape. Pairs are ordered by layer, and those of one layer by datatype: the order of the
/// fields.
#[derive(Clone, Copy, Debug, PartialEq, Eq, PartialOrd, Ord, Hash)]
pub struct Pair {
    /// The layer's number.
    pub layer: u64,
    /// The datatype's number.
    pub datatype: u64,
}

/// Pairs are ordered by layer, and those of one layer by datatype: it holds of all pairs, and costs nothing.
pub fn pair_law()
    ensures { (p q : APair) → ⟦<Pair as Ord>⟧.cmp p q ≡ by_layer p q }
{}
