//! The size of fields, and the stripes of rows.
ghost use Rattle.std.specs.Prelude.{◌≡◌, SomeIff};
ghost use Rattle.field_split.specs.Fields.{IsFieldSize, IsInStretch};

use std::marker::Model;

/// Square fields of one size, 16 to 16,777,216 half units. Contracts see the size.
#[derive(Clone, Copy, Debug, PartialEq, Eq)]
pub struct Fields {
    size: i64,
}

impl Model for Fields {
    ghost use Rattle.std.specs.Prelude.{ℤ};
    ghost use Rattle.field_split.specs.Fields.{IsFieldSize};

    ghost Value = { ℤ };

    ghost view = { λ fields. fields.size };

    ghost invariant = { λ fields. IsFieldSize fields.size };

    ghost inverse = { λ size. record { size = size } };
}

impl Fields {
    /// The fields of this size. None exactly where the size is out of range.
    pub fn new(size: i64) -> Option<Fields>
        ensures { SomeIff result (IsFieldSize size) size }
    {
        if size < 16 || 16_777_216 < size {
            return None;
        }
        Some(Fields { size })
    }

    /// How wide and how high a field is.
    pub fn size(&self) -> i64
        ensures value { result ≡ self.now }
        ensures range { IsFieldSize result }
    {
        self.size
    }

    /// The stripe of the row `y`.
    pub fn stripe_of(&self, y: i64) -> i64
        ensures { IsInStretch self.now result y }
    {
        y.div_euclid(self.size())
    }
}
