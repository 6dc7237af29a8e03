//! A list that grows at its end.
ghost use Rattle.std.specs.Prelude.{◌≡◌, ◌<◌, [], ◌∷◌, ◌++◌, length, slice_get, Some, OnOk, OnErr};
ghost use Rattle.std.specs.Borrow.{sem};
ghost use Rattle.geo_stream.specs.Lending.{LendsItem};

use crate::NoMemory;
use std::alloc::Global;
use std::marker::Model;

/// A list of items, kept in a `Vec` and seen by contracts as the list of its items.
#[derive(Debug, Drop)]
pub struct List<T> {
    items: Vec<T>,
}

impl<T> Model for List<T> {
    ghost use Rattle.std.specs.Prelude.{List as Items};

    ghost Value = { Items T };

    ghost view = { λ list. list.items.items };
}

impl<T> List<T> {
    /// The empty list. It takes no memory.
    pub fn new(alloc: Global) -> List<T>
        ensures { result ≡ [] }
    {
        List {
            items: Vec::new(alloc),
        }
    }

    /// Puts the item last. Refused, the list is as before, and the item is let go.
    pub fn push(&mut self, item: T) -> Result<(), NoMemory>
    where
        T: Drop,
        ensures ok { OnOk result (self.new ≡ self.old ++ item ∷ []) }
        ensures err { OnErr result (self.new ≡ self.old) }
    {
        self.items.push(item)?;
        Ok(())
    }

    /// Item `k`, counted from 0, to be changed in its place.
    pub fn item_mut(&mut self, k: usize) -> &mut T
        requires { k < length self.old }
        ensures value { slice_get self.old k ≡ Some result.now }
        ensures* writes_back { sem 𝓛 (LendsItem T.row self.entry k result) }
    {
        &mut self.items[k]
    }

    /// The items in order.
    pub fn as_slice(&self) -> &[T]
        ensures { result.now ≡ self.now }
    {
        self.items.as_slice()
    }
}
