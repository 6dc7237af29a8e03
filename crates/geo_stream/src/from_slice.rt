//! The items of a slice, one by one.
ghost use Rattle.std.specs.Prelude.{◌≡◌, ◌^◌, ◌<◌, length, ⊤};
ghost use Rattle.geo_stream.specs.Laws.FromSlice.{FromSlice-one_list, FromSlice-no_longer, FromSlice-bounded};

use crate::Stream;
use std::alloc::AllocError;

/// The items of a slice in order.
#[derive(Debug)]
pub struct FromSlice<'a, T> {
    items: &'a [T],
    ghost fits: { length items.now < 2 ^ 64 },
}

impl<'a, T> Clone for FromSlice<'a, T> {
    ghost is_clone = { λ stream copy. copy ≡ stream };

    ghost is_infallible = { λ _. ⊤ };

    fn clone(&self) -> Result<FromSlice<'a, T>, AllocError> {
        Ok(*self)
    }
}

impl<'a, T> Copy for FromSlice<'a, T> {}

impl<'a, T: Copy> FromSlice<'a, T> {
    /// A stream of the items of the slice.
    pub fn new(items: &'a [T]) -> FromSlice<'a, T>
        ensures items { result.items ≡ items.entry }
        ensures list { ⟦<FromSlice<'a, T> as Stream>⟧.stands_for result items.entry.now }
    {
        FromSlice { items }
    }
}

impl<'a, T: Copy> Stream for FromSlice<'a, T> {
    type Item = T;

    ghost stands_for = { λ stream items. items ≡ stream.items.now };

    ghost size = { λ stream. length stream.items.now };

    ghost most = { 2 ^ 64 };

    fn next(&mut self) -> Option<T> {
        let (first, rest) = self.items.split_first()?;
        self.items = rest;
        Some(*first)
    }

    ghost one_list = { λ stream. FromSlice-one_list stream.items.now };

    ghost no_longer = { λ stream. FromSlice-no_longer stream.items.now };

    ghost bounded = { λ stream xs p. FromSlice-bounded (length stream.items.now) (2 ^ 64) stream.fits };
}
