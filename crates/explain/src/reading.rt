//! Files that are read again.
ghost use Rattle.std.specs.Prelude.{IsTrue};
ghost use Rattle.depot.specs.Content.{ChangesLeftOnly};

use crate::file_advice::no_deck;
use depot::{Depot, read_all};
use std::alloc::Global;

/// A deck has at most this many bytes.
pub(crate) const DECK_LIMIT: usize = 65_536;

/// A layout and a shot file have at most this many bytes.
pub(crate) const FILE_LIMIT: usize = 268_435_456;

/// The bytes of a file, and none where it isn't read again.
pub(crate) fn bytes_of<D: Depot>(alloc: Global, depot: &mut D, name: &str, limit: usize) -> Vec<u8>
    ensures reads { IsTrue D.tells → ChangesLeftOnly (D.content depot.old) (D.content depot.new) }
{
    match read_all(alloc, depot, name, limit) {
        Ok(bytes) => bytes,
        Err(_refused) => Vec::new(alloc),
    }
}

/// Whether a file that is too long for a deck is a layout, by its first bytes.
pub(crate) fn begins_as_layout<D: Depot>(depot: &mut D, name: &str) -> bool
    ensures reads { IsTrue D.tells → ChangesLeftOnly (D.content depot.old) (D.content depot.new) }
{
    let mut first = [0u8; 16];
    match depot.start_read(name) {
        Ok(()) => {}
        Err(_refused) => return false,
    }
    match depot.read(&mut first) {
        Ok(_count) => no_deck(&first).is_some(),
        Err(_refused) => false,
    }
}
