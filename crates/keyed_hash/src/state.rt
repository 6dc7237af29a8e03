//! The state that hashers begin with.
ghost use Rattle.std.specs.Prelude.{◌≡◌};
ghost use Rattle.std.specs.Hash.DefaultHasher as sip;
ghost use Rattle.keyed_hash.specs.Keys.{start_of, hasher_after};

use std::hash::{BuildHasher, DefaultHasher, Hasher};

/// The state that the hashers of a table begin with: that of a hasher which has taken some bytes.
#[derive(Clone, Copy)]
pub struct KeyedState {
    start: DefaultHasher,
}

impl KeyedState {
    /// The state of a hasher that has taken nothing.
    pub fn new() -> KeyedState
        ensures { start_of result ≡ sip.initial }
    {
        KeyedState {
            start: DefaultHasher::new(),
        }
    }

    /// The state of a hasher that has taken these bytes. Each byte is looked at once.
    pub fn of(bytes: &[u8]) -> KeyedState
        ensures { start_of result ≡ hasher_after bytes.now }
    {
        let mut state = KeyedState::new();
        state.take(bytes);
        state
    }

    /// Takes these bytes too.
    pub fn take(&mut self, bytes: &[u8])
        ensures { start_of self.new ≡ sip.write (start_of self.old) bytes.now }
    {
        self.start.write(bytes);
    }
}

impl BuildHasher for KeyedState {
    type Hasher = DefaultHasher;

    ghost build_hasher = { start_of };

    fn build_hasher(&self) -> DefaultHasher {
        self.start
    }
}
