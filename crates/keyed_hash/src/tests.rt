//! Hashes that are known from elsewhere.
use crate::KeyedState;
use std::hash::{BuildHasher, Hasher};

// What a hasher that begins so makes of some more bytes.
fn hash_of(state: KeyedState, bytes: &[u8]) -> u64 {
    let mut hasher = state.build_hasher();
    hasher.write(bytes);
    hasher.finish()
}

#[test]
fn as_of_all_bytes_in_turn(rt: HostRuntime) {
    // SipHash-1-3 with both keys 0, as Python's and Rust's.
    assert_eq!(rt; hash_of(KeyedState::new(), b""), 0xd1fb_a762_150c_532c);
    assert_eq!(rt;
        hash_of(KeyedState::of(b"TOP"), b"CELL"),
        0x4562_53ed_8711_1d1a
    );
    let mut state = KeyedState::of(b"T");
    state.take(b"OP");
    assert_eq!(rt; hash_of(state, b"CELL"), 0x4562_53ed_8711_1d1a);
}
