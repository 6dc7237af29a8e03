//! What the C library does with memory that is given back to it.

use std::alloc::Global;

// The size of a block, in bytes, that is larger than each list of a strip. The C library heeds up to 32 MiB.
const BLOCK: usize = 24 << 20;

/// Has the C library keep memory that is given back, up to twice a block, for what is asked for next.
///
/// Each strip of a layout gives its lists back before the next one asks for as much again. glibc takes what is larger than a
/// limit straight from the system, gives it back at once, and gives back what is free at the end of the heap where that is more
/// than twice the limit; the limit is 128 KiB at first, then the largest such block that was given back. The system clears each
/// page that it gives, which took a quarter of the time of an array. So a block is asked for here and given back: it isn't
/// written, and takes no memory. Where there is none nothing changes but the time.
pub(crate) fn keep_what_is_given_back(alloc: Global) {
    let _block: Result<Vec<u8>, _> = Vec::with_capacity(alloc, BLOCK);
}
