//! Room in a thread's heap, asked for at once.
use std::alloc::Global;

/// What the thread that reads asks for: blocks below this size then come from its heap, and not each by a mapping of its own.
pub(crate) const READER_HEAP: usize = 4_194_304;

/// What is asked for a share: about what the entries of its lines take beside their bytes.
pub(crate) const SHARE_HEAP: usize = 1_048_576;

/// Asks for so many bytes and lets them go: the thread's heap has grown by then, by one call and not page by page.
pub(crate) fn grow_heap(alloc: Global, bytes: usize) {
    drop(Vec::<u8>::with_capacity(alloc, bytes));
}
