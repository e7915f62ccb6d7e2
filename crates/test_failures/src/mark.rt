//! Marks between which checks/refuse.c counts.
use std::alloc::Global;

// A size that nothing else requests. checks/refuse.c has it too.
const MARK: usize = 1_296_126_539;

/// Begins a section, or ends the one that has begun.
///
/// checks/refuse.c takes a request of this size for a mark, and lets it fail. Elsewhere the block is freed at once.
/// Returns whether the request failed.
pub fn mark(alloc: Global) -> bool {
    Vec::<u8>::with_capacity(alloc, MARK).is_err()
}
