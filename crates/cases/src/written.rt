//! What a call has room for, and what it wrote.

use std::process::Abort;

/// The first of a slice, for a call that is to have room for so many.
pub(crate) fn room<'a, T>(rt: &impl Abort, slice: &'a mut [T], count: usize) -> &'a mut [T] {
    assert!(rt; count <= slice.len());
    &mut slice[..count]
}

/// Wants what was written at the head of a slice, and after it what no call writes.
pub(crate) fn holds<T: PartialEq>(rt: &impl Abort, slice: &[T], written: &[T], other: &T) {
    for (k, value) in slice.iter().enumerate() {
        assert!(rt; value == written.get(k).unwrap_or(other));
    }
}
