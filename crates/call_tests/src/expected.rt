//! What is expected of slots.

use mp_nums::{Near, Slot};
use std::process::Abort;

/// Expects slots with these distances and starts.
pub(crate) fn expect_slots(rt: &impl Abort, slots: &[Slot], expected: &[Option<(u128, u64)>]) {
    assert_eq!(rt; slots.len(), expected.len());
    for (slot, pair) in slots.iter().zip(expected) {
        assert_eq!(rt; slot.map(|near| (near.dist.0, near.index)), *pair);
    }
}

/// Expects windows with these distances and starts.
pub(crate) fn expect_windows(rt: &impl Abort, found: &[Near], expected: &[(u128, u64)]) {
    assert_eq!(rt; found.len(), expected.len());
    for (near, pair) in found.iter().zip(expected) {
        assert_eq!(rt; (near.dist.0, near.index), *pair);
    }
}
