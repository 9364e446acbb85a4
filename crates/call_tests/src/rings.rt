//! Rings, which keep the samples that were pushed last.

use crate::numbers::sample;
use mp_nums::Whole;
use mp_series::Ring;
use std::process::Abort;
use std::test::Fail;

/// Pushes one sample more than the ring holds, and reads those that are left. A test tells that each push may be made.
fn expect_the_last(rt: &impl Abort, ring: &mut Ring) {
    for number in [1, 2, 3] {
        if ring.len() + ring.dropped() < 3 {
            ring.push(sample(Some(number)));
        }
    }
    assert_eq!(rt; ring.len(), 2);
    assert_eq!(rt; ring.dropped(), 1);
    assert_eq!(rt; ring.reads(), 0);
    assert_eq!(rt; ring.get(0), sample(Some(2)));
    assert_eq!(rt; ring.get(1), sample(Some(3)));
    assert_eq!(rt; ring.reads(), 2);
}

#[test]
fn a_ring_keeps_the_samples_pushed_last(rt: HostRuntime) -> Result<(), Fail> {
    let mut ring = Ring::new(rt.alloc(), 2)?;
    expect_the_last(&rt, &mut ring);
    Ok(())
}

/// Pushes missing samples too, asks for free windows without a read, and reads two parts of the numbers.
fn expect_free(rt: &impl Abort, ring: &mut Ring) {
    for number in [None, Some(4), None, Some(5), Some(6)] {
        if ring.len() + ring.dropped() < 5 {
            ring.push(sample(number));
        }
    }
    assert_eq!(rt; ring.len(), 3);
    assert!(rt; !ring.free(0, 2));
    assert!(rt; ring.free(1, 2));
    assert_eq!(rt; ring.reads(), 0);
    let (first, second) = ring.parts(0, 1, 2);
    assert_eq!(rt; first, [Whole::from(0), Whole::from(5)].as_slice());
    assert_eq!(rt; second, [Whole::from(5), Whole::from(6)].as_slice());
    assert_eq!(rt; ring.reads(), 4);
}

#[test]
fn a_ring_tells_which_windows_are_free(rt: HostRuntime) -> Result<(), Fail> {
    let mut ring = Ring::new(rt.alloc(), 3)?;
    expect_free(&rt, &mut ring);
    Ok(())
}
