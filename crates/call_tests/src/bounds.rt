//! Lookers that share the least radius that some window is known to have.

use crate::numbers::samples;
use mp_consensus::{Bound, consensus};
use mp_nums::Sq;
use mp_outside::OpenGate;
use mp_series::Bundle;
use std::test::Fail;

#[test]
fn two_lookers_see_one_radius(rt: HostRuntime) -> Result<(), Fail> {
    let mut list = Bundle::new(rt.alloc());
    list.add(samples(rt.alloc(), &[Some(1), Some(2), Some(3), Some(4)])?.as_slice())?;
    list.add(samples(rt.alloc(), &[Some(9), Some(1), Some(2), Some(3)])?.as_slice())?;
    list.add(samples(rt.alloc(), &[Some(2), Some(3), Some(4), Some(9)])?.as_slice())?;
    let (bound, mut looker) = Bound::new(rt.alloc(), &list, 3)?;
    assert!(rt; bound.read(&mut looker).is_none());
    let mut other = bound.split(&mut looker);
    assert!(rt; bound.read(&mut other).is_none());
    let found = consensus(&rt, rt.alloc(), &list, 3, 1, &OpenGate)?;
    if let Some(centre) = &found {
        bound.lower(&mut looker, centre.radius);
    }
    assert_eq!(rt; bound.read(&mut looker), Some(Sq(3)));
    assert_eq!(rt; bound.read(&mut other), Some(Sq(3)));
    Ok(())
}
