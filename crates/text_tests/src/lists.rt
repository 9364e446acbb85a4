//! Lists and fractions.

use mp_nums::{Items, Memory, Near, NearList, Places, Ratio, Slots, Sq, SqList, Text};
use std::fmt::Debug;
use std::process::Abort;

const NEAR: Near = Near {
    dist: Sq(6),
    index: 3,
};

/// Makes room in the new list for two items, and appends one.
fn check_push<T: Copy + Debug + PartialEq>(rt: &impl Abort, mut list: Items<T>, item: T) {
    assert!(rt; list.reserve(2).is_ok());
    assert!(rt; list.spare() >= 2);
    assert!(rt; list.push(item).is_ok());
    assert_eq!(rt; list.as_slice(), [item].as_slice());
}

#[test]
fn a_new_list_takes_an_item(rt: HostRuntime) {
    check_push(&rt, Text::new(rt.alloc()), b'#');
    check_push(&rt, Slots::new(rt.alloc()), Some(NEAR));
    check_push(&rt, NearList::new(rt.alloc()), NEAR);
    check_push(&rt, Places::new(rt.alloc()), 3);
    check_push(&rt, SqList::new(rt.alloc()), Some(Sq(6)));
}

/// Asks for more room than there is.
fn expect_refused<T>(rt: &impl Abort, list: &mut Items<T>, room: u64) {
    assert_eq!(rt; list.reserve(room), Err(Memory));
}

/// Expects so many equal items.
fn expect_items<T: Copy + Debug + PartialEq>(
    rt: &impl Abort,
    list: &Items<T>,
    item: T,
    count: usize,
) {
    assert_eq!(rt; list.as_slice().len(), count);
    for kept in list.as_slice() {
        assert_eq!(rt; *kept, item);
    }
}

/// Room that is refused leaves the list as it was.
fn check_refused<T: Copy + Debug + PartialEq>(rt: &impl Abort, mut list: Items<T>, item: T) {
    assert!(rt; list.push(item).is_ok());
    expect_refused(rt, &mut list, 1 << 62);
    expect_refused(rt, &mut list, u64::MAX);
    expect_items(rt, &list, item, 1);
    assert!(rt; list.push(item).is_ok());
    expect_items(rt, &list, item, 2);
}

#[test]
fn room_that_is_refused_leaves_a_list(rt: HostRuntime) {
    check_refused(&rt, Text::new(rt.alloc()), b'#');
    check_refused(&rt, Slots::new(rt.alloc()), Some(NEAR));
    check_refused(&rt, NearList::new(rt.alloc()), NEAR);
    check_refused(&rt, Places::new(rt.alloc()), 3);
    check_refused(&rt, SqList::new(rt.alloc()), Some(Sq(6)));
}

#[test]
fn fractions_compare_as_numbers(rt: HostRuntime) {
    assert_eq!(rt; Ratio::new(0, 6), Ratio::new(0, 1));
    assert!(rt; Ratio::new(1, 3) < Ratio::new(1, 2));
}
