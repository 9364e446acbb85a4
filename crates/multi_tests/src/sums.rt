use mp_multi::least_sum;
use mp_nums::Sq;
use std::test::Fail;

#[test]
fn the_least_are_added_up(rt: HostRuntime) -> Result<(), Fail> {
    let all = [
        Some(Sq(7)),
        Some(Sq(2)),
        Some(Sq(9)),
        Some(Sq(2)),
        Some(Sq(0)),
    ];
    assert_eq!(rt; least_sum(&all, 1), Some(Sq(0)));
    assert_eq!(rt; least_sum(&all, 2), Some(Sq(2)));
    assert_eq!(rt; least_sum(&all, 3), Some(Sq(4)));
    assert_eq!(rt; least_sum(&all, 4), Some(Sq(11)));
    assert_eq!(rt; least_sum(&all, 5), Some(Sq(20)));
    Ok(())
}

#[test]
fn missing_distances_do_not_count(rt: HostRuntime) -> Result<(), Fail> {
    let some = [None, Some(Sq(5)), None, Some(Sq(3))];
    assert_eq!(rt; least_sum(&some, 1), Some(Sq(3)));
    assert_eq!(rt; least_sum(&some, 2), Some(Sq(8)));
    assert_eq!(rt; least_sum(&some, 3), None);
    assert_eq!(rt; least_sum(&[None], 1), None);
    Ok(())
}

#[test]
fn eight_of_the_greatest_fit(rt: HostRuntime) -> Result<(), Fail> {
    const GREATEST: u128 = 1_298_074_214_633_706_907_132_624_082_305_023;
    let greatest = [Some(Sq(GREATEST)); 8];
    assert_eq!(rt; least_sum(&greatest, 8), Some(Sq(8 * GREATEST)));
    Ok(())
}
