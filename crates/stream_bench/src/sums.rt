//! Numbers that tell two profiles apart, but for chance.

use mp_nums::Slot;

pub fn sum_of_columns(all: &[Slot], left: &[Slot], right: &[Slot]) -> u128 {
    sum_of_column(all)
        .wrapping_mul(31)
        .wrapping_add(sum_of_column(left))
        .wrapping_mul(31)
        .wrapping_add(sum_of_column(right))
}

fn sum_of_column(slots: &[Slot]) -> u128 {
    let mut sum: u128 = 0;
    for slot in slots {
        sum = sum_with_slot(sum, slot);
    }
    sum
}

pub fn sum_with_slot(sum: u128, slot: &Slot) -> u128 {
    sum.wrapping_mul(31).wrapping_add(sum_of_slot(slot))
}

fn sum_of_slot(slot: &Slot) -> u128 {
    match slot {
        Some(near) => near
            .dist
            .0
            .wrapping_mul(31)
            .wrapping_add(u128::from(near.index))
            .wrapping_add(1),
        None => 0,
    }
}
