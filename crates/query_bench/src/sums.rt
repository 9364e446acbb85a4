//! Numbers that tell two lists apart, but for chance.

use mp_nums::{Discord, Near, Sq};

fn next(sum: u128, number: u128) -> u128 {
    sum.wrapping_mul(31).wrapping_add(number).wrapping_add(1)
}

pub fn sum_of_distances(dist: &[Option<Sq>]) -> u128 {
    let mut sum = 0;
    for found in dist {
        sum = match found {
            Some(found) => next(sum, found.0),
            None => next(sum, 0),
        };
    }
    sum
}

pub fn sum_of_nears(nears: &[Near]) -> u128 {
    let mut sum = 0;
    for near in nears {
        sum = next(next(sum, near.dist.0), u128::from(near.index));
    }
    sum
}

pub fn sum_of_discords(discords: &[Discord]) -> u128 {
    let mut sum = 0;
    for discord in discords {
        sum = next(next(sum, discord.near.dist.0), u128::from(discord.start));
    }
    sum
}
