//! What is found by a pattern: distances, matches, motifs, and discords.

use crate::expected::expect_windows;
use crate::numbers::{GREATEST, LEAST, samples, wide_samples};
use mp_motifs::{discords, matches, motifs};
use mp_nums::{Near, Slot, Sq};
use mp_plain::{distance, profile};
use mp_series::MAX_SAMPLES;
use mp_slide::{SlideRefusal, distances};
use std::test::Fail;

const SERIES: [Option<i32>; 6] = [Some(1), Some(2), Some(3), Some(1), Some(2), Some(3)];

const PATTERN: [Option<i32>; 3] = [Some(1), Some(2), Some(3)];

const SUMS: [Option<Sq>; 4] = [Some(Sq(0)), Some(Sq(6)), Some(Sq(6)), Some(Sq(0))];

#[test]
fn distances_to_a_pattern_that_comes_twice(rt: HostRuntime) -> Result<(), Fail> {
    for (series, sums) in [(SERIES.as_slice(), SUMS.as_slice()), (&SERIES[..2], &[])] {
        let pattern = samples(rt.alloc(), &PATTERN)?;
        let series = samples(rt.alloc(), series)?;
        let list = distances(&rt, rt.alloc(), pattern.as_slice(), series.as_slice())?;
        assert_eq!(rt; list.as_slice(), sums);
    }
    Ok(())
}

/// The distances of a pattern to windows of the numbers of 48 bits that lie farthest apart.
#[test]
fn distances_of_numbers_of_48_bits(rt: HostRuntime) -> Result<(), Fail> {
    let numbers = [
        LEAST, GREATEST, 3, LEAST, GREATEST, LEAST, 7, GREATEST, LEAST,
    ];
    let series = wide_samples(rt.alloc(), &numbers)?;
    let (pattern, _) = series.as_slice().split_at(3);
    let list = distances(&rt, rt.alloc(), pattern, series.as_slice())?;
    assert_eq!(rt; list.as_slice().len(), 7);
    for (i, found) in list.as_slice().iter().enumerate() {
        assert!(rt; i < 7);
        let expected = distance(pattern, 0, series.as_slice(), i as u64, 3);
        assert_eq!(rt; *found, expected);
    }
    Ok(())
}

static REFUSED: [(&[Option<i32>], SlideRefusal); 3] = [
    (&[Some(1), Some(2)], SlideRefusal::Length),
    (&[None, None], SlideRefusal::Length),
    (&[Some(1), None, Some(3)], SlideRefusal::Missing),
];

#[test]
fn patterns_that_are_refused(rt: HostRuntime) -> Result<(), Fail> {
    let series = samples(rt.alloc(), &SERIES)?;
    for (pattern, refusal) in &REFUSED {
        let pattern = samples(rt.alloc(), pattern)?;
        assert_eq!(rt;
            distances(&rt, rt.alloc(), pattern.as_slice(), series.as_slice()).err(),
            Some(*refusal)
        );
    }
    Ok(())
}

#[test]
fn matches_among_four_windows(rt: HostRuntime) -> Result<(), Fail> {
    for (first, max, windows) in [
        (None, 10, [(0, 0), (0, 3)].as_slice()),
        (None, 1, &[(0, 0)]),
        (Some(2), 10, &[(6, 2), (0, 0)]),
    ] {
        let found = matches(rt.alloc(), &SUMS, 1, first, Sq(6), max)?;
        expect_windows(&rt, found.as_slice(), windows);
    }
    Ok(())
}

const ENTRIES: [Slot; 4] = [
    Some(Near {
        dist: Sq(0),
        index: 3,
    }),
    Some(Near {
        dist: Sq(6),
        index: 3,
    }),
    Some(Near {
        dist: Sq(6),
        index: 0,
    }),
    Some(Near {
        dist: Sq(0),
        index: 0,
    }),
];

#[test]
fn discords_among_four_windows(rt: HostRuntime) -> Result<(), Fail> {
    let found = discords(rt.alloc(), &ENTRIES, 1, 2)?;
    assert_eq!(rt; found.len(), 2);
    assert_eq!(rt; (found[0].start, found[1].start), (1, 3));
    expect_windows(&rt, &[found[0].near, found[1].near], &[(6, 3), (0, 0)]);
    Ok(())
}

#[test]
fn motif_that_comes_twice(rt: HostRuntime) -> Result<(), Fail> {
    let series = samples(rt.alloc(), &SERIES)?;
    assert!(rt; series.len() as u64 <= MAX_SAMPLES);
    let columns = profile(rt.alloc(), series.as_slice(), 3)?;
    let entries = columns.all.as_slice();
    assert_eq!(rt; entries, ENTRIES.as_slice());
    for (neighbours, count) in [(1, 1), (2, 0)] {
        let found = motifs(
            &rt,
            rt.alloc(),
            series.as_slice(),
            entries,
            3,
            Sq(6),
            Sq(6),
            neighbours,
            10,
            2,
        )?;
        assert_eq!(rt; found.len(), count);
        for motif in &found {
            assert_eq!(rt; motif.start, 0);
            expect_windows(&rt, motif.matches.as_slice(), &[(0, 0), (0, 3)]);
        }
    }
    Ok(())
}
