//! What is found in columns: chains, arcs, regimes, and how far apart two series are.

ghost use Rattle.std.specs.Prelude.{◌≡◌, ◌≤◌, replicate, IfOk, None};
ghost use Rattle.mp_results.specs.Columns.{AreColumns};
ghost use Rattle.mp_arcs.specs.declared.curves.TheConstants.{MAX_FACTOR};

use mp_arcs::{ArcBoard, arcs, corrected, regimes};
use mp_chains::{all_chains, anchored, longest};
use mp_mpdist::mpdist;
use mp_nums::{Near, Places, Ratio, Slot, Sq};
use mp_series::MAX_SAMPLES;
use std::alloc::{AllocError, Global};
use std::process::Abort;
use std::test::Fail;

const AT_0: Slot = Some(Near {
    dist: Sq(0),
    index: 0,
});

const AT_1: Slot = Some(Near {
    dist: Sq(0),
    index: 1,
});

const AT_2: Slot = Some(Near {
    dist: Sq(0),
    index: 2,
});

const AT_3: Slot = Some(Near {
    dist: Sq(0),
    index: 3,
});

const LEFT: [Slot; 4] = [None, AT_0, AT_1, None];

const RIGHT: [Slot; 4] = [AT_1, AT_2, None, None];

#[test]
fn the_chain_from_a_window(rt: HostRuntime) -> Result<(), Fail> {
    let chain = anchored(rt.alloc(), &LEFT, &RIGHT, 0)?;
    assert_eq!(rt; chain.as_slice(), [0, 1, 2].as_slice());
    Ok(())
}

/// Expects these chains, the longest of which is at a place.
fn expect_chains(rt: &impl Abort, chains: &[Places], expected: &[&[u64]], place: Option<usize>) {
    assert_eq!(rt; chains.len(), expected.len());
    for (chain, windows) in chains.iter().zip(expected) {
        assert_eq!(rt; chain.as_slice(), *windows);
    }
    assert_eq!(rt; longest(chains), place);
}

#[test]
fn all_chains_and_the_longest(rt: HostRuntime) -> Result<(), Fail> {
    let chains = all_chains(rt.alloc(), &LEFT, &RIGHT)?;
    expect_chains(&rt, chains.as_slice(), &[&[0, 1, 2], &[3]], Some(0));
    Ok(())
}

#[test]
fn no_windows_have_no_chains(rt: HostRuntime) -> Result<(), Fail> {
    let chains = all_chains(rt.alloc(), &[], &[])?;
    expect_chains(&rt, chains.as_slice(), &[], None);
    Ok(())
}

/// A column of windows that have no neighbours.
fn no_neighbours(alloc: Global, count: u64) -> Result<Vec<Slot>, AllocError>
    ensures empty { IfOk result (λ column. column.items ≡ replicate count None) }
    ensures columns { IfOk result (λ column. AreColumns column.items column.items) }
{
    vec![in alloc; None; count as usize]
}

// Each window is a chain of its own. Room for as many windows as there are in each of these would be 512 GiB.
#[test]
fn windows_without_neighbours_are_chains_of_one(rt: HostRuntime) -> Result<(), Fail> {
    let none = no_neighbours(rt.alloc(), MAX_SAMPLES)?;
    let chains = all_chains(rt.alloc(), none.as_slice(), none.as_slice())?;
    assert_eq!(rt; chains.len(), none.len());
    assert_eq!(rt; longest(chains.as_slice()), Some(0));
    Ok(())
}

const INDEX: [Slot; 4] = [AT_1, AT_0, AT_3, AT_2];

#[test]
fn arcs_of_four_windows(rt: HostRuntime) -> Result<(), Fail> {
    assert_eq!(rt;
        arcs(rt.alloc(), &INDEX)?.as_slice(),
        [2, 0, 2, 0].as_slice()
    );
    Ok(())
}

fn expect_fractions(rt: &impl Abort, curve: &[Ratio], expected: &[(u64, u64)]) {
    assert_eq!(rt; curve.len(), expected.len());
    for (value, fraction) in curve.iter().zip(expected) {
        assert_eq!(rt; (value.num, value.den), *fraction);
    }
}

/// Expects the fractions of four places and the regimes that begin there.
fn expect_regimes<R: Abort + AllocGlobal>(
    rt: &R,
    factor: u32,
    fractions: &[(u64, u64)],
    places: &[u64],
) -> Result<(), Fail>
    requires { factor ≤ MAX_FACTOR }
{
    let curve = corrected(rt.alloc(), &[2, 0, 2, 0], 3, factor)?;
    expect_fractions(rt, curve.as_slice(), fractions);
    let found = regimes(rt.alloc(), curve.as_slice(), 0, 3)?;
    assert_eq!(rt; found.as_slice(), places);
    Ok(())
}

#[test]
fn regimes_of_four_windows(rt: HostRuntime) -> Result<(), Fail> {
    expect_regimes(&rt, 0, &[(1, 1), (0, 6), (1, 1), (0, 6)], &[1, 3])?;
    expect_regimes(&rt, 1, &[(1, 1); 4], &[])
}

/// Adds a window, where there is room.
fn grow(board: &mut ArcBoard) {
    if 0 < board.spare() && board.len() < MAX_SAMPLES {
        board.grow();
    }
}

/// A window names another one, where both are there.
fn change(board: &mut ArcBoard, i: u64, j: u64) {
    if i < board.len() && j < board.len() {
        board.change(i, Some(j));
    }
}

fn expect_counts(rt: &impl Abort, board: &ArcBoard, expected: &[u64]) -> Result<(), Fail> {
    let counts = board.counts()?;
    assert_eq!(rt; counts.as_slice(), expected);
    Ok(())
}

/// Makes room for four windows and adds them.
fn grow_by_four(rt: &impl Abort, board: &mut ArcBoard) -> Result<(), Fail> {
    board.reserve(4)?;
    assert!(rt; 4 <= board.spare());
    for _ in 0..4 {
        grow(board);
    }
    Ok(())
}

fn expect_changes(rt: &impl Abort, board: &mut ArcBoard) -> Result<(), Fail> {
    for (i, j) in [(0, 1), (1, 0), (2, 3), (3, 2)] {
        change(board, i, j);
    }
    expect_counts(rt, board, &[2, 0, 2, 0])?;
    change(board, 0, 3);
    expect_counts(rt, board, &[2, 1, 3, 0])
}

#[test]
fn arcs_of_a_board_of_four_windows(rt: HostRuntime) -> Result<(), Fail> {
    let mut board = ArcBoard::new(rt.alloc());
    grow_by_four(&rt, &mut board)?;
    expect_changes(&rt, &mut board)
}

/// Joins of a series with another one and the other way round, the samples of each of both, and how far apart they are.
type Distance = (&'static [Slot], &'static [Slot], u64, Option<Sq>);

static DISTANCES: [Distance; 3] = [
    (&[AT_0, AT_1], &[AT_0, AT_1], 4, Some(Sq(0))),
    (&[], &[], 2, None),
    (
        &[None],
        &[Some(Near {
            dist: Sq(4),
            index: 0,
        })],
        3,
        Some(Sq(4)),
    ),
];

#[test]
fn distances_of_small_joins(rt: HostRuntime) -> Result<(), Fail> {
    for (ab, ba, samples, distance) in &DISTANCES {
        assert!(rt; *samples <= MAX_SAMPLES);
        assert_eq!(rt; mpdist(rt.alloc(), ab, ba, *samples, *samples)?, *distance);
    }
    Ok(())
}
