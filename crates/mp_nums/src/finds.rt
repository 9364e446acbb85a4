use crate::lists::NearList;
use crate::nearest::{Near, Sq};

/// A repeated pattern: its window, and the windows that match it, itself among them.
#[derive(Debug, Drop)]
pub struct Motif {
    pub start: u64,
    pub matches: NearList,
}

/// An unusual window, and the nearest other one.
#[derive(Clone, Copy, Debug, PartialEq, Eq)]
pub struct Discord {
    pub start: u64,
    pub near: Near,
}

/// Two windows that are near each other: one of them, and its nearest other one.
#[derive(Clone, Copy, Debug, PartialEq, Eq)]
pub struct Pair {
    pub start: u64,
    pub near: Near,
}

/// What the profile of one window length has: how many windows there are, the pair that is least far apart, and the
/// most unusual window.
#[derive(Clone, Copy, Debug, PartialEq, Eq)]
pub struct PanRow {
    pub length: u32,
    pub windows: u64,
    pub best: Option<Pair>,
    pub discord: Option<Discord>,
}

/// The window that several series have in common: the window `start` of series `series`, the greatest of its
/// distances to the others, and the nearest window in each series.
#[derive(Debug, Drop)]
pub struct Centre {
    pub radius: Sq,
    pub series: u64,
    pub start: u64,
    pub nearest: NearList,
}
