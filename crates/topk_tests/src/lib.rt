//! Tests of the nearest windows of each window, compared with all windows in order. They stand above `mp_topk`, since a
//! crate with tests is proved twice.
#![tactic(auto)]

#[cfg(test)]
mod nearest;
#[cfg(test)]
mod ordered;
#[cfg(test)]
mod series;
