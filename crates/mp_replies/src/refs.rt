/// A channel of a slot, both counted from 0.
#[derive(Clone, Copy, Debug, PartialEq, Eq)]
pub struct Ref {
    pub slot: u64,
    pub channel: u64,
}
