/// A place, counted from 0, and the key by which it is chosen. The order is by key, and then by place.
#[derive(Clone, Copy, Debug, PartialEq, Eq, PartialOrd, Ord)]
pub struct Candidate<K> {
    pub key: K,
    pub place: u64,
}
