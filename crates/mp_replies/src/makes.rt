/// A series that is made: of which number, and of how many samples.
#[derive(Clone, Copy, Debug, PartialEq, Eq)]
pub struct Make {
    pub number: u64,
    pub count: u64,
}
