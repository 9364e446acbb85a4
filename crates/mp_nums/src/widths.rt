/// How many bits with sign the numbers of a series have that are read: 32 or 48.
#[derive(Clone, Copy, Debug, PartialEq, Eq)]
pub enum Width {
    Narrow,
    Wide,
}
