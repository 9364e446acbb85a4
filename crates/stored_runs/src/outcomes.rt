//! What runs give, and where two of these differ.

ghost use Rattle.std.specs.Prelude.{◌≡◌, ◌≤◌, ◌↔◌, length, take, None};

use std::fmt;

/// What a run gives: what is written, and the number of its status.
#[derive(Clone, Copy, Debug, PartialEq, Eq)]
pub(crate) struct Outcome<'a> {
    pub(crate) output: &'a [u8],
    pub(crate) status: u8,
}

/// Where an outcome differs from the one wanted.
#[derive(Clone, Copy, Debug, PartialEq, Eq)]
pub(crate) enum Difference {
    /// The outputs are the same up to this byte, counted from 0, and no further.
    Output { at: usize },
    /// The outputs are the same, and the statuses aren't.
    Status { wanted: u8, made: u8 },
}

/// Where the outcomes differ first.
pub(crate) fn first_difference(wanted: &Outcome<'_>, made: &Outcome<'_>) -> Option<Difference>
    ensures none { result ≡ None ↔ (made.now.output.now ≡ wanted.now.output.now)
        × (made.now.status ≡ wanted.now.status) }
{
    if wanted.output != made.output {
        let at = same_bytes(wanted.output, made.output);
        Some(Difference::Output { at })
    } else if wanted.status != made.status {
        Some(Difference::Status {
            wanted: wanted.status,
            made: made.status,
        })
    } else {
        None
    }
}

/// How many bytes from the first on are the same in both.
fn same_bytes(xs: &[u8], ys: &[u8]) -> usize
    ensures within { result ≤ length xs.now }
    ensures same { take result xs.now ≡ take result ys.now }
{
    let mut count = 0;
    while count < xs.len() && count < ys.len() && xs[count] == ys[count] {
        count += 1;
    }
    count
}

impl fmt::Display for Difference {
    fn fmt<W: fmt::Write>(&self, f: &mut fmt::Formatter<W>) -> fmt::Result {
        match self {
            Difference::Output { at } => write!(f, "the output at byte {at}"),
            Difference::Status { wanted, made } => write!(
                f,
                "the status {made} in place of {wanted}"
            ),
        }
    }
}
