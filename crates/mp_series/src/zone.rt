//! Windows, and which of them may be compared.

ghost use Rattle.std.specs.Prelude.{◌≡◌, ◌≤◌};
ghost use Rattle.mp_defs.specs.Window as defs;

/// The exclusion zone at window length `m`: a quarter of the length, rounded up, which is STUMPY's default. Windows
/// whose starts are at most this far apart are not compared.
pub fn excl(m: u32) -> u64
    ensures { result ≡ defs.excl m }
{
    u64::from(m).div_ceil(4)
}

/// How many windows of length `m` lie in `n` samples.
pub fn windows(n: u64, m: u32) -> u64
    requires { 1 ≤ m }
    ensures { result ≡ defs.windows n m }
{
    n.saturating_sub(u64::from(m - 1))
}

/// Whether the windows that start at `i` and `j` lie outside each other's exclusion zone at window length `m`.
pub fn allowed(i: u64, j: u64, m: u32) -> bool
    ensures { result ≡ defs.is_allowed m i j }
{
    excl(m) < i.abs_diff(j)
}
