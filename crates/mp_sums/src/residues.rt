//! Residues: sums modulo 2^32 of the squared differences of rounded samples, as signed numbers whose order is that of
//! the sums as long as these have 32 bits. Nothing is asked of the sums, which may wrap.

ghost use Rattle.std.specs.Prelude.{◌≡◌, ℕ, ◌+◌, ◌^◌, ◌<◌, ◌⊎◌, length, ℤ, ◌+ℤ◌, ◌-ℤ◌, ◌≤ℤ◌, ◌<ℤ◌, true, false};
ghost use Rattle.std.specs.Int.{w32, int_wrap};
ghost use Rattle.mp_sums.specs.Sums.{square_sum};
ghost use Rattle.mp_sums.specs.Residues.{residue as residue_of, moved, AreNumbers, AreChanges};

/// The residue of the sum 0.
pub const ZERO: i32 = -2_147_483_647;

/// The limit at which no pair passes, save for sums that wrap. It is that of windows with a missing sample.
pub const NEVER: i32 = i32::MIN;

/// The limit at which every pair passes.
pub const ALWAYS: i32 = i32::MAX;

/// What comes in and what goes where a window moves on by one, modulo 2^32.
#[derive(Clone, Copy)]
pub struct Change {
    pub difference: i32,
    pub sum: i32,
}

/// The change where one number goes and one comes in.
#[inline]
pub fn change_of(leaves: i32, enters: i32) -> Change
    ensures difference { result.difference ≡ int_wrap w32 (enters -ℤ leaves) }
    ensures sum { result.sum ≡ int_wrap w32 (enters +ℤ leaves) }
{
    Change {
        difference: enters.wrapping_sub(leaves),
        sum: enters.wrapping_add(leaves),
    }
}

/// The changes of successive windows, of which the numbers go that come first, and those come in that stand one window
/// further on.
pub fn fill_changes(leaves: &[i32], enters: &[i32], differences: &mut [i32], sums: &mut [i32])
    requires leaves { length leaves.now ≡ length differences.old }
    requires enters { length enters.now ≡ length differences.old }
    requires sums { length sums.old ≡ length differences.old }
    ensures changes { (m : ℕ) (x : ℕ → ℤ) (start : ℕ) → AreNumbers x start leaves.now
        → AreNumbers x (start + m) enters.now → AreChanges m x start differences.new sums.new }
    ensures places { length differences.new ≡ length differences.old }
{
    for k in 0..differences.len() {
        let change = change_of(leaves[k], enters[k]);
        differences[k] = change.difference;
        sums[k] = change.sum;
    }
}

/// The residue with one more pair of numbers.
#[inline]
pub(crate) fn with_square(residue: i32, row: i32, column: i32) -> i32
    ensures { (m : ℕ) (x : ℕ → ℤ) (i : ℕ) (y : ℕ → ℤ) (j : ℕ) → residue ≡ residue_of (square_sum m x i y j)
        → row ≡ int_wrap w32 (x (i + m)) → column ≡ int_wrap w32 (y (j + m))
        → result ≡ residue_of (square_sum (m + 1) x i y j) }
{
    let difference = row.wrapping_sub(column);
    residue.wrapping_add(difference.wrapping_mul(difference))
}

/// The residue of two windows of as many numbers.
pub fn first_residue(row: &[i32], column: &[i32]) -> i32
    requires { length column.now ≡ length row.now }
    ensures { (x : ℕ → ℤ) (i : ℕ) (y : ℕ → ℤ) (j : ℕ) → AreNumbers x i row.now → AreNumbers y j column.now
        → result ≡ residue_of (square_sum (length row.now) x i y j) }
{
    let mut residue = ZERO;
    for k in 0..row.len() {
        residue = with_square(residue, row[k], column[k]);
    }
    residue
}

/// The residue of the next row and the next column, by the changes of both.
#[inline]
pub fn next_residue(residue: i32, row: Change, column: Change) -> i32
    ensures { result ≡ moved residue row.difference row.sum column.difference column.sum }
{
    residue.wrapping_add(
        row.difference
            .wrapping_sub(column.difference)
            .wrapping_mul(row.sum.wrapping_sub(column.sum)),
    )
}

/// The sum that has this residue, where it has no more than thirty-one bits.
#[inline]
pub fn sum_of(residue: i32) -> u128
    ensures small { result < 2 ^ 32 }
    ensures sum { (sum : ℕ) → sum < 2 ^ 31 → residue ≡ residue_of sum → result ≡ sum }
{
    u128::from(residue.abs_diff(ZERO))
}

/// Whether a residue is within the limit of its row or that of its column.
#[inline]
pub fn passes(residue: i32, row: i32, column: i32) -> bool
    ensures row { result ≡ false → row <ℤ residue }
    ensures column { result ≡ false → column <ℤ residue }
    ensures either { result ≡ true → (residue ≤ℤ row) ⊎ (residue ≤ℤ column) }
{
    residue <= row.max(column)
}
