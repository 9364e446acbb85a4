//! Residues of one window and of successive others, sample by sample.

ghost use Rattle.std.specs.Prelude.{◌≡◌, ℕ, ◌+◌, length, ℤ};
ghost use Rattle.std.specs.Int.{w32, int_wrap};
ghost use Rattle.mp_sums.specs.Residues.{AreNumbers};
ghost use Rattle.mp_sums.specs.Rows.{AreResidues};

use crate::residues::{ZERO, with_square};

/// Makes the residues those of windows of no numbers.
pub fn clear_residues(residues: &mut [i32])
    ensures residues { (x : ℕ → ℤ) (i : ℕ) (y : ℕ → ℤ) (j : ℕ) → AreResidues 0 x i y j residues.new }
    ensures places { length residues.new ≡ length residues.old }
{
    for t in 0..residues.len() {
        residues[t] = ZERO;
    }
}

/// Takes one more number of the window into the residues, and one more of each of the others.
fn add_squares(row: i32, columns: &[i32], residues: &mut [i32])
    requires { length columns.now ≡ length residues.old }
    ensures residues { (m : ℕ) (x : ℕ → ℤ) (i : ℕ) (y : ℕ → ℤ) (j : ℕ) → row ≡ int_wrap w32 (x (i + m))
        → AreNumbers y (j + m) columns.now → AreResidues m x i y j residues.old
        → AreResidues (m + 1) x i y j residues.new }
    ensures places { length residues.new ≡ length residues.old }
{
    for t in 0..residues.len() {
        residues[t] = with_square(residues[t], row, columns[t]);
    }
}

/// Takes more numbers of the window into the residues, and as many of each of the others, whose numbers stand in one
/// list.
pub fn add_numbers(rows: &[i32], columns: &[i32], residues: &mut [i32])
    requires { length columns.now ≡ length rows.now + length residues.old }
    ensures residues { (m : ℕ) (x : ℕ → ℤ) (i : ℕ) (y : ℕ → ℤ) (j : ℕ) → AreNumbers x (i + m) rows.now
        → AreNumbers y (j + m) columns.now → AreResidues m x i y j residues.old
        → AreResidues (m + length rows.now) x i y j residues.new }
    ensures places { length residues.new ≡ length residues.old }
{
    for k in 0..rows.len() {
        add_squares(rows[k], &columns[k..k + residues.len()], residues);
    }
}
