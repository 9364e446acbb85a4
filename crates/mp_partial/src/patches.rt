//! Patches: the slots of some rows and of some columns, close together.

ghost use Rattle.std.specs.Prelude.{◌≡◌, ◌+◌, ◌-◌, ◌<◌, ◌≤◌, ◌↔◌, IsTrue, [], length, IfOk, Some, vec_capacity};
ghost use Rattle.mp_nums.specs.Near.{nearer_of};
ghost use Rattle.mp_partial.specs.Values.{empty_column, offered};

use crate::columns::offer_slot;
use mp_nums::{Memory, Near, Slot, Sq};
use std::alloc::Global;
use std::marker::Model;

/// The most rows in a patch.
pub const MAX_PATCH_ROWS: u64 = 65_536;

/// The most columns in a patch: those that so many rows have on as many successive diagonals.
pub const MAX_PATCH_COLUMNS: u64 = 131_071;

/// What was found of some successive windows, the rows, and of some later ones, the columns. A row keeps the nearest of
/// the windows that start later, and a column the nearest of those that start earlier.
///
/// It has room for the most rows and columns from the first on.
#[derive(Debug, Drop)]
pub struct Patch {
    first_row: u64,
    rows: Vec<Slot>,
    first_column: u64,
    columns: Vec<Slot>,
}

impl Model for Patch {
    ghost use Rattle.std.specs.Prelude.{◌≤◌, vec_capacity};
    ghost use Rattle.mp_partial.specs.Patching.{Patched};

    ghost Value = { Patched };

    ghost view = { λ p. record {
      first_row = p.first_row;
      rows = p.rows.items;
      first_column = p.first_column;
      columns = p.columns.items;
    } };

    ghost invariant = { λ p. (65536 ≤ vec_capacity p.rows) × (131071 ≤ vec_capacity p.columns) };
}

/// Makes it so many slots in which nothing was found.
fn restart(slots: &mut Vec<Slot>, count: u64)
    requires room { count ≤ vec_capacity slots.old }
    ensures slots { slots.new.items ≡ empty_column count }
    ensures room { vec_capacity slots.old ≤ vec_capacity slots.new }
{
    slots.clear();
    slots.resize(count as usize, None).unwrap();
}

/// Makes it these slots.
fn refill(slots: &mut Vec<Slot>, from: &[Slot])
    requires room { length from.now ≤ vec_capacity slots.old }
    ensures slots { slots.new.items ≡ from.now }
    ensures room { vec_capacity slots.old ≤ vec_capacity slots.new }
{
    slots.clear();
    slots.extend_from_slice(from).unwrap();
}

/// Keeps the nearer of what was found at a place and of `found`.
#[inline]
fn offer_at(slots: &mut Vec<Slot>, place: u64, found: Near)
    requires place { place < length slots.old.items }
    ensures offered { slots.new.items ≡ offered slots.old.items place found }
    ensures room { vec_capacity slots.old ≤ vec_capacity slots.new }
{
    offer_slot(&mut slots.as_mut_slice()[place as usize], found);
}

impl Patch {
    /// The patch of no windows.
    pub fn new(alloc: Global) -> Result<Patch, Memory>
        ensures rows { IfOk result (λ patch. patch.rows ≡ []) }
        ensures columns { IfOk result (λ patch. patch.columns ≡ []) }
    {
        Ok(Patch {
            first_row: 0,
            rows: Vec::with_capacity(alloc, MAX_PATCH_ROWS as usize)?,
            first_column: 0,
            columns: Vec::with_capacity(alloc, MAX_PATCH_COLUMNS as usize)?,
        })
    }

    /// The first row.
    pub fn first_row(&self) -> u64
        ensures { result ≡ self.now.first_row }
    {
        self.first_row
    }

    /// What was found of the rows.
    pub fn rows(&self) -> &[Slot]
        ensures { result.now ≡ self.now.rows }
    {
        self.rows.as_slice()
    }

    /// The first column.
    pub fn first_column(&self) -> u64
        ensures { result ≡ self.now.first_column }
    {
        self.first_column
    }

    /// What was found of the columns.
    pub fn columns(&self) -> &[Slot]
        ensures { result.now ≡ self.now.columns }
    {
        self.columns.as_slice()
    }

    /// Goes to other rows and columns, of which nothing was found. It takes no memory.
    pub fn start(&mut self, first_row: u64, rows: u64, first_column: u64, columns: u64)
        requires few_rows { rows ≤ MAX_PATCH_ROWS }
        requires few_columns { columns ≤ MAX_PATCH_COLUMNS }
        ensures first_row { self.new.first_row ≡ first_row }
        ensures rows { self.new.rows ≡ empty_column rows }
        ensures first_column { self.new.first_column ≡ first_column }
        ensures columns { self.new.columns ≡ empty_column columns }
    {
        self.first_row = first_row;
        restart(&mut self.rows, rows);
        self.first_column = first_column;
        restart(&mut self.columns, columns);
    }

    /// Goes to other rows and columns, of which this was found. It takes no memory.
    pub fn fill(&mut self, first_row: u64, rows: &[Slot], first_column: u64, columns: &[Slot])
        requires few_rows { length rows.now ≤ MAX_PATCH_ROWS }
        requires few_columns { length columns.now ≤ MAX_PATCH_COLUMNS }
        ensures first_row { self.new.first_row ≡ first_row }
        ensures rows { self.new.rows ≡ rows.now }
        ensures first_column { self.new.first_column ≡ first_column }
        ensures columns { self.new.columns ≡ columns.now }
    {
        self.first_row = first_row;
        refill(&mut self.rows, rows);
        self.first_column = first_column;
        refill(&mut self.columns, columns);
    }

    /// Whether window `i` is a row.
    #[inline]
    pub fn has_row(&self, i: u64) -> bool
        ensures { IsTrue result ↔ ((self.now.first_row ≤ i) × (i < self.now.first_row + length self.now.rows)) }
    {
        self.first_row <= i && i - self.first_row < self.rows.len() as u64
    }

    /// Whether window `j` is a column.
    #[inline]
    pub fn has_column(&self, j: u64) -> bool
        ensures { IsTrue result
            ↔ ((self.now.first_column ≤ j) × (j < self.now.first_column + length self.now.columns)) }
    {
        self.first_column <= j && j - self.first_column < self.columns.len() as u64
    }

    /// Window `j` is found at this distance from row `i`.
    #[inline]
    pub fn offer_row(&mut self, i: u64, j: u64, dist: Sq)
        requires first { self.old.first_row ≤ i }
        requires last { i < self.old.first_row + length self.old.rows }
        ensures first_row { self.new.first_row ≡ self.old.first_row }
        ensures rows { self.new.rows
            ≡ offered self.old.rows (i - self.old.first_row) (record { dist = dist; index = j }) }
        ensures first_column { self.new.first_column ≡ self.old.first_column }
        ensures columns { self.new.columns ≡ self.old.columns }
    {
        offer_at(&mut self.rows, i - self.first_row, Near { dist, index: j });
    }

    /// Window `i` is found at this distance from column `j`.
    #[inline]
    pub fn offer_column(&mut self, i: u64, j: u64, dist: Sq)
        requires first { self.old.first_column ≤ j }
        requires last { j < self.old.first_column + length self.old.columns }
        ensures first_row { self.new.first_row ≡ self.old.first_row }
        ensures rows { self.new.rows ≡ self.old.rows }
        ensures first_column { self.new.first_column ≡ self.old.first_column }
        ensures columns { self.new.columns
            ≡ offered self.old.columns (j - self.old.first_column) (record { dist = dist; index = i }) }
    {
        offer_at(
            &mut self.columns,
            j - self.first_column,
            Near { dist, index: i },
        );
    }

    /// Row `i` and column `j` are found at this distance from each other.
    #[inline]
    pub fn offer(&mut self, i: u64, j: u64, dist: Sq)
        requires first_row { self.old.first_row ≤ i }
        requires last_row { i < self.old.first_row + length self.old.rows }
        requires first_column { self.old.first_column ≤ j }
        requires last_column { j < self.old.first_column + length self.old.columns }
        requires later { i < j }
        ensures first_row { self.new.first_row ≡ self.old.first_row }
        ensures rows { self.new.rows
            ≡ offered self.old.rows (i - self.old.first_row) (record { dist = dist; index = j }) }
        ensures first_column { self.new.first_column ≡ self.old.first_column }
        ensures columns { self.new.columns
            ≡ offered self.old.columns (j - self.old.first_column) (record { dist = dist; index = i }) }
    {
        self.offer_row(i, j, dist);
        self.offer_column(i, j, dist);
    }
}
