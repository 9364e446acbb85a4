//! The windows of two series as they are scanned.

ghost use Rattle.std.specs.Prelude.{◌≡◌, ◌+◌, ◌-◌, ◌<◌, ◌≤◌, length};
ghost use Rattle.std.specs.List.{between};

use mp_scans::Plan;
use mp_sums::Grid;

/// The rows as columns, and the columns as rows.
pub(crate) fn transposed<'a>(plan: &Plan<'a>) -> Plan<'a>
    ensures m { result.grid.m ≡ plan.now.grid.m }
    ensures rows { result.grid.rows.now ≡ plan.now.grid.columns.now }
    ensures columns { result.grid.columns.now ≡ plan.now.grid.rows.now }
{
    Plan {
        grid: Grid {
            rows: plan.grid.columns,
            columns: plan.grid.rows,
            m: plan.grid.m,
        },
        rounding: plan.rounding,
        is_exact: plan.is_exact,
        is_own: plan.is_own,
    }
}

/// The rows from `top` on and before `bottom` alone.
pub(crate) fn rows_between<'a>(plan: &Plan<'a>, top: usize, bottom: usize) -> Plan<'a>
    requires top { top < bottom }
    requires bottom { bottom + plan.now.grid.m ≤ length plan.now.grid.rows.now + 1 }
    ensures m { result.grid.m ≡ plan.now.grid.m }
    ensures rows { result.grid.rows.now ≡ between top (bottom + plan.now.grid.m - 1) plan.now.grid.rows.now }
    ensures columns { result.grid.columns.now ≡ plan.now.grid.columns.now }
{
    Plan {
        grid: Grid {
            rows: &plan.grid.rows[top..bottom + plan.grid.m - 1],
            columns: plan.grid.columns,
            m: plan.grid.m,
        },
        rounding: plan.rounding,
        is_exact: plan.is_exact,
        is_own: plan.is_own,
    }
}
