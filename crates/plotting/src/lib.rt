// Columns of corners and of starts: the first corner off the grid, and every corner or start written.
#![tactic(auto)]

ghost use Rattle.std.specs.Prelude.{◌≡◌, ℕ, ◌≤◌, ◌<◌, length, get_or};
ghost use Rattle.lists.specs.Lowest.{FirstAt};
ghost use Rattle.lists.specs.Counted.{filled};
ghost use Rattle.chain.specs.CornerLaws.{OnGrid};
ghost use Rattle.chain.specs.Grid.{x_at, y_at, start_at, off_grid};

use grid::Grid;

// Number 18: the lowest place whose corner is off the grid.
pub fn off_grid(grid: &Grid, xs: &[u32], ys: &[u32]) -> Option<usize>
    requires long_x { length grid.now.periods.now ≤ length xs.now }
    requires long_y { length grid.now.periods.now ≤ length ys.now }
    ensures { let Ts = grid.now.periods.now in FirstAt (off_grid Ts xs.now ys.now) (length Ts) result }
{
    for i in 0..grid.periods.len() {
        let y = ys[i];
        if grid.table.shortest <= xs[i] || y % grid.height(i) != 0 || grid.chain.rows <= y {
            return Some(i);
        }
    }
    None
}

// The corners of all starts, into two columns.
pub fn write_corners(grid: &Grid, starts: &[u32], xs: &mut [u32], ys: &mut [u32])
    requires long { length grid.now.periods.now ≤ length starts.now }
    requires long_x { length grid.now.periods.now ≤ length xs.old }
    requires long_y { length grid.now.periods.now ≤ length ys.old }
    requires below { let Ts = grid.now.periods.now in (i : ℕ) → i < length Ts → get_or starts.now i 0 < get_or Ts i 0 }
    ensures xs { let Ts = grid.now.periods.now in xs.new ≡ filled (x_at Ts starts.now) (length Ts) xs.old }
    ensures ys { let Ts = grid.now.periods.now in ys.new ≡ filled (y_at Ts starts.now) (length Ts) ys.old }
{
    for i in 0..grid.periods.len() {
        let corner = grid.corner_of(i, starts[i]);
        xs[i] = corner.x;
        ys[i] = corner.y;
    }
}

// The starts of all corners, into one column.
pub fn write_starts(grid: &Grid, xs: &[u32], ys: &[u32], starts: &mut [u32])
    requires long_x { length grid.now.periods.now ≤ length xs.now }
    requires long_y { length grid.now.periods.now ≤ length ys.now }
    requires long { length grid.now.periods.now ≤ length starts.old }
    requires on_grid { let Ts = grid.now.periods.now in (i : ℕ) → i < length Ts → OnGrid Ts (get_or Ts i 0) (get_or xs.now i 0) (get_or ys.now i 0) }
    ensures { let Ts = grid.now.periods.now in starts.new ≡ filled (start_at Ts xs.now ys.now) (length Ts) starts.old }
{
    for i in 0..grid.periods.len() {
        starts[i] = grid.start_of(i, xs[i], ys[i]);
    }
}
