// One probe put into the rows.
#![tactic(auto)]

ghost use Rattle.placing.specs.Placing.{Ready, Tried};

use grid::Grid;

// Puts probe i into its lowest sub-bin with room: its start is written and its rows are raised. Where there is none, nothing changes.
pub fn place(grid: &Grid, lengths: &[u32], i: usize, starts: &mut [u32], fills: &mut [u32]) -> bool
    requires { Ready grid.now.periods.now lengths.now grid.now.table grid.now.chain starts.old fills.old i }
    ensures { Tried grid.now.periods.now lengths.now starts.old fills.old i result starts.new fills.new }
{
    let p = lengths[i];
    let h = grid.height(i) as usize;
    let Some(y) = rows::lowest_row(fills, h, p, grid.table.shortest) else {
        return false;
    };
    starts[i] = grid.start_of(i, fills[y], y as u32);
    rows::raise_rows(fills, y, h, p);
    true
}
