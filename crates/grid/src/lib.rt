// The grid of a table: corners and starts, one probe at a time.
#![tactic(auto)]

ghost use Rattle.std.specs.Prelude.{◌≡◌, ℕ, ◌≤◌, ◌<◌, length, get_or};
ghost use Rattle.lists.specs.Harmonic.{Harmonic};
ghost use Rattle.probes.specs.Table.{most_period, most_rows, rows, height};
ghost use Rattle.chain.specs.Corners.{corner_x, corner_y, start_of};
ghost use Rattle.chain.specs.CornerLaws.{OnGrid};
ghost use Rattle.grid.specs.Prepared.{Prepared};

use flipping::Chain;
use table::Table;

// The lower left corner of a read's rectangle.
#[derive(Clone, Copy)]
pub struct Corner {
    pub x: u32,
    pub y: u32,
}

// Periods that divide one another, with their w, M and H and their chain of ratios.
#[derive(Clone, Copy)]
pub struct Grid<'a> {
    pub periods: &'a [u32],
    pub table: Table,
    pub chain: Chain,
    pub ghost prepared: { Prepared periods.now table chain },
}

impl<'a> Grid<'a> {
    // The grid of these periods.
    pub fn of(periods: &'a [u32]) -> Grid<'a>
        requires harmonic { Harmonic periods.now }
        requires most { (i : ℕ) → i < length periods.now → get_or periods.now i 0 ≤ most_period }
        requires low { rows periods.now ≤ most_rows }
        ensures { result.periods.now ≡ periods.now }
    {
        Grid {
            periods,
            table: Table::of(periods),
            chain: Chain::of(periods),
        }
    }

    // The height of a read of probe i.
    pub fn height(&self, i: usize) -> u32
        requires { i < length self.now.periods.now }
        ensures { let Ts = self.now.periods.now in result ≡ height Ts (get_or Ts i 0) }
    {
        self.table.longest / self.periods[i]
    }

    // The corner of start s of probe i.
    pub fn corner_of(&self, i: usize, s: u32) -> Corner
        requires i_in_bounds { i < length self.now.periods.now }
        requires s_bound { s < get_or self.now.periods.now i 0 }
        ensures { let Ts = self.now.periods.now in result ≡ record { x = corner_x Ts s; y = corner_y Ts (get_or Ts i 0) s } }
    {
        let w = self.table.shortest;
        let slots = self.periods[i] / w;
        let v = s / w;
        let j = self.chain.flip(slots, v);
        Corner {
            x: s % w,
            y: self.height(i) * j,
        }
    }

    // The start of the corner x, y of probe i.
    pub fn start_of(&self, i: usize, x: u32, y: u32) -> u32
        requires i_in_bounds { i < length self.now.periods.now }
        requires on_grid { let Ts = self.now.periods.now in OnGrid Ts (get_or Ts i 0) x y }
        ensures { let Ts = self.now.periods.now in result ≡ start_of Ts (get_or Ts i 0) x y }
    {
        let w = self.table.shortest;
        let slots = self.periods[i] / w;
        let j = y / self.height(i);
        let v = self.chain.unflip(slots, j);
        x + w * v
    }
}
