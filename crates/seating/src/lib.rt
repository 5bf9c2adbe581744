// The probes put into the rows, one after another in planning order.
#![tactic(auto)]

ghost use Rattle.std.specs.Prelude.{◌≡◌, ℕ, ◌≤◌, ◌<◌, length, get_or};
ghost use Rattle.words.specs.Refused.{shown};
ghost use Rattle.probes.specs.Table.{most_probes, rows, shortest};
ghost use Rattle.order.specs.Order.{order};
ghost use Rattle.stack.specs.FirstFit.{outcome, marked, fitted};

use grid::Grid;
use placing::place;
use words::{Answer, Refusal};

// The mark at every probe of the rest of the order.
fn mark_rest(rest: &[u32], starts: &mut [u32])
    requires { (k : ℕ) → k < length rest.now → get_or rest.now k 0 < length starts.old }
    ensures { starts.new ≡ marked rest.now starts.old }
{
    for probe in rest {
        starts[*probe as usize] = Answer::MARK;
    }
}

// First fit: every probe in planning order, over all rows.
pub fn place_all(
    grid: &Grid,
    lengths: &[u32],
    turns: &[u32],
    starts: &mut [u32],
    fills: &mut [u32],
) -> Result<(), Refusal>
    requires periods_len { (length grid.now.periods.now ≡ length lengths.now) × (length grid.now.periods.now ≤ most_probes) × (length grid.now.periods.now ≤ length starts.old) }
    requires turns_value { turns.now ≡ order grid.now.periods.now lengths.now }
    requires by_index { (i : ℕ) → i < length grid.now.periods.now → (0 < get_or lengths.now i 0) × (get_or lengths.now i 0 ≤ shortest grid.now.periods.now) }
    requires fills_len { (length fills.old ≡ rows grid.now.periods.now) × ((r : ℕ) → r < length fills.old → get_or fills.old r 0 ≡ 0) }
    ensures { outcome (shown result) starts.new fills.new ≡ fitted grid.now.periods.now lengths.now (order grid.now.periods.now lengths.now) starts.old fills.old }
{
    for (k, probe) in turns.iter().enumerate() {
        if !place(grid, lengths, *probe as usize, starts, fills) {
            mark_rest(&turns[k..], starts);
            return Err(Refusal::NoPlace(*probe));
        }
    }
    Ok(())
}
