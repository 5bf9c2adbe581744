// The planner; the conversions are passed on. Any table and any lent columns: a refusal writes nothing.
#![tactic(auto)]

ghost use Rattle.std.specs.Prelude.{◌≡◌, OnOk};
ghost use Rattle.lists.specs.Answering.{first_of};
ghost use Rattle.words.specs.Answers.{refused, done};
ghost use Rattle.words.specs.Refused.{shown};
ghost use Rattle.probes.specs.Laws.{Soundness};
ghost use Rattle.stack.specs.FirstFit.{plan_findings, outcome};
ghost use Rattle.rectangles.specs.Plan.{Plans};
ghost use Rattle.rectangles.specs.Ends.{PlanReady};

pub use cornering::to_corners;
use grid::Grid;
pub use starting::to_starts;
use table::Table;
use words::Refusal;

// Numbers 1 to 7 of the planner.
#[tactic(auto, using(crate::proofs::Judged::ways))]
fn plan_judged(
    periods: &[u32],
    lengths: &[u32],
    starts: &[u32],
    fills: &[u32],
) -> Result<(), Refusal>
    ensures value { shown result ≡ first_of (plan_findings periods.now lengths.now starts.now fills.now) refused done }
    ensures ready { OnOk result (PlanReady periods.now lengths.now starts.now fills.now) }
    ensures sound { OnOk result (Soundness periods.now lengths.now) }
{
    table::judge(periods, lengths)?;
    let rows = Table::of(periods).rows as usize;
    if starts.len() < periods.len() || fills.len() < rows {
        return Err(Refusal::NoRoom);
    }
    Ok(())
}

// Plans a table by first fit.
#[tactic(auto, using(crate::proofs::Judged::refused_plan))]
pub fn plan(
    periods: &[u32],
    lengths: &[u32],
    starts: &mut [u32],
    fills: &mut [u32],
) -> Result<(), Refusal>
    ensures { Plans periods.now lengths.now starts.old fills.old (outcome (shown result) starts.new fills.new) }
{
    plan_judged(periods, lengths, starts, fills)?;
    let grid = Grid::of(periods);
    let turns = ranks::order_of(periods, lengths);
    let rows = &mut fills[..grid.table.rows as usize];
    rows::clear(rows);
    seating::place_all(&grid, lengths, &turns, starts, rows)
}
