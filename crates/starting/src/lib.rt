// Corners to starts. Any table and any lent columns: a refusal writes nothing.
#![tactic(auto)]

ghost use Rattle.std.specs.Prelude.{◌≡◌};
ghost use Rattle.lists.specs.Answering.{first_of};
ghost use Rattle.words.specs.Answers.{refused, done};
ghost use Rattle.words.specs.Refused.{shown};
ghost use Rattle.admitting.specs.Admitting.{start_findings};
ghost use Rattle.rectangles.specs.Converting.{as_starts, ToStarts};

use grid::Grid;
use words::Refusal;

// Numbers 1 to 6, 7 and 18 of a conversion of corners.
fn starts_judged(
    periods: &[u32],
    lengths: &[u32],
    xs: &[u32],
    ys: &[u32],
    starts: &[u32],
) -> Result<(), Refusal>
    ensures { shown result ≡ first_of (start_findings periods.now lengths.now xs.now ys.now starts.now) refused done }
{
    let n = periods.len();
    if n != xs.len() || n != ys.len() {
        return Err(Refusal::ColumnsDiffer);
    }
    table::judge(periods, lengths)?;
    if starts.len() < n {
        return Err(Refusal::NoRoom);
    }
    match plotting::off_grid(&Grid::of(periods), xs, ys) {
        Some(i) => Err(Refusal::OffGrid(i as u32)),
        None => Ok(()),
    }
}

// The start of every corner: the way back.
pub fn to_starts(
    periods: &[u32],
    lengths: &[u32],
    xs: &[u32],
    ys: &[u32],
    starts: &mut [u32],
) -> Result<(), Refusal>
    ensures { ToStarts periods.now lengths.now xs.now ys.now starts.old (as_starts (shown result) starts.new) }
{
    starts_judged(periods, lengths, xs, ys, starts)?;
    plotting::write_starts(&Grid::of(periods), xs, ys, starts);
    Ok(())
}
