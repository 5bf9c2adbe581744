// Starts to corners. Any table and any lent columns: a refusal writes nothing.
#![tactic(auto)]

ghost use Rattle.std.specs.Prelude.{◌≡◌};
ghost use Rattle.lists.specs.Answering.{first_of};
ghost use Rattle.words.specs.Answers.{refused, done};
ghost use Rattle.words.specs.Refused.{shown};
ghost use Rattle.admitting.specs.Admitting.{corner_findings};
ghost use Rattle.rectangles.specs.Converting.{corners, ToCorners};

use grid::Grid;
use words::Refusal;

// Numbers 1 to 6, 7 and 9 of a conversion of starts.
fn corners_judged(
    periods: &[u32],
    lengths: &[u32],
    starts: &[u32],
    xs: &[u32],
    ys: &[u32],
) -> Result<(), Refusal>
    ensures { shown result ≡ first_of (corner_findings periods.now lengths.now starts.now xs.now ys.now) refused done }
{
    let n = periods.len();
    if n != starts.len() {
        return Err(Refusal::ColumnsDiffer);
    }
    table::judge(periods, lengths)?;
    if xs.len() < n || ys.len() < n {
        return Err(Refusal::NoRoom);
    }
    match columns::late(periods, starts) {
        Some(i) => Err(Refusal::Late(i as u32)),
        None => Ok(()),
    }
}

// The rectangle's corner of every start, as it stands: nothing is moved.
pub fn to_corners(
    periods: &[u32],
    lengths: &[u32],
    starts: &[u32],
    xs: &mut [u32],
    ys: &mut [u32],
) -> Result<(), Refusal>
    ensures { ToCorners periods.now lengths.now starts.now xs.old ys.old (corners (shown result) xs.new ys.new) }
{
    corners_judged(periods, lengths, starts, xs, ys)?;
    plotting::write_corners(&Grid::of(periods), starts, xs, ys);
    Ok(())
}
