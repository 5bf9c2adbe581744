// Who holds a tick, of a sound table and list, clean or not; the next start is passed on.
#![tactic(auto)]

ghost use Rattle.std.specs.Prelude.{length};
ghost use Rattle.lists.specs.Lowest.{FirstAt};
ghost use Rattle.hours.specs.Timetable.{holds_test, HolderGiven};
ghost use Rattle.hours.specs.Asking.{Asked};

use asking::judge;
use moments::holds;
pub use upcoming::next_start;
use words::{Held, Refusal};

// The lowest-numbered probe that holds the tick.
fn holding(periods: &[u32], lengths: &[u32], starts: &[u32], tick: u64) -> Option<usize>
    requires { Asked periods.now lengths.now starts.now tick }
    ensures { FirstAt (holds_test periods.now lengths.now starts.now tick) (length periods.now) result }
{
    for i in 0..periods.len() {
        if holds(periods[i], lengths[i], starts[i], tick) {
            return Some(i);
        }
    }
    None
}

// Who holds the tick: any three columns of any length, and any tick.
pub fn holder(
    periods: &[u32],
    lengths: &[u32],
    starts: &[u32],
    tick: u64,
) -> Result<Option<Held>, Refusal>
    ensures { HolderGiven periods.now lengths.now starts.now tick result }
{
    judge(periods, lengths, starts, tick)?;
    match holding(periods, lengths, starts, tick) {
        Some(i) => Ok(Some(Held { probe: i as u32 })),
        None => Ok(None),
    }
}
