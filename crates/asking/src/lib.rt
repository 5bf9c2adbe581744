// What is asked of a table, a list and a tick before the timetable answers.
#![tactic(auto)]

ghost use Rattle.std.specs.Prelude.{◌≡◌};
ghost use Rattle.words.specs.Refused.{shown};
ghost use Rattle.hours.specs.Asking.{ask_verdict};

use words::{Refusal, Tick};

// Numbers 1 to 6, 9 and 11, in order.
pub fn judge(periods: &[u32], lengths: &[u32], starts: &[u32], tick: u64) -> Result<(), Refusal>
    ensures { shown result ≡ ask_verdict periods.now lengths.now starts.now tick }
{
    table::judge_list(periods, lengths, starts)?;
    let asked = Tick { at: tick };
    if asked.too_late() {
        return Err(Refusal::TooLate);
    }
    Ok(())
}
