// When the next read starts, of a sound table and list, clean or not.
#![tactic(auto)]

ghost use Rattle.std.specs.Prelude.{◌≡◌, ◌<◌, length, IfSome};
ghost use Rattle.words.specs.Answers.{mark};
ghost use Rattle.words.specs.Refused.{next_shown};
ghost use Rattle.hours.specs.Timetable.{next_of, NextGiven};
ghost use Rattle.hours.specs.Asking.{Timed};

use asking::judge;
use moments::first_from;
use words::{NextStart, Refusal};

// The least start from the tick on, with the lowest such probe.
fn soonest(periods: &[u32], starts: &[u32], tick: u64) -> Option<NextStart>
    requires { Timed periods.now starts.now tick }
    ensures next { next_shown result ≡ next_of periods.now starts.now tick (length periods.now) }
    ensures named { IfSome result (λ next. next.probe < mark) }
{
    let mut best: Option<NextStart> = None;
    for k in 0..periods.len() {
        let next = NextStart {
            probe: k as u32,
            tick: first_from(periods[k], starts[k], tick),
        };
        match best {
            Some(first) if first.tick <= next.tick => {}
            _ => best = Some(next),
        }
    }
    best
}

// The next start from the tick on: any three columns of any length, and any tick.
pub fn next_start(
    periods: &[u32],
    lengths: &[u32],
    starts: &[u32],
    tick: u64,
) -> Result<Option<NextStart>, Refusal>
    ensures { NextGiven periods.now lengths.now starts.now tick result }
{
    judge(periods, lengths, starts, tick)?;
    Ok(soonest(periods, starts, tick))
}
