// Why a call is refused: the numbers of document 01 above 0, each with what it names.
#![tactic(auto)]

ghost use Rattle.std.specs.Prelude.{◌≡◌};
ghost use Rattle.words.specs.Refused.{refusal, shown, shown_number, shown_held, shown_next};

use crate::{Answer, Held, NextStart};

// A refusal, in the order of its number. What it holds is the probe, the pair with its tick, or the block.
#[derive(Clone, Copy, Debug, PartialEq, Eq)]
pub enum Refusal {
    ColumnsDiffer,
    TooManyProbes,
    BadPeriod(u32),
    BadLength(u32),
    Unchained(u32),
    TooManyRows,
    NoRoom,
    NoPlace(u32),
    Late(u32),
    Meeting { first: u32, second: u32, tick: u64 },
    TooLate,
    OffGrid(u32),
    BadSize,
    WrongSum(u32),
    WrongField(u32),
    UsedUnused(u32),
    ShortColumn,
}

impl From<Refusal> for Answer {
    ghost from_gives = { λ r a. a ≡ refusal r };

    fn from(refused: Refusal) -> Answer {
        match refused {
            Refusal::ColumnsDiffer => Answer::refused(1, 0),
            Refusal::TooManyProbes => Answer::refused(2, 0),
            Refusal::BadPeriod(probe) => Answer::refused(3, probe),
            Refusal::BadLength(probe) => Answer::refused(4, probe),
            Refusal::Unchained(probe) => Answer::refused(5, probe),
            Refusal::TooManyRows => Answer::refused(6, 0),
            Refusal::NoRoom => Answer::refused(7, 0),
            Refusal::NoPlace(probe) => Answer::refused(8, probe),
            Refusal::Late(probe) => Answer::refused(9, probe),
            Refusal::Meeting {
                first,
                second,
                tick,
            } => Answer::pair(10, first, second, tick),
            Refusal::TooLate => Answer::refused(11, 0),
            Refusal::OffGrid(probe) => Answer::refused(18, probe),
            Refusal::BadSize => Answer::refused(20, 0),
            Refusal::WrongSum(block) => Answer::refused(21, block),
            Refusal::WrongField(block) => Answer::refused(22, block),
            Refusal::UsedUnused(block) => Answer::refused(23, block),
            Refusal::ShortColumn => Answer::refused(24, 0),
        }
    }
}

// A call that is done with nothing to name.
impl From<Result<(), Refusal>> for Answer {
    ghost from_gives = { λ r a. a ≡ shown r };

    fn from(given: Result<(), Refusal>) -> Answer {
        match given {
            Ok(()) => Answer::done(),
            Err(refused) => Answer::from(refused),
        }
    }
}

// A call that is done with a number: of probes, or of bytes.
impl From<Result<u32, Refusal>> for Answer {
    ghost from_gives = { λ r a. a ≡ shown_number r };

    fn from(given: Result<u32, Refusal>) -> Answer {
        match given {
            Ok(number) => Answer::named(number),
            Err(refused) => Answer::from(refused),
        }
    }
}

// Who holds a tick.
impl From<Result<Option<Held>, Refusal>> for Answer {
    ghost from_gives = { λ r a. a ≡ shown_held r };

    fn from(given: Result<Option<Held>, Refusal>) -> Answer {
        match given {
            Ok(held) => Answer::named(held.map_or(Answer::MARK, |held| held.probe)),
            Err(refused) => Answer::from(refused),
        }
    }
}

// When the next read starts.
impl From<Result<Option<NextStart>, Refusal>> for Answer {
    ghost from_gives = { λ r a. a ≡ shown_next r };

    fn from(given: Result<Option<NextStart>, Refusal>) -> Answer {
        match given {
            Ok(Some(next)) => Answer::pair(0, next.probe, 0, next.tick),
            Ok(None) => Answer::named(Answer::MARK),
            Err(refused) => Answer::from(refused),
        }
    }
}
