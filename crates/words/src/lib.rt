// The words that every crate shares: a refusal and what a call answers beside it, an answer as the master is shown it, the last tick that may be asked about and the longest period.
#![tactic(auto)]

ghost use Rattle.std.specs.Prelude.{◌≡◌};
ghost use Rattle.words.specs.Answers.{pair, refused, named, done, mark};
ghost use Rattle.words.specs.Ticks.{last_tick, too_late, most_period};

mod refusals;

pub use refusals::Refusal;

// What the master shows: a number of document 01's table, and what that number names. Fields not named are 0.
#[derive(Drop)]
pub struct Answer {
    pub number: u32,
    pub index: u32,
    pub second: u32,
    pub tick: u64,
}

impl Answer {
    // The start of a probe that has no place, and the index of no probe.
    pub const MARK: u32 = 4_294_967_295;

    pub fn done() -> Self
        ensures { result ≡ done }
    {
        Answer {
            number: 0,
            index: 0,
            second: 0,
            tick: 0,
        }
    }

    pub fn refused(number: u32, index: u32) -> Self
        ensures { result ≡ refused number index }
    {
        Answer {
            number,
            index,
            second: 0,
            tick: 0,
        }
    }

    // A call that is done, and what it names.
    pub fn named(index: u32) -> Self
        ensures { result ≡ named index }
    {
        Answer::pair(0, index, 0, 0)
    }

    pub fn pair(number: u32, index: u32, second: u32, tick: u64) -> Self
        ensures { result ≡ pair number index second tick }
    {
        Answer {
            number,
            index,
            second,
            tick,
        }
    }

    // The code's mark is the mark of specs/.
    pub fn tie_mark() -> u32
        ensures { result ≡ mark }
    {
        Answer::MARK
    }
}

// The probe that holds a tick.
#[derive(Clone, Copy, Debug, PartialEq, Eq)]
pub struct Held {
    pub probe: u32,
}

// A read that starts: its probe, and the tick.
#[derive(Clone, Copy, Debug, PartialEq, Eq)]
pub struct NextStart {
    pub probe: u32,
    pub tick: u64,
}

// A tick that is asked about.
#[derive(Drop)]
pub struct Tick {
    pub at: u64,
}

impl Tick {
    // The last one that may be.
    pub const LAST: u64 = 1_099_511_627_776;

    // Number 11: it comes too late.
    pub fn too_late(self) -> bool
        ensures { result ≡ too_late self.at }
    {
        let at = self.at;
        Tick::LAST < at
    }

    // The code's last tick is the last tick of specs/.
    pub fn tie_last() -> u64
        ensures { result ≡ last_tick }
    {
        Tick::LAST
    }
}

// The period of a probe.
#[derive(Drop)]
pub struct Period {
    pub ticks: u32,
}

impl Period {
    // The longest one that may be.
    pub const LONGEST: u32 = 1_048_576;

    // The code's longest period is that of specs/.
    pub fn tie_longest() -> u32
        ensures { result ≡ most_period }
    {
        Period::LONGEST
    }
}
