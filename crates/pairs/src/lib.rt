// A list whose probes can be held against each other: whether two of them ever meet, and the first tick that they share.
#![tactic(auto)]

ghost use Rattle.std.specs.Prelude.{◌≡◌, ◌≤◌, ◌<◌, length};
ghost use Rattle.wire.specs.Meeting.{lag, apart_at, tick_at};
ghost use Rattle.probes.specs.Table.{most_period};
ghost use Rattle.pairs.specs.Range.{Listed};
ghost use Rattle.pairs.specs.Probes.{probe_at, Ordered, apart_of, tick_of};

// One probe of a list: its period, the ticks that its read takes, and its start.
#[derive(Clone, Copy)]
struct Probe {
    period: u32,
    width: u32,
    start: u32,
}

// Two probes, the one with the shorter period first.
#[derive(Clone, Copy)]
struct Pair {
    one: Probe,
    other: Probe,
    ghost ordered: { Ordered one other },
}

impl Pair {
    // The pair of two probes, of which the second has no shorter period.
    fn of(one: Probe, other: Probe) -> Pair
        requires { Ordered one other }
        ensures first { result.one ≡ one }
        ensures second { result.other ≡ other }
    {
        Pair { one, other }
    }

    // d: the remainder of the second start less the first by the shorter period, from 0 up.
    #[tactic(auto, unfolding(wire::specs::Meeting::lag))]
    fn lag(&self) -> u32
        ensures value { result ≡ lag self.now.one.period self.now.one.start self.now.other.start }
        ensures below { result < self.now.one.period }
    {
        let Pair { one, other } = self;
        (other.start + (one.period - one.start)) % one.period
    }

    // Whether they never meet: the published condition.
    #[tactic(auto, unfolding(wire::specs::Meeting::apart))]
    fn apart(&self) -> bool
        ensures { result ≡ apart_of self.now.one self.now.other }
    {
        let Pair { one, other } = self;
        let d = self.lag();
        one.width <= d && d + other.width <= one.period
    }

    // The first tick that they share where they are not apart: the longer one's read begins in a read, or runs into the next;
    // or the shorter one starts during the longer one's first read, or meets its second.
    #[tactic(auto, unfolding(wire::specs::Meeting::shared_tick))]
    fn shared_tick(&self) -> u32
        ensures { result ≡ tick_of self.now.one self.now.other }
    {
        let Pair { one, other } = self;
        let d = self.lag();
        if one.start <= other.start {
            if d < one.width {
                other.start
            } else {
                other.start + (one.period - d)
            }
        } else if one.start < other.start + other.width {
            one.start
        } else {
            other.start + other.period
        }
    }
}

// A list that passes 1 to 6 and 9: the columns of a sound table, and as many starts, each below its period.
#[derive(Clone, Copy)]
pub struct List<'a> {
    pub periods: &'a [u32],
    pub lengths: &'a [u32],
    pub starts: &'a [u32],
    pub ghost listed: { Listed periods.now lengths.now starts.now },
}

impl<'a> List<'a> {
    // Probe i.
    fn probe(&self, i: usize) -> Probe
        requires { i < length self.now.periods.now }
        ensures { result ≡ probe_at self.now.periods.now self.now.lengths.now self.now.starts.now i }
    {
        Probe {
            period: self.periods[i],
            width: self.lengths[i],
            start: self.starts[i],
        }
    }

    // Whether probes i and j never meet: d is taken by the shorter period.
    pub fn apart_at(&self, i: usize, j: usize) -> bool
        requires i_in_bounds { i < length self.now.periods.now }
        requires j_in_bounds { j < length self.now.periods.now }
        ensures { result ≡ apart_at self.now.periods.now self.now.lengths.now self.now.starts.now i j }
    {
        let one = self.probe(i);
        let other = self.probe(j);
        if one.period <= other.period {
            Pair::of(one, other).apart()
        } else {
            Pair::of(other, one).apart()
        }
    }

    // Their first shared tick.
    pub fn tick_at(&self, i: usize, j: usize) -> u32
        requires i_in_bounds { i < length self.now.periods.now }
        requires j_in_bounds { j < length self.now.periods.now }
        ensures { result ≡ tick_at self.now.periods.now self.now.lengths.now self.now.starts.now i j }
    {
        let one = self.probe(i);
        let other = self.probe(j);
        if one.period <= other.period {
            Pair::of(one, other).shared_tick()
        } else {
            Pair::of(other, one).shared_tick()
        }
    }
}
