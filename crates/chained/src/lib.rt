// Number 5: of any two periods of the table one divides the other.
#![tactic(auto)]

ghost use Rattle.std.specs.Prelude.{◌≡◌, ℕ, ◌≤◌, ◌<◌, length, get_or, eqb, not, ◌%◌, ◌&&◌};
ghost use Rattle.std.specs.List.{list_any};
ghost use Rattle.lists.specs.Pick.{Tells};
ghost use Rattle.lists.specs.Lowest.{FirstAt};
ghost use Rattle.words.specs.Ticks.{most_period};
ghost use Rattle.probes.specs.Chained.{unchained};
ghost use Rattle.probes.specs.Seen.{most_chained, Seen, Clashes};

use arrayvec::ArrayVec;

// The different periods that a search has met: a limit alone, they stand in an ArrayVec.
#[derive(Drop)]
pub struct Kept {}

impl Kept {
    // As many can divide one another.
    const MOST: usize = 21;

    // The code's limit is that of specs/.
    pub fn tie_most() -> usize
        ensures { result ≡ most_chained }
    {
        Kept::MOST
    }
}

// Whether x is one of the periods that were seen.
fn is_seen(seen: &[u32], x: u32) -> bool
    ensures { result ≡ list_any (λ t. eqb t x) seen.now }
{
    seen.contains(&x)
}

// Whether one of the periods that were seen neither divides x nor is divided by it.
fn clashes(seen: &[u32], x: u32) -> bool
    requires x_nonzero { 0 < x }
    requires by_index { (k : ℕ) → k < length seen.now → 0 < get_or seen.now k 0 }
    ensures { result ≡ list_any (λ t. not (eqb (x % t) 0) && not (eqb (t % x) 0)) seen.now }
{
    seen.iter().any(|t| x % *t != 0 && *t % x != 0)
}

// Number 5: the lowest place whose period is out of the chain with an earlier one. Each period is held against the different ones seen so far.
pub fn unchained(periods: &[u32]) -> Option<usize>
    requires { (k : ℕ) → k < length periods.now → (0 < get_or periods.now k 0) × (get_or periods.now k 0 ≤ most_period) }
    ensures { FirstAt (unchained periods.now) (length periods.now) result }
{
    let mut seen: ArrayVec<u32, { Kept::MOST }> = ArrayVec::new();
    for (i, t) in periods.iter().enumerate() {
        if !is_seen(&seen, *t) {
            if clashes(&seen, *t) {
                return Some(i);
            }
            seen.push(*t);
        }
    }
    None
}
