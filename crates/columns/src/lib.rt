// Columns of a table: the least and the longest period, and the lowest place whose period, length or start is not permitted.
#![tactic(auto)]

ghost use Rattle.std.specs.Prelude.{◌≡◌, ◌||◌, eqb, ltb, leb, zip, position};
ghost use Rattle.words.specs.Ticks.{most_period};
ghost use Rattle.probes.specs.Columns.{shortest, longest};

use words::Period;

// w: the least period, 0 where there is none.
#[tactic(auto, using(probes::proofs::Folding::shortest_by_reduce))]
pub fn least(periods: &[u32]) -> u32
    ensures { result ≡ shortest periods.now }
{
    periods.iter().copied().reduce(u32::min).unwrap_or(0)
}

// M: the longest period, 0 where there is none.
#[tactic(auto, using(probes::proofs::Folding::longest_by_fold))]
pub fn greatest(periods: &[u32]) -> u32
    ensures { result ≡ longest periods.now }
{
    periods.iter().fold(0, |m, t| m.max(*t))
}

// Number 3: the lowest place whose period is out of range.
pub fn bad_period(periods: &[u32]) -> Option<usize>
    ensures { result ≡ position (λ t. ltb t 1 || ltb most_period t) periods.now }
{
    periods.iter().position(|t| *t < 1 || Period::LONGEST < *t)
}

// Number 4: the lowest place whose length is 0 or above w.
pub fn bad_length(lengths: &[u32], w: u32) -> Option<usize>
    ensures { result ≡ position (λ p. eqb p 0 || ltb w p) lengths.now }
{
    lengths.iter().position(|p| *p == 0 || w < *p)
}

// Number 9: the lowest place whose start is not below its period.
pub fn late(periods: &[u32], starts: &[u32]) -> Option<usize>
    ensures { result ≡ position (λ x. leb x.0 x.1) (zip periods.now starts.now) }
{
    periods.iter().zip(starts).position(|(t, s)| t <= s)
}
