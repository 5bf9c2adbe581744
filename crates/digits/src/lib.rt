// Numbers in digits over twelve ratios.
#![tactic(auto)]

ghost use Rattle.std.specs.Prelude.{◌≡◌, reverse, ◌≤◌};
ghost use Rattle.probes.specs.Table.{most_rows};
ghost use Rattle.chain.specs.Digits.{product, digits, AllPositive, Digits};
ghost use Rattle.chain.specs.Values.{value_of};
ghost use Rattle.chain.specs.Ratios.{most_ratios};

// A slot in digits, least first.
#[derive(Drop)]
pub struct Slot {
    pub digits: [u32; Slot::PLACES],
}

impl Slot {
    // At most 13 different periods, so at most so many ratios, and so many digits.
    pub const PLACES: usize = 12;

    // The code's number of places is that of specs/.
    pub fn tie_places() -> usize
        ensures { result ≡ most_ratios }
    {
        Slot::PLACES
    }
}

// The digits of v, least first.
pub fn decompose(ratios: [u32; Slot::PLACES], v: u32) -> [u32; Slot::PLACES]
    requires { AllPositive ratios }
    ensures { result ≡ digits ratios v }
{
    let mut d = [0u32; Slot::PLACES];
    let mut rest = v;
    for (place, b) in ratios.iter().enumerate() {
        d[place] = rest % b;
        rest /= b;
    }
    d
}

// The same twelve from the other end.
pub fn reverse(mut d: [u32; Slot::PLACES]) -> [u32; Slot::PLACES]
    ensures { result ≡ reverse d }
{
    d.reverse();
    d
}

// The number that the digits stand for.
pub fn compose(ratios: [u32; Slot::PLACES], d: [u32; Slot::PLACES]) -> u32
    requires digits { Digits ratios d }
    requires ratios_bound { product ratios ≤ most_rows }
    ensures { result ≡ value_of ratios d }
{
    let mut v: u32 = 0;
    for place in (0..Slot::PLACES).rev() {
        v = v * ratios[place] + d[place];
    }
    v
}
