// An answer in lent bytes.
#![tactic(auto)]

ghost use Rattle.std.specs.Prelude.{◌≡◌, ◌++◌, ◌≤◌, length, drop};
ghost use Rattle.telling.specs.Shown.{answer_bytes, shown};

use words::Answer;

// The bytes of an answer.
#[derive(Drop)]
pub struct Told {}

impl Told {
    pub const BYTES: usize = 20;

    // The code's limit is that of specs/.
    pub fn tie_bytes() -> usize
        ensures { result ≡ answer_bytes }
    {
        Told::BYTES
    }
}

// Writes an answer: number, index and second index in four bytes each, the tick in eight. The number comes back.
pub fn tell(said: Answer, answer: &mut [u8]) -> u32
    requires { answer_bytes ≤ length answer.old }
    ensures { (result ≡ said.number) × (answer.new ≡ shown said ++ drop answer_bytes answer.old) }
{
    records::put_number::<4>(answer, 0, said.number as usize);
    records::put_number::<4>(answer, 4, said.index as usize);
    records::put_number::<4>(answer, 8, said.second as usize);
    records::put_number::<8>(answer, 12, said.tick as usize);
    said.number
}
