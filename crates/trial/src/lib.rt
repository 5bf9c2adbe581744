// An answer as five numbers, for the exports that tests and benchmarks call.
#![tactic(auto)]

use words::Answer;

// Into `out`, where it is long enough: number, index, second index, the tick's lower and upper half.
pub fn tell(given: Answer, out: &mut [u32]) {
    if let [number, index, second, low, high, ..] = out {
        *number = given.number;
        *index = given.index;
        *second = given.second;
        *low = (given.tick % (1 << 32)) as u32;
        *high = (given.tick >> 32) as u32;
    }
}
