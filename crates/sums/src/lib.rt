// The two sums of a block, and a run of zeros.
#![tactic(auto)]

ghost use Rattle.std.specs.Prelude.{◌≡◌, ◌≤◌, take, drop, length};
ghost use Rattle.sheets.specs.Bytes.{byte_sum, place_sum, all_zero};
ghost use Rattle.sheets.specs.Layout.{block_bytes, sum_place};

use edition::Book;

// The bytes of a block that its sums are of.
fn summed(block: &[u8]) -> &[u8]
    requires { length block.now ≡ block_bytes }
    ensures value { result.now ≡ take sum_place block.now }
    ensures len { length result.now ≡ sum_place }
{
    &block[..Book::SUMS]
}

// The sum of some bytes.
#[tactic(auto, using(crate::proofs::Totals::byte_sum_by_sum))]
fn total(bytes: &[u8]) -> u32
    requires { length bytes.now ≤ block_bytes }
    ensures { result ≡ byte_sum bytes.now }
{
    bytes.iter().map(|byte| *byte as u32).sum()
}

// The sum of (place + 1) times byte, of some bytes.
fn weighted(bytes: &[u8]) -> u32
    requires { length bytes.now ≤ sum_place }
    ensures { result ≡ place_sum 0 bytes.now }
{
    let mut sum = 0;
    for (place, byte) in bytes.iter().enumerate() {
        sum += (place as u32 + 1) * *byte as u32;
    }
    sum
}

// Whether some bytes are all zero.
fn are_zero(bytes: &[u8]) -> bool
    ensures { result ≡ all_zero bytes.now }
{
    bytes.iter().all(|byte| *byte == 0)
}

// The sum of a block's bytes, up to where the sums stand.
pub fn byte_sum(block: &[u8]) -> u32
    requires { length block.now ≡ block_bytes }
    ensures { result ≡ byte_sum (take sum_place block.now) }
{
    total(&block[..Book::SUMS])
}

// The sum of (place + 1) times byte over the same bytes.
pub fn place_sum(block: &[u8]) -> u32
    requires { length block.now ≡ block_bytes }
    ensures { result ≡ place_sum 0 (take sum_place block.now) }
{
    weighted(summed(block))
}

// Whether the bytes from a place up to the sums are zero.
pub fn all_zero(block: &[u8], from: usize) -> bool
    requires block_len { length block.now ≡ block_bytes }
    requires from_le_sum_place { from ≤ sum_place }
    ensures { result ≡ all_zero (drop from (take sum_place block.now)) }
{
    are_zero(&summed(block)[from..])
}
