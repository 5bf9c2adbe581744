// The parts of a block that is written: its first bytes, its zeros, its sums.
#![tactic(auto)]

ghost use Rattle.std.specs.Prelude.{◌≡◌, ◌-◌, ◌≤◌, ◌<◌, length, take, replicate};
ghost use Rattle.std.proofs.lemmas.List.Edits.{sets};
ghost use Rattle.sheets.specs.Layout.{first_edition, block_bytes, sum_place, most_n, blocks_of};
ghost use Rattle.sheets.specs.Filling.{head_of, sums_of};

use edition::Book;
use records::put_number;

// Bytes 0 to 11 of block b of n probes.
#[tactic(auto, unfolding(sheets::specs::Bytes::bytes, sheets::specs::Filling::head_of))]
pub fn put_head(block: &mut [u8], n: usize, b: usize)
    requires block_len { length block.old ≡ block_bytes }
    requires n_le_most_n { n ≤ most_n }
    requires b_bound { b < blocks_of first_edition n }
    ensures { block.new ≡ sets block.old 0 (head_of first_edition n b) }
{
    put_number::<2>(block, 0, b);
    put_number::<2>(block, 2, edition::blocks_of(n));
    put_number::<2>(block, 4, edition::records_of(n, b));
    put_number::<2>(block, 6, n);
    put_number::<4>(block, 8, 0);
}

// Zeros from a place up to where the sums stand.
#[tactic(auto, using(crate::proofs::Zeros::zeros_stored))]
pub fn put_zeros(block: &mut [u8], from: usize)
    requires block_len { length block.old ≡ block_bytes }
    requires from_le_sum_place { from ≤ sum_place }
    ensures { block.new ≡ sets block.old «from» (replicate (sum_place - «from») 0) }
{
    block[from..Book::SUMS].fill(0);
}

// The two sums, where they stand.
#[tactic(auto, unfolding(sheets::specs::Bytes::bytes, sheets::specs::Filling::sums_of))]
pub fn put_sums(block: &mut [u8])
    requires { length block.old ≡ block_bytes }
    ensures { block.new ≡ sets block.old sum_place (sums_of (take sum_place block.old)) }
{
    let sum = sums::byte_sum(block);
    let sum2 = sums::place_sum(block);
    put_number::<4>(block, Book::SUMS, sum as usize);
    put_number::<4>(block, Book::SUMS2, sum2 as usize);
}
