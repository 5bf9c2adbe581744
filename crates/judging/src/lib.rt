// What one block of the book must be: its first fault, 21, 22 or 23, or none.
#![tactic(auto)]

ghost use Rattle.std.specs.Prelude.{◌≡◌, Bool, ℕ, ◌≤◌, ◌<◌, length};
ghost use Rattle.sheets.specs.Layout.{first_edition, most_n, blocks_of};
ghost use Rattle.sheets.specs.Block.{wrong_sum, wrong_field, used_unused, block_verdict};
ghost use Rattle.judging.specs.Faults.{fault_found};

use edition::Book;

// What is wrong with a block, in the order of its number.
#[derive(Clone, Copy, Debug, PartialEq, Eq)]
pub enum Fault {
    WrongSum,
    WrongField,
    UsedUnused,
}

// 21: a sum is wrong.
#[tactic(auto, unfolding(sheets::specs::Block::wrong_sum))]
fn wrong_sum(block: &[u8; Book::BLOCK]) -> bool
    ensures { result ≡ wrong_sum block.now }
{
    edition::number::<4>(block, Book::SUMS) != sums::byte_sum(block)
        || edition::number::<4>(block, Book::SUMS2) != sums::place_sum(block)
}

// 22: n is above 256, or a field of bytes 0 to 11 is not what the size and n require.
#[tactic(auto, unfolding(sheets::specs::Block::wrong_field))]
fn wrong_field(block: &[u8; Book::BLOCK], n: usize, blocks: usize, b: usize) -> bool
    requires { b < blocks }
    ensures { result ≡ wrong_field first_edition n blocks b block.now }
{
    Book::PROBES < n
        || edition::blocks_of(n) != blocks
        || edition::number::<2>(block, 0) as usize != b
        || edition::number::<2>(block, 2) as usize != blocks
        || edition::number::<2>(block, 4) as usize != edition::records_of(n, b)
        || edition::number::<2>(block, 6) as usize != n
        || edition::number::<4>(block, 8) != 0
}

// 23: an unused record is not zero.
#[tactic(auto, using(edition::proofs::Counts::records_within), unfolding(sheets::specs::Block::used_unused, sheets::specs::Block::unused))]
fn used_unused(block: &[u8; Book::BLOCK], n: usize, b: usize) -> bool
    requires n_le_most_n { n ≤ most_n }
    requires b_bound { b < blocks_of first_edition n }
    ensures { result ≡ used_unused first_edition n b block.now }
{
    let used = Book::HEAD + edition::records_of(n, b) * Book::RECORD;
    !sums::all_zero(block, used)
}

// The first fault that block b of a book of n probes has.
#[tactic(auto, unfolding(sheets::specs::Block::block_verdict))]
pub fn verdict(block: &[u8; Book::BLOCK], n: usize, blocks: usize, b: usize) -> Result<(), Fault>
    requires { b < blocks }
    ensures { fault_found result ≡ block_verdict first_edition n blocks b block.now }
{
    if wrong_sum(block) {
        return Err(Fault::WrongSum);
    }
    if wrong_field(block, n, blocks, b) {
        return Err(Fault::WrongField);
    }
    if used_unused(block, n, b) {
        return Err(Fault::UsedUnused);
    }
    Ok(())
}
