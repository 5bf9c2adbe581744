// Whole blocks of a book.
#![tactic(auto)]

ghost use Rattle.std.specs.Prelude.{◌≡◌, ◌+◌, ◌*◌, ◌≤◌, ◌<◌, length};
ghost use Rattle.std.proofs.lemmas.List.Edits.{sets};
ghost use Rattle.sheets.specs.Layout.{first_edition, block_bytes, most_n, blocks_of};
ghost use Rattle.sheets.specs.Runs.{run_from};
ghost use Rattle.sheets.specs.Filling.{block_of};

use edition::Book;
use filling::{put_head, put_sums, put_zeros};
use records::put_records;

// Block b of the book of three columns.
#[tactic(auto, using(edition::proofs::Counts::records_within, edition::proofs::Counts::records_end))]
fn put_block(block: &mut [u8], periods: &[u32], lengths: &[u32], starts: &[u32], b: usize)
    requires block_len { length block.old ≡ block_bytes }
    requires periods_len_bound { length periods.now ≤ most_n }
    requires periods_len { length periods.now ≡ length lengths.now }
    requires periods_len_2 { length periods.now ≡ length starts.now }
    requires b_bound { b < blocks_of first_edition (length periods.now) }
    ensures { block.new ≡ block_of first_edition periods.now lengths.now starts.now b }
{
    let n = periods.len();
    let k = edition::records_of(n, b);
    put_head(block, n, b);
    put_records(block, periods, lengths, starts, b * Book::RECORDS, k);
    put_zeros(block, Book::HEAD + k * Book::RECORD);
    put_sums(block);
}

// The blocks of the book of three columns, one after another.
pub fn put_blocks(periods: &[u32], lengths: &[u32], starts: &[u32], blocks: usize, out: &mut [u8])
    requires periods_len_bound { length periods.now ≤ most_n }
    requires periods_len { length periods.now ≡ length lengths.now }
    requires periods_len_2 { length periods.now ≡ length starts.now }
    requires blocks_value { blocks ≡ blocks_of first_edition (length periods.now) }
    requires block_bytes_in_bounds { blocks * block_bytes ≤ length out.old }
    ensures { out.new ≡ sets out.old 0 (run_from (block_of first_edition periods.now lengths.now starts.now) 0 blocks) }
{
    for b in 0..blocks {
        let at = b * Book::BLOCK;
        put_block(&mut out[at..at + Book::BLOCK], periods, lengths, starts, b);
    }
}
