// The bytes of records: numbers stored least byte first.
#![tactic(auto)]

ghost use Rattle.std.specs.Prelude.{◌≡◌, ℕ, ◌+◌, ◌≤◌, length};
ghost use Rattle.std.proofs.lemmas.List.Edits.{sets};
ghost use Rattle.sheets.specs.Bytes.{bytes};
ghost use Rattle.sheets.specs.Layout.{first_edition, block_bytes, head_bytes};
ghost use Rattle.sheets.specs.Runs.{run_from};
ghost use Rattle.sheets.specs.Records.{record_of, record_at};

use edition::Book;

// N bytes of x at a place, least first.
#[tactic(auto, using(crate::proofs::Numbers::number_stored))]
pub fn put_number<const N: usize>(block: &mut [u8], at: usize, x: usize)
    requires at_in_bounds { at + N ≤ length block.old }
    requires n_le_8 { N ≤ 8 }
    ensures { block.new ≡ sets block.old at (bytes N x) }
{
    block[at..at + N].copy_from_slice(&x.to_le_bytes()[..N]);
}

// The bytes of one record: period, length, start.
fn put_record(block: &mut [u8], at: usize, period: u32, read: u32, start: u32)
    requires { at + first_edition.record_bytes ≤ length block.old }
    ensures { block.new ≡ sets block.old at (record_of period read start) }
{
    put_number::<4>(block, at, period as usize);
    put_number::<4>(block, at + 4, read as usize);
    put_number::<4>(block, at + 8, start as usize);
}

// k records from record `first` on, from where the records of a block begin.
pub fn put_records(
    block: &mut [u8],
    periods: &[u32],
    lengths: &[u32],
    starts: &[u32],
    first: usize,
    k: usize,
)
    requires block_len { length block.old ≡ block_bytes }
    requires k_le_records { k ≤ first_edition.records }
    requires k_in_bounds { first + k ≤ length periods.now }
    requires k_in_bounds_2 { first + k ≤ length lengths.now }
    requires k_in_bounds_3 { first + k ≤ length starts.now }
    ensures { block.new ≡ sets block.old head_bytes (run_from (record_at periods.now lengths.now starts.now) first k) }
{
    for j in 0..k {
        let i = first + j;
        put_record(
            block,
            Book::HEAD + j * Book::RECORD,
            periods[i],
            lengths[i],
            starts[i],
        );
    }
}
