// Reading a book of any bytes; writing is passed on.
#![tactic(auto)]

ghost use Rattle.std.specs.Prelude.{◌<◌};
ghost use Rattle.words.specs.Refused.{shown_number};
ghost use Rattle.sheets.specs.Layout.{first_edition};
ghost use Rattle.volumes.specs.Reading.{columns, Reads};

use loading::{Field, bad_size, judge_blocks, load};
use words::Refusal;
pub use writing::write;

// Reads a book of any bytes into three columns of any lengths; what is done is named by n.
#[tactic(auto, using(volumes::specs::ReadLaws::reads_as, crate::proofs::Ways::block_refused, crate::proofs::Ways::columns_filled), unfolding(volumes::specs::Reading::read_of, volumes::specs::Reading::read_findings, lists::specs::Answering::first_of))]
pub fn read(
    book: &[u8],
    periods: &mut [u32],
    lengths: &mut [u32],
    starts: &mut [u32],
) -> Result<u32, Refusal>
    ensures { Reads first_edition book.now periods.old lengths.old starts.old (columns (shown_number result) periods.new lengths.new starts.new) }
{
    if bad_size(book) {
        return Err(Refusal::BadSize);
    }
    let probes = judge_blocks(book)?;
    let n = probes as usize;
    if periods.len() < n || lengths.len() < n || starts.len() < n {
        return Err(Refusal::ShortColumn);
    }
    load(book, Field::Period, n, periods);
    load(book, Field::Length, n, lengths);
    load(book, Field::Start, n, starts);
    Ok(probes)
}
