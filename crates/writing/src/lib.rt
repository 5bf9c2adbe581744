// Writing a book.
#![tactic(auto)]

ghost use Rattle.std.specs.Prelude.{◌*◌, ◌<◌};
ghost use Rattle.words.specs.Refused.{shown_number};
ghost use Rattle.sheets.specs.Layout.{first_edition};
ghost use Rattle.volumes.specs.Writing.{pages, Writes};

use blocks::put_blocks;
use edition::Book;
use words::Refusal;

// Writes three columns of any lengths as a book; what is done is named by the bytes written.
#[tactic(auto, using(edition::proofs::Counts::blocks_within, volumes::proofs::WriteLaws::writes_as), unfolding(volumes::specs::Writing::write_of, volumes::specs::Writing::write_findings, lists::specs::Answering::first_of))]
pub fn write(
    periods: &[u32],
    lengths: &[u32],
    starts: &[u32],
    out: &mut [u8],
) -> Result<u32, Refusal>
    ensures { Writes first_edition periods.now lengths.now starts.now out.old (pages (shown_number result) out.new) }
{
    let n = periods.len();
    if n != starts.len() || n != lengths.len() {
        return Err(Refusal::ColumnsDiffer);
    }
    if Book::PROBES < n {
        return Err(Refusal::TooManyProbes);
    }
    let blocks = edition::blocks_of(n);
    let size = blocks * Book::BLOCK;
    if out.len() < size {
        return Err(Refusal::NoRoom);
    }
    put_blocks(periods, lengths, starts, blocks, out);
    Ok(size as u32)
}
