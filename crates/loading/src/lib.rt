// What a book holds: its size, the first bad block, and a column of its records.
#![tactic(auto)]

ghost use Rattle.std.specs.Prelude.{◌≡◌, Bool, false, ◌++◌, ℕ, ◌*◌, ◌≤◌, length, drop, IfOk};
ghost use Rattle.words.specs.Answers.{refused};
ghost use Rattle.words.specs.Refused.{refusal, shown_number};
ghost use Rattle.sheets.specs.Layout.{first_edition, block_bytes, most_n, blocks_of};
ghost use Rattle.sheets.specs.Blocks.{bad_size, judged_blocks, column};
ghost use Rattle.judging.specs.Faults.{fault_number};
ghost use Rattle.loading.specs.Fields.{field_number};

use edition::Book;
use judging::Fault;
use words::Refusal;

// A number of a record, in the order of a record's bytes.
#[derive(Clone, Copy, Debug, PartialEq, Eq)]
pub enum Field {
    Period,
    Length,
    Start,
}

impl Field {
    // The byte of a record where it begins.
    fn place(self) -> usize
        ensures { result ≡ field_number self * 4 }
    {
        match self {
            Field::Period => 0,
            Field::Length => 4,
            Field::Start => 8,
        }
    }
}

// 20: size 0, no multiple of a block, or above the most blocks.
#[tactic(auto, unfolding(sheets::specs::Blocks::bad_size))]
pub fn bad_size(book: &[u8]) -> bool
    ensures { result ≡ bad_size first_edition book.now }
{
    let size = book.len();
    size == 0 || size % Book::BLOCK != 0 || Book::BLOCKS * Book::BLOCK < size
}

// A block's fault as a refusal.
fn refused(fault: Fault, block: u32) -> Refusal
    ensures { refusal result ≡ refused (fault_number fault) block }
{
    match fault {
        Fault::WrongSum => Refusal::WrongSum(block),
        Fault::WrongField => Refusal::WrongField(block),
        Fault::UsedUnused => Refusal::UsedUnused(block),
    }
}

// The first block that has a fault is refused for it; where none has one, n.
pub fn judge_blocks(book: &[u8]) -> Result<u32, Refusal>
    requires { bad_size first_edition book.now ≡ false }
    ensures judged { shown_number result ≡ judged_blocks first_edition book.now }
    ensures few { IfOk result (λ n. n ≤ most_n) }
    ensures room { IfOk result (λ n. blocks_of first_edition n * block_bytes ≤ length book.now) }
{
    let n = edition::number::<2>(book, 6);
    let (blocks, _) = book.as_chunks::<{ Book::BLOCK }>();
    for (b, block) in blocks.iter().enumerate() {
        if let Err(fault) = judging::verdict(block, n as usize, blocks.len(), b) {
            return Err(refused(fault, b as u32));
        }
    }
    Ok(n)
}

// A number of each of the first n records, into a column.
pub fn load(book: &[u8], field: Field, n: usize, into: &mut [u32])
    requires n_le_most_n { n ≤ most_n }
    requires block_bytes_in_bounds { blocks_of first_edition n * block_bytes ≤ length book.now }
    requires n_in_bounds { n ≤ length into.old }
    ensures { into.new ≡ column first_edition book.now (field_number field) 0 n ++ drop n into.old }
{
    for (i, entry) in into[..n].iter_mut().enumerate() {
        let block = i / Book::RECORDS * Book::BLOCK;
        let record = i % Book::RECORDS * Book::RECORD;
        *entry = edition::number::<4>(book, block + Book::HEAD + record + field.place());
    }
}
