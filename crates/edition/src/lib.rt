// The book's limits that the first edition fixes, the numbers in its bytes, and how many blocks and records there are.
#![tactic(auto)]

ghost use Rattle.std.specs.Prelude.{◌≡◌, ◌+◌, ◌*◌, ◌≤◌, ◌-◌, ◌<◌, length};
ghost use Rattle.sheets.specs.Bytes.{byte_values, word};
ghost use Rattle.sheets.specs.Layout.{first_edition, block_bytes, head_bytes, sum_place, sum_place2, most_n, blocks_of, records_of};

// The book: its constants are what the first edition fixes.
#[derive(Drop)]
pub struct Book {}

impl Book {
    // A byte has as many values.
    pub const BYTE: usize = 256;

    // The bytes of a block; where its records begin, and where its two sums stand.
    pub const BLOCK: usize = 512;

    pub const HEAD: usize = 12;

    pub const SUMS: usize = 504;

    pub const SUMS2: usize = 508;

    // The bytes of a record, the records of a block, the most blocks, the most probes.
    pub const RECORD: usize = 12;

    pub const RECORDS: usize = 41;

    pub const BLOCKS: usize = 7;

    pub const PROBES: usize = 256;

    // The code's limits are those of specs/.
    pub fn tie_byte() -> usize
        ensures { result ≡ byte_values }
    {
        Book::BYTE
    }

    pub fn tie_block() -> usize
        ensures { result ≡ block_bytes }
    {
        Book::BLOCK
    }

    pub fn tie_head() -> usize
        ensures { result ≡ head_bytes }
    {
        Book::HEAD
    }

    pub fn tie_sums() -> usize
        ensures { result ≡ sum_place }
    {
        Book::SUMS
    }

    pub fn tie_sums2() -> usize
        ensures { result ≡ sum_place2 }
    {
        Book::SUMS2
    }

    pub fn tie_record() -> usize
        ensures { result ≡ first_edition.record_bytes }
    {
        Book::RECORD
    }

    pub fn tie_records() -> usize
        ensures { result ≡ first_edition.records }
    {
        Book::RECORDS
    }

    pub fn tie_blocks() -> usize
        ensures { result ≡ first_edition.most_blocks }
    {
        Book::BLOCKS
    }

    pub fn tie_probes() -> usize
        ensures { result ≡ most_n }
    {
        Book::PROBES
    }
}

// The number in the N bytes at a place, least byte first.
#[tactic(auto, using(crate::proofs::Numbers::word_of_four))]
pub fn number<const N: usize>(book: &[u8], at: usize) -> u32
    requires at_in_bounds { at + N ≤ length book.now }
    requires n_le_4 { N ≤ 4 }
    ensures { result ≡ word N at book.now }
{
    let mut bytes = [0u8; 4];
    bytes[..N].copy_from_slice(&book[at..at + N]);
    u32::from_le_bytes(bytes)
}

// How many blocks n probes take.
#[tactic(auto, using(crate::proofs::Counts::blocks_by_division))]
pub fn blocks_of(n: usize) -> usize
    requires { n ≤ most_n }
    ensures { result ≡ blocks_of first_edition n }
{
    n.div_ceil(Book::RECORDS).max(1)
}

// How many records block b holds.
#[tactic(auto, using(crate::proofs::Counts::blocks_within, crate::proofs::Counts::records_by_limit))]
pub fn records_of(n: usize, b: usize) -> usize
    requires n_le_most_n { n ≤ most_n }
    requires b_bound { b < blocks_of first_edition n }
    ensures { result ≡ records_of first_edition n b }
{
    (n - b * Book::RECORDS).min(Book::RECORDS)
}
