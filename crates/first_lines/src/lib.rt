// The first lines that the programs print, put into lent bytes.
#![tactic(auto)]

ghost use Rattle.std.specs.Prelude.{◌≡◌, ◌+◌, ◌≤◌, length};
ghost use Rattle.text.specs.Printing.{Puts};
ghost use Rattle.lines.specs.Lines.{answer_line, check_line, head_line};
ghost use Rattle.lines.specs.Laws.{most_line, most_check};

use text::Printer;
use words::Answer;

// A printed line.
#[derive(Drop)]
pub struct Printed {}

impl Printed {
    // The most bytes of a line of four 32-bit numbers, and of the one line of `check`.
    pub const LINE: usize = 44;

    pub const CHECK: usize = 54;

    // The code's limits are those of specs/.
    pub fn tie_line() -> usize
        ensures { result ≡ most_line }
    {
        Printed::LINE
    }

    pub fn tie_check() -> usize
        ensures { result ≡ most_check }
    {
        Printed::CHECK
    }
}

// A refusal: number and index.
#[tactic(auto, using(crate::proofs::Short::two_short), unfolding(lines::specs::Lines::answer_line))]
pub fn put_answer(printer: &mut Printer, given: Answer)
    requires { printer.old.at + most_line ≤ length printer.old.page.now }
    ensures puts { Puts printer.old (answer_line given) printer.new }
    ensures upper_bound { printer.new.at ≤ printer.old.at + most_line }
{
    printer.put_line(&[u64::from(given.number), u64::from(given.index)]);
}

// What `check` prints: number, both indexes and tick.
#[tactic(auto, using(crate::proofs::Short::check_short), unfolding(lines::specs::Lines::check_line))]
pub fn put_check(printer: &mut Printer, given: Answer)
    requires { printer.old.at + most_check ≤ length printer.old.page.now }
    ensures puts { Puts printer.old (check_line given) printer.new }
    ensures upper_bound { printer.new.at ≤ printer.old.at + most_check }
{
    printer.put_line(&[
        u64::from(given.number),
        u64::from(given.index),
        u64::from(given.second),
        given.tick,
    ]);
}

// The first line of a planned table: number, n and H.
#[tactic(auto, using(crate::proofs::Short::three_short), unfolding(lines::specs::Lines::head_line))]
pub fn put_head(printer: &mut Printer, number: u32, n: u32, rows: u32)
    requires { printer.old.at + most_line ≤ length printer.old.page.now }
    ensures puts { Puts printer.old (head_line number n rows) printer.new }
    ensures upper_bound { printer.new.at ≤ printer.old.at + most_line }
{
    printer.put_line(&[u64::from(number), u64::from(n), u64::from(rows)]);
}
