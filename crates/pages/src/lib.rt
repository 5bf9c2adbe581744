// The whole text that `plan` prints of a book of any bytes, put into lent bytes; the page of `check` is passed on.
#![tactic(auto)]

ghost use Rattle.std.specs.Prelude.{◌≡◌, ◌+◌, ◌≤◌, length};
ghost use Rattle.words.specs.Refused.{shown_number};
ghost use Rattle.text.specs.Printing.{Puts};
ghost use Rattle.paper.specs.Printed.{plan_page};
ghost use Rattle.paper.specs.Paper.{most_plan, most_input, paper, PlanPrints};

pub use check_paper::check_page;
use drafting::put_plan;
use edition::Book;
use text::Printer;
use words::{Answer, Refusal};

// The page of `plan`.
#[derive(Drop)]
pub struct Page {}

impl Page {
    // Room for the longest: a first line, and a line for each of 256 probes.
    pub const PLAN: usize = 11_308;

    // One byte more than the longest book: whatever is longer is refused by its size, and need not be read to its end.
    pub const INPUT: usize = 3_585;

    // The code's limits are those of specs/.
    pub fn tie_plan() -> usize
        ensures { result ≡ most_plan }
    {
        Page::PLAN
    }

    pub fn tie_input() -> usize
        ensures { result ≡ most_input }
    {
        Page::INPUT
    }
}

// The text of a book: of its table, planned, or of its refusal.
fn put_page(printer: &mut Printer, book: &[u8])
    requires { printer.old.at + most_plan ≤ length printer.old.page.now }
    ensures puts { Puts printer.old (plan_page book.now) printer.new }
    ensures upper_bound { printer.new.at ≤ printer.old.at + most_plan }
{
    let mut periods = [0u32; Book::PROBES];
    let mut lengths = [0u32; Book::PROBES];
    let mut starts = [0u32; Book::PROBES];
    match book::read(book, &mut periods, &mut lengths, &mut starts) {
        Ok(probes) => {
            let n = probes as usize;
            put_plan(printer, &periods[..n], &lengths[..n]);
        }
        Err(refused) => first_lines::put_answer(printer, Answer::from(refused)),
    }
}

// What `plan` prints: the page's length.
pub fn plan_page(book: &[u8], out: &mut [u8]) -> Result<u32, Refusal>
    ensures { PlanPrints book.now out.old (paper (shown_number result) out.new) }
{
    if out.len() < Page::PLAN {
        return Err(Refusal::NoRoom);
    }
    let mut printer = Printer::over(out);
    put_page(&mut printer, book);
    Ok(printer.at as u32)
}
