// The whole text that `check` prints of a book of any bytes, put into lent bytes.
#![tactic(auto)]

ghost use Rattle.words.specs.Refused.{shown_number};
ghost use Rattle.paper.specs.Paper.{paper, CheckPrints};

use first_lines::Printed;
use questions::Question;
use text::Printer;
use words::Refusal;

// What `check` prints: the page's length.
pub fn check_page(book: &[u8], out: &mut [u8]) -> Result<u32, Refusal>
    ensures { CheckPrints book.now out.old (paper (shown_number result) out.new) }
{
    if out.len() < Printed::CHECK {
        return Err(Refusal::NoRoom);
    }
    let mut printer = Printer::over(out);
    first_lines::put_check(&mut printer, replies::reply(book, Question::IsClean));
    Ok(printer.at as u32)
}
