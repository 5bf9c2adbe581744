// The exports for masters: a book's bytes, a tick for the timetable, and 20 lent bytes for the answer.
#![tactic(auto)]

ghost use Rattle.questions.specs.declared.Question.TheVariants.{IsClean, HolderAt, StartFrom};
ghost use Rattle.exports.specs.Exports.{given, Exports};

use questions::Question;

// Whether the book's list is clean.
#[unsafe(no_mangle)]
pub extern "C" fn line_check(book: &[u8], answer: &mut [u8]) -> u32
    ensures { Exports IsClean book.now answer.old (given result answer.new) }
{
    answering::give(book, Question::IsClean, answer)
}

// Who holds the tick.
#[unsafe(no_mangle)]
pub extern "C" fn line_holder(book: &[u8], tick: u64, answer: &mut [u8]) -> u32
    ensures { Exports (HolderAt tick) book.now answer.old (given result answer.new) }
{
    answering::give(book, Question::HolderAt(tick), answer)
}

// The next start from the tick on.
#[unsafe(no_mangle)]
pub extern "C" fn line_next_start(book: &[u8], tick: u64, answer: &mut [u8]) -> u32
    ensures { Exports (StartFrom tick) book.now answer.old (given result answer.new) }
{
    answering::give(book, Question::StartFrom(tick), answer)
}
