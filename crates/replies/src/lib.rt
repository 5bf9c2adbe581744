// What the bytes of a book answer to a question: the book is read, then the library's call is made on its columns.
#![tactic(auto)]

ghost use Rattle.questions.specs.Replies.{Replies, Answers};

use edition::Book;
use questions::Question;
use words::Answer;

// The library's call on three columns.
#[tactic(auto, unfolding(questions::specs::Replies::Replies))]
fn ask(question: Question, periods: &[u32], lengths: &[u32], starts: &[u32]) -> Answer
    ensures { Replies question periods.now lengths.now starts.now result }
{
    match question {
        Question::IsClean => Answer::from(checker::check(periods, lengths, starts)),
        Question::HolderAt(tick) => Answer::from(timetable::holder(periods, lengths, starts, tick)),
        Question::StartFrom(tick) => {
            Answer::from(timetable::next_start(periods, lengths, starts, tick))
        }
    }
}

// The answer of a book of any bytes.
#[tactic(auto, using(crate::proofs::Opened::answers_opened))]
pub fn reply(book: &[u8], question: Question) -> Answer
    ensures { Answers question book.now result }
{
    let mut periods = [0u32; Book::PROBES];
    let mut lengths = [0u32; Book::PROBES];
    let mut starts = [0u32; Book::PROBES];
    match book::read(book, &mut periods, &mut lengths, &mut starts) {
        Ok(probes) => {
            let n = probes as usize;
            ask(question, &periods[..n], &lengths[..n], &starts[..n])
        }
        Err(refused) => Answer::from(refused),
    }
}
