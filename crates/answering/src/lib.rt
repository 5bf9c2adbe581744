// What an export gives: the answer of a book, in lent bytes.
#![tactic(auto)]

ghost use Rattle.exports.specs.Exports.{given, Exports};

use questions::Question;
use telling::Told;
use words::{Answer, Refusal};

// Asks a question of a book of any bytes, and writes the answer where 20 bytes are lent.
pub fn give(book: &[u8], question: Question, answer: &mut [u8]) -> u32
    ensures { Exports question book.now answer.old (given result answer.new) }
{
    if answer.len() < Told::BYTES {
        return Answer::from(Refusal::NoRoom).number;
    }
    telling::tell(replies::reply(book, question), answer)
}
