// What may be asked of a book, and what it answers: the question and specs/ alone, and no function.
#![tactic(auto)]

// What may be asked of a book: whether its list is clean, who holds a tick, the next start from a tick on.
#[derive(Drop)]
pub enum Question {
    IsClean,
    HolderAt(u64),
    StartFrom(u64),
}
