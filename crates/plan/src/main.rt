// Reads a book from standard input and prints its plan.
#![tactic(auto)]

use pages::Page;
use std::io;

fn main(rt: HostRuntime) {
    let mut book = [0u8; Page::INPUT];
    let n = stream::read_full(&mut rt.reader(), &mut book);
    let mut page = [0u8; Page::PLAN];
    if let Ok(size) = pages::plan_page(&book[..n], &mut page) {
        stream::write_all(&mut io::writer(&rt), &page[..size as usize]);
    }
}
