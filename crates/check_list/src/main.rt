// Reads a book from standard input and checks its list of starts.
#![tactic(auto)]

use first_lines::Printed;
use pages::Page;
use std::io;

fn main(rt: HostRuntime) {
    let mut book = [0u8; Page::INPUT];
    let n = stream::read_full(&mut rt.reader(), &mut book);
    let mut page = [0u8; Printed::CHECK];
    if let Ok(size) = pages::check_page(&book[..n], &mut page) {
        stream::write_all(&mut io::writer(&rt), &page[..size as usize]);
    }
}
