// Text in lent bytes: a printer, and what it puts behind what it put before.
#![tactic(auto)]

ghost use Rattle.std.specs.Prelude.{◌≡◌, [], ◌∷◌, ◌+◌, ◌≤◌, ◌<◌, length, map};
ghost use Rattle.text.specs.Text.{decimal, spaced, printed_line};
ghost use Rattle.text.specs.Printing.{Puts};

// Lent bytes, and the place behind what was put there.
#[derive(Drop)]
pub struct Printer<'a> {
    pub page: &'a mut [u8],
    pub at: usize,
}

impl<'a> Printer<'a> {
    // At the start of the bytes.
    pub fn over(page: &'a mut [u8]) -> Printer<'a>
        ensures same { result.page.ghost_name ≡ page.entry.ghost_name }
        ensures page { result.page.now ≡ page.old }
        ensures at { result.at ≡ 0 }
    {
        Printer { page, at: 0 }
    }

    pub fn put_byte(&mut self, byte: u8)
        requires { self.old.at < length self.old.page.now }
        ensures { Puts self.old (byte ∷ []) self.new }
    {
        self.page[self.at] = byte;
        self.at += 1;
    }

    // A number in decimal, without leading zeros.
    pub fn put_number(&mut self, x: u64)
        requires { self.old.at + length (decimal x) ≤ length self.old.page.now }
        ensures { Puts self.old (decimal x) self.new }
    {
        if x >= 10 {
            self.put_number(x / 10);
        }
        self.put_byte(b'0' + (x % 10) as u8);
    }

    // Numbers with one space between them.
    pub fn put_numbers(&mut self, numbers: &[u64])
        requires { self.old.at + length (spaced (map decimal numbers.now)) ≤ length self.old.page.now }
        ensures { Puts self.old (spaced (map decimal numbers.now)) self.new }
    {
        let Some((first, rest)) = numbers.split_first() else {
            return;
        };
        self.put_number(*first);
        for x in rest {
            self.put_byte(b' ');
            self.put_number(*x);
        }
    }

    // A line of numbers.
    pub fn put_line(&mut self, numbers: &[u64])
        requires { self.old.at + length (printed_line (map decimal numbers.now)) ≤ length self.old.page.now }
        ensures { Puts self.old (printed_line (map decimal numbers.now)) self.new }
    {
        self.put_numbers(numbers);
        self.put_byte(b'\n');
    }
}
