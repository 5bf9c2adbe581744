// An input and an output as the programs use them: a failed read ends the input, a failed write ends the output.
#![tactic(auto)]

ghost use Rattle.std.specs.Prelude.{◌≤◌, IsTrue, length, take};
ghost use Rattle.std.specs.Io.KnownBytes.{Appends, Consumes};

use std::io::{Read, Write};

// Reads until the buffer is full, the input ends or a read fails, and says how many bytes it put at the buffer's start: those that the input gave.
pub fn read_full<R: Read>(input: &mut R, buf: &mut [u8]) -> usize
    ensures within { result ≤ length buf.new }
    ensures bytes { Consumes (R.remaining input.old) (R.remaining input.new) (take result buf.new) }
{
    let mut done = 0;
    while done < buf.len() {
        match input.read(&mut buf[done..]) {
            Ok(n) if n > 0 => done += n,
            _ => break,
        }
    }
    done
}

// Writes all of the bytes, or as many as the output takes, and says whether it took all.
pub fn write_all<W: Write>(output: &mut W, bytes: &[u8]) -> bool
    ensures { IsTrue result → Appends (W.contents output.old) (W.contents output.new) bytes.now }
{
    output.write_all(bytes).is_ok()
}
