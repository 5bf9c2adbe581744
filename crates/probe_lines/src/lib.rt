// The lines of the probes, put into lent bytes.
#![tactic(auto)]

ghost use Rattle.std.specs.Prelude.{◌+◌, ◌*◌, ◌≤◌, length};
ghost use Rattle.probes.specs.Table.{most_probes};
ghost use Rattle.text.specs.Printing.{Puts};
ghost use Rattle.lines.specs.Lines.{start_text, probe_line, probe_lines};
ghost use Rattle.lines.specs.Laws.{most_line};

use text::Printer;
use words::Answer;

// A probe's start, or `-` for the mark.
#[tactic(auto, using(crate::proofs::Lines::mark_text, crate::proofs::Lines::number_text))]
fn put_start(printer: &mut Printer, start: u32)
    requires { printer.old.at + length (start_text start) ≤ length printer.old.page.now }
    ensures { Puts printer.old (start_text start) printer.new }
{
    match start {
        Answer::MARK => printer.put_byte(b'-'),
        _ => printer.put_number(u64::from(start)),
    }
}

// A probe's line: its number, period, length and start, with `-` for the mark.
#[tactic(auto, using(crate::proofs::Lines::numbers_short, crate::proofs::Lines::start_short, text::specs::Printing::puts_length))]
fn put_probe(printer: &mut Printer, i: u32, period: u32, read: u32, start: u32)
    requires { printer.old.at + most_line ≤ length printer.old.page.now }
    ensures puts { Puts printer.old (probe_line i period read start) printer.new }
    ensures upper_bound { printer.new.at ≤ printer.old.at + most_line }
{
    printer.put_numbers(&[u64::from(i), u64::from(period), u64::from(read)]);
    printer.put_byte(b' ');
    put_start(printer, start);
    printer.put_byte(b'\n');
}

// The lines of all probes.
pub fn put_probes(printer: &mut Printer, periods: &[u32], lengths: &[u32], starts: &[u32])
    requires few { length periods.now ≤ most_probes }
    requires lengths { length periods.now ≤ length lengths.now }
    requires starts { length periods.now ≤ length starts.now }
    requires room { printer.old.at + most_line * length periods.now ≤ length printer.old.page.now }
    ensures puts { Puts printer.old (probe_lines periods.now lengths.now starts.now 0 (length periods.now)) printer.new }
    ensures upper_bound { printer.new.at ≤ printer.old.at + most_line * length periods.now }
{
    for (i, period) in periods.iter().enumerate() {
        put_probe(printer, i as u32, *period, lengths[i], starts[i]);
    }
}
