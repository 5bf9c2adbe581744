// The text of a table that is planned.
#![tactic(auto)]

ghost use Rattle.std.specs.Prelude.{◌≡◌, ◌++◌, ◌+◌, ◌≤◌, length};
ghost use Rattle.words.specs.Refused.{shown};
ghost use Rattle.probes.specs.Table.{most_probes, rows};
ghost use Rattle.text.specs.Printing.{Puts};
ghost use Rattle.lines.specs.Lines.{head_line, probe_lines};
ghost use Rattle.paper.specs.Printed.{ran, plan_text, planned_in};
ghost use Rattle.paper.specs.Paper.{most_plan};

use table::Table;
use text::Printer;
use words::{Answer, Refusal};

// Whether the planner ran: it is done, or came to a probe with no place.
#[tactic(auto, using(crate::proofs::Running::ran_done, crate::proofs::Running::ran_no_place, crate::proofs::Running::not_ran))]
fn ran(planned: Result<(), Refusal>) -> bool
    ensures { result ≡ ran (shown planned).number }
{
    match planned {
        Ok(()) => true,
        Err(refused) => matches!(refused, Refusal::NoPlace(_)),
    }
}

// The lines of a planned table: number, n and H, and then its probes.
#[tactic(auto, using(text::specs::Printing::puts_length))]
fn put_table(printer: &mut Printer, number: u32, periods: &[u32], lengths: &[u32], starts: &[u32])
    requires few { length periods.now ≤ most_probes }
    requires lengths { length periods.now ≤ length lengths.now }
    requires starts { length periods.now ≤ length starts.now }
    requires room { printer.old.at + most_plan ≤ length printer.old.page.now }
    ensures puts { Puts printer.old (head_line number (length periods.now) (rows periods.now) ++ probe_lines periods.now lengths.now starts.now 0 (length periods.now)) printer.new }
    ensures upper_bound { printer.new.at ≤ printer.old.at + most_plan }
{
    let table = Table::of(periods);
    first_lines::put_head(printer, number, periods.len() as u32, table.rows);
    probe_lines::put_probes(printer, periods, lengths, starts);
}

// The text of a table that is planned: its plan, also where a probe has no place, or the refusal.
pub fn put_plan(printer: &mut Printer, periods: &[u32], lengths: &[u32])
    requires few { length periods.now ≤ most_probes }
    requires room { printer.old.at + most_plan ≤ length printer.old.page.now }
    ensures puts { Puts printer.old (plan_text periods.now lengths.now (planned_in periods.now lengths.now)) printer.new }
    ensures upper_bound { printer.new.at ≤ printer.old.at + most_plan }
{
    let mut starts = [0u32; Table::PROBES];
    let mut fills = [0u32; Table::ROWS as usize];
    let planned = packing::plan(periods, lengths, &mut starts, &mut fills);
    let shown = Answer::from(planned);
    if ran(planned) {
        put_table(printer, shown.number, periods, lengths, &starts);
    } else {
        first_lines::put_answer(printer, shown);
    }
}
