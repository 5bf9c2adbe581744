// The table of probes: its least and longest period, and the judges of numbers 1 to 6 and 9, which every other call composes.
#![tactic(auto)]

ghost use Rattle.std.specs.Prelude.{◌≡◌};
ghost use Rattle.words.specs.Refused.{shown};
ghost use Rattle.probes.specs.Table.{most_probes, most_rows, shortest, longest, rows};
ghost use Rattle.probes.specs.Verdict.{verdict, Validates};
ghost use Rattle.probes.specs.Composing.{list_verdict};

use chained::unchained;
use columns::{bad_length, bad_period, greatest, late, least};
use words::Refusal;

// What every later layer asks of a table: w, M and H. All are 0 for the empty table.
#[derive(Clone, Copy)]
pub struct Table {
    pub shortest: u32,
    pub longest: u32,
    pub rows: u32,
}

impl Table {
    // The most probes, the most rows.
    pub const PROBES: usize = 256;

    pub const ROWS: u32 = 4_096;

    pub fn of(periods: &[u32]) -> Self
        ensures { result ≡ record { shortest = shortest periods.now; longest = longest periods.now; rows = rows periods.now } }
    {
        let shortest = least(periods);
        let longest = greatest(periods);
        Table {
            shortest,
            longest,
            rows: longest.checked_div(shortest).unwrap_or(0),
        }
    }

    // The code's limits are those of specs/.
    pub fn tie_probes() -> usize
        ensures { result ≡ most_probes }
    {
        Table::PROBES
    }

    pub fn tie_rows() -> u32
        ensures { result ≡ most_rows }
    {
        Table::ROWS
    }
}

// Numbers 1 to 6, in order: what every call asks first.
pub fn judge(periods: &[u32], lengths: &[u32]) -> Result<(), Refusal>
    ensures { shown result ≡ verdict periods.now lengths.now }
{
    if periods.len() != lengths.len() {
        return Err(Refusal::ColumnsDiffer);
    }
    if Table::PROBES < periods.len() {
        return Err(Refusal::TooManyProbes);
    }
    if let Some(i) = bad_period(periods) {
        return Err(Refusal::BadPeriod(i as u32));
    }
    let table = Table::of(periods);
    if let Some(i) = bad_length(lengths, table.shortest) {
        return Err(Refusal::BadLength(i as u32));
    }
    if let Some(i) = unchained(periods) {
        return Err(Refusal::Unchained(i as u32));
    }
    if Table::ROWS < table.rows {
        return Err(Refusal::TooManyRows);
    }
    Ok(())
}

// Numbers 1 to 6 and 9 of a list, in order: what checker and timetable ask first.
pub fn judge_list(periods: &[u32], lengths: &[u32], starts: &[u32]) -> Result<(), Refusal>
    ensures { shown result ≡ list_verdict periods.now lengths.now starts.now }
{
    if periods.len() != starts.len() {
        return Err(Refusal::ColumnsDiffer);
    }
    judge(periods, lengths)?;
    match late(periods, starts) {
        Some(i) => Err(Refusal::Late(i as u32)),
        None => Ok(()),
    }
}

// Validates a table: any two columns of any length.
pub fn validate(periods: &[u32], lengths: &[u32]) -> Result<(), Refusal>
    ensures { Validates periods.now lengths.now (shown result) }
{
    judge(periods, lengths)
}
