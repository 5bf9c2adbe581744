// Every public call on columns as an export on slices alone, for tests and benchmarks. The answer goes into `out` as in trial.
#![tactic(auto)]

use words::Answer;

#[unsafe(no_mangle)]
pub extern "C" fn trial_validate(periods: &[u32], lengths: &[u32], out: &mut [u32]) {
    trial::tell(Answer::from(table::validate(periods, lengths)), out);
}

#[unsafe(no_mangle)]
pub extern "C" fn trial_to_corners(
    periods: &[u32],
    lengths: &[u32],
    starts: &[u32],
    xs: &mut [u32],
    ys: &mut [u32],
    out: &mut [u32],
) {
    let given = packing::to_corners(periods, lengths, starts, xs, ys);
    trial::tell(Answer::from(given), out);
}

#[unsafe(no_mangle)]
pub extern "C" fn trial_to_starts(
    periods: &[u32],
    lengths: &[u32],
    xs: &[u32],
    ys: &[u32],
    starts: &mut [u32],
    out: &mut [u32],
) {
    let given = packing::to_starts(periods, lengths, xs, ys, starts);
    trial::tell(Answer::from(given), out);
}

#[unsafe(no_mangle)]
pub extern "C" fn trial_plan(
    periods: &[u32],
    lengths: &[u32],
    starts: &mut [u32],
    fills: &mut [u32],
    out: &mut [u32],
) {
    let given = packing::plan(periods, lengths, starts, fills);
    trial::tell(Answer::from(given), out);
}

#[unsafe(no_mangle)]
pub extern "C" fn trial_check(periods: &[u32], lengths: &[u32], starts: &[u32], out: &mut [u32]) {
    trial::tell(Answer::from(checker::check(periods, lengths, starts)), out);
}

#[unsafe(no_mangle)]
pub extern "C" fn trial_holder(
    periods: &[u32],
    lengths: &[u32],
    starts: &[u32],
    tick: u64,
    out: &mut [u32],
) {
    let given = timetable::holder(periods, lengths, starts, tick);
    trial::tell(Answer::from(given), out);
}

#[unsafe(no_mangle)]
pub extern "C" fn trial_next_start(
    periods: &[u32],
    lengths: &[u32],
    starts: &[u32],
    tick: u64,
    out: &mut [u32],
) {
    let given = timetable::next_start(periods, lengths, starts, tick);
    trial::tell(Answer::from(given), out);
}
