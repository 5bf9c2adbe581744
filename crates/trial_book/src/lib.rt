// Every public call on a book's bytes as an export on slices, for tests alone. The answer goes into `out` as in trial.
#![tactic(auto)]

use words::Answer;

#[unsafe(no_mangle)]
pub extern "C" fn trial_read(
    bytes: &[u8],
    periods: &mut [u32],
    lengths: &mut [u32],
    starts: &mut [u32],
    out: &mut [u32],
) {
    let given = book::read(bytes, periods, lengths, starts);
    trial::tell(Answer::from(given), out);
}

#[unsafe(no_mangle)]
pub extern "C" fn trial_write(
    periods: &[u32],
    lengths: &[u32],
    starts: &[u32],
    bytes: &mut [u8],
    out: &mut [u32],
) {
    let given = book::write(periods, lengths, starts, bytes);
    trial::tell(Answer::from(given), out);
}

#[unsafe(no_mangle)]
pub extern "C" fn trial_plan_page(book: &[u8], page: &mut [u8], out: &mut [u32]) {
    trial::tell(Answer::from(pages::plan_page(book, page)), out);
}

#[unsafe(no_mangle)]
pub extern "C" fn trial_check_page(book: &[u8], page: &mut [u8], out: &mut [u32]) {
    trial::tell(Answer::from(pages::check_page(book, page)), out);
}
