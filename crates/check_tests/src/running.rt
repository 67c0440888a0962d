// One check, over any desk.
use check_top::check_run;
use desk::{Desk, MemoryDesk};
use std::alloc::{AllocError, Global};

/// The number of the status of a check with these words.
pub fn status_of<D: Desk>(alloc: Global, words: &[&str], desk: &mut D) -> Result<u8, AllocError> {
    let mut owned = Vec::new(alloc);
    for word in words {
        let word = String::from_str(alloc, word)?;
        owned.push(word)?;
    }
    Ok(check_run(alloc, owned.as_slice(), desk).number())
}

/// A desk with the model `m` and the log `l`.
pub fn desk_with(alloc: Global, model: &str, log: &[u8]) -> Result<MemoryDesk, AllocError> {
    let mut desk = MemoryDesk::new(alloc);
    desk.put_file("m", model.as_bytes())?;
    desk.put_file("l", log)?;
    Ok(desk)
}

/// No set of three elements lies in one of two.
pub const TWO_SIZES: &str =
    "var set of 1..3: x; var set of 1..3: y; constraint set_card(x, 2); constraint set_card(y, 3); constraint set_subset(y, x); solve satisfy;";

/// A log that proves it. Node 6 is "just two elements", 7 "all three", 9 "not all three", 11 "not just two". Box 0
/// has every pair of which the axiom says that it is no solution, box 2 each set of two elements for x, and box 4
/// everything.
pub const TWO_SIZES_LOG: [&str; 17] = [
    "setlog 1",
    "n 2 2 0 1",
    "n 3 1 0 2",
    "n 4 2 1 0",
    "n 5 1 2 4",
    "n 6 0 3 5",
    "n 7 0 0 3",
    "a 0 2 0 6 1 7",
    "n 8 1 1 4",
    "n 9 0 1 8",
    "a 1 1 1 9",
    "r 2 0 1 1 0 6",
    "n 10 1 4 2",
    "n 11 0 8 10",
    "a 3 0 0 11",
    "r 4 2 3 0",
    "q 4",
];

/// The log that proves it, with `text` in the place of the line of this number, counted from 1.
pub fn with_line(alloc: Global, number: usize, text: &str) -> Result<Vec<u8>, AllocError> {
    let mut log = Vec::new(alloc);
    for (at, line) in TWO_SIZES_LOG.iter().enumerate() {
        if at + 1 == number {
            log.extend_from_slice(text.as_bytes())?;
        } else {
            log.extend_from_slice(line.as_bytes())?;
            log.extend_from_slice(b"\n")?;
        }
    }
    Ok(log)
}
