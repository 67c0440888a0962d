// One run, over any desk.
use desk::{Desk, MemoryDesk};
use solve_top::run;
use std::alloc::{AllocError, Global};

/// The number of the status of a run with these words, over any desk, so that no test's proof carries what one desk
/// tells.
pub fn status_of<D: Desk>(alloc: Global, words: &[&str], desk: &mut D) -> Result<u8, AllocError> {
    let mut owned = Vec::new(alloc);
    for word in words {
        owned.push(word.to_string(alloc)?)?;
    }
    Ok(run(alloc, owned.as_slice(), desk).status.number())
}

/// A desk with the model `m`.
pub fn desk_with(alloc: Global, model: &str) -> Result<MemoryDesk, AllocError> {
    let mut desk = MemoryDesk::new(alloc);
    desk.put_file("m", model.as_bytes())?;
    Ok(desk)
}
