//! Refs told by their places in a list.
use diagram_arena::Ref;
use std::alloc::{AllocError, Global};

/// The place of the ref, 9 where it has none.
pub(crate) fn place(refs: &[Ref], seen: Ref) -> usize {
    refs.iter().position(|r| *r == seen).unwrap_or(9)
}

/// The place of each ref.
pub(crate) fn places(alloc: Global, refs: &[Ref], seen: &[Ref]) -> Result<Vec<usize>, AllocError> {
    let mut places = Vec::new(alloc);
    for r in seen {
        places.push(place(refs, *r))?;
    }
    Ok(places)
}
