//! Arenas: their limit, and the nodes that marks keep.
use diagram_arena::{Arena, Ref, Stop};
use std::test::Fail;

/// An arena of one node: a second, different node does not fit, and the first stands.
#[test]
#[tactic(auto, using(diagram_arena::proofs::Meaning::terminals))]
fn makes_one_node(rt: HostRuntime) -> Result<(), Fail> {
    let mut arena = Arena::new(rt.alloc(), 1);
    let first = arena.make(u32::MAX, Ref::Zero, Ref::One)?;
    assert_eq!(rt; arena.make(u32::MAX, Ref::Zero, Ref::One), Ok(first));
    assert_eq!(rt; arena.make(u32::MAX, Ref::One, Ref::Zero), Err(Stop::Full));
    assert_eq!(rt; arena.len(), 1);
    assert!(rt; arena.is_live(first));
    Ok(())
}
