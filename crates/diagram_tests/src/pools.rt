//! Pools: the list of pins.
use diagram_arena::Ref;
use node_reclaim::Pool;
use std::test::Fail;

/// One node with three pins, of which one is spent and one left; a pin of One is counted nowhere.
#[test]
#[tactic(auto, using(diagram_arena::proofs::Meaning::terminals))]
fn lists_each_pin(rt: HostRuntime) -> Result<(), Fail> {
    let mut pool = Pool::new(rt.alloc(), 2);
    let node = pool.make(4, Ref::Zero, Ref::One)?;
    let first = pool.pin(node).expect(&rt, "the first pin");
    first.leave();
    let second = pool.pin(node).expect(&rt, "the second pin");
    pool.unpin(second);
    let one = pool.pin(Ref::One).expect(&rt, "a pin of One");
    pool.unpin(one);
    let third = pool.pin(node).expect(&rt, "the third pin");
    assert_eq!(rt; third.leave(), node);
    let pinned = pool.pinned(rt.alloc())?;
    assert_eq!(rt; pinned.as_slice(), [node, node].as_slice());
    Ok(())
}
