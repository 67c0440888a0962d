//! Operations against sets that are listed by hand, and against lists.
ghost use Rattle.std.specs.Prelude.{◌<◌, ◌≤◌, IfOk};
ghost use Rattle.std.specs.List.Sorted.{IsStrictlyIncreasing};
ghost use Rattle.diagram_arena.specs.Table.{Table, IsLive, depth};
ghost use Rattle.diagram_arena.specs.Arena.{table};
ghost use Rattle.node_reclaim.specs.Growth.{Stays};

use diagram_arena::{Ref, Stop};
use diagram_ops::Ops;
use std::test::Fail;

// Whether each of the words 000, 001, 010, 011, 100, 101, 110 and 111 is in a set. A word gives bit 0 first.
pub(crate) type Listed = [bool; 8];

const F: bool = false;

const T: bool = true;

/// 011, 101 and 110.
pub(crate) const TWO: Listed = [F, F, F, T, F, T, T, F];

/// The four words that begin with 1.
pub(crate) const FIRST: Listed = [F, F, F, F, T, T, T, T];

#[tactic(auto, using(diagram_arena::proofs::Meaning::terminals))]
fn leaf(has: bool) -> Ref
    ensures live { (t : Table) → IsLive t result }
    ensures deep { (t : Table) → 3 ≤ depth t result }
{
    if has { Ref::One } else { Ref::Zero }
}

fn over_two(ops: &mut Ops, words: [bool; 2]) -> Result<Ref, Stop>
    ensures live { IfOk result (IsLive (table ops.new.arena)) }
    ensures deep { IfOk result (λ r. 2 ≤ depth (table ops.new.arena) r) }
    ensures stays { Stays ops.old ops.new }
{
    let [a, b] = words;
    ops.node(2, leaf(a), leaf(b))
}

fn over_one(ops: &mut Ops, words: [bool; 4]) -> Result<Ref, Stop>
    ensures live { IfOk result (IsLive (table ops.new.arena)) }
    ensures deep { IfOk result (λ r. 1 ≤ depth (table ops.new.arena) r) }
    ensures stays { Stays ops.old ops.new }
{
    let [a, b, c, d] = words;
    let lo = over_two(ops, [a, b])?;
    let hi = over_two(ops, [c, d])?;
    ops.node(1, lo, hi)
}

/// The ref of a list of words, built node by node.
pub(crate) fn built(ops: &mut Ops, words: Listed) -> Result<Ref, Stop>
    ensures live { IfOk result (IsLive (table ops.new.arena)) }
    ensures stays { Stays ops.old ops.new }
{
    let [a, b, c, d, e, f, g, h] = words;
    let lo = over_one(ops, [a, b, c, d])?;
    let hi = over_one(ops, [e, f, g, h])?;
    ops.node(0, lo, hi)
}

/// A call whose answer is a set.
#[derive(Clone, Copy, Debug)]
enum Call {
    Literal(u32, bool),
    Not,
    And,
    Or,
    Diff,
    Restrict(u32, bool),
}

fn answer(ops: &mut Ops, call: Call, f: Ref, g: Ref) -> Result<Ref, Stop>
    requires f_live { IsLive (table ops.old.arena) f }
    requires g_live { IsLive (table ops.old.arena) g }
    ensures { Stays ops.old ops.new }
{
    match call {
        Call::Literal(bit, value) => ops.literal(bit, value),
        Call::Not => ops.not(f),
        Call::And => ops.and(f, g),
        Call::Or => ops.or(f, g),
        Call::Diff => ops.diff(f, g),
        Call::Restrict(bit, value) => ops.restrict(f, bit, value),
    }
}

/// What each call answers for 011, 101, 110 and the words that begin with 1, worked out on lists.
const CALLS: [(Call, Listed); 11] = [
    (Call::Literal(0, true), FIRST),
    (Call::Literal(2, false), [T, F, T, F, T, F, T, F]),
    (Call::Not, [T, T, T, F, T, F, F, T]),
    (Call::And, [F, F, F, F, F, T, T, F]),
    (Call::Or, [F, F, F, T, T, T, T, T]),
    (Call::Diff, [F, F, F, T, F, F, F, F]),
    (Call::Restrict(0, false), [F, F, F, T, F, F, F, T]),
    (Call::Restrict(1, true), [F, T, F, T, T, F, T, F]),
    (Call::Restrict(1, false), [F, F, F, F, F, T, F, T]),
    (Call::Restrict(2, true), [F, F, T, T, T, T, F, F]),
    (Call::Restrict(3, true), TWO),
];

/// Each call with a memo of one entry, and with one of many.
#[test]
fn answers_as_lists_of_words(rt: HostRuntime) -> Result<(), Fail> {
    for (call, words) in CALLS {
        assert!(rt; answers(&rt, 1, call, words)?, "{call:?}");
        assert!(rt; answers(&rt, 262_144, call, words)?, "{call:?}");
    }
    Ok(())
}

/// Whether a call answers this list for 011, 101, 110 and the words that begin with 1.
fn answers(rt: &HostRuntime, cache: usize, call: Call, words: Listed) -> Result<bool, Fail>
    requires some { 0 < cache }
    requires few { cache ≤ 1000000 }
{
    let mut ops = Ops::new(rt.alloc(), 30, cache)?;
    let two = built(&mut ops, TWO)?;
    let first = built(&mut ops, FIRST)?;
    let result = answer(&mut ops, call, two, first)?;
    Ok(built(&mut ops, words)? == result)
}

/// Whether the projection of 011, 101 and 110 to these bits is this list.
fn projects_to(rt: &HostRuntime, keep: &[u32], words: Listed) -> Result<bool, Fail>
    requires { IsStrictlyIncreasing keep.now }
{
    let mut ops = Ops::new(rt.alloc(), 30, 1)?;
    let two = built(&mut ops, TWO)?;
    let result = ops.project(two, keep)?;
    Ok(built(&mut ops, words)? == result)
}

#[test]
fn projects_as_lists_of_words(rt: HostRuntime) -> Result<(), Fail> {
    assert!(rt; projects_to(&rt, &[], [T, T, T, T, T, T, T, T])?);
    assert!(rt; projects_to(&rt, &[2], [T, T, T, T, T, T, T, T])?);
    assert!(rt; projects_to(&rt, &[0, 1], [F, F, T, T, T, T, T, T])?);
    assert!(rt; projects_to(&rt, &[0, 2], [F, T, F, T, T, T, T, T])?);
    assert!(rt; projects_to(&rt, &[1, 2], [F, T, T, T, F, T, T, T])?);
    assert!(rt; projects_to(&rt, &[0, 1, 2, 9], TWO)?);
    Ok(())
}

#[test]
fn tells_what_lies_inside(rt: HostRuntime) -> Result<(), Fail> {
    let mut ops = Ops::new(rt.alloc(), 30, 1)?;
    let two = built(&mut ops, TWO)?;
    let first = built(&mut ops, FIRST)?;
    let both = ops.and(two, first)?;
    assert_eq!(rt; ops.inside(both, two), Ok(true));
    assert_eq!(rt; ops.inside(two, first), Ok(false));
    Ok(())
}

/// A tag is set on one node alone, and a pin of it is spent.
#[test]
fn tags_and_pins_a_node(rt: HostRuntime) -> Result<(), Fail> {
    let mut ops = Ops::new(rt.alloc(), 2, 1)?;
    let on = ops.literal(7, true)?;
    let pin = ops.pin(on).expect(&rt, "a pin");
    ops.unpin(pin);
    match on {
        Ref::Node(id) => {
            ops.set_tag(id, 5);
            assert_eq!(rt; ops.pool().arena().tag(id), 5);
        }
        Ref::Zero => assert!(rt; false),
        Ref::One => assert!(rt; false),
    }
    Ok(())
}
