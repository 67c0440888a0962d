//! Trails over three nodes. What is seen after some steps is worked out by hand.
ghost use Rattle.std.specs.Prelude.{◌≡◌};
ghost use Rattle.std.specs.List.{All};
ghost use Rattle.diagram_arena.specs.Table.{IsLive};
ghost use Rattle.diagram_arena.specs.Arena.{table};
ghost use Rattle.node_reclaim.specs.Holders.{AreHeld};
ghost use Rattle.domain_trail.specs.Trail.{held};

use crate::places::{place, places};
use diagram_arena::Ref;
use diagram_ops::Ops;
use domain_trail::{Entry, Reason, Trail};
use set_meaning::{BoxId, ConId, VarId};
use std::alloc::AllocError;
use std::test::Fail;

/// A call on a trail. Refs are told by their places.
#[derive(Clone, Copy)]
enum Step {
    Narrow(u32, usize, Reason),
    Level,
    UndoOne,
    UndoTo(u32),
}

/// Takes the step, if its variable has a domain, its ref is there, and there is an entry to be taken back.
fn take(ops: &mut Ops, trail: &mut Trail, refs: &[Ref], step: Step) -> Result<(), AllocError>
    requires live { All (IsLive (table ops.old.arena)) refs.now }
    requires held { AreHeld ops.old (held trail.old) }
    ensures held { AreHeld ops.new (held trail.new) }
    ensures arena { ops.new.arena ≡ ops.old.arena }
{
    match step {
        Step::Narrow(v, at, reason) => narrow(ops, trail, refs, v, at, reason),
        Step::Level => trail.new_level(),
        Step::UndoOne => {
            if trail.len() > 0 {
                trail.undo_one(ops);
            }
            Ok(())
        }
        Step::UndoTo(level) => {
            trail.undo_to(ops, level);
            Ok(())
        }
    }
}

/// Narrows, if the variable has a domain and the ref is there.
fn narrow(
    ops: &mut Ops,
    trail: &mut Trail,
    refs: &[Ref],
    v: u32,
    at: usize,
    reason: Reason,
) -> Result<(), AllocError>
    requires live { All (IsLive (table ops.old.arena)) refs.now }
    requires held { AreHeld ops.old (held trail.old) }
    ensures held { AreHeld ops.new (held trail.new) }
    ensures arena { ops.new.arena ≡ ops.old.arena }
{
    let known = trail.domains().len();
    if v as usize >= known || at >= refs.len() {
        return Ok(());
    }
    trail.narrow(ops, VarId(v), refs[at], reason)
}

/// An entry, with its domain from before by its place.
#[derive(Clone, Copy, Debug, PartialEq)]
struct Shown {
    var: u32,
    before: usize,
    reason: Reason,
    level: u32,
}

/// What a trail shows, refs by their places: the domains, the entries, the level, and the nodes that are pinned, each as often as it is.
#[derive(Drop)]
struct Seen {
    domains: Vec<usize>,
    entries: Vec<Shown>,
    level: u32,
    pins: Vec<usize>,
}

/// What is seen of the trail.
fn look(rt: &HostRuntime, ops: &Ops, trail: &Trail, refs: &[Ref]) -> Result<Seen, AllocError> {
    let mut entries = Vec::new(rt.alloc());
    for i in 0..trail.len() {
        let Entry {
            var,
            before,
            reason,
            level,
        } = trail.entry(i);
        entries.push(Shown {
            var: var.0,
            before: place(refs, before),
            reason,
            level,
        })?;
    }
    let pins = ops.pool().pinned(rt.alloc())?;
    Ok(Seen {
        domains: places(rt.alloc(), refs, trail.domains())?,
        entries,
        level: trail.level(),
        pins: places(rt.alloc(), refs, &pins)?,
    })
}

/// What is seen after the steps, of a trail that begins with the first two nodes; the trail is then released, and the number of pins
/// that are left is answered beside it.
fn run(rt: &HostRuntime, steps: &[Step]) -> Result<(Seen, usize), Fail> {
    let mut ops = Ops::new(rt.alloc(), 3, 1)?;
    let first = ops.literal(0, true)?;
    let second = ops.literal(1, true)?;
    let third = ops.literal(2, true)?;
    let refs = [first, second, third];
    let mut trail = Trail::new(rt.alloc(), &mut ops, &refs[..2])?;
    for step in steps {
        if take(&mut ops, &mut trail, &refs, *step).is_err() {
            break;
        }
    }
    let seen = look(rt, &ops, &trail, &refs);
    trail.release(&mut ops);
    let left = ops.pool().pinned(rt.alloc())?;
    Ok((seen?, left.len()))
}

const FIRST: Step = Step::Narrow(0, 2, Reason::Constraint(ConId(3)));

const SECOND: Step = Step::Narrow(1, 0, Reason::Decision);

const THIRD: Step = Step::Narrow(0, 1, Reason::Box(BoxId(5)));

const ENTRIES: [Shown; 3] = [
    Shown {
        var: 0,
        before: 0,
        reason: Reason::Constraint(ConId(3)),
        level: 0,
    },
    Shown {
        var: 1,
        before: 1,
        reason: Reason::Decision,
        level: 1,
    },
    Shown {
        var: 0,
        before: 2,
        reason: Reason::Box(BoxId(5)),
        level: 1,
    },
];

/// Whether these are the domains, the number of entries, the level and the pins after the steps, and no pin is left after the release.
fn leads_to(
    rt: &HostRuntime,
    steps: &[Step],
    domains: &[usize],
    entries: usize,
    level: u32,
    pins: &[usize],
) -> Result<bool, Fail> {
    let (seen, left) = run(rt, steps)?;
    let shown = ENTRIES.get(..entries);
    Ok(
        seen.domains.as_slice() == domains
            && shown.is_some_and(|es| seen.entries.as_slice() == es)
            && seen.level == level
            && seen.pins.as_slice() == pins
            && left == 0,
    )
}

/// Each narrowing pins its domain, and the domain from before stays pinned.
#[test]
fn narrows(rt: HostRuntime) -> Result<(), Fail> {
    assert!(rt; leads_to(&rt, &[], &[0, 1], 0, 0, &[0, 1])?);
    assert!(rt; leads_to(&rt, &[FIRST], &[2, 1], 1, 0, &[0, 1, 2])?);
    assert!(rt; leads_to(&rt, &[FIRST, Step::Level], &[2, 1], 1, 1, &[0, 1, 2])?);
    assert!(rt;
        leads_to(
            &rt,
            &[FIRST, Step::Level, SECOND],
            &[2, 0],
            2,
            1,
            &[0, 0, 1, 2]
        )?
    );
    assert!(rt;
        leads_to(
            &rt,
            &[FIRST, Step::Level, SECOND, THIRD],
            &[1, 0],
            3,
            1,
            &[0, 0, 1, 1, 2]
        )?
    );
    Ok(())
}

/// The newest entry is taken back, with its level.
#[test]
fn undoes_one_by_one(rt: HostRuntime) -> Result<(), Fail> {
    let one = [FIRST, Step::Level, SECOND, THIRD, Step::UndoOne];
    assert!(rt; leads_to(&rt, &one, &[2, 0], 2, 1, &[0, 0, 1, 2])?);
    let two = [
        FIRST,
        Step::Level,
        SECOND,
        THIRD,
        Step::UndoOne,
        Step::UndoOne,
    ];
    assert!(rt; leads_to(&rt, &two, &[2, 1], 1, 0, &[0, 1, 2])?);
    let open = [FIRST, Step::Level, Step::UndoOne];
    assert!(rt; leads_to(&rt, &open, &[0, 1], 0, 0, &[0, 1])?);
    Ok(())
}

/// All entries above the level are taken back, and no others.
#[test]
fn undoes_to_a_level(rt: HostRuntime) -> Result<(), Fail> {
    let all = [FIRST, Step::Level, SECOND, THIRD, Step::UndoTo(0)];
    assert!(rt; leads_to(&rt, &all, &[2, 1], 1, 0, &[0, 1, 2])?);
    let none = [
        FIRST,
        Step::Level,
        SECOND,
        THIRD,
        Step::Level,
        Step::UndoTo(1),
    ];
    assert!(rt; leads_to(&rt, &none, &[1, 0], 3, 1, &[0, 0, 1, 1, 2])?);
    let two = [FIRST, Step::Level, Step::Level, SECOND, Step::UndoTo(1)];
    assert!(rt; leads_to(&rt, &two, &[2, 1], 1, 0, &[0, 1, 2])?);
    Ok(())
}
