//! Subsets over the elements 1, 2, 3 and 4: the first set may have 1 and 3, the second 3 and 4, and the constant 2 is in the second.
ghost use Rattle.std.specs.Prelude.{not, ◌&&◌, ◌||◌, true};
ghost use Rattle.bit_machine.specs.Comparisons.{beq, beq-true};

use bit_machine::build;
use diagram_arena::{Ref, Stop};
use diagram_ops::Ops;
use element_machine::{ByElements, ElementMachine, Entry, Marks};
use std::test::Fail;

/// Accepts where each element of the first set is in the second.
#[derive(Clone, Copy, Drop)]
struct Subset;

impl ElementMachine for Subset {
    type State = bool;

    ghost rules = { λ _. record { start = true; close = λ q m. q && (not m.first || m.second); accept = λ q. q } };

    ghost identical = { beq-true };

    fn start(&self) -> bool {
        true
    }

    fn close(&self, state: bool, marks: Marks) -> bool {
        state && (!marks.first || marks.second)
    }

    fn accepts(&self, state: bool) -> bool {
        state
    }
}

/// Accepts where the third set is the first without the second.
#[derive(Clone, Copy, Drop)]
struct Difference;

impl ElementMachine for Difference {
    type State = bool;

    ghost rules = { λ _. record { start = true; close = λ q m. q && beq m.third (m.first && not m.second); accept = λ q. q } };

    ghost identical = { beq-true };

    fn start(&self) -> bool {
        true
    }

    fn close(&self, state: bool, marks: Marks) -> bool {
        state && marks.third == (marks.first && !marks.second)
    }

    fn accepts(&self, state: bool) -> bool {
        state
    }
}

const FIRST: Marks = Marks {
    first: true,
    second: false,
    third: false,
};

const SECOND: Marks = Marks {
    first: false,
    second: true,
    third: false,
};

const NONE: Marks = Marks {
    first: false,
    second: false,
    third: false,
};

/// Not 1, and 3 in the second where it is in the first: 4 is free.
fn expected(ops: &mut Ops) -> Result<Ref, Stop> {
    let no_one = ops.literal(0, false)?;
    let no_three = ops.literal(4, false)?;
    let three = ops.literal(5, true)?;
    let either = ops.or(no_three, three)?;
    ops.and(no_one, either)
}

/// 1 has one bit, 2 none, 3 one of each set and 4 one.
#[test]
fn reads_elements(rt: HostRuntime) -> Result<(), Fail> {
    let mut ops = Ops::new(rt.alloc(), 50, 1)?;
    let entries = [
        Entry {
            marks: FIRST,
            element: 0,
        },
        Entry {
            marks: FIRST,
            element: 2,
        },
        Entry {
            marks: SECOND,
            element: 2,
        },
        Entry {
            marks: SECOND,
            element: 3,
        },
    ];
    let machine = ByElements {
        machine: Subset,
        constants: &[NONE, SECOND, NONE, NONE],
        entries: &entries,
    };
    let result = build(rt.alloc(), &mut ops, &machine, &[0, 4, 5, 7])?;
    assert_eq!(rt; expected(&mut ops), Ok(result));
    Ok(())
}

/// An element without bits is closed too: 2 is in the constant first set alone.
#[test]
fn closes_elements_without_bits(rt: HostRuntime) -> Result<(), Fail> {
    let mut ops = Ops::new(rt.alloc(), 50, 1)?;
    let machine = ByElements {
        machine: Subset,
        constants: &[FIRST, NONE],
        entries: &[Entry {
            marks: FIRST,
            element: 1,
        }],
    };
    let result = build(rt.alloc(), &mut ops, &machine, &[3])?;
    assert_eq!(rt; result, Ref::Zero);
    Ok(())
}

/// A bit may mark two sets: a set without itself is empty, so that the third set has neither 1 nor 2.
#[test]
fn reads_a_set_that_stands_twice(rt: HostRuntime) -> Result<(), Fail> {
    let mut ops = Ops::new(rt.alloc(), 50, 1)?;
    let twice = Marks {
        first: true,
        second: true,
        third: false,
    };
    let third = Marks {
        first: false,
        second: false,
        third: true,
    };
    let machine = ByElements {
        machine: Difference,
        constants: &[NONE, NONE],
        entries: &[
            Entry {
                marks: twice,
                element: 0,
            },
            Entry {
                marks: third,
                element: 0,
            },
            Entry {
                marks: third,
                element: 1,
            },
        ],
    };
    let result = build(rt.alloc(), &mut ops, &machine, &[2, 3, 5])?;
    let no_one = ops.literal(3, false)?;
    let no_two = ops.literal(5, false)?;
    assert_eq!(rt; ops.and(no_one, no_two), Ok(result));
    Ok(())
}
