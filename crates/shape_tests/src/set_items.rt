//! The element relation over an index from 0 to 3, variable 0, and a set over 1 and 2, variable 1. The index is bits 0 and 1, and 1 and 2 are bits
//! 2 and 3.
use crate::samples::{Given, ints, layout_of, many, problem, set_diagram, sets, term};
use crate::sets::listed;
use diagram_ops::Ops;
use listed::Listed;
use set_meaning::{Arg, Constraint, Kind, Relation};
use std::alloc::{AllocError, Global};
use std::test::Fail;

fn kinds(alloc: Global) -> Result<Vec<Kind>, AllocError> {
    let index = ints(alloc, &[0, 1, 2, 3])?;
    let set = sets(alloc, &[1, 2])?;
    let kinds = vec![in alloc; index, set]?;
    Ok(kinds)
}

fn element(
    alloc: Global,
    index: Given,
    items: &[Given],
    set: Given,
) -> Result<Constraint, AllocError> {
    let index = Arg::One(term(alloc, index)?);
    let items = many(alloc, items)?;
    let set = Arg::One(term(alloc, set)?);
    let args = vec![in alloc; index, items, set]?;
    Ok(Constraint {
        relation: Relation::ArraySetElement,
        args: Listed::of(args),
        reif: None,
    })
}

/// The words of the cases' diagrams, of four bits: the index in two, whether the set has 1, and whether it has 2.
#[test]
fn has_the_item_at_the_index(rt: HostRuntime) -> Result<(), Fail> {
    let alloc = rt.alloc();
    let p = problem(alloc, kinds(alloc)?)?;
    let layout = layout_of(alloc, &p)?;
    let mut ops = Ops::new(alloc, 1_000, 8)?;
    let set = Given::Variable(1);
    let one = Given::Elements(1, 1);
    let two = Given::Elements(2, 2);
    let both = Given::Elements(1, 2);
    let beyond = Given::Elements(1, 5);
    let first_two = [one, two];
    let with_itself = [set, one];
    let late = [beyond, beyond, both, one];
    let again = [one, two, one];
    let cases = [
        // 1 with the set of 1, and 2 with the set of 2: an index of 0 or 3 is outside the array
        (
            Given::Variable(0),
            first_two.as_slice(),
            set,
            0b0000001001000000,
        ),
        // any set is item 1, and the set of 1 is item 2
        (
            Given::Variable(0),
            with_itself.as_slice(),
            set,
            0b0000111100100000,
        ),
        // 5 cannot be in the set, and the index cannot be 4
        (Given::Variable(0), late.as_slice(), set, 0b0000000000000001),
        // at 1 and at 3 is the set of 1
        (
            Given::Variable(0),
            again.as_slice(),
            one,
            0b0000111100001111,
        ),
        // item 2, whatever the index variable is
        (
            Given::Number(2),
            first_two.as_slice(),
            set,
            0b0100010001000100,
        ),
        (Given::Number(0), first_two.as_slice(), set, 0),
        (Given::Number(3), first_two.as_slice(), set, 0),
        (Given::Number(-1), first_two.as_slice(), set, 0),
        (Given::Variable(0), &[], set, 0),
    ];
    for (index, items, set, expected) in cases {
        let c = element(alloc, index, items, set)?;
        let result = set_diagram(alloc, &mut ops, &layout, &p, &c)?;
        assert_eq!(rt; Some(listed(&mut ops, expected)?), result);
    }
    Ok(())
}
