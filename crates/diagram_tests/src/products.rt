//! Products of sets that are listed by hand, against lists.
ghost use Rattle.std.specs.List.Sorted.{IsStrictlyIncreasing};

use crate::operations::{FIRST, Listed, TWO, built};
use diagram_arena::Ref;
use diagram_ops::Ops;
use std::test::Fail;

const F: bool = false;

const T: bool = true;

/// The words whose last bit is true.
const LAST: Listed = [F, T, F, T, F, T, F, T];

/// Whether the projection to these bits of 011, 101 and 110, of which one begins and ends with 1, is this list.
fn projects_to(rt: &HostRuntime, keep: &[u32], words: Listed) -> Result<bool, Fail>
    requires { IsStrictlyIncreasing keep.now }
{
    let mut ops = Ops::new(rt.alloc(), 40, 1)?;
    let two = built(&mut ops, TWO)?;
    let first = built(&mut ops, FIRST)?;
    let last = built(&mut ops, LAST)?;
    let result = ops.project_product(two, &[first, last], keep, Ref::One)?;
    Ok(built(&mut ops, words)? == result)
}

/// The one word is 101.
#[test]
fn projects_products_as_lists_of_words(rt: HostRuntime) -> Result<(), Fail> {
    assert!(rt; projects_to(&rt, &[], [T, T, T, T, T, T, T, T])?);
    assert!(rt; projects_to(&rt, &[0], FIRST)?);
    assert!(rt; projects_to(&rt, &[1], [T, T, F, F, T, T, F, F])?);
    assert!(rt; projects_to(&rt, &[2], LAST)?);
    assert!(rt; projects_to(&rt, &[0, 2], [F, F, F, F, F, T, F, T])?);
    assert!(rt; projects_to(&rt, &[0, 1, 2], [F, F, F, F, F, T, F, F])?);
    Ok(())
}

/// No word of the three is 111 or begins with 0 and ends with 0.
#[test]
fn tells_empty_products(rt: HostRuntime) -> Result<(), Fail> {
    let mut ops = Ops::new(rt.alloc(), 40, 1)?;
    let two = built(&mut ops, TWO)?;
    let first = built(&mut ops, FIRST)?;
    let last = built(&mut ops, LAST)?;
    let begins = ops.not(first)?;
    let ends = ops.not(last)?;
    let outer = ops.pool().arena().len();
    assert_eq!(rt; ops.product_is_empty(two, &[first, last]), Ok(false));
    assert_eq!(rt; ops.product_is_empty(two, &[begins, last]), Ok(false));
    assert_eq!(rt; ops.product_is_empty(two, &[begins, ends]), Ok(true));
    assert_eq!(rt; ops.product_is_empty(two, &[]), Ok(false));
    assert_eq!(rt; ops.product_is_empty(Ref::Zero, &[first]), Ok(true));
    assert_eq!(rt; ops.pool().arena().len(), outer);
    Ok(())
}
