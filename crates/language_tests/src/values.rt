//! Sets, and the values of kinds.
use crate::samples::{integers, subsets};
use listed::Listed;
use set_meaning::{Kind, SetValue, initial_values};
use std::alloc::{AllocError, Global};
use std::test::Fail;

#[test]
fn lists_keep_their_items_in_order(rt: HostRuntime) -> Result<(), Fail> {
    let list = Listed::of([3u8, 1, 3].to_vec(rt.alloc())?);
    assert_eq!(rt; list.items(), [3u8, 1, 3].as_slice());
    Ok(())
}

#[test]
fn sets_are_made_of_lists_and_ranges(rt: HostRuntime) -> Result<(), Fail> {
    let listed = SetValue::from_list(rt.alloc(), [3, -2, 3, 1].as_slice())?;
    let copied = listed.copy(rt.alloc())?;
    assert_eq!(rt; copied.elements(), [-2, 1, 3].as_slice());
    for (low, high, elements) in [
        (-1, 2, [-1, 0, 1, 2].as_slice()),
        (7, 7, [7].as_slice()),
        (1, 0, [].as_slice()),
    ] {
        let range = SetValue::from_range(rt.alloc(), low, high)?;
        assert_eq!(rt; range.elements(), elements);
    }
    Ok(())
}

fn values_text(alloc: Global, kind: &Kind) -> Result<String, AllocError> {
    let values = initial_values(alloc, kind)?;
    format!(in alloc; "{values:?}")
}

/// The subsets of {1, 2}, those with 1 first, and the values of the other two kinds.
#[test]
fn kinds_have_their_values_once(rt: HostRuntime) -> Result<(), Fail> {
    let alloc = rt.alloc();
    assert_eq!(rt;
        values_text(alloc, &subsets(alloc, [1, 2].as_slice())?)?.as_str(),
        "[Set(SetValue { elements: [1, 2] }), Set(SetValue { elements: [1] }), Set(SetValue { elements: [2] }), Set(SetValue { elements: [] })]"
    );
    assert_eq!(rt;
        values_text(alloc, &integers(alloc, [7, -1].as_slice())?)?.as_str(),
        "[Int(-1), Int(7)]"
    );
    assert_eq!(rt;
        values_text(alloc, &Kind::Bool)?.as_str(),
        "[Bool(false), Bool(true)]"
    );
    Ok(())
}
