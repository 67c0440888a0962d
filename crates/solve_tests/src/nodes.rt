// Runs that want too many nodes, and the state that they hand out.
use crate::running::desk_with;
use desk::Desk;
use learn_search::LastState;
use solve_top::run;
use std::alloc::{AllocError, Global};
use std::test::Fail;

/// A sum of five variables that is a sixth: at each bit of the second variable and of those behind it there are some
/// 65,000 sums so far, and no two of them leave the same.
const TOO_MANY_NODES: &str =
    "var 0..65535: a; var 0..65535: b; var 0..65535: c; var 0..65535: d; var 0..65535: e; var 0..65535: f; constraint int_lin_eq([1,1,1,1,1,-1], [a,b,c,d,e,f], 0); solve satisfy;";

/// The status of a run, and how many nodes its last state has and how many pins it names, if it has one.
fn stop_of<D: Desk>(
    alloc: Global,
    words: &[&str],
    desk: &mut D,
) -> Result<(u8, Option<(u32, usize)>), AllocError> {
    let mut owned = Vec::new(alloc);
    for word in words {
        owned.push(word.to_string(alloc)?)?;
    }
    let report = run(alloc, owned.as_slice(), desk);
    Ok((report.status.number(), sizes(&report.stop)))
}

fn sizes(stop: &Option<LastState>) -> Option<(u32, usize)> {
    match stop {
        Some(last) => Some((last.pool.arena().len(), last.named.len())),
        None => None,
    }
}

#[test]
fn too_many_nodes_are_told_at_the_root(rt: HostRuntime) -> Result<(), Fail> {
    let alloc = rt.alloc();
    let mut desk = desk_with(alloc, TOO_MANY_NODES)?;
    // no word of sixteen bits is left out, so the six initial sets have no node, and the constraint, which has, is not
    // finished
    assert_eq!(rt;
        stop_of(alloc, &["--root", "m"], &mut desk)?,
        (1, Some((4_000_000, 0)))
    );
    assert_eq!(rt;
        desk.out(),
        b"=====UNKNOWN=====\n% limit nodes\n".as_slice()
    );
    Ok(())
}

#[test]
fn too_many_nodes_are_told_in_a_search(rt: HostRuntime) -> Result<(), Fail> {
    let alloc = rt.alloc();
    let mut desk = desk_with(alloc, TOO_MANY_NODES)?;
    assert_eq!(rt;
        stop_of(alloc, &["m"], &mut desk)?,
        (1, Some((4_000_000, 0)))
    );
    assert_eq!(rt;
        desk.out(),
        b"=====UNKNOWN=====\n% limit nodes\n".as_slice()
    );
    Ok(())
}
