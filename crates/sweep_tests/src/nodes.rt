//! Tables of nodes, and words read beside one of their nodes.
ghost use Rattle.std.specs.Prelude.{◌≡◌, ◌≤◌, false, IfOk, IfSome};
ghost use Rattle.sweep_values.specs.Domains.{Rises};

use problem_limits::are_within_limits;
use set_meaning::{Kind, SetValue};
use std::alloc::{AllocError, Global};
use std::test::Fail;
use sweep_rules::Shape;
use sweep_states::read_through;
use sweep_table::{Side, Table};
use sweep_values::Domain;

/// Node 2 asks the second bit, and node 3 the first: "the first bit is true, or the second is".
fn either(alloc: Global) -> Result<Table, AllocError> {
    let mut table = Table::new(alloc);
    table.add(1, 0, 1)?;
    table.add(0, 2, 1)?;
    Ok(table)
}

#[test]
fn nodes_are_walked(rt: HostRuntime) -> Result<(), Fail> {
    let table = either(rt.alloc())?;
    assert_eq!(rt; table.len(), 2);
    assert_eq!(rt; table.place_of(3), Some(0));
    assert_eq!(rt; table.place_of(4), None);
    for (word, yes) in [
        ([false, false], false),
        ([false, true], true),
        ([true, false], true),
        ([true, true], true),
    ] {
        assert_eq!(rt; table.walk(3, word.as_slice()), yes);
    }
    Ok(())
}

/// Whether the shape accepts the word of these two bits; None where it reads another number of bits.
fn accepts(domain: &Domain, first: bool, second: bool) -> Option<bool>
    requires { Rises domain.now.offsets.items × (domain.now.free ≡ false → domain.now.width ≤ 16) }
{
    if domain.width() != 2 {
        return None;
    }
    let start = domain.start();
    let middle = domain.step(0, start, first);
    let end = domain.step(1, middle, second);
    Some(domain.accepts(end))
}

fn five_seven_eight(alloc: Global) -> Result<Option<Domain>, AllocError>
    ensures { IfOk result (λ found. IfSome found (λ s. Rises s.offsets.items × (s.free ≡ false → s.width ≤ 16))) }
{
    let kind = Kind::Int(SetValue::from_list(alloc, [5, 7, 8].as_slice())?);
    let kinds = vec![in alloc; kind]?;
    if !are_within_limits(kinds.as_slice()) {
        return Ok(None);
    }
    let domain = Domain::of(alloc, &kinds[0])?;
    Ok(Some(domain))
}

#[test]
fn words_of_a_domain_with_a_hole(rt: HostRuntime) -> Result<(), Fail> {
    let domain = five_seven_eight(rt.alloc())?.ok_or("within the limits")?;
    assert_eq!(rt; accepts(&domain, false, false), Some(true));
    assert_eq!(rt; accepts(&domain, false, true), Some(false));
    assert_eq!(rt; accepts(&domain, true, false), Some(true));
    assert_eq!(rt; accepts(&domain, true, true), Some(true));
    Ok(())
}

/// How many states of node 3 there are after the words that node 2 accepts: after 01 and 11 there is one.
fn states(alloc: Global) -> Result<usize, AllocError> {
    let table = either(alloc)?;
    let shape = Side {
        table: &table,
        root: 3,
        places: vec![in alloc; Some(0), Some(1)]?,
    };
    let filter = Side {
        table: &table,
        root: 2,
        places: vec![in alloc; Some(0), Some(1)]?,
    };
    let start = shape.start();
    let ends = read_through(alloc, &shape, 0, &filter, 2, [start].as_slice())?;
    Ok(ends.len())
}

#[test]
fn states_are_carried_once(rt: HostRuntime) -> Result<(), Fail> {
    assert_eq!(rt; states(rt.alloc())?, 1);
    Ok(())
}
