//! `possible` at small constraints of each sort.
use bit_layout::Layout;
use listed::Listed;
use problem_limits::keeps_limits;
use set_meaning::{
    Arg, ConId, Constraint, Goal, Kind, Problem, Relation, SetValue, Shown, Term, Text, Value,
    VarId,
};
use std::alloc::{AllocError, Global};
use std::test::Fail;
use sweep_shapes::possible;
use sweep_table::Table;

fn variable(v: u32) -> Arg {
    Arg::One(Term::Var(VarId(v)))
}

fn int(x: i64) -> Arg {
    Arg::One(Term::Const(Value::Int(x)))
}

fn truth(b: bool) -> Arg {
    Arg::One(Term::Const(Value::Bool(b)))
}

fn set(alloc: Global, elements: &[i64]) -> Result<Arg, AllocError> {
    let set = SetValue::from_list(alloc, elements)?;
    Ok(Arg::One(Term::Const(Value::Set(set))))
}

/// A Boolean, an integer that is 1 or 3, and a set over 1 and 2.
fn kinds(alloc: Global) -> Result<Vec<Kind>, AllocError> {
    let numbers = SetValue::from_list(alloc, [1, 3].as_slice())?;
    let universe = SetValue::from_list(alloc, [1, 2].as_slice())?;
    let kinds = vec![in alloc; Kind::Bool, Kind::Int(numbers), Kind::Set(universe)]?;
    Ok(kinds)
}

/// A problem of one constraint over variables of these kinds.
pub(crate) fn problem_over(
    alloc: Global,
    kinds: Vec<Kind>,
    c: Constraint,
) -> Result<Problem, AllocError> {
    let mut names: Vec<Text> = Vec::new(alloc);
    for _kind in kinds.as_slice() {
        let name: Vec<u8> = Vec::new(alloc);
        names.push(Listed::of(name))?;
    }
    let shown: Vec<Shown> = Vec::new(alloc);
    let constraints = vec![in alloc; c]?;
    Ok(Problem {
        kinds: Listed::of(kinds),
        names: Listed::of(names),
        constraints: Listed::of(constraints),
        goal: Goal::Satisfy,
        shown: Listed::of(shown),
    })
}

/// What `possible` answers without sides; None where the problem is not well formed.
pub(crate) fn asked(alloc: Global, p: &Problem) -> Result<Option<bool>, AllocError> {
    if !keeps_limits(alloc, p)? {
        return Ok(None);
    }
    if p.constraints.items().is_empty() {
        return Ok(None);
    }
    let layout = Layout::new(alloc, p)?;
    let table = Table::new(alloc);
    let yes = possible(alloc, p, &layout, &table, ConId(0), [].as_slice())?;
    Ok(Some(yes))
}

fn decided(
    alloc: Global,
    relation: Relation,
    args: Vec<Arg>,
    reif: Option<Term>,
) -> Result<Option<bool>, AllocError> {
    let c = Constraint {
        relation,
        args: Listed::of(args),
        reif,
    };
    let kinds = kinds(alloc)?;
    let p = problem_over(alloc, kinds, c)?;
    asked(alloc, &p)
}

#[test]
fn integers_with_a_hole(rt: HostRuntime) -> Result<(), Fail> {
    let alloc = rt.alloc();
    for (x, yes) in [(1, true), (2, false), (3, true), (4, false)] {
        let args = vec![in alloc; variable(1), int(x)]?;
        assert_eq!(rt; decided(alloc, Relation::IntEq, args, None)?, Some(yes));
    }
    for (sum, yes) in [(2, true), (4, false), (6, true)] {
        let args = vec![in alloc; variable(1), variable(1), int(sum)]?;
        assert_eq!(rt; decided(alloc, Relation::IntPlus, args, None)?, Some(yes));
    }
    Ok(())
}

#[test]
fn sets_and_truth_values(rt: HostRuntime) -> Result<(), Fail> {
    let alloc = rt.alloc();
    for (count, yes) in [(0, true), (2, true), (3, false)] {
        let args = vec![in alloc; variable(2), int(count)]?;
        assert_eq!(rt; decided(alloc, Relation::SetCard, args, None)?, Some(yes));
    }
    let args = vec![in alloc; set(alloc, [1, 5].as_slice())?, variable(2)]?;
    assert_eq!(rt;
        decided(alloc, Relation::SetSubset, args, None)?,
        Some(false)
    );
    let args = vec![in alloc; set(alloc, [1, 5].as_slice())?, variable(2)]?;
    let named = Some(Term::Var(VarId(0)));
    assert_eq!(rt;
        decided(alloc, Relation::SetSubset, args, named)?,
        Some(true)
    );
    let args = vec![in alloc; variable(0), truth(false), truth(true)]?;
    assert_eq!(rt; decided(alloc, Relation::BoolAnd, args, None)?, Some(false));
    Ok(())
}
