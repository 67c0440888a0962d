//! A value in the place of a variable.
ghost use Rattle.std.specs.Prelude.{◌≡◌, ◌∷◌, [], ◌++◌, IfOk, OnOk, Some, map};
ghost use Rattle.std.specs.List.{filter};
ghost use Rattle.std.specs.Option.{option_map};
ghost use Rattle.sweep_fixing.specs.Fixing.{fixed, fixed_arg, fixed_term, is_other, others};

use listed::Listed;
use set_meaning::{Arg, Constraint, Term, Value, VarId};
use std::alloc::{AllocError, Global};

/// The constraint with the value in each place of the variable. Time and memory are linear in the terms and the elements of constants. An
/// `Err` is want of memory.
pub fn fixed(alloc: Global, c: &Constraint, v: VarId, x: &Value) -> Result<Constraint, AllocError>
    ensures { IfOk result (λ new. new ≡ fixed v x.now c.now) }
{
    let args = fixed_args(alloc, c.args.items(), v, x)?;
    let reif = fixed_truth(alloc, &c.reif, v, x)?;
    Ok(Constraint {
        relation: c.relation,
        args: Listed::of(args),
        reif,
    })
}

fn fixed_args(alloc: Global, args: &[Arg], v: VarId, x: &Value) -> Result<Vec<Arg>, AllocError>
    ensures { IfOk result (λ new. new.items ≡ map (fixed_arg v x.now) args.now) }
{
    let mut new = Vec::new(alloc);
    for arg in args {
        let arg = fixed_arg(alloc, arg, v, x)?;
        new.push(arg)?;
    }
    Ok(new)
}

fn fixed_arg(alloc: Global, arg: &Arg, v: VarId, x: &Value) -> Result<Arg, AllocError>
    ensures { IfOk result (λ new. new ≡ fixed_arg v x.now arg.now) }
{
    match arg {
        Arg::One(term) => {
            let term = fixed_term(alloc, term, v, x)?;
            Ok(Arg::One(term))
        }
        Arg::Many(terms) => {
            let terms = fixed_terms(alloc, terms.items(), v, x)?;
            Ok(Arg::Many(Listed::of(terms)))
        }
    }
}

fn fixed_terms(alloc: Global, terms: &[Term], v: VarId, x: &Value) -> Result<Vec<Term>, AllocError>
    ensures { IfOk result (λ new. new.items ≡ map (fixed_term v x.now) terms.now) }
{
    let mut new = Vec::new(alloc);
    for term in terms {
        let term = fixed_term(alloc, term, v, x)?;
        new.push(term)?;
    }
    Ok(new)
}

fn fixed_term(alloc: Global, term: &Term, v: VarId, x: &Value) -> Result<Term, AllocError>
    ensures { IfOk result (λ new. new ≡ fixed_term v x.now term.now) }
{
    match term {
        Term::Const(own) => {
            let own = own.copy(alloc)?;
            Ok(Term::Const(own))
        }
        Term::Var(u) => {
            if u.0 == v.0 {
                let x = x.copy(alloc)?;
                return Ok(Term::Const(x));
            }
            Ok(Term::Var(*u))
        }
    }
}

fn fixed_truth(
    alloc: Global,
    reif: &Option<Term>,
    v: VarId,
    x: &Value,
) -> Result<Option<Term>, AllocError>
    ensures { IfOk result (λ new. new ≡ option_map (fixed_term v x.now) reif.now) }
{
    match reif {
        Some(term) => {
            let term = fixed_term(alloc, term, v, x)?;
            Ok(Some(term))
        }
        None => Ok(None),
    }
}

/// The sides of the other variables, in order. Time and memory are linear in the sides. An `Err` is want of memory.
pub fn others(alloc: Global, sides: &[(u64, u64)], v: VarId) -> Result<Vec<(u64, u64)>, AllocError>
    ensures { IfOk result (λ left. left.items ≡ others v.0 sides.now) }
{
    let mut left = Vec::new(alloc);
    for side in sides {
        push_other(&mut left, *side, v)?;
    }
    Ok(left)
}

/// Appends the side, unless it is the variable's.
fn push_other(left: &mut Vec<(u64, u64)>, side: (u64, u64), v: VarId) -> Result<(), AllocError>
    ensures { OnOk result (left.new.items ≡ left.old.items ++ others v.0 (side ∷ [])) }
{
    if side.0 != u64::from(v.0) {
        left.push(side)?;
    }
    Ok(())
}
