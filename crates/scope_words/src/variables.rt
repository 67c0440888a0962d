//! The variables of a constraint's arguments, and whether they have few bits.
ghost use Rattle.std.specs.Prelude.{◌≡◌, ◌<◌, ◌≤◌, ◌↔◌, ◌++◌, IsTrue, IfOk, OnOk, All, length, filter_map};
ghost use Rattle.set_meaning.specs.Relations.{variable_of};
ghost use Rattle.scope_words.specs.Words.{variables_in, HaveFewBits};

use crate::scope::scope_bits;
use bit_layout::Layout;
use set_meaning::{Arg, Term, VarId};
use std::alloc::{AllocError, Global};

/// The most bits over which a diagram of a constraint is made, as many as a scope may have.
const MOST_BITS: usize = 2_048;

/// The variables that stand in the arguments, in order, as often as they stand there. An `Err` is want of memory.
pub fn variables_in(alloc: Global, args: &[Arg]) -> Result<Vec<VarId>, AllocError>
    ensures { IfOk result (λ vs. vs.items ≡ variables_in args.now) }
{
    let mut variables = Vec::new(alloc);
    for arg in args {
        push_variables(&mut variables, arg.terms())?;
    }
    Ok(variables)
}

fn push_variables(variables: &mut Vec<VarId>, terms: &[Term]) -> Result<(), AllocError>
    ensures { OnOk result (variables.new.items ≡ variables.old.items ++ filter_map variable_of terms.now) }
{
    for term in terms {
        if let Term::Var(variable) = term {
            variables.push(*variable)?;
        }
    }
    Ok(())
}

/// Whether the variables, each counted once, have at most 2,048 bits together, as those of every constraint of a problem within
/// the limits do. An `Err` is want of memory.
pub fn have_few_bits(
    alloc: Global,
    layout: &Layout,
    variables: &[VarId],
) -> Result<bool, AllocError>
    requires { All (λ v. v.0 < length layout.now.kinds) variables.now }
    ensures { IfOk result (λ few. IsTrue few ↔ HaveFewBits layout.now variables.now) }
{
    let bits = scope_bits(alloc, layout, variables)?;
    Ok(bits.len() <= MOST_BITS)
}
