//! The bits of a scope.
ghost use Rattle.std.specs.Prelude.{◌≡◌, ◌<◌, ◌↔◌, IfOk, length, All, Contains};
ghost use Rattle.std.specs.List.{flat_map};
ghost use Rattle.set_meaning.specs.declared.problems.VarId.{VarId as Variable};
ghost use Rattle.scope_words.specs.Words.{AreBitsOf, bits_at};

use bit_layout::{Bit, Layout};
use set_meaning::VarId;
use std::alloc::{AllocError, Global};

/// All bits of the listed variables, in the order of the problem's bits, each once. The variables may stand in any order and more
/// than once. Time is of the order of the variables listed and of the bits, times the logarithm of their number. An `Err` is want of
/// memory.
pub fn scope_bits(alloc: Global, layout: &Layout, scope: &[VarId]) -> Result<Vec<Bit>, AllocError>
    requires { All (λ v. v.0 < length layout.now.kinds) scope.now }
    ensures { IfOk result (λ bits. AreBitsOf layout.now scope.now bits.items) }
{
    layout.obeys_order();
    let variables = distinct(alloc, scope)?;
    let mut bits = listed_bits(alloc, layout, variables.as_slice())?;
    bits.sort_unstable();
    bits.dedup();
    Ok(bits)
}

/// The variables, each once.
fn distinct(alloc: Global, scope: &[VarId]) -> Result<Vec<VarId>, AllocError>
    ensures { IfOk result (λ variables. (v : Variable) → Contains variables.items v ↔ Contains scope.now v) }
{
    let mut variables = Vec::from_slice(alloc, scope)?;
    variables.sort_unstable();
    variables.dedup();
    Ok(variables)
}

/// The bits of the variables, variable by variable.
fn listed_bits(alloc: Global, layout: &Layout, scope: &[VarId]) -> Result<Vec<Bit>, AllocError>
    requires { All (λ v. v.0 < length layout.now.kinds) scope.now }
    ensures { IfOk result (λ bits. bits.items ≡ flat_map (bits_at layout.now) scope.now) }
{
    let mut bits = Vec::new(alloc);
    for v in scope {
        bits.extend_from_slice(bits_of(layout, *v))?;
    }
    Ok(bits)
}

/// The bits of one variable, as a list.
fn bits_of(layout: &Layout, v: VarId) -> &[Bit]
    requires { v.0 < length layout.now.kinds }
    ensures { result.now ≡ bits_at layout.now v }
{
    layout.bits_of(v)
}
