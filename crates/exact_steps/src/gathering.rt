//! The domains of a step: that of one variable, and those of the scope.
ghost use Rattle.std.specs.Prelude.{◌≡◌, ◌<◌, IfOk, Some, length, slice_get, All};
ghost use Rattle.exact_steps.specs.Work.{domains_at};

use diagram_arena::Ref;
use set_meaning::VarId;
use std::alloc::{AllocError, Global};

/// The domains of the variables of the scope, in its order.
pub(crate) fn domains_of_scope(
    alloc: Global,
    scope: &[VarId],
    domains: &[Ref],
) -> Result<Vec<Ref>, AllocError>
    requires { All (λ v. v.0 < length domains.now) scope.now }
    ensures { IfOk result (λ own. own.items ≡ domains_at domains.now scope.now) }
{
    let mut own = Vec::new(alloc);
    for v in scope {
        own.push(domain_of(domains, *v))?;
    }
    Ok(own)
}

/// The domain of a variable.
pub(crate) fn domain_of(domains: &[Ref], v: VarId) -> Ref
    requires { v.0 < length domains.now }
    ensures { slice_get domains.now v.0 ≡ Some result }
{
    domains[v.0 as usize]
}
