//! Which of some faults is told.

ghost use Rattle.std.specs.Prelude.{◌≡◌};
ghost use Rattle.fzn_model.specs.FaultsOf.{number_of, place_of_fault};
ghost use Rattle.fzn_model.specs.FirstFault.{first_told, is_told_before, told_first};

use crate::faults::ModelFault;

/// The first of the faults of two rules, or of two parts, of which these are the first of each.
pub(crate) fn earlier(a: Option<ModelFault>, b: Option<ModelFault>) -> Option<ModelFault>
    ensures { result ≡ first_told a b }
{
    match a {
        None => b,
        Some(f) => match b {
            None => Some(f),
            Some(g) => Some(told_first(f, g)),
        },
    }
}

fn told_first(f: ModelFault, g: ModelFault) -> ModelFault
    ensures { result ≡ told_first f g }
{
    if is_told_before(f, g) { f } else { g }
}

fn is_told_before(f: ModelFault, g: ModelFault) -> bool
    ensures { result ≡ is_told_before f g }
{
    let (p, q) = (place_of(f), place_of(g));
    p < q || (p == q && number_of(f) <= number_of(g))
}

fn place_of(fault: ModelFault) -> usize
    ensures { result ≡ place_of_fault fault }
{
    match fault {
        ModelFault::Undeclared { at } => at,
        ModelFault::DeclaredTwice { at } => at,
        ModelFault::WrongType { at } => at,
        ModelFault::UnknownConstraint { at } => at,
        ModelFault::WrongCount { at } => at,
        ModelFault::Unbounded { at } => at,
        ModelFault::Float { at } => at,
        ModelFault::NumberTooLarge { at } => at,
        ModelFault::EmptyDomain { at } => at,
        ModelFault::IntTooWide { at } => at,
        ModelFault::SetTooWide { at } => at,
        ModelFault::ElementRange { at } => at,
        ModelFault::ScopeTooWide { at } => at,
        ModelFault::TooManyBits { at } => at,
        ModelFault::TooManyConstraints { at } => at,
        ModelFault::BadOutput { at } => at,
        ModelFault::ObjectiveNotInt { at } => at,
        ModelFault::Memory => 0,
    }
}

fn number_of(fault: ModelFault) -> u8
    ensures { result ≡ number_of fault }
{
    match fault {
        ModelFault::Undeclared { .. } => 1,
        ModelFault::DeclaredTwice { .. } => 2,
        ModelFault::WrongType { .. } => 3,
        ModelFault::UnknownConstraint { .. } => 4,
        ModelFault::WrongCount { .. } => 5,
        ModelFault::Unbounded { .. } => 6,
        ModelFault::Float { .. } => 7,
        ModelFault::NumberTooLarge { .. } => 8,
        ModelFault::EmptyDomain { .. } => 9,
        ModelFault::IntTooWide { .. } => 10,
        ModelFault::SetTooWide { .. } => 11,
        ModelFault::ElementRange { .. } => 12,
        ModelFault::ScopeTooWide { .. } => 13,
        ModelFault::TooManyBits { .. } => 14,
        ModelFault::TooManyConstraints { .. } => 15,
        ModelFault::BadOutput { .. } => 16,
        ModelFault::ObjectiveNotInt { .. } => 17,
        ModelFault::Memory => 18,
    }
}
