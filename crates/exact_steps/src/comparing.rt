//! Comparing refs, and what the step answers by them.
ghost use Rattle.std.specs.Prelude.{◌≡◌, ◌↔◌, [], IsTrue};
ghost use Rattle.exact_steps.specs.Answers.{IsAnswer};

use crate::steps::StepResult;
use diagram_arena::Ref;
use set_meaning::VarId;

/// Whether the two refs are one.
pub(crate) fn is_same(a: Ref, b: Ref) -> bool
    ensures { IsTrue result ↔ (a ≡ b) }
{
    a == b
}

/// Same where nothing is narrowed.
pub(crate) fn answer(kept: Vec<(VarId, Ref)>) -> StepResult
    ensures { IsAnswer kept.items result }
{
    if kept.is_empty() {
        StepResult::Same
    } else {
        StepResult::Narrowed(kept)
    }
}
