//! What holds of all verdicts.

ghost use Rattle.std.specs.Prelude.{◌≡◌, ℕ, List};
ghost use Rattle.log_rules.specs.declared.reasons.Reason.{Reason as AnyReason};
ghost use Rattle.log_rules.specs.declared.reasons.End.{End as AnyEnd};
ghost use Rattle.check_top.specs.Verdicts.{IsAccepted, IsRefusedAt};

use log_rules::{logs_grow_by_lines, refusals_are_one};
use log_text::spellings_are_apart;
use set_meaning::Problem;

/// A law: of any bytes there is one verdict. They are not both accepted and refused; how an accepted log ends and how
/// many answers it lists is one, and so are the line that is refused and its reason. So [`crate::check_run`] answers
/// Accepted just where the log is accepted, of files that could be read.
pub fn logs_have_one_verdict(p: &Problem)
    ensures one { (bytes : List ℕ) (end : AnyEnd) (answers number : ℕ) (r : AnyReason)
        → IsAccepted p.now bytes end answers → IsRefusedAt p.now bytes number r → ⊥ }
    ensures accepted { (bytes : List ℕ) (end last : AnyEnd) (answers count : ℕ)
        → IsAccepted p.now bytes end answers → IsAccepted p.now bytes last count
        → (end ≡ last) × (answers ≡ count) }
    ensures refused { (bytes : List ℕ) (number other : ℕ) (r q : AnyReason)
        → IsRefusedAt p.now bytes number r → IsRefusedAt p.now bytes other q
        → (number ≡ other) × (r ≡ q) }
{
    spellings_are_apart();
    refusals_are_one(p);
    logs_grow_by_lines(p);
}
