//! Laws of boxes.

ghost use Rattle.std.specs.Prelude.{ℕ, Bool, ◌⊎◌};
ghost use Rattle.search_rules.specs.Family.{HasValue, IsWithin};
ghost use Rattle.search_rules.specs.Box.{resolvent, BoxStep, IsBoxStep, IsStepOutside};

/// Every assignment in a resolvent lies in one of the two boxes.
pub fn resolvent_lies_in_its_boxes<X>()
    ensures { (b c : ℕ → X → Bool) (v : ℕ) (a : ℕ → X) → IsWithin (resolvent b c v) a → IsWithin b a ⊎ IsWithin c a }
{}

/// Where no set of the family is empty, the box step is the exact step of the constraint "not in the box".
pub fn box_step_is_the_step_outside<X>()
    ensures { (b f : ℕ → X → Bool) (step : BoxStep X) → ((v : ℕ) → HasValue (f v)) → IsBoxStep b f step → IsStepOutside b f step }
{}
