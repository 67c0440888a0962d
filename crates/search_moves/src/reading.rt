//! Laws on which sets a step reads: what leaves a family as it is goes on doing so where these sets stay.

ghost use Rattle.std.specs.Prelude.{◌≡◌, ℕ, Bool, true, false, ◌⊎◌};
ghost use Rattle.search_rules.specs.Family.{Lies, put};
ghost use Rattle.search_rules.specs.Problem.{IsLeft, IsViolated};
ghost use Rattle.search_rules.specs.Box.{IsBoxSame};

use search_rules::Rules;

/// Whether the exact step of a constraint leaves a family as it is, and whether the family violates the constraint,
/// depends on the sets of the scope alone.
pub fn steps_read_their_scope<P: Rules>(problem: &P)
    ensures left { let p = P.problem problem.now in
        (c : ℕ) (f g : ℕ → P.Value → Bool) → ((v : ℕ) → p.scope c v ≡ true → f v ≡ g v)
        → IsLeft p c f → IsLeft p c g }
    ensures violated { let p = P.problem problem.now in
        (c : ℕ) (f g : ℕ → P.Value → Bool) → ((v : ℕ) → p.scope c v ≡ true → f v ≡ g v)
        → IsViolated p c f → IsViolated p c g }

    // a narrowing outside the scope
    ensures outside { let p = P.problem problem.now in
        (c : ℕ) (f : ℕ → P.Value → Bool) (v : ℕ) (s : P.Value → Bool) → p.scope c v ≡ false
        → IsLeft p c f → IsLeft p c (put f v s) }
{}

/// Whether a box leaves a family as it is depends on the sets alone that do not lie in their sides.
pub fn box_steps_read_what_leaves_their_sides<X>()
    ensures same { (b f g : ℕ → X → Bool) → ((v : ℕ) → (f v ≡ g v) ⊎ Lies (f v) (b v))
        → IsBoxSame b f → IsBoxSame b g }

    // a narrowing of a set that lies in its side
    ensures inside { (b f : ℕ → X → Bool) (v : ℕ) (s : X → Bool) → Lies (f v) (b v)
        → IsBoxSame b f → IsBoxSame b (put f v s) }
{}
