//! Laws of the exact step and the root family.

ghost use Rattle.std.specs.Prelude.{◌≡◌, ◌↔◌, ℕ, ◌<◌, Bool, true, List, ◌⊎◌};
ghost use Rattle.search_rules.specs.Family.{AllLie, IsWithin, put};
ghost use Rattle.search_rules.specs.Problem.{Extends, IsViolated, IsExactStep, IsNarrowed, IsLeft, IsPartOfStep, Steps, InRootFamily, IsRootRefuted, IsSingle, IsSolution};

use crate::Rules;

/// The exact step, and the exact step at one variable, are parts of a step; and the family that the exact step leaves as it
/// is, is its own exact step.
pub fn parts_of_steps<P: Rules>(problem: &P)
    ensures exact { let p = P.problem problem.now in
        (c : ℕ) (f g : ℕ → P.Value → Bool) → IsExactStep p c f g → IsPartOfStep p c f g }
    ensures narrowed { let p = P.problem problem.now in
        (c : ℕ) (f : ℕ → P.Value → Bool) (v : ℕ) (s : P.Value → Bool) → IsNarrowed p c f v s → IsPartOfStep p c f (put f v s) }
    ensures left { let p = P.problem problem.now in
        (c : ℕ) (f : ℕ → P.Value → Bool) → IsLeft p c f ↔ IsExactStep p c f f }
{}

/// Steps reach the root family, in whatever order they are taken and whatever part of a step at a time: where they end in a
/// family that every step leaves as it is, that family is the root family.
pub fn steps_reach_the_root_family<P: Rules>(problem: &P)
    ensures root { let p = P.problem problem.now in
        (cs : List ℕ) (f : ℕ → P.Value → Bool) → Steps p p.initial cs f → ((c : ℕ) → c < p.constraints → IsLeft p c f)
        → (v : ℕ) (x : P.Value) → (f v x ≡ true) ↔ InRootFamily p v x }

    // a family on the way in which some variable has no value shows that the root is refuted
    ensures refuted { let p = P.problem problem.now in
        (cs : List ℕ) (f : ℕ → P.Value → Bool) → Steps p p.initial cs f
        → (v : ℕ) → v < p.variables → ((x : P.Value) → f v x ≡ true → ⊥) → IsRootRefuted p }
{}

/// Steps take no value of a solution away.
pub fn steps_keep_solutions<P: Rules>(problem: &P)
    ensures { let p = P.problem problem.now in
        (cs : List ℕ) (f : ℕ → P.Value → Bool) (a : ℕ → P.Value) → Steps p p.initial cs f → IsSolution p a → IsWithin f a }
{}

/// A family of single values that every step leaves as it is gives a solution, where no constraint without variables is
/// false.
pub fn single_values_are_a_solution<P: Rules>(problem: &P)
    ensures { let p = P.problem problem.now in
        (f : ℕ → P.Value → Bool) (a : ℕ → P.Value) → AllLie f p.initial → IsSingle p f a
        → ((c : ℕ) → c < p.constraints → IsLeft p c f)
        → ((c : ℕ) → c < p.constraints → ((v : ℕ) × (p.scope c v ≡ true)) ⊎ p.holds c a)
        → IsSolution p a }
{}

/// The exact step may be taken one variable after another: leaving one variable what extends changes neither what else extends
/// nor the family that the exact step leads to.
pub fn exact_step_goes_by_variables<P: Rules>(problem: &P)
    ensures extends { let p = P.problem problem.now in
        (c : ℕ) (f : ℕ → P.Value → Bool) (v : ℕ) (s : P.Value → Bool) → IsNarrowed p c f v s
        → (u : ℕ) (x : P.Value) → Extends p c f u x ↔ Extends p c (put f v s) u x }
    ensures exact { let p = P.problem problem.now in
        (c : ℕ) (f g : ℕ → P.Value → Bool) (v : ℕ) (s : P.Value → Bool) → IsNarrowed p c f v s → IsExactStep p c f g
        → IsExactStep p c (put f v s) g }
{}

/// A violated constraint: no solution lies within the family, and where steps led to it from the initial family, the root is
/// refuted.
pub fn violated_constraint_refutes<P: Rules>(problem: &P)
    ensures none { let p = P.problem problem.now in
        (c : ℕ) (f : ℕ → P.Value → Bool) (a : ℕ → P.Value) → c < p.constraints → IsViolated p c f → IsSolution p a
        → IsWithin f a → ⊥ }
    ensures root { let p = P.problem problem.now in
        (cs : List ℕ) (c : ℕ) (f : ℕ → P.Value → Bool) → Steps p p.initial cs f → c < p.constraints → IsViolated p c f
        → IsRootRefuted p }
{}
