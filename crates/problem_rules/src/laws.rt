//! What the definitions say, for callers of the laws of the search. A caller cites a law by calling it.
ghost use Rattle.std.specs.Prelude.{◌≡◌, ◌↔◌, ℕ, true, List, Some, length, map, slice_get};
ghost use Rattle.set_meaning.specs.declared.kinds.Value.{Value};
ghost use Rattle.set_meaning.specs.declared.problems.VarId.{VarId};
ghost use Rattle.set_meaning.specs.declared.problems.Constraint.{Constraint};
ghost use Rattle.set_meaning.specs.declared.problems.Problem.{Problem};
ghost use Rattle.set_meaning.specs.Problems.{IsProblem};
ghost use Rattle.set_meaning.specs.Relations.{Holds, IsScope};
ghost use Rattle.set_meaning.specs.Solutions as meaning;
ghost use Rattle.bit_layout.specs.Order.{LayoutState};
ghost use Rattle.diagram_arena.specs.declared.nodes.Ref.{Ref};
ghost use Rattle.diagram_arena.specs.Table.{Table};
ghost use Rattle.search_rules.specs.Problem as rules;
ghost use Rattle.exact_steps.specs.Domains.{is_initial, values_in, family};
ghost use Rattle.exact_steps.specs.Rules.{IsConstraintOf};
ghost use Rattle.problem_rules.specs.Parts.{values_of};
ghost use Rattle.problem_rules.specs.Posed.{problem_of};

/// Each constraint of a well formed problem is the constraint of that number here: it speaks of the variables of its scope, and says
/// of the values of all variables what it says in the problem.
pub fn constraints_are_those_of_the_rules()
    ensures { (p : Problem) (l : LayoutState) (c : ℕ) (constraint : Constraint) (scope : List VarId) → IsProblem p → l.kinds ≡ p.kinds
        → slice_get p.constraints c ≡ Some constraint → IsScope constraint scope → IsConstraintOf (problem_of p) c l scope (Holds constraint) }
{}

/// An assignment is a solution here exactly where its values are one, and each solution is the values of an assignment.
pub fn solutions_are_those_of_the_rules()
    ensures same { (p : Problem) (a : ℕ → Value) → IsProblem p → rules.IsSolution (problem_of p) a ↔ meaning.IsSolution p (values_of p a) }
    ensures each { (p : Problem) (values : List Value) → meaning.IsSolution p values → (a : ℕ → Value) × (values_of p a ≡ values) }
{}

/// Answers cover an assignment here exactly where their values cover its values.
pub fn answers_cover_as_in_the_rules()
    ensures { (p : Problem) (answers : List (ℕ → Value)) (a : ℕ → Value)
        → rules.IsCovered (problem_of p) answers a ↔ meaning.IsCovered p (map (values_of p) answers) (values_of p a) }
{}

/// Domains that have all initial values of their variables are the initial family.
pub fn initial_domains_are_the_initial_family()
    ensures { (p : Problem) (l : LayoutState) (t : Table) (domains : List Ref) → l.kinds ≡ p.kinds → length domains ≡ length l.kinds
        → ((v : VarId) (r : Ref) → slice_get domains v.0 ≡ Some r → (x : Value) → is_initial l v x ≡ true → values_in l t v r x ≡ true)
        → family l t domains ≡ (problem_of p).initial }
{}
