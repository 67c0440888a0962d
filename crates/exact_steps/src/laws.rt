//! What the definitions say, for callers of the step. A caller cites a law by calling it.
ghost use Rattle.std.specs.Prelude.{◌≡◌, ◌↔◌, ℕ, ◌<◌, Bool, true, List, ◌∷◌, [], Some, All, Contains, IsSomeAnd, length, slice_get, slice_set};
ghost use Rattle.set_meaning.specs.declared.kinds.Value.{Value as AnyValue};
ghost use Rattle.set_meaning.specs.declared.problems.VarId.{VarId};
ghost use Rattle.set_meaning.specs.Kinds.{InKind, IsAssignment};
ghost use Rattle.diagram_arena.specs.declared.nodes.Ref.{Ref};
ghost use Rattle.diagram_arena.specs.Table.{Word, Table, has, IsLive};
ghost use Rattle.diagram_arena.specs.Arena.{Grows};
ghost use Rattle.bit_layout.specs.Order.{LayoutState, IsLayout};
ghost use Rattle.search_rules.specs.Family.{put};
ghost use Rattle.search_rules.specs.Problem as rules;
ghost use Rattle.scope_words.specs.Words.{IsDiagramOf};
ghost use Rattle.exact_steps.specs.declared.steps.StepResult.{StepResult};
ghost use Rattle.exact_steps.specs.Domains.{variable, AtVariable, is_initial, values_in, IsDomain, AreDomains, family};
ghost use Rattle.exact_steps.specs.Steps.{IsInDiagram, Extends, IsViolated, IsSatisfiable, AllExtend, IsNarrowed, IsStepOf};
ghost use Rattle.exact_steps.specs.Parts.{NewAreWanted};
ghost use Rattle.exact_steps.specs.Rules.{IsConstraintOf};

use scope_words::Condition;
use search_rules::Rules;
use set_meaning::Value;

/// The diagram of what satisfies a condition states this condition: for its own condition too it is the diagram, so that a step may
/// be asked of it.
pub fn diagrams_state_their_conditions<C: Condition>()
    ensures { (condition : C) (l : LayoutState) (scope : List VarId) (t : Table) (r : Ref) → IsLayout l → All (λ v. v.0 < length l.kinds) scope
        → IsDiagramOf l scope (C.holds condition) t r → IsDiagramOf l scope (IsInDiagram l t r) t r }
{}

/// What a step says of the condition that a diagram states, it says of the condition that it is the diagram of.
pub fn steps_of_a_condition<C: Condition>()
    ensures extends { (condition : C) (l : LayoutState) (scope : List VarId) (t : Table) (r : Ref) (f : ℕ → AnyValue → Bool) → IsLayout l → All (λ v. v.0 < length l.kinds) scope
        → IsDiagramOf l scope (C.holds condition) t r
        → (v : VarId) (x : AnyValue) → Extends l scope (IsInDiagram l t r) f v x ↔ Extends l scope (C.holds condition) f v x }
    ensures violated { (condition : C) (l : LayoutState) (scope : List VarId) (t : Table) (r : Ref) (f : ℕ → AnyValue → Bool) → IsLayout l → All (λ v. v.0 < length l.kinds) scope
        → IsDiagramOf l scope (C.holds condition) t r
        → IsViolated l scope (IsInDiagram l t r) f ↔ IsViolated l scope (C.holds condition) f }
    ensures step { (condition : C) (l : LayoutState) (scope : List VarId) (t new : Table) (r : Ref) (f : ℕ → AnyValue → Bool) (result : StepResult) → IsLayout l → All (λ v. v.0 < length l.kinds) scope
        → IsDiagramOf l scope (C.holds condition) t r
        → IsStepOf l scope (IsInDiagram l t r) f new result → IsStepOf l scope (C.holds condition) f new result }
    ensures parts { (condition : C) (l : LayoutState) (scope : List VarId) (t new : Table) (r : Ref) (f : ℕ → AnyValue → Bool) → IsLayout l → All (λ v. v.0 < length l.kinds) scope
        → IsDiagramOf l scope (C.holds condition) t r
        → NewAreWanted l scope (IsInDiagram l t r) f t new → NewAreWanted l scope (C.holds condition) f t new }
{}

/// Where a constraint of a problem of `search_rules` says of values what the condition says of them, and the domains are its family, a value
/// extends exactly where it does there, there is no support exactly where the constraint is violated there, and a new domain is
/// what the exact step leaves the variable there. A support is one there, and all values extend exactly where the exact step leaves the
/// family as it is.
pub fn steps_are_those_of_the_rules<P: Rules<Value = Value>, C: Condition>(problem: &P)
    ensures extends { let p = P.problem problem.now in
        (condition : C) (c : ℕ) (l : LayoutState) (scope : List VarId) (t now : Table) (r : Ref) (domains : List Ref) → IsLayout l → All (λ v. v.0 < length l.kinds) scope
        → IsDiagramOf l scope (C.holds condition) t r → AreDomains l now domains → IsConstraintOf p c l scope (C.holds condition)
        → (v : ℕ) (x : AnyValue) → Extends l scope (C.holds condition) (family l now domains) (variable v) x ↔ rules.Extends p c (family l now domains) v x }
    ensures violated { let p = P.problem problem.now in
        (condition : C) (c : ℕ) (l : LayoutState) (scope : List VarId) (t now : Table) (r : Ref) (domains : List Ref) → IsLayout l → All (λ v. v.0 < length l.kinds) scope
        → IsDiagramOf l scope (C.holds condition) t r → AreDomains l now domains → IsConstraintOf p c l scope (C.holds condition)
        → IsViolated l scope (C.holds condition) (family l now domains) ↔ rules.IsViolated p c (family l now domains) }
    ensures narrowed { let p = P.problem problem.now in
        (condition : C) (c : ℕ) (l : LayoutState) (scope : List VarId) (t now new : Table) (r s : Ref) (domains : List Ref) (v : VarId) → IsLayout l → All (λ v. v.0 < length l.kinds) scope
        → IsDiagramOf l scope (C.holds condition) t r → AreDomains l now domains → IsConstraintOf p c l scope (C.holds condition)
        → IsNarrowed l scope (C.holds condition) (family l now domains) new v s → rules.IsNarrowed p c (family l now domains) v.0 (values_in l new v s) }
    ensures satisfiable { let p = P.problem problem.now in
        (condition : C) (c : ℕ) (l : LayoutState) (scope : List VarId) (t now : Table) (r : Ref) (domains : List Ref) → IsLayout l → All (λ v. v.0 < length l.kinds) scope
        → IsDiagramOf l scope (C.holds condition) t r → AreDomains l now domains → IsConstraintOf p c l scope (C.holds condition)
        → IsSatisfiable l scope (C.holds condition) (family l now domains)
        → (a : ℕ → AnyValue) × ((u : ℕ) → p.scope c u ≡ true → family l now domains u (a u) ≡ true) × p.holds c a }
    ensures left { let p = P.problem problem.now in
        (condition : C) (c : ℕ) (l : LayoutState) (scope : List VarId) (t now : Table) (r : Ref) (domains : List Ref) → IsLayout l → All (λ v. v.0 < length l.kinds) scope
        → IsDiagramOf l scope (C.holds condition) t r → AreDomains l now domains → IsConstraintOf p c l scope (C.holds condition)
        → ((v : VarId) → Contains scope v → AllExtend l scope (C.holds condition) (family l now domains) v) ↔ rules.IsLeft p c (family l now domains) }
{}

/// The test for initial values passes those of the variable's kind.
pub fn initial_values_pass_their_test()
    ensures { (l : LayoutState) (v : VarId) (x : AnyValue) → IsLayout l → (is_initial l v x ≡ true) ↔ IsSomeAnd (slice_get l.kinds v.0) (λ k. InKind k x) }
{}

/// The diagram of a condition on one variable is that of its own values, which are exactly those that an assignment which satisfies the
/// condition has there.
pub fn diagrams_of_variables_are_domains<C: Condition>()
    ensures own { (condition : C) (l : LayoutState) (v : VarId) (t : Table) (r : Ref) → IsLayout l → v.0 < length l.kinds
        → IsDiagramOf l (v ∷ []) (C.holds condition) t r → IsDiagramOf l (v ∷ []) (AtVariable v (λ x. values_in l t v r x ≡ true)) t r }
    ensures exact { (condition : C) (l : LayoutState) (v : VarId) (t : Table) (r : Ref) (x : AnyValue) → IsLayout l → v.0 < length l.kinds
        → IsDiagramOf l (v ∷ []) (C.holds condition) t r
        → (values_in l t v r x ≡ true) ↔ ((values : List AnyValue) × IsAssignment l.kinds values × (slice_get values v.0 ≡ Some x) × C.holds condition values) }
{}

/// What a ref means at the variables of a problem hangs on its words alone: where it is in another table with the same words, it has the same
/// values, is a domain still, and the diagram of the same conditions.
pub fn meanings_are_of_words<C: Condition>()
    ensures values { (l : LayoutState) (t u : Table) (v : VarId) (r : Ref) → ((w : Word) → has u r w ≡ has t r w) → values_in l u v r ≡ values_in l t v r }
    ensures domain { (l : LayoutState) (t u : Table) (v : VarId) (r : Ref) → IsLive u r → ((w : Word) → has u r w ≡ has t r w) → IsDomain l t v r → IsDomain l u v r }
    ensures diagram { (condition : C) (l : LayoutState) (scope : List VarId) (t u : Table) (r : Ref) → IsLive u r → ((w : Word) → has u r w ≡ has t r w)
        → IsDiagramOf l scope (C.holds condition) t r → IsDiagramOf l scope (C.holds condition) u r }
{}

/// As nodes are added, domains stay domains, and their family stays the same.
pub fn domains_stay_as_tables_grow()
    ensures domains { (l : LayoutState) (t u : Table) (domains : List Ref) → Grows t u → AreDomains l t domains → AreDomains l u domains }
    ensures same { (l : LayoutState) (t u : Table) (domains : List Ref) → Grows t u → AreDomains l t domains → family l u domains ≡ family l t domains }
{}

/// With one domain replaced, as after a narrowing, there is again a domain for each variable, and their family has just this variable's set replaced.
pub fn narrowed_domains()
    ensures domains { (l : LayoutState) (t u : Table) (domains : List Ref) (v : VarId) (r : Ref) → Grows t u → AreDomains l t domains → v.0 < length domains → IsDomain l u v r
        → AreDomains l u (slice_set domains v.0 r) }
    ensures family { (l : LayoutState) (t u : Table) (domains : List Ref) (v : VarId) (r : Ref) → Grows t u → AreDomains l t domains → v.0 < length domains
        → family l u (slice_set domains v.0 r) ≡ put (family l t domains) v.0 (values_in l u v r) }
{}
