//! What the definitions say, for callers of the step. A caller cites a law by calling it.
ghost use Rattle.std.specs.Prelude.{◌≡◌, ℕ, ◌<◌, List, length};
ghost use Rattle.set_meaning.specs.declared.kinds.Value.{Value as AnyValue};
ghost use Rattle.set_meaning.specs.declared.problems.VarId.{VarId as Variable};
ghost use Rattle.set_meaning.specs.declared.problems.ConId.{ConId as Number};
ghost use Rattle.set_meaning.specs.declared.problems.Constraint.{Constraint};
ghost use Rattle.set_meaning.specs.declared.problems.Problem.{Problem};
ghost use Rattle.diagram_arena.specs.declared.nodes.Ref.{Ref};
ghost use Rattle.diagram_arena.specs.Table.{Table};
ghost use Rattle.diagram_arena.specs.Arena.{Grows};
ghost use Rattle.bit_layout.specs.Order.{LayoutState};
ghost use Rattle.exact_steps.specs.Domains.{variable, is_initial, AreDomains, family};
ghost use Rattle.node_reclaim.specs.Holders.{MeansTheSame};
ghost use Rattle.propagators.specs.Compiled.{CompiledState, pinned_by, AreInitialDomains, IsCompiled, IsConstraintAt};

/// The domains of all initial values are domains, and their family gives each variable its initial values.
pub fn initial_domains_are_domains()
    ensures domains { (l : LayoutState) (t : Table) (start : List Ref) → AreInitialDomains l t start → AreDomains l t start }
    ensures initial { (l : LayoutState) (t : Table) (start : List Ref) (v : ℕ) (x : AnyValue) → AreInitialDomains l t start → v < length l.kinds
        → family l t start v x ≡ is_initial l (variable v) x }
{}

/// What is compiled stays so as nodes are added, and wherever the refs that it pins are there and mean the same.
pub fn compiled_stays()
    ensures grown { (l : LayoutState) (p : Problem) (t u : Table) (k : CompiledState) → Grows t u → IsCompiled l p t k → IsCompiled l p u k }
    ensures pinned { (l : LayoutState) (p : Problem) (t u : Table) (k : CompiledState) → MeansTheSame t u (pinned_by k) → IsCompiled l p t k → IsCompiled l p u k }
    ensures constraint { (l : LayoutState) (t u : Table) (k : CompiledState) (c : Number) (con : Constraint) (scope : List Variable) → Grows t u
        → IsConstraintAt l t k c con scope → IsConstraintAt l u k c con scope }
{}
