//! Laws of the legal state: what each change leaves of it, and that the measure falls.

ghost use Rattle.std.specs.Prelude.{◌≡◌, ℕ, ◌+◌, ◌<◌, true, false, List, [], ◌∷◌, ◌++◌, length};
ghost use Rattle.set_meaning.specs.declared.kinds.Value.{Value};
ghost use Rattle.set_meaning.specs.declared.problems.BoxId.{BoxId};
ghost use Rattle.set_meaning.specs.declared.problems.VarId.{VarId};
ghost use Rattle.set_meaning.specs.declared.problems.Problem.{Problem as AnyProblem};
ghost use Rattle.bit_layout.specs.Order.{LayoutState};
ghost use Rattle.diagram_arena.specs.declared.nodes.Ref.{Ref};
ghost use Rattle.diagram_arena.specs.Table.{Table};
ghost use Rattle.search_rules.specs.Family.{without};
ghost use Rattle.search_rules.specs.Trail as rules;
ghost use Rattle.search_rules.specs.State.{IsSafe};
ghost use Rattle.exact_steps.specs.Domains.{values_in, IsDomain, AreDomains, family};
ghost use Rattle.problem_rules.specs.Posed.{problem_of};
ghost use Rattle.domain_trail.specs.declared.entries.Reason.{Reason};
ghost use Rattle.domain_trail.specs.declared.entries.Reason.TheVariants as why;
ghost use Rattle.domain_trail.specs.Trail.{TrailState, narrowed, IsUndone, IsUndoneTo};
ghost use Rattle.box_clauses.specs.declared.sides.Side.{Side};
ghost use Rattle.box_clauses.specs.declared.store.StoredBox.{StoredBox};
ghost use Rattle.box_clauses.specs.Boxes.{box_of, AreSides};
ghost use Rattle.box_clauses.specs.Stored.{stored as stored_box};
ghost use Rattle.search_state.specs.Readings.{boxes_of, reason_of, IsKnown, IsTrailOf, IsLegalState};
ghost use Rattle.search_state.specs.Turns.{CanNarrow, IsTurn, HasGoneBack, measure_of};

use exact_steps::narrowed_domains;
use problem_rules::Posed;
use search_moves::undoing_keeps_the_state_legal;
use search_rules::{
    answer_keeps_the_state_legal, conflict_turn, decision_keeps_the_state_legal,
    derived_box_narrows, going_back_keeps_the_state_legal, narrowing_keeps_the_state_legal,
    safe_box_keeps_the_state_legal, the_first_state_is_legal,
};
use set_meaning::Problem;

/// A legal state has a trail by the rules.
pub fn legal_states_have_trails()
    ensures { (p : AnyProblem) (l : LayoutState) (t : Table) (answers : List (ℕ → Value)) (stored : List StoredBox)
        (s : TrailState) → IsLegalState p l t answers stored s → IsTrailOf p l t stored s }
{}

/// The search begins in a legal state: no answers, no boxes, no entries, and domains of all initial values.
pub fn first_states_are_legal(p: &Problem)
    ensures { (l : LayoutState) (t : Table) (start : List Ref) → AreDomains l t start
        → family l t start ≡ (problem_of p.now).initial
        → IsLegalState p.now l t [] [] (record { domains = start; entries = []; level = 0 }) }
{
    the_first_state_is_legal(&Posed { problem: p });
}

/// A narrowing whose reason holds, and a decision at a new level where everything leaves the family as it is, keep the
/// state legal, and the measure falls.
pub fn narrowings_keep_states_legal(p: &Problem)
    ensures narrowed { (l : LayoutState) (t : Table) (answers : List (ℕ → Value)) (stored : List StoredBox)
        (s : TrailState) (v : VarId) (to : Ref) (reason : Reason)
        → l.kinds ≡ p.now.kinds → IsLegalState p.now l t answers stored s → CanNarrow l t s v to
        → IsKnown stored reason → (reason ≡ why.Decision → ⊥)
        → rules.IsReason (problem_of p.now) (boxes_of l t stored) (reason_of l t stored reason)
        (family l t s.domains) v.0
        (values_in l t v to)
        → IsLegalState p.now l t answers stored (narrowed s v to reason)
        × (measure_of p.now l t stored (narrowed s v to reason) < measure_of p.now l t stored s) }
    ensures decided { (l : LayoutState) (t : Table) (answers : List (ℕ → Value)) (stored : List StoredBox)
        (s : TrailState) (v : VarId) (to : Ref)
        → l.kinds ≡ p.now.kinds → IsLegalState p.now l t answers stored s → CanNarrow l t s v to
        → (problem_of p.now).decides (family l t s.domains) v.0 (values_in l t v to)
        → rules.IsQuiet (problem_of p.now) (boxes_of l t stored) (family l t s.domains)
        → let after = narrowed (record s { level = s.level + 1 }) v to why.Decision in
        IsLegalState p.now l t answers stored after
        × (measure_of p.now l t stored after < measure_of p.now l t stored s) }
{
    narrowed_domains();
    narrowing_keeps_the_state_legal(&Posed { problem: p });
    decision_keeps_the_state_legal(&Posed { problem: p });
}

/// Undoing the newest entry, or all entries above a level, keeps the state legal.
pub fn undone_states_are_legal(p: &Problem)
    ensures one { (l : LayoutState) (t : Table) (answers : List (ℕ → Value)) (stored : List StoredBox)
        (old new : TrailState) → IsUndone old new → IsLegalState p.now l t answers stored old
        → IsLegalState p.now l t answers stored new }
    ensures level { (l : LayoutState) (t : Table) (answers : List (ℕ → Value)) (stored : List StoredBox) (k : ℕ)
        (old new : TrailState) → IsUndoneTo k old new → IsLegalState p.now l t answers stored old
        → IsLegalState p.now l t answers stored new }
{
    narrowed_domains();
    undoing_keeps_the_state_legal(&Posed { problem: p });
    going_back_keeps_the_state_legal(&Posed { problem: p });
}

/// A further answer, and an unmarked box that holds no solution which the answers do not cover, keep the state legal.
pub fn answers_keep_states_legal(p: &Problem)
    ensures answer { (l : LayoutState) (t : Table) (answers : List (ℕ → Value)) (stored : List StoredBox)
        (s : TrailState) (answer : ℕ → Value) → IsLegalState p.now l t answers stored s
        → IsLegalState p.now l t (answer ∷ answers) stored s }
    ensures safe { (l : LayoutState) (t : Table) (answers : List (ℕ → Value)) (stored : List StoredBox)
        (s : TrailState) (sides : List Side) (line : ℕ) → IsLegalState p.now l t answers stored s
        → AreSides l t sides → IsSafe (problem_of p.now) answers (box_of l t sides)
        → IsLegalState p.now l t answers (stored ++ stored_box sides line false ∷ []) s }
{
    answer_keeps_the_state_legal(&Posed { problem: p });
    safe_box_keeps_the_state_legal(&Posed { problem: p });
}

/// The turn of a conflict: the derived box is learned, the trail goes back to its level, and the variable is narrowed
/// there to what is outside its side. The state is legal before and after the narrowing, and over the whole the measure
/// falls.
pub fn conflict_turns_keep_states_legal(p: &Problem)
    ensures learned { (l : LayoutState) (t u : Table) (answers : List (ℕ → Value)) (stored : List StoredBox)
        (old new : TrailState) (sides : List Side) (line v k : ℕ)
        → IsLegalState p.now l t answers stored old → IsTurn p.now l t stored old (box_of l u sides) v k
        → HasGoneBack l t u stored k old new → IsTrailOf p.now l u stored new → AreSides l u sides
        → IsLegalState p.now l u answers (stored ++ stored_box sides line true ∷ []) new }
    ensures narrowed { (l : LayoutState) (t u : Table) (answers : List (ℕ → Value)) (stored : List StoredBox)
        (old new : TrailState) (sides : List Side) (line k : ℕ) (v : VarId) (to : Ref) (id : BoxId)
        → l.kinds ≡ p.now.kinds → IsLegalState p.now l t answers stored old
        → IsTurn p.now l t stored old (box_of l u sides) v.0 k → HasGoneBack l t u stored k old new
        → IsTrailOf p.now l u stored new → AreSides l u sides → IsDomain l u v to
        → values_in l u v to ≡ without (family l u new.domains v.0) (box_of l u sides v.0) → id.0 ≡ length stored
        → let now = stored ++ stored_box sides line true ∷ [] in let after = narrowed new v to (why.Box id) in
        IsLegalState p.now l u answers now after
        × (measure_of p.now l u now after < measure_of p.now l t stored old) }
{
    narrowed_domains();
    conflict_turn(&Posed { problem: p });
    derived_box_narrows(&Posed { problem: p });
}
