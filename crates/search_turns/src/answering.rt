//! Laws on answers, for the one who gives them.
ghost use Rattle.std.specs.Prelude.{◌≡◌, ℕ, List, ◌∷◌};
ghost use Rattle.set_meaning.specs.declared.kinds.Value.{Value};
ghost use Rattle.set_meaning.specs.declared.problems.Problem.{Problem as AnyProblem};
ghost use Rattle.bit_layout.specs.Order.{LayoutState};
ghost use Rattle.diagram_arena.specs.Table.{Table};
ghost use Rattle.search_rules.specs.Problem.{IsSolution, IsCovered, IsSingle};
ghost use Rattle.search_moves.specs.Answers.{HaveBoxes};
ghost use Rattle.exact_steps.specs.Domains.{family};
ghost use Rattle.problem_rules.specs.Posed.{problem_of};
ghost use Rattle.domain_trail.specs.Trail.{TrailState};
ghost use Rattle.box_clauses.specs.declared.store.StoredBox.{StoredBox};
ghost use Rattle.search_state.specs.Readings.{boxes_of, IsLegalState};
ghost use Rattle.search_turns.specs.States.{IsFurther};
ghost use Rattle.search_turns.specs.Outcomes.{IsSingleState};
ghost use Rattle.search_turns.specs.Answers.{IsResumed};

use problem_rules::Posed;
use search_moves::{answers_have_boxes, single_values_are_a_new_answer};
use search_state::stored_boxes_speak_of_variables;
use set_meaning::Problem;

/// Single values that everything leaves as they are, are a solution, and no answer covers it where each answer has its
/// box stored.
pub fn single_states_are_answers(p: &Problem)
    ensures { (l : LayoutState) (t : Table) (answers : List (ℕ → Value)) (stored : List StoredBox) (trail : TrailState)
        (a : ℕ → Value) → l.kinds ≡ p.now.kinds → IsLegalState p.now l t answers stored trail
        → HaveBoxes (problem_of p.now) (boxes_of l t stored) answers → IsSingleState p.now l t stored trail
        → IsSingle (problem_of p.now) (family l t trail.domains) a
        → IsSolution (problem_of p.now) a × (IsCovered (problem_of p.now) answers a → ⊥) }
{
    single_values_are_a_new_answer(&Posed { problem: p });
    stored_boxes_speak_of_variables();
}

/// As the search goes on, each answer that has its box stored has it stored still, and after `resume` the answer before
/// it too.
pub fn answers_keep_their_boxes()
    ensures further { (p : AnyProblem) (l : LayoutState) (t u : Table) (answers : List (ℕ → Value))
        (stored : List StoredBox) (trail : TrailState) (stored_now : List StoredBox) (trail_now : TrailState)
        → IsFurther p l t u stored trail stored_now trail_now
        → HaveBoxes (problem_of p) (boxes_of l t stored) answers
        → HaveBoxes (problem_of p) (boxes_of l u stored_now) answers }
    ensures resumed { (p : AnyProblem) (l : LayoutState) (t u : Table) (answers : List (ℕ → Value)) (a : ℕ → Value)
        (stored : List StoredBox) (trail : TrailState) (stored_now : List StoredBox) (trail_now : TrailState)
        → IsResumed p l t u stored trail stored_now trail_now
        → IsSingle (problem_of p) (family l t trail.domains) a
        → HaveBoxes (problem_of p) (boxes_of l t stored) answers
        → HaveBoxes (problem_of p) (boxes_of l u stored_now) (a ∷ answers) }
{}
