//! Laws on the stored boxes, as search_rules reads them.

ghost use Rattle.std.specs.Prelude.{◌≡◌, ℕ, ◌<◌, Bool, List, length};
ghost use Rattle.set_meaning.specs.declared.kinds.Value.{Value};
ghost use Rattle.set_meaning.specs.declared.problems.BoxId.{BoxId};
ghost use Rattle.set_meaning.specs.declared.problems.ConId.{ConId};
ghost use Rattle.set_meaning.specs.declared.problems.Problem.{Problem};
ghost use Rattle.bit_layout.specs.Order.{LayoutState};
ghost use Rattle.diagram_arena.specs.Table.{Table};
ghost use Rattle.search_rules.specs.Family.{AllLie};
ghost use Rattle.search_rules.specs.Problem.{IsViolated};
ghost use Rattle.search_rules.specs.Trail.{IsStored, IsLearned};
ghost use Rattle.search_rules.specs.Walk.{conflict_box, IsConflictBox};
ghost use Rattle.search_moves.specs.Answers.{SpeaksOfVariables};
ghost use Rattle.problem_rules.specs.Posed.{problem_of};
ghost use Rattle.domain_trail.specs.Trail.{TrailState};
ghost use Rattle.box_clauses.specs.declared.store.StoredBox.{StoredBox};
ghost use Rattle.box_clauses.specs.Boxes.{box_of};
ghost use Rattle.search_state.specs.Readings.{sides_at, boxes_of, AreReadable};

/// The stored boxes are those under the ids; the learned ones are among them.
pub fn stored_boxes_stand_under_ids()
    ensures stored { (l : LayoutState) (t : Table) (stored : List StoredBox) (id : ℕ) → id < length stored
        → IsStored (boxes_of l t stored) (box_of l t (sides_at stored id)) }
    ensures each { (l : LayoutState) (t : Table) (stored : List StoredBox) (b : ℕ → Value → Bool)
        → IsStored (boxes_of l t stored) b
        → (id : ℕ) × (id < length stored) × (box_of l t (sides_at stored id) ≡ b) }
    ensures learned { (l : LayoutState) (t : Table) (stored : List StoredBox) (b : ℕ → Value → Bool)
        → IsLearned (boxes_of l t stored) b → IsStored (boxes_of l t stored) b }
{}

/// The stored boxes of a readable state speak of the problem's variables alone.
pub fn stored_boxes_speak_of_variables()
    ensures { (p : Problem) (l : LayoutState) (t : Table) (stored : List StoredBox) (s : TrailState)
        (b : ℕ → Value → Bool) → l.kinds ≡ p.kinds → AreReadable l t stored s → IsStored (boxes_of l t stored) b
        → SpeaksOfVariables (problem_of p) b }
{}

/// A constraint that the family violates, and a stored box in which it lies, have their conflict's box.
pub fn conflicts_have_boxes()
    ensures constraint { (p : Problem) (l : LayoutState) (t : Table) (stored : List StoredBox) (c : ConId)
        (f : ℕ → Value → Bool) → c.0 < length p.constraints → IsViolated (problem_of p) c.0 f
        → IsConflictBox (problem_of p) (boxes_of l t stored) f (conflict_box (problem_of p) c.0 f) }
    ensures stored_box { (p : Problem) (l : LayoutState) (t : Table) (stored : List StoredBox) (id : BoxId)
        (f : ℕ → Value → Bool) → id.0 < length stored → AllLie f (box_of l t (sides_at stored id.0))
        → IsConflictBox (problem_of p) (boxes_of l t stored) f (box_of l t (sides_at stored id.0)) }
{}
