//! What the definitions say, for callers that reason about the words of constraints. A caller cites a law by calling it.
ghost use Rattle.std.specs.Prelude.{◌≡◌, ℕ, ◌<◌, List, Some, slice_get, length, All, Contains, IsSomeAnd};
ghost use Rattle.std.specs.List.{AllPass};
ghost use Rattle.std.specs.List.Sorted.{IsStrictlyIncreasing, IsStrictlySortedBy};
ghost use Rattle.set_meaning.specs.declared.kinds.Value.{Value};
ghost use Rattle.set_meaning.specs.declared.problems.VarId.{VarId};
ghost use Rattle.set_meaning.specs.Kinds.{IsAssignment};
ghost use Rattle.set_meaning.specs.Relations.{Holds};
ghost use Rattle.diagram_arena.specs.Table.{Word, Words};
ghost use Rattle.diagram_arena.specs.Reach.{Bits, DependsOn};
ghost use Rattle.bit_layout.specs.declared.places.Place.{Place};
ghost use Rattle.bit_layout.specs.Order.{LayoutState, IsLayout, width_at, bit_at, word_at, place_cmp};
ghost use Rattle.scope_words.specs.Places.{ArePlacesOf};
ghost use Rattle.scope_words.specs.Words.{read, Gives, word_of_values, IsSetKind, IsBitOf, AreBitsOf, AreWordsOf};

use set_meaning::Constraint;

/// A type whose values stand for conditions on the values of a problem's variables, so that a law about the words of what satisfies a
/// condition can be read at any condition.
pub trait Condition {
    // whether these values, one for each variable of the problem, satisfy it
    ghost holds: { Self → List Value → Type 0 };
}

impl Condition for Constraint {
    ghost holds = { Holds };
}

/// What a word has at the bits of a variable, position by position.
pub fn words_are_read_by_position()
    ensures long { (l : LayoutState) (v : VarId) (w : Word) → length (read l v w) ≡ width_at l v }
    ensures at { (l : LayoutState) (v : VarId) (w : Word) (i : ℕ) → i < width_at l v → slice_get (read l v w) i ≡ Some (w (bit_at l v i)) }
{}

/// At the bits of each variable the word of an assignment has the word of the variable's value, so it gives these values to
/// each scope.
pub fn assignments_have_words()
    ensures read_back { (l : LayoutState) (values : List Value) (v : VarId) (x : Value) → IsLayout l → IsAssignment l.kinds values → slice_get values v.0 ≡ Some x
        → read l v (word_of_values l values) ≡ word_at l v x }
    ensures given { (l : LayoutState) (scope : List VarId) (values : List Value) → IsLayout l → IsAssignment l.kinds values → All (λ v. v.0 < length l.kinds) scope
        → Gives l scope values (word_of_values l values) }
{}

/// Every word gives values to set variables, those of an assignment.
pub fn words_give_sets()
    ensures { (l : LayoutState) (scope : List VarId) (w : Word) → IsLayout l
        → ((v : VarId) → Contains scope v → IsSomeAnd (slice_get l.kinds v.0) IsSetKind)
        → (values : List Value) × IsAssignment l.kinds values × Gives l scope values w }
{}

/// A word gives each variable of a scope one value at most, and words that give the same values have the same bits of the scope.
pub fn words_give_one_value()
    ensures once { (l : LayoutState) (scope : List VarId) (xs ys : List Value) (w : Word) (v : VarId) → IsLayout l
        → Gives l scope xs w → Gives l scope ys w → Contains scope v → slice_get xs v.0 ≡ slice_get ys v.0 }
    ensures bits { (l : LayoutState) (scope : List VarId) (bits : List ℕ) (values : List Value) (w u : Word) → IsLayout l
        → AreBitsOf l scope bits → Gives l scope values w → Gives l scope values u → All (λ b. w b ≡ u b) bits }
{}

/// What a word gives to a scope depends on its bits of the scope alone.
pub fn words_depend_on_their_bits()
    ensures reading { (l : LayoutState) (scope : List VarId) (bits : List ℕ) (w u : Word) (v : VarId) → IsLayout l
        → AreBitsOf l scope bits → All (λ b. w b ≡ u b) bits → Contains scope v → read l v w ≡ read l v u }
    ensures gives { (l : LayoutState) (scope : List VarId) (bits : List ℕ) (values : List Value) (w u : Word) → IsLayout l
        → AreBitsOf l scope bits → All (λ b. w b ≡ u b) bits → Gives l scope values w → Gives l scope values u }
{}

/// Whether a word is one of what satisfies a condition depends on its bits of the scope alone, and there is one set of these words.
pub fn conditions_have_one_set<C: Condition>()
    ensures depends { (condition : C) (l : LayoutState) (scope : List VarId) (set : Words) (bits : List ℕ) (allowed : Bits) → IsLayout l
        → AreBitsOf l scope bits → AreWordsOf l scope (C.holds condition) set → AllPass allowed bits → DependsOn allowed set }
    ensures once { (condition : C) (l : LayoutState) (scope : List VarId) (first second : Words) (w : Word)
        → AreWordsOf l scope (C.holds condition) first → AreWordsOf l scope (C.holds condition) second → first w ≡ second w }
{}

/// The bit at a position of a variable of the scope is one of the scope's bits, and each bit that has a place is the one at that place's position.
pub fn bits_of_a_scope_have_positions()
    ensures of_scope { (l : LayoutState) (scope : List VarId) (v : VarId) (i : ℕ) → IsLayout l → Contains scope v → i < width_at l v → IsBitOf l scope (bit_at l v i) }
    ensures within { (l : LayoutState) (b : ℕ) (p : Place) → IsLayout l → slice_get l.places b ≡ Some p → p.position < width_at l p.variable }
    ensures back { (l : LayoutState) (b : ℕ) (p : Place) → IsLayout l → slice_get l.places b ≡ Some p → bit_at l p.variable p.position ≡ b }
{}

/// The places of ascending bits ascend: first those without an element, then by element.
pub fn places_are_in_order()
    ensures { (l : LayoutState) (bits : List ℕ) (places : List Place) → IsLayout l → IsStrictlyIncreasing bits → ArePlacesOf l bits places
        → IsStrictlySortedBy place_cmp places }
{}

/// There is one list of the bits of a scope, and each of its bits is one of the layout's.
pub fn bits_of_a_scope_are_one()
    ensures once { (l : LayoutState) (scope : List VarId) (xs ys : List ℕ) → AreBitsOf l scope xs → AreBitsOf l scope ys → xs ≡ ys }
    ensures known { (l : LayoutState) (scope : List VarId) (bits : List ℕ) → AreBitsOf l scope bits → All (λ b. b < length l.places) bits }
{}
