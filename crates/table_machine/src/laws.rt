//! What the definitions say, for callers that reason about words of initial values. A caller cites a law by calling it.
ghost use Rattle.std.specs.Prelude.{◌≡◌, ◌↔◌, ◌&&◌, ℕ, true, List, Contains};
ghost use Rattle.set_meaning.specs.declared.kinds.Value.{Value};
ghost use Rattle.set_meaning.specs.declared.problems.VarId.{VarId};
ghost use Rattle.diagram_arena.specs.Table.{Word};
ghost use Rattle.bit_layout.specs.Order.{LayoutState, IsLayout, IsValueAt};
ghost use Rattle.bit_machine.specs.Rules.{Rules, accepts, side_by_side};
ghost use Rattle.scope_words.specs.Words.{read, Gives, AreWordsOf};
ghost use Rattle.table_machine.specs.Values.{GivesInitialValues};
ghost use Rattle.table_machine.specs.Laws.{WordLaws};

use bit_layout::{bits_are_in_order, integers_have_offsets, values_have_words, widths_are_least};
use bit_machine::side_by_side_accepts;
use scope_words::{
    Condition, bits_of_a_scope_have_positions, words_are_read_by_position, words_give_sets,
};

/// Values fit together: where at the bits of each variable of a scope stands the word of some initial value, these are the values of
/// one assignment.
pub fn values_fit_together()
    ensures { (l : LayoutState) (scope : List VarId) (w : Word) → IsLayout l
        → ((v : VarId) → Contains scope v → (x : Value) × IsValueAt l v (read l v w) x)
        → GivesInitialValues l scope w }
{}

/// A relation read beside initial values: where one machine accepts just the words of initial values, and the other, of the words that give
/// values to the scope, just those whose values satisfy a condition, then both side by side (`Both`) accept just the words of what
/// satisfies it.
pub fn relations_have_words<C: Condition, S, T>()
    ensures { (condition : C) (l : LayoutState) (scope : List VarId) (bits : List ℕ) (initial : Rules S) (relation : Rules T) → IsLayout l
        → ((w : Word) → (accepts initial bits w ≡ true) ↔ GivesInitialValues l scope w)
        → ((values : List Value) (w : Word) → Gives l scope values w → (accepts relation bits w ≡ true) ↔ C.holds condition values)
        → AreWordsOf l scope (C.holds condition) (accepts (side_by_side ◌&&◌ initial relation) bits) }
{
    side_by_side_accepts::<S, T>();
}

/// The laws of the crates below.
pub(crate) fn word_laws()
    ensures { WordLaws }
{
    widths_are_least();
    values_have_words();
    integers_have_offsets();
    bits_are_in_order();
    words_are_read_by_position();
    bits_of_a_scope_have_positions();
    words_give_sets();
}
