//! What the definitions say, for callers that reason about words and bits.
ghost use Rattle.std.specs.Prelude.{◌≡◌, ◌↔◌, ℕ, ◌+◌, ◌<◌, Bool, ℤ, pos, ◌+ℤ◌, List, Some, IsSomeAnd, slice_get, length};
ghost use Rattle.std.specs.declared.cmp.Ordering.TheVariants.{Less};
ghost use Rattle.set_meaning.specs.declared.kinds.Kind.{Kind};
ghost use Rattle.set_meaning.specs.declared.kinds.Kind.TheVariants as kinds;
ghost use Rattle.set_meaning.specs.declared.kinds.Value.TheVariants as values;
ghost use Rattle.set_meaning.specs.declared.kinds.Value.{Value};
ghost use Rattle.set_meaning.specs.declared.problems.VarId.{VarId};
ghost use Rattle.set_meaning.specs.Kinds.{InKind};
ghost use Rattle.set_meaning.specs.Problems.{IsKind};
ghost use Rattle.set_meaning.specs.Sets.{Has, IsAscending};
ghost use Rattle.bit_layout.specs.declared.places.Place.{Place};
ghost use Rattle.bit_layout.specs.Words.{IsLeastWidth, bit_width, least, number, width_of, word_of};
ghost use Rattle.bit_layout.specs.Order.{LayoutState, IsOrder, IsLayout, IsPlace, IsValueAt, place_cmp, width_at, bit_at, StandsFor, IsBoolOrInt};

/// The width of a number is the least number of binary digits that hold it.
pub fn widths_are_least()
    ensures { (n : ℕ) → IsLeastWidth n (bit_width n) }
{}

/// The word of an initial value has the width of its kind, and two different initial values of a kind have different
/// words.
pub fn values_have_words()
    ensures long { (k : Kind) (x : Value) → InKind k x → length (word_of k x) ≡ width_of k }
    ensures apart { (k : Kind) (x y : Value) → IsKind k → InKind k x → InKind k y → word_of k x ≡ word_of k y → x ≡ y }
{}

/// The word of an integer, read as a binary number, is its offset from the least value.
pub fn integers_have_offsets()
    ensures { (numbers : List ℤ) (x : ℤ) → IsAscending numbers → Has numbers x → (least numbers +ℤ pos (number (word_of (kinds.Int numbers) (values.Int x)))) ≡ x }
{}

/// A word belongs to one initial value of a variable at most.
pub fn words_have_one_value()
    ensures { (l : LayoutState) (v : VarId) (word : List Bool) (x y : Value) → IsLayout l → IsValueAt l v word x → IsValueAt l v word y → x ≡ y }
{}

/// Each word of as many bits as a set variable's universe has elements is the word of one of its initial values.
pub fn words_of_sets_have_values()
    ensures { (l : LayoutState) (v : VarId) (universe : List ℤ) (word : List Bool) → IsLayout l → slice_get l.kinds v.0 ≡ Some (kinds.Set universe) → length word ≡ length universe → (set : List ℤ) × IsValueAt l v word (values.Set set) }
{}

/// There is one order of the bits of a problem.
pub fn orders_are_one()
    ensures { (kinds : List Kind) (xs ys : List Place) → IsOrder kinds xs → IsOrder kinds ys → xs ≡ ys }
{}

/// Bits ascend as their places do, so those of a variable ascend with the position; those of a Boolean or an integer
/// follow each other with none between. A bit stands for a position of a variable, and a position has one bit.
pub fn bits_are_in_order()
    ensures ascending { (l : LayoutState) (v : VarId) (i j : ℕ) → IsLayout l → i < j → j < width_at l v → bit_at l v i < bit_at l v j }
    ensures stands { (l : LayoutState) (v : VarId) (i : ℕ) → IsLayout l → i < width_at l v → StandsFor l (bit_at l v i) v i }
    ensures contiguous { (l : LayoutState) (v : VarId) (i : ℕ) → IsLayout l → IsSomeAnd (slice_get l.kinds v.0) IsBoolOrInt → i + 1 < width_at l v → bit_at l v (i + 1) ≡ bit_at l v i + 1 }
    ensures order { (l : LayoutState) (b c : ℕ) (p q : Place) → IsLayout l → slice_get l.places b ≡ Some p → slice_get l.places c ≡ Some q → (b < c) ↔ (place_cmp p q ≡ Less) }
    ensures within { (l : LayoutState) (bit : ℕ) (p : Place) → IsLayout l → slice_get l.places bit ≡ Some p → IsPlace l.kinds p }
    ensures once { (l : LayoutState) (v : VarId) (i bit : ℕ) → IsLayout l → StandsFor l bit v i → bit_at l v i ≡ bit }
{}
