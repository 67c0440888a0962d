//! What the bits over the places of set variables say. A caller cites a law by calling it.
ghost use Rattle.std.specs.Prelude.{◌≡◌, Bool, ℤ, List, Some, slice_get, length, map, Contains};
ghost use Rattle.set_meaning.specs.declared.kinds.Kind.{Kind};
ghost use Rattle.set_meaning.specs.declared.kinds.Kind.TheVariants as kind;
ghost use Rattle.set_meaning.specs.declared.kinds.Value.{Value};
ghost use Rattle.set_meaning.specs.declared.kinds.Value.TheVariants as value;
ghost use Rattle.set_meaning.specs.declared.problems.VarId.{VarId};
ghost use Rattle.set_meaning.specs.Problems.{IsKind};
ghost use Rattle.bit_layout.specs.declared.places.Place.{Place};
ghost use Rattle.bit_layout.specs.Words.{width_of, word_of};
ghost use Rattle.sweep_rules.specs.SetPlaces.{AreSetPlaces, set_bit};
ghost use Rattle.sweep_table.specs.Sides.{CountFrom, own_bits, own_count};
ghost use Rattle.sweep_scopes.specs.Meetings.{places_in};

/// The places of a variable among those of several are its own, in order; where values give it a set, its bits are the word of the
/// set; and words are one where the bits of each variable are.
pub fn set_places_have_words()
    ensures counted { (kinds : List Kind) (sets : List VarId) (places : List Place) (v : VarId) (k : Kind) → AreSetPlaces kinds sets places → Contains sets v → slice_get kinds v.0 ≡ Some k → IsKind k
        → CountFrom 0 (places_in places v) × (own_count (places_in places v) ≡ width_of k) }
    ensures word { (kinds : List Kind) (sets : List VarId) (places : List Place) (given : List Value) (v : VarId) (universe set : List ℤ) → AreSetPlaces kinds sets places → Contains sets v
        → slice_get kinds v.0 ≡ Some (kind.Set universe) → IsKind (kind.Set universe) → slice_get given v.0 ≡ Some (value.Set set)
        → own_bits (places_in places v) (map (set_bit given) places) ≡ word_of (kind.Set universe) (value.Set set) }
    ensures same { (places : List Place) (xs ys : List Bool) → length xs ≡ length places → length ys ≡ length places
        → ((v : VarId) → own_bits (places_in places v) xs ≡ own_bits (places_in places v) ys) → xs ≡ ys }
{}
