//! What the definitions say, for callers that reason about machines. A caller cites a law by calling it.
ghost use Rattle.std.specs.Prelude.{◌≡◌, ℕ, ◌+◌, ◌<◌, ◌++◌, Bool, not, List, length, slice_index};
ghost use Rattle.std.specs.List.{AllPass};
ghost use Rattle.diagram_arena.specs.Table.{Word};
ghost use Rattle.diagram_arena.specs.Reach.{Bits, DependsOn};
ghost use Rattle.bit_machine.specs.Rules.{Rules, run, accepts, side_by_side, complemented, bit_at};

/// Whether a machine accepts a word depends only on the word's bits that it reads.
pub fn accepts_by_its_bits_alone<S>()
    ensures { (rules : Rules S) (bits : List ℕ) (set : Bits) → AllPass set bits → DependsOn set (accepts rules bits) }
{}

/// A list of bits may be read in two pieces.
pub fn reads_in_pieces<S>()
    ensures { (rules : Rules S) (at : ℕ) (q : S) (front back : List ℕ) (w : Word)
        → run rules at q (front ++ back) w ≡ run rules (at + length front) (run rules at q front w) back w }
{}

/// Two machines side by side accept by what each would answer alone: `Both` where both accept, `Alike` where
/// their answers are the same.
pub fn side_by_side_accepts<S, T>()
    ensures { (join : Bool → Bool → Bool) (first : Rules S) (second : Rules T) (bits : List ℕ) (w : Word)
        → accepts (side_by_side join first second) bits w ≡ join (accepts first bits w) (accepts second bits w) }
{}

/// The complement of a machine accepts just the words that the machine does not.
pub fn complemented_accepts<S>()
    ensures { (rules : Rules S) (bits : List ℕ) (w : Word) → accepts (complemented rules) bits w ≡ not (accepts rules bits w) }
{}

/// The machine of one bit accepts just the words whose bit at that place is true, where the place is one of the list's.
pub fn one_bit_accepts()
    ensures { (place : ℕ) (bits : List ℕ) (w : Word) → place < length bits → accepts (bit_at place) bits w ≡ w (slice_index bits place) }
{}
