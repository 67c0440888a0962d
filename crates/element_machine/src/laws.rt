//! What the definitions say, for callers that reason about machines of elements. A caller cites a law by calling it.
ghost use Rattle.std.specs.Prelude.{◌≡◌, ℕ, List, length};
ghost use Rattle.diagram_arena.specs.Table.{Word};
ghost use Rattle.bit_machine.specs.Rules.{accepts};
ghost use Rattle.element_machine.specs.declared.marks.Marks.{Marks};
ghost use Rattle.element_machine.specs.declared.marks.Entry.{Entry};
ghost use Rattle.element_machine.specs.Rules.{ElementRules, accepts_elements};
ghost use Rattle.element_machine.specs.Reading.{AreGrouped, elements_of, by_elements};

/// Where the entries follow the elements in order, one for each bit, reading the bits one by one is reading the elements one by one: `ByElements` accepts a
/// word just where the machine of elements accepts what the word and the constants say of each element.
pub fn bits_are_read_by_elements<S>()
    ensures { (rules : ElementRules S) (constants : List Marks) (entries : List Entry) (bits : List ℕ) (w : Word) → AreGrouped (length constants) entries → length entries ≡ length bits
        → accepts (by_elements rules constants entries) bits w ≡ accepts_elements rules (elements_of constants entries bits w) }
{}
