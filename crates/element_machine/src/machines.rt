ghost use Rattle.std.specs.Prelude.{◌≡◌, true};
ghost use Rattle.element_machine.specs.Rules.{ElementRules};

use crate::marks::Marks;
use std::hash::Hash;

/// A relation of up to three sets, read element by element in ascending order: a deterministic finite automaton over marks.
///
/// States should be few and canonical, as of a `Machine` of bits.
pub trait ElementMachine {
    /// What the machine keeps of the elements that it has read.
    type State: Copy + Eq + Hash;

    // what it does, as plain rules
    ghost rules: { Self → ElementRules Self.State };

    /// The state before any element.
    fn start(&self) -> Self::State
        ensures { result ≡ (rules self.now).start };

    /// The state after one more element, which these sets have.
    fn close(&self, state: Self::State, marks: Marks) -> Self::State
        ensures { result ≡ (rules self.now).close state marks };

    /// Whether the sets are accepted that have led to this state, once all elements are read.
    fn accepts(&self, state: Self::State) -> bool
        ensures { result ≡ (rules self.now).accept state };

    // states that compare as equal are one
    ghost identical: { (p q : Self.State) → Self.State.eq p q ≡ true → p ≡ q };
}
