//! The words of what satisfies a constraint.
//!
//! A constraint speaks of some of a problem's variables, its scope. A word satisfies it where the bits of each of these variables
//! are the word of an initial value, and these values satisfy the constraint (`specs/Words`): the set of these words is what the
//! diagram of the constraint has. `scope_bits` lists the bits of a scope in order, and `scope_places` says for what each stands.
#![tactic(auto)]

mod laws;
mod places;
mod scope;
mod variables;

pub use laws::{
    Condition, assignments_have_words, bits_of_a_scope_are_one, bits_of_a_scope_have_positions,
    conditions_have_one_set, places_are_in_order, words_are_read_by_position,
    words_depend_on_their_bits, words_give_one_value, words_give_sets,
};
pub use places::scope_places;
pub use scope::scope_bits;
pub use variables::{have_few_bits, variables_in};
