//! The laws of words that value sets rest on.
ghost use Rattle.value_sets.specs.Laws.{WordLaws};

use diagram_arena::{reduced_tables, zero_and_one};
use scope_words::words_give_one_value;

/// The laws of the crates below.
pub(crate) fn word_laws()
    ensures { WordLaws }
{
    zero_and_one();
    reduced_tables();
    words_give_one_value();
}
