//! Tests of the public calls of `desk`. The helpers are generic, so that no test's proof carries what one desk tells.
#![tactic(auto)]

#[cfg(test)]
mod reading_lines;
#[cfg(test)]
mod whole_texts;
