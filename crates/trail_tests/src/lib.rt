//! Tests of lists of pins and of trails: pin_lists and domain_trail.
#![tactic(auto)]

#[cfg(test)]
mod lists;
#[cfg(test)]
mod places;
#[cfg(test)]
mod trails;
