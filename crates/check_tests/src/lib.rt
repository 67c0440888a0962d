//! Tests of `check_top`: checks over a desk in memory. The logs and what is printed for them are worked out by hand.
#![tactic(auto)]

#[cfg(test)]
mod failing;
#[cfg(test)]
mod logs;
#[cfg(test)]
mod running;
