//! Tests of `log_checker`: logs that are taken whole, and logs of which one line is refused.
#![tactic(auto)]

#[cfg(test)]
mod logs;
