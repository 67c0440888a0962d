//! Searches of models made by chance, against trying every assignment. A model is made from its seed, by its text.
#![tactic(auto)]

#[cfg(test)]
mod chance;
#[cfg(test)]
mod comparing;
#[cfg(test)]
mod models;
#[cfg(test)]
mod searching;
#[cfg(test)]
mod trying;
