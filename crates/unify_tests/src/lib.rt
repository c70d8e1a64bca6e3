//! The tests of the unifier, in a crate that uses it as a checker does.
#![tactic(auto)]

#[cfg(test)]
mod tests;
