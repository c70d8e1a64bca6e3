//! The tests of canonical forms, in a crate that uses them as a solver does.
#![tactic(auto)]

#[cfg(test)]
mod tests;
