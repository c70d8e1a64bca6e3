//! The tests of the solver, in a crate that uses it as a client does.
#![tactic(auto)]

#[cfg(test)]
mod tests;
