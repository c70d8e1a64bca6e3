//! The tests of terms, queries and folded values.
#![tactic(auto)]

#[cfg(test)]
mod tests;
