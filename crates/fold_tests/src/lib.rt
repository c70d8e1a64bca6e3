//! The tests of visits, folds, shifts and instantiations, in a crate that uses the library as a user's crate does.
#![tactic(auto)]

#[cfg(test)]
mod tests;
