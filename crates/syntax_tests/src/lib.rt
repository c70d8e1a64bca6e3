//! The tests of the reader, each by a source.
#![tactic(auto)]

#[cfg(test)]
mod tests;
