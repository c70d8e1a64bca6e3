//! The code of the guide and of the README, and what it grows into: folders, tables and relations of a user's crate.
#![tactic(auto)]

#[cfg(test)]
mod tests;
