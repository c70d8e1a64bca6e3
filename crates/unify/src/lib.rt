//! First-order unification of types with inference variables, a client of `tt_fold` with its proof.
//!
//! A [`Bindings`] table says what each inference variable is bound to. [`unify`] makes two types equal by binding
//! variables, and [`Bindings::resolve`] replaces the bound variables of a type.
#![tactic(auto)]

pub mod bindings;
mod comparison;
mod equality;
pub mod fault;
mod memo;
mod pairs;
mod resolver;
mod search;
mod undo;
mod unifier;
mod variables;

pub use bindings::{Bindings, Snapshot};
pub use equality::equal_faults_are_same;
pub use fault::Fault;
pub use unifier::unify;
