//! A user's function for each law of the library that no other crate calls: it makes ordinary calls, and its contract
//! says of their results what the law says of all terms. So the premises of the laws can be met, and their conclusions
//! used.
//!
//! A function tests what a test can tell: handles of another interner are refused with [`NOT_OWNED`]. What no test can
//! tell is required, and the function's comment says so.
#![tactic(auto)]

pub mod binders;
pub mod declared;
pub mod equality;
pub mod fitting;
pub mod growth;
pub mod iterators;
pub mod order;
pub mod regions;
pub mod replacement;
pub mod shifting;
pub mod signatures;
pub mod tags;

use type_terms::Refusal;

/// The refusal of a function whose condition doesn't hold. The library never returns it.
pub const NOT_OWNED: Refusal = Refusal::NoSuchAnswer;
