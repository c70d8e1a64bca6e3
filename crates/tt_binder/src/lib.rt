//! Instantiation: replacing the parameters of a value in an item's declaration by arguments.
#![tactic(auto)]

mod arg_folder;
pub mod args_slice;
mod binder_opener;
mod equality;
mod fields;
mod fn_sig;
pub mod instantiate;
pub mod iter_instantiated;
pub mod open_binder;
mod shifted;
pub mod slice_like;
mod untouched;
pub mod validate_bound_vars;

pub use equality::equal_breaks_are_same;
pub use fields::DataTypes;
pub use fn_sig::TypeSignature;
pub use instantiate::{Instantiate, pruning_is_unseen};
pub use iter_instantiated::{IterInstantiate, IterInstantiated, IterInstantiatedCopied};
pub use open_binder::instantiate_binder;
pub use slice_like::SliceLike;
pub use untouched::is_untouched;
pub use validate_bound_vars::{ValidateBoundVars, WrongBoundVar, validation_is_exact};
