//! The interner, which stores each term, list and text once, and caches the flags and outer exclusive binders of terms
//! and lists.
#![tactic(auto)]

mod alias;
mod children;
mod collect;
pub mod env;
mod equality;
mod fitting;
pub mod flag_computation;
pub mod flags;
pub mod handle;
mod interner;
mod laws;
pub mod nodes;
mod self_ty;
mod signature;
mod tables;
pub mod ty_info;
mod upcast;

pub use alias::InternedAlias;
pub use collect::{collect_and_apply, try_collect_and_apply};
pub use env::{ConstBounds, ConstTyFault, FindConstTy};
pub use equality::equal_contents_are_same;
pub use fitting::{few_rows_fit, stored_indices_fit, stored_values_fit};
pub use flag_computation::ForKind;
pub use flags::Flags;
pub use handle::{AsClause, AsPredicate, InternedKind, InternedList, InternedText};
pub use interner::{AliasOfId, Interner, RegionName};
pub use laws::{
    alias_args_are_joined, equal_handles_for_equal_trees, growth_keeps_declarations,
    growth_keeps_definitions, growth_keeps_rows, growth_keeps_trees,
};
pub use self_ty::SelfTy;
pub use signature::SignatureTys;
pub use ty_info::WithCachedTypeInfo;
pub use upcast::{PredicateHandle, ToClauseKind, Upcast};
