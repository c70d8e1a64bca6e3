//! Indices, tags and refusals, which the other crates of the library use.
#![tactic(auto)]

pub mod abi;
pub mod bound_var;
pub mod closure_kind;
pub mod debruijn;
pub mod equality;
pub mod field;
pub mod idx;
pub mod index;
pub mod index_vec;
pub mod numeric;
pub mod order;
pub mod qualifier;
pub mod refusal;
pub mod universe;
pub mod variance;
pub mod vid;

pub use abi::ExternAbi;
pub use bound_var::BoundVar;
pub use closure_kind::ClosureKind;
pub use debruijn::{DebruijnIndex, INNERMOST};
pub use field::{FieldIdx, VariantIdx};
pub use idx::Idx;
pub use index::Index;
pub use index_vec::IndexVec;
pub use numeric::{FloatTy, IntTy, UintTy};
pub use qualifier::{Mutability, Safety};
pub use refusal::Refusal;
pub use universe::UniverseIndex;
pub use variance::Variance;
pub use vid::{ConstVid, FloatVid, IntVid, RegionVid, TyVid};

/// The greatest number that an index may have. No index has one of the 255 greater numbers of a `u32`.
pub const GREATEST_INDEX: u32 = 4_294_967_040;
