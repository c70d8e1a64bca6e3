//! Helpers of the crates of tests: they test the conditions of calls when they run, so a test has none to prove.
#![tactic(auto)]

pub mod checks;
pub mod flags;
pub mod kinds;
pub mod terms;
pub mod visitors;

pub use checks::{answer_anew, answer_within, instance, is_instance, is_shifted, shifted};
pub use flags::{Flagged, info};
pub use kinds::{
    clause, clauses, constant, consts, existential, pattern, predicate, two_existentials,
    two_patterns,
};
pub use terms::{
    NOT_OWNED, args, args_from_iter, binder_index, bound_region, bound_ty, one_region,
    param_region, param_ty, pointer, ref_ty, region_variable, tuple, ty, tys, tys_from_iter,
    u32_ty,
};
pub use visitors::occurs;
