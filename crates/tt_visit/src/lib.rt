//! Visitors, which walk a term without changing it, and the queries of terms that use them.
//!
//! A visit of the type `&'a [T]` calls `visit_ty` at the reference. If this call returns `Skip`, the visit is at its
//! end. If it returns `Descend`, the visit calls `visit_region` at `'a` and `visit_ty` at the slice, where `Descend`
//! leads to `visit_ty` at `T`. The first call that returns `Break` ends the visit with its value. After it only
//! `leave_binder` is called, once for each binder that the visit is in.
#![tactic(auto)]

mod bare;
pub mod binder;
mod containers;
mod data;
mod equality;
mod fields;
mod frame;
pub mod handles;
mod has_error;
mod has_escaping_vars;
mod has_type_flags;
mod meets_regions;
pub mod queries;
mod records;
pub mod stored;
pub mod type_inspector;
mod variables;
mod views;
pub mod visitable;
pub mod visitor;

pub use binder::{BinderExt, EarlyBinderExt};
pub use equality::equal_outcomes_are_same;
pub use handles::{HasHook, IsWalked};
pub use has_error::HasErrorVisitor;
pub use has_escaping_vars::{FoundEscapingVars, HasEscapingVarsVisitor};
pub use has_type_flags::{FoundFlags, HasTypeFlagsVisitor};
pub use meets_regions::{MeetsRegionsVisitor, MetRegion};
pub use queries::TypeVisitableExt;
pub use tt_interner::Flags;
pub use type_inspector::{TypeInspector, inspect_types};
pub use views::InternedView;
pub use visitable::{TypeSuperVisitable, TypeVisitable};
pub use visitor::{Next, TypeVisitor};
