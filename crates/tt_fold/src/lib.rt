//! Folds, which take a term apart, change it and rebuild it.
//!
//! For example, a folder that replaces `T` by `u32` folds the type `&'a [T]` in these steps:
//!
//! 1. `fold_ty` at the reference returns `Descend`.
//! 2. `fold_region` at `'a` returns `'a`.
//! 3. `fold_ty` at the slice returns `Descend`.
//! 4. `fold_ty` at `T` returns `Replace(u32)`.
//! 5. The walk stores `[u32]`, and calls `after_ty` with it.
//! 6. The walk stores `&'a [u32]`, and calls `after_ty` with it.
//!
//! If the contents of a term stay the same, the walk finds the stored term again, so `after_ty` gets the term itself.
#![tactic(auto)]

mod assumptions;
mod bare;
mod boxes;
mod calls;
mod clones;
mod clones_containers;
mod containers;
pub mod core_folder;
mod data;
mod equality;
mod fields;
pub mod foldable;
pub mod folder;
mod handles;
mod items;
pub mod memory;
mod rebuild;
mod records;
pub mod region_folder;
pub mod region_replacer;
pub mod replacer;
mod shared;
pub mod shift;
mod stack;
mod step_of_handle;
pub mod type_replacer;
mod types_once;
mod walk;

pub use data::FoldsToItself;
pub use equality::equal_steps_are_same;
pub use foldable::{TypeFoldable, TypeSuperFoldable};
pub use folder::{FallibleTypeFolder, Step, TypeFolder};
pub use memory::{Memory, look_up};
pub use region_folder::{RegionFolder, fold_regions, fold_regions_with, region_folders_place};
pub use region_replacer::{RegionReplacer, replace_regions};
pub use replacer::{Replacer, replace_terms};
pub use shared::ClonesTree;
pub use shift::{shift_region, shift_vars};
pub use type_replacer::{TypeReplacer, replace_types};
pub use types_once::replace_types_once;
