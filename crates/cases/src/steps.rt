//! Steps of cases.

use crate::routines::Routine;
use type_terms::{Call, Positions};

/// A list or another value that holds terms.
#[derive(Clone, Copy, PartialEq, Eq)]
pub enum Container {
    /// A vector.
    Vec,
    /// A boxed slice.
    BoxedSlice,
    /// A list by the indices of fields.
    IndexVec,
    /// A box of the first type.
    Box,
    /// A shared vector with one owner.
    Rc,
    /// A shared vector with two owners.
    SharedRc,
    /// The first type, as an option.
    Some,
    /// The first type, as a result.
    Ok,
    /// The first two types.
    Pair,
}

impl Container {
    /// Returns the container of this name.
    pub fn of(word: &str) -> Option<Container> {
        match word {
            "vec" => Some(Container::Vec),
            "boxed_slice" => Some(Container::BoxedSlice),
            "index_vec" => Some(Container::IndexVec),
            "box" => Some(Container::Box),
            "rc" => Some(Container::Rc),
            "shared_rc" => Some(Container::SharedRc),
            "some" => Some(Container::Some),
            "ok" => Some(Container::Ok),
            "pair" => Some(Container::Pair),
            _ => None,
        }
    }
}

/// A change of all terms in a container.
#[derive(Clone, Copy, PartialEq, Eq)]
pub enum Change {
    /// `shift_vars` by this number.
    Shift(u32),
    /// `instantiate` with the type at this position.
    Instantiate(u32),
    /// `fold_regions` with a closure that erases.
    EraseRegions,
    /// `replace_types_once` of the type at the first position by the one at the second.
    Replace(u32, u32),
}

/// What the library makes of the type at a position.
#[derive(Clone, Copy, PartialEq, Eq)]
pub enum Derivation {
    /// Its signature, as the type of the pointers to functions of this signature.
    Signature(u32),
    /// The list of its fields' types.
    Fields(u32),
    /// The type as the contents of a binder, without the binder, and with the type at the second position as the argument
    /// for the binder's variable.
    Opened(u32, u32),
    /// The alias with the type at the second position in place of its self type.
    WithSelf(u32, u32),
    /// The arguments of the trait that the alias is an item of.
    TraitArgs(u32),
    /// The other arguments of such an alias.
    OwnArgs(u32),
}

/// A step of a case. Each has an answer, which later steps may name by its number.
#[derive(Drop)]
pub enum Step {
    /// A call.
    Call(Call),
    /// A change of the types at these positions, in a container. The answer is the list of the types that are then in
    /// the container.
    Changed(Container, Change, Positions),
    /// What the library makes of a type.
    Derived(Derivation),
    /// Whether the data type that is declared at the position has these variants. It gets them if it isn't defined yet.
    Defined(u32, String),
    /// Whether what a routine checks holds.
    Holds(Routine),
}

impl Step {
    /// Returns whether the step declares, so that it has a new answer whenever it is taken.
    pub fn declares(&self) -> bool {
        matches!(self, Step::Call(Call::Declare(_)))
    }

    /// Returns whether the step, taken again, finds all that it names. Then it asks for no memory.
    pub fn is_found(&self) -> bool {
        match self {
            Step::Call(call) => match call {
                Call::Declare(_)
                | Call::Shift(..)
                | Call::Instantiate(..)
                | Call::EraseRegions(_) => false,
                _ => true,
            },
            Step::Changed(..) | Step::Derived(_) | Step::Defined(..) | Step::Holds(_) => false,
        }
    }
}
