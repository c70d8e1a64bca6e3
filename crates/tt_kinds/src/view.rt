//! Views: parts of stored lists, without a row of their own.

ghost use Rattle.std.specs.Prelude.{◌≡◌};

use crate::handle::{GenericArgs, Tys};

/// The inputs of a signature: its list of types without the last, which is the output.
///
/// Equal views hold equal types. Views that hold equal types may lie in different lists, and then they differ.
#[derive(Clone, Copy, Debug, PartialEq, Eq, Hash)]
pub struct FnInputTys {
    inputs_and_output: Tys,
}

impl FnInputTys {
    /// Returns the view of all types of this list but the last. Reading the view requires that the list isn't empty.
    pub fn from_parts(inputs_and_output: Tys) -> FnInputTys
        ensures { result ≡ record { inputs_and_output = inputs_and_output } }
    {
        FnInputTys { inputs_and_output }
    }

    /// Returns the list that the view lies in, with the output as its last type.
    pub fn inputs_and_output(self) -> Tys
        ensures { result ≡ self.inputs_and_output }
    {
        self.inputs_and_output
    }
}

/// A slice of a stored list of generic arguments.
#[derive(Clone, Copy, Debug, PartialEq, Eq, Hash)]
pub struct GenericArgsSlice {
    args: GenericArgs,
    start: u32,
    len: u32,
}

impl GenericArgsSlice {
    /// Returns the view of `len` arguments of the list, from the place `start` on, counted from 0. Reading the view
    /// requires that the list has all of these places.
    pub fn from_parts(args: GenericArgs, start: u32, len: u32) -> GenericArgsSlice
        ensures { result ≡ record { args = args; start = start; len = len } }
    {
        GenericArgsSlice { args, start, len }
    }

    /// Returns the list that the view lies in.
    pub fn args(self) -> GenericArgs
        ensures { result ≡ self.args }
    {
        self.args
    }

    /// Returns the place of its first argument in the list, counted from 0.
    pub fn start(self) -> u32
        ensures { result ≡ self.start }
    {
        self.start
    }

    /// Returns the number of places of the view. The list may have fewer arguments from its start on.
    pub fn count(self) -> u32
        ensures { result ≡ self.len }
    {
        self.len
    }
}
