//! Inference variables, each kind numbered from 0 in the order in which inference makes them.

ghost use Rattle.std.specs.Prelude.{Some, codes};
ghost use Rattle.tt_index.specs.Text.{region_vid_text, vid_text};

use crate::index::Index;
use std::fmt;

/// Marks the number of a region variable.
pub enum RegionVariable {}

/// Marks the number of a type variable.
pub enum TypeVariable {}

/// Marks the number of an integer variable.
pub enum IntegerVariable {}

/// Marks the number of a floating point variable.
pub enum FloatVariable {}

/// Marks the number of a constant variable.
pub enum ConstantVariable {}

/// A region variable.
///
/// The number is at most [`GREATEST_INDEX`](crate::GREATEST_INDEX).
pub type RegionVid = Index<RegionVariable>;

/// A type variable.
///
/// The number is at most [`GREATEST_INDEX`](crate::GREATEST_INDEX).
pub type TyVid = Index<TypeVariable>;

/// A variable for the type of an integer literal: one of the integer types.
///
/// The number is at most [`GREATEST_INDEX`](crate::GREATEST_INDEX).
pub type IntVid = Index<IntegerVariable>;

/// A variable for the type of a floating point literal: one of the floating point types.
///
/// The number is at most [`GREATEST_INDEX`](crate::GREATEST_INDEX).
pub type FloatVid = Index<FloatVariable>;

/// A variable for a constant.
///
/// The number is at most [`GREATEST_INDEX`](crate::GREATEST_INDEX).
pub type ConstVid = Index<ConstantVariable>;

impl fmt::Display for RegionVid {
    ghost output = { λ number. Some (region_vid_text number) };

    fn fmt<W: fmt::Write>(&self, f: &mut fmt::Formatter<W>) -> fmt::Result {
        let number = self.as_u32();
        write!(f, "'?{number}")
    }
}

impl fmt::Display for TyVid {
    ghost output = { λ number. Some (vid_text (codes "t") number) };

    fn fmt<W: fmt::Write>(&self, f: &mut fmt::Formatter<W>) -> fmt::Result {
        let number = self.as_u32();
        write!(f, "?{number}t")
    }
}

impl fmt::Display for IntVid {
    ghost output = { λ number. Some (vid_text (codes "i") number) };

    fn fmt<W: fmt::Write>(&self, f: &mut fmt::Formatter<W>) -> fmt::Result {
        let number = self.as_u32();
        write!(f, "?{number}i")
    }
}

impl fmt::Display for FloatVid {
    ghost output = { λ number. Some (vid_text (codes "f") number) };

    fn fmt<W: fmt::Write>(&self, f: &mut fmt::Formatter<W>) -> fmt::Result {
        let number = self.as_u32();
        write!(f, "?{number}f")
    }
}

impl fmt::Display for ConstVid {
    ghost output = { λ number. Some (vid_text (codes "c") number) };

    fn fmt<W: fmt::Write>(&self, f: &mut fmt::Formatter<W>) -> fmt::Result {
        let number = self.as_u32();
        write!(f, "?{number}c")
    }
}
