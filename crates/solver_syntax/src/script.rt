//! Texts whose names are resolved.
//!
//! Data types, traits and written types are numbered from 0 in the order of the lists that hold them. A written type's
//! parts come before it in [`Script::types`].

use checker_syntax::program::{Place, Span};
use std::string::String;

/// A type as it is written.
#[derive(Clone, Copy, Debug, PartialEq, Eq)]
pub enum WrittenType {
    /// `i32`
    Int,
    /// `u32`
    Unsigned,
    /// `bool`
    Bool,
    /// `char`
    Char,
    /// `str`
    Str,
    /// The type parameter of this number, of the item around the type, and the number of the parameter's name.
    Param(usize, usize),
    /// `?x`: the inference variable of this number, of the goal around the type.
    Variable(usize),
    /// The data type of this number, and its type arguments: numbers of written types in [`Script::parts`].
    Data(usize, Span),
    /// A tuple of types: numbers of written types in [`Script::parts`]. `()` has none.
    Tuple(Span),
    /// A slice of the written type of this number.
    Slice(usize),
    /// A reference to the written type of this number. The region isn't written.
    Reference(usize),
}

/// A data type or a trait: the number of its name, and how many type parameters it has. A trait's own type isn't counted.
#[derive(Clone, Copy, Debug, PartialEq, Eq)]
pub struct Declaration {
    pub name: usize,
    pub params: usize,
}

/// `Type: Trait<..>`: where it begins, the trait's number, and the type and the trait's type arguments: numbers of
/// written types in [`Script::parts`].
#[derive(Clone, Copy, Debug, PartialEq, Eq)]
pub struct Bound {
    pub place: Place,
    pub number: usize,
    pub args: Span,
}

/// `impl<..> Trait<..> for Type where ..;`
#[derive(Debug, Drop)]
pub struct Implementation {
    pub params: usize,
    pub head: Bound,
    pub conditions: Vec<Bound>,
}

/// A goal, and the numbers of the names of its inference variables.
#[derive(Debug, Drop)]
pub struct Goal {
    pub bound: Bound,
    pub variables: Vec<usize>,
}

/// `goals<..> where .. { .. }`
#[derive(Debug, Drop)]
pub struct Group {
    pub assumptions: Vec<Bound>,
    pub goals: Vec<Goal>,
}

/// A text.
#[derive(Debug, Drop)]
pub struct Script {
    /// The names, each once.
    pub names: Vec<String>,
    pub types: Vec<WrittenType>,
    pub parts: Vec<usize>,
    pub data: Vec<Declaration>,
    pub traits: Vec<Declaration>,
    pub implementations: Vec<Implementation>,
    pub groups: Vec<Group>,
}
