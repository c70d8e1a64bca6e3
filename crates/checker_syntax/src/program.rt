//! Programs whose names are resolved.
//!
//! Items, written types and expressions are numbered from 0 in the order of the lists that hold them. A written type's
//! parts come before it in [`Program::types`], and an expression's operands before it in [`Body::expressions`].

use std::string::String;

/// Where something is in the source: its line and its column in characters, both from 1.
#[derive(Clone, Copy, Debug, PartialEq, Eq)]
pub struct Place {
    pub line: usize,
    pub column: usize,
}

/// A part of a list of numbers: from the item at `start` to the one before `end`.
#[derive(Clone, Copy, Debug, PartialEq, Eq)]
pub struct Span {
    pub start: usize,
    pub end: usize,
}

/// A type as it is written.
#[derive(Clone, Copy, Debug, PartialEq, Eq)]
pub enum WrittenType {
    /// `i32`
    Int,
    /// `bool`
    Bool,
    /// `char`
    Char,
    /// `str`
    Str,
    /// The type parameter of this number, of the item around the type, and the number of the parameter's name.
    Param(usize, usize),
    /// The data type of this number, and its type arguments: numbers of written types in [`Program::parts`].
    Data(usize, Span),
    /// A tuple of types: numbers of written types in [`Program::parts`]. `()` has none.
    Tuple(Span),
    /// A reference to the written type of this number. The region isn't written.
    Reference(usize),
}

/// A literal, whose value the checker doesn't need.
#[derive(Clone, Copy, Debug, PartialEq, Eq)]
pub enum Literal {
    Int,
    Bool,
    Char,
    Str,
}

/// An expression of a function's body.
#[derive(Clone, Copy, Debug, PartialEq, Eq)]
pub enum Expression {
    /// A literal.
    Literal(Literal),
    /// The function's argument of this number.
    Argument(usize),
    /// `let x: T = e;`: the number of `e`, and the number of the written type `T` if there is one. The type of the
    /// `let` is the type of `x`.
    Let(usize, Option<usize>),
    /// A use of the variable of the `let` of this number.
    Local(usize),
    /// `(a, b)`: numbers of expressions in [`Body::operands`]. `()` has none.
    Tuple(Span),
    /// `&e`
    Reference(usize),
    /// `*e`
    Dereference(usize),
    /// `f(a, b)`: the function's number, and its arguments' numbers in [`Body::operands`].
    Call(usize, Span),
    /// `S { x: a, y: b }`: the data type's number, and the numbers of the fields' values in [`Body::operands`], in the
    /// order in which the fields are declared.
    Data(usize, Span),
    /// `e.x`: the number of `e`, and the number of the field's name.
    Field(usize, usize),
    /// `e.0`: the number of `e`, and the item's number.
    Item(usize, usize),
}

/// A field of a data type: its name's number, and the number of its written type.
#[derive(Clone, Copy, Debug, PartialEq, Eq)]
pub struct Field {
    pub name: usize,
    pub ty: usize,
}

/// A data type: its name, the names of its type parameters, and its fields.
#[derive(Debug, Drop)]
pub struct DataType {
    pub name: usize,
    pub place: Place,
    pub params: Vec<usize>,
    pub fields: Vec<Field>,
}

/// The body of a function.
#[derive(Debug, Drop)]
pub struct Body {
    pub expressions: Vec<Expression>,
    /// Where each expression begins.
    pub places: Vec<Place>,
    pub operands: Vec<usize>,
    /// The expression whose value the function returns.
    pub result: usize,
}

/// A function: its name, the names of its type parameters, the written types of its arguments and of its result, and
/// its body. A function without a body is only declared.
#[derive(Debug, Drop)]
pub struct Function {
    pub name: usize,
    pub place: Place,
    pub params: Vec<usize>,
    pub inputs: Vec<usize>,
    pub output: usize,
    pub body: Option<Body>,
}

/// A program.
#[derive(Debug, Drop)]
pub struct Program {
    /// The names, each once.
    pub names: Vec<String>,
    pub types: Vec<WrittenType>,
    pub parts: Vec<usize>,
    pub data: Vec<DataType>,
    pub functions: Vec<Function>,
}
