//! The styles of a term's children: what is written before, between and after them.

ghost use Rattle.std.specs.Prelude.{◌≡◌};
ghost use Rattle.tt_print.specs.Text.{
  after_variables,
  before_variable,
  closing_words,
  list_style,
  opening_words,
  separator,
  words_before,
};

use tt_kinds::{BoundConstness, FnSigKind};

/// The style in which the children of a term, or the items of a list, are written.
#[derive(Clone, Copy)]
pub(crate) enum Style {
    /// One after another.
    Joined,
    /// `&'r T`.
    Reference,
    /// `&'r mut T`.
    MutReference,
    /// `[T]`, `[T; N]`.
    Square,
    /// A type and its pattern: `T is PATTERN`.
    Restricted,
    /// A tuple, around the list of its types.
    Tuple,
    /// A function of this kind, around the list of its types.
    Signature(FnSigKind),
    /// A trait object: the list of its predicates, and its region.
    Dynamic,
    /// A name, its arguments and perhaps its value: `NAME<A> = T`.
    Generic,
    /// A name, its arguments and perhaps its value, in braces.
    Braced,
    /// A branch of values, after its type: `T(A, B)`.
    Branch,
    /// `A..=B`.
    Range,
    /// A pattern of alternatives, around their list.
    OneOf,
    /// `NAME(A, B)`.
    Record,
    /// `NAME(A, Equate, B)`.
    Equated,
    /// `NAME(A, Subtype, B)`.
    Subtyped,
    /// A bound by the trait of this number, around the list of the trait's arguments. A bound on the effects of the
    /// trait's items also has the constants that they have to be usable in.
    Bound(Option<BoundConstness>, u32),
    /// `A: 'r`.
    Outlives,
    /// A name, its arguments and their value: `NAME<A> == T`.
    Equality,
    /// A list by itself: `[A, B]`.
    Listed,
    /// The list of generic arguments: `<A, B>`.
    Arguments,
    /// The list of a bound's arguments, of which the first is the self type: `A: NAME<B, C>`.
    SelfFirst(Option<BoundConstness>, u32),
    /// The list of a tuple's types: `(A, B)`.
    Elements,
    /// The list of a signature's types: `(A, B) -> C`.
    Inputs,
    /// The list of a variadic signature's types: `(A, B, ...) -> C`.
    VariadicInputs,
    /// The list of a trait object's predicates: `A + B + `.
    Bounds,
    /// The list of patterns: `A | B`.
    Alternatives,
    /// The list of a branch's values: `(A, B)`.
    Values,
}

/// A place in the text of a term's children.
#[derive(Clone, Copy)]
pub(crate) enum Place {
    /// In front of a child, after this number of children. The child may be the last.
    Before { count: usize, last: bool },
    /// After the last child, with the number of children.
    After(usize),
}

impl Style {
    /// Returns the style of a list in a term of this style.
    pub(crate) fn of_list(self) -> Style
        ensures { result ≡ list_style self }
    {
        match self {
            Style::Generic | Style::Braced | Style::Record | Style::Equality => Style::Arguments,
            Style::Bound(constness, number) => Style::SelfFirst(constness, number),
            Style::Tuple => Style::Elements,
            Style::Signature(kind) => {
                if kind.c_variadic() {
                    Style::VariadicInputs
                } else {
                    Style::Inputs
                }
            }
            Style::Dynamic => Style::Bounds,
            Style::OneOf => Style::Alternatives,
            Style::Branch => Style::Values,
            _ => Style::Listed,
        }
    }

    // Returns the text in front of a first child.
    fn opening(self, last: bool) -> &'static str
        ensures { result.now ≡ opening_words self last }
    {
        match (self, last) {
            (Style::Listed, _) => "[",
            (Style::Arguments, _) => "<",
            (Style::Elements | Style::Values, _) => "(",
            (Style::Inputs, true) => "() -> ",
            (Style::VariadicInputs, true) => "(...) -> ",
            (Style::Inputs | Style::VariadicInputs, false) => "(",
            _ => "",
        }
    }

    // Returns the words in front of a later child, after a name if one comes here.
    fn separator(self, last: bool) -> &'static str
        ensures { result.now ≡ separator self last }
    {
        match (self, last) {
            (Style::Reference, _) => " ",
            (Style::MutReference, _) => " mut ",
            (Style::Square, _) => "; ",
            (Style::Restricted, _) => " is ",
            (Style::Generic, _) => " = ",
            (Style::Equality, _) => " == ",
            (Style::Outlives, _) => ": ",
            (Style::Range, _) => "..=",
            (Style::Equated, _) => ", Equate, ",
            (Style::Subtyped, _) => ", Subtype, ",
            (
                Style::Record
                | Style::Listed
                | Style::Arguments
                | Style::SelfFirst(_, _)
                | Style::Elements
                | Style::Values,
                _,
            ) => ", ",
            (Style::Inputs, true) => ") -> ",
            (Style::VariadicInputs, true) => ", ...) -> ",
            (Style::Inputs | Style::VariadicInputs, false) => ", ",
            (Style::Bounds, _) => " + ",
            (Style::Alternatives, _) => " | ",
            _ => "",
        }
    }

    /// Returns the words in front of the child after `count` others, and after the name of a trait if it comes here.
    pub(crate) fn before_child(self, count: usize, last: bool) -> &'static str
        ensures { result.now ≡ words_before self count last }
    {
        match (self, count) {
            (Style::SelfFirst(_, _), 1) => "<",
            (_, 0) => self.opening(last),
            _ => self.separator(last),
        }
    }

    /// Returns the words after `count` children, and after the name of a trait if it comes here.
    pub(crate) fn closing(self, count: usize) -> &'static str
        ensures { result.now ≡ closing_words self count }
    {
        match (self, count) {
            (Style::Square, _) => "]",
            (Style::Braced, _) => "}",
            (
                Style::Restricted | Style::OneOf | Style::Record | Style::Equated | Style::Subtyped,
                _,
            ) => ")",
            (Style::Listed, 0) => "[]",
            (Style::Listed, _) => "]",
            (Style::Arguments, 0) => "",
            (Style::SelfFirst(_, _), 0 | 1) => "",
            (Style::Arguments | Style::SelfFirst(_, _), _) => ">",
            (Style::Elements | Style::Values, 0) => "()",
            (Style::Elements, 1) => ",)",
            (Style::Elements | Style::Values, _) => ")",
            (Style::Bounds, 0) => "",
            (Style::Bounds, _) => " + ",
            _ => "",
        }
    }
}

/// Returns the text in front of the variable at this place in a binder's list.
pub(crate) fn before_variable(place: usize) -> &'static str
    ensures { result.now ≡ before_variable place }
{
    match place {
        0 => "for<",
        _ => ", ",
    }
}

/// Returns the text after `count` variables of a binder.
pub(crate) fn after_variables(count: usize) -> &'static str
    ensures { result.now ≡ after_variables count }
{
    match count {
        0 => "",
        _ => "> ",
    }
}
