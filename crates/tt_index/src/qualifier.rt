//! Qualifiers of references, pointers and functions.

/// Whether the target of a reference or a pointer can be written through it.
#[derive(Clone, Copy, Debug, PartialEq, Eq, PartialOrd, Ord, Hash)]
pub enum Mutability {
    /// Shared: `&T` and `*const T`.
    Not,
    /// Mutable: `&mut T` and `*mut T`.
    Mut,
}

/// Whether calling a function needs an `unsafe` block.
#[derive(Clone, Copy, Debug, PartialEq, Eq, PartialOrd, Ord, Hash)]
pub enum Safety {
    /// Any code can call it.
    Safe,
    /// The caller promises that the function's conditions hold.
    Unsafe,
}
