//! What is wrong with a program, as data.

ghost use Rattle.std.specs.Prelude.{IfOk};
ghost use Rattle.tt_kinds.specs.Kinds.{ty_shape};
ghost use Rattle.tt_interner.specs.Owned.{IsOwned};
ghost use Rattle.tt_interner.specs.Stored.{Extends};
ghost use Rattle.unify.specs.Bindings.{IsTable};

use crate::failure::Failure;
use crate::lookup::name_of;
use checker_syntax::program::{Function, Place, Program};
use tt_interner::Interner;
use tt_kinds::Ty;
use unify::{Bindings, Fault};

/// What is wrong with a program, and where.
#[derive(Debug, Drop)]
pub struct Mistake {
    pub place: Place,
    pub cause: Cause,
}

/// Why a program is wrong. The types are of the interner that the program was checked with, as far as they were known.
#[derive(Debug, Drop)]
pub enum Cause {
    /// A type was found in place of another one.
    Mismatch(Clash),
    /// The two types are equal only if a type is a part of itself.
    ContainsItself(Clash),
    /// The type of a value isn't known where it has to be. If there is a `let` of it, a type could be written there.
    UnknownType {
        ty: Ty,
        binding: Option<Place>,
    },
    /// Nothing determines the type arguments of this function.
    UnknownArguments(Ty),
    /// The type has no field of this name.
    NoField(Ty, String),
    /// The type has no item of this number.
    NoItem(Ty, usize),
    /// The function of this name takes `expected` arguments, and another number of them is given.
    WrongCount {
        function: String,
        expected: usize,
        given: usize,
    },
}

/// Two types that can't be made equal.
#[derive(Clone, Copy, Debug, PartialEq, Eq)]
pub struct Clash {
    pub types: Pair,
    /// Where the types differ: their innermost parts that can't be made equal, or the types themselves.
    pub parts: Pair,
    pub origin: Origin,
}

/// A type that is expected, and the one that was found in its place.
#[derive(Clone, Copy, Debug, PartialEq, Eq)]
pub struct Pair {
    pub expected: Ty,
    pub found: Ty,
}

/// Where the type that is expected of an expression comes from.
#[derive(Clone, Copy, Debug, PartialEq, Eq)]
pub enum Origin {
    /// The item's argument or field of this number, from 0.
    Operand { owner: Item, number: usize },
    /// The result of the function with the name of this number, which is declared at this place.
    Result { name: usize, declared: Place },
    /// The type that is written at the `let` at this place.
    Let(Place),
    /// The `*` before the expression.
    Dereference,
}

/// A function or a data type of the program, by its number.
#[derive(Clone, Copy, Debug, PartialEq, Eq)]
pub enum Item {
    Function(usize),
    Data(usize),
}

/// What has to be known: the type of an expression, or the type arguments of a function that is called.
#[derive(Clone, Copy)]
pub enum Wanted {
    Type,
    Arguments,
}

// Returns the type with its variables replaced.
#[tactic(auto, using(crate::proofs::ClientLaws::growth_laws))]
fn shown(cx: &mut Interner, bindings: &Bindings, ty: Ty) -> Result<Ty, Failure>
    requires table { IsTable cx.old bindings.now }
    requires ty { IsOwned ty_shape cx.old ty }
    ensures extends { Extends cx.old cx.new }
    ensures table { IsTable cx.new bindings.now }
{
    Ok(bindings.resolve(cx, ty)?)
}

// Returns the two types with their variables replaced.
#[tactic(auto, using(crate::proofs::ClientLaws::growth_laws))]
fn shown_pair(
    cx: &mut Interner,
    bindings: &Bindings,
    expected: Ty,
    found: Ty,
) -> Result<Pair, Failure>
    requires table { IsTable cx.old bindings.now }
    requires expected { IsOwned ty_shape cx.old expected }
    requires found { IsOwned ty_shape cx.old found }
    ensures extends { Extends cx.old cx.new }
    ensures table { IsTable cx.new bindings.now }
{
    let expected = shown(cx, bindings, expected)?;
    let found = shown(cx, bindings, found)?;
    Ok(Pair { expected, found })
}

// Returns the parts of these types with their variables replaced, or the types if the parts aren't the interner's.
#[tactic(auto, using(crate::proofs::ClientLaws::growth_laws))]
fn shown_parts(
    cx: &mut Interner,
    bindings: &Bindings,
    types: Pair,
    parts: Pair,
) -> Result<Pair, Failure>
    requires { IsTable cx.old bindings.now }
    ensures extends { Extends cx.old cx.new }
    ensures table { IsTable cx.new bindings.now }
{
    let (expected, found) = (parts.expected, parts.found);
    // A part of a type of this interner is one too.
    if !cx.owns_ty(expected) || !cx.owns_ty(found) {
        return Ok(types);
    }
    shown_pair(cx, bindings, expected, found)
}

/// Returns the cause that a type was found in place of another one, which differ in these parts.
#[tactic(auto, using(crate::proofs::ClientLaws::growth_laws))]
pub fn mismatch(
    cx: &mut Interner,
    bindings: &Bindings,
    expected: Ty,
    found: Ty,
    parts: Pair,
    origin: Origin,
    fault: Fault,
) -> Result<Cause, Failure>
    requires table { IsTable cx.old bindings.now }
    requires expected { IsOwned ty_shape cx.old expected }
    requires found { IsOwned ty_shape cx.old found }
    ensures extends { Extends cx.old cx.new }
    ensures table { IsTable cx.new bindings.now }
{
    let types = shown_pair(cx, bindings, expected, found)?;
    let parts = shown_parts(cx, bindings, types, parts)?;
    let clash = Clash {
        types,
        parts,
        origin,
    };
    if let Fault::Occurs(_, _) = fault {
        return Ok(Cause::ContainsItself(clash));
    }
    Ok(Cause::Mismatch(clash))
}

/// Returns the cause that a type isn't known, which could be written at this `let`, or that nothing determines the type
/// arguments in it.
#[tactic(auto, using(crate::proofs::ClientLaws::growth_laws))]
pub fn unknown_type(
    cx: &mut Interner,
    bindings: &Bindings,
    ty: Ty,
    wanted: Wanted,
    binding: Option<Place>,
) -> Result<Cause, Failure>
    requires table { IsTable cx.old bindings.now }
    requires ty { IsOwned ty_shape cx.old ty }
    ensures extends { Extends cx.old cx.new }
    ensures table { IsTable cx.new bindings.now }
{
    let known = shown(cx, bindings, ty)?;
    match wanted {
        Wanted::Type => Ok(Cause::UnknownType { ty: known, binding }),
        Wanted::Arguments => Ok(Cause::UnknownArguments(known)),
    }
}

/// Returns the cause that a type has no field whose name has this number.
#[tactic(auto, using(crate::proofs::ClientLaws::growth_laws))]
pub fn no_field(
    cx: &mut Interner,
    program: &Program,
    bindings: &Bindings,
    ty: Ty,
    name: usize,
) -> Result<Cause, Failure>
    requires table { IsTable cx.old bindings.now }
    requires ty { IsOwned ty_shape cx.old ty }
    ensures extends { Extends cx.old cx.new }
    ensures table { IsTable cx.new bindings.now }
{
    let name = String::from_str(cx.allocator(), name_of(program, name)?)?;
    let known = shown(cx, bindings, ty)?;
    Ok(Cause::NoField(known, name))
}

/// Returns the cause that a type has no item of this number.
#[tactic(auto, using(crate::proofs::ClientLaws::growth_laws))]
pub fn no_item(
    cx: &mut Interner,
    bindings: &Bindings,
    ty: Ty,
    item: usize,
) -> Result<Cause, Failure>
    requires table { IsTable cx.old bindings.now }
    requires ty { IsOwned ty_shape cx.old ty }
    ensures extends { Extends cx.old cx.new }
    ensures table { IsTable cx.new bindings.now }
{
    let known = shown(cx, bindings, ty)?;
    Ok(Cause::NoItem(known, item))
}

/// Returns the cause that a function takes another number of arguments than are given.
pub fn wrong_count(
    cx: &Interner,
    program: &Program,
    callee: &Function,
    given: usize,
) -> Result<Cause, Failure> {
    let function = String::from_str(cx.allocator(), name_of(program, callee.name)?)?;
    Ok(Cause::WrongCount {
        function,
        expected: callee.inputs.len(),
        given,
    })
}
