//! Types.

ghost use Rattle.std.specs.Prelude.{◌≡◌, ◌↔◌, IsTrue};
ghost use Rattle.tt_kinds.specs.Rigid.{IsRigid, IsKnownInt, IsKnownFloat};
ghost use Rattle.tt_kinds.specs.declared.ty_kind.IntVarValue.TheVariants as int;
ghost use Rattle.tt_kinds.specs.declared.ty_kind.FloatVarValue.TheVariants as float;

use crate::alias::AliasTy;
use crate::binder::Binder;
use crate::bound::{BoundTy, BoundVarIndexKind};
use crate::error_guaranteed::ErrorGuaranteed;
use crate::fn_sig::{FnHeader, FnSigTys};
use crate::handle::{
    BoundExistentialPredicates, BoundVarKinds, Const, GenericArgs, Pat, Symbol, Ty, Tys,
};
use crate::id::{AdtId, ClosureId, CoroutineClosureId, CoroutineId, ForeignId, FunctionId};
use crate::placeholder::PlaceholderType;
use crate::region_kind::Region;
use std::ops::Deref;
use tt_index::{FloatTy, FloatVid, IntTy, IntVid, Mutability, TyVid, UintTy};

/// A type parameter of an item, which is replaced when the item is instantiated.
#[derive(Clone, Copy, Debug, PartialEq, Eq, Hash)]
pub struct ParamTy {
    /// Its place among the item's generic parameters.
    pub index: u32,
    /// Its name.
    pub name: Symbol,
}

/// A type inference variable.
#[derive(Clone, Copy, Debug, PartialEq, Eq, PartialOrd, Ord, Hash)]
pub enum InferTy {
    /// A variable for any type.
    TyVar(TyVid),
    /// A variable for an integer type.
    IntVar(IntVid),
    /// A variable for a floating point type.
    FloatVar(FloatVid),
    /// A number that replaces a `TyVar`, by which caches tell types apart.
    FreshTy(u32),
    /// A number that replaces an `IntVar`.
    FreshIntTy(u32),
    /// A number that replaces a `FloatVar`.
    FreshFloatTy(u32),
}

/// A type with a mutability, such as a pointer's target.
#[derive(Clone, Copy, Debug, PartialEq, Eq, Hash)]
pub struct TypeAndMut {
    /// The type.
    pub ty: Ty,
    /// Whether a value of the type may be written.
    pub mutbl: Mutability,
}

/// A type under a binder, such as `unsafe<'a> &'a u32`.
#[derive(Clone, Copy, Debug, PartialEq, Eq, Hash)]
pub struct UnsafeBinderInner(Binder<Ty>);

impl UnsafeBinderInner {
    /// Returns the type inside, without the binder.
    pub fn skip_binder(self) -> Ty
        ensures { result ≡ self.0.value }
    {
        self.0.skip_binder()
    }

    /// Returns the variables that the binder binds.
    pub fn bound_vars(self) -> BoundVarKinds
        ensures { result ≡ self.0.bound_vars }
    {
        self.0.bound_vars()
    }

    /// Returns another type under a binder of the same variables.
    pub fn with_ty(self, ty: Ty) -> UnsafeBinderInner
        ensures value { result.0.value ≡ ty }
        ensures vars { result.0.bound_vars ≡ self.0.bound_vars }
    {
        UnsafeBinderInner(Binder::bind_with_vars(ty, self.0.bound_vars()))
    }
}

impl Deref for UnsafeBinderInner {
    type Target = Binder<Ty>;

    ghost deref_gives = { λ inner binder. binder ≡ inner.0 };

    fn deref(&self) -> &Binder<Ty>
        ensures { result.now ≡ self.now.0 }
    {
        &self.0
    }
}

impl From<Binder<Ty>> for UnsafeBinderInner {
    ghost from_gives = { λ binder inner. inner.0 ≡ binder };

    fn from(binder: Binder<Ty>) -> UnsafeBinderInner {
        UnsafeBinderInner(binder)
    }
}

impl From<UnsafeBinderInner> for Binder<Ty> {
    ghost from_gives = { λ inner binder. binder ≡ inner.0 };

    fn from(inner: UnsafeBinderInner) -> Binder<Ty> {
        inner.0
    }
}

/// The kind of a type.
#[derive(Clone, Copy, Debug, PartialEq, Eq, Hash)]
pub enum TyKind {
    /// `bool`.
    Bool,
    /// `char`.
    Char,
    /// A signed integer.
    Int(IntTy),
    /// An unsigned integer.
    Uint(UintTy),
    /// A floating point number.
    Float(FloatTy),
    /// A struct, an enum or a union.
    Adt(AdtId, GenericArgs),
    /// The type of a function item, which has one value.
    FnDef(FunctionId, GenericArgs),
    /// A foreign type, which is declared elsewhere.
    Foreign(ForeignId),
    /// `str`.
    Str,
    /// `[T; N]`.
    Array(Ty, Const),
    /// A type, restricted to the values that a pattern allows.
    Pat(Ty, Pat),
    /// `[T]`.
    Slice(Ty),
    /// `*const T` or `*mut T`.
    RawPtr(Ty, Mutability),
    /// `&'r T` or `&'r mut T`.
    Ref(Region, Ty, Mutability),
    /// A function pointer: the types of its inputs and of its output under a binder.
    FnPtr(Binder<FnSigTys>, FnHeader),
    /// A type under a binder whose regions the programmer is responsible for.
    UnsafeBinder(UnsafeBinderInner),
    /// A trait object: the predicates on the type that it hides, and the region that this type outlives.
    Dynamic(BoundExistentialPredicates, Region),
    /// The type of a closure.
    Closure(ClosureId, GenericArgs),
    /// The type of a closure that returns a coroutine.
    CoroutineClosure(CoroutineClosureId, GenericArgs),
    /// The type of a coroutine.
    Coroutine(CoroutineId, GenericArgs),
    /// The witness of the types that a coroutine keeps while it is suspended.
    CoroutineWitness(CoroutineId, GenericArgs),
    /// `!`, the type without values.
    Never,
    /// `(A, B, ..)`.
    Tuple(Tys),
    /// An alias.
    Alias(AliasTy),
    /// A type parameter of an item.
    Param(ParamTy),
    /// A type that a binder binds.
    Bound(BoundVarIndexKind, BoundTy),
    /// A placeholder: a bound type whose binder has been entered.
    Placeholder(PlaceholderType),
    /// A type inference variable.
    Infer(InferTy),
    /// A type for which an error was reported.
    Error(ErrorGuaranteed),
}

impl TyKind {
    /// Returns whether the type's form is known: whether it is no alias, no parameter, no placeholder, no error, and no
    /// bound or inference variable.
    pub fn is_known_rigid(&self) -> bool
        ensures { IsTrue result ↔ IsRigid self.now }
    {
        match self {
            TyKind::Alias(_)
            | TyKind::Param(_)
            | TyKind::Bound(_, _)
            | TyKind::Placeholder(_)
            | TyKind::Infer(_)
            | TyKind::Error(_) => false,
            _ => true,
        }
    }
}

/// The value of an `IntVar`, as far as it is known.
#[derive(Clone, Copy, Debug, PartialEq, Eq, Hash)]
pub enum IntVarValue {
    /// The value is unknown.
    Unknown,
    /// This signed integer type.
    IntType(IntTy),
    /// This unsigned integer type.
    UintType(UintTy),
}

impl IntVarValue {
    /// Returns whether the variable's value is known.
    pub fn is_known(self) -> bool
        ensures { IsTrue result ↔ IsKnownInt self }
    {
        match self {
            IntVarValue::Unknown => false,
            IntVarValue::IntType(_) | IntVarValue::UintType(_) => true,
        }
    }

    /// Returns whether the variable's value is unknown.
    pub fn is_unknown(self) -> bool
        ensures { IsTrue result ↔ (self ≡ int.Unknown) }
    {
        matches!(self, IntVarValue::Unknown)
    }
}

/// The value of a `FloatVar`, as far as it is known.
#[derive(Clone, Copy, Debug, PartialEq, Eq, Hash)]
pub enum FloatVarValue {
    /// The value is unknown.
    Unknown,
    /// This floating point type.
    Known(FloatTy),
}

impl FloatVarValue {
    /// Returns whether the variable's value is known.
    pub fn is_known(self) -> bool
        ensures { IsTrue result ↔ IsKnownFloat self }
    {
        match self {
            FloatVarValue::Unknown => false,
            FloatVarValue::Known(_) => true,
        }
    }

    /// Returns whether the variable's value is unknown.
    pub fn is_unknown(self) -> bool
        ensures { IsTrue result ↔ (self ≡ float.Unknown) }
    {
        matches!(self, FloatVarValue::Unknown)
    }
}
