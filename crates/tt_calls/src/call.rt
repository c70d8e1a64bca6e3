//! Calls of the library, as values.

use smallvec::SmallVec;
use tt_index::{
    BoundVar, DebruijnIndex, FloatTy, IntTy, Mutability, RegionVid, UintTy, UniverseIndex,
};
use tt_kinds::{
    AliasRelationDirection, BoundConst, BoundConstness, BoundVarIndexKind, ErrorGuaranteed,
    FnHeader, FnSigKind, InferConst, InferTy, PlaceholderConst, ScalarInt,
};

/// The positions of a call's parts, in order. Up to four positions are kept without an allocation.
pub type Positions = SmallVec<u32, 4>;

/// The name of a bound region in a call: a [`BoundRegionKind`](tt_kinds::BoundRegionKind) with a text in place of a
/// symbol, and the position of the declaring call in place of an id.
#[derive(Debug, Drop)]
pub enum RegionNameCall {
    /// The region has no name.
    Anon,
    /// The region has no declaration, and is printed by this name.
    NamedForPrinting(String),
    /// The call at this position declared the region. The declaration may be of any sort.
    Named(u32),
    /// The region of a closure's own environment.
    ClosureEnv,
}

/// The name of a bound type in a call: a [`BoundTyKind`](tt_kinds::BoundTyKind) with the position of the declaring call
/// in place of an id.
#[derive(Clone, Copy, Debug)]
pub enum BoundTyKindCall {
    /// The type has no name.
    Anon,
    /// The call at this position declared the type. The declaration may be of any sort.
    Param(u32),
}

/// A variable of a binder in a call: a [`BoundVariableKind`](tt_kinds::BoundVariableKind) with a text in place of a
/// symbol, and the position of the declaring call in place of an id.
#[derive(Debug, Drop)]
pub enum VariableCall {
    /// The variable is a type.
    Ty(BoundTyKindCall),
    /// The variable is a region.
    Region(RegionNameCall),
    /// The variable is a constant.
    Const,
}

/// A region in a call: a [`RegionKind`](tt_kinds::RegionKind) with a text in place of a symbol, and the position of the
/// declaring call in place of an id.
#[derive(Debug, Drop)]
pub enum RegionCall {
    /// A region parameter of an item.
    ReEarlyParam {
        /// Its place among the item's generic parameters.
        index: u32,
        /// Its name.
        name: String,
    },
    /// A region that a binder binds: its binder, its place in the binder's list, and its name. A call with the binder
    /// index [`GREATEST_INDEX`](tt_index::GREATEST_INDEX) is refused.
    ReBound(BoundVarIndexKind, BoundVar, RegionNameCall),
    /// A region parameter of an item, seen from inside the item: the item, whose declaration may be of any sort, and
    /// the region's name.
    ReLateParam(u32, RegionNameCall),
    /// `'static`.
    ReStatic,
    /// A region inference variable.
    ReVar(RegionVid),
    /// A placeholder, a bound region whose binder has been entered: the universe in which it can be named, its place in
    /// the binder's list, and its name.
    RePlaceholder(UniverseIndex, BoundVar, RegionNameCall),
    /// An erased region.
    ReErased,
    /// A region for which an error was reported.
    ReError(ErrorGuaranteed),
}

/// The kind of an alias: an [`AliasTyKind`](tt_kinds::AliasTyKind) with the position of the declaring call in place of
/// an id.
#[derive(Clone, Copy, Debug)]
pub enum AliasCall {
    /// An associated type of a trait, which an implementation gives.
    Projection(u32),
    /// An associated type of an inherent implementation.
    Inherent(u32),
    /// An opaque type.
    Opaque(u32),
    /// A type alias whose bounds are checked, and which can always be normalized away.
    Free(u32),
}

/// The item of a type with generic arguments, by the position of the declaring call.
#[derive(Clone, Copy, Debug)]
pub enum ItemCall {
    /// A struct, an enum or a union.
    Adt(u32),
    /// A function.
    FnDef(u32),
    /// A closure.
    Closure(u32),
    /// A closure that returns a coroutine.
    CoroutineClosure(u32),
    /// A coroutine.
    Coroutine(u32),
    /// The witness of the types that a coroutine keeps while it is suspended.
    CoroutineWitness(u32),
    /// An alias.
    Alias(AliasCall),
}

/// A type to be built: a [`TyKind`](tt_kinds::TyKind) with a text in place of a symbol and, in place of a handle or an
/// id, the position, counted from 1, of the call that answered it.
#[derive(Debug, Drop)]
pub enum TyCall {
    /// `bool`.
    Bool,
    /// `char`.
    Char,
    /// A signed integer.
    Int(IntTy),
    /// An unsigned integer.
    Uint(UintTy),
    /// A floating point number.
    Float(FloatTy),
    /// A foreign type, which is declared elsewhere.
    Foreign(u32),
    /// `str`.
    Str,
    /// `!`, the type without values.
    Never,
    /// A type parameter of an item.
    Param {
        /// Its place among the item's generic parameters.
        index: u32,
        /// Its name.
        name: String,
    },
    /// A type that a binder binds: its binder, its place in the binder's list, and its name. A call with the binder
    /// index [`GREATEST_INDEX`](tt_index::GREATEST_INDEX) is refused.
    Bound(BoundVarIndexKind, BoundVar, BoundTyKindCall),
    /// A placeholder, a bound type whose binder has been entered: the universe in which it can be named, its place in
    /// the binder's list, and its name.
    Placeholder(UniverseIndex, BoundVar, BoundTyKindCall),
    /// A type inference variable.
    Infer(InferTy),
    /// A type for which an error was reported.
    Error(ErrorGuaranteed),
    /// A reference: its region, its target, and whether the target is mutable.
    Ref(RegionCall, u32, Mutability),
    /// A raw pointer: its target, and whether the target is mutable.
    RawPtr(u32, Mutability),
    /// A slice of this type.
    Slice(u32),
    /// An array of this type with this length.
    Array(u32, u32),
    /// A tuple of these types.
    Tuple(Positions),
    /// A function pointer.
    FnPtr {
        /// The variables of its binder.
        vars: Vec<VariableCall>,
        /// The types of the inputs in order, then the output's.
        inputs_and_output: Positions,
        /// The parts of its signature other than the types.
        header: FnHeader,
    },
    /// The type of an item with its generic arguments.
    Item(ItemCall, Vec<ArgCall>),
    /// A trait object: the predicates on the type that the object hides, and the region that this type outlives.
    Dynamic(Vec<ExistentialCall>, RegionCall),
    /// A type, restricted to the values that a pattern allows.
    Pat(u32, u32),
    /// A type under a binder whose regions the programmer is responsible for.
    UnsafeBinder {
        /// The variables of the binder.
        vars: Vec<VariableCall>,
        /// The type under it.
        ty: u32,
    },
}

/// The kind of a value of the type level: a [`ValTreeKind`](tt_kinds::ValTreeKind) with positions in place of handles.
#[derive(Debug, Drop)]
pub enum ValTreeCall {
    /// A leaf: the bits of a scalar.
    Leaf(ScalarInt),
    /// A branch: the values of its fields or items, in order.
    Branch(Positions),
}

/// A constant to be built: a [`ConstKind`](tt_kinds::ConstKind) with a text in place of a symbol, and positions in
/// place of handles and of the id of an unevaluated constant.
#[derive(Debug, Drop)]
pub enum ConstCall {
    /// A constant parameter of an item.
    Param {
        /// Its place among the item's generic parameters.
        index: u32,
        /// Its name.
        name: String,
    },
    /// A constant inference variable.
    Infer(InferConst),
    /// A constant that a binder binds. A call with the binder index [`GREATEST_INDEX`](tt_index::GREATEST_INDEX) is
    /// refused.
    Bound(BoundVarIndexKind, BoundConst),
    /// A placeholder: a bound constant whose binder has been entered.
    Placeholder(PlaceholderConst),
    /// A constant whose value isn't computed yet: the declaration that computes it, and its generic arguments.
    Unevaluated(u32, Vec<ArgCall>),
    /// A value, with its type first.
    Value(u32, ValTreeCall),
    /// A constant for which an error was reported.
    Error(ErrorGuaranteed),
    /// An expression over constants: the front end's number for the expression, and its contents.
    Expr(u32, Vec<ArgCall>),
}

/// A pattern to be built: a [`PatternKind`](tt_kinds::PatternKind) with positions in place of handles.
#[derive(Debug, Drop)]
pub enum PatCall {
    /// The values from one constant to another.
    Range {
        /// The least value.
        start: u32,
        /// The greatest value.
        end: u32,
    },
    /// The values that at least one of the patterns allows.
    Or(Positions),
    /// Every value but the null pointer.
    NotNull,
}

/// A type or a constant in a call.
#[derive(Clone, Copy, Debug)]
pub enum TermCall {
    /// The type that the call at this position answered.
    Ty(u32),
    /// The constant that the call at this position answered.
    Const(u32),
}

/// The kind of a clause: a [`ClauseKind`](tt_kinds::ClauseKind) with positions in place of handles and ids.
#[derive(Debug, Drop)]
pub enum ClauseCall {
    /// A type implements a trait: the trait, and its generic arguments, the self type first.
    Trait(u32, Vec<ArgCall>),
    /// A region outlives another.
    RegionOutlives(RegionCall, RegionCall),
    /// A type outlives a region.
    TypeOutlives(u32, RegionCall),
    /// An alias is equal to a term: the alias, whose declaration may be of any sort, its generic arguments, and the
    /// term.
    Projection(u32, Vec<ArgCall>, TermCall),
    /// A constant has a type.
    ConstArgHasType(u32, u32),
    /// A term is well formed.
    WellFormed(TermCall),
    /// A constant can be computed.
    ConstEvaluatable(u32),
    /// A type implements a trait for use in constants.
    HostEffect(u32, Vec<ArgCall>, BoundConstness),
    /// The unstable feature of this name is enabled.
    UnstableFeature(String),
}

/// The kind of a predicate: a [`PredicateKind`](tt_kinds::PredicateKind) with positions in place of handles and ids.
#[derive(Debug, Drop)]
pub enum PredicateKindCall {
    /// A clause.
    Clause(ClauseCall),
    /// Trait objects of the trait can be made.
    DynCompatible(u32),
    /// A type is a subtype of another.
    Subtype {
        /// Whether the first type is what was expected.
        a_is_expected: bool,
        /// The subtype.
        a: u32,
        /// The other type.
        b: u32,
    },
    /// A type can be coerced to another.
    Coerce(u32, u32),
    /// Two constants are equal.
    ConstEquate(u32, u32),
    /// It is unknown whether the predicate holds.
    Ambiguous,
    /// An alias normalizes to a term: the alias, whose declaration may be of any sort, its generic arguments, and the
    /// term.
    NormalizesTo(u32, Vec<ArgCall>, TermCall),
    /// Two terms, which may be aliases, are related in this direction.
    AliasRelate(TermCall, TermCall, AliasRelationDirection),
}

/// A predicate of a trait object on the type that the object hides: an
/// [`ExistentialPredicate`](tt_kinds::ExistentialPredicate) with positions in place of handles and ids.
#[derive(Debug, Drop)]
pub enum ExistentialKindCall {
    /// The hidden type implements a trait with these generic arguments.
    Trait(u32, Vec<ArgCall>),
    /// An associated item of the hidden type's trait is equal to a term: the item, whose declaration may be of any
    /// sort, its generic arguments, and the term.
    Projection(u32, Vec<ArgCall>, TermCall),
    /// The hidden type implements an auto trait.
    AutoTrait(u32),
}

/// An existential predicate to be built.
#[derive(Debug, Drop)]
pub struct ExistentialCall {
    /// Its kind.
    pub kind: ExistentialKindCall,
    /// The variables of the binder around it.
    pub vars: Vec<VariableCall>,
}

/// A predicate to be built.
#[derive(Debug, Drop)]
pub struct PredicateCall {
    /// Its kind.
    pub kind: PredicateKindCall,
    /// The variables of the binder around it.
    pub vars: Vec<VariableCall>,
}

/// A generic argument in a call.
#[derive(Debug, Drop)]
pub enum ArgCall {
    /// A region.
    Lifetime(RegionCall),
    /// The type that the call at this position answered.
    Type(u32),
    /// The constant that the call at this position answered.
    Const(u32),
}

/// What is declared: a [`DeclarationKind`](tt_kinds::DeclarationKind) with the position of the declaring call in place
/// of an id, and positions of types.
#[derive(Debug, Drop)]
pub enum DeclarationKindCall {
    /// A trait.
    Trait {
        /// The number of its parameters, including the self type.
        params: u32,
    },
    /// An associated type of the trait that the call at this position declared.
    AssocTy(u32),
    /// An implementation: of a trait, or of a type's own items.
    Impl,
    /// An associated type of the implementation that the call at this position declared.
    Inherent(u32),
    /// A struct, an enum or a union.
    Adt,
    /// A function of this signature.
    Fn {
        /// The variables of the signature's binder.
        vars: Vec<VariableCall>,
        /// The types of the inputs in order, then the output's.
        inputs_and_output: Positions,
        /// The parts of the signature other than the types.
        fn_sig_kind: FnSigKind,
    },
    /// An opaque type.
    Opaque,
    /// A type alias whose bounds are checked, and which can always be normalized away.
    Free,
    /// A foreign type, which is declared elsewhere.
    Foreign,
    /// A closure.
    Closure,
    /// A closure that returns a coroutine.
    CoroutineClosure,
    /// A coroutine.
    Coroutine,
    /// A constant whose value is computed on demand.
    Const,
    /// A type, region or constant parameter.
    Param,
}

/// A declaration to be made. Each call makes a new id, even if names repeat.
#[derive(Debug, Drop)]
pub struct DeclareCall {
    /// What is declared.
    pub kind: DeclarationKindCall,
    /// Its name.
    pub name: String,
}

/// A call of the library. A position names the answer of an earlier call of the list: the first call has position 1.
#[derive(Debug, Drop)]
pub enum Call {
    /// Builds the type.
    Ty(TyCall),
    /// Builds the constant.
    Const(ConstCall),
    /// Builds the pattern.
    Pat(PatCall),
    /// Builds the predicate.
    Predicate(PredicateCall),
    /// Builds the list of the clauses that the calls at the positions answered.
    Clauses(Positions),
    /// Builds the list of generic arguments.
    Args(Vec<ArgCall>),
    /// Makes the declaration.
    Declare(DeclareCall),
    /// Shifts the term at the position into this many new binders.
    Shift(u32, u32),
    /// Instantiates the term at the position with the arguments.
    Instantiate(u32, Vec<ArgCall>),
    /// Replaces each region of the term at the position by the erased one, except for canonical regions and those that
    /// the term's own binders bind.
    EraseRegions(u32),
    /// Tests whether the terms at two positions are the same.
    Equal(u32, u32),
    /// Reads the flags and the outer exclusive binder of the term at the position.
    Info(u32),
    /// A line that is not a call.
    Bad,
}
