//! The test that a value's handles are of an interner, which the calls on values require.

ghost use Rattle.std.specs.Prelude.{◌↔◌, IsTrue};
ghost use Rattle.tt_kinds.specs.Shape.{AreParts, item_shapes};
ghost use Rattle.tt_kinds.specs.Kinds.{parts_shapes};
ghost use Rattle.tt_interner.specs.Owned.{IsPartBy};
ghost use Rattle.tt_interner.specs.Rows.{size};

use crate::handles::IsTested;
use indexmap::IndexSet;
use smallvec::SmallVec;
use std::boxed::BoxedSlice;
use std::hash::{BuildHasher, Hash};
use std::rc::Rc;
use tt_index::{
    ClosureKind, ExternAbi, FloatTy, Idx, Index, IndexVec, IntTy, Mutability, Safety, UintTy,
    Variance,
};
use tt_interner::Interner;
use tt_kinds::{
    AliasRelationDirection, AliasTerm, AliasTy, Binder, BoundVarIndexKind, Clause, ClauseKind,
    CoercePredicate, Const, ConstKind, CoroutineWitnessTypes, ErrorGuaranteed,
    ExistentialPredicate, ExistentialProjection, ExistentialTraitRef, ExprConst, FnInputTys, FnSig,
    FnSigTys, GenericArg, GenericArgKind, GenericArgsSlice, Handle, HostEffectPredicate,
    NormalizesTo, OutlivesPredicate, ParamEnv, Parts, PatternKind, PlaceholderConst,
    PlaceholderRegion, PlaceholderType, Predicate, PredicateKind, ProjectionPredicate, Region,
    RegionAssumptions, SubtypePredicate, Term, TermKind, TraitPredicate, TraitRef, Ty, TyKind,
    TypeAndMut, UnevaluatedConst, UnsafeBinderInner, ValTree, ValTreeKind, ValueConst,
};
use tt_visit::TypeVisitable;

/// A value that can test whether its handles are of an interner.
pub trait Owned: TypeVisitable {
    /// Returns whether each handle and each name in the value is of this interner, as the calls on values require.
    ///
    /// A handle is a number, so a handle of another interner passes the test if this one has a row of that number. A
    /// handle of this interner stays one, whatever is built later.
    fn is_owned(&self, cx: &Interner) -> bool
        ensures { IsTrue result ↔ IsPartBy Self.shape cx.now.rows self.now };
}

/// Returns whether each handle and each name in the values is of this interner.
pub fn are_owned<T: Owned>(cx: &Interner, values: &[T]) -> bool
    ensures { IsTrue result ↔ AreParts (size cx.now.rows) (item_shapes T.shape values.now) }
{
    match values {
        [] => true,
        [first, rest @ ..] => first.is_owned(cx) && are_owned(cx, rest),
    }
}

// Returns whether the children of a kind are this interner's.
fn are_parts_owned(cx: &Interner, parts: &Parts) -> bool
    ensures { IsTrue result ↔ AreParts (size cx.now.rows) (parts_shapes parts.now) }
{
    cx.owns_child(&parts.first) && cx.owns_child(&parts.second)
}

impl<K: IsTested> Owned for Handle<K> {
    fn is_owned(&self, cx: &Interner) -> bool {
        cx.owns(*self)
    }
}

impl Owned for RegionAssumptions {
    fn is_owned(&self, cx: &Interner) -> bool {
        cx.owns(*self)
    }
}

impl Owned for FnInputTys {
    fn is_owned(&self, cx: &Interner) -> bool {
        cx.owns(self.inputs_and_output())
    }
}

impl Owned for GenericArgsSlice {
    fn is_owned(&self, cx: &Interner) -> bool {
        cx.owns(self.args())
    }
}

impl Owned for Clause {
    fn is_owned(&self, cx: &Interner) -> bool {
        cx.owns(Predicate::from_number(self.number()))
    }
}

impl Owned for Region {
    fn is_owned(&self, cx: &Interner) -> bool {
        cx.owns_region(self)
    }
}

impl Owned for GenericArg {
    fn is_owned(&self, cx: &Interner) -> bool {
        cx.owns_arg(self)
    }
}

impl Owned for GenericArgKind {
    fn is_owned(&self, cx: &Interner) -> bool {
        cx.owns_arg(&GenericArg::from(*self))
    }
}

impl Owned for TermKind {
    fn is_owned(&self, cx: &Interner) -> bool {
        match self {
            TermKind::Ty(ty) => ty.is_owned(cx),
            TermKind::Const(constant) => constant.is_owned(cx),
        }
    }
}

impl Owned for Term {
    fn is_owned(&self, cx: &Interner) -> bool {
        self.kind().is_owned(cx)
    }
}

impl Owned for TyKind {
    fn is_owned(&self, cx: &Interner) -> bool {
        cx.owns_kind(self)
    }
}

impl Owned for ConstKind {
    fn is_owned(&self, cx: &Interner) -> bool {
        cx.owns_const_kind(self)
    }
}

impl Owned for PatternKind {
    fn is_owned(&self, cx: &Interner) -> bool {
        cx.owns_pattern_kind(self)
    }
}

impl Owned for ErrorGuaranteed {
    fn is_owned(&self, _cx: &Interner) -> bool {
        true
    }
}

impl Owned for UnevaluatedConst {
    fn is_owned(&self, cx: &Interner) -> bool {
        self.args.is_owned(cx)
    }
}

impl Owned for ExprConst {
    fn is_owned(&self, cx: &Interner) -> bool {
        self.args.is_owned(cx)
    }
}

impl Owned for ValueConst {
    fn is_owned(&self, cx: &Interner) -> bool {
        cx.owns_const_kind(&ConstKind::Value(*self))
    }
}

impl Owned for ValTree {
    fn is_owned(&self, cx: &Interner) -> bool {
        match &self.kind() {
            ValTreeKind::Leaf(_) => true,
            ValTreeKind::Branch(values) => values.is_owned(cx),
        }
    }
}

impl<T: Owned> Owned for Binder<T> {
    fn is_owned(&self, cx: &Interner) -> bool {
        cx.owns(self.bound_vars()) && self.as_ref().skip_binder().is_owned(cx)
    }
}

impl<A: Owned, B: Owned> Owned for (A, B) {
    fn is_owned(&self, cx: &Interner) -> bool {
        self.0.is_owned(cx) && self.1.is_owned(cx)
    }
}

impl<A: Owned, B: Owned, C: Owned> Owned for (A, B, C) {
    fn is_owned(&self, cx: &Interner) -> bool {
        self.0.is_owned(cx) && self.1.is_owned(cx) && self.2.is_owned(cx)
    }
}

impl<T: Owned> Owned for Option<T> {
    fn is_owned(&self, cx: &Interner) -> bool {
        match self {
            Some(value) => value.is_owned(cx),
            None => true,
        }
    }
}

impl<T: Owned, E: Owned> Owned for Result<T, E> {
    fn is_owned(&self, cx: &Interner) -> bool {
        match self {
            Ok(value) => value.is_owned(cx),
            Err(error) => error.is_owned(cx),
        }
    }
}

impl<T: Owned> Owned for Box<T> {
    fn is_owned(&self, cx: &Interner) -> bool {
        T::is_owned(&**self, cx)
    }
}

impl<T: Owned> Owned for Rc<T> {
    fn is_owned(&self, cx: &Interner) -> bool {
        T::is_owned(&**self, cx)
    }
}

impl<T: Owned> Owned for Vec<T> {
    fn is_owned(&self, cx: &Interner) -> bool {
        are_owned(cx, self.as_slice())
    }
}

impl<T: Owned> Owned for &[T] {
    fn is_owned(&self, cx: &Interner) -> bool {
        are_owned(cx, *self)
    }
}

impl<T: Owned> Owned for &T {
    fn is_owned(&self, cx: &Interner) -> bool {
        T::is_owned(*self, cx)
    }
}

impl Owned for FnSigTys {
    fn is_owned(&self, cx: &Interner) -> bool {
        self.inputs_and_output.is_owned(cx)
    }
}

impl Owned for FnSig {
    fn is_owned(&self, cx: &Interner) -> bool {
        self.inputs_and_output.is_owned(cx)
    }
}

impl Owned for CoroutineWitnessTypes {
    fn is_owned(&self, cx: &Interner) -> bool {
        self.types.is_owned(cx) && self.assumptions.is_owned(cx)
    }
}

impl Owned for TypeAndMut {
    fn is_owned(&self, cx: &Interner) -> bool {
        self.ty.is_owned(cx)
    }
}

impl Owned for TraitRef {
    fn is_owned(&self, cx: &Interner) -> bool {
        self.args.is_owned(cx)
    }
}

impl Owned for AliasTy {
    fn is_owned(&self, cx: &Interner) -> bool {
        self.args.is_owned(cx)
    }
}

impl Owned for AliasTerm {
    fn is_owned(&self, cx: &Interner) -> bool {
        self.args.is_owned(cx)
    }
}

impl Owned for ParamEnv {
    fn is_owned(&self, cx: &Interner) -> bool {
        self.caller_bounds.is_owned(cx)
    }
}

impl Owned for TraitPredicate {
    fn is_owned(&self, cx: &Interner) -> bool {
        self.trait_ref.args.is_owned(cx)
    }
}

impl Owned for HostEffectPredicate {
    fn is_owned(&self, cx: &Interner) -> bool {
        self.trait_ref.args.is_owned(cx)
    }
}

impl Owned for ProjectionPredicate {
    fn is_owned(&self, cx: &Interner) -> bool {
        self.projection_term.args.is_owned(cx) && self.term.is_owned(cx)
    }
}

impl Owned for NormalizesTo {
    fn is_owned(&self, cx: &Interner) -> bool {
        self.alias.args.is_owned(cx) && self.term.is_owned(cx)
    }
}

impl Owned for SubtypePredicate {
    fn is_owned(&self, cx: &Interner) -> bool {
        self.a.is_owned(cx) && self.b.is_owned(cx)
    }
}

impl Owned for CoercePredicate {
    fn is_owned(&self, cx: &Interner) -> bool {
        self.a.is_owned(cx) && self.b.is_owned(cx)
    }
}

impl<A: Owned> Owned for OutlivesPredicate<A> {
    fn is_owned(&self, cx: &Interner) -> bool {
        self.0.is_owned(cx) && self.1.is_owned(cx)
    }
}

impl Owned for ClauseKind {
    fn is_owned(&self, cx: &Interner) -> bool {
        match self {
            ClauseKind::UnstableFeature(feature) => cx.owns(*feature),
            _ => are_parts_owned(cx, &self.parts()),
        }
    }
}

impl Owned for PredicateKind {
    fn is_owned(&self, cx: &Interner) -> bool {
        match self {
            PredicateKind::Clause(clause) => clause.is_owned(cx),
            _ => are_parts_owned(cx, &self.parts()),
        }
    }
}

impl Owned for ExistentialPredicate {
    fn is_owned(&self, cx: &Interner) -> bool {
        are_parts_owned(cx, &self.parts())
    }
}

impl Owned for ExistentialTraitRef {
    fn is_owned(&self, cx: &Interner) -> bool {
        self.args.is_owned(cx)
    }
}

impl Owned for ExistentialProjection {
    fn is_owned(&self, cx: &Interner) -> bool {
        self.args.is_owned(cx) && self.term.is_owned(cx)
    }
}

impl Owned for UnsafeBinderInner {
    fn is_owned(&self, cx: &Interner) -> bool {
        cx.owns(self.bound_vars()) && self.skip_binder().is_owned(cx)
    }
}

impl<T: Owned> Owned for BoxedSlice<T> {
    fn is_owned(&self, cx: &Interner) -> bool {
        let items = self.as_slice();
        are_owned(cx, items)
    }
}

impl<Ix: Idx, T: Owned> Owned for IndexVec<Ix, T> {
    fn is_owned(&self, cx: &Interner) -> bool {
        let indexed = self.raw();
        are_owned(cx, indexed)
    }
}

impl<T: Owned, const N: usize> Owned for SmallVec<T, N> {
    fn is_owned(&self, cx: &Interner) -> bool {
        let few = self.as_slice();
        are_owned(cx, few)
    }
}

impl<T: Owned + Eq + Hash, S: BuildHasher> Owned for IndexSet<T, S> {
    fn is_owned(&self, cx: &Interner) -> bool {
        let in_order = self.as_slice();
        are_owned(cx, in_order)
    }
}

impl Owned for () {
    fn is_owned(&self, _cx: &Interner) -> bool {
        true
    }
}

impl Owned for bool {
    fn is_owned(&self, _cx: &Interner) -> bool {
        true
    }
}

impl Owned for u16 {
    fn is_owned(&self, _cx: &Interner) -> bool {
        true
    }
}

impl Owned for u32 {
    fn is_owned(&self, _cx: &Interner) -> bool {
        true
    }
}

impl Owned for u64 {
    fn is_owned(&self, _cx: &Interner) -> bool {
        true
    }
}

impl Owned for usize {
    fn is_owned(&self, _cx: &Interner) -> bool {
        true
    }
}

impl<S> Owned for Index<S> {
    fn is_owned(&self, _cx: &Interner) -> bool {
        true
    }
}

impl Owned for BoundVarIndexKind {
    fn is_owned(&self, _cx: &Interner) -> bool {
        true
    }
}

impl Owned for Mutability {
    fn is_owned(&self, _cx: &Interner) -> bool {
        true
    }
}

impl Owned for Safety {
    fn is_owned(&self, _cx: &Interner) -> bool {
        true
    }
}

impl Owned for Variance {
    fn is_owned(&self, _cx: &Interner) -> bool {
        true
    }
}

impl Owned for ClosureKind {
    fn is_owned(&self, _cx: &Interner) -> bool {
        true
    }
}

impl Owned for ExternAbi {
    fn is_owned(&self, _cx: &Interner) -> bool {
        true
    }
}

impl Owned for IntTy {
    fn is_owned(&self, _cx: &Interner) -> bool {
        true
    }
}

impl Owned for UintTy {
    fn is_owned(&self, _cx: &Interner) -> bool {
        true
    }
}

impl Owned for FloatTy {
    fn is_owned(&self, _cx: &Interner) -> bool {
        true
    }
}

impl Owned for AliasRelationDirection {
    fn is_owned(&self, _cx: &Interner) -> bool {
        true
    }
}

impl Owned for PlaceholderType {
    fn is_owned(&self, _cx: &Interner) -> bool {
        true
    }
}

impl Owned for PlaceholderConst {
    fn is_owned(&self, _cx: &Interner) -> bool {
        true
    }
}

impl Owned for PlaceholderRegion {
    fn is_owned(&self, cx: &Interner) -> bool {
        cx.owns_region_name(&self.bound.kind)
    }
}
