//! Copies of values that own no memory: handles, indices, kinds, records and values without terms.

ghost use Rattle.std.proofs.Common.{ap, sym, ◌∙◌};
ghost use Rattle.tt_kinds.specs.Handle.{handle};
ghost use Rattle.tt_fold.specs.Copies.{copies};

use crate::shared::ClonesTree;
use tt_index::{
    ClosureKind, ExternAbi, FloatTy, Index, IntTy, Mutability, Safety, UintTy, Variance,
};
use tt_kinds::{
    AliasRelationDirection, AliasTerm, AliasTy, BoundVarIndexKind, ClauseKind, CoercePredicate,
    ConstKind, CoroutineWitnessTypes, ErrorGuaranteed, ExistentialPredicate, ExistentialProjection,
    ExistentialTraitRef, ExprConst, FnSig, FnSigTys, GenericArg, GenericArgKind, Handle,
    HostEffectPredicate, NormalizesTo, ParamEnv, PatternKind, PlaceholderConst, PlaceholderRegion,
    PlaceholderType, PredicateKind, ProjectionPredicate, Region, SubtypePredicate, Term, TermKind,
    TraitPredicate, TraitRef, TyKind, TypeAndMut, UnevaluatedConst, UnsafeBinderInner, ValTree,
    ValueConst,
};
use tt_visit::TypeVisitable;

impl<K> ClonesTree for Handle<K>
where
    Handle<K>: TypeVisitable,
{
    ghost keeps = { λ value copy same. ap (λ number. Self.shape (handle number)) same.0 };
}

// An index and its copy are equal since the structs behind them have one number.
impl<S> ClonesTree for Index<S> {
    ghost keeps = { λ value copy same. ap Self.shape (sym same.3 ∙ same.4.0 ∙ same.2) };
}

impl ClonesTree for Region {
    ghost keeps = { Prim.search copies };
}

impl ClonesTree for GenericArg {
    ghost keeps = { Prim.search copies };
}

impl ClonesTree for Term {
    ghost keeps = { Prim.search copies };
}

impl ClonesTree for TyKind {
    ghost keeps = { Prim.search copies };
}

impl ClonesTree for ConstKind {
    ghost keeps = { Prim.search copies };
}

impl ClonesTree for PatternKind {
    ghost keeps = { Prim.search copies };
}

impl ClonesTree for PredicateKind {
    ghost keeps = { Prim.search copies };
}

impl ClonesTree for ClauseKind {
    ghost keeps = { Prim.search copies };
}

impl ClonesTree for ExistentialPredicate {
    ghost keeps = { Prim.search copies };
}

impl ClonesTree for GenericArgKind {
    ghost keeps = { Prim.search copies };
}

impl ClonesTree for TermKind {
    ghost keeps = { Prim.search copies };
}

impl ClonesTree for ErrorGuaranteed {
    ghost keeps = { Prim.search copies };
}

impl ClonesTree for UnevaluatedConst {
    ghost keeps = { Prim.search copies };
}

impl ClonesTree for ExprConst {
    ghost keeps = { Prim.search copies };
}

impl ClonesTree for ValueConst {
    ghost keeps = { Prim.search copies };
}

impl ClonesTree for ValTree {
    ghost keeps = { Prim.search copies };
}

impl ClonesTree for AliasTerm {
    ghost keeps = { Prim.search copies };
}

impl ClonesTree for AliasTy {
    ghost keeps = { Prim.search copies };
}

impl ClonesTree for CoercePredicate {
    ghost keeps = { Prim.search copies };
}

impl ClonesTree for CoroutineWitnessTypes {
    ghost keeps = { Prim.search copies };
}

impl ClonesTree for ExistentialProjection {
    ghost keeps = { Prim.search copies };
}

impl ClonesTree for ExistentialTraitRef {
    ghost keeps = { Prim.search copies };
}

impl ClonesTree for FnSig {
    ghost keeps = { Prim.search copies };
}

impl ClonesTree for FnSigTys {
    ghost keeps = { Prim.search copies };
}

impl ClonesTree for HostEffectPredicate {
    ghost keeps = { Prim.search copies };
}

impl ClonesTree for NormalizesTo {
    ghost keeps = { Prim.search copies };
}

impl ClonesTree for ParamEnv {
    ghost keeps = { Prim.search copies };
}

impl ClonesTree for ProjectionPredicate {
    ghost keeps = { Prim.search copies };
}

impl ClonesTree for SubtypePredicate {
    ghost keeps = { Prim.search copies };
}

impl ClonesTree for TraitPredicate {
    ghost keeps = { Prim.search copies };
}

impl ClonesTree for TraitRef {
    ghost keeps = { Prim.search copies };
}

impl ClonesTree for TypeAndMut {
    ghost keeps = { Prim.search copies };
}

impl ClonesTree for UnsafeBinderInner {
    ghost keeps = { Prim.search copies };
}

impl ClonesTree for () {
    ghost keeps = { Prim.search copies };
}

impl ClonesTree for bool {
    ghost keeps = { Prim.search copies };
}

impl ClonesTree for u16 {
    ghost keeps = { Prim.search copies };
}

impl ClonesTree for u32 {
    ghost keeps = { Prim.search copies };
}

impl ClonesTree for u64 {
    ghost keeps = { Prim.search copies };
}

impl ClonesTree for usize {
    ghost keeps = { Prim.search copies };
}

impl ClonesTree for BoundVarIndexKind {
    ghost keeps = { Prim.search copies };
}

impl ClonesTree for Mutability {
    ghost keeps = { Prim.search copies };
}

impl ClonesTree for Safety {
    ghost keeps = { Prim.search copies };
}

impl ClonesTree for Variance {
    ghost keeps = { Prim.search copies };
}

impl ClonesTree for ClosureKind {
    ghost keeps = { Prim.search copies };
}

impl ClonesTree for ExternAbi {
    ghost keeps = { Prim.search copies };
}

impl ClonesTree for IntTy {
    ghost keeps = { Prim.search copies };
}

impl ClonesTree for UintTy {
    ghost keeps = { Prim.search copies };
}

impl ClonesTree for FloatTy {
    ghost keeps = { Prim.search copies };
}

impl ClonesTree for AliasRelationDirection {
    ghost keeps = { Prim.search copies };
}

impl ClonesTree for PlaceholderRegion {
    ghost keeps = { Prim.search copies };
}

impl ClonesTree for PlaceholderType {
    ghost keeps = { Prim.search copies };
}

impl ClonesTree for PlaceholderConst {
    ghost keeps = { Prim.search copies };
}
