//! The folds of values without terms: numbers, tags, names, ids, indices, parameters and variables by themselves. They
//! call no hook.

ghost use Rattle.tt_visit.proofs.DataSteps.{index_data};
ghost use Rattle.tt_visit.specs.Data.{IsData};

use crate::core_folder::Core;
use crate::foldable::TypeFoldable;
use tt_index::{
    ClosureKind, ExternAbi, FloatTy, Index, IntTy, Mutability, Safety, UintTy, Variance,
};
use tt_interner::Interner;
use tt_kinds::{
    AliasRelationDirection, AliasTyKind, AnonConstKind, BoundConst, BoundConstness, BoundRegion,
    BoundRegionKind, BoundTy, BoundTyKind, BoundVarIndexKind, BoundVarKinds, BoundVariableKind,
    DefId, EarlyParamRegion, FloatVarValue, FnHeader, FnSigKind, Id, InferConst, InferTy,
    IntVarValue, LateParamRegion, ParamConst, ParamTy, ScalarInt, Symbol,
};
use tt_visit::TypeVisitable;

/// A value without terms, such as a number or a tag. Each fold returns the value as it is.
pub trait FoldsToItself: TypeVisitable + Drop {
    // The value's shape is records all the way down.
    ghost is_data: { (value : Self) → IsData (Self.shape value) };
}

impl<T: FoldsToItself> TypeFoldable for T {
    fn fold_core<M, F: Core<M>>(self, _cx: &mut Interner, _folder: &mut F) -> Result<T, F::Error> {
        Ok(self)
    }
}

impl FoldsToItself for () {
    ghost is_data = { λ value. tt };
}

impl FoldsToItself for bool {
    ghost is_data = { λ value. tt };
}

impl FoldsToItself for u16 {
    ghost is_data = { λ value. tt };
}

impl FoldsToItself for u32 {
    ghost is_data = { λ value. tt };
}

impl FoldsToItself for u64 {
    ghost is_data = { λ value. tt };
}

impl FoldsToItself for usize {
    ghost is_data = { λ value. tt };
}

impl<S> FoldsToItself for Index<S> {
    ghost is_data = { λ value. tt };
}

impl FoldsToItself for BoundVarIndexKind {
    ghost is_data = { index_data };
}

impl FoldsToItself for Mutability {
    ghost is_data = { λ value. tt };
}

impl FoldsToItself for Safety {
    ghost is_data = { λ value. tt };
}

impl FoldsToItself for Variance {
    ghost is_data = { λ value. tt };
}

impl FoldsToItself for ClosureKind {
    ghost is_data = { λ value. tt };
}

impl FoldsToItself for ExternAbi {
    ghost is_data = { λ value. tt };
}

impl FoldsToItself for IntTy {
    ghost is_data = { λ value. tt };
}

impl FoldsToItself for UintTy {
    ghost is_data = { λ value. tt };
}

impl FoldsToItself for FloatTy {
    ghost is_data = { λ value. tt };
}

impl FoldsToItself for AliasRelationDirection {
    ghost is_data = { λ value. tt };
}

impl FoldsToItself for BoundConstness {
    ghost is_data = { λ value. tt };
}

impl FoldsToItself for AnonConstKind {
    ghost is_data = { λ value. tt };
}

impl FoldsToItself for IntVarValue {
    ghost is_data = { λ value. tt };
}

impl FoldsToItself for FloatVarValue {
    ghost is_data = { λ value. tt };
}

impl FoldsToItself for FnSigKind {
    ghost is_data = { λ value. tt };
}

impl FoldsToItself for FnHeader {
    ghost is_data = { λ value. tt };
}

impl FoldsToItself for AliasTyKind {
    ghost is_data = { λ value. tt };
}

impl FoldsToItself for ScalarInt {
    ghost is_data = { λ value. tt };
}

impl FoldsToItself for DefId {
    ghost is_data = { λ value. tt };
}

impl<S> FoldsToItself for Id<S> {
    ghost is_data = { λ value. tt };
}

impl FoldsToItself for ParamTy {
    ghost is_data = { λ value. tt };
}

impl FoldsToItself for ParamConst {
    ghost is_data = { λ value. tt };
}

impl FoldsToItself for EarlyParamRegion {
    ghost is_data = { λ value. tt };
}

impl FoldsToItself for LateParamRegion {
    ghost is_data = { λ value. tt };
}

impl FoldsToItself for InferTy {
    ghost is_data = { λ value. tt };
}

impl FoldsToItself for InferConst {
    ghost is_data = { λ value. tt };
}

impl FoldsToItself for BoundRegion {
    ghost is_data = { λ value. tt };
}

impl FoldsToItself for BoundTy {
    ghost is_data = { λ value. tt };
}

impl FoldsToItself for BoundConst {
    ghost is_data = { λ value. tt };
}

impl FoldsToItself for BoundRegionKind {
    ghost is_data = { λ value. tt };
}

impl FoldsToItself for BoundTyKind {
    ghost is_data = { λ value. tt };
}

impl FoldsToItself for BoundVariableKind {
    ghost is_data = { λ value. tt };
}

impl TypeFoldable for Symbol {
    fn fold_core<M, F: Core<M>>(
        self,
        _cx: &mut Interner,
        _folder: &mut F,
    ) -> Result<Symbol, F::Error> {
        Ok(self)
    }
}

impl TypeFoldable for BoundVarKinds {
    fn fold_core<M, F: Core<M>>(
        self,
        _cx: &mut Interner,
        _folder: &mut F,
    ) -> Result<BoundVarKinds, F::Error> {
        Ok(self)
    }
}
