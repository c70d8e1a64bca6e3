//! The folds of records: values that hold handles and have no row of their own.

use crate::core_folder::Core;
use crate::foldable::TypeFoldable;
use crate::walk::fold_parts;
use tt_interner::Interner;
use tt_kinds::{
    AliasTerm, AliasTy, ClauseKind, CoercePredicate, CoroutineWitnessTypes, ExistentialPredicate,
    ExistentialProjection, ExistentialTraitRef, FnSig, FnSigTys, HostEffectPredicate, NormalizesTo,
    OutlivesPredicate, ParamEnv, PredicateKind, ProjectionPredicate, SubtypePredicate,
    TraitPredicate, TraitRef, TypeAndMut, UnsafeBinderInner,
};

impl TypeFoldable for FnSigTys {
    fn fold_core<M, F: Core<M>>(
        self,
        cx: &mut Interner,
        folder: &mut F,
    ) -> Result<FnSigTys, F::Error> {
        let inputs_and_output = self.inputs_and_output.fold_core::<M, F>(cx, folder)?;
        Ok(FnSigTys { inputs_and_output })
    }
}

impl TypeFoldable for FnSig {
    fn fold_core<M, F: Core<M>>(
        self,
        cx: &mut Interner,
        folder: &mut F,
    ) -> Result<FnSig, F::Error> {
        let inputs_and_output = self.inputs_and_output.fold_core::<M, F>(cx, folder)?;
        Ok(FnSig {
            inputs_and_output,
            fn_sig_kind: self.fn_sig_kind,
        })
    }
}

impl TypeFoldable for CoroutineWitnessTypes {
    fn fold_core<M, F: Core<M>>(
        self,
        cx: &mut Interner,
        folder: &mut F,
    ) -> Result<CoroutineWitnessTypes, F::Error> {
        let types = self.types.fold_core::<M, F>(cx, folder)?;
        let assumptions = self.assumptions.fold_core::<M, F>(cx, folder)?;
        Ok(CoroutineWitnessTypes { types, assumptions })
    }
}

impl TypeFoldable for TypeAndMut {
    fn fold_core<M, F: Core<M>>(
        self,
        cx: &mut Interner,
        folder: &mut F,
    ) -> Result<TypeAndMut, F::Error> {
        let ty = self.ty.fold_core::<M, F>(cx, folder)?;
        Ok(TypeAndMut {
            ty,
            mutbl: self.mutbl,
        })
    }
}

impl TypeFoldable for TraitRef {
    fn fold_core<M, F: Core<M>>(
        self,
        cx: &mut Interner,
        folder: &mut F,
    ) -> Result<TraitRef, F::Error> {
        let args = self.args.fold_core::<M, F>(cx, folder)?;
        Ok(TraitRef {
            def_id: self.def_id,
            args,
        })
    }
}

impl TypeFoldable for AliasTy {
    fn fold_core<M, F: Core<M>>(
        self,
        cx: &mut Interner,
        folder: &mut F,
    ) -> Result<AliasTy, F::Error> {
        let args = self.args.fold_core::<M, F>(cx, folder)?;
        Ok(AliasTy {
            args,
            kind: self.kind,
        })
    }
}

impl TypeFoldable for AliasTerm {
    fn fold_core<M, F: Core<M>>(
        self,
        cx: &mut Interner,
        folder: &mut F,
    ) -> Result<AliasTerm, F::Error> {
        let args = self.args.fold_core::<M, F>(cx, folder)?;
        Ok(AliasTerm {
            args,
            def_id: self.def_id,
        })
    }
}

impl TypeFoldable for ParamEnv {
    fn fold_core<M, F: Core<M>>(
        self,
        cx: &mut Interner,
        folder: &mut F,
    ) -> Result<ParamEnv, F::Error> {
        let caller_bounds = self.caller_bounds.fold_core::<M, F>(cx, folder)?;
        Ok(ParamEnv { caller_bounds })
    }
}

impl TypeFoldable for TraitPredicate {
    fn fold_core<M, F: Core<M>>(
        self,
        cx: &mut Interner,
        folder: &mut F,
    ) -> Result<TraitPredicate, F::Error> {
        let args = self.trait_ref.args.fold_core::<M, F>(cx, folder)?;
        Ok(TraitPredicate {
            trait_ref: TraitRef {
                def_id: self.trait_ref.def_id,
                args,
            },
        })
    }
}

impl TypeFoldable for HostEffectPredicate {
    fn fold_core<M, F: Core<M>>(
        self,
        cx: &mut Interner,
        folder: &mut F,
    ) -> Result<HostEffectPredicate, F::Error> {
        let args = self.trait_ref.args.fold_core::<M, F>(cx, folder)?;
        Ok(HostEffectPredicate {
            trait_ref: TraitRef {
                def_id: self.trait_ref.def_id,
                args,
            },
            constness: self.constness,
        })
    }
}

impl TypeFoldable for ProjectionPredicate {
    fn fold_core<M, F: Core<M>>(
        self,
        cx: &mut Interner,
        folder: &mut F,
    ) -> Result<ProjectionPredicate, F::Error> {
        let args = self.projection_term.args.fold_core::<M, F>(cx, folder)?;
        let term = self.term.fold_core::<M, F>(cx, folder)?;
        Ok(ProjectionPredicate {
            projection_term: AliasTerm {
                args,
                def_id: self.projection_term.def_id,
            },
            term,
        })
    }
}

impl TypeFoldable for NormalizesTo {
    fn fold_core<M, F: Core<M>>(
        self,
        cx: &mut Interner,
        folder: &mut F,
    ) -> Result<NormalizesTo, F::Error> {
        let args = self.alias.args.fold_core::<M, F>(cx, folder)?;
        let term = self.term.fold_core::<M, F>(cx, folder)?;
        Ok(NormalizesTo {
            alias: AliasTerm {
                args,
                def_id: self.alias.def_id,
            },
            term,
        })
    }
}

impl TypeFoldable for SubtypePredicate {
    fn fold_core<M, F: Core<M>>(
        self,
        cx: &mut Interner,
        folder: &mut F,
    ) -> Result<SubtypePredicate, F::Error> {
        let a = self.a.fold_core::<M, F>(cx, folder)?;
        let b = self.b.fold_core::<M, F>(cx, folder)?;
        Ok(SubtypePredicate {
            a_is_expected: self.a_is_expected,
            a,
            b,
        })
    }
}

impl TypeFoldable for CoercePredicate {
    fn fold_core<M, F: Core<M>>(
        self,
        cx: &mut Interner,
        folder: &mut F,
    ) -> Result<CoercePredicate, F::Error> {
        let a = self.a.fold_core::<M, F>(cx, folder)?;
        let b = self.b.fold_core::<M, F>(cx, folder)?;
        Ok(CoercePredicate { a, b })
    }
}

impl<A: TypeFoldable> TypeFoldable for OutlivesPredicate<A> {
    fn fold_core<M, F: Core<M>>(
        self,
        cx: &mut Interner,
        folder: &mut F,
    ) -> Result<OutlivesPredicate<A>, F::Error> {
        let value = self.0.fold_core::<M, F>(cx, folder)?;
        let region = self.1.fold_core::<M, F>(cx, folder)?;
        Ok(OutlivesPredicate(value, region))
    }
}

impl TypeFoldable for ClauseKind {
    fn fold_core<M, F: Core<M>>(
        self,
        cx: &mut Interner,
        folder: &mut F,
    ) -> Result<ClauseKind, F::Error> {
        let parts = fold_parts::<M, F>(cx, folder, self.parts())?;
        Ok(self.with_parts(parts))
    }
}

impl TypeFoldable for PredicateKind {
    fn fold_core<M, F: Core<M>>(
        self,
        cx: &mut Interner,
        folder: &mut F,
    ) -> Result<PredicateKind, F::Error> {
        let parts = fold_parts::<M, F>(cx, folder, self.parts())?;
        Ok(self.with_parts(parts))
    }
}

impl TypeFoldable for ExistentialPredicate {
    fn fold_core<M, F: Core<M>>(
        self,
        cx: &mut Interner,
        folder: &mut F,
    ) -> Result<ExistentialPredicate, F::Error> {
        let parts = fold_parts::<M, F>(cx, folder, self.parts())?;
        Ok(self.with_parts(parts))
    }
}

impl TypeFoldable for ExistentialTraitRef {
    fn fold_core<M, F: Core<M>>(
        self,
        cx: &mut Interner,
        folder: &mut F,
    ) -> Result<ExistentialTraitRef, F::Error> {
        let args = self.args.fold_core::<M, F>(cx, folder)?;
        Ok(ExistentialTraitRef {
            def_id: self.def_id,
            args,
        })
    }
}

impl TypeFoldable for ExistentialProjection {
    fn fold_core<M, F: Core<M>>(
        self,
        cx: &mut Interner,
        folder: &mut F,
    ) -> Result<ExistentialProjection, F::Error> {
        let args = self.args.fold_core::<M, F>(cx, folder)?;
        let term = self.term.fold_core::<M, F>(cx, folder)?;
        Ok(ExistentialProjection {
            def_id: self.def_id,
            args,
            term,
        })
    }
}

impl TypeFoldable for UnsafeBinderInner {
    fn fold_core<M, F: Core<M>>(
        self,
        cx: &mut Interner,
        folder: &mut F,
    ) -> Result<UnsafeBinderInner, F::Error> {
        let vars = self.bound_vars();
        folder.core_enter(cx, vars)?;
        let ty = self.skip_binder().fold_core::<M, F>(cx, folder)?;
        folder.core_leave(cx, vars)?;
        Ok(self.with_ty(ty))
    }
}
