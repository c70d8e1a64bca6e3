//! The visits of records: values that hold handles and have no row of their own.

ghost use Rattle.tt_kinds.specs.Shape.{Shape, fill};

use crate::stored::{visit_parts, visit_under};
use crate::visitable::TypeVisitable;
use crate::visitor::TypeVisitor;
use std::ops::ControlFlow;
use tt_interner::Interner;
use tt_kinds::{
    AliasTerm, AliasTy, Child, ClauseKind, CoercePredicate, CoroutineWitnessTypes,
    ExistentialPredicate, ExistentialProjection, ExistentialTraitRef, FnSig, FnSigTys,
    HostEffectPredicate, NormalizesTo, OutlivesPredicate, ParamEnv, Parts, PredicateKind,
    ProjectionPredicate, SubtypePredicate, TraitPredicate, TraitRef, TypeAndMut, UnsafeBinderInner,
};

impl TypeVisitable for FnSigTys {
    ghost use Rattle.tt_kinds.specs.Kinds.{fn_sig_tys_shape};

    ghost shape = { fn_sig_tys_shape };

    #[tactic(auto, unfolding(tt_kinds::specs::Shape::fill))]
    fn visit_with<V: TypeVisitor>(
        &self,
        cx: &Interner,
        visitor: &mut V,
    ) -> ControlFlow<V::Break, ()> {
        self.inputs_and_output.visit_with(cx, visitor)
    }
}

impl TypeVisitable for FnSig {
    ghost use Rattle.tt_kinds.specs.Values.{fn_sig_shape};

    ghost shape = { fn_sig_shape };

    #[tactic(auto, unfolding(tt_kinds::specs::Shape::fill))]
    fn visit_with<V: TypeVisitor>(
        &self,
        cx: &Interner,
        visitor: &mut V,
    ) -> ControlFlow<V::Break, ()> {
        self.inputs_and_output.visit_with(cx, visitor)
    }
}

impl TypeVisitable for CoroutineWitnessTypes {
    ghost use Rattle.tt_kinds.specs.Values.{witness_types_shape};

    ghost shape = { witness_types_shape };

    #[tactic(auto, unfolding(tt_kinds::specs::Shape::fill))]
    fn visit_with<V: TypeVisitor>(
        &self,
        cx: &Interner,
        visitor: &mut V,
    ) -> ControlFlow<V::Break, ()> {
        match self.types.visit_with(cx, visitor) {
            ControlFlow::Break(b) => ControlFlow::Break(b),
            ControlFlow::Continue(_) => self.assumptions.visit_with(cx, visitor),
        }
    }
}

impl TypeVisitable for TypeAndMut {
    ghost use Rattle.tt_kinds.specs.Values.{type_and_mut_shape};

    ghost shape = { type_and_mut_shape };

    #[tactic(auto, unfolding(tt_kinds::specs::Shape::fill))]
    fn visit_with<V: TypeVisitor>(
        &self,
        cx: &Interner,
        visitor: &mut V,
    ) -> ControlFlow<V::Break, ()> {
        self.ty.visit_with(cx, visitor)
    }
}

impl TypeVisitable for TraitRef {
    ghost use Rattle.tt_kinds.specs.Values.{trait_ref_shape};

    ghost shape = { trait_ref_shape };

    #[tactic(auto, unfolding(tt_kinds::specs::Shape::fill))]
    fn visit_with<V: TypeVisitor>(
        &self,
        cx: &Interner,
        visitor: &mut V,
    ) -> ControlFlow<V::Break, ()> {
        self.args.visit_with(cx, visitor)
    }
}

impl TypeVisitable for AliasTy {
    ghost use Rattle.tt_kinds.specs.Values.{alias_ty_shape};

    ghost shape = { alias_ty_shape };

    #[tactic(auto, unfolding(tt_kinds::specs::Shape::fill))]
    fn visit_with<V: TypeVisitor>(
        &self,
        cx: &Interner,
        visitor: &mut V,
    ) -> ControlFlow<V::Break, ()> {
        self.args.visit_with(cx, visitor)
    }
}

impl TypeVisitable for AliasTerm {
    ghost use Rattle.tt_kinds.specs.Values.{alias_term_shape};

    ghost shape = { alias_term_shape };

    #[tactic(auto, unfolding(tt_kinds::specs::Shape::fill))]
    fn visit_with<V: TypeVisitor>(
        &self,
        cx: &Interner,
        visitor: &mut V,
    ) -> ControlFlow<V::Break, ()> {
        self.args.visit_with(cx, visitor)
    }
}

impl TypeVisitable for ParamEnv {
    ghost use Rattle.tt_kinds.specs.Values.{param_env_shape};

    ghost shape = { param_env_shape };

    #[tactic(auto, unfolding(tt_kinds::specs::Shape::fill))]
    fn visit_with<V: TypeVisitor>(
        &self,
        cx: &Interner,
        visitor: &mut V,
    ) -> ControlFlow<V::Break, ()> {
        self.caller_bounds.visit_with(cx, visitor)
    }
}

impl TypeVisitable for TraitPredicate {
    ghost use Rattle.tt_kinds.specs.Values.{trait_predicate_shape};

    ghost shape = { trait_predicate_shape };

    #[tactic(auto, unfolding(tt_kinds::specs::Shape::fill))]
    fn visit_with<V: TypeVisitor>(
        &self,
        cx: &Interner,
        visitor: &mut V,
    ) -> ControlFlow<V::Break, ()> {
        self.trait_ref.args.visit_with(cx, visitor)
    }
}

impl TypeVisitable for HostEffectPredicate {
    ghost use Rattle.tt_kinds.specs.Values.{host_effect_shape};

    ghost shape = { host_effect_shape };

    #[tactic(auto, unfolding(tt_kinds::specs::Shape::fill))]
    fn visit_with<V: TypeVisitor>(
        &self,
        cx: &Interner,
        visitor: &mut V,
    ) -> ControlFlow<V::Break, ()> {
        self.trait_ref.args.visit_with(cx, visitor)
    }
}

impl TypeVisitable for ProjectionPredicate {
    ghost use Rattle.tt_kinds.specs.Values.{projection_shape};

    ghost shape = { projection_shape };

    #[tactic(auto, unfolding(tt_kinds::specs::Shape::fill))]
    fn visit_with<V: TypeVisitor>(
        &self,
        cx: &Interner,
        visitor: &mut V,
    ) -> ControlFlow<V::Break, ()> {
        match self.projection_term.args.visit_with(cx, visitor) {
            ControlFlow::Break(b) => ControlFlow::Break(b),
            ControlFlow::Continue(_) => self.term.visit_with(cx, visitor),
        }
    }
}

impl TypeVisitable for NormalizesTo {
    ghost use Rattle.tt_kinds.specs.Values.{normalizes_to_shape};

    ghost shape = { normalizes_to_shape };

    #[tactic(auto, unfolding(tt_kinds::specs::Shape::fill))]
    fn visit_with<V: TypeVisitor>(
        &self,
        cx: &Interner,
        visitor: &mut V,
    ) -> ControlFlow<V::Break, ()> {
        match self.alias.args.visit_with(cx, visitor) {
            ControlFlow::Break(b) => ControlFlow::Break(b),
            ControlFlow::Continue(_) => self.term.visit_with(cx, visitor),
        }
    }
}

impl TypeVisitable for SubtypePredicate {
    ghost use Rattle.tt_kinds.specs.Values.{subtype_shape};

    ghost shape = { subtype_shape };

    #[tactic(auto, unfolding(tt_kinds::specs::Shape::fill))]
    fn visit_with<V: TypeVisitor>(
        &self,
        cx: &Interner,
        visitor: &mut V,
    ) -> ControlFlow<V::Break, ()> {
        match self.a.visit_with(cx, visitor) {
            ControlFlow::Break(b) => ControlFlow::Break(b),
            ControlFlow::Continue(_) => self.b.visit_with(cx, visitor),
        }
    }
}

impl TypeVisitable for CoercePredicate {
    ghost use Rattle.tt_kinds.specs.Values.{coerce_shape};

    ghost shape = { coerce_shape };

    #[tactic(auto, unfolding(tt_kinds::specs::Shape::fill))]
    fn visit_with<V: TypeVisitor>(
        &self,
        cx: &Interner,
        visitor: &mut V,
    ) -> ControlFlow<V::Break, ()> {
        match self.a.visit_with(cx, visitor) {
            ControlFlow::Break(b) => ControlFlow::Break(b),
            ControlFlow::Continue(_) => self.b.visit_with(cx, visitor),
        }
    }
}

impl<A: TypeVisitable> TypeVisitable for OutlivesPredicate<A> {
    ghost use Rattle.tt_kinds.specs.Values.{outlives_shape};

    ghost shape = { outlives_shape A.shape };

    #[tactic(auto, unfolding(tt_kinds::specs::Shape::fill))]
    fn visit_with<V: TypeVisitor>(
        &self,
        cx: &Interner,
        visitor: &mut V,
    ) -> ControlFlow<V::Break, ()> {
        match self.0.visit_with(cx, visitor) {
            ControlFlow::Break(b) => ControlFlow::Break(b),
            ControlFlow::Continue(_) => self.1.visit_with(cx, visitor),
        }
    }
}

impl TypeVisitable for ClauseKind {
    ghost use Rattle.tt_kinds.specs.Values.{clause_record_shape};

    ghost shape = { clause_record_shape };

    #[tactic(auto, unfolding(tt_kinds::specs::Shape::fill))]
    fn visit_with<V: TypeVisitor>(
        &self,
        cx: &Interner,
        visitor: &mut V,
    ) -> ControlFlow<V::Break, ()> {
        visit_parts(cx, visitor, self.parts())
    }
}

impl TypeVisitable for PredicateKind {
    ghost use Rattle.tt_kinds.specs.Values.{predicate_record_shape};

    ghost shape = { predicate_record_shape };

    #[tactic(auto, unfolding(tt_kinds::specs::Shape::fill))]
    fn visit_with<V: TypeVisitor>(
        &self,
        cx: &Interner,
        visitor: &mut V,
    ) -> ControlFlow<V::Break, ()> {
        visit_parts(cx, visitor, self.parts())
    }
}

impl TypeVisitable for ExistentialPredicate {
    ghost use Rattle.tt_kinds.specs.Values.{existential_record_shape};

    ghost shape = { existential_record_shape };

    #[tactic(auto, unfolding(tt_kinds::specs::Shape::fill))]
    fn visit_with<V: TypeVisitor>(
        &self,
        cx: &Interner,
        visitor: &mut V,
    ) -> ControlFlow<V::Break, ()> {
        visit_parts(cx, visitor, self.parts())
    }
}

impl TypeVisitable for ExistentialTraitRef {
    ghost use Rattle.tt_kinds.specs.Values.{existential_trait_ref_shape};

    ghost shape = { existential_trait_ref_shape };

    #[tactic(auto, unfolding(tt_kinds::specs::Shape::fill))]
    fn visit_with<V: TypeVisitor>(
        &self,
        cx: &Interner,
        visitor: &mut V,
    ) -> ControlFlow<V::Break, ()> {
        self.args.visit_with(cx, visitor)
    }
}

impl TypeVisitable for ExistentialProjection {
    ghost use Rattle.tt_kinds.specs.Values.{existential_projection_shape};

    ghost shape = { existential_projection_shape };

    #[tactic(auto, unfolding(tt_kinds::specs::Shape::fill))]
    fn visit_with<V: TypeVisitor>(
        &self,
        cx: &Interner,
        visitor: &mut V,
    ) -> ControlFlow<V::Break, ()> {
        match self.args.visit_with(cx, visitor) {
            ControlFlow::Break(b) => ControlFlow::Break(b),
            ControlFlow::Continue(_) => self.term.visit_with(cx, visitor),
        }
    }
}

impl TypeVisitable for UnsafeBinderInner {
    ghost use Rattle.tt_kinds.specs.Values.{unsafe_binder_shape};

    ghost shape = { unsafe_binder_shape };

    #[tactic(auto, unfolding(tt_kinds::specs::Shape::fill))]
    fn visit_with<V: TypeVisitor>(
        &self,
        cx: &Interner,
        visitor: &mut V,
    ) -> ControlFlow<V::Break, ()> {
        let parts = Parts::one(self.skip_binder().child());
        visit_under(cx, visitor, self.bound_vars(), parts)
    }
}
