//! Laws of `==` on records and kinds. The functions do nothing: each contract is a law.

ghost use Rattle.tt_index.specs.Equality.{IsSameness};

use crate::alias::{AliasTerm, AliasTy, AliasTyKind};
use crate::binder::{Binder, EarlyBinder, Unnormalized};
use crate::bound::{
    BoundConst, BoundRegion, BoundRegionKind, BoundTy, BoundTyKind, BoundVarIndexKind,
    BoundVariableKind,
};
use crate::const_kind::{
    AnonConstKind, ConstKind, ExprConst, InferConst, ParamConst, ScalarInt, UnevaluatedConst,
    ValTree, ValTreeKind, ValueConst,
};
use crate::declaration::{Declaration, DeclarationKind, DeclarationSort};
use crate::error_guaranteed::ErrorGuaranteed;
use crate::existential::{ExistentialPredicate, ExistentialProjection, ExistentialTraitRef};
use crate::field::FieldInfo;
use crate::fn_sig::{CoroutineWitnessTypes, FnHeader, FnSig, FnSigKind, FnSigTys};
use crate::generic_arg::{GenericArg, GenericArgKind};
use crate::handle::{AnyHandle, Handle};
use crate::id::{DefId, Id};
use crate::parts::{Child, Kind, Parts};
use crate::pattern::PatternKind;
use crate::placeholder::Placeholder;
use crate::predicate::{
    BoundConstness, CoercePredicate, HostEffectPredicate, NormalizesTo, OutlivesPredicate,
    ParamEnv, ProjectionPredicate, SubtypePredicate, TraitPredicate, TraitRef,
};
use crate::predicate_kind::{AliasRelationDirection, ClauseKind, PredicateKind};
use crate::region_kind::{EarlyParamRegion, LateParamRegion, Region, RegionKind};
use crate::table::{Table, TermTable};
use crate::term::{Term, TermKind};
use crate::ty_kind::{
    FloatVarValue, InferTy, IntVarValue, ParamTy, TyKind, TypeAndMut, UnsafeBinderInner,
};
use crate::variant::FieldDef;
use crate::view::{FnInputTys, GenericArgsSlice};

/// `==` holds for two records of one type exactly if they are the same; a record that holds a `T` has this property if
/// `T` has it. `M` is the mark of a handle or an id.
pub fn equal_records_are_same<T: PartialEq, M>()
    ensures alias_term { IsSameness ⟦<AliasTerm as PartialEq>⟧.eq }
    ensures alias_ty { IsSameness ⟦<AliasTy as PartialEq>⟧.eq }
    ensures binder { IsSameness T.eq → IsSameness ⟦<Binder<T> as PartialEq>⟧.eq }
    ensures early_binder { IsSameness T.eq → IsSameness ⟦<EarlyBinder<T> as PartialEq>⟧.eq }
    ensures unnormalized { IsSameness T.eq → IsSameness ⟦<Unnormalized<T> as PartialEq>⟧.eq }
    ensures bound_const { IsSameness ⟦<BoundConst as PartialEq>⟧.eq }
    ensures bound_region { IsSameness ⟦<BoundRegion as PartialEq>⟧.eq }
    ensures bound_ty { IsSameness ⟦<BoundTy as PartialEq>⟧.eq }
    ensures expr_const { IsSameness ⟦<ExprConst as PartialEq>⟧.eq }
    ensures param_const { IsSameness ⟦<ParamConst as PartialEq>⟧.eq }
    ensures scalar_int { IsSameness ⟦<ScalarInt as PartialEq>⟧.eq }
    ensures unevaluated_const { IsSameness ⟦<UnevaluatedConst as PartialEq>⟧.eq }
    ensures val_tree { IsSameness ⟦<ValTree as PartialEq>⟧.eq }
    ensures value_const { IsSameness ⟦<ValueConst as PartialEq>⟧.eq }
    ensures declaration { IsSameness ⟦<Declaration as PartialEq>⟧.eq }
    ensures error_guaranteed { IsSameness ⟦<ErrorGuaranteed as PartialEq>⟧.eq }
    ensures existential_projection { IsSameness ⟦<ExistentialProjection as PartialEq>⟧.eq }
    ensures existential_trait_ref { IsSameness ⟦<ExistentialTraitRef as PartialEq>⟧.eq }
    ensures field_def { IsSameness ⟦<FieldDef as PartialEq>⟧.eq }
    ensures field_info { IsSameness ⟦<FieldInfo as PartialEq>⟧.eq }
    ensures coroutine_witness_types { IsSameness ⟦<CoroutineWitnessTypes as PartialEq>⟧.eq }
    ensures fn_header { IsSameness ⟦<FnHeader as PartialEq>⟧.eq }
    ensures fn_sig { IsSameness ⟦<FnSig as PartialEq>⟧.eq }
    ensures fn_sig_kind { IsSameness ⟦<FnSigKind as PartialEq>⟧.eq }
    ensures fn_sig_tys { IsSameness ⟦<FnSigTys as PartialEq>⟧.eq }
    ensures generic_arg { IsSameness ⟦<GenericArg as PartialEq>⟧.eq }
    ensures handle { IsSameness ⟦<Handle<M> as PartialEq>⟧.eq }
    ensures def_id { IsSameness ⟦<DefId as PartialEq>⟧.eq }
    ensures id { IsSameness ⟦<Id<M> as PartialEq>⟧.eq }
    ensures any_handle { IsSameness ⟦<AnyHandle as PartialEq>⟧.eq }
    ensures placeholder { IsSameness T.eq → IsSameness ⟦<Placeholder<T> as PartialEq>⟧.eq }
    ensures coerce_predicate { IsSameness ⟦<CoercePredicate as PartialEq>⟧.eq }
    ensures host_effect_predicate { IsSameness ⟦<HostEffectPredicate as PartialEq>⟧.eq }
    ensures normalizes_to { IsSameness ⟦<NormalizesTo as PartialEq>⟧.eq }
    ensures outlives_predicate { IsSameness T.eq → IsSameness ⟦<OutlivesPredicate<T> as PartialEq>⟧.eq }
    ensures param_env { IsSameness ⟦<ParamEnv as PartialEq>⟧.eq }
    ensures projection_predicate { IsSameness ⟦<ProjectionPredicate as PartialEq>⟧.eq }
    ensures subtype_predicate { IsSameness ⟦<SubtypePredicate as PartialEq>⟧.eq }
    ensures trait_predicate { IsSameness ⟦<TraitPredicate as PartialEq>⟧.eq }
    ensures trait_ref { IsSameness ⟦<TraitRef as PartialEq>⟧.eq }
    ensures early_param_region { IsSameness ⟦<EarlyParamRegion as PartialEq>⟧.eq }
    ensures late_param_region { IsSameness ⟦<LateParamRegion as PartialEq>⟧.eq }
    ensures region { IsSameness ⟦<Region as PartialEq>⟧.eq }
    ensures term { IsSameness ⟦<Term as PartialEq>⟧.eq }
    ensures param_ty { IsSameness ⟦<ParamTy as PartialEq>⟧.eq }
    ensures type_and_mut { IsSameness ⟦<TypeAndMut as PartialEq>⟧.eq }
    ensures unsafe_binder_inner { IsSameness ⟦<UnsafeBinderInner as PartialEq>⟧.eq }
    ensures fn_input_tys { IsSameness ⟦<FnInputTys as PartialEq>⟧.eq }
    ensures generic_args_slice { IsSameness ⟦<GenericArgsSlice as PartialEq>⟧.eq }
    ensures parts { IsSameness ⟦<Parts as PartialEq>⟧.eq }
{}

/// `==` holds for two kinds of one type exactly if they are the same.
pub fn equal_kinds_are_same()
    ensures alias_ty_kind { IsSameness ⟦<AliasTyKind as PartialEq>⟧.eq }
    ensures bound_region_kind { IsSameness ⟦<BoundRegionKind as PartialEq>⟧.eq }
    ensures bound_ty_kind { IsSameness ⟦<BoundTyKind as PartialEq>⟧.eq }
    ensures bound_var_index_kind { IsSameness ⟦<BoundVarIndexKind as PartialEq>⟧.eq }
    ensures bound_variable_kind { IsSameness ⟦<BoundVariableKind as PartialEq>⟧.eq }
    ensures anon_const_kind { IsSameness ⟦<AnonConstKind as PartialEq>⟧.eq }
    ensures const_kind { IsSameness ⟦<ConstKind as PartialEq>⟧.eq }
    ensures infer_const { IsSameness ⟦<InferConst as PartialEq>⟧.eq }
    ensures val_tree_kind { IsSameness ⟦<ValTreeKind as PartialEq>⟧.eq }
    ensures declaration_kind { IsSameness ⟦<DeclarationKind as PartialEq>⟧.eq }
    ensures declaration_sort { IsSameness ⟦<DeclarationSort as PartialEq>⟧.eq }
    ensures existential_predicate { IsSameness ⟦<ExistentialPredicate as PartialEq>⟧.eq }
    ensures generic_arg_kind { IsSameness ⟦<GenericArgKind as PartialEq>⟧.eq }
    ensures child { IsSameness ⟦<Child as PartialEq>⟧.eq }
    ensures kind { IsSameness ⟦<Kind as PartialEq>⟧.eq }
    ensures pattern_kind { IsSameness ⟦<PatternKind as PartialEq>⟧.eq }
    ensures bound_constness { IsSameness ⟦<BoundConstness as PartialEq>⟧.eq }
    ensures alias_relation_direction { IsSameness ⟦<AliasRelationDirection as PartialEq>⟧.eq }
    ensures clause_kind { IsSameness ⟦<ClauseKind as PartialEq>⟧.eq }
    ensures predicate_kind { IsSameness ⟦<PredicateKind as PartialEq>⟧.eq }
    ensures region_kind { IsSameness ⟦<RegionKind as PartialEq>⟧.eq }
    ensures term_table { IsSameness ⟦<TermTable as PartialEq>⟧.eq }
    ensures table { IsSameness ⟦<Table as PartialEq>⟧.eq }
    ensures term_kind { IsSameness ⟦<TermKind as PartialEq>⟧.eq }
    ensures float_var_value { IsSameness ⟦<FloatVarValue as PartialEq>⟧.eq }
    ensures infer_ty { IsSameness ⟦<InferTy as PartialEq>⟧.eq }
    ensures int_var_value { IsSameness ⟦<IntVarValue as PartialEq>⟧.eq }
    ensures ty_kind { IsSameness ⟦<TyKind as PartialEq>⟧.eq }
{}
