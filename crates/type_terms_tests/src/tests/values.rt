//! The fold of each value that has no row of its own: of records, kinds, lists, clauses and data.
//!
//! The copy of a value is moved into one more binder, and has to be equal to the value that is built from variables of the
//! next binder. Values are tupled, so that one call copies and folds many.

use super::holds_anew;
use test_terms::{
    args, bound_region, bound_ty, clause, clauses, constant, consts, existential, is_shifted,
    one_region, pattern, predicate, two_existentials, two_patterns, tys,
};
use type_terms::{
    AliasRelationDirection, AliasTerm, AliasTy, AliasTyKind, Binder, BoundConstness,
    BoundExistentialPredicates, BoundVar, BoundVarIndexKind, BoundVarKinds, Clause, ClauseKind,
    Clauses, ClonesTree, ClosureKind, CoercePredicate, Const, ConstKind, ConstVid, Consts,
    CoroutineWitnessTypes, DebruijnIndex, DefId, ErrorGuaranteed, ExistentialPredicate,
    ExistentialProjection, ExistentialTraitRef, ExprConst, ExternAbi, FieldIdx, FloatTy, FloatVid,
    FnSig, FnSigKind, FnSigTys, GenericArg, GenericArgKind, GenericArgs, HostEffectPredicate,
    IntTy, IntVid, Interner, Mutability, NormalizesTo, OpaqueTyId, OutlivesPredicate, Owned,
    ParamEnv, Pat, PatList, PatternKind, PlaceholderConst, PlaceholderRegion, PlaceholderType,
    PolyExistentialPredicate, PredicateKind, ProjectionPredicate, Refusal, Region,
    RegionAssumptions, RegionVid, Safety, SubtypePredicate, Term, TermKind, TraitId,
    TraitPredicate, TraitRef, Ty, TyKind, TyVid, TypeAndMut, TypeFoldable, Tys, UintTy,
    UnevaluatedConst, UnevaluatedConstId, UniverseIndex, UnsafeBinderInner, ValTree, ValTreeKind,
    ValueConst, Variance, VariantIdx,
};

// Parts of values, with variables of a binder and of the next one further out.
#[derive(Clone, Copy)]
struct Leaves {
    near: Ty,
    far: Ty,
    region: Region,
    args: GenericArgs,
    types: Tys,
    length: Const,
    lengths: Consts,
    vars: BoundVarKinds,
}

// Returns the parts with variables of the binder of this index.
fn leaves_at(cx: &mut Interner, binder: u32) -> Result<Leaves, Refusal> {
    let near = bound_ty(cx, binder)?;
    let far = bound_ty(cx, binder.saturating_add(1))?;
    let region = bound_region(binder)?;
    let args = args(cx, &[GenericArg::from(far), GenericArg::from(region)])?;
    let types = tys(cx, &[far, near])?;
    let length = constant(cx, ConstKind::Expr(ExprConst { tag: 5, args }))?;
    let lengths = consts(cx, &[length])?;
    let vars = one_region(cx)?;
    Ok(Leaves {
        near,
        far,
        region,
        args,
        types,
        length,
        lengths,
        vars,
    })
}

// Returns whether a copy of the value, moved into one more binder, is the other value.
fn is_moved<T: Owned + TypeFoldable + ClonesTree + PartialEq>(
    cx: &mut Interner,
    value: T,
    moved: T,
) -> bool {
    match value.clone() {
        Ok(copy) => is_shifted(cx, copy, 1, moved),
        Err(_) => false,
    }
}

// Returns a trait with its arguments.
fn trait_ref(args: GenericArgs) -> TraitRef {
    TraitRef {
        def_id: TraitId::from_number(4),
        args,
    }
}

// Returns the alias of a type or a constant.
fn alias_term(args: GenericArgs) -> AliasTerm {
    AliasTerm {
        args,
        def_id: DefId::from_number(4),
    }
}

// Returns the value of an associated item of a hidden type.
fn existential_projection(args: GenericArgs, length: Const) -> ExistentialProjection {
    ExistentialProjection {
        def_id: DefId::from_number(4),
        args,
        term: Term::from(length),
    }
}

// Returns the records of a trait, or of an alias, with arguments.
fn aliases(
    parts: Leaves,
) -> (
    (TraitRef, AliasTy, AliasTerm),
    (ExistentialTraitRef, ExistentialProjection),
) {
    let def_id = OpaqueTyId::from_number(4);
    let alias = AliasTy {
        args: parts.args,
        kind: AliasTyKind::Opaque { def_id },
    };
    let existential = ExistentialTraitRef {
        def_id: TraitId::from_number(4),
        args: parts.args,
    };
    (
        (trait_ref(parts.args), alias, alias_term(parts.args)),
        (
            existential,
            existential_projection(parts.args, parts.length),
        ),
    )
}

// Returns the records of types.
fn signatures(
    parts: Leaves,
) -> (
    (FnSigTys, FnSig, CoroutineWitnessTypes),
    (TypeAndMut, UnsafeBinderInner),
) {
    let inputs_and_output = parts.types;
    let signature = FnSig {
        inputs_and_output,
        fn_sig_kind: FnSigKind::default(),
    };
    let witness = CoroutineWitnessTypes {
        types: parts.types,
        assumptions: RegionAssumptions::default(),
    };
    let pointee = TypeAndMut {
        ty: parts.near,
        mutbl: Mutability::Mut,
    };
    let inner = UnsafeBinderInner::from(Binder::bind_with_vars(parts.near, parts.vars));
    (
        (FnSigTys { inputs_and_output }, signature, witness),
        (pointee, inner),
    )
}

// Returns the records of predicates.
fn predicates(
    parts: Leaves,
) -> (
    (TraitPredicate, HostEffectPredicate, ProjectionPredicate),
    (NormalizesTo, SubtypePredicate, CoercePredicate),
    OutlivesPredicate<Ty>,
) {
    let trait_ref = trait_ref(parts.args);
    let alias = alias_term(parts.args);
    let term = Term::from(parts.near);
    let (a, b) = (parts.near, parts.far);
    let in_constants = HostEffectPredicate {
        trait_ref,
        constness: BoundConstness::Const,
    };
    let projection = ProjectionPredicate {
        projection_term: alias,
        term,
    };
    let subtype = SubtypePredicate {
        a_is_expected: true,
        a,
        b,
    };
    (
        (TraitPredicate { trait_ref }, in_constants, projection),
        (
            NormalizesTo { alias, term },
            subtype,
            CoercePredicate { a, b },
        ),
        OutlivesPredicate(b, parts.region),
    )
}

// Returns the contents of constants.
fn constants(parts: Leaves) -> ((UnevaluatedConst, ExprConst), (ValueConst, ValTree)) {
    let valtree = ValTree::from(ValTreeKind::Branch(parts.lengths));
    let unevaluated = UnevaluatedConst::new(UnevaluatedConstId::from_number(4), parts.args);
    let expression = ExprConst {
        tag: 5,
        args: parts.args,
    };
    let value = ValueConst {
        ty: parts.near,
        valtree,
    };
    ((unevaluated, expression), (value, valtree))
}

// Returns kinds that are not stored, and the kinds of an argument and of a term.
fn kinds(
    parts: Leaves,
) -> (
    (ClauseKind, PredicateKind, ExistentialPredicate),
    (TyKind, ConstKind, PatternKind),
    (GenericArgKind, TermKind, Term),
) {
    let projection = existential_projection(parts.args, parts.length);
    let (start, end) = (parts.length, parts.length);
    let outlives = OutlivesPredicate(parts.far, parts.region);
    let coercion = CoercePredicate {
        a: parts.near,
        b: parts.far,
    };
    (
        (
            ClauseKind::TypeOutlives(outlives),
            PredicateKind::Coerce(coercion),
            ExistentialPredicate::Projection(projection),
        ),
        (
            TyKind::Tuple(parts.types),
            ConstKind::Expr(ExprConst {
                tag: 5,
                args: parts.args,
            }),
            PatternKind::Range { start, end },
        ),
        (
            GenericArgKind::Lifetime(parts.region),
            TermKind::Ty(parts.near),
            Term::from(parts.length),
        ),
    )
}

// Returns the options and results of a type or a region.
fn options(parts: Leaves) -> (Option<Ty>, Result<Ty, Region>, Result<Ty, Region>) {
    (Some(parts.near), Ok(parts.near), Err(parts.region))
}

// Records of aliases, signatures, predicates and constants, kinds that are not stored, options and results.
fn records_are_moved_holds(cx: &mut Interner) -> Result<bool, Refusal> {
    // Without a name for these types here, the prover doesn't find their modules.
    let _index: Option<BoundVarIndexKind> = None;
    let _variable: Option<type_terms::InferTy> = None;
    let _constant: Option<type_terms::InferConst> = None;
    let old = leaves_at(cx, 1)?;
    let new = leaves_at(cx, 2)?;
    Ok(
        is_moved(cx, aliases(old), aliases(new))
            && is_moved(cx, signatures(old), signatures(new))
            && is_moved(cx, predicates(old), predicates(new))
            && is_moved(cx, constants(old), constants(new))
            && is_moved(cx, kinds(old), kinds(new))
            && is_moved(cx, options(old), options(new)),
    )
}

#[test]
fn records_are_moved(rt: HostRuntime) {
    holds_anew(&rt, rt.alloc(), records_are_moved_holds);
}

// Returns the pattern of a range, and a list of it.
fn patterns(cx: &mut Interner, parts: Leaves) -> Result<(Pat, PatList), Refusal> {
    let range = PatternKind::Range {
        start: parts.length,
        end: parts.length,
    };
    let range = pattern(cx, range)?;
    let list = two_patterns(cx, range, range)?;
    Ok((range, list))
}

// Returns a stored existential predicate, and a list of it.
fn existentials(
    cx: &mut Interner,
    parts: Leaves,
) -> Result<(PolyExistentialPredicate, BoundExistentialPredicates), Refusal> {
    let kind = ExistentialPredicate::Projection(existential_projection(parts.args, parts.length));
    let stored = existential(cx, kind, parts.vars)?;
    let list = two_existentials(cx, stored, stored)?;
    Ok((stored, list))
}

// Returns the clause that a type outlives a region, under a binder.
fn outlives(cx: &mut Interner, parts: Leaves) -> Result<Clause, Refusal> {
    let kind = ClauseKind::TypeOutlives(OutlivesPredicate(parts.far, parts.region));
    let stored = predicate(cx, PredicateKind::Clause(kind), parts.vars)?;
    clause(cx, stored)
}

// Returns a clause by itself, in a vector, and under one more binder.
fn around_clause(
    cx: &Interner,
    item: Clause,
    vars: BoundVarKinds,
) -> Result<(Clause, Vec<Clause>, Binder<Clause>), Refusal> {
    let items = vec![in cx.allocator(); item, item]?;
    Ok((item, items, Binder::bind_with_vars(item, vars)))
}

// Returns the list of a clause and its environment.
fn environment(cx: &mut Interner, item: Clause) -> Result<(Clauses, ParamEnv), Refusal> {
    let caller_bounds = clauses(cx, &[item])?;
    Ok((caller_bounds, ParamEnv { caller_bounds }))
}

// Stored patterns, constants and existential predicates, and lists of them.
fn handles_are_moved_holds(cx: &mut Interner) -> Result<bool, Refusal> {
    let old = leaves_at(cx, 1)?;
    let new = leaves_at(cx, 2)?;
    let old_patterns = patterns(cx, old)?;
    let new_patterns = patterns(cx, new)?;
    let old_existentials = existentials(cx, old)?;
    let new_existentials = existentials(cx, new)?;
    Ok(
        is_moved(cx, (old_patterns, old.lengths), (new_patterns, new.lengths))
            && is_moved(cx, old_existentials, new_existentials),
    )
}

#[test]
fn handles_are_moved(rt: HostRuntime) {
    holds_anew(&rt, rt.alloc(), handles_are_moved_holds);
}

// A clause by itself, in a vector, under one more binder, in a list, and in an environment.
fn clauses_are_moved_holds(cx: &mut Interner) -> Result<bool, Refusal> {
    let old = leaves_at(cx, 2)?;
    let new = leaves_at(cx, 3)?;
    let old_clause = outlives(cx, old)?;
    let new_clause = outlives(cx, new)?;
    let old_around = around_clause(cx, old_clause, old.vars)?;
    let new_around = around_clause(cx, new_clause, new.vars)?;
    let old_environment = environment(cx, old_clause)?;
    let new_environment = environment(cx, new_clause)?;
    Ok(is_moved(cx, old_around, new_around) && is_moved(cx, old_environment, new_environment))
}

#[test]
fn clauses_are_moved(rt: HostRuntime) {
    holds_anew(&rt, rt.alloc(), clauses_are_moved_holds);
}

// Returns numbers.
fn numbers() -> ((bool, u16, u32), (u64, usize, ())) {
    ((true, 0xffff, 7), (7, 7, ()))
}

// Returns tags.
fn tags() -> (
    (Mutability, Safety, Variance),
    (ClosureKind, ExternAbi, AliasRelationDirection),
    (IntTy, UintTy, FloatTy),
) {
    (
        (Mutability::Mut, Safety::Unsafe, Variance::Bivariant),
        (
            ClosureKind::FnOnce,
            ExternAbi::C { unwind: true },
            AliasRelationDirection::Subtype,
        ),
        (IntTy::I128, UintTy::Usize, FloatTy::F16),
    )
}

// Returns indices.
fn indices() -> (
    (UniverseIndex, BoundVar, DebruijnIndex),
    (RegionVid, TyVid, ConstVid),
    ((IntVid, FloatVid), (FieldIdx, VariantIdx)),
) {
    (
        (
            UniverseIndex::from_u32(2),
            BoundVar::from_u32(1),
            DebruijnIndex::from_u32(3),
        ),
        (
            RegionVid::from_u32(7),
            TyVid::from_u32(7),
            ConstVid::from_u32(7),
        ),
        (
            (IntVid::from_u32(7), FloatVid::from_u32(7)),
            (FieldIdx::from_u32(7), VariantIdx::from_u32(7)),
        ),
    )
}

// Returns an index of a bound variable, placeholders and the token of an error, each by itself.
fn tokens() -> (
    (BoundVarIndexKind, ErrorGuaranteed),
    (PlaceholderRegion, PlaceholderType, PlaceholderConst),
) {
    let index = BoundVarIndexKind::Bound(DebruijnIndex::from_u32(3));
    let universe = UniverseIndex::from_u32(2);
    let var = BoundVar::from_u32(1);
    (
        (index, ErrorGuaranteed(7)),
        (
            PlaceholderRegion::new_anon(universe, var),
            PlaceholderType::new_anon(universe, var),
            PlaceholderConst::new_anon(universe, var),
        ),
    )
}

// Data beside a type stay as they are: an index by itself is no variable.
fn data_stay_holds(cx: &mut Interner) -> Result<bool, Refusal> {
    let near = bound_ty(cx, 1)?;
    let far = bound_ty(cx, 2)?;
    Ok(
        is_moved(cx, (numbers(), near), (numbers(), far))
            && is_moved(cx, (tags(), near), (tags(), far))
            && is_moved(cx, (indices(), near), (indices(), far))
            && is_moved(cx, (tokens(), near), (tokens(), far)),
    )
}

#[test]
fn data_stay(rt: HostRuntime) {
    holds_anew(&rt, rt.alloc(), data_stay_holds);
}
