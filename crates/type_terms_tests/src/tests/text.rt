//! The texts of terms, lists and records: each type's `print` and `to_text` once.

use super::holds_anew;
use test_terms::{
    NOT_OWNED, args, bound_region, clause, clauses, constant, consts, existential, param_ty,
    pattern, predicate, ref_ty, tuple, two_existentials, two_patterns, ty, tys, u32_ty,
};
use type_terms::{
    AdtId, AliasTerm, AliasTy, AliasTyKind, Binder, BoundConstness, BoundRegionKind, BoundTyKind,
    BoundVarKinds, BoundVariableKind, ClauseKind, Const, ConstKind, ExistentialPredicate,
    ExistentialProjection, ExistentialTraitRef, ExternAbi, FnHeader, FnSig, FnSigKind, FnSigTys,
    GenericArg, GenericArgs, HostEffectPredicate, InferTy, InternedKind, Interner, IrPrint,
    Mutability, OutlivesPredicate, Owned, ParamEnv, PatternKind, PredicateKind,
    ProjectionPredicate, Refusal, Region, RegionKind, Safety, ScalarInt, SubtypePredicate, Term,
    TraitAssocTyId, TraitId, TraitPredicate, TraitRef, Ty, TyKind, TyVid, UintTy, ValTree,
    ValTreeKind, ValueConst,
};

// Returns whether the value's text is this one, after what was written before and by itself.
fn reads<T: IrPrint + Owned>(cx: &Interner, value: &T, wanted: &str) -> Result<bool, Refusal> {
    if value.is_owned(cx) {
        let mut out = String::from_str(cx.allocator(), "= ")?;
        value.print(cx, &mut out)?;
        let text = value.to_text(cx)?;
        Ok(out.as_str().strip_prefix("= ") == Some(wanted) && text.as_str() == wanted)
    } else {
        Err(NOT_OWNED)
    }
}

// Returns the number, of the type `usize`.
fn number(cx: &mut Interner, bits: u128) -> Result<Const, Refusal> {
    let ty = ty(cx, TyKind::Uint(UintTy::Usize))?;
    let leaf = ValTreeKind::Leaf(ScalarInt { bits, size: 8 });
    let valtree = ValTree::from(leaf);
    constant(cx, ConstKind::Value(ValueConst { ty, valtree }))
}

// Returns a trait and its associated type.
fn iterator(cx: &mut Interner) -> Result<(TraitId, TraitAssocTyId), Refusal> {
    let name = cx.symbol("Iterator")?;
    let of_trait = cx.declare_trait(name, 1)?;
    let name = cx.symbol("Item")?;
    let item = cx.declare_assoc_ty(name, of_trait)?;
    Ok((of_trait, item))
}

// Returns a binder's list of regions with each name, types without a name and with one, and a constant.
fn several_vars(cx: &mut Interner) -> Result<BoundVarKinds, Refusal> {
    let name = cx.symbol("U")?;
    let id = cx.declare_param(name)?;
    let printed = cx.symbol("'b")?;
    cx.mk_bound_vars(&[
        BoundVariableKind::Region(BoundRegionKind::Anon),
        BoundVariableKind::Region(BoundRegionKind::NamedForPrinting(printed)),
        BoundVariableKind::Region(BoundRegionKind::Named(id)),
        BoundVariableKind::Region(BoundRegionKind::ClosureEnv),
        BoundVariableKind::Ty(BoundTyKind::Anon),
        BoundVariableKind::Ty(BoundTyKind::Param(id)),
        BoundVariableKind::Const,
    ])
}

// Types, constants, patterns and regions, and the values that are one of these.
fn terms_hold(cx: &mut Interner) -> Result<bool, Refusal> {
    let param = param_ty(cx, 0)?;
    let pair = tuple(cx, &[param, param])?;
    let near = bound_region(0)?;
    let inner = ref_ty(cx, near, param)?;
    let inputs_and_output = tys(cx, &[inner, pair])?;
    let vars = several_vars(cx)?;
    let signature = Binder::bind_with_vars(FnSigTys { inputs_and_output }, vars);
    let fn_sig_kind = FnSigKind::new(ExternAbi::C { unwind: false }, Safety::Unsafe, true);
    let pointer = ty(cx, TyKind::FnPtr(signature, FnHeader { fn_sig_kind }))?;
    let start = number(cx, 1)?;
    let end = number(cx, 90)?;
    let range = pattern(cx, PatternKind::Range { start, end })?;
    let fixed = Region::new(RegionKind::ReStatic)?;
    let text =
        "for<'^0, '^1 'b, '^2 U, '^3 '{env}, ^4, ^5 U, ^6c> unsafe extern \"C\" fn(&'^0.0 T, ...) -> (T, T)";
    Ok(
        reads(cx, &pointer, text)?
            && reads(cx, &start, "1:8_usize")?
            && reads(cx, &range, "1:8_usize..=90:8_usize")?
            && reads(cx, &fixed, "'static")?
            && reads(cx, &GenericArg::from(fixed), "'static")?
            && reads(cx, &Term::from(param), "T")?,
    )
}

// Predicates, clauses and existential predicates, and their kinds.
fn predicates_hold(cx: &mut Interner) -> Result<bool, Refusal> {
    let a = param_ty(cx, 0)?;
    let b = u32_ty(cx)?;
    let fixed = Region::new(RegionKind::ReStatic)?;
    let outlives = ClauseKind::TypeOutlives(OutlivesPredicate(a, fixed));
    let of_clause = predicate(
        cx,
        PredicateKind::Clause(outlives),
        BoundVarKinds::default(),
    )?;
    let clause = clause(cx, of_clause)?;
    let a_is_expected = true;
    let subtype = PredicateKind::Subtype(SubtypePredicate {
        a_is_expected,
        a,
        b,
    });
    let (of_trait, item) = iterator(cx)?;
    let args = args(cx, &[])?;
    let projection = ExistentialPredicate::Projection(ExistentialProjection {
        def_id: item.into(),
        args,
        term: Term::from(b),
    });
    let auto_trait = ExistentialPredicate::AutoTrait(of_trait);
    let bound = existential(cx, auto_trait, BoundVarKinds::default())?;
    Ok(
        reads(cx, &of_clause, "T: 'static")?
            && reads(cx, &clause, "T: 'static")?
            && reads(cx, &bound, "Iterator")?
            && reads(cx, &outlives, "T: 'static")?
            && reads(
                cx,
                &subtype,
                "SubtypePredicate(a_is_expected: true, T, u32)",
            )?
            && reads(cx, &projection, "Iterator::Item = u32")?,
    )
}

// Lists.
fn lists_hold(cx: &mut Interner) -> Result<bool, Refusal> {
    let param = param_ty(cx, 0)?;
    let types = tys(cx, &[param, param])?;
    let one = number(cx, 1)?;
    let constants = consts(cx, &[one])?;
    let both = args(cx, &[GenericArg::from(param), GenericArg::from(one)])?;
    let not_null = pattern(cx, PatternKind::NotNull)?;
    let patterns = two_patterns(cx, not_null, not_null)?;
    let (def_id, _) = iterator(cx)?;
    let args = args(cx, &[])?;
    let of_trait = ExistentialPredicate::Trait(ExistentialTraitRef { def_id, args });
    let bound = existential(cx, of_trait, BoundVarKinds::default())?;
    let bounds = two_existentials(cx, bound, bound)?;
    Ok(
        reads(cx, &types, "[T, T]")?
            && reads(cx, &constants, "[1:8_usize]")?
            && reads(cx, &both, "[T, 1:8_usize]")?
            && reads(cx, &patterns, "[!null, !null]")?
            && reads(cx, &bounds, "[Iterator, Iterator]")?
            && reads(cx, &args, "[]")?,
    )
}

// Returns an environment of one clause twice.
fn environment(cx: &mut Interner, trait_ref: TraitRef) -> Result<ParamEnv, Refusal> {
    let kind = PredicateKind::Clause(ClauseKind::Trait(TraitPredicate { trait_ref }));
    let predicate = predicate(cx, kind, BoundVarKinds::default())?;
    let clause = clause(cx, predicate)?;
    let caller_bounds = clauses(cx, &[clause, clause])?;
    Ok(ParamEnv { caller_bounds })
}

// Returns the struct of this number with the arguments.
fn struct_of(cx: &mut Interner, number: u32, args: GenericArgs) -> Result<Ty, Refusal> {
    ty(cx, TyKind::Adt(AdtId::from_number(number), args))
}

// Records and values under a binder, and declarations that belong to another one or that there aren't.
fn records_hold(cx: &mut Interner) -> Result<bool, Refusal> {
    let (of_trait, item) = iterator(cx)?;
    let param = param_ty(cx, 0)?;
    let inputs_and_output = tys(cx, &[param, param])?;
    let fn_sig_kind = FnSigKind::new(ExternAbi::Rust, Safety::Safe, false);
    let args = args(cx, &[GenericArg::from(param)])?;
    let trait_ref = TraitRef {
        def_id: of_trait,
        args,
    };
    let alias = AliasTerm {
        def_id: item.into(),
        args,
    };
    let kind = AliasTyKind::Projection { def_id: item };
    let vars = several_vars(cx)?;
    let env = environment(cx, trait_ref)?;
    let unknown = struct_of(cx, 12, args)?;
    Ok(
        reads(cx, &trait_ref, "Iterator<T>")?
            && reads(cx, &alias, "Iterator::Item<T>")?
            && reads(cx, &AliasTy { args, kind }, "Iterator::Item<T>")?
            && reads(
                cx,
                &FnSig {
                    inputs_and_output,
                    fn_sig_kind,
                },
                "fn(T) -> T",
            )?
            && reads(
                cx,
                &Binder::bind_with_vars(trait_ref, vars),
                "for<'^0, '^1 'b, '^2 U, '^3 '{env}, ^4, ^5 U, ^6c> Iterator<T>",
            )?
            && reads(cx, &env, "ParamEnv([T: Iterator, T: Iterator])")?
            && reads(cx, &env.caller_bounds, "[T: Iterator, T: Iterator]")?
            && reads(cx, &unknown, "#12<T>")?,
    )
}

// Predicates of clauses by themselves.
fn bounds_hold(cx: &mut Interner) -> Result<bool, Refusal> {
    let (def_id, item) = iterator(cx)?;
    let param = param_ty(cx, 0)?;
    let b = u32_ty(cx)?;
    let fixed = Region::new(RegionKind::ReStatic)?;
    let constant = number(cx, 4)?;
    let one = args(cx, &[GenericArg::from(param)])?;
    let three = args(
        cx,
        &[
            GenericArg::from(param),
            GenericArg::from(fixed),
            GenericArg::from(constant),
        ],
    )?;
    let none = args(cx, &[])?;
    let trait_ref = TraitRef {
        def_id,
        args: three,
    };
    let constness = BoundConstness::Maybe;
    let projection = ProjectionPredicate {
        projection_term: AliasTerm {
            def_id: item.into(),
            args: one,
        },
        term: Term::from(b),
    };
    Ok(
        reads(
            cx,
            &TraitPredicate { trait_ref },
            "T: Iterator<'static, 4:8_usize>",
        )? && reads(
            cx,
            &TraitPredicate {
                trait_ref: TraitRef { def_id, args: one },
            },
            "T: Iterator",
        )? && reads(
            cx,
            &TraitPredicate {
                trait_ref: TraitRef { def_id, args: none },
            },
            ": Iterator",
        )? && reads(
            cx,
            &HostEffectPredicate {
                trait_ref,
                constness,
            },
            "T: [const] Iterator<'static, 4:8_usize>",
        )? && reads(cx, &projection, "Iterator::Item<T> == u32")?
            && reads(cx, &OutlivesPredicate(param, fixed), "T: 'static")?
            && reads(cx, &OutlivesPredicate(fixed, fixed), "'static: 'static")?,
    )
}

// Kinds by themselves.
fn kinds_hold(cx: &mut Interner) -> Result<bool, Refusal> {
    let param = param_ty(cx, 0)?;
    let four = number(cx, 4)?;
    let pointer = TyKind::RawPtr(param, Mutability::Mut);
    let infer = TyKind::Infer(InferTy::TyVar(TyVid::from_u32(0)));
    let range = PatternKind::Range {
        start: four,
        end: four,
    };
    Ok(
        reads(cx, param.kind(cx), "T")?
            && reads(cx, &pointer, "*mut T")?
            && reads(cx, &infer, "?0t")?
            && reads(cx, four.kind(cx), "4:8_usize")?
            && reads(cx, &range, "4:8_usize..=4:8_usize")?,
    )
}

fn texts_hold(cx: &mut Interner) -> Result<bool, Refusal> {
    Ok(
        terms_hold(cx)?
            && predicates_hold(cx)?
            && bounds_hold(cx)?
            && kinds_hold(cx)?
            && lists_hold(cx)?
            && records_hold(cx)?,
    )
}

#[test]
fn texts(rt: HostRuntime) {
    holds_anew(&rt, rt.alloc(), texts_hold);
}
