//! Calls that only read, each at a value or two. None of them takes memory, and their contracts give their results.

use super::holds_anew;
use test_terms::{
    NOT_OWNED, args, bound_ty, clause, clauses, constant, info, one_region, predicate, ty, tys,
    u32_ty,
};
use type_terms::{
    AliasOfId, AliasTy, AliasTyKind, AsPredicate, Binder, BoundRegionKind, BoundVar, BoundVarKinds,
    BoundVariableKind, Clause, ClauseKind, ConstBounds, ConstKind, ConstTyFault, EarlyBinder,
    ErrorGuaranteed, FindConstTy, FlagComputation, FnHeader, FnInputTys, FnSig, FnSigTys, ForKind,
    FunctionId, GenericArg, GenericArgsSlice, InternedAlias, InternedKind, InternedList,
    InternedText, InternedView, Interner, Owned, ParamEnv, PlaceholderConst, PredicateKind,
    Refusal, Region, Safety, SignatureTys, SliceLike, Term, TyKind, TypeVisitableExt, UintTy,
    UniverseIndex,
};

// The inputs are the types but the last, and the arguments of a slice the ones at its places: a variable escapes from
// what isn't there alone.
fn views_holds(cx: &mut Interner) -> Result<bool, Refusal> {
    let number = u32_ty(cx)?;
    let variable = bound_ty(cx, 0)?;
    let inputs = FnInputTys::from_parts(tys(cx, &[number, number, variable])?);
    let arg = GenericArg::from(number);
    let list = args(cx, &[arg, arg, GenericArg::from(variable)])?;
    let front = GenericArgsSlice::from_parts(list, 0, 2);
    let past = GenericArgsSlice::from_parts(list, 2, 2);
    if !cx.owns_input_tys(inputs) || !cx.owns_args_slice(front) || !past.is_owned(cx) {
        return Err(NOT_OWNED);
    }
    Ok(
        inputs.as_slice(cx) == [number, number].as_slice()
            && !inputs.has_escaping_bound_vars(cx)
            && front.as_slice(cx) == [arg, arg].as_slice()
            && !front.has_escaping_bound_vars(cx)
            && SliceLike::len(front, cx) == 2
            && SliceLike::get(front, cx, 2) == None
            && !cx.owns_args_slice(past)
            && past.has_escaping_bound_vars(cx),
    )
}

// Returns the clause that the placeholder constant has the type `usize`, under a binder of these variables.
fn typed(
    cx: &mut Interner,
    placeholder: PlaceholderConst,
    vars: BoundVarKinds,
) -> Result<Clause, Refusal> {
    let subject = constant(cx, ConstKind::Placeholder(placeholder))?;
    let usize_ty = ty(cx, TyKind::Uint(UintTy::Usize))?;
    let kind = PredicateKind::Clause(ClauseKind::ConstArgHasType(subject, usize_ty));
    let bound = predicate(cx, kind, vars)?;
    clause(cx, bound)
}

// One clause gives the constant its type, and neither two nor none do.
fn environments_holds(cx: &mut Interner) -> Result<bool, Refusal> {
    let asked = PlaceholderConst::new_anon(UniverseIndex::from_u32(1), BoundVar::from_u32(0));
    let item = typed(cx, asked, BoundVarKinds::default())?;
    let vars = one_region(cx)?;
    let other = typed(cx, asked, vars)?;
    let usize_ty = ty(cx, TyKind::Uint(UintTy::Usize))?;
    let one = clauses(cx, &[item])?;
    let two = clauses(cx, &[item, other])?;
    let none = clauses(cx, &[])?;
    if !cx.owns(one) || !cx.owns(two) || !cx.owns(none) {
        return Err(NOT_OWNED);
    }
    let env = |caller_bounds| ParamEnv { caller_bounds };
    Ok(
        asked.find_const_ty_from_env(cx, env(one)) == Ok(usize_ty)
            && asked.find_const_ty_from_env(cx, env(two)) == Err(ConstTyFault::Duplicate)
            && asked.find_const_ty_from_env(cx, env(none)) == Err(ConstTyFault::Missing)
            && env(two).const_bounds_closed(cx),
    )
}

// What was stored is read back: a type, a clause, a name, and lists.
fn handles_holds(cx: &mut Interner) -> Result<bool, Refusal> {
    let number = u32_ty(cx)?;
    let slice = ty(cx, TyKind::Slice(number))?;
    let kind = ClauseKind::WellFormed(Term::from(number));
    let vars = one_region(cx)?;
    let stored = predicate(cx, PredicateKind::Clause(kind), vars)?;
    let stored = clause(cx, stored)?;
    let list = args(cx, &[GenericArg::from(slice)])?;
    let name = cx.symbol("T")?;
    if !cx.owns(slice) || !cx.owns_clause(stored) || !cx.owns(vars) || !cx.owns(list) {
        return Err(NOT_OWNED);
    }
    Ok(
        *slice.kind(cx) == TyKind::Slice(number)
            && stored.kind(cx) == Binder::bind_with_vars(kind, vars)
            && vars.as_slice(cx).first() == Some(&BoundVariableKind::Region(BoundRegionKind::Anon))
            && list.as_slice(cx).first() == Some(&GenericArg::from(slice))
            && SliceLike::len(list, cx) == 1
            && cx.owns(name)
            && name.as_str(cx) == "T",
    )
}

// Returns a function of this signature.
fn function(cx: &mut Interner, sig: Binder<FnSig>) -> Result<FunctionId, Refusal> {
    if !cx.owns_signature(&sig) {
        return Err(NOT_OWNED);
    }
    let name = cx.symbol("f")?;
    cx.declare_function(name, EarlyBinder::bind(sig))
}

// The signature of a function is read back, with its inputs and its output, and one without types has no output. The
// closure traits call a safe function, and no unsafe one.
fn signatures_holds(cx: &mut Interner) -> Result<bool, Refusal> {
    let (number, variable) = (u32_ty(cx)?, bound_ty(cx, 0)?);
    let types = FnSigTys {
        inputs_and_output: tys(cx, &[number, variable])?,
    };
    let sig = Binder::bind_with_vars(types, one_region(cx)?).with(FnHeader::dummy());
    let id = function(cx, sig)?;
    let dangerous = sig.skip_binder().set_safety(Safety::Unsafe);
    if !cx.owns_function_id(id)
        || !sig.has_output(cx)
        || !sig.has_input(cx, 0)
        || !types.has_output(cx)
        || !types.has_input(cx, 0)
    {
        return Err(NOT_OWNED);
    }
    Ok(
        cx.fn_sig_of(id).skip_binder() == sig
            && sig.output(cx).skip_binder() == variable
            && sig.input(cx, 0).skip_binder() == number
            && types.output(cx) == variable
            && types.input(cx, 0) == number
            && !dangerous.has_input(cx, 1)
            && !FnSig::dummy().has_output(cx)
            && sig.is_fn_trait_compatible()
            && !dangerous.is_fn_trait_compatible(),
    )
}

// The alias that an associated type's declaration is, its trait, and its self type.
fn aliases_holds(cx: &mut Interner) -> Result<bool, Refusal> {
    let number = u32_ty(cx)?;
    let list = args(cx, &[GenericArg::from(number)])?;
    let name = cx.symbol("Item")?;
    let trait_id = cx.declare_trait(name, 1)?;
    let name = cx.symbol("Item")?;
    let item = cx.declare_assoc_ty(name, trait_id)?;
    let kind = AliasTyKind::Projection { def_id: item };
    let alias = AliasTy::new_from_args(kind, list);
    let id = kind.def_id();
    if !cx.owns_trait_assoc_ty_id(item)
        || !cx.owns_def_id(id)
        || !alias.has_self_ty(cx)
        || !alias.has_trait_def_id(cx)
    {
        return Err(NOT_OWNED);
    }
    Ok(
        cx.projection_parent(item) == trait_id
            && cx.alias_kind(id) == Some(kind)
            && AliasTyKind::new_from_def_id(cx, id) == Some(kind)
            && alias.self_ty(cx) == number
            && alias.trait_def_id(cx) == trait_id
            && alias.is_projection()
            && !alias.is_opaque(),
    )
}

// Returns the flags and the outer exclusive binder as numbers.
fn numbers(computed: FlagComputation) -> (u32, u32) {
    (
        computed.flags.bits(),
        computed.outer_exclusive_binder.as_u32(),
    )
}

// The flags of kinds that aren't stored, and the cached ones of a list of clauses, of a binder's variables and of an
// argument.
fn flags_holds(cx: &mut Interner) -> Result<bool, Refusal> {
    let variable = bound_ty(cx, 2)?;
    let vars = one_region(cx)?;
    let kind = PredicateKind::Clause(ClauseKind::WellFormed(Term::from(variable)));
    let stored = predicate(cx, kind, vars)?;
    let items = [clause(cx, stored)?];
    let list = clauses(cx, &items)?;
    let slice = TyKind::Slice(variable);
    let error = ConstKind::Error(ErrorGuaranteed(3));
    let bound = Binder::bind_with_vars(kind, vars);
    let so_far = info(cx, &list) == Ok((0x1080000, 2))
        && info(cx, &vars) == Ok((0x1000000, 0))
        && info(cx, &GenericArg::from(variable)) == Ok((0x80000, 3));
    if !cx.owns_kind(&slice) || !cx.owns_predicate_kind(&bound) || !cx.are_clauses(&items) {
        return Err(NOT_OWNED);
    }
    Ok(
        so_far
            && numbers(FlagComputation::for_kind(cx, &slice)) == (0x80000, 3)
            && numbers(FlagComputation::for_const_kind(cx, &error)) == (0x8000, 0)
            && numbers(FlagComputation::for_predicate(cx, &bound)) == (0x1080000, 2)
            && numbers(FlagComputation::for_clauses(cx, &items)) == (0x1080000, 2),
    )
}

#[test]
fn calls_that_read(rt: HostRuntime) {
    holds_anew(&rt, rt.alloc(), views_holds);
    holds_anew(&rt, rt.alloc(), environments_holds);
    holds_anew(&rt, rt.alloc(), handles_holds);
    holds_anew(&rt, rt.alloc(), signatures_holds);
    holds_anew(&rt, rt.alloc(), aliases_holds);
    holds_anew(&rt, rt.alloc(), flags_holds);
}
