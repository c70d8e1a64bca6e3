//! What an interner has: the tests of conditions, each at something of the interner and at something that isn't.

use super::holds_anew;
use test_terms::{NOT_OWNED, constant, existential, pattern, predicate};
use type_terms::{
    BoundExistentialPredicates, BoundRegionKind, BoundVarKinds, BoundVariableKind, Child, Clauses,
    Const, ConstKind, Consts, DeclarationKind, EarlyParamRegion, ErrorGuaranteed,
    ExistentialPredicate, GenericArg, InternedText, Interner, OutlivesPredicate, Pat, PatList,
    PatternKind, PolyExistentialPredicate, Predicate, PredicateKind, Refusal, Region,
    RegionAssumptions, RegionKind, Symbol, TraitId, Ty, Tys,
};

// A declaration is read back, with its name. A region that is declared is called by it.
fn declarations_hold(cx: &mut Interner) -> Result<bool, Refusal> {
    let name = cx.symbol("'a")?;
    let region = BoundRegionKind::Named(cx.declare_param(name)?);
    let Some(id) = region.get_id() else {
        return Ok(false);
    };
    if !cx.owns_def_id(id) {
        return Err(NOT_OWNED);
    }
    let (declared, text) = (cx.declaration(id), cx.item_name(id));
    Ok(
        declared.kind == DeclarationKind::Param
            && declared.name == name
            && cx.owns_symbol(text)
            && text.as_str(cx) == "'a"
            && !cx.owns_symbol(Symbol::from_number(99)),
    )
}

// A new interner has the empty lists alone, and terms are its own once they are stored.
fn handles_hold(cx: &mut Interner) -> Result<bool, Refusal> {
    let first = Const::from_number(0);
    let is_new = !cx.owns_const(first)
        && !cx.owns_pat(Pat::from_number(0))
        && !cx.owns_predicate(Predicate::from_number(0))
        && !cx.owns_existential(PolyExistentialPredicate::from_number(0));
    let constant = constant(cx, ConstKind::Error(ErrorGuaranteed(3)))?;
    let pat = pattern(cx, PatternKind::NotNull)?;
    let none = BoundVarKinds::default();
    let ambiguous = predicate(cx, PredicateKind::Ambiguous, none)?;
    let auto_trait = ExistentialPredicate::AutoTrait(TraitId::from_number(0));
    let bound = existential(cx, auto_trait, none)?;
    Ok(
        is_new
            && cx.owns_const(constant)
            && cx.owns_pat(pat)
            && cx.owns_predicate(ambiguous)
            && cx.owns_existential(bound)
            && cx.owns_tys(Tys::default())
            && cx.owns_consts(Consts::default())
            && cx.owns_pat_list(PatList::default())
            && cx.owns_clauses(Clauses::default())
            && cx.owns_existentials(BoundExistentialPredicates::default())
            && cx.owns_assumptions(RegionAssumptions::default())
            && !cx.owns_tys(Tys::from_number(1))
            && !cx.owns_consts(Consts::from_number(1))
            && !cx.owns_pat_list(PatList::from_number(1))
            && !cx.owns_clauses(Clauses::from_number(1))
            && !cx.owns_existentials(BoundExistentialPredicates::from_number(1))
            && !cx.owns_assumptions(RegionAssumptions::from_number(1)),
    )
}

// The names in regions, in the variables of binders, in assumptions and in children.
fn names_hold(cx: &mut Interner) -> Result<bool, Refusal> {
    let own = cx.symbol("'a")?;
    for (name, wanted) in [(own, true), (Symbol::from_number(99), false)] {
        let printed = BoundRegionKind::NamedForPrinting(name);
        let region = Region::new(RegionKind::ReEarlyParam(EarlyParamRegion { index: 0, name }))?;
        let assumption = OutlivesPredicate(GenericArg::from(region), Region::new_static());
        if cx.owns_region_name(&printed) != wanted
            || cx.owns_bound_var(&BoundVariableKind::Region(printed)) != wanted
            || cx.owns_region(&region) != wanted
            || cx.owns_assumption(&assumption) != wanted
            || cx.owns_child(&Child::Region(region)) != wanted
        {
            return Ok(false);
        }
    }
    Ok(cx.owns_child(&Child::Absent) && !cx.owns_ty(Ty::from_number(0)))
}

// The counters count what they are told of.
fn counters_hold(cx: &mut Interner) -> Result<bool, Refusal> {
    let before = (cx.descents(), cx.shift_descents());
    cx.count_descent();
    cx.count_shift_descent();
    cx.count_shift_descent();
    Ok(before == (0, 0) && cx.descents() == 1 && cx.shift_descents() == 2)
}

#[test]
fn what_an_interner_has(rt: HostRuntime) {
    holds_anew(&rt, rt.alloc(), declarations_hold);
    holds_anew(&rt, rt.alloc(), handles_hold);
    holds_anew(&rt, rt.alloc(), names_hold);
    holds_anew(&rt, rt.alloc(), counters_hold);
}
