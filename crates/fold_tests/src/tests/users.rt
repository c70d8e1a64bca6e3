//! Visitors, folders and values as a user of the library writes them.

ghost use Rattle.std.specs.Prelude.{◌≡◌, ◌⊎◌, ℕ, ⊤, refl};
ghost use Rattle.tt_kinds.specs.Kinds.{predicate_shape, region_shape, ty_shape};
ghost use Rattle.tt_kinds.specs.Tree.{Depth, Tree};
ghost use Rattle.tt_kinds.specs.Values.{tuple_shape};
ghost use Rattle.tt_visit.specs.declared.visitor.Next.TheVariants.{Descend as GoesOn};
ghost use Rattle.tt_fold.specs.Copies.{copies};
ghost use Rattle.tt_fold.specs.Walk.{replace, descend};
ghost use Rattle.tt_fold.specs.Steps.{IsPartOf, tree_in};

use super::{holds_anew, holds_within};
use std::ops::ControlFlow;
use std::rc::Rc;
use test_terms::{
    NOT_OWNED, bound_region, bound_ty, clause, clauses, is_instance, is_shifted, one_region,
    param_region, param_ty, predicate, ref_ty, region_variable, ty, tys, u32_ty,
};
use type_terms::{
    AsPredicate, Binder, BoundVarKinds, Clause, ClauseKind, Clauses, ClonesTree, Const, Core,
    ErrorGuaranteed, FallibleTypeFolder, GenericArg, Handle, HasHook, InternedKind, Interner,
    IsTested, Kind, Next, Owned, Predicate, PredicateKind, Refusal, Region, RegionKind, Step, Term,
    Ty, TyKind, TypeFoldable, TypeFolder, TypeSuperFoldable, TypeSuperVisitable, TypeVisitable,
    TypeVisitor, Tys, visit_kind, visit_stored,
};

// Counts the regions outside of errors, and breaks at an error.
#[derive(Drop)]
struct RegionCount {
    count: u64,
}

impl TypeVisitor for RegionCount {
    type Break = u32;

    ghost Meaning = { ℕ };

    ghost meaning = { λ _ s. s.count };

    ghost hooks = { record {
      on_region = λ s t s'. ⊤;
      region_breaks = λ s t b s'. ⊥;
      on_error = λ s e s'. ⊥;
      error_breaks = λ s e b s'. (b ≡ e) × (s' ≡ s);
      on_term = λ s t next s'. (next ≡ GoesOn) × (s' ≡ s);
      term_breaks = λ s t b s'. ⊥;
      enter = λ s vs next s'. (next ≡ GoesOn) × (s' ≡ s);
      enter_breaks = λ s vs b s'. ⊥;
      leave = λ s vs s'. s' ≡ s;
    } };

    fn visit_region(&mut self, _cx: &Interner, _region: Region) -> ControlFlow<u32, ()> {
        self.count = self.count.saturating_add(1);
        ControlFlow::Continue(())
    }

    fn visit_error(&mut self, _cx: &Interner, error: ErrorGuaranteed) -> ControlFlow<u32, ()> {
        ControlFlow::Break(error.0)
    }

    fn visit_ty(&mut self, _cx: &Interner, _ty: Ty) -> ControlFlow<u32, Next> {
        ControlFlow::Continue(Next::Descend)
    }

    fn visit_const(&mut self, _cx: &Interner, _constant: Const) -> ControlFlow<u32, Next> {
        ControlFlow::Continue(Next::Descend)
    }

    fn visit_predicate(&mut self, _cx: &Interner, _predicate: Predicate) -> ControlFlow<u32, Next> {
        ControlFlow::Continue(Next::Descend)
    }

    fn visit_clauses(&mut self, _cx: &Interner, _clauses: Clauses) -> ControlFlow<u32, Next> {
        ControlFlow::Continue(Next::Descend)
    }

    fn visit_binder(&mut self, _cx: &Interner, _vars: BoundVarKinds) -> ControlFlow<u32, Next> {
        ControlFlow::Continue(Next::Descend)
    }

    fn leave_binder(&mut self, _cx: &Interner, _vars: BoundVarKinds) {}
}

// Returns the result of a visit: the count of regions, or the error that was found.
fn counted(outcome: ControlFlow<u32, ()>, visitor: &RegionCount) -> Result<u64, u32> {
    match outcome {
        ControlFlow::Break(error) => Err(error),
        ControlFlow::Continue(()) => Ok(visitor.count),
    }
}

// Returns the count of regions in the value, or its first error.
fn regions_in<T: Owned>(cx: &Interner, value: &T) -> Result<Result<u64, u32>, Refusal> {
    if !value.is_owned(cx) {
        return Err(NOT_OWNED);
    }
    let mut visitor = RegionCount { count: 0 };
    let outcome = value.visit_with(cx, &mut visitor);
    Ok(counted(outcome, &visitor))
}

// Returns the same without the value's own hook.
fn regions_inside<T: Owned + TypeSuperVisitable>(
    cx: &Interner,
    value: &T,
) -> Result<Result<u64, u32>, Refusal> {
    if !value.is_owned(cx) {
        return Err(NOT_OWNED);
    }
    let mut visitor = RegionCount { count: 0 };
    let outcome = value.super_visit_with(cx, &mut visitor);
    Ok(counted(outcome, &visitor))
}

// Returns the count of regions in the term or the list of a handle, which may be of any mark that a test of handles follows.
fn regions_at<K: IsTested>(cx: &Interner, handle: Handle<K>) -> Result<Result<u64, u32>, Refusal> {
    regions_in(cx, &handle)
}

// Returns the same without the term's own hook.
fn regions_inside_at<K: HasHook + IsTested>(
    cx: &Interner,
    handle: Handle<K>,
) -> Result<Result<u64, u32>, Refusal> {
    regions_inside(cx, &handle)
}

// Returns the count of regions in stored terms, by their rows, and in a kind that may be stored or not, all together.
fn regions_in_rows(
    cx: &Interner,
    ty: Ty,
    list: Tys,
    kind: TyKind,
) -> Result<Result<u64, u32>, Refusal> {
    if !(cx.owns(ty) && cx.owns(list) && cx.owns_kind(&kind)) {
        return Err(NOT_OWNED);
    }
    let mut visitor = RegionCount { count: 0 };
    let mut outcome = visit_stored(cx, &mut visitor, ty.any());
    if outcome.is_continue() {
        outcome = visit_stored(cx, &mut visitor, list.any());
    }
    if outcome.is_continue() {
        outcome = visit_kind(cx, &mut visitor, &Kind::Ty(kind));
    }
    Ok(counted(outcome, &visitor))
}

// In values, lists, kinds and rows, under binders, and without the value's own hook, each region is counted.
fn regions_are_counted_holds(cx: &mut Interner) -> Result<bool, Refusal> {
    let number = u32_ty(cx)?;
    let region = bound_region(0)?;
    let one = ref_ty(cx, region, number)?;
    let two = ref_ty(cx, region, one)?;
    let vars = one_region(cx)?;
    let list = tys(cx, &[one, number, two])?;
    let bound = Binder::bind_with_vars(list, vars);
    Ok(
        regions_in(cx, &(&(region, two), GenericArg::from(one))) == Ok(Ok(4))
            && regions_inside(cx, &two) == Ok(Ok(2))
            && regions_inside(cx, &bound) == Ok(Ok(3))
            && regions_at(cx, list) == Ok(Ok(3))
            && regions_inside_at(cx, two) == Ok(Ok(2))
            && regions_in_rows(cx, two, list, TyKind::Tuple(list)) == Ok(Ok(8)),
    )
}

#[test]
fn regions_are_counted(rt: HostRuntime) {
    holds_anew(&rt, rt.alloc(), regions_are_counted_holds);
}

// An error ends the visit, under a binder too. The error's token in a region is not an error of a type.
fn an_error_ends_the_visit_holds(cx: &mut Interner) -> Result<bool, Refusal> {
    let error = ty(cx, TyKind::Error(ErrorGuaranteed(7)))?;
    let region = Region::new(RegionKind::ReError(ErrorGuaranteed(7)))?;
    let reference = ref_ty(cx, region, error)?;
    let vars = one_region(cx)?;
    Ok(
        regions_in(cx, &Binder::bind_with_vars(reference, vars)) == Ok(Err(7))
            && regions_in(cx, &region) == Ok(Ok(1)),
    )
}

#[test]
fn an_error_ends_the_visit(rt: HostRuntime) {
    holds_anew(&rt, rt.alloc(), an_error_ends_the_visit_holds);
}

// Replaces one type by another and each predicate by one, and counts its calls at predicates.
#[derive(Drop)]
struct StandIn {
    from: Ty,
    to: Ty,
    predicate: Predicate,
    asked: u64,
}

impl TypeFolder for StandIn {
    ghost use Rattle.tt_interner.proofs.Growth.{IsPart-grows, fill-grows};

    ghost Meaning = { Tree Depth × Tree Depth };

    ghost meaning = { λ rows s. (tree_in rows (ty_shape s.to), tree_in rows (predicate_shape s.predicate)) };

    ghost owned = { λ rows s. IsPartOf rows (ty_shape s.to) × IsPartOf rows (predicate_shape s.predicate) };

    ghost hooks = { record {
      on_region = λ s t r s'. (r ≡ t) × (s' ≡ s);
      region_fails = λ unbuilt s t e s'. ⊥;
      on_term = λ s t a s'. ((a ≡ replace s.state.0) ⊎ (a ≡ replace s.state.1) ⊎ (a ≡ descend)) × (s' ≡ s);
      term_fails = λ unbuilt s t e s'. ⊥;
      after_term = λ s t u r s'. (r ≡ u) × (s' ≡ s);
      after_fails = λ unbuilt s t u e s'. ⊥;
      enter = λ s vs s'. s' ≡ s;
      enter_fails = λ unbuilt s vs e s'. ⊥;
      leave = λ s vs s'. s' ≡ s;
      leave_fails = λ unbuilt s vs e s'. ⊥;
    } };

    fn fold_region(&mut self, _cx: &mut Interner, region: Region) -> Result<Region, Refusal> {
        Ok(region)
    }

    fn fold_ty(&mut self, _cx: &mut Interner, ty: Ty) -> Result<Step<Ty>, Refusal> {
        if ty == self.from {
            Ok(Step::Replace(self.to))
        } else {
            Ok(Step::Descend)
        }
    }

    fn after_ty(&mut self, _cx: &mut Interner, _before: Ty, rebuilt: Ty) -> Result<Ty, Refusal> {
        Ok(rebuilt)
    }

    fn fold_const(&mut self, _cx: &mut Interner, _constant: Const) -> Result<Step<Const>, Refusal> {
        Ok(Step::Descend)
    }

    fn after_const(
        &mut self,
        _cx: &mut Interner,
        _before: Const,
        rebuilt: Const,
    ) -> Result<Const, Refusal> {
        Ok(rebuilt)
    }

    fn fold_predicate(
        &mut self,
        _cx: &mut Interner,
        _predicate: Predicate,
    ) -> Result<Step<Predicate>, Refusal> {
        self.asked = self.asked.saturating_add(1);
        Ok(Step::Replace(self.predicate))
    }

    fn after_predicate(
        &mut self,
        _cx: &mut Interner,
        _before: Predicate,
        rebuilt: Predicate,
    ) -> Result<Predicate, Refusal> {
        Ok(rebuilt)
    }

    fn fold_clauses(
        &mut self,
        _cx: &mut Interner,
        _clauses: Clauses,
    ) -> Result<Step<Clauses>, Refusal> {
        Ok(Step::Descend)
    }

    fn after_clauses(
        &mut self,
        _cx: &mut Interner,
        _before: Clauses,
        rebuilt: Clauses,
    ) -> Result<Clauses, Refusal> {
        Ok(rebuilt)
    }

    fn fold_binder(&mut self, _cx: &mut Interner, _vars: BoundVarKinds) -> Result<(), Refusal> {
        Ok(())
    }

    fn after_binder(&mut self, _cx: &mut Interner, _vars: BoundVarKinds) -> Result<(), Refusal> {
        Ok(())
    }

    ghost still_owned = { λ old new s g h. (
      IsPart-grows old new g.grows (ty_shape s.to) h.0,
      IsPart-grows old new g.grows (predicate_shape s.predicate) h.1,
    ) };

    ghost still_means = { λ old new s g h. Prim.rw (
      fill-grows old new g.grows (ty_shape s.to) h.0,
      fill-grows old new g.grows (predicate_shape s.predicate) h.1,
    ) refl };
}

// Returns a predicate that is not a clause.
fn ambiguous(cx: &mut Interner) -> Result<Predicate, Refusal> {
    predicate(cx, PredicateKind::Ambiguous, BoundVarKinds::default())
}

// Returns the value folded by the folder.
fn folded<T: Owned + TypeFoldable>(
    cx: &mut Interner,
    value: T,
    folder: &mut StandIn,
) -> Result<T, Refusal> {
    if value.is_owned(cx) && folder.to.is_owned(cx) && folder.predicate.is_owned(cx) {
        value.fold_with(cx, folder)
    } else {
        Err(NOT_OWNED)
    }
}

// Returns the same without the value's own hook.
fn folded_inside<T: Owned + TypeFoldable + TypeSuperFoldable>(
    cx: &mut Interner,
    value: T,
    folder: &mut StandIn,
) -> Result<T, Refusal> {
    if value.is_owned(cx) && folder.to.is_owned(cx) && folder.predicate.is_owned(cx) {
        value.super_fold_with(cx, folder)
    } else {
        Err(NOT_OWNED)
    }
}

// Returns the folder that replaces the one type by the other, and predicates by one that is not a clause.
fn stand_in(cx: &mut Interner, from: Ty, to: Ty) -> Result<StandIn, Refusal> {
    Ok(StandIn {
        from,
        to,
        predicate: ambiguous(cx)?,
        asked: 0,
    })
}

// A fold finds the type in the items of lists, under binders and in values; one without the value's own hook leaves the
// value itself. If a walk has to store a type and the table is full, it is refused; the folder is used again, and finds its
// result.
fn types_are_replaced_holds(cx: &mut Interner) -> Result<bool, Refusal> {
    let from = u32_ty(cx)?;
    let to = ty(cx, TyKind::Bool)?;
    let region = bound_region(0)?;
    let vars = one_region(cx)?;
    let before = ref_ty(cx, region, from)?;
    let after = ref_ty(cx, region, to)?;
    let slice = ty(cx, TyKind::Slice(from))?;
    let old_list = tys(cx, &[before, from, to])?;
    let new_list = tys(cx, &[after, to, to])?;
    let old_bound = Binder::bind_with_vars(old_list, vars);
    let new_bound = Binder::bind_with_vars(new_list, vars);
    let mut folder = stand_in(cx, from, to)?;
    Ok(
        folded(cx, old_bound, &mut folder) == Ok(new_bound)
            && folded_inside(cx, old_bound, &mut folder) == Ok(new_bound)
            && folded_inside(cx, from, &mut folder) == Ok(from)
            && folded(cx, slice, &mut folder) == Err(Refusal::TableFull)
            && folded(cx, (region, (before, from)), &mut folder) == Ok((region, (after, to)))
            && folder.asked == 0,
    )
}

#[test]
fn types_are_replaced(rt: HostRuntime) {
    holds_within(&rt, rt.alloc(), 5, types_are_replaced_holds);
}

// Returns the clause that the type is well formed, under a binder of no variables.
fn well_formed(cx: &mut Interner, subject: Ty) -> Result<Clause, Refusal> {
    let kind = PredicateKind::Clause(ClauseKind::WellFormed(Term::from(subject)));
    let stored = predicate(cx, kind, BoundVarKinds::default())?;
    clause(cx, stored)
}

// A folder that returns a predicate that is not a clause is refused at the first clause, and isn't called again. A `Clause`
// that is not one is folded as a predicate.
fn a_clause_stays_one_holds(cx: &mut Interner) -> Result<bool, Refusal> {
    let number = u32_ty(cx)?;
    let item = well_formed(cx, number)?;
    let list = clauses(cx, &[item, item])?;
    let items = vec![in cx.allocator(); item, item]?;
    let vars = one_region(cx)?;
    let bound = Binder::bind_with_vars(item, vars);
    let mut folder = stand_in(cx, number, number)?;
    let to = folder.predicate;
    let no_clause = Clause::from_number(to.number());
    Ok(
        folded(cx, list, &mut folder) == Err(Refusal::NotAClause)
            && folder.asked == 1
            && folded(cx, items, &mut folder).err() == Some(Refusal::NotAClause)
            && folded(cx, bound, &mut folder) == Err(Refusal::NotAClause)
            && folder.asked == 3
            && folded(cx, item.as_predicate(), &mut folder) == Ok(to)
            && folded(cx, no_clause, &mut folder) == Ok(no_clause),
    )
}

#[test]
fn a_clause_stays_one(rt: HostRuntime) {
    holds_anew(&rt, rt.alloc(), a_clause_stays_one_holds);
}

// Why a value has not exactly one region.
#[derive(Clone, Copy, Debug, PartialEq, Eq)]
enum NotOne {
    Refused(Refusal),
    SecondRegion,
}

impl From<Refusal> for NotOne {
    ghost use Rattle.fold_tests.specs.declared.tests.users.NotOne.TheVariants.{Refused};

    ghost from_gives = { λ refusal e. e ≡ Refused refusal };

    fn from(refusal: Refusal) -> NotOne {
        NotOne::Refused(refusal)
    }
}

// Keeps the first region, refuses a second, and counts its calls.
#[derive(Drop)]
struct OneRegion {
    met: u64,
}

impl FallibleTypeFolder for OneRegion {
    type Error = NotOne;

    ghost use Rattle.fold_tests.specs.declared.tests.users.NotOne.TheVariants.{SecondRegion};

    ghost Meaning = { ℕ };

    ghost meaning = { λ _ s. s.met };

    ghost owned = { λ _ _. ⊤ };

    ghost hooks = { record {
      on_region = λ s t r s'. (r ≡ t) × (s.state ≡ 0) × (s' ≡ record { state = 1; counters = s.counters });
      region_fails = λ unbuilt s t e s'. (s.state ≡ 0 → ⊥) × (e ≡ SecondRegion);
      on_term = λ s t a s'. (a ≡ descend) × (s' ≡ s);
      term_fails = λ unbuilt s t e s'. ⊥;
      after_term = λ s t u r s'. (r ≡ u) × (s' ≡ s);
      after_fails = λ unbuilt s t u e s'. ⊥;
      enter = λ s vs s'. s' ≡ s;
      enter_fails = λ unbuilt s vs e s'. ⊥;
      leave = λ s vs s'. s' ≡ s;
      leave_fails = λ unbuilt s vs e s'. ⊥;
    } };

    fn try_fold_region(&mut self, _cx: &mut Interner, region: Region) -> Result<Region, NotOne> {
        let before = self.met;
        self.met = before.saturating_add(1);
        if before == 0 {
            Ok(region)
        } else {
            Err(NotOne::SecondRegion)
        }
    }

    fn try_fold_ty(&mut self, _cx: &mut Interner, _ty: Ty) -> Result<Step<Ty>, NotOne> {
        Ok(Step::Descend)
    }

    fn after_ty(&mut self, _cx: &mut Interner, _before: Ty, rebuilt: Ty) -> Result<Ty, NotOne> {
        Ok(rebuilt)
    }

    fn try_fold_const(
        &mut self,
        _cx: &mut Interner,
        _constant: Const,
    ) -> Result<Step<Const>, NotOne> {
        Ok(Step::Descend)
    }

    fn after_const(
        &mut self,
        _cx: &mut Interner,
        _before: Const,
        rebuilt: Const,
    ) -> Result<Const, NotOne> {
        Ok(rebuilt)
    }

    fn try_fold_predicate(
        &mut self,
        _cx: &mut Interner,
        _predicate: Predicate,
    ) -> Result<Step<Predicate>, NotOne> {
        Ok(Step::Descend)
    }

    fn after_predicate(
        &mut self,
        _cx: &mut Interner,
        _before: Predicate,
        rebuilt: Predicate,
    ) -> Result<Predicate, NotOne> {
        Ok(rebuilt)
    }

    fn try_fold_clauses(
        &mut self,
        _cx: &mut Interner,
        _clauses: Clauses,
    ) -> Result<Step<Clauses>, NotOne> {
        Ok(Step::Descend)
    }

    fn after_clauses(
        &mut self,
        _cx: &mut Interner,
        _before: Clauses,
        rebuilt: Clauses,
    ) -> Result<Clauses, NotOne> {
        Ok(rebuilt)
    }

    fn try_fold_binder(&mut self, _cx: &mut Interner, _vars: BoundVarKinds) -> Result<(), NotOne> {
        Ok(())
    }

    fn after_binder(&mut self, _cx: &mut Interner, _vars: BoundVarKinds) -> Result<(), NotOne> {
        Ok(())
    }

    ghost still_owned = { λ old new s g h. tt };

    ghost still_means = { λ old new s g h. refl };
}

// Returns the value, if it has one region at most, and how many regions were met.
fn with_one_region<T: Owned + TypeFoldable>(
    cx: &mut Interner,
    value: T,
) -> (Result<T, NotOne>, u64) {
    if value.is_owned(cx) {
        let mut folder = OneRegion { met: 0 };
        let result = value.try_fold_with(cx, &mut folder);
        (result, folder.met)
    } else {
        (Err(NotOne::Refused(NOT_OWNED)), 0)
    }
}

// Returns the value without a call of its own hook, if one region at most occurs in it.
fn with_one_region_inside<T: Owned + TypeFoldable + TypeSuperFoldable>(
    cx: &mut Interner,
    value: T,
) -> Result<T, NotOne> {
    if value.is_owned(cx) {
        value.try_super_fold_with(cx, &mut OneRegion { met: 0 })
    } else {
        Err(NotOne::Refused(NOT_OWNED))
    }
}

// A fold ends at the first error: the third region is not visited.
fn a_second_region_is_refused_holds(cx: &mut Interner) -> Result<bool, Refusal> {
    let number = u32_ty(cx)?;
    let first = ref_ty(cx, Region::new(RegionKind::ReStatic)?, number)?;
    let second = ref_ty(cx, Region::new(RegionKind::ReErased)?, number)?;
    let third = ref_ty(cx, region_variable()?, number)?;
    let vars = one_region(cx)?;
    let nested = ref_ty(cx, bound_region(0)?, first)?;
    let bound = Binder::bind_with_vars(nested, vars);
    Ok(
        with_one_region(cx, (first, second, third)) == (Err(NotOne::SecondRegion), 2)
            && with_one_region(cx, bound) == (Err(NotOne::SecondRegion), 2)
            && with_one_region(cx, (first, number)) == (Ok((first, number)), 1)
            && with_one_region_inside(cx, bound) == Err(NotOne::SecondRegion)
            && with_one_region_inside(cx, first) == Ok(first),
    )
}

#[test]
fn a_second_region_is_refused(rt: HostRuntime) {
    holds_anew(&rt, rt.alloc(), a_second_region_is_refused_holds);
}

// A loan: for how long, and of what.
#[derive(Clone, Copy, Debug, PartialEq, Eq)]
struct Loan {
    region: Region,
    ty: Ty,
}

impl TypeVisitable for Loan {
    ghost shape = { λ loan. tuple_shape region_shape ty_shape (loan.region, loan.ty) };

    fn visit_with<V: TypeVisitor>(
        &self,
        cx: &Interner,
        visitor: &mut V,
    ) -> ControlFlow<V::Break, ()> {
        (self.region, self.ty).visit_with(cx, visitor)
    }
}

impl TypeFoldable for Loan {
    fn fold_core<M, F: Core<M>>(self, cx: &mut Interner, folder: &mut F) -> Result<Loan, F::Error> {
        match (self.region, self.ty).fold_core::<M, F>(cx, folder) {
            Ok((region, ty)) => Ok(Loan { region, ty }),
            Err(e) => Err(e),
        }
    }
}

impl Owned for Loan {
    fn is_owned(&self, cx: &Interner) -> bool {
        (self.region, self.ty).is_owned(cx)
    }
}

impl ClonesTree for Loan {
    ghost keeps = { Prim.search copies };
}

// A value of a user's own type with two fields is shifted, instantiated, visited and folded as its parts are.
fn a_loan_is_shifted_and_instantiated_holds(cx: &mut Interner) -> Result<bool, Refusal> {
    let inner = Loan {
        region: bound_region(0)?,
        ty: bound_ty(cx, 1)?,
    };
    let outer = Loan {
        region: bound_region(3)?,
        ty: bound_ty(cx, 4)?,
    };
    let so_far = is_shifted(cx, inner, 3, outer);
    let declared = Loan {
        region: param_region(cx, 1)?,
        ty: param_ty(cx, 0)?,
    };
    let given = [GenericArg::from(inner.ty), GenericArg::from(inner.region)];
    let mut folder = stand_in(cx, inner.ty, outer.ty)?;
    Ok(
        so_far
            && is_instance(cx, declared, &given, inner)
            && regions_in(cx, &inner) == Ok(Ok(1))
            && folded(cx, inner, &mut folder)?.ty == outer.ty
            && with_one_region(cx, inner) == (Ok(inner), 1),
    )
}

#[test]
fn a_loan_is_shifted_and_instantiated(rt: HostRuntime) {
    holds_anew(&rt, rt.alloc(), a_loan_is_shifted_and_instantiated_holds);
}

// A shared loan is folded in a copy, and its other owner keeps the loan as it was.
fn a_shared_loan_is_copied_holds(cx: &mut Interner) -> Result<bool, Refusal> {
    let from = u32_ty(cx)?;
    let to = ty(cx, TyKind::Bool)?;
    let before = Loan {
        region: bound_region(0)?,
        ty: from,
    };
    let loan = Rc::new(cx.allocator(), before)?;
    let other = loan.clone()?;
    let mut folder = stand_in(cx, from, to)?;
    let after = folded(cx, loan, &mut folder)?;
    Ok(Rc::as_ref(&after).ty == to && *Rc::as_ref(&other) == before)
}

#[test]
fn a_shared_loan_is_copied(rt: HostRuntime) {
    holds_anew(&rt, rt.alloc(), a_shared_loan_is_copied_holds);
}
