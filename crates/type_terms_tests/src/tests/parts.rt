//! Handles of any table, children, and the kinds whose parts they are.

use type_terms::{
    AliasTy, AliasTyKind, Binder, BoundConst, BoundExistentialPredicates, BoundVar,
    BoundVarIndexKind, BoundVarKinds, Child, ClauseKind, Clauses, Const, ConstKind, Consts,
    DebruijnIndex, EarlyBinder, ErrorGuaranteed, ExistentialPredicate, ExistentialTraitRef,
    FnHeader, FnSigTys, GREATEST_INDEX, GenericArgs, InferTy, Kind, Mutability, OpaqueTyId,
    OwnFlags, ParamTy, Parts, Pat, PatList, PatternKind, PolyExistentialPredicate, Predicate,
    PredicateKind, Region, ScalarInt, Symbol, Table, Term, TermTable, TraitId, Ty, TyKind, TyVid,
    Tys, ValTree, ValTreeKind, ValueConst,
};

// A handle is the same after its table became a value, and a mark again.
fn handles_have_tables() -> bool {
    let (ty, constant, pat) = (
        Ty::from_number(1),
        Const::from_number(2),
        Pat::from_number(3),
    );
    let (predicate, clauses) = (Predicate::from_number(4), Clauses::from_number(5));
    let existential = PolyExistentialPredicate::from_number(6);
    ty.any().typed() == ty
        && constant.any().typed() == constant
        && pat.any().typed() == pat
        && predicate.any().typed() == predicate
        && existential.any().typed() == existential
        && clauses.any().typed() == clauses
        && ty.child().handle() == ty
        && constant.child().handle() == constant
        && Child::Region(Region::new_static()).region() == Region::new_static()
}

// Each list has its table. Tables of lists have items, and only the one of lists of clauses is one of terms too.
fn tables_have_terms() -> bool {
    let (tys, consts) = (Tys::from_number(1), Consts::from_number(2));
    let (args, pats) = (GenericArgs::from_number(3), PatList::from_number(4));
    let bounds = BoundExistentialPredicates::from_number(5);
    tys.any().table == TermTable::TypeLists
        && tys.any().table.table() == Table::TypeLists
        && consts.any().table == TermTable::ConstLists
        && args.any().table == TermTable::ArgLists
        && pats.any().table == TermTable::PatternLists
        && bounds.any().table == TermTable::ExistentialLists
        && TermTable::TypeLists.has_items()
        && !TermTable::TypeLists.is_term()
        && TermTable::ClauseLists.has_items()
        && TermTable::ClauseLists.is_term()
        && !TermTable::Types.has_items()
        && TermTable::Types.is_term()
}

// Returns the child that is this type, or this constant.
fn type_child(number: u32) -> Child {
    Term::from(Ty::from_number(number)).child()
}

fn const_child(number: u32) -> Child {
    Term::from(Const::from_number(number)).child()
}

// Children are alike if they are of one sort, whatever they are.
fn children_are_alike() -> bool {
    let ty = type_child(1);
    ty == Ty::from_number(1).child()
        && const_child(1) == Const::from_number(1).child()
        && ty.is_like(&type_child(2))
        && !ty.is_like(&const_child(1))
        && !ty.is_like(&Child::Absent)
        && !ty.is_like(&Tys::from_number(1).child())
        && Child::Absent.is_like(&Child::Absent)
}

// The children of a kind, and the kind with other ones.
fn kinds_have_parts() -> bool {
    let (one, two) = (
        Parts::one(type_child(1)),
        Parts::two(const_child(2), const_child(1)),
    );
    let slice = Kind::Ty(TyKind::Slice(Ty::from_number(3)));
    let other = Kind::Ty(TyKind::Slice(Ty::from_number(1)));
    let (first, second) = (Const::from_number(1), Const::from_number(2));
    let range = PatternKind::Range {
        start: first,
        end: second,
    };
    let turned = PatternKind::Range {
        start: second,
        end: first,
    };
    slice.parts().are_like(&one)
        && slice.with_parts(one) == other
        && other.parts() == one
        && slice.parts() != one
        && !one.are_like(&Parts::none())
        && !one.are_like(&two)
        && Kind::Ty(TyKind::Bool).parts() == Parts::none()
        && turned.parts() == two
        && range.parts().are_like(&two)
        && range.with_parts(two) == turned
}

// Returns the value of this type that is a branch of these values.
fn branch(ty: u32, values: u32) -> ValueConst {
    let branch = ValTreeKind::Branch(Consts::from_number(values));
    ValueConst {
        ty: Ty::from_number(ty),
        valtree: ValTree::from(branch),
    }
}

// Returns the predicate of a trait object that has these arguments.
fn of_trait(args: u32) -> ExistentialPredicate {
    ExistentialPredicate::Trait(ExistentialTraitRef {
        def_id: TraitId::from_number(7),
        args: GenericArgs::from_number(args),
    })
}

// A value's children are its type and the values of a branch, and those of a trait object's predicate its arguments.
fn records_have_parts() -> bool {
    let (before, after) = (branch(1, 2), branch(3, 4));
    let values = Consts::from_number(4).child();
    let wanted = Parts::two(type_child(3), values);
    let leaf = ValTree::from(ValTreeKind::Leaf(ScalarInt { bits: 0, size: 1 }));
    let small = ValueConst {
        ty: Ty::from_number(3),
        valtree: leaf,
    };
    let (one, two) = (of_trait(1), of_trait(2));
    let list = Parts::one(GenericArgs::from_number(2).child());
    after.parts() == wanted
        && before.parts().are_like(&wanted)
        && before.with_parts(wanted) == after
        && small.parts() == Parts::one(type_child(3))
        && two.parts() == list
        && one.parts().are_like(&list)
        && one.with_parts(list) == two
}

// The pointer to a function and a predicate are under a binder, and a constant is under none.
fn kinds_have_binders() -> bool {
    let vars = BoundVarKinds::from_number(2);
    let types = FnSigTys {
        inputs_and_output: Tys::from_number(5),
    };
    let pointer = TyKind::FnPtr(Binder::bind_with_vars(types, vars), FnHeader::dummy());
    let predicate = Binder::bind_with_vars(PredicateKind::Ambiguous, vars);
    pointer.bound_vars() == Some(vars)
        && TyKind::Bool.bound_vars() == None
        && Kind::Ty(pointer).bound_vars() == Some(vars)
        && Kind::Predicate(predicate).bound_vars() == Some(vars)
        && ConstKind::Error(ErrorGuaranteed(3)).bound_vars() == None
        && predicate.as_ref().bound_vars() == vars
        && *EarlyBinder::bind(7_u32).as_ref().skip_binder() == 7
}

// Returns the clause that a type is well formed.
fn well_formed() -> ClauseKind {
    ClauseKind::WellFormed(Term::from(Ty::from_number(1)))
}

// A clause may be assumed, and no other predicate.
fn clauses_are_predicates() -> bool {
    let kind = PredicateKind::Clause(well_formed());
    kind.is_clause()
        && kind.as_clause() == Some(well_formed())
        && !PredicateKind::Ambiguous.is_clause()
        && PredicateKind::Ambiguous.as_clause() == None
}

// An error, a variable, an alias and a parameter may be any type.
fn forms_of_types_are_known() -> bool {
    let args = GenericArgs::default();
    let kind = AliasTyKind::Opaque {
        def_id: OpaqueTyId::from_number(0),
    };
    let name = Symbol::from_number(0);
    TyKind::Bool.is_known_rigid()
        && TyKind::Ref(Region::new_static(), Ty::from_number(1), Mutability::Not).is_known_rigid()
        && !TyKind::Error(ErrorGuaranteed(3)).is_known_rigid()
        && !TyKind::Infer(InferTy::TyVar(TyVid::from_u32(0))).is_known_rigid()
        && !TyKind::Alias(AliasTy { args, kind }).is_known_rigid()
        && !TyKind::Param(ParamTy { index: 0, name }).is_known_rigid()
}

// Returns the constant that is bound by the binder of this index.
fn bound_const(index: DebruijnIndex) -> ConstKind {
    let binder = BoundVarIndexKind::Bound(index);
    ConstKind::Bound(binder, BoundConst::new(BoundVar::from_u32(0)))
}

// The flags of a kind itself, and the binder that it reaches.
fn kinds_have_flags() -> bool {
    let (near, far) = (
        bound_const(DebruijnIndex::from_u32(2)),
        bound_const(DebruijnIndex::from_u32(GREATEST_INDEX)),
    );
    let slice = TyKind::Slice(Ty::from_number(1));
    OwnFlags::is_too_deep(&far)
        && !OwnFlags::is_too_deep(&near)
        && !slice.is_too_deep()
        && near.own_outer_exclusive_binder().as_u32() == 3
        && slice.own_outer_exclusive_binder().as_u32() == 0
        && near.own_flags().bits() == 0x100000
        && slice.own_flags().is_empty()
        && TyKind::Error(ErrorGuaranteed(3)).own_flags().bits() == 0x8000
}

// Handles, children, kinds and records, by each call on them.
#[test]
fn calls_on_parts(rt: HostRuntime) {
    assert!(rt;
        handles_have_tables()
            && tables_have_terms()
            && children_are_alike()
            && kinds_have_parts()
            && records_have_parts()
            && kinds_have_binders()
            && clauses_are_predicates()
            && forms_of_types_are_known()
            && kinds_have_flags()
    );
}
