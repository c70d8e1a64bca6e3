//! Variables of binders, placeholders, values of constants, and declarations: calls that read one value.

use type_terms::{
    AliasTyKind, Binder, BoundConst, BoundRegion, BoundRegionKind, BoundTy, BoundTyKind, BoundVar,
    BoundVarIndexKind, BoundVarKinds, BoundVariableKind, Const, Consts, DebruijnIndex,
    DeclarationKind, DeclarationSort, DefId, EarlyBinder, FnSig, FreeTyAliasId, GREATEST_INDEX,
    GenericArg, GenericArgKind, ImplId, InherentAssocTyId, OpaqueTyId, PlaceholderConst,
    PlaceholderRegion, PlaceholderType, Refusal, Region, RegionKind, ScalarInt, Symbol, Term,
    TermKind, TraitAssocTyId, TraitId, Ty, UniverseIndex, ValTree, ValTreeKind,
};

// The entries of a binder's list, and the names in them. A region has an id if it is declared.
fn entries_are_read() -> bool {
    let id = DefId::from_number(4);
    let (named, param) = (BoundRegionKind::Named(id), BoundTyKind::Param(id));
    let (region, ty) = (
        BoundVariableKind::Region(named),
        BoundVariableKind::Ty(param),
    );
    let constant = BoundVariableKind::Const;
    named.get_id() == Some(id)
        && BoundRegionKind::Anon.get_id() == None
        && BoundRegionKind::NamedForPrinting(Symbol::from_number(2)).get_id() == None
        && BoundRegionKind::ClosureEnv.get_id() == None
        && region.is_region()
        && !region.is_ty()
        && !region.is_const()
        && region.expect_region() == named
        && ty.is_ty()
        && !ty.is_region()
        && !ty.is_const()
        && ty.expect_ty() == param
        && constant.is_const()
        && !constant.is_region()
        && !constant.is_ty()
}

// Returns the region that has this name, in its binder's list at place 3.
fn region_of(kind: BoundRegionKind) -> BoundRegion {
    BoundRegion {
        var: BoundVar::from_u32(3),
        kind,
    }
}

// The same of a type.
fn type_of(kind: BoundTyKind) -> BoundTy {
    BoundTy {
        var: BoundVar::from_u32(3),
        kind,
    }
}

// Returns the name of a declared region.
fn declared() -> BoundRegionKind {
    BoundRegionKind::Named(DefId::from_number(4))
}

// A variable agrees with the entry of its kind and its name.
fn variables_agree() -> bool {
    let var = BoundVar::from_u32(3);
    let param = BoundTyKind::Param(DefId::from_number(4));
    region_of(declared()).agrees(BoundVariableKind::Region(declared()))
        && !region_of(declared()).agrees(BoundVariableKind::Region(BoundRegionKind::Anon))
        && !region_of(BoundRegionKind::Anon).agrees(BoundVariableKind::Const)
        && type_of(BoundTyKind::Anon).agrees(BoundVariableKind::Ty(BoundTyKind::Anon))
        && !type_of(BoundTyKind::Anon).agrees(BoundVariableKind::Ty(param))
        && !type_of(BoundTyKind::Anon).agrees(BoundVariableKind::Const)
        && BoundConst::new(var).agrees(BoundVariableKind::Const)
        && !BoundConst::new(var).agrees(BoundVariableKind::Region(declared()))
        && region_of(declared()).var() == var
        && type_of(BoundTyKind::Anon).var() == var
        && BoundConst::new(var).var() == var
}

// A variable of the binder of index 2 reaches three binders, and one of a canonical query none.
fn binders_are_reached() -> bool {
    let near = BoundVarIndexKind::Bound(DebruijnIndex::from_u32(2));
    let canonical = BoundVarIndexKind::Canonical;
    let far = DebruijnIndex::from_u32(GREATEST_INDEX);
    near != canonical
        && near.is_shallow()
        && near.outer_exclusive_binder().as_u32() == 3
        && canonical.is_shallow()
        && canonical.outer_exclusive_binder().as_u32() == 0
        && !BoundVarIndexKind::Bound(far).is_shallow()
}

// A region's flags, and the binder that it reaches.
fn regions_are_read() -> Result<bool, Refusal> {
    let near = BoundVarIndexKind::Bound(DebruijnIndex::from_u32(2));
    let bound = RegionKind::ReBound(near, region_of(declared()));
    let outside = RegionKind::ReBound(BoundVarIndexKind::Canonical, region_of(declared()));
    for (kind, flags, outer) in [
        (RegionKind::ReStatic, 0x20000, 0),
        (RegionKind::ReErased, 0x200000, 0),
        (bound, 0x40000, 3),
        (outside, 0x4040000, 0),
    ] {
        let region = Region::new(kind)?;
        if region.kind() != kind
            || !region.in_range()
            || region.kind().flags().bits() != flags
            || region.kind().outer_exclusive_binder().as_u32() != outer
        {
            return Ok(false);
        }
    }
    Ok(true)
}

// Placeholders have a universe, which can be changed, and their variable's place.
fn placeholders_are_read() -> bool {
    let (one, two) = (UniverseIndex::from_u32(1), UniverseIndex::from_u32(2));
    let var = BoundVar::from_u32(3);
    let moved = PlaceholderType::new_anon(one, var).with_updated_universe(two);
    moved == PlaceholderType::new_anon(two, var)
        && PlaceholderType::new_anon(one, var).universe() == one
        && PlaceholderType::new_anon(one, var).var() == var
        && PlaceholderRegion::new_anon(one, var).var() == var
        && PlaceholderConst::new_anon(one, var).var() == var
}

// A value is a leaf of bits, or a branch of further values.
fn values_are_read() -> bool {
    let (bits, values) = (ScalarInt { bits: 7, size: 4 }, Consts::from_number(5));
    let (leaf, branch) = (ValTreeKind::Leaf(bits), ValTreeKind::Branch(values));
    leaf.to_leaf() == bits
        && branch.to_branch() == values
        && leaf.try_to_leaf() == Some(bits)
        && leaf.try_to_branch() == None
        && branch.try_to_branch() == Some(values)
        && branch.try_to_leaf() == None
        && ValTree::from(branch).kind() == branch
}

// A term is a type or a constant, and an argument a region too.
fn terms_and_arguments_are_read() -> bool {
    let (ty, constant) = (Ty::from_number(3), Const::from_number(4));
    let region = GenericArg::from(Region::new_static());
    Term::from(ty).kind() == TermKind::Ty(ty)
        && Term::from(constant).kind() == TermKind::Const(constant)
        && GenericArg::from(ty).kind() == GenericArgKind::Type(ty)
        && GenericArg::from(ty).as_type() == Some(ty)
        && GenericArg::from(ty).as_const() == None
        && GenericArg::from(constant).as_const() == Some(constant)
        && GenericArg::from(constant).as_type() == None
        && region.as_type() == None
        && region.as_const() == None
}

// The names of aliases in messages.
fn aliases_are_described() -> bool {
    let projection = AliasTyKind::Projection {
        def_id: TraitAssocTyId::from_number(0),
    };
    let inherent = AliasTyKind::Inherent {
        def_id: InherentAssocTyId::from_number(1),
    };
    let opaque = AliasTyKind::Opaque {
        def_id: OpaqueTyId::from_number(2),
    };
    let free = AliasTyKind::Free {
        def_id: FreeTyAliasId::from_number(3),
    };
    projection.descr() == "associated type"
        && inherent.descr() == "inherent associated type"
        && opaque.descr() == "opaque type"
        && free.descr() == "type alias"
}

// Each kind of a declaration has its sort.
fn declarations_have_sorts() -> bool {
    let sig = Binder::bind_with_vars(FnSig::dummy(), BoundVarKinds::default());
    let (of_trait, of_impl) = (TraitId::from_number(0), ImplId::from_number(1));
    for (kind, wanted) in [
        (DeclarationKind::Trait { params: 2 }, DeclarationSort::Trait),
        (DeclarationKind::AssocTy(of_trait), DeclarationSort::AssocTy),
        (DeclarationKind::Impl, DeclarationSort::Impl),
        (
            DeclarationKind::Inherent(of_impl),
            DeclarationSort::Inherent,
        ),
        (DeclarationKind::Adt, DeclarationSort::Adt),
        (
            DeclarationKind::Fn(EarlyBinder::bind(sig)),
            DeclarationSort::Fn,
        ),
        (DeclarationKind::Opaque, DeclarationSort::Opaque),
        (DeclarationKind::Free, DeclarationSort::Free),
        (DeclarationKind::Foreign, DeclarationSort::Foreign),
        (DeclarationKind::Closure, DeclarationSort::Closure),
        (
            DeclarationKind::CoroutineClosure,
            DeclarationSort::CoroutineClosure,
        ),
        (DeclarationKind::Coroutine, DeclarationSort::Coroutine),
        (DeclarationKind::Const, DeclarationSort::Const),
        (DeclarationKind::Param, DeclarationSort::Param),
    ] {
        if kind.sort() != wanted {
            return false;
        }
    }
    true
}

#[test]
fn calls_on_values(rt: HostRuntime) {
    assert!(rt;
        entries_are_read()
            && variables_agree()
            && binders_are_reached()
            && regions_are_read() == Ok(true)
            && placeholders_are_read()
            && values_are_read()
            && terms_and_arguments_are_read()
            && aliases_are_described()
            && declarations_have_sorts()
    );
}
