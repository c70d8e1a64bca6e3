//! Lists: of an iterator's items, of existential predicates, and by index.

use test_terms::{
    NOT_OWNED, args, args_from_iter, existential, one_region, param_ty, two_existentials, tys,
    tys_from_iter, u32_ty,
};
use type_terms::{
    AliasTy, AliasTyKind, Binder, BoundExistentialPredicates, BoundVarKinds, ExistentialPredicate,
    ExistentialTraitRef, FieldIdx, GenericArg, GenericArgs, IndexVec, InternedAlias, Interner,
    OpaqueTyId, Refusal, Region, TraitId, Tys, are_owned,
};

/// The list of an iterator's types is the list of their slice, of no type and of nine types too.
pub fn types_of_an_iterator(cx: &mut Interner) -> Result<bool, Refusal> {
    let number = u32_ty(cx)?;
    let other = param_ty(cx, 0)?;
    let items = [
        other, number, number, number, number, number, number, number, number,
    ];
    let by_iterator = tys_from_iter(cx, items.as_slice())?;
    let by_slice = tys(cx, items.as_slice())?;
    let of_none = tys_from_iter(cx, &[])?;
    Ok(by_iterator == by_slice && of_none == Tys::default() && of_none != by_slice)
}

// Returns the arguments of an opaque type that is made of these.
fn alias_args(cx: &mut Interner, items: &[GenericArg]) -> Result<GenericArgs, Refusal> {
    let kind = AliasTyKind::Opaque {
        def_id: OpaqueTyId::from_number(0),
    };
    if are_owned(cx, items) {
        Ok(AliasTy::new(cx, kind, items.iter().copied())?.args)
    } else {
        Err(NOT_OWNED)
    }
}

/// The list of an iterator's generic arguments is the list of their slice, whose order counts, and so are an alias's.
pub fn arguments_of_an_iterator(cx: &mut Interner) -> Result<bool, Refusal> {
    let number = GenericArg::from(u32_ty(cx)?);
    let region = GenericArg::from(Region::new_static());
    let by_slice = args(cx, &[number, region])?;
    let by_iterator = args_from_iter(cx, &[number, region])?;
    let by_alias = alias_args(cx, &[number, region])?;
    let turned = args_from_iter(cx, &[region, number])?;
    let of_none = args_from_iter(cx, &[])?;
    Ok(
        by_iterator == by_slice
            && by_alias == by_slice
            && turned != by_slice
            && of_none == GenericArgs::default(),
    )
}

// Returns the list of these predicates, by one call.
fn at_once(
    cx: &mut Interner,
    predicates: &[Binder<ExistentialPredicate>],
) -> Result<BoundExistentialPredicates, Refusal> {
    if cx.owns_existential_kinds(predicates) {
        cx.mk_existentials(predicates)
    } else {
        Err(NOT_OWNED)
    }
}

/// A list of a trait and an auto trait is the same whether it is built at once or one by one. Ten predicates are more
/// than are collected in place.
pub fn existentials_at_once(cx: &mut Interner) -> Result<bool, Refusal> {
    let vars = one_region(cx)?;
    let trait_ref = ExistentialTraitRef {
        def_id: TraitId::from_number(0),
        args: GenericArgs::default(),
    };
    let principal = ExistentialPredicate::Trait(trait_ref);
    let marker = ExistentialPredicate::AutoTrait(TraitId::from_number(1));
    let plain = Binder::bind_with_vars(principal, BoundVarKinds::default());
    let bound = Binder::bind_with_vars(marker, vars);
    let built = at_once(cx, &[plain, bound])?;
    let long = at_once(cx, [plain; 10].as_slice())?;
    let first = existential(cx, principal, BoundVarKinds::default())?;
    let second = existential(cx, marker, vars)?;
    let of_none = at_once(cx, &[])?;
    Ok(
        two_existentials(cx, first, second)? == built
            && long != built
            && of_none == BoundExistentialPredicates::default(),
    )
}

/// After a refused push the list has the items that it had.
pub fn items_are_pushed(cx: &mut Interner) -> Result<bool, Refusal> {
    let mut list: IndexVec<FieldIdx, u32> = IndexVec::new(cx.allocator());
    for item in 0..9 {
        if !list.has_next_index() {
            return Ok(false);
        }
        let length = list.len();
        match list.push(item) {
            Ok(index) if index.as_usize() == length => {}
            Ok(_) => return Ok(false),
            Err(refusal) => {
                let is_kept = list.len() == length && list.raw().iter().copied().eq(0..item);
                return if is_kept { Err(refusal) } else { Ok(false) };
            }
        }
    }
    Ok(list.raw().iter().copied().eq(0..9))
}
