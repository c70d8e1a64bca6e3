//! Orders of values: by their parts, or by their variants and then by their numbers.

use std::cmp::Ordering;
use type_terms::{
    AliasRelationDirection, BoundVar, ConstVid, DebruijnIndex, EarlyBinder, FloatVid, InferConst,
    InferTy, IntVid, Placeholder, TyVid, TypeFlags, UniverseIndex, WithCachedTypeInfo,
};

// Returns whether the first comes before the second.
fn precedes<T: Ord>(first: &T, second: &T) -> bool {
    first.cmp(second) == Ordering::Less && second.cmp(first) == Ordering::Greater
}

// A placeholder is ordered by its universe, and then by its variable.
#[test]
fn orders_of_parts(rt: HostRuntime) {
    let zero = BoundVar::from_u32(0);
    let one = BoundVar::from_u32(1);
    let near = Placeholder::new(UniverseIndex::from_u32(0), one);
    let far = Placeholder::new(UniverseIndex::from_u32(1), zero);
    let last = Placeholder::new(UniverseIndex::from_u32(1), one);
    assert!(rt; precedes(&near, &far) && precedes(&far, &last));
    assert!(rt; precedes(&EarlyBinder::bind(zero), &EarlyBinder::bind(one)));
}

// Returns whether each item comes before the next one.
fn are_in_order<T: Ord>(items: &[T]) -> bool {
    for at in 1..items.len() {
        if !precedes(&items[at - 1], &items[at]) {
            return false;
        }
    }
    true
}

// Inference variables and directions are ordered by variant, and then by number.
#[test]
fn orders_of_variants(rt: HostRuntime) {
    assert!(rt;
        are_in_order(&[
            InferTy::TyVar(TyVid::from_u32(7)),
            InferTy::IntVar(IntVid::from_u32(6)),
            InferTy::FloatVar(FloatVid::from_u32(5)),
            InferTy::FreshTy(3),
            InferTy::FreshTy(4),
            InferTy::FreshIntTy(2),
            InferTy::FreshFloatTy(1),
        ])
    );
    assert!(rt; are_in_order(&[InferConst::Var(ConstVid::from_u32(1)), InferConst::Fresh(0)]));
    assert!(rt;
        precedes(
            &AliasRelationDirection::Equate,
            &AliasRelationDirection::Subtype
        )
    );
}

// The flags beside a value take no part in comparisons.
#[test]
fn cached_flags_are_not_compared(rt: HostRuntime) {
    let one = WithCachedTypeInfo {
        internee: 1,
        flags: TypeFlags::empty(),
        outer_exclusive_binder: DebruijnIndex::INNERMOST,
    };
    let flagged = WithCachedTypeInfo {
        flags: TypeFlags::HAS_PARAM,
        ..one
    };
    let two = WithCachedTypeInfo { internee: 2, ..one };
    assert!(rt; one == flagged && one != two && flagged < two);
    assert!(rt; one.cmp(&flagged).is_eq());
    assert_eq!(rt; *two, 2);
}
