//! Indices, universes, variances, calling conventions, flags and values of variables: calls on numbers alone.

use type_terms::{
    BoundVar, ClosureKind, DebruijnIndex, ExternAbi, FlagComputation, FloatTy, FloatVarValue,
    GREATEST_INDEX, Idx, IntTy, IntVarValue, TypeFlags, UintTy, UniverseIndex, Variance,
};

// The index 2 is 5 inside of three more binders, and comes back. The greatest index moves into none, and an index out of
// no more binders than are around it.
fn indices_are_shifted() -> bool {
    let (two, five) = (DebruijnIndex::from_u32(2), DebruijnIndex::from_u32(5));
    let greatest = DebruijnIndex::from_u32(GREATEST_INDEX);
    two.can_shift_in(3)
        && two.shifted_in(3) == five
        && greatest.can_shift_in(0)
        && !greatest.can_shift_in(1)
        && five.can_shift_out(3)
        && five.shifted_out(3) == two
        && !two.can_shift_out(3)
        && five.can_shift_out(2)
        && five.shifted_out_to_binder(two).as_u32() == 3
}

// The same in place.
fn an_index_is_moved() -> bool {
    let two = DebruijnIndex::from_u32(2);
    let mut moved = two;
    if !moved.can_shift_in(3) {
        return false;
    }
    moved.shift_in(3);
    let inside = moved.as_u32();
    if !moved.can_shift_out(4) {
        return false;
    }
    moved.shift_out(4);
    inside == 5 && moved.as_u32() == 1
}

// A universe sees the names of those before it and its own.
fn universes_are_compared() -> bool {
    let root = UniverseIndex::ROOT;
    if !root.has_next() {
        return false;
    }
    let next = root.next_universe();
    root.is_root()
        && next == UniverseIndex::from_u32(1)
        && !next.is_root()
        && !UniverseIndex::from_u32(GREATEST_INDEX).has_next()
        && next.can_name(root)
        && next.can_name(next)
        && !root.can_name(next)
        && root.cannot_name(next)
        && !next.cannot_name(root)
        && !next.cannot_name(next)
}

// The number of an index as a position, by the trait's methods.
fn indices_are_positions() -> bool {
    let index: BoundVar = Idx::from_usize(7);
    index.as_u32() == 7 && Idx::as_usize(index) == 7
}

// A context's variance with the one of a place inside of it.
fn variances_are_composed() -> bool {
    let (co, contra) = (Variance::Covariant, Variance::Contravariant);
    let (neither, both) = (Variance::Invariant, Variance::Bivariant);
    for (context, inner, wanted) in [
        (co, contra, contra),
        (contra, co, contra),
        (contra, contra, co),
        (co, neither, neither),
        (contra, neither, neither),
        (neither, co, neither),
        (neither, both, neither),
        (both, neither, both),
        (contra, both, both),
    ] {
        if context.xform(inner) != wanted {
            return false;
        }
    }
    true
}

// The number of each convention, and the convention of each number.
fn conventions_have_numbers() -> bool {
    for (number, abi) in [
        (0, ExternAbi::Rust),
        (1, ExternAbi::C { unwind: false }),
        (2, ExternAbi::C { unwind: true }),
        (3, ExternAbi::System { unwind: false }),
        (4, ExternAbi::System { unwind: true }),
        (5, ExternAbi::RustCall),
        (6, ExternAbi::Unadjusted),
    ] {
        if number > 6 || abi.as_packed() != number || ExternAbi::from_packed(number) != abi {
            return false;
        }
    }
    true
}

// What implements `Fn` has to implement all three, and what implements `FnOnce` no other.
fn closure_kinds_extend() -> bool {
    ClosureKind::Fn.extends(ClosureKind::FnOnce)
        && ClosureKind::Fn.extends(ClosureKind::FnMut)
        && ClosureKind::FnMut.extends(ClosureKind::FnMut)
        && !ClosureKind::FnMut.extends(ClosureKind::Fn)
        && !ClosureKind::FnOnce.extends(ClosureKind::FnMut)
}

// The value of an inference variable for a number is known once it has a type.
fn values_are_known() -> bool {
    let (int, float) = (IntVarValue::Unknown, FloatVarValue::Unknown);
    int.is_unknown()
        && !int.is_known()
        && IntVarValue::IntType(IntTy::I8).is_known()
        && !IntVarValue::IntType(IntTy::I8).is_unknown()
        && IntVarValue::UintType(UintTy::U128).is_known()
        && float.is_unknown()
        && !float.is_known()
        && FloatVarValue::Known(FloatTy::F32).is_known()
        && !FloatVarValue::Known(FloatTy::F32).is_unknown()
}

// Sets of flags.
fn flags_are_sets() -> bool {
    let (types, regions) = (TypeFlags::HAS_TY_PARAM, TypeFlags::HAS_RE_PARAM);
    let both = types.union(regions);
    both == TypeFlags::from_bits_retain(0x3)
        && both.intersection(TypeFlags::HAS_PARAM) == both
        && TypeFlags::HAS_PARAM.difference(both) == TypeFlags::HAS_CT_PARAM
        && both.contains(types)
        && !types.contains(both)
        && both.intersects(types)
        && !types.intersects(regions)
        && types.intersection(regions).is_empty()
        && !both.is_empty()
}

// Returns the information of these flags and this outer exclusive binder.
fn computed(bits: u32, outer_exclusive_binder: DebruijnIndex) -> FlagComputation {
    FlagComputation {
        flags: TypeFlags::from_bits_retain(bits),
        outer_exclusive_binder,
    }
}

// The information of a term is made of its parts': all of their flags, and the outermost binder that is reached.
fn information_is_joined() -> bool {
    let (two, three) = (DebruijnIndex::from_u32(2), DebruijnIndex::from_u32(3));
    if !two.can_shift_in(1) {
        return false;
    }
    let none = DebruijnIndex::INNERMOST;
    let variable = FlagComputation::bound_at(TypeFlags::HAS_TY_BOUND, two);
    let leaf = FlagComputation::leaf(TypeFlags::HAS_TY_PARAM);
    let both = leaf.joined(variable);
    FlagComputation::new() == computed(0, none)
        && leaf == computed(0x1, none)
        && variable == computed(0x80000, three)
        && both == computed(0x80001, three)
        && both.under_binder(TypeFlags::HAS_BINDER_VARS) == computed(0x1080001, two)
        && leaf.under_binder(TypeFlags::empty()) == leaf
}

// Indices, universes, variances, conventions, flags and cached information, by each call on them.
#[test]
fn calls_on_numbers(rt: HostRuntime) {
    assert!(rt;
        indices_are_shifted()
            && an_index_is_moved()
            && universes_are_compared()
            && indices_are_positions()
            && variances_are_composed()
            && conventions_have_numbers()
            && closure_kinds_extend()
            && values_are_known()
            && flags_are_sets()
            && information_is_joined()
    );
}
