//! A user's normalizer: an alias is replaced by its declared right side, instantiated with the alias's arguments.

ghost use Rattle.tt_kinds.specs.Kinds.{ty_shape};

use super::holds_within;
use test_terms::{NOT_OWNED, args, bound_region, param_ty, ref_ty, ty, u32_ty};
use type_terms::{
    AliasTy, AliasTyKind, EarlyBinder, FreeTyAliasId, GenericArg, Instantiate, InternedKind,
    Interner, Owned, Refusal, Step, Ty, TyKind, TypeFoldable, TypeReplacer, replace_types,
};

// Replaces the uses of the one declared alias by its right side.
#[derive(Drop)]
struct Normalizer {
    right_side: EarlyBinder<Ty>,
}

impl TypeReplacer for Normalizer {
    type Error = Refusal;

    ghost shape = { λ s. ty_shape s.right_side.value };

    fn replace_ty(&mut self, cx: &mut Interner, ty: Ty) -> Result<Step<Ty>, Refusal> {
        let TyKind::Alias(alias) = *ty.kind(cx) else {
            return Ok(Step::Descend);
        };
        if !cx.owns(alias.args) {
            return Err(NOT_OWNED);
        }
        let instance = self.right_side.instantiate(cx, alias.args)?;
        Ok(Step::Replace(instance.skip_norm_wip()))
    }
}

// Returns the alias with this argument.
fn alias(cx: &mut Interner, argument: Ty) -> Result<Ty, Refusal> {
    let args = args(cx, &[GenericArg::from(argument)])?;
    let kind = AliasTyKind::Free {
        def_id: FreeTyAliasId::from_number(0),
    };
    ty(cx, TyKind::Alias(AliasTy { args, kind }))
}

// Returns the value with the alias replaced by the right side.
fn normalized<T: Owned + TypeFoldable>(
    cx: &mut Interner,
    value: T,
    folder: &mut Normalizer,
) -> Result<T, Refusal> {
    if value.is_owned(cx) && folder.right_side.skip_binder().is_owned(cx) {
        replace_types(cx, value, folder)
    } else {
        Err(NOT_OWNED)
    }
}

// The alias is normalized to the slice of its argument, inside references too. There is no room for another instance; the
// folder is used again, and finds one that is there.
fn aliases_are_normalized_holds(cx: &mut Interner) -> Result<bool, Refusal> {
    let parameter = param_ty(cx, 0)?;
    let right_side = ty(cx, TyKind::Slice(parameter))?;
    let number = u32_ty(cx)?;
    let use_of_number = alias(cx, number)?;
    let reference = ref_ty(cx, bound_region(0)?, use_of_number)?;
    let slice = ty(cx, TyKind::Slice(number))?;
    let reference_to_slice = ref_ty(cx, bound_region(0)?, slice)?;
    let use_of_reference = alias(cx, reference)?;
    let use_of_parameter = alias(cx, parameter)?;
    let mut folder = Normalizer {
        right_side: EarlyBinder::bind(right_side),
    };
    Ok(
        normalized(cx, (use_of_number, reference), &mut folder) == Ok((slice, reference_to_slice))
            && normalized(cx, use_of_reference, &mut folder) == Err(Refusal::TableFull)
            && normalized(cx, use_of_parameter, &mut folder) == Ok(right_side),
    )
}

#[test]
fn aliases_are_normalized(rt: HostRuntime) {
    holds_within(&rt, rt.alloc(), 9, aliases_are_normalized_holds);
}
