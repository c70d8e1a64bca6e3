//! Folders whose hooks build terms, one of them with an error of its own.

ghost use Rattle.std.specs.Prelude.{◌≡◌, ⊤, refl};
ghost use Rattle.cases.specs.Folders.{no_promise};

use test_terms::{NOT_OWNED, bound_region, ref_ty, tuple, ty, u32_ty};
use type_terms::{
    BoundVarKinds, Clauses, Const, FallibleTypeFolder, Interner, Owned, Predicate, Refusal, Region,
    Step, Ty, TyKind, TypeFoldable, TypeFolder, TypeSuperFoldable,
};

// Puts a type, once it is rebuilt, into a slice. It promises nothing of its hooks.
#[derive(Drop)]
struct Slices {
    of: Ty,
}

impl TypeFolder for Slices {
    ghost Meaning = { ⊤ };

    ghost meaning = { λ _ _. tt };

    ghost owned = { λ _ _. ⊤ };

    ghost hooks = { no_promise };

    fn fold_region(&mut self, _cx: &mut Interner, region: Region) -> Result<Region, Refusal> {
        Ok(region)
    }

    fn fold_ty(&mut self, _cx: &mut Interner, _ty: Ty) -> Result<Step<Ty>, Refusal> {
        Ok(Step::Descend)
    }

    fn after_ty(&mut self, cx: &mut Interner, before: Ty, rebuilt: Ty) -> Result<Ty, Refusal> {
        if before == self.of {
            cx.mk_ty(TyKind::Slice(rebuilt))
        } else {
            Ok(rebuilt)
        }
    }

    fn fold_const(&mut self, _cx: &mut Interner, _constant: Const) -> Result<Step<Const>, Refusal> {
        Ok(Step::Descend)
    }

    fn after_const(
        &mut self,
        _cx: &mut Interner,
        _before: Const,
        rebuilt: Const,
    ) -> Result<Const, Refusal> {
        Ok(rebuilt)
    }

    fn fold_predicate(
        &mut self,
        _cx: &mut Interner,
        _predicate: Predicate,
    ) -> Result<Step<Predicate>, Refusal> {
        Ok(Step::Descend)
    }

    fn after_predicate(
        &mut self,
        _cx: &mut Interner,
        _before: Predicate,
        rebuilt: Predicate,
    ) -> Result<Predicate, Refusal> {
        Ok(rebuilt)
    }

    fn fold_clauses(
        &mut self,
        _cx: &mut Interner,
        _clauses: Clauses,
    ) -> Result<Step<Clauses>, Refusal> {
        Ok(Step::Descend)
    }

    fn after_clauses(
        &mut self,
        _cx: &mut Interner,
        _before: Clauses,
        rebuilt: Clauses,
    ) -> Result<Clauses, Refusal> {
        Ok(rebuilt)
    }

    fn fold_binder(&mut self, _cx: &mut Interner, _vars: BoundVarKinds) -> Result<(), Refusal> {
        Ok(())
    }

    fn after_binder(&mut self, _cx: &mut Interner, _vars: BoundVarKinds) -> Result<(), Refusal> {
        Ok(())
    }

    ghost still_owned = { λ old new s g h. tt };

    ghost still_means = { λ old new s g h. refl };
}

// Why a fold ended.
#[derive(Clone, Copy, PartialEq, Eq)]
enum Stop {
    Refused(Refusal),
    // The type at which the folder stops was met.
    Met,
}

impl From<Refusal> for Stop {
    ghost use Rattle.cases.specs.declared.routines.folders.Stop.TheVariants.{Refused};

    ghost from_gives = { λ refusal e. e ≡ Refused refusal };

    fn from(refusal: Refusal) -> Stop {
        Stop::Refused(refusal)
    }
}

// Replaces a type by its slice, and stops at another type. It promises nothing of its hooks.
#[derive(Drop)]
struct SlicesUntil {
    of: Ty,
    end: Ty,
}

impl FallibleTypeFolder for SlicesUntil {
    type Error = Stop;

    ghost Meaning = { ⊤ };

    ghost meaning = { λ _ _. tt };

    ghost owned = { λ _ _. ⊤ };

    ghost hooks = { no_promise };

    fn try_fold_region(&mut self, _cx: &mut Interner, region: Region) -> Result<Region, Stop> {
        Ok(region)
    }

    fn try_fold_ty(&mut self, cx: &mut Interner, ty: Ty) -> Result<Step<Ty>, Stop> {
        if ty == self.end {
            return Err(Stop::Met);
        }
        if ty == self.of {
            let slice = cx.mk_ty(TyKind::Slice(ty))?;
            Ok(Step::Replace(slice))
        } else {
            Ok(Step::Descend)
        }
    }

    fn after_ty(&mut self, _cx: &mut Interner, _before: Ty, rebuilt: Ty) -> Result<Ty, Stop> {
        Ok(rebuilt)
    }

    fn try_fold_const(
        &mut self,
        _cx: &mut Interner,
        _constant: Const,
    ) -> Result<Step<Const>, Stop> {
        Ok(Step::Descend)
    }

    fn after_const(
        &mut self,
        _cx: &mut Interner,
        _before: Const,
        rebuilt: Const,
    ) -> Result<Const, Stop> {
        Ok(rebuilt)
    }

    fn try_fold_predicate(
        &mut self,
        _cx: &mut Interner,
        _predicate: Predicate,
    ) -> Result<Step<Predicate>, Stop> {
        Ok(Step::Descend)
    }

    fn after_predicate(
        &mut self,
        _cx: &mut Interner,
        _before: Predicate,
        rebuilt: Predicate,
    ) -> Result<Predicate, Stop> {
        Ok(rebuilt)
    }

    fn try_fold_clauses(
        &mut self,
        _cx: &mut Interner,
        _clauses: Clauses,
    ) -> Result<Step<Clauses>, Stop> {
        Ok(Step::Descend)
    }

    fn after_clauses(
        &mut self,
        _cx: &mut Interner,
        _before: Clauses,
        rebuilt: Clauses,
    ) -> Result<Clauses, Stop> {
        Ok(rebuilt)
    }

    fn try_fold_binder(&mut self, _cx: &mut Interner, _vars: BoundVarKinds) -> Result<(), Stop> {
        Ok(())
    }

    fn after_binder(&mut self, _cx: &mut Interner, _vars: BoundVarKinds) -> Result<(), Stop> {
        Ok(())
    }

    ghost still_owned = { λ old new s g h. tt };

    ghost still_means = { λ old new s g h. refl };
}

// Returns the value with the type in slices.
fn sliced<T: Owned + TypeFoldable>(cx: &mut Interner, value: T, of: Ty) -> Result<T, Refusal> {
    if value.is_owned(cx) {
        value.fold_with(cx, &mut Slices { of })
    } else {
        Err(NOT_OWNED)
    }
}

// Returns the same without the value's own hook.
fn sliced_inside<T: Owned + TypeSuperFoldable>(
    cx: &mut Interner,
    value: T,
    of: Ty,
) -> Result<T, Refusal> {
    if value.is_owned(cx) {
        value.super_fold_with(cx, &mut Slices { of })
    } else {
        Err(NOT_OWNED)
    }
}

// Returns the value with slices of the type in the type's places, or none if the fold met the end.
fn sliced_until<T: Owned + TypeFoldable>(
    cx: &mut Interner,
    value: T,
    of: Ty,
    end: Ty,
) -> Result<Option<T>, Refusal> {
    if !value.is_owned(cx) {
        return Err(NOT_OWNED);
    }
    known(value.try_fold_with(cx, &mut SlicesUntil { of, end }))
}

// Returns the same without the value's own hook.
fn sliced_inside_until<T: Owned + TypeSuperFoldable>(
    cx: &mut Interner,
    value: T,
    of: Ty,
    end: Ty,
) -> Result<Option<T>, Refusal> {
    if !value.is_owned(cx) {
        return Err(NOT_OWNED);
    }
    known(value.try_super_fold_with(cx, &mut SlicesUntil { of, end }))
}

// Returns the result of a fold, or none if it met the end.
fn known<T>(outcome: Result<T, Stop>) -> Result<Option<T>, Refusal> {
    match outcome {
        Ok(value) => Ok(Some(value)),
        Err(Stop::Refused(refusal)) => Err(refusal),
        Err(Stop::Met) => Ok(None),
    }
}

/// A type at any depth is put into a slice after its contents. A fold of the type's contents leaves the type itself.
pub fn rebuilt_types_are_sliced(cx: &mut Interner) -> Result<bool, Refusal> {
    let number = u32_ty(cx)?;
    let region = bound_region(0)?;
    let single = tuple(cx, &[number])?;
    let borrowed = ref_ty(cx, region, single)?;
    let whole = sliced(cx, (borrowed, number), single)?;
    let inside = sliced_inside(cx, borrowed, single)?;
    let kept = sliced_inside(cx, single, single)?;
    let slice = ty(cx, TyKind::Slice(single))?;
    let wanted = ref_ty(cx, region, slice)?;
    Ok(whole == (wanted, number) && inside == wanted && kept == single)
}

/// A folder replaces a type before its contents. Its own error, which is no refusal, ends the fold.
pub fn folds_end_at_errors(cx: &mut Interner) -> Result<bool, Refusal> {
    let number = u32_ty(cx)?;
    let truth = ty(cx, TyKind::Bool)?;
    let region = bound_region(0)?;
    let pair = tuple(cx, &[number, truth])?;
    let single = tuple(cx, &[truth])?;
    let borrowed = ref_ty(cx, region, pair)?;
    let whole = sliced_until(cx, (borrowed, single), pair, number)?;
    let ended = sliced_until(cx, (borrowed, single), pair, truth)?;
    let inside = sliced_inside_until(cx, borrowed, pair, borrowed)?;
    let ended_inside = sliced_inside_until(cx, pair, pair, truth)?;
    let slice = ty(cx, TyKind::Slice(pair))?;
    let wanted = ref_ty(cx, region, slice)?;
    Ok(
        whole == Some((wanted, single))
            && ended == None
            && inside == Some(wanted)
            && ended_inside == None,
    )
}
