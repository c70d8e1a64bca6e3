//! A user's canonicalizer: inference variables are replaced by variables of a canonical query.

use super::{holds_anew, holds_within};
use std::alloc::Global;
use test_terms::{
    NOT_OWNED, bound_region, constant, one_region, pointer, ref_ty, region_variable, ty, tys,
    u32_ty,
};
use type_terms::{
    Binder, BoundConst, BoundRegion, BoundRegionKind, BoundTy, BoundTyKind, BoundVar,
    BoundVarIndexKind, BoundVarKinds, Const, ConstKind, ConstVid, DebruijnIndex, InferConst,
    InferTy, InternedKind, Interner, Owned, Refusal, Region, RegionKind, RegionVid, Replacer, Step,
    Ty, TyKind, TyVid, TypeFoldable, replace_terms,
};

// An inference variable.
#[derive(Clone, Copy, Debug, PartialEq, Eq)]
enum InferenceVariable {
    Ty(InferTy),
    Region(RegionVid),
    Const(InferConst),
}

// Why a value isn't made canonical.
#[derive(Clone, Copy, Debug, PartialEq, Eq)]
enum Fault {
    // A variable is bound outside of the value.
    Escapes,
    // The library refused a call.
    Refused(Refusal),
}

impl From<Refusal> for Fault {
    fn from(refusal: Refusal) -> Fault {
        Fault::Refused(refusal)
    }
}

// Returns the number as the number of a bound variable.
fn bound_var(number: u32) -> Result<BoundVar, Refusal> {
    if BoundVar::fits(number) {
        Ok(BoundVar::from_u32(number))
    } else {
        Err(Refusal::GreatestIndex)
    }
}

// Replaces inference variables by variables of a canonical query, in the order of their first occurrence. The query is
// outside of every term, so its variables are not shifted under binders.
#[derive(Drop)]
struct Canonicalizer {
    met: Vec<InferenceVariable>,
    // how many binders of the value enclose the place that was reached
    depth: DebruijnIndex,
}

impl Canonicalizer {
    // Returns a canonicalizer that has met no variable.
    fn new(alloc: Global) -> Canonicalizer {
        Canonicalizer {
            met: Vec::new(alloc),
            depth: DebruijnIndex::INNERMOST,
        }
    }

    // Returns the number of the variable in the query, a new one if the variable is new.
    fn number_of(&mut self, variable: InferenceVariable) -> Result<BoundVar, Refusal> {
        let place = match self.met.iter().position(|met| *met == variable) {
            Some(place) => place,
            None => {
                self.met.push(variable)?;
                self.met.len() - 1
            }
        };
        let number = u32::try_from(place).or(Err(Refusal::GreatestIndex))?;
        bound_var(number)
    }

    // Refuses a variable that is bound outside of the value.
    fn check(&self, index: BoundVarIndexKind) -> Result<(), Fault> {
        match index {
            BoundVarIndexKind::Bound(debruijn) => {
                if debruijn < self.depth {
                    Ok(())
                } else {
                    Err(Fault::Escapes)
                }
            }
            BoundVarIndexKind::Canonical => Ok(()),
        }
    }
}

impl Replacer for Canonicalizer {
    type Error = Fault;

    fn replace_ty(&mut self, cx: &mut Interner, ty: Ty) -> Result<Step<Ty>, Fault> {
        match *ty.kind(cx) {
            TyKind::Infer(variable) => {
                let var = self.number_of(InferenceVariable::Ty(variable))?;
                let kind = BoundTyKind::Anon;
                let bound = TyKind::Bound(BoundVarIndexKind::Canonical, BoundTy { var, kind });
                Ok(Step::Replace(cx.mk_ty(bound)?))
            }
            TyKind::Bound(index, _) => {
                self.check(index)?;
                Ok(Step::Keep)
            }
            _ => Ok(Step::Descend),
        }
    }

    fn replace_region(&mut self, _cx: &mut Interner, region: Region) -> Result<Region, Fault> {
        match region.kind() {
            RegionKind::ReVar(variable) => {
                let var = self.number_of(InferenceVariable::Region(variable))?;
                let kind = BoundRegionKind::Anon;
                let bound = BoundRegion { var, kind };
                Ok(Region::new(RegionKind::ReBound(BoundVarIndexKind::Canonical, bound))?)
            }
            RegionKind::ReBound(index, _) => {
                self.check(index)?;
                Ok(region)
            }
            _ => Ok(region),
        }
    }

    fn replace_const(&mut self, cx: &mut Interner, constant: Const) -> Result<Step<Const>, Fault> {
        match *constant.kind(cx) {
            ConstKind::Infer(variable) => {
                let var = self.number_of(InferenceVariable::Const(variable))?;
                let bound = ConstKind::Bound(BoundVarIndexKind::Canonical, BoundConst::new(var));
                Ok(Step::Replace(cx.mk_const(bound)?))
            }
            ConstKind::Bound(index, _) => {
                self.check(index)?;
                Ok(Step::Keep)
            }
            _ => Ok(Step::Descend),
        }
    }

    fn enter_binder(&mut self, _cx: &mut Interner, _vars: BoundVarKinds) -> Result<(), Fault> {
        if !self.depth.can_shift_in(1) {
            return Err(Fault::Refused(Refusal::GreatestIndex));
        }
        self.depth.shift_in(1);
        Ok(())
    }

    fn leave_binder(&mut self, _cx: &mut Interner, _vars: BoundVarKinds) -> Result<(), Fault> {
        if self.depth.can_shift_out(1) {
            self.depth.shift_out(1);
        }
        Ok(())
    }
}

// Returns the inference variable of this number.
pub fn variable(cx: &mut Interner, number: u32) -> Result<Ty, Refusal> {
    if TyVid::fits(number) {
        ty(cx, TyKind::Infer(InferTy::TyVar(TyVid::from_u32(number))))
    } else {
        Err(Refusal::GreatestIndex)
    }
}

// Returns the variable of a canonical query of this number.
fn canonical(cx: &mut Interner, number: u32) -> Result<Ty, Refusal> {
    let bound_ty = BoundTy {
        var: bound_var(number)?,
        kind: BoundTyKind::Anon,
    };
    ty(cx, TyKind::Bound(BoundVarIndexKind::Canonical, bound_ty))
}

// Returns the region that is the variable of a canonical query of this number.
fn canonical_region(number: u32) -> Result<Region, Refusal> {
    let bound_region = BoundRegion {
        var: bound_var(number)?,
        kind: BoundRegionKind::Anon,
    };
    Region::new(RegionKind::ReBound(BoundVarIndexKind::Canonical, bound_region))
}

// Returns the constant that is the variable of a canonical query of this number.
fn canonical_const(cx: &mut Interner, number: u32) -> Result<Const, Refusal> {
    let bound_const = BoundConst::new(bound_var(number)?);
    constant(
        cx,
        ConstKind::Bound(BoundVarIndexKind::Canonical, bound_const),
    )
}

// Returns the value with its inference variables replaced by the canonicalizer's.
fn canonicalized<T: Owned + TypeFoldable>(
    cx: &mut Interner,
    value: T,
    folder: &mut Canonicalizer,
) -> Result<T, Fault> {
    // An earlier refusal may have left the folder under a binder.
    folder.depth = DebruijnIndex::INNERMOST;
    if value.is_owned(cx) {
        replace_terms(cx, value, folder)
    } else {
        Err(Fault::Refused(NOT_OWNED))
    }
}

// Variables are numbered as they are met. There is no room for a third variable of the query; the canonicalizer is used
// again, and has kept its numbers.
fn variables_are_numbered_as_they_are_met_holds(cx: &mut Interner) -> Result<bool, Refusal> {
    let (seven, three, nine) = (variable(cx, 7)?, variable(cx, 3)?, variable(cx, 9)?);
    let (first, second) = (canonical(cx, 0)?, canonical(cx, 1)?);
    let before = ty(cx, TyKind::Slice(seven))?;
    let after = ty(cx, TyKind::Slice(first))?;
    let query = tys(cx, &[before, three, seven])?;
    let wanted = tys(cx, &[after, second, first])?;
    let full = Fault::Refused(Refusal::TableFull);
    let mut folder = Canonicalizer::new(cx.allocator());
    Ok(
        canonicalized(cx, query, &mut folder) == Ok(wanted)
            && folder.met.len() == 2
            && canonicalized(cx, (seven, nine), &mut folder) == Err(full)
            && canonicalized(cx, (three, seven), &mut folder) == Ok((second, first)),
    )
}

#[test]
fn variables_are_numbered_as_they_are_met(rt: HostRuntime) {
    holds_within(
        &rt,
        rt.alloc(),
        7,
        variables_are_numbered_as_they_are_met_holds,
    );
}

// Returns `&'^0 &region [element; length]`.
fn nested(cx: &mut Interner, region: Region, element: Ty, length: Const) -> Result<Ty, Refusal> {
    let array = ty(cx, TyKind::Array(element, length))?;
    let inner = ref_ty(cx, region, array)?;
    ref_ty(cx, bound_region(0)?, inner)
}

// Variables of types, regions and constants are replaced under a binder, unshifted, and are numbered together. The
// binder's own variable stays.
fn each_sort_of_variable_is_replaced_holds(cx: &mut Interner) -> Result<bool, Refusal> {
    let infer = InferConst::Var(ConstVid::from_u32(7));
    let length = constant(cx, ConstKind::Infer(infer))?;
    let element = variable(cx, 7)?;
    let before = nested(cx, region_variable()?, element, length)?;
    let (first, second, third) = (
        canonical_region(0)?,
        canonical(cx, 1)?,
        canonical_const(cx, 2)?,
    );
    let after = nested(cx, first, second, third)?;
    let vars = one_region(cx)?;
    let query = (Binder::bind_with_vars(before, vars), (length, element));
    let wanted = (Binder::bind_with_vars(after, vars), (third, second));
    let mut folder = Canonicalizer::new(cx.allocator());
    Ok(
        canonicalized(cx, query, &mut folder) == Ok(wanted)
            && folder.met.len() == 3
            && canonicalized(cx, wanted, &mut folder) == Ok(wanted)
            && folder.met.len() == 3,
    )
}

#[test]
fn each_sort_of_variable_is_replaced(rt: HostRuntime) {
    holds_anew(&rt, rt.alloc(), each_sort_of_variable_is_replaced_holds);
}

// A variable stays under the binder of the value that binds it, and is refused after this binder and without it.
fn escaping_variables_are_refused_holds(cx: &mut Interner) -> Result<bool, Refusal> {
    let number = u32_ty(cx)?;
    let near = ref_ty(cx, bound_region(0)?, number)?;
    let far = ref_ty(cx, bound_region(1)?, number)?;
    let inside = pointer(cx, &[near, far, number])?;
    let vars = one_region(cx)?;
    let bound = Binder::bind_with_vars(inside, vars);
    let refused = Fault::Escapes;
    let mut folder = Canonicalizer::new(cx.allocator());
    Ok(
        canonicalized(cx, bound, &mut folder) == Ok(bound)
            && canonicalized(cx, inside, &mut folder) == Err(refused)
            && canonicalized(cx, (bound, near), &mut folder) == Err(refused)
            && canonicalized(cx, bound, &mut folder) == Ok(bound),
    )
}

#[test]
fn escaping_variables_are_refused(rt: HostRuntime) {
    holds_anew(&rt, rt.alloc(), escaping_variables_are_refused_holds);
}
