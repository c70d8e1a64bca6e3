//! Folds of regions by closures.

ghost use Rattle.std.specs.Prelude.{ℕ, IfOk};
ghost use Rattle.tt_fold.specs.RegionFolder.{HasName};

use super::holds_anew;
use test_terms::{NOT_OWNED, bound_region, one_region, ref_ty, ty, tys, u32_ty};
use type_terms::{
    Binder, BoundRegion, BoundRegionKind, BoundVar, BoundVarIndexKind, BoundVarKinds,
    DebruijnIndex, FnHeader, FnSigKind, FnSigTys, Interner, Owned, Refusal, Region, RegionKind,
    RegionVid, Ty, TyKind, TypeFoldable, fold_regions,
};

// The answer of a closure.
#[derive(Clone, Copy)]
enum Kind {
    // The region variable of the number of calls before.
    Variable,
    // The first variable of a binder, without a name.
    Bound(BoundVarIndexKind),
}

// A call: the region, and how many binders enclose it.
type Asked = (Region, u32);

// The first four calls of a closure, and the number of calls.
#[derive(Drop)]
struct Record {
    answers: Kind,
    calls: [Option<Asked>; 4],
    count: u32,
}

impl Record {
    // Returns the record before any call.
    fn new(answers: Kind) -> Record {
        Record {
            answers,
            calls: [None; 4],
            count: 0,
        }
    }

    // Returns the answer to the next call, or the region itself if there is none.
    fn ask(&mut self, region: Region, depth: DebruijnIndex) -> Region
        ensures { (symbols : ℕ) → HasName symbols region → HasName symbols result }
    {
        let before = self.count;
        if before < 4 {
            self.calls[before as usize] = Some((region, depth.as_u32()));
        }
        self.count = before.saturating_add(1);
        match answer(self.answers, before) {
            Ok(answer) => answer,
            Err(_) => region,
        }
    }

    // Returns whether these were the calls.
    fn is(&self, calls: &[Asked]) -> bool {
        let mut next = 0;
        for call in calls {
            if next >= 4 || self.calls[next] != Some(*call) {
                return false;
            }
            next += 1;
        }
        self.count as usize == calls.len()
    }
}

// Returns the answer after so many calls.
fn answer(answers: Kind, before: u32) -> Result<Region, Refusal>
    ensures { (symbols : ℕ) → IfOk result (HasName symbols) }
{
    match answers {
        Kind::Variable if RegionVid::fits(before) => {
            Region::new(RegionKind::ReVar(RegionVid::from_u32(before)))
        }
        Kind::Variable => Err(Refusal::GreatestIndex),
        Kind::Bound(index) => {
            let bound_region = BoundRegion {
                var: BoundVar::from_u32(0),
                kind: BoundRegionKind::Anon,
            };
            Region::new(RegionKind::ReBound(index, bound_region))
        }
    }
}

// Returns the value with its regions replaced by the record's answers.
fn folded<T: Owned + TypeFoldable>(
    cx: &mut Interner,
    value: T,
    record: &mut Record,
) -> Result<T, Refusal> {
    if value.is_owned(cx) {
        fold_regions(cx, value, |region, depth| record.ask(region, depth))
    } else {
        Err(NOT_OWNED)
    }
}

// Returns the pointer to a function of these types under a binder of these variables.
fn pointer(cx: &mut Interner, types: &[Ty], vars: BoundVarKinds) -> Result<Ty, Refusal> {
    let inputs_and_output = tys(cx, types)?;
    let signature = Binder::bind_with_vars(FnSigTys { inputs_and_output }, vars);
    let fn_sig_kind = FnSigKind::default();
    ty(cx, TyKind::FnPtr(signature, FnHeader { fn_sig_kind }))
}

// `&'static u32`.
pub fn static_ref(cx: &mut Interner) -> Result<Ty, Refusal> {
    let number = u32_ty(cx)?;
    ref_ty(cx, Region::new(RegionKind::ReStatic)?, number)
}

// `&'?N u32`.
fn variable_ref(cx: &mut Interner, variable: u32) -> Result<Ty, Refusal> {
    let number = u32_ty(cx)?;
    ref_ty(cx, answer(Kind::Variable, variable)?, number)
}

// The closure is called at each place of a region, twice for one handle that occurs at two, but not at the region that a
// pointer's binder binds; its answers are not shifted.
fn each_place_is_asked_about_holds(cx: &mut Interner) -> Result<bool, Refusal> {
    let number = u32_ty(cx)?;
    let vars = one_region(cx)?;
    let (own, outer) = (bound_region(0)?, bound_region(1)?);
    let last = Region::new(RegionKind::ReStatic)?;
    let own_ref = ref_ty(cx, own, number)?;
    let outer_ref = ref_ty(cx, outer, number)?;
    let last_ref = static_ref(cx)?;
    let before = pointer(cx, &[own_ref, outer_ref, last_ref], vars)?;
    let mut numbered = Record::new(Kind::Variable);
    let variables = folded(cx, (last_ref, (last_ref, number)), &mut numbered)?;
    let innermost = BoundVarIndexKind::Bound(DebruijnIndex::INNERMOST);
    let mut bound = Record::new(Kind::Bound(innermost));
    let after = folded(cx, before, &mut bound)?;
    let wanted = pointer(cx, &[own_ref, own_ref, own_ref], vars)?;
    let first = variable_ref(cx, 0)?;
    let second = variable_ref(cx, 1)?;
    Ok(
        numbered.is(&[(last, 0), (last, 0)])
            && variables == (first, (second, number))
            && bound.is(&[(outer, 1), (last, 1)])
            && after == wanted,
    )
}

#[test]
fn each_place_is_asked_about(rt: HostRuntime) {
    holds_anew(&rt, rt.alloc(), each_place_is_asked_about_holds);
}
