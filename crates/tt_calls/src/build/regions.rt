//! Building regions and binders' variables.

ghost use Rattle.std.specs.Prelude.{◌≡◌, ◌≤◌, IfErr, map, take, length, List, OnErr};
ghost use Rattle.tt_interner.specs.Rows.{Row};
ghost use Rattle.tt_interner.specs.Stored.{Extends};
ghost use Rattle.tt_calls.specs.CallForm.{
  name_text,
  region_text,
  variable_name_text,
  ty_called,
  variable_kind,
  region_call_tree,
  IsRegionTooDeep,
};
ghost use Rattle.tt_calls.specs.Told.{told_all};
ghost use Rattle.tt_calls.specs.Means.{number_at};
ghost use Rattle.tt_calls.specs.Build.{
  GivesName,
  GivesVariable,
  GivesVariables,
  GivesRegion,
  FillsVariables,
  MayNameRegion,
};
ghost use Rattle.tt_calls.specs.Room.{IsRefusalForRoom, LacksText, VarsNeedRoom};

use crate::answer::Answer;
use crate::answers::ids::def_at;
use crate::build::lists::MOST_IN_PLACE;
use crate::call::{BoundTyKindCall, RegionCall, RegionNameCall, VariableCall};
use tt_index::Refusal;
use tt_interner::Interner;
use tt_kinds::{
    BoundRegion, BoundRegionKind, BoundTyKind, BoundVarKinds, BoundVariableKind, EarlyParamRegion,
    LateParamRegion, Placeholder, Region, RegionKind,
};

/// Returns the name of a bound type.
pub fn ty_name(earlier: &[Answer], name: BoundTyKindCall) -> BoundTyKind
    ensures { (rows : List Row) → result ≡ ty_called (number_at (told_all rows earlier.now)) name }
{
    match name {
        BoundTyKindCall::Anon => BoundTyKind::Anon,
        BoundTyKindCall::Param(position) => BoundTyKind::Param(def_at(earlier, position)),
    }
}

/// Returns the list of the variables.
pub fn build_vars(
    cx: &mut Interner,
    earlier: &[Answer],
    vars: &[VariableCall],
) -> Result<BoundVarKinds, Refusal>
    ensures extends { Extends cx.old cx.new }
    ensures vars { (rows : List Row) → GivesVariables cx.new (number_at (told_all rows earlier.now)) vars.now result }
    ensures room { IfErr result (λ e. (rows : List Row) → VarsNeedRoom cx.new.rows
        (map (variable_kind (number_at (told_all rows earlier.now))) vars.now)
        e) }
{
    if vars.len() <= MOST_IN_PLACE {
        let mut places = [BoundVariableKind::Const; MOST_IN_PLACE];
        fill_vars(cx, earlier, vars, &mut places)?;
        return cx.mk_bound_vars(&places[..vars.len()]);
    }
    let mut built = Vec::with_capacity(cx.allocator(), vars.len())?;
    for var in vars {
        let var = build_var(cx, earlier, var)?;
        built.push(var)?;
    }
    cx.mk_bound_vars(built.as_slice())
}

// Writes the variables to the first places.
fn fill_vars(
    cx: &mut Interner,
    earlier: &[Answer],
    vars: &[VariableCall],
    places: &mut [BoundVariableKind],
) -> Result<(), Refusal>
    requires { length vars.now ≤ length places.old }
    ensures extends { Extends cx.old cx.new }
    ensures vars { (rows : List Row) → FillsVariables cx.new
        (number_at (told_all rows earlier.now))
        vars.now
        (take (length vars.now) places.new)
        result }
    ensures room { IfErr result (λ e. (rows : List Row) → VarsNeedRoom cx.new.rows
        (map (variable_kind (number_at (told_all rows earlier.now))) vars.now)
        e) }
{
    for (i, var) in vars.iter().enumerate() {
        places[i] = build_var(cx, earlier, var)?;
    }
    Ok(())
}

// Returns the variable of a binder's list that the call names.
fn build_var(
    cx: &mut Interner,
    earlier: &[Answer],
    var: &VariableCall,
) -> Result<BoundVariableKind, Refusal>
    ensures extends { Extends cx.old cx.new }
    ensures var { (rows : List Row) → GivesVariable cx.new (number_at (told_all rows earlier.now)) var.now result }
    ensures room { OnErr result (LacksText cx.new.rows (variable_name_text var.now)) }
{
    match var {
        VariableCall::Ty(name) => Ok(BoundVariableKind::Ty(ty_name(earlier, *name))),
        VariableCall::Region(name) => Ok(BoundVariableKind::Region(build_name(cx, earlier, name)?)),
        VariableCall::Const => Ok(BoundVariableKind::Const),
    }
}

// Returns the name of a bound region.
fn build_name(
    cx: &mut Interner,
    earlier: &[Answer],
    name: &RegionNameCall,
) -> Result<BoundRegionKind, Refusal>
    ensures extends { Extends cx.old cx.new }
    ensures name { (rows : List Row) → GivesName cx.new (number_at (told_all rows earlier.now)) name.now result }
    ensures room { OnErr result (LacksText cx.new.rows (name_text name.now)) }
{
    match name {
        RegionNameCall::Anon => Ok(BoundRegionKind::Anon),
        RegionNameCall::NamedForPrinting(text) => {
            let symbol = cx.symbol(text.as_str())?;
            Ok(BoundRegionKind::NamedForPrinting(symbol))
        }
        RegionNameCall::Named(position) => Ok(BoundRegionKind::Named(def_at(earlier, *position))),
        RegionNameCall::ClosureEnv => Ok(BoundRegionKind::ClosureEnv),
    }
}

/// Returns the region that the call names.
#[inline(always)]
pub fn build_region(
    cx: &mut Interner,
    earlier: &[Answer],
    call: &RegionCall,
) -> Result<Region, Refusal>
    ensures extends { Extends cx.old cx.new }
    ensures region { (rows : List Row) → GivesRegion cx.new
        (region_call_tree (number_at (told_all rows earlier.now)) call.now)
        (IsRegionTooDeep call.now)
        result }
    ensures room { IfErr result (λ e. IsRefusalForRoom e → LacksText cx.new.rows (region_text call.now)) }
{
    match call {
        RegionCall::ReStatic => Region::new(RegionKind::ReStatic),
        RegionCall::ReVar(variable) => Region::new(RegionKind::ReVar(*variable)),
        RegionCall::ReErased => Region::new(RegionKind::ReErased),
        RegionCall::ReError(token) => Region::new(RegionKind::ReError(*token)),
        RegionCall::ReEarlyParam { .. }
        | RegionCall::ReBound(_, _, _)
        | RegionCall::ReLateParam(_, _)
        | RegionCall::RePlaceholder(_, _, _) => build_named_region(cx, earlier, call),
    }
}

// Returns the region that the call names, if the call has a place for a name of the region.
#[inline(never)]
fn build_named_region(
    cx: &mut Interner,
    earlier: &[Answer],
    call: &RegionCall,
) -> Result<Region, Refusal>
    requires { MayNameRegion call.now }
    ensures extends { Extends cx.old cx.new }
    ensures region { (rows : List Row) → GivesRegion cx.new
        (region_call_tree (number_at (told_all rows earlier.now)) call.now)
        (IsRegionTooDeep call.now)
        result }
    ensures room { IfErr result (λ e. IsRefusalForRoom e → LacksText cx.new.rows (region_text call.now)) }
{
    match call {
        RegionCall::ReEarlyParam { index, name } => {
            let index = *index;
            let name = cx.symbol(name.as_str())?;
            Region::new(RegionKind::ReEarlyParam(EarlyParamRegion { index, name }))
        }
        RegionCall::ReBound(index, var, name) => {
            let var = *var;
            let kind = build_name(cx, earlier, name)?;
            Region::new(RegionKind::ReBound(*index, BoundRegion { var, kind }))
        }
        RegionCall::ReLateParam(scope, name) => {
            let kind = build_name(cx, earlier, name)?;
            let scope = def_at(earlier, *scope);
            Region::new(RegionKind::ReLateParam(LateParamRegion { scope, kind }))
        }
        RegionCall::RePlaceholder(universe, var, name) => {
            let (universe, var) = (*universe, *var);
            let kind = build_name(cx, earlier, name)?;
            let bound = BoundRegion { var, kind };
            Region::new(RegionKind::RePlaceholder(Placeholder { universe, bound }))
        }
        RegionCall::ReStatic
        | RegionCall::ReVar(_)
        | RegionCall::ReErased
        | RegionCall::ReError(_) => unreachable!(),
    }
}
