//! Ids, by the positions of the calls that declared them.
//!
//! In this file, a call or a part of a call is declared if each of its positions that has to name a declaration names
//! one of the wanted sort. The positions of terms aren't looked at. Most calls name no ids. So what only a rare part
//! needs is in a function of its own, since a function clears its places in memory wherever it is entered.

ghost use Rattle.std.specs.Prelude.{◌≡◌, ◌↔◌, ◌++◌, IsTrue, None, List, MatchOption};
ghost use Rattle.tt_interner.specs.Rows.{Row};
ghost use Rattle.tt_calls.specs.CallForm.{
  an_id,
  name_ids,
  variable_ids,
  variables_ids,
  region_ids,
  arg_ids,
  args_ids,
  item_ids,
  existential_kind_ids,
  existential_ids,
  existentials_ids,
  predicate_kind_ids,
  predicate_ids,
};
ghost use Rattle.tt_calls.specs.Told.{told_all};
ghost use Rattle.tt_calls.specs.Means.{id_at, number_at, id_positions, AreTerms};
ghost use Rattle.tt_calls.specs.Build.{wanted_id, IsIdAt, TellsIds};

use crate::answer::Answer;
use crate::answers::lookup::{answer_at, declared_at};
use crate::call::{
    AliasCall, ArgCall, BoundTyKindCall, Call, ClauseCall, ConstCall, DeclarationKindCall,
    DeclareCall, ExistentialCall, ExistentialKindCall, ItemCall, PredicateCall, PredicateKindCall,
    RegionCall, RegionNameCall, TyCall, VariableCall,
};
use tt_kinds::{DeclarationSort, DefId, TraitId};

// Returns the id at the position with its sort, or `None` if the answer there is absent or not an id.
fn id_at(earlier: &[Answer], position: u32) -> Option<(DeclarationSort, DefId)>
    ensures { MatchOption result ((rows : List Row) → id_at (told_all rows earlier.now) position ≡ None) (λ id. IsIdAt
        earlier.now
        position
        id.0
        id.1.number) }
{
    let Ok(answer) = answer_at(earlier, position) else {
        return None;
    };
    match answer {
        Answer::Id(sort, id) => Some((*sort, *id)),
        _ => None,
    }
}

/// Returns the number of the id at the position, or 0 if there is no id. This 0 is never stored: terms are built only
/// after [`call_is_declared`] has found the ids that they need.
pub fn number_at(earlier: &[Answer], position: u32) -> u32
    ensures { (rows : List Row) → result ≡ number_at (told_all rows earlier.now) position }
{
    match id_at(earlier, position) {
        Some(id) => id.1.number(),
        None => 0,
    }
}

/// Returns the trait with the number that [`number_at`] returns.
pub fn trait_at(earlier: &[Answer], position: u32) -> TraitId
    ensures { (rows : List Row) → result.number ≡ number_at (told_all rows earlier.now) position }
{
    TraitId::from_number(number_at(earlier, position))
}

/// Returns the declaration with the number that [`number_at`] returns.
pub fn def_at(earlier: &[Answer], position: u32) -> DefId
    ensures { (rows : List Row) → result.number ≡ number_at (told_all rows earlier.now) position }
{
    DefId::from_number(number_at(earlier, position))
}

/// Returns whether each position of the call that has to name a declaration names one of the wanted sort. The trait or
/// the implementation that a [`Call::Declare`] names is tested when the declaration is made.
pub fn call_is_declared(earlier: &[Answer], call: &Call) -> bool
    ensures { (rows : List Row) → IsTrue result ↔ AreTerms (told_all rows earlier.now) (id_positions call.now) }
{
    ids_are_declared(earlier, call)
}

// Returns whether the declarations that the call names are there.
#[inline(always)]
fn ids_are_declared(earlier: &[Answer], call: &Call) -> bool
    ensures { TellsIds earlier.now (id_positions call.now) result }
{
    match call {
        Call::Ty(TyCall::Ref(region, _, _)) => region_is_declared(earlier, region),
        Call::Ty(TyCall::FnPtr { vars, .. })
        | Call::Ty(TyCall::UnsafeBinder { vars, .. })
        | Call::Declare(
            DeclareCall {
                kind: DeclarationKindCall::Fn { vars, .. },
                ..
            },
        ) => variables_are_declared(earlier, vars.as_slice()),
        Call::Ty(TyCall::Foreign(position)) => {
            is_id(earlier, Some(DeclarationSort::Foreign), *position)
        }
        Call::Ty(TyCall::Bound(_, _, BoundTyKindCall::Param(position)))
        | Call::Ty(TyCall::Placeholder(_, _, BoundTyKindCall::Param(position))) => {
            is_id(earlier, None, *position)
        }
        Call::Ty(TyCall::Item(item, args)) => {
            let (sort, position) = item_id(*item);
            is_id_with_args(earlier, Some(sort), position, args.as_slice())
        }
        Call::Ty(TyCall::Dynamic(existentials, region)) => {
            trait_object_is_declared(earlier, existentials.as_slice(), region)
        }
        Call::Const(ConstCall::Unevaluated(position, args)) => {
            let sort = Some(DeclarationSort::Const);
            is_id_with_args(earlier, sort, *position, args.as_slice())
        }
        Call::Const(ConstCall::Expr(_, args)) | Call::Args(args) | Call::Instantiate(_, args) => {
            args_are_declared(earlier, args.as_slice())
        }
        Call::Predicate(predicate) => predicate_is_declared(earlier, predicate),
        _ => true,
    }
}

// Returns whether an id is at the position, of a declaration of this sort if one is given.
#[inline(never)]
fn is_id(earlier: &[Answer], sort: Option<DeclarationSort>, position: u32) -> bool
    ensures { TellsIds earlier.now (wanted_id sort position) result }
{
    match sort {
        Some(sort) => declared_at(earlier, position, sort).is_ok(),
        None => id_at(earlier, position).is_some(),
    }
}

// Returns whether such an id is at the position, and the declarations that the arguments name are there.
fn is_id_with_args(
    earlier: &[Answer],
    sort: Option<DeclarationSort>,
    position: u32,
    args: &[ArgCall],
) -> bool
    ensures { TellsIds earlier.now (wanted_id sort position ++ args_ids args.now) result }
{
    is_id(earlier, sort, position) && args_are_declared(earlier, args)
}

// Returns whether the declarations that the arguments name are there.
#[inline(never)]
fn args_are_declared(earlier: &[Answer], args: &[ArgCall]) -> bool
    ensures { TellsIds earlier.now (args_ids args.now) result }
{
    args.iter().all(|arg| arg_is_declared(earlier, arg))
}

// Returns whether the declarations that the argument names are there. Only a region names some.
fn arg_is_declared(earlier: &[Answer], call: &ArgCall) -> bool
    ensures { TellsIds earlier.now (arg_ids call.now) result }
{
    match call {
        ArgCall::Lifetime(region) => region_is_declared(earlier, region),
        _ => true,
    }
}

// Returns whether the declarations that the region names are there.
fn region_is_declared(earlier: &[Answer], call: &RegionCall) -> bool
    ensures { TellsIds earlier.now (region_ids call.now) result }
{
    match call {
        RegionCall::ReLateParam(scope, name) => {
            is_id(earlier, None, *scope) && region_name_is_declared(earlier, name)
        }
        RegionCall::ReBound(_, _, name) | RegionCall::RePlaceholder(_, _, name) => {
            region_name_is_declared(earlier, name)
        }
        _ => true,
    }
}

// Returns whether the declaration that names the region, if one does, is there.
fn region_name_is_declared(earlier: &[Answer], call: &RegionNameCall) -> bool
    ensures { TellsIds earlier.now (name_ids call.now) result }
{
    match call {
        RegionNameCall::Named(position) => is_id(earlier, None, *position),
        _ => true,
    }
}

// Returns whether the declarations that name the variables are there.
#[inline(never)]
fn variables_are_declared(earlier: &[Answer], vars: &[VariableCall]) -> bool
    ensures { TellsIds earlier.now (variables_ids vars.now) result }
{
    vars.iter().all(|var| variable_is_declared(earlier, var))
}

// Returns whether the declaration that names the variable, if one does, is there.
fn variable_is_declared(earlier: &[Answer], call: &VariableCall) -> bool
    ensures { TellsIds earlier.now (variable_ids call.now) result }
{
    match call {
        VariableCall::Ty(BoundTyKindCall::Param(position)) => is_id(earlier, None, *position),
        VariableCall::Region(name) => region_name_is_declared(earlier, name),
        _ => true,
    }
}

// Returns the sort and the position of the item's id.
fn item_id(call: ItemCall) -> (DeclarationSort, u32)
    ensures { an_id result.0 result.1 ≡ item_ids call }
{
    match call {
        ItemCall::Adt(position) => (DeclarationSort::Adt, position),
        ItemCall::FnDef(position) => (DeclarationSort::Fn, position),
        ItemCall::Closure(position) => (DeclarationSort::Closure, position),
        ItemCall::CoroutineClosure(position) => (DeclarationSort::CoroutineClosure, position),
        ItemCall::Coroutine(position) => (DeclarationSort::Coroutine, position),
        ItemCall::CoroutineWitness(position) => (DeclarationSort::Coroutine, position),
        ItemCall::Alias(AliasCall::Projection(position)) => (DeclarationSort::AssocTy, position),
        ItemCall::Alias(AliasCall::Inherent(position)) => (DeclarationSort::Inherent, position),
        ItemCall::Alias(AliasCall::Opaque(position)) => (DeclarationSort::Opaque, position),
        ItemCall::Alias(AliasCall::Free(position)) => (DeclarationSort::Free, position),
    }
}

// Returns whether the declarations that a trait object's predicates and region name are there.
#[inline(never)]
fn trait_object_is_declared(
    earlier: &[Answer],
    existentials: &[ExistentialCall],
    region: &RegionCall,
) -> bool
    ensures { TellsIds earlier.now (existentials_ids existentials.now ++ region_ids region.now) result }
{
    existentials
        .iter()
        .all(|it| existential_is_declared(earlier, it))
        && region_is_declared(earlier, region)
}

// Returns whether the declarations that the existential predicate and its binder's variables name are there.
fn existential_is_declared(earlier: &[Answer], call: &ExistentialCall) -> bool
    ensures { TellsIds earlier.now (existential_ids call.now) result }
{
    existential_kind_is_declared(earlier, &call.kind)
        && variables_are_declared(earlier, call.vars.as_slice())
}

// Returns whether the declarations that the existential predicate's kind names are there.
fn existential_kind_is_declared(earlier: &[Answer], call: &ExistentialKindCall) -> bool
    ensures { TellsIds earlier.now (existential_kind_ids call.now) result }
{
    let of_trait = Some(DeclarationSort::Trait);
    match call {
        ExistentialKindCall::Trait(position, args) => {
            is_id_with_args(earlier, of_trait, *position, args.as_slice())
        }
        ExistentialKindCall::Projection(position, args, _) => {
            is_id_with_args(earlier, None, *position, args.as_slice())
        }
        ExistentialKindCall::AutoTrait(position) => is_id(earlier, of_trait, *position),
    }
}

// Returns whether the declarations that the predicate and its binder's variables name are there.
#[inline(never)]
fn predicate_is_declared(earlier: &[Answer], call: &PredicateCall) -> bool
    ensures { TellsIds earlier.now (predicate_ids call.now) result }
{
    predicate_kind_is_declared(earlier, &call.kind)
        && variables_are_declared(earlier, call.vars.as_slice())
}

// Returns whether the declarations that the predicate's kind names are there.
fn predicate_kind_is_declared(earlier: &[Answer], call: &PredicateKindCall) -> bool
    ensures { TellsIds earlier.now (predicate_kind_ids call.now) result }
{
    let of_trait = Some(DeclarationSort::Trait);
    match call {
        PredicateKindCall::Clause(ClauseCall::Trait(position, args))
        | PredicateKindCall::Clause(ClauseCall::HostEffect(position, args, _)) => {
            is_id_with_args(earlier, of_trait, *position, args.as_slice())
        }
        PredicateKindCall::Clause(ClauseCall::Projection(position, args, _))
        | PredicateKindCall::NormalizesTo(position, args, _) => {
            is_id_with_args(earlier, None, *position, args.as_slice())
        }
        PredicateKindCall::Clause(ClauseCall::RegionOutlives(longer, shorter)) => {
            region_is_declared(earlier, longer) && region_is_declared(earlier, shorter)
        }
        PredicateKindCall::Clause(ClauseCall::TypeOutlives(_, region)) => {
            region_is_declared(earlier, region)
        }
        PredicateKindCall::DynCompatible(position) => is_id(earlier, of_trait, *position),
        _ => true,
    }
}
