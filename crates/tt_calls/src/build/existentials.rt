//! Building trait objects.

ghost use Rattle.std.specs.Prelude.{◌≡◌, ◌≤◌, ℕ, map, take, length, IfErr};
ghost use Rattle.tt_kinds.specs.Shape.{item_shapes};
ghost use Rattle.tt_kinds.specs.Kinds.{existential_form, record_shape, ty_kind_shape, existential_shape};
ghost use Rattle.tt_kinds.specs.Kinds.{existentials_shape};
ghost use Rattle.tt_interner.specs.Stored.{Terms, Extends};
ghost use Rattle.tt_calls.specs.CallForm.{
  existential_call_form,
  existential_record,
  existential_tree,
  existentials_tree,
  existential_positions,
  all_trees,
  all_positions,
  IsExistentialTooDeep,
  AnyIsDeep,
  trait_object,
};
ghost use Rattle.tt_calls.specs.Told.{told_all, AreOwnedAnswers};
ghost use Rattle.tt_calls.specs.Means.{number_at, tree_at};
ghost use Rattle.tt_calls.specs.Build.{GivesPlaced, FillsPlaced, GivesKind};
ghost use Rattle.tt_calls.specs.Room.{ExistentialNeedsRoom, ExistentialsNeedRoom, FormNeedsRoom};
ghost use Rattle.tt_calls.specs.Parts.{
  any_ids,
  named_parts,
  record_text,
  built_record,
  AreOfSorts,
  IsInnerLabel,
};

use crate::answer::Answer;
use crate::answers::ids::{def_at, trait_at};
use crate::build::lists::MOST_IN_PLACE;
use crate::build::parts::{Built, PartCall, PartsCall, build};
use crate::build::regions::build_region;
use crate::call::{ExistentialCall, ExistentialKindCall, RegionCall};
use tt_index::Refusal;
use tt_interner::Interner;
use tt_kinds::{
    Binder, BoundExistentialPredicates, ExistentialPredicate, ExistentialProjection,
    ExistentialTraitRef, Parts, PolyExistentialPredicate, TyKind,
};

/// Returns the kind of a trait object.
pub fn dynamic_kind(
    cx: &mut Interner,
    earlier: &[Answer],
    existentials: &[ExistentialCall],
    region: &RegionCall,
) -> Result<TyKind, Refusal>
    requires { AreOwnedAnswers cx.old.rows earlier.now }
    ensures extends { Extends cx.old cx.new }
    ensures kind { GivesKind cx.new
        (told_all cx.old.rows earlier.now)
        (trait_object
        (map (existential_call_form (number_at (told_all cx.old.rows earlier.now))) existentials.now)
        region.now)
        ty_kind_shape
        result }
    ensures room { IfErr result
        (FormNeedsRoom cx.new.rows
        (told_all cx.old.rows earlier.now)
        (trait_object
        (map (existential_call_form (number_at (told_all cx.old.rows earlier.now))) existentials.now)
        region.now)) }
{
    let existentials = build_existentials(cx, earlier, existentials)?;
    let region = build_region(cx, earlier, region)?;
    Ok(TyKind::Dynamic(existentials, region))
}

// Returns the list of the existential predicates.
fn build_existentials(
    cx: &mut Interner,
    earlier: &[Answer],
    calls: &[ExistentialCall],
) -> Result<BoundExistentialPredicates, Refusal>
    requires { AreOwnedAnswers cx.old.rows earlier.now }
    ensures extends { Extends cx.old cx.new }
    ensures list { let e = told_all cx.old.rows earlier.now in let forms = map
        (existential_call_form (number_at e))
        calls.now
        in
        GivesPlaced cx.new e
        (existentials_tree (number_at e) (tree_at e) forms)
        (all_positions existential_positions forms)
        (AnyIsDeep IsExistentialTooDeep forms)
        existentials_shape
        result }
    ensures room { IfErr result
        (ExistentialsNeedRoom cx.new.rows
        (told_all cx.old.rows earlier.now)
        (map (existential_call_form (number_at (told_all cx.old.rows earlier.now))) calls.now)) }
{
    if calls.len() <= MOST_IN_PLACE {
        let mut places = [PolyExistentialPredicate::from_number(0); MOST_IN_PLACE];
        fill_existentials(cx, earlier, calls, &mut places)?;
        return cx.mk_existential_list(&places[..calls.len()]);
    }
    let mut built = Vec::with_capacity(cx.allocator(), calls.len())?;
    for call in calls {
        let existential = build_existential(cx, earlier, call)?;
        built.push(existential)?;
    }
    cx.mk_existential_list(built.as_slice())
}

// Writes the existential predicates to the first places.
fn fill_existentials(
    cx: &mut Interner,
    earlier: &[Answer],
    calls: &[ExistentialCall],
    places: &mut [PolyExistentialPredicate],
) -> Result<(), Refusal>
    requires owned { AreOwnedAnswers cx.old.rows earlier.now }
    requires few { length calls.now ≤ length places.old }
    ensures extends { Extends cx.old cx.new }
    ensures existentials { let e = told_all cx.old.rows earlier.now in let forms = map
        (existential_call_form (number_at e))
        calls.now
        in
        FillsPlaced cx.new e
        (all_trees (existential_tree (number_at e) (tree_at e)) forms)
        (all_positions existential_positions forms)
        (AnyIsDeep IsExistentialTooDeep forms)
        (item_shapes existential_shape (take (length calls.now) places.new))
        result }
    ensures room { IfErr result
        (ExistentialsNeedRoom cx.new.rows
        (told_all cx.old.rows earlier.now)
        (map (existential_call_form (number_at (told_all cx.old.rows earlier.now))) calls.now)) }
{
    for (i, call) in calls.iter().enumerate() {
        places[i] = build_existential(cx, earlier, call)?;
    }
    Ok(())
}

// Returns the existential predicate, under its binder.
fn build_existential(
    cx: &mut Interner,
    earlier: &[Answer],
    call: &ExistentialCall,
) -> Result<PolyExistentialPredicate, Refusal>
    requires { AreOwnedAnswers cx.old.rows earlier.now }
    ensures extends { Extends cx.old cx.new }
    ensures existential { let e = told_all cx.old.rows earlier.now in let form = existential_call_form
        (number_at e)
        call.now
        in
        GivesPlaced cx.new e
        (existential_tree (number_at e) (tree_at e) form)
        (existential_positions form)
        (IsExistentialTooDeep form)
        existential_shape
        result }
    ensures room { IfErr result
        (ExistentialNeedsRoom cx.new.rows
        (told_all cx.old.rows earlier.now)
        (existential_call_form (number_at (told_all cx.old.rows earlier.now)) call.now)) }
{
    let vars = Some(call.vars.as_slice());
    match build(cx, earlier, existential_parts(&call.kind), vars, None) {
        Ok(built) => {
            let kind = existential_kind(earlier, &call.kind, &built);
            cx.mk_existential(Binder::bind_with_vars(kind, built.vars))
        }
        Err(refusal) => Err(refusal),
    }
}

// Returns what takes the places of the existential predicate's children.
fn existential_parts<'a>(call: &'a ExistentialKindCall) -> PartsCall<'a>
    ensures parts { (ids : ℕ → ℕ) → named_parts result ≡ (existential_record ids call.now).parts }
    ensures text { (ids : ℕ → ℕ) → record_text (existential_record ids call.now).label ≡ None }
{
    match call {
        ExistentialKindCall::Trait(_, args) => PartsCall::One(PartCall::Args(args.as_slice())),
        ExistentialKindCall::Projection(_, args, term) => {
            PartsCall::Two(PartCall::Args(args.as_slice()), PartCall::of_term(*term))
        }
        ExistentialKindCall::AutoTrait(_) => PartsCall::None,
    }
}

// Returns the kind of the existential predicate, made of what was built.
fn existential_kind(
    earlier: &[Answer],
    call: &ExistentialKindCall,
    built: &Built,
) -> ExistentialPredicate
    requires { AreOfSorts (existential_record any_ids call.now).parts built.now.parts }
    ensures kind { (terms : Terms) → record_shape (existential_form result)
        ≡ built_record (existential_record (number_at (told_all terms.rows earlier.now)) call.now) built.now }
    ensures label { (ids : ℕ → ℕ) → IsInnerLabel (existential_record ids call.now).label }
{
    let Parts { first, second } = built.parts;
    match call {
        ExistentialKindCall::Trait(position, _) => {
            ExistentialPredicate::Trait(ExistentialTraitRef {
                def_id: trait_at(earlier, *position),
                args: first.handle(),
            })
        }
        ExistentialKindCall::Projection(position, _, _) => {
            ExistentialPredicate::Projection(ExistentialProjection {
                def_id: def_at(earlier, *position),
                args: first.handle(),
                term: second.term(),
            })
        }
        ExistentialKindCall::AutoTrait(position) => {
            ExistentialPredicate::AutoTrait(trait_at(earlier, *position))
        }
    }
}
