//! Goals whose types hold inference variables.

ghost use Rattle.std.specs.Prelude.{◌≡◌, ◌+◌, IfOk, IfSome, IsSome, OnOk, length};
ghost use Rattle.tt_kinds.specs.GenericArg.{type_of};
ghost use Rattle.tt_kinds.specs.Kinds.{arg_shape, args_shape};
ghost use Rattle.tt_kinds.specs.Label.{type_sort};
ghost use Rattle.tt_kinds.specs.Values.{trait_predicate_shape};
ghost use Rattle.tt_interner.specs.Arguments.{argument_of};
ghost use Rattle.tt_interner.specs.Owned.{AreOwned, IsOwned, tree_by, tree_in};
ghost use Rattle.tt_interner.specs.Stored.{Extends};
ghost use Rattle.unify.specs.Bindings.{IsTable, substitution, with_variable};
ghost use Rattle.unify.specs.Substitution.{apply, variable_tree, Assignment, Solves};
ghost use Rattle.solver.specs.Derivations.{instance_of};
ghost use Rattle.solver.specs.Program.{argument_trees, goal_in};
ghost use Rattle.solver.specs.Refutation.{
  AreTypes,
  EquatesArgs,
  EquatesGoals,
  EquatesItems,
  IsForced,
  IsOfTypes,
  variables_from,
};
ghost use Rattle.solver.specs.Search.{ArePlain, Continues};

use tt_binder::Instantiate;
use tt_index::Refusal;
use tt_interner::{InternedList, Interner};
use tt_kinds::{EarlyBinder, GenericArg, GenericArgs, TraitPredicate, TraitRef};
use tt_visit::TypeVisitableExt;
use unify::{Bindings, Fault, unify};

/// Returns the goal with each bound variable in it replaced by its binding, or `None` if a constant in it holds a variable.
pub fn resolved_goal(
    cx: &mut Interner,
    bindings: &Bindings,
    goal: TraitPredicate,
) -> Result<Option<TraitPredicate>, Refusal>
    requires table { IsTable cx.old bindings.now }
    requires goal { IsOwned trait_predicate_shape cx.old goal }
    ensures extends { Extends cx.old cx.new }
    ensures owned { IfOk result (λ found. IfSome found (λ new. IsOwned trait_predicate_shape cx.new new)) }
    ensures plain { IfOk result (λ found. IfSome found (λ new. tree_by trait_predicate_shape cx.new.rows new
        ≡ apply (substitution cx.old bindings.now) (tree_by trait_predicate_shape cx.old.rows goal))) }
{
    let Some(args) = resolved_args(cx, bindings, goal.trait_ref.args)? else {
        return Ok(None);
    };
    Ok(Some(TraitPredicate {
        trait_ref: TraitRef {
            def_id: goal.trait_ref.def_id,
            args,
        },
    }))
}

/// Returns the list with each bound variable in its types replaced by its binding, or `None` if a constant holds one.
#[tactic(auto, using(crate::proofs::SearchLaws::search_laws))]
pub fn resolved_args(
    cx: &mut Interner,
    bindings: &Bindings,
    args: GenericArgs,
) -> Result<Option<GenericArgs>, Refusal>
    requires table { IsTable cx.old bindings.now }
    requires args { IsOwned args_shape cx.old args }
    ensures extends { Extends cx.old cx.new }
    ensures owned { IfOk result (λ found. IfSome found (λ new. IsOwned args_shape cx.new new)) }
    ensures plain { IfOk result (λ found. IfSome found (λ new. tree_in cx.new.rows (args_shape new)
        ≡ apply (substitution cx.old bindings.now) (tree_in cx.old.rows (args_shape args)))) }
{
    let items = Vec::from_slice(cx.allocator(), args.as_slice(cx))?;
    let Some(resolved) = resolved_items(cx, bindings, items.as_slice())? else {
        return Ok(None);
    };
    let list = cx.mk_args(resolved.as_slice())?;
    Ok(Some(list))
}

// Returns the arguments with each bound variable in their types replaced by its binding, or `None` if a constant holds one.
#[tactic(auto, using(crate::proofs::SearchLaws::search_laws))]
fn resolved_items(
    cx: &mut Interner,
    bindings: &Bindings,
    items: &[GenericArg],
) -> Result<Option<Vec<GenericArg>>, Refusal>
    requires table { IsTable cx.old bindings.now }
    requires items { AreOwned arg_shape cx.old items.now }
    ensures extends { Extends cx.old cx.new }
    ensures counted { IfOk result (λ found. IfSome found (λ new. length new.items ≡ length items.now)) }
    ensures owned { IfOk result (λ found. IfSome found (λ new. AreOwned arg_shape cx.new new.items)) }
    ensures plain { IfOk result (λ found. IfSome found (λ new.
        ArePlain (substitution cx.old bindings.now) cx.old items.now cx.new new.items)) }
{
    let mut resolved = Vec::new(cx.allocator());
    for index in 0..items.len() {
        match resolved_arg(cx, bindings, items[index])? {
            Some(item) => resolved.push(item)?,
            None => return Ok(None),
        }
    }
    Ok(Some(resolved))
}

// Returns the argument with each bound variable in a type replaced by its binding, or `None` for a constant with one.
fn resolved_arg(
    cx: &mut Interner,
    bindings: &Bindings,
    arg: GenericArg,
) -> Result<Option<GenericArg>, Refusal>
    requires table { IsTable cx.old bindings.now }
    requires arg { IsOwned arg_shape cx.old arg }
    ensures extends { Extends cx.old cx.new }
    ensures owned { IfOk result (λ found. IfSome found (λ new. IsOwned arg_shape cx.new new)) }
    ensures plain { IfOk result (λ found. IfSome found (λ new. tree_in cx.new.rows (arg_shape new)
        ≡ apply (substitution cx.old bindings.now) (tree_in cx.old.rows (arg_shape arg)))) }
{
    let Some(ty) = arg.as_type() else {
        if arg.has_infer_types(cx) {
            return Ok(None);
        }
        return Ok(Some(arg));
    };
    let resolved = bindings.resolve(cx, ty)?;
    Ok(Some(GenericArg::from(resolved)))
}

/// Makes two goals equal by binding variables, and returns whether they can be. If not, some variables may be bound.
#[tactic(auto, using(crate::proofs::SearchLaws::search_laws))]
pub fn unify_goals(
    cx: &mut Interner,
    bindings: &mut Bindings,
    left: TraitPredicate,
    right: TraitPredicate,
) -> Result<bool, Refusal>
    requires table { IsTable cx.old bindings.old }
    requires left { IsOwned trait_predicate_shape cx.old left }
    requires right { IsOwned trait_predicate_shape cx.old right }
    ensures continues { Continues cx.old bindings.old cx.new bindings.new }
    ensures forced { IfOk result (λ found. IsOfTypes cx.old left → IsOfTypes cx.old right → IsForced
        (length bindings.old.entries)
        (substitution cx.old bindings.old)
        (EquatesGoals cx.old left right)
        found
        (substitution cx.new bindings.new)) }
{
    if left.trait_ref.def_id != right.trait_ref.def_id {
        return Ok(false);
    }
    let lefts = Vec::from_slice(cx.allocator(), left.trait_ref.args.as_slice(cx))?;
    let rights = Vec::from_slice(cx.allocator(), right.trait_ref.args.as_slice(cx))?;
    unify_items(cx, bindings, lefts.as_slice(), rights.as_slice())
}

// Makes the arguments equal in order by binding variables, and returns whether they can be, and are as many.
#[tactic(auto, using(crate::proofs::SearchLaws::search_laws))]
fn unify_items(
    cx: &mut Interner,
    bindings: &mut Bindings,
    lefts: &[GenericArg],
    rights: &[GenericArg],
) -> Result<bool, Refusal>
    requires table { IsTable cx.old bindings.old }
    requires lefts { AreOwned arg_shape cx.old lefts.now }
    requires rights { AreOwned arg_shape cx.old rights.now }
    ensures continues { Continues cx.old bindings.old cx.new bindings.new }
    ensures forced { IfOk result (λ found. AreTypes lefts.now → AreTypes rights.now
        → length lefts.now ≡ length rights.now → IsForced
        (length bindings.old.entries)
        (substitution cx.old bindings.old)
        (EquatesItems cx.old lefts.now rights.now)
        found
        (substitution cx.new bindings.new)) }
{
    if lefts.len() != rights.len() {
        return Ok(false);
    }
    for index in 0..lefts.len() {
        if !unify_arg(cx, bindings, lefts[index], rights[index])? {
            return Ok(false);
        }
    }
    Ok(true)
}

// Makes two arguments equal by binding variables, and returns whether they can be.
#[tactic(auto, using(crate::proofs::SearchLaws::search_laws))]
fn unify_arg(
    cx: &mut Interner,
    bindings: &mut Bindings,
    left: GenericArg,
    right: GenericArg,
) -> Result<bool, Refusal>
    requires table { IsTable cx.old bindings.old }
    requires left { IsOwned arg_shape cx.old left }
    requires right { IsOwned arg_shape cx.old right }
    ensures continues { Continues cx.old bindings.old cx.new bindings.new }
    ensures forced { IfOk result (λ found. IsSome (type_of left) → IsSome (type_of right) → IsForced
        (length bindings.old.entries)
        (substitution cx.old bindings.old)
        (EquatesArgs cx.old left right)
        found
        (substitution cx.new bindings.new)) }
{
    match (left.as_type(), right.as_type()) {
        (Some(left), Some(right)) => match unify(cx, bindings, left, right) {
            Ok(()) => Ok(true),
            Err(Fault::Refused(refusal)) => Err(refusal),
            Err(_) => Ok(false),
        },
        _ => Ok(left == right),
    }
}

/// Returns a list of this many new variables.
#[tactic(auto, using(crate::proofs::SearchLaws::search_laws))]
pub fn fresh_args(
    cx: &mut Interner,
    bindings: &mut Bindings,
    count: usize,
) -> Result<GenericArgs, Refusal>
    requires { IsTable cx.old bindings.old }
    ensures continues { Continues cx.old bindings.old cx.new bindings.new }
    ensures owned { IfOk result (λ args. IsOwned args_shape cx.new args) }
    ensures are { IfOk result
        (λ args. argument_trees cx.new args ≡ variables_from (length bindings.old.entries) count) }
    ensures solved { OnOk result ((ρ : Assignment) → Solves ρ (substitution cx.old bindings.old)
        → Solves ρ (substitution cx.new bindings.new)) }
    ensures counted { OnOk result (length bindings.new.entries ≡ length bindings.old.entries + count) }
{
    let mut items = Vec::new(cx.allocator());
    for _ in 0..count {
        let variable = new_variable(cx, bindings)?;
        items.push(variable)?;
    }
    Ok(cx.mk_args(items.as_slice())?)
}

// Returns a new variable.
#[tactic(auto, using(crate::proofs::SearchLaws::search_laws))]
fn new_variable(cx: &mut Interner, bindings: &mut Bindings) -> Result<GenericArg, Refusal>
    requires { IsTable cx.old bindings.old }
    ensures continues { Continues cx.old bindings.old cx.new bindings.new }
    ensures owned { IfOk result (λ arg. IsOwned arg_shape cx.new arg) }
    ensures pushed { OnOk result (bindings.new ≡ with_variable bindings.old) }
    ensures is { IfOk result (λ arg. argument_of cx.new.rows arg
        ≡ record { sort = type_sort; value = variable_tree (length bindings.old.entries) }) }
{
    match bindings.new_variable(cx) {
        Ok(ty) => {
            // A variable has no parts.
            cx.are_rows();
            Ok(GenericArg::from(ty))
        }
        Err(Fault::Refused(refusal)) => Err(refusal),
        // A new variable is refused for room alone.
        Err(_) => unreachable!(),
    }
}

/// Makes as many new variables as the table lacks.
#[tactic(auto, using(crate::proofs::SearchLaws::search_laws))]
pub fn make_variables(
    cx: &mut Interner,
    bindings: &mut Bindings,
    count: usize,
) -> Result<usize, Refusal>
    requires { IsTable cx.old bindings.old }
    ensures { Continues cx.old bindings.old cx.new bindings.new }
{
    let made = bindings.len();
    for _ in made..count {
        new_variable(cx, bindings)?;
    }
    Ok(made)
}

/// Returns the goal with each parameter replaced by its argument.
pub fn instance(
    cx: &mut Interner,
    args: GenericArgs,
    goal: TraitPredicate,
) -> Result<TraitPredicate, Refusal>
    requires args { IsOwned args_shape cx.old args }
    requires goal { IsOwned trait_predicate_shape cx.old goal }
    ensures extends { Extends cx.old cx.new }
    ensures owned { IfOk result (λ new. IsOwned trait_predicate_shape cx.new new) }
    ensures plain { IfOk result (λ new. goal_in cx.new new
        ≡ instance_of (argument_trees cx.old args) (goal_in cx.old goal)) }
{
    Ok(
        EarlyBinder::bind(goal)
            .instantiate(cx, args)?
            .skip_norm_wip(),
    )
}
