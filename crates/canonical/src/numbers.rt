//! Numbers in place of variables.

ghost use Rattle.std.specs.Prelude.{◌≡◌, ◌≤◌, ℕ, IfOk, IfSome, MatchOption, None, OnOk, Some};
ghost use Rattle.tt_kinds.specs.Kinds.{ty_shape};
ghost use Rattle.tt_interner.specs.Stored.{Extends};
ghost use Rattle.tt_interner.specs.Owned.{IsOwned, IsPartBy, tree_by, tree_in};
ghost use Rattle.tt_fold.specs.Types.{never_fails};
ghost use Rattle.unify.specs.Bindings.{stored, table_shape};
ghost use Rattle.unify.specs.Memo.{entries_in};
ghost use Rattle.unify.specs.Resolver.{binding, Resolves};
ghost use Rattle.unify.specs.Substitution.{apply, variable_tree};
ghost use Rattle.canonical.specs.Canonical.{numbered, IsListedOnce};
ghost use Rattle.canonical.specs.Numbers.{with_binding};

use crate::variable::variable_of;
use indexmap::IndexMap;
use tt_fold::{Step, TypeFoldable, TypeReplacer, replace_types_once};
use tt_index::{Idx, Refusal, TyVid};
use tt_interner::Interner;
use tt_kinds::{InferTy, Ty, TyKind};
use tt_visit::TypeVisitableExt;

// The greatest number that a variable may have.
const GREATEST: usize = 4_294_967_040;

// Returns the type that the variable is to be replaced by, if the type is one of the variables.
fn number_of(cx: &Interner, numbers: &IndexMap<TyVid, Ty>, ty: Ty) -> Option<Ty>
    requires numbers { IsOwned table_shape cx.now (entries_in numbers.now.entries) }
    requires ty { IsOwned ty_shape cx.now ty }
    ensures owned { IfSome result (λ number. IsOwned ty_shape cx.now number) }
    ensures is { MatchOption
        result
        (binding (stored cx.now (entries_in numbers.now.entries)) (tree_in cx.now.rows (ty_shape ty)) ≡ None)
        (λ number. binding (stored cx.now (entries_in numbers.now.entries)) (tree_in cx.now.rows (ty_shape ty))
        ≡ Some (tree_in cx.now.rows (ty_shape number))) }
{
    match variable_of(cx, ty) {
        Some(variable) => numbers.get(&variable).copied(),
        None => None,
    }
}

// Replaces each of the variables by its number.
#[derive(Drop)]
struct Renumberer<'a> {
    numbers: &'a IndexMap<TyVid, Ty>,
}

impl<'a> TypeReplacer for Renumberer<'a> {
    type Error = Refusal;

    ghost shape = { λ s. table_shape (entries_in s.numbers.now.entries) };

    ghost hooks = { never_fails (λ s t a. Resolves s.state t a) };

    fn replace_ty(&mut self, cx: &mut Interner, ty: Ty) -> Result<Step<Ty>, Refusal> {
        if !ty.has_infer_types(cx) {
            return Ok(Step::Keep);
        }
        match number_of(cx, self.numbers, ty) {
            Some(number) => Ok(Step::Replace(number)),
            None => Ok(Step::Descend),
        }
    }
}

// Returns the value with each of the variables replaced by its number.
fn renumbered<T: TypeFoldable>(
    cx: &mut Interner,
    numbers: &IndexMap<TyVid, Ty>,
    value: T,
) -> Result<T, Refusal>
    requires numbers { IsOwned table_shape cx.old (entries_in numbers.now.entries) }
    requires value { IsPartBy T.shape cx.old.rows value }
    ensures extends { Extends cx.old cx.new }
    ensures owned { IfOk result (λ new. IsPartBy T.shape cx.new.rows new) }
    ensures plain { IfOk result (λ new. tree_by T.shape cx.new.rows new
        ≡ apply (stored cx.old (entries_in numbers.now.entries)) (tree_by T.shape cx.old.rows value)) }
{
    replace_types_once(cx, value, Renumberer { numbers })
}

// Adds the variable with this number to those that are to be replaced.
#[tactic(auto, using(unify::proofs::BindingsLaws::extends_further))]
fn add_number(
    cx: &mut Interner,
    numbers: &mut IndexMap<TyVid, Ty>,
    variable: TyVid,
    number: usize,
) -> Result<(), Refusal>
    requires { IsOwned table_shape cx.old (entries_in numbers.old.entries) }
    ensures extends { Extends cx.old cx.new }
    ensures owned { OnOk result (IsOwned table_shape cx.new (entries_in numbers.new.entries)) }
    ensures binds { OnOk result ((v : ℕ) → stored cx.new (entries_in numbers.new.entries) v
        ≡ with_binding (stored cx.old (entries_in numbers.old.entries)) variable (variable_tree number) v) }
{
    if number > GREATEST {
        return Err(Refusal::TableFull);
    }
    let ty = cx.mk_ty(TyKind::Infer(InferTy::TyVar(TyVid::from_usize(number))))?;
    numbers.insert(variable, ty)?;
    Ok(())
}

// Returns the types that the variables are to be replaced by: each by the variable of its place.
#[tactic(auto, using(unify::proofs::BindingsLaws::extends_further))]
fn numbers_of(cx: &mut Interner, variables: &[TyVid]) -> Result<IndexMap<TyVid, Ty>, Refusal>
    requires { IsListedOnce variables.now }
    ensures extends { Extends cx.old cx.new }
    ensures owned { IfOk result (λ numbers. IsOwned table_shape cx.new (entries_in numbers.entries)) }
    ensures numbered { IfOk result
        (λ numbers. (v : ℕ) → stored cx.new (entries_in numbers.entries) v ≡ numbered variables.now v) }
{
    let mut numbers = IndexMap::new(cx.allocator());
    for place in 0..variables.len() {
        add_number(cx, &mut numbers, variables[place], place)?;
    }
    Ok(numbers)
}

/// Returns the value with each of the variables replaced by the variable of its place. Refused with `Memory`, or with
/// `TableFull` if a table is full or no number is left.
#[tactic(auto, using(unify::proofs::BindingsLaws::extends_further))]
pub fn numbered<T: TypeFoldable>(
    cx: &mut Interner,
    variables: &[TyVid],
    value: T,
) -> Result<T, Refusal>
    requires variables { IsListedOnce variables.now }
    requires value { IsPartBy T.shape cx.old.rows value }
    ensures extends { Extends cx.old cx.new }
    ensures owned { IfOk result (λ new. IsPartBy T.shape cx.new.rows new) }
    ensures plain { IfOk result (λ new. tree_by T.shape cx.new.rows new
        ≡ apply (numbered variables.now) (tree_by T.shape cx.old.rows value)) }
{
    let numbers = numbers_of(cx, variables)?;
    let outcome = renumbered(cx, &numbers, value);
    drop(numbers);
    outcome
}
