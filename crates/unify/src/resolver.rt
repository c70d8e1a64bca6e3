//! Replacement of inference variables by their bindings.

ghost use Rattle.std.specs.Prelude.{◌≡◌, ◌<◌, ◌≤◌, ℕ, IfNone, IfOk, IfSome, MatchOption, None, Some, get_or, length};
ghost use Rattle.tt_kinds.specs.Kinds.{ty_shape};
ghost use Rattle.tt_interner.specs.Owned.{IsOwned};
ghost use Rattle.tt_interner.specs.Stored.{Extends};
ghost use Rattle.tt_fold.specs.Steps.{tree_in};
ghost use Rattle.tt_fold.specs.Types.{never_fails};
ghost use Rattle.unify.specs.Pairs.{EquatesTypes};
ghost use Rattle.unify.specs.Substitution.{apply, variable_in, Assignment, Solves};
ghost use Rattle.unify.specs.Triangular.{links, IsAcyclic};
ghost use Rattle.unify.specs.Bindings.{stored, table_shape};
ghost use Rattle.unify.specs.Memo.{entries_in};
ghost use Rattle.unify.specs.Resolver.{binding, kind_variable, linked_variable, IsLinked, Resolves};

use indexmap::IndexMap;
use tt_fold::{Step, TypeReplacer, replace_types_once};
use tt_index::{Idx, Refusal, TyVid};
use tt_interner::{InternedKind, Interner};
use tt_kinds::{InferTy, Ty, TyKind};
use tt_visit::TypeVisitableExt;

// Returns the inference variable that the kind is, if it is one.
fn variable_in(kind: &TyKind) -> Option<TyVid>
    ensures { result ≡ kind_variable kind.now }
{
    match kind {
        TyKind::Infer(InferTy::TyVar(variable)) => Some(*variable),
        _ => None,
    }
}

/// Returns the inference variable that the type is, if it is one.
pub fn variable_of(cx: &Interner, ty: Ty) -> Option<TyVid>
    requires { IsOwned ty_shape cx.now ty }
    ensures { result ≡ variable_in (tree_in cx.now.rows (ty_shape ty)) }
{
    variable_in(ty.kind(cx))
}

/// Returns the binding of the type, if the type is a bound variable of the table.
pub fn binding_of(cx: &Interner, entries: &[Option<Ty>], ty: Ty) -> Option<Ty>
    requires entries { IsOwned table_shape cx.now entries.now }
    requires ty { IsOwned ty_shape cx.now ty }
    ensures owned { IfSome result (λ bound. IsOwned ty_shape cx.now bound) }
    ensures is { MatchOption
        result
        (binding (stored cx.now entries.now) (tree_in cx.now.rows (ty_shape ty)) ≡ None)
        (λ bound. binding (stored cx.now entries.now) (tree_in cx.now.rows (ty_shape ty))
        ≡ Some (tree_in cx.now.rows (ty_shape bound))) }
{
    match variable_of(cx, ty) {
        Some(variable) => match entries.get(variable.as_usize()) {
            Some(entry) => *entry,
            None => None,
        },
        None => None,
    }
}

/// Returns the type in the variable's entry, if there is one.
pub fn entry_at(entries: &[Option<Ty>], variable: TyVid) -> Option<Ty>
    ensures { result ≡ get_or entries.now variable None }
{
    match entries.get(variable.as_usize()) {
        Some(entry) => *entry,
        None => None,
    }
}

/// Returns the variable that the type is, if it is an unbound variable of the table.
pub fn unbound_variable(cx: &Interner, entries: &[Option<Ty>], ty: Ty) -> Option<TyVid>
    requires { IsOwned ty_shape cx.now ty }
    ensures unbound { IfSome result (λ v. (v < length entries.now) × (get_or entries.now v None ≡ None)) }
    ensures is { IfSome result (λ v. variable_in (tree_in cx.now.rows (ty_shape ty)) ≡ Some v) }
    ensures foreign { IfNone result ((v : ℕ) → variable_in (tree_in cx.now.rows (ty_shape ty)) ≡ Some v
        → binding (stored cx.now entries.now) (tree_in cx.now.rows (ty_shape ty)) ≡ None
        → length entries.now ≤ v) }
{
    match variable_of(cx, ty) {
        Some(variable) => match entries.get(variable.as_usize()) {
            Some(None) => Some(variable),
            Some(Some(_)) => None,
            None => None,
        },
        None => None,
    }
}

/// Returns the end of the chain of bound variables that begins with the type: a type that is no bound variable.
pub fn shallow_resolved(cx: &Interner, entries: &[Option<Ty>], ty: Ty) -> Ty
    requires entries { IsOwned table_shape cx.now entries.now }
    requires links { IsAcyclic (links (stored cx.now entries.now)) }
    requires ty { IsOwned ty_shape cx.now ty }
    ensures owned { IsOwned ty_shape cx.now result }
    ensures same { (ρ : Assignment) → Solves ρ (stored cx.now entries.now) → EquatesTypes ρ cx.now ty result }
    ensures unbound { binding (stored cx.now entries.now) (tree_in cx.now.rows (ty_shape result)) ≡ None }
{
    // A variable has no parts.
    cx.are_rows();
    let mut ty = ty;
    // No chain has more variables than the table.
    for _ in 0..entries.len() {
        let Some(bound) = binding_of(cx, entries, ty) else {
            return ty;
        };
        ty = bound;
    }
    ty
}

// Returns the variable to which the variable is bound, if it is bound to one.
fn linked_variable(cx: &Interner, entries: &[Option<Ty>], variable: TyVid) -> Option<TyVid>
    requires { IsOwned table_shape cx.now entries.now }
    ensures { result ≡ linked_variable (stored cx.now entries.now variable) }
{
    match entry_at(entries, variable) {
        Some(ty) => variable_of(cx, ty),
        None => None,
    }
}

/// Returns the end of the chain of variables that begins with this one, each of which is bound to the next one.
pub fn last_variable(cx: &Interner, entries: &[Option<Ty>], variable: TyVid) -> TyVid
    requires entries { IsOwned table_shape cx.now entries.now }
    requires links { IsAcyclic (links (stored cx.now entries.now)) }
    ensures same { (ρ : Assignment) → Solves ρ (stored cx.now entries.now) → ρ result ≡ ρ variable }
    ensures chain { IsLinked (stored cx.now entries.now) variable result }
    ensures end { linked_variable (stored cx.now entries.now result) ≡ None }
{
    // A variable has no parts.
    cx.are_rows();
    let mut variable = variable;
    // No chain has more variables than the table.
    for _ in 0..entries.len() {
        let Some(next) = linked_variable(cx, entries, variable) else {
            return variable;
        };
        variable = next;
    }
    variable
}

// Returns the type in the memo, if the type is one of the memo's variables.
fn noted(cx: &Interner, memo: &IndexMap<TyVid, Ty>, ty: Ty) -> Option<Ty>
    requires memo { IsOwned table_shape cx.now (entries_in memo.now.entries) }
    requires ty { IsOwned ty_shape cx.now ty }
    ensures owned { IfSome result (λ bound. IsOwned ty_shape cx.now bound) }
    ensures is { MatchOption
        result
        (binding (stored cx.now (entries_in memo.now.entries)) (tree_in cx.now.rows (ty_shape ty)) ≡ None)
        (λ bound. binding (stored cx.now (entries_in memo.now.entries)) (tree_in cx.now.rows (ty_shape ty))
        ≡ Some (tree_in cx.now.rows (ty_shape bound))) }
{
    match variable_of(cx, ty) {
        Some(variable) => memo.get(&variable).copied(),
        None => None,
    }
}

// Replaces each variable of a memo by the memo's type.
#[derive(Drop)]
struct Resolver<'a> {
    memo: &'a IndexMap<TyVid, Ty>,
}

impl<'a> TypeReplacer for Resolver<'a> {
    type Error = Refusal;

    ghost shape = { λ s. table_shape (entries_in s.memo.now.entries) };

    ghost hooks = { never_fails (λ s t a. Resolves s.state t a) };

    fn replace_ty(&mut self, cx: &mut Interner, ty: Ty) -> Result<Step<Ty>, Refusal> {
        if !ty.has_infer_types(cx) {
            return Ok(Step::Keep);
        }
        match noted(cx, self.memo, ty) {
            Some(bound) => Ok(Step::Replace(bound)),
            None => Ok(Step::Descend),
        }
    }
}

/// Returns the type with each variable of the memo replaced by the memo's type.
pub fn replaced(cx: &mut Interner, memo: &IndexMap<TyVid, Ty>, ty: Ty) -> Result<Ty, Refusal>
    requires memo { IsOwned table_shape cx.old (entries_in memo.now.entries) }
    requires ty { IsOwned ty_shape cx.old ty }
    ensures extends { Extends cx.old cx.new }
    ensures owned { IfOk result (λ new. IsOwned ty_shape cx.new new) }
    ensures plain { IfOk result (λ new. tree_in cx.new.rows (ty_shape new)
        ≡ apply (stored cx.old (entries_in memo.now.entries)) (tree_in cx.old.rows (ty_shape ty))) }
{
    if memo.is_empty() {
        return Ok(ty);
    }
    if !ty.has_infer_types(cx) {
        return Ok(ty);
    }
    replace_types_once(cx, ty, Resolver { memo })
}
