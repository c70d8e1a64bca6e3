//! A search in depth through bindings, which puts variables in an order in which the variables of each one's binding
//! come first.

ghost use Rattle.std.specs.Prelude.{◌≡◌, ◌++◌, ◌∷◌, [], ℕ, List, Contains, IfErr, IfOk, IsFalse, OnOk};
ghost use Rattle.tt_interner.specs.Owned.{IsOwned};
ghost use Rattle.unify.specs.Bindings.{stored, table_shape};
ghost use Rattle.unify.specs.Search.{entering, steps_in, IsOrder, IsReached, Reaches, Searches};
ghost use Rattle.unify.specs.Triangular.{IsChild};
ghost use Rattle.unify.specs.declared.search.Failure.TheVariants.{Cycle};

use crate::resolver::entry_at;
use crate::variables::variables_in;
use indexmap::IndexSet;
use std::alloc::{AllocError, AllocFailed};
use tt_index::{Refusal, TyVid};
use tt_interner::Interner;
use tt_kinds::Ty;
use tt_visit::TypeVisitableExt;

/// Why a search fails.
#[derive(Clone, Copy, Debug, PartialEq, Eq, Drop)]
pub enum Failure {
    /// The variable is reached from itself.
    Cycle(TyVid),
    /// Memory is short, or the search is too long.
    Refused(Refusal),
}

impl From<Refusal> for Failure {
    ghost use Rattle.unify.specs.declared.search.Failure.TheVariants.{Refused};

    ghost from_gives = { λ refusal failure. failure ≡ Refused refusal };

    fn from(refusal: Refusal) -> Failure {
        Failure::Refused(refusal)
    }
}

impl From<AllocError> for Failure {
    ghost use Rattle.tt_index.specs.declared.refusal.Refusal.TheVariants.{Memory};
    ghost use Rattle.unify.specs.declared.search.Failure.TheVariants.{Refused};

    ghost from_gives = { λ _ failure. failure ≡ Refused Memory };

    fn from(error: AllocError) -> Failure {
        Failure::Refused(Refusal::from(error))
    }
}

impl<T: Drop> From<AllocFailed<T>> for Failure {
    ghost use Rattle.tt_index.specs.declared.refusal.Refusal.TheVariants.{Memory};
    ghost use Rattle.unify.specs.declared.search.Failure.TheVariants.{Refused};

    ghost from_gives = { λ _ failure. failure ≡ Refused Memory };

    fn from(failed: AllocFailed<T>) -> Failure {
        Failure::Refused(Refusal::from(failed))
    }
}

// The greatest number of steps that a search takes.
const MOST_STEPS: u32 = u32::MAX;

// What is to be done with a variable.
#[derive(Clone, Copy)]
enum Action {
    // to look at its children, unless it is done
    Enter,
    // to put it in the order, where its children are by then
    Leave,
}

// A step that is to be taken.
#[derive(Clone, Copy)]
struct Step {
    action: Action,
    variable: TyVid,
}

// How far a search is.
#[derive(Drop)]
struct Search {
    // the steps to take, the next one last
    pending: Vec<Step>,
    // the variables whose children were looked at; a step on the stack leaves each one that isn't done
    entered: IndexSet<TyVid>,
    // the order so far, which the set keeps
    done: IndexSet<TyVid>,
}

/// Returns the starts and the variables that are reached from them. The children of each variable are in front of this
/// variable. Fails with `Cycle` if a variable is reached from itself, and with `TableFull` if the search would take
/// `u32::MAX` steps or more.
pub fn reached(
    cx: &Interner,
    entries: &[Option<Ty>],
    starts: &[TyVid],
) -> Result<Vec<TyVid>, Failure>
    requires { IsOwned table_shape cx.now entries.now }
    ensures order { IfOk result (λ order. IsOrder (IsChild (stored cx.now entries.now)) order.items) }
    ensures starts { IfOk result (λ order. (v : ℕ) → Contains starts.now v → Contains order.items v) }
    ensures only { IfOk result
        (λ order. (v : ℕ) → Contains order.items v → IsReached (IsChild (stored cx.now entries.now)) starts.now v) }
    ensures cycle { IfErr result
        (λ failure. (v : ℕ) → failure ≡ Cycle v → Reaches (IsChild (stored cx.now entries.now)) v v) }
{
    if !have_children(cx, entries, starts) {
        return Ok(Vec::from_slice(cx.allocator(), starts)?);
    }
    let mut search = Search {
        pending: Vec::new(cx.allocator()),
        entered: IndexSet::new(cx.allocator()),
        done: IndexSet::new(cx.allocator()),
    };
    push_entering(&mut search.pending, starts)?;
    for _ in 0..MOST_STEPS {
        let Some(step) = search.pending.pop() else {
            return Ok(Vec::from_slice(cx.allocator(), search.done.as_slice())?);
        };
        take_step(cx, entries, &mut search, step)?;
    }
    Err(Failure::Refused(Refusal::TableFull))
}

// Takes the step, which was the last of the pending ones.
fn take_step(
    cx: &Interner,
    entries: &[Option<Ty>],
    search: &mut Search,
    step: Step,
) -> Result<(), Failure>
    requires { IsOwned table_shape cx.now entries.now }
    ensures searches { OnOk result ((starts : List ℕ)
        → Searches (IsChild (stored cx.now entries.now)) starts
        (steps_in (search.old.pending.items ++ step ∷ [])) search.old.entered.keys search.old.done.keys
        → Searches (IsChild (stored cx.now entries.now)) starts
        (steps_in search.new.pending.items) search.new.entered.keys search.new.done.keys) }
    ensures cycle { IfErr result (λ failure. (starts : List ℕ) (v : ℕ)
        → Searches (IsChild (stored cx.now entries.now)) starts
        (steps_in (search.old.pending.items ++ step ∷ [])) search.old.entered.keys search.old.done.keys
        → failure ≡ Cycle v → Reaches (IsChild (stored cx.now entries.now)) v v) }
{
    let variable = step.variable;
    match step.action {
        Action::Enter => {
            if search.done.contains(&variable) {
                return Ok(());
            }
            let children = children_of(cx, entries, variable)?;
            if children.is_empty() {
                search.done.insert(variable)?;
                return Ok(());
            }
            if !search.entered.insert(variable)? {
                return Err(Failure::Cycle(variable));
            }
            search.pending.push(Step {
                action: Action::Leave,
                variable,
            })?;
            push_entering(&mut search.pending, &children)?;
            Ok(())
        }
        Action::Leave => {
            search.done.insert(variable)?;
            Ok(())
        }
    }
}

// Adds steps that enter the variables.
fn push_entering(pending: &mut Vec<Step>, variables: &[TyVid]) -> Result<(), AllocError>
    ensures { OnOk result (steps_in pending.new.items ≡ steps_in pending.old.items ++ entering variables.now) }
{
    for &variable in variables {
        pending.push(Step {
            action: Action::Enter,
            variable,
        })?;
    }
    Ok(())
}

// Returns the variables in the variable's binding.
fn children_of(
    cx: &Interner,
    entries: &[Option<Ty>],
    variable: TyVid,
) -> Result<Vec<TyVid>, Refusal>
    requires { IsOwned table_shape cx.now entries.now }
    ensures all { IfOk result
        (λ found. (u : ℕ) → IsChild (stored cx.now entries.now) variable u → Contains found.items u) }
    ensures only { IfOk result
        (λ found. (u : ℕ) → Contains found.items u → IsChild (stored cx.now entries.now) variable u) }
{
    match entry_at(entries, variable) {
        Some(ty) => variables_in(cx, ty),
        None => Ok(Vec::new(cx.allocator())),
    }
}

// Returns whether one of the variables has children.
fn have_children(cx: &Interner, entries: &[Option<Ty>], variables: &[TyVid]) -> bool
    requires { IsOwned table_shape cx.now entries.now }
    ensures { IsFalse result → (v u : ℕ) → Contains variables.now v
        → IsChild (stored cx.now entries.now) v u → ⊥ }
{
    for &variable in variables {
        if is_parent(cx, entries, variable) {
            return true;
        }
    }
    false
}

// Returns whether the variable is bound to a type with variables.
fn is_parent(cx: &Interner, entries: &[Option<Ty>], variable: TyVid) -> bool
    requires { IsOwned table_shape cx.now entries.now }
    ensures { IsFalse result → (u : ℕ) → IsChild (stored cx.now entries.now) variable u → ⊥ }
{
    let Some(ty) = entry_at(entries, variable) else {
        return false;
    };
    ty.has_infer_types(cx)
}
