//! Instantiation.

ghost use Rattle.std.specs.Prelude.{◌≡◌, ◌+◌, ◌≤◌, ℕ, true, false, MatchResult, IfErr, OnOk};
ghost use Rattle.tt_index.specs.declared.refusal.Refusal.{Refusal};
ghost use Rattle.tt_kinds.specs.Label.{Name, Sort};
ghost use Rattle.tt_kinds.specs.Tree.{param};
ghost use Rattle.tt_kinds.specs.Param.{holds_param};
ghost use Rattle.tt_kinds.specs.Cause.{Cause};
ghost use Rattle.tt_kinds.specs.Count.{generic_types, place_count};
ghost use Rattle.tt_interner.specs.Stored.{Extends};
ghost use Rattle.tt_fold.specs.Places.{CountsPairs};
ghost use Rattle.tt_fold.specs.Steps.{IsPartBy, tree_by};
ghost use Rattle.tt_interner.specs.Arguments.{arguments};
ghost use Rattle.tt_binder.specs.Unpruned.{PruningIsUnseen};
ghost use Rattle.tt_binder.specs.Instance.{IsInstance, IsReason, ComesBack};
ghost use Rattle.tt_binder.specs.Promise.{InstancePromise};
ghost use Rattle.tt_binder.specs.Sharing.{CountsShifts};

use crate::arg_folder::ArgFolder;
use crate::slice_like::SliceLike;
use crate::untouched::is_untouched;
use tt_fold::TypeFoldable;
use tt_index::Refusal;
use tt_interner::Interner;
use tt_kinds::{EarlyBinder, Unnormalized};
use tt_visit::TypeVisitableExt;

/// A value in an item's declaration, which can be instantiated with arguments.
pub trait Instantiate<T: TypeFoldable>: Sized {
    // The value in the declaration.
    ghost declared: { Self → T };

    /// Returns the value with each parameter replaced by the argument at the parameter's index. No binder of the value
    /// captures a variable of an argument.
    ///
    /// Refused with:
    ///
    /// - `NoArguments` if there are no arguments and the value has a parameter;
    /// - `ArgOutOfRange` if there are arguments, but none at a parameter's index;
    /// - `ArgKind` if a parameter's argument is of another kind;
    /// - `RegionVariable` if there are arguments, and a region inference variable occurs in the value outside of the
    ///   types, predicates and lists of clauses without parameters (a constant without parameters hides none);
    /// - `GreatestIndex` if the result would need an index that is too great or would nest too many binders;
    /// - `TableFull` if a term or a list of the result is new and its table is full;
    /// - `Memory` if the memory for the result or for the fold itself is refused.
    ///
    /// If several reasons hold, one of them is returned. An instance of a clause is a clause, so the call never fails
    /// with `NotAClause`.
    ///
    /// A value without parameters in which no such region variable occurs is returned unchanged, and nothing is built.
    /// So is every type, predicate, clause and list of clauses without parameters. If there are no arguments, region
    /// variables aren't looked for.
    ///
    /// If the value is itself a parameter, its argument is returned unshifted. The call is refused only if there is no
    /// argument of the parameter's kind. In both cases nothing is built, and the interner is unchanged.
    ///
    /// A call that succeeds raises the interner's counts as follows:
    ///
    /// - A type of the value that holds a parameter without being one adds at most one to the count of descents for
    ///   each number of binders above the type, however many places it has. Constants, predicates and lists of clauses
    ///   add nothing of their own.
    /// - An argument is shifted at most once for each number of binders above its parameter, however many places the
    ///   parameter has. Each shift adds to the shifter's count what one `shift_vars` of the argument may add.
    fn instantiate<S: SliceLike>(
        self,
        cx: &mut Interner,
        args: S,
    ) -> Result<Unnormalized<T>, Refusal>
        requires args { S.owned cx.old.rows args }
        requires value { IsPartBy T.shape cx.old.rows (declared self) }
        ensures promise { InstancePromise T.shape
            (arguments cx.old.rows (S.items cx.old.rows args))
            (declared self)
            cx.old
            result
            cx.new };
}

// Returns the value, instantiated without arguments.
fn without_arguments<T: TypeFoldable>(cx: &Interner, value: T) -> Result<T, Refusal>
    requires { IsPartBy T.shape cx.now.rows value }
    ensures some { holds_param (tree_by T.shape cx.now.rows value) ≡ true → result ≡ Err Refusal.NoArguments }
    ensures none { holds_param (tree_by T.shape cx.now.rows value) ≡ false → result ≡ Ok value }
{
    if value.has_param(cx) {
        Err(Refusal::NoArguments)
    } else {
        Ok(value)
    }
}

// Returns the value, instantiated.
fn instantiate_value<T: TypeFoldable, S: SliceLike>(
    cx: &mut Interner,
    args: S,
    value: T,
) -> Result<T, Refusal>
    requires args { S.owned cx.old.rows args }
    requires value { IsPartBy T.shape cx.old.rows value }
    // In each case:
    ensures extends { Extends cx.old cx.new }
    ensures descents { cx.old.counters.descents ≤ cx.new.counters.descents }
    ensures shift_descents { cx.old.counters.shift_descents ≤ cx.new.counters.shift_descents }
    // On success:
    ensures positions { OnOk result
        (cx.new.counters.descents ≤ cx.old.counters.descents + place_count (tree_by T.shape cx.old.rows value)) }
    ensures pairs { OnOk result (CountsPairs (generic_types 0 (tree_by T.shape cx.old.rows value))
        cx.old.counters.descents
        cx.new.counters.descents) }
    ensures shifts { OnOk result (CountsShifts
        (arguments cx.old.rows (S.items cx.old.rows args))
        (tree_by T.shape cx.old.rows value)
        cx.old.counters.shift_descents
        cx.new.counters.shift_descents) }
    // The instance, or a reason:
    ensures result { MatchResult
        result
        (λ r. IsPartBy T.shape cx.new.rows r
        × IsInstance
        (arguments cx.old.rows (S.items cx.old.rows args))
        (tree_by T.shape cx.old.rows value)
        (tree_by T.shape cx.new.rows r))
        (λ e. IsReason cx.new
        (arguments cx.old.rows (S.items cx.old.rows args))
        (tree_by T.shape cx.old.rows value)
        e) }
    // Where there is nothing to replace:
    ensures same { ComesBack (arguments cx.old.rows (S.items cx.old.rows args)) (tree_by T.shape cx.old.rows value)
        → (result ≡ Ok value) × (cx.new ≡ cx.old) }
    // At a parameter by itself:
    ensures parameter { (s : Sort) (i : ℕ) (name : Name) → tree_by T.shape cx.old.rows value ≡ param s i name
        → IfErr result (Cause (param s i name) (arguments cx.old.rows (S.items cx.old.rows args))) }
    ensures parameter_still { (s : Sort) (i : ℕ) (name : Name)
        → tree_by T.shape cx.old.rows value ≡ param s i name
        → cx.new ≡ cx.old }
{
    if args.is_empty(cx) {
        return without_arguments(cx, value);
    }
    if is_untouched(cx, &value) {
        return Ok(value);
    }
    // Stored lists of clauses hold clauses alone, and an instance of a clause is a clause. So no list is refused with
    // `NotAClause`.
    cx.are_rows();
    let mut folder = ArgFolder::new(cx.allocator(), args);
    let folded = value.fold_with(cx, &mut folder)?;
    Ok(folded)
}

impl<T: TypeFoldable> Instantiate<T> for EarlyBinder<T> {
    ghost declared = { λ binder. binder.value };

    fn instantiate<S: SliceLike>(
        self,
        cx: &mut Interner,
        args: S,
    ) -> Result<Unnormalized<T>, Refusal> {
        let value = instantiate_value(cx, args, self.skip_binder())?;
        Ok(Unnormalized::new(value))
    }
}

/// Does nothing. The contract gives callers the fact that, under some premises, a walk over a value's whole tree, which
/// uses no flag and replaces each parameter, gives the same tree as [`Instantiate::instantiate`] and is refused for the
/// same causes.
///
/// These are the premises:
///
/// - There is an argument.
/// - No region inference variable occurs in the value.
/// - No more binders are nested in the value than an index can count.
/// - The indices that the value has beside its handles, as in a region, are below the greatest.
///   [`stored_indices_fit`](tt_interner::stored_indices_fit) says that the indices in stored terms always are.
pub fn pruning_is_unseen()
    ensures { PruningIsUnseen }
{}
