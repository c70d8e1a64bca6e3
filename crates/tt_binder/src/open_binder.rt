//! Opening a binder: taking the binder off its contents, with arguments for its variables.

ghost use Rattle.tt_fold.specs.Steps.{IsPartBy};
ghost use Rattle.tt_interner.specs.Arguments.{arguments};
ghost use Rattle.tt_binder.specs.OpeningPromise.{OpeningPromise};

use crate::binder_opener::BinderOpener;
use crate::slice_like::SliceLike;
use tt_fold::TypeFoldable;
use tt_index::Refusal;
use tt_interner::Interner;
use tt_kinds::Binder;
use tt_visit::TypeVisitableExt;

/// Returns the binder's contents with each of the binder's own variables replaced by the argument at the variable's
/// number. No binder in the contents captures a variable of an argument, and a variable that is bound outside of the
/// binder keeps its binder: its index is one less.
///
/// Refused with:
///
/// - `NoArguments` if there are no arguments and one of the binder's own variables occurs;
/// - `ArgOutOfRange` if there are arguments, but none for one of the binder's own variables;
/// - `ArgKind` if the argument of one of the binder's own variables is of another kind;
/// - `GreatestIndex` if the result would need an index that is too great or would nest too many binders;
/// - `TableFull` if a term or a list of the result is new and its table is full;
/// - `Memory` if memory is refused for the result, for the fold itself, or for the results that are remembered until
///   the call ends.
///
/// If several reasons hold, one of them is returned.
///
/// Contents in which no variable occurs that is bound by the binder or outside of it are returned unchanged, and
/// nothing is built. Each type that has such a variable is taken apart at most once for each number of binders around
/// its places. Each time adds one to the interner's count of descents. An argument is shifted once past each number of
/// binders.
pub fn instantiate_binder<T: TypeFoldable, S: SliceLike>(
    cx: &mut Interner,
    binder: Binder<T>,
    args: S,
) -> Result<T, Refusal>
    requires args { S.owned cx.old.rows args }
    requires value { IsPartBy T.shape cx.old.rows binder.value }
    ensures promise { OpeningPromise T.shape
        (arguments cx.old.rows (S.items cx.old.rows args))
        binder.value
        cx.old
        result
        cx.new }
{
    let value = binder.skip_binder();
    if !value.has_escaping_bound_vars(cx) {
        return Ok(value);
    }
    // Stored lists of clauses hold clauses alone, and an opened clause is a clause. So no list is refused with
    // `NotAClause`.
    cx.are_rows();
    // Only the contract of this call is needed: the handles of the arguments are the interner's.
    let _count = args.len(cx);
    let mut opener = BinderOpener::new(cx.allocator(), args);
    value.fold_with(cx, &mut opener)
}
