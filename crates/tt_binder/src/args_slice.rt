//! Views of stored lists of generic arguments, as the arguments of an instantiation.

ghost use Rattle.std.specs.Prelude.{◌≡◌, ◌<◌, drop, take};
ghost use Rattle.tt_kinds.specs.declared.table.Table.TheVariants.{ArgLists};
ghost use Rattle.tt_interner.specs.Rows.{size};
ghost use Rattle.tt_interner.specs.Arguments.{AreArguments};
ghost use Rattle.tt_binder.specs.ArgsSlice.{args_in};

use crate::slice_like::SliceLike;
use tt_interner::{InternedList, Interner};
use tt_kinds::{GenericArg, GenericArgsSlice};

// Returns `len` arguments from this place on, or as many as are there.
fn span(args: &[GenericArg], start: usize, len: usize) -> &[GenericArg]
    ensures { result.now ≡ take len (drop start args.now) }
{
    let first = start.min(args.len());
    let rest = &args[first..];
    let end = len.min(rest.len());
    &rest[..end]
}

// Returns the view's arguments, or as many of them as are in its list.
fn arguments_in<'a>(cx: &'a Interner, view: GenericArgsSlice) -> &'a [GenericArg]
    requires { view.args.number < size cx.now.rows ArgLists }
    ensures items { result.now ≡ args_in cx.now.rows view }
    ensures are { AreArguments cx.now.rows result.now }
{
    let all = view.args().as_slice(cx);
    span(all, view.start() as usize, view.count() as usize)
}

/// The arguments are the items at the view's places. If the view reaches beyond its list, it ends where the list ends.
impl SliceLike for GenericArgsSlice {
    ghost use Rattle.tt_kinds.specs.declared.table.Table.TheVariants.{ArgLists};
    ghost use Rattle.tt_interner.specs.Rows.{size};
    ghost use Rattle.tt_binder.specs.ArgsSlice.{args_in};

    ghost items = { args_in };

    ghost owned = { λ rows view. view.args.number < size rows ArgLists };

    fn len(self, cx: &Interner) -> usize {
        arguments_in(cx, self).len()
    }

    fn get(self, cx: &Interner, index: usize) -> Option<GenericArg> {
        arguments_in(cx, self).get(index).copied()
    }

    ghost use Rattle.tt_interner.proofs.Growth.{in_range-grows};
    ghost use Rattle.tt_binder.specs.ArgsSliceLaws.{args_in-grows};

    ghost still_owned = { λ old new view g h. in_range-grows old new g ArgLists view.args.number h };

    ghost still_items = { λ old new view g h. args_in-grows old new view g h };
}
