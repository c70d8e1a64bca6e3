//! Lists of generic arguments, stored or borrowed.

ghost use Rattle.std.specs.Prelude.{◌≡◌, ◌↔◌, ◌<◌, List, length, slice_get, IsTrue};
ghost use Rattle.tt_kinds.specs.declared.generic_arg.GenericArgKind.{GenericArgKind};
ghost use Rattle.tt_interner.specs.Rows.{Row, Grows};
ghost use Rattle.tt_interner.specs.Arguments.{AreArguments};

use tt_interner::{InternedList, Interner};
use tt_kinds::{GenericArg, GenericArgs};

/// A list of generic arguments that an interner can read. The handles in it have to be of that interner.
pub trait SliceLike: Copy {
    // The arguments in order.
    ghost items: { List Row → Self → List GenericArgKind };
    // A stored list is one of the rows; each handle in a borrowed list names one of the rows.
    ghost owned: { List Row → Self → Type 0 };

    /// Returns the number of arguments.
    fn len(self, cx: &Interner) -> usize
        requires { owned cx.now.rows self }
        ensures len { result ≡ length (items cx.now.rows self) }
        ensures are { AreArguments cx.now.rows (items cx.now.rows self) };

    /// Returns the argument at this index, if there is one.
    fn get(self, cx: &Interner, index: usize) -> Option<GenericArg>
        requires { owned cx.now.rows self }
        ensures { result ≡ slice_get (items cx.now.rows self) index };

    // More rows change no argument.
    ghost still_owned: { (old new : List Row) (x : Self) → Grows old new → owned old x → owned new x };

    ghost still_items: { (old new : List Row) (x : Self) → Grows old new → owned old x → items new x ≡ items old x };

    /// Returns whether there is no argument.
    final fn is_empty(self, cx: &Interner) -> bool
        requires { Self.owned cx.now.rows self }
        ensures empty { IsTrue result ↔ (length (Self.items cx.now.rows self) ≡ 0) }
        ensures are { AreArguments cx.now.rows (Self.items cx.now.rows self) }
    {
        self.len(cx) == 0
    }
}

impl SliceLike for &[GenericArg] {
    ghost items = { λ rows args. args.now };

    ghost owned = { λ rows args. AreArguments rows args.now };

    fn len(self, _cx: &Interner) -> usize {
        <[GenericArg]>::len(self)
    }

    fn get(self, _cx: &Interner, index: usize) -> Option<GenericArg> {
        <[GenericArg]>::get(self, index).copied()
    }

    ghost use Rattle.std.specs.Prelude.{refl};
    ghost use Rattle.tt_interner.proofs.Growth.{AreParts-grows};
    ghost use Rattle.tt_kinds.specs.Shape.{item_shapes};
    ghost use Rattle.tt_kinds.specs.Kinds.{arg_shape};

    ghost still_owned = { λ old new args g h. AreParts-grows old new g (item_shapes arg_shape args.now) h };

    ghost still_items = { λ old new args g h. refl };
}

impl SliceLike for GenericArgs {
    ghost use Rattle.tt_kinds.specs.declared.table.Table.TheVariants.{ArgLists};
    ghost use Rattle.tt_interner.specs.Rows.{size};
    ghost use Rattle.tt_interner.specs.Arguments.{args_at};

    ghost items = { args_at };

    ghost owned = { λ rows args. args.number < size rows ArgLists };

    fn len(self, cx: &Interner) -> usize {
        cx.are_rows();
        self.as_slice(cx).len()
    }

    fn get(self, cx: &Interner, index: usize) -> Option<GenericArg> {
        self.as_slice(cx).get(index).copied()
    }

    ghost use Rattle.tt_interner.proofs.Growth.{in_range-grows};
    ghost use Rattle.tt_binder.specs.ArgumentLaws.{args_at-grows};

    ghost still_owned = { λ old new args g h. in_range-grows old new g ArgLists args.number h };

    ghost still_items = { λ old new args g h. args_at-grows old new args g h };
}
