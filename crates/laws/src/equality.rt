//! Values that are compared with `==`: true means that they are the same value.

ghost use Rattle.std.specs.Prelude.{◌≡◌, ◌↔◌, IsTrue};
ghost use Rattle.tt_index.specs.Equality.{IsSameness};
ghost use Rattle.tt_kinds.specs.Kinds.{ty_shape};
ghost use Rattle.tt_kinds.specs.Scan.{scan};
ghost use Rattle.tt_interner.specs.Owned.{IsOwned, tree_in};

use tt_kinds::handle::TypeRow;
use type_terms::{
    Answer, Contents, Flags, InternedKind, Interner, Next, OutlivesPredicate, Refusal, Step, Ty,
    WrongBoundVar, equal_answers_are_same, equal_breaks_are_same, equal_contents_are_same,
    equal_flags_are_same, equal_handles_for_equal_trees, equal_kinds_are_same,
    equal_outcomes_are_same, equal_records_are_same, equal_steps_are_same, equal_values_are_same,
};

/// Returns whether two calls were refused for one reason.
pub fn is_same_refusal(one: Refusal, other: Refusal) -> bool
    ensures { IsTrue result ↔ (one ≡ other) }
{
    equal_values_are_same::<()>();
    one == other
}

/// Returns whether two types have the same flags, so that a scan of the one finds what a scan of the other does. Both
/// have to be the interner's.
pub fn have_same_flags(cx: &Interner, one: Ty, other: Ty) -> bool
    requires one { IsOwned ty_shape cx.now one }
    requires other { IsOwned ty_shape cx.now other }
    ensures { IsTrue result
        ↔ (scan (tree_in cx.now.rows (ty_shape one)) ≡ scan (tree_in cx.now.rows (ty_shape other))) }
{
    equal_flags_are_same();
    one.flags(cx) == other.flags(cx)
}

/// Returns whether two predicates of what outlives a region are one. The `==` of what outlives it has to tell values
/// apart, which no call tests; the library's laws say so of its own types.
pub fn is_same_outlives<T: PartialEq>(
    one: &OutlivesPredicate<T>,
    other: &OutlivesPredicate<T>,
) -> bool
    requires { IsSameness T.eq }
    ensures { IsTrue result ↔ (one.now ≡ other.now) }
{
    equal_records_are_same::<T, ()>();
    one == other
}

/// Returns whether two predicates say of one type that it outlives one region.
pub fn is_same_type_outlives(one: OutlivesPredicate<Ty>, other: OutlivesPredicate<Ty>) -> bool
    ensures { IsTrue result ↔ (one ≡ other) }
{
    equal_records_are_same::<Ty, TypeRow>();
    is_same_outlives(&one, &other)
}

/// Returns whether two types are one, by their kinds. Both have to be the interner's.
pub fn is_same_by_kind(cx: &Interner, one: Ty, other: Ty) -> bool
    requires one { IsOwned ty_shape cx.now one }
    requires other { IsOwned ty_shape cx.now other }
    ensures { IsTrue result → one ≡ other }
{
    equal_kinds_are_same();
    cx.are_interned();
    *one.kind(cx) == *other.kind(cx)
}

/// Returns whether two types have one tree, by their handles. Both have to be the interner's.
pub fn is_same_tree(cx: &Interner, one: Ty, other: Ty) -> bool
    requires one { IsOwned ty_shape cx.now one }
    requires other { IsOwned ty_shape cx.now other }
    ensures { IsTrue result ↔ (tree_in cx.now.rows (ty_shape one) ≡ tree_in cx.now.rows (ty_shape other)) }
{
    cx.are_rows();
    equal_handles_for_equal_trees();
    one.number() == other.number()
}

/// Returns whether the contents of two terms are the same.
pub fn is_same_contents(one: Contents, other: Contents) -> bool
    ensures { IsTrue result ↔ (one ≡ other) }
{
    equal_contents_are_same();
    one == other
}

/// Returns whether a visitor's hook answered that the term's contents are skipped.
pub fn is_skipped(next: Next) -> bool
    ensures { IsTrue result ↔ (next ≡ Next.Skip) }
{
    equal_outcomes_are_same();
    next == Next::Skip
}

/// Returns whether a folder's hook answered with this type.
pub fn is_replaced_by(step: Step<Ty>, ty: Ty) -> bool
    ensures { IsTrue result ↔ (step ≡ Step.Replace ty) }
{
    equal_records_are_same::<(), TypeRow>();
    equal_steps_are_same::<Ty>();
    step == Step::Replace(ty)
}

/// Returns whether two validations broke with one value, which is always so.
pub fn is_same_break(one: WrongBoundVar, other: WrongBoundVar) -> bool
    ensures { IsTrue result }
{
    equal_breaks_are_same();
    one == other
}

/// Returns whether the answer to a call is the wanted one.
pub fn is_wanted(answer: Answer, wanted: Answer) -> bool
    ensures { IsTrue result ↔ (answer ≡ wanted) }
{
    equal_answers_are_same();
    answer == wanted
}
