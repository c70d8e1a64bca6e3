//! The check that no two implementations apply to one goal.

ghost use Rattle.std.specs.Prelude.{◌≡◌, ◌<◌, ℕ, IfOk, IfSome, None, Some, slice_get};
ghost use Rattle.tt_kinds.specs.Kinds.{args_shape};
ghost use Rattle.tt_kinds.specs.Values.{trait_predicate_shape};
ghost use Rattle.tt_interner.specs.Arguments as rows;
ghost use Rattle.tt_interner.specs.Owned.{IsOwned};
ghost use Rattle.tt_interner.specs.Stored.{Extends};
ghost use Rattle.unify.specs.Bindings.{IsTable};
ghost use Rattle.solver.specs.Overlap.{AppliesTo, AreApart, IsCoherent, IsOverlap};
ghost use Rattle.solver.specs.Program.{goal_in, impl_in, impls_in, IsOwnedImpl, IsProgram};
ghost use Rattle.solver.specs.Written.{IsWritten};
ghost use Rattle.solver.specs.declared.program.Impl.{Impl};

use crate::arguments::are_type_arguments;
use crate::fault::Fault;
use crate::goals::{fresh_args, instance, resolved_args, unify_goals};
use crate::instances::check_instance;
use crate::program::{Impl, Program};
use crate::refutation::are_types;
use tt_interner::{InternedList, Interner};
use tt_kinds::{GenericArgs, TraitPredicate};
use unify::Bindings;

/// Two implementations that apply to one goal.
#[derive(Clone, Copy, Debug, PartialEq, Eq, Drop)]
pub struct Overlap {
    /// The number of the implementation that was declared first.
    pub first: usize,
    /// The number of the other one.
    pub second: usize,
    /// A goal that is an instance of both heads. No table has its inference variables.
    pub goal: TraitPredicate,
}

/// Looks for two implementations whose heads have an instance in common. Their conditions don't count, so it also finds
/// overlaps that the compiler's coherence check accepts, since a condition can't hold. Regions are compared as they are.
///
/// Of several overlaps it returns the one with the lowest `second`, and of these the one with the lowest `first`. Until
/// then it compares each two heads of one trait.
///
/// # Errors
///
/// - [`Fault::Unverified`] if one of two heads that it compares has an argument that isn't a type
/// - [`Fault::Refused`] if memory is short or a table is full, or if an instance would need an index that is too great
#[tactic(auto, using(crate::proofs::ProgramLaws::solver_laws))]
pub fn first_overlap(cx: &mut Interner, program: &Program) -> Result<Option<Overlap>, Fault>
    requires program { IsProgram cx.old program.now }
    ensures extends { Extends cx.old cx.new }
    ensures owned { IfOk result (λ found. IfSome found (λ overlap. IsOwned trait_predicate_shape cx.new overlap.goal)) }
    ensures overlap { IfOk result (λ found. IfSome found (λ overlap.
        IsOverlap (impls_in cx.old program.now) overlap.first overlap.second (goal_in cx.new overlap.goal))) }
    ensures coherent { IfOk result (λ found. found ≡ None → IsCoherent (impls_in cx.old program.now)) }
{
    for second in 0..program.impls.len() {
        let Some(implementation) = program.impls.get(second) else {
            return Err(Fault::Unverified);
        };
        if let Some(overlap) = overlap_of(cx, program, implementation, second)? {
            return Ok(Some(overlap));
        }
    }
    Ok(None)
}

// Returns the overlap of the implementation with the first of the earlier ones that overlaps with it.
#[tactic(auto, using(crate::proofs::ProgramLaws::solver_laws))]
fn overlap_of(
    cx: &mut Interner,
    program: &Program,
    implementation: &Impl,
    second: usize,
) -> Result<Option<Overlap>, Fault>
    requires program { IsProgram cx.old program.now }
    requires there { slice_get program.now second ≡ Some implementation.now }
    ensures extends { Extends cx.old cx.new }
    ensures owned { IfOk result (λ found. IfSome found (λ overlap. IsOwned trait_predicate_shape cx.new overlap.goal)) }
    ensures overlap { IfOk result (λ found. IfSome found (λ overlap.
        IsOverlap (impls_in cx.old program.now) overlap.first overlap.second (goal_in cx.new overlap.goal))) }
    ensures apart { IfOk result (λ found. found ≡ None → (j : ℕ) (i : Impl) → j < second
        → slice_get program.now j ≡ Some i → AreApart (impl_in cx.old i) (impl_in cx.old implementation.now)) }
{
    for first in 0..second {
        let Some(earlier) = program.impls.get(first) else {
            return Err(Fault::Unverified);
        };
        if let Some(goal) = shared_goal(cx, earlier, implementation)? {
            return Ok(Some(Overlap {
                first,
                second,
                goal,
            }));
        }
    }
    Ok(None)
}

// Returns a goal to which both implementations apply.
#[tactic(auto, using(crate::proofs::ProgramLaws::solver_laws))]
fn shared_goal(
    cx: &mut Interner,
    left: &Impl,
    right: &Impl,
) -> Result<Option<TraitPredicate>, Fault>
    requires left { IsOwnedImpl cx.old left.now }
    requires right { IsOwnedImpl cx.old right.now }
    requires left_written { IsWritten (impl_in cx.old left.now) }
    requires right_written { IsWritten (impl_in cx.old right.now) }
    ensures extends { Extends cx.old cx.new }
    ensures owned { IfOk result (λ found. IfSome found (λ goal. IsOwned trait_predicate_shape cx.new goal)) }
    ensures left { IfOk result (λ found. IfSome found (λ goal.
        AppliesTo (impl_in cx.old left.now) (goal_in cx.new goal))) }
    ensures right { IfOk result (λ found. IfSome found (λ goal.
        AppliesTo (impl_in cx.old right.now) (goal_in cx.new goal))) }
    ensures apart { IfOk result (λ found. found ≡ None
        → AreApart (impl_in cx.old left.now) (impl_in cx.old right.now)) }
{
    if left.head.trait_ref.def_id != right.head.trait_ref.def_id {
        return Ok(None);
    }
    let mut bindings = Bindings::new(cx.allocator());
    let lefts = fresh_args(cx, &mut bindings, left.params)?;
    // The arguments are the interner's, so their trees stay whatever is built.
    let _lefts = lefts.as_slice(cx);
    let rights = fresh_args(cx, &mut bindings, right.params)?;
    let _rights = rights.as_slice(cx);
    let head = instance(cx, lefts, left.head)?;
    let other = instance(cx, rights, right.head)?;
    if !are_types(cx, head.trait_ref.args) {
        return Err(Fault::Unverified);
    }
    if !are_types(cx, other.trait_ref.args) {
        return Err(Fault::Unverified);
    }
    if !unify_goals(cx, &mut bindings, head, other)? {
        return Ok(None);
    }
    match common_instance(cx, &bindings, left, lefts, right, rights) {
        Ok(goal) => Ok(Some(goal)),
        Err(fault) => Err(fault),
    }
}

// Returns the instance of both heads at the arguments as the bindings have them.
#[tactic(auto, using(crate::proofs::ProgramLaws::solver_laws))]
fn common_instance(
    cx: &mut Interner,
    bindings: &Bindings,
    left: &Impl,
    lefts: GenericArgs,
    right: &Impl,
    rights: GenericArgs,
) -> Result<TraitPredicate, Fault>
    requires table { IsTable cx.old bindings.now }
    requires left { IsOwnedImpl cx.old left.now }
    requires lefts { IsOwned args_shape cx.old lefts }
    requires right { IsOwnedImpl cx.old right.now }
    requires rights { IsOwned args_shape cx.old rights }
    ensures extends { Extends cx.old cx.new }
    ensures owned { IfOk result (λ goal. IsOwned trait_predicate_shape cx.new goal) }
    ensures left { IfOk result (λ goal. AppliesTo (impl_in cx.old left.now) (goal_in cx.new goal)) }
    ensures right { IfOk result (λ goal. AppliesTo (impl_in cx.old right.now) (goal_in cx.new goal)) }
{
    let Some(lefts) = resolved_args(cx, bindings, lefts)? else {
        return Err(Fault::Unverified);
    };
    let Some(rights) = resolved_args(cx, bindings, rights)? else {
        return Err(Fault::Unverified);
    };
    if !are_type_arguments(cx, lefts, left.params) {
        return Err(Fault::Unverified);
    }
    if !are_type_arguments(cx, rights, right.params) {
        return Err(Fault::Unverified);
    }
    // The arguments are the interner's, so their trees stay whatever is built.
    let _rights = rights.as_slice(cx);
    let goal = instance(cx, lefts, left.head)?;
    match check_instance(cx, rights, &right.head, goal) {
        Ok(()) => Ok(goal),
        Err(fault) => Err(fault),
    }
}
