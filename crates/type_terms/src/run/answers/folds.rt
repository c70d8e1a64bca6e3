//! Calls that fold terms.

ghost use Rattle.std.specs.Prelude.{◌≡◌, ◌<◌, Some, ℕ, List};
ghost use Rattle.std.specs.declared.alloc.Global.{Global};
ghost use Rattle.std.specs.declared.vec.Vec.{Vec};
ghost use Rattle.tt_interner.specs.Rows.{size, meaning};
ghost use Rattle.tt_interner.specs.Stored.{Extends};
ghost use Rattle.tt_interner.specs.Arguments.{AreArguments};
ghost use Rattle.tt_calls.specs.declared.call.ArgCall.{ArgCall};
ghost use Rattle.tt_calls.specs.declared.call.Call.TheVariants.{
  Shift as Shifts,
  EraseRegions as Erases,
  Instantiate as Instantiates,
};
ghost use Rattle.tt_calls.specs.CallForm.{args_ids};
ghost use Rattle.tt_calls.specs.Told.{Told, told_all, AreOwnedAnswers};
ghost use Rattle.tt_calls.specs.Means.{term_at, AreTerms, IsParameter};
ghost use Rattle.tt_calls.specs.Build.{MayAnswerCall, AreArgumentsOf};

use crate::run::answers::folded_handle::FoldedHandle;
use crate::run::answers::parameters::{argument_for, parameter_of};
use tt_binder::{Instantiate, is_untouched};
use tt_calls::answers::lookup::answer_at;
use tt_calls::build::lists::{build_args, check_args};
use tt_calls::{Answer, ArgCall};
use tt_fold::{fold_regions, shift_vars};
use tt_index::Refusal;
use tt_interner::Interner;
use tt_kinds::{EarlyBinder, GenericArg, Region, RegionKind};

// Calls the operation on the term that the answer holds, whatever its table. An answer without a term is refused.
macro_rules! on_term {
    ($answer:expr, $term:ident => $operation:expr) => {
        match $answer {
            Answer::Ty($term) => $operation,
            Answer::Const($term) => $operation,
            Answer::Pat($term) => $operation,
            Answer::Predicate($term) => $operation,
            Answer::Clauses($term) => $operation,
            Answer::Args($term) => $operation,
            _ => Err(Refusal::NoSuchAnswer),
        }
    };
}

/// Returns the term at the position, shifted.
pub fn shift_at(
    cx: &mut Interner,
    earlier: &[Answer],
    position: u32,
    amount: u32,
) -> Result<Answer, Refusal>
    requires { AreOwnedAnswers cx.old.rows earlier.now }
    ensures extends { Extends cx.old cx.new }
    ensures answers { MayAnswerCall cx.old cx.new (told_all cx.old.rows earlier.now) (Shifts position amount) result }
{
    let answer = answer_at(earlier, position)?;
    on_term!(answer, term => shifted(cx, *term, amount))
}

// Returns the term, shifted.
fn shifted<T: FoldedHandle>(cx: &mut Interner, term: T, amount: u32) -> Result<Answer, Refusal>
    requires { T.number term < size cx.old.rows T.table }
    ensures extends { Extends cx.old cx.new }
    ensures answers { (earlier : List Told) (p : ℕ)
        → term_at earlier p ≡ Some (record { table = T.table; tree = meaning cx.old.rows T.table (T.number term) })
        → MayAnswerCall cx.old cx.new earlier (Shifts p amount) result }
{
    let shifted = shift_vars(cx, term, amount)?;
    Ok(shifted.into_answer())
}

/// Returns the term at the position, with its regions erased.
pub fn erase_at(cx: &mut Interner, earlier: &[Answer], position: u32) -> Result<Answer, Refusal>
    requires { AreOwnedAnswers cx.old.rows earlier.now }
    ensures extends { Extends cx.old cx.new }
    ensures answers { MayAnswerCall cx.old cx.new (told_all cx.old.rows earlier.now) (Erases position) result }
{
    let answer = answer_at(earlier, position)?;
    on_term!(answer, term => erased(cx, *term))
}

// Returns the term, with its regions erased.
fn erased<T: FoldedHandle>(cx: &mut Interner, term: T) -> Result<Answer, Refusal>
    requires { T.number term < size cx.old.rows T.table }
    ensures extends { Extends cx.old cx.new }
    ensures answers { (earlier : List Told) (p : ℕ) →
        term_at earlier p ≡ Some (record { table = T.table; tree = meaning cx.old.rows T.table (T.number term) }) →
        MayAnswerCall cx.old cx.new earlier (Erases p) result }
{
    let region = Region::new(RegionKind::ReErased)?;
    let erased = fold_regions(cx, term, move |_, _| region)?;
    Ok(erased.into_answer())
}

/// Returns the term at the position, instantiated. The ids that the arguments name have to be there. If the term is
/// itself a parameter, returns the term that the parameter's argument names. If the term is untouched (no parameter
/// occurs in it, and no region variable is exposed), returns it unchanged. In both cases no argument is built.
pub fn instantiate_at(
    cx: &mut Interner,
    earlier: &[Answer],
    position: u32,
    args: &[ArgCall],
) -> Result<Answer, Refusal>
    requires { AreOwnedAnswers cx.old.rows earlier.now }
    ensures extends { Extends cx.old cx.new }
    ensures answers { (list : Vec ArgCall Global) →
        list.items ≡ args.now →
        AreTerms (told_all cx.old.rows earlier.now) (args_ids list.items) →
        MayAnswerCall cx.old cx.new (told_all cx.old.rows earlier.now) (Instantiates position list) result }
{
    let answer = answer_at(earlier, position)?;
    match parameter_of(cx, answer) {
        Some(parameter) => {
            check_args(cx, earlier, args)?;
            argument_for(earlier, args, parameter)
        }
        None => on_term!(answer, term => instantiate_term(cx, earlier, *term, args)),
    }
}

// Returns the term, which is not itself a parameter, instantiated. No argument is built if the term is untouched.
fn instantiate_term<T: FoldedHandle>(
    cx: &mut Interner,
    earlier: &[Answer],
    term: T,
    args: &[ArgCall],
) -> Result<Answer, Refusal>
    requires owned { AreOwnedAnswers cx.old.rows earlier.now }
    requires term { T.number term < size cx.old.rows T.table }
    requires whole { IsParameter (record { table = T.table; tree = meaning cx.old.rows T.table (T.number term) }) → ⊥ }
    ensures extends { Extends cx.old cx.new }
    ensures answers { (p : ℕ) (list : Vec ArgCall Global)
        → term_at (told_all cx.old.rows earlier.now) p
        ≡ Some (record { table = T.table; tree = meaning cx.old.rows T.table (T.number term) })
        → list.items ≡ args.now
        → AreTerms (told_all cx.old.rows earlier.now) (args_ids list.items)
        → MayAnswerCall cx.old cx.new (told_all cx.old.rows earlier.now) (Instantiates p list) result }
{
    if is_untouched(cx, &term) {
        check_args(cx, earlier, args)?;
        return Ok(term.into_answer());
    }
    let args = build_args(cx, earlier, args)?;
    instantiated(cx, term, args.as_slice())
}

// Returns the term, instantiated.
fn instantiated<T: FoldedHandle>(
    cx: &mut Interner,
    term: T,
    args: &[GenericArg],
) -> Result<Answer, Refusal>
    requires term { T.number term < size cx.old.rows T.table }
    requires args { AreArguments cx.old.rows args.now }
    ensures extends { Extends cx.old cx.new }
    ensures answers { (earlier : List Told) (p : ℕ) (list : Vec ArgCall Global)
        → term_at earlier p ≡ Some (record { table = T.table; tree = meaning cx.old.rows T.table (T.number term) })
        → AreTerms earlier (args_ids list.items)
        → AreArgumentsOf cx.old earlier list.items args.now
        → MayAnswerCall cx.old cx.new earlier (Instantiates p list) result }
{
    let instance = EarlyBinder::bind(term).instantiate(cx, args)?;
    Ok(instance.skip_norm_wip().into_answer())
}
