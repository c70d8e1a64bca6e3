//! Making declarations.

ghost use Rattle.std.specs.Prelude.{◌≡◌, IfOk, IfErr, List};
ghost use Rattle.tt_index.specs.declared.refusal.Refusal.TheVariants.{NoSuchAnswer};
ghost use Rattle.tt_kinds.specs.Declaration.{sort_of};
ghost use Rattle.tt_kinds.specs.Shape.{none};
ghost use Rattle.tt_kinds.specs.Values.{declared_shapes, item_label};
ghost use Rattle.tt_interner.specs.Rows.{Row};
ghost use Rattle.tt_interner.specs.Stored.{Extends};
ghost use Rattle.tt_calls.specs.declared.call.Call.TheVariants.{Declare as Declares};
ghost use Rattle.tt_calls.specs.CallForm.{
  declared_ids,
  declared_item,
  declared_positions,
  declared_sort,
  HasNoTerms,
};
ghost use Rattle.tt_calls.specs.Told.{told_all, AreOwnedAnswers};
ghost use Rattle.tt_calls.specs.Means.{number_at, AreTerms};
ghost use Rattle.tt_calls.specs.Build.{MayAnswerCall, GivesDeclared};

use crate::answer::Answer;
use crate::answers::lookup::declared_at;
use crate::build::lists::build_tys;
use crate::build::regions::build_vars;
use crate::call::{DeclarationKindCall, DeclareCall};
use tt_index::Refusal;
use tt_interner::Interner;
use tt_kinds::{Binder, DeclarationKind, DeclarationSort, EarlyBinder, FnSig, ImplId, TraitId};

/// Makes the declaration of the call from the earlier answers, and returns its id. The ids that the variables of a
/// function's signature name have to be there; [`call_is_declared`](crate::answers::ids::call_is_declared) tests this.
pub fn declare_at(
    cx: &mut Interner,
    earlier: &[Answer],
    call: &DeclareCall,
) -> Result<Answer, Refusal>
    requires owned { AreOwnedAnswers cx.old.rows earlier.now }
    requires ids { AreTerms (told_all cx.old.rows earlier.now) (declared_ids call.now.kind) }
    ensures extends { Extends cx.old cx.new }
    ensures answers { MayAnswerCall cx.old cx.new (told_all cx.old.rows earlier.now) (Declares call.now) result }
{
    let kind = declared_kind(cx, earlier, &call.kind)?;
    let name = cx.symbol(call.name.as_str())?;
    let id = cx.declare(kind, name)?;
    Ok(Answer::Id(kind.sort(), id))
}

// Returns what the call declares.
fn declared_kind(
    cx: &mut Interner,
    earlier: &[Answer],
    call: &DeclarationKindCall,
) -> Result<DeclarationKind, Refusal>
    requires { AreOwnedAnswers cx.old.rows earlier.now }
    ensures extends { Extends cx.old cx.new }
    ensures kind { GivesDeclared cx.new (told_all cx.old.rows earlier.now) call.now result }
{
    match call {
        DeclarationKindCall::Fn {
            vars,
            inputs_and_output,
            fn_sig_kind,
        } => {
            let inputs_and_output = build_tys(cx, earlier, inputs_and_output.as_slice())?;
            let vars = build_vars(cx, earlier, vars.as_slice())?;
            let sig = FnSig {
                inputs_and_output,
                fn_sig_kind: *fn_sig_kind,
            };
            Ok(DeclarationKind::Fn(EarlyBinder::bind(Binder::bind_with_vars(sig, vars))))
        }
        _ => item_kind(earlier, call),
    }
}

// Returns what the call declares, which has no terms.
fn item_kind(earlier: &[Answer], call: &DeclarationKindCall) -> Result<DeclarationKind, Refusal>
    requires { HasNoTerms call.now }
    ensures sort { IfOk result (λ kind. sort_of kind ≡ declared_sort call.now) }
    ensures item { IfOk result (λ kind. (rows : List Row) → item_label kind
        ≡ declared_item (number_at (told_all rows earlier.now)) call.now) }
    ensures none { IfOk result (λ kind. declared_shapes kind ≡ none) }
    ensures named { IfOk result (λ kind. (rows : List Row) → AreTerms
        (told_all rows earlier.now)
        (declared_positions call.now)) }
    ensures cause { IfErr result (λ e. e ≡ NoSuchAnswer) }
    ensures absent { IfErr result (λ e. (rows : List Row)
        → AreTerms (told_all rows earlier.now) (declared_positions call.now)
        → ⊥) }
{
    match call {
        DeclarationKindCall::Trait { params } => Ok(DeclarationKind::Trait { params: *params }),
        DeclarationKindCall::AssocTy(position) => {
            let id = declared_at(earlier, *position, DeclarationSort::Trait)?;
            Ok(DeclarationKind::AssocTy(TraitId::from_number(id.number())))
        }
        DeclarationKindCall::Impl => Ok(DeclarationKind::Impl),
        DeclarationKindCall::Inherent(position) => {
            let id = declared_at(earlier, *position, DeclarationSort::Impl)?;
            Ok(DeclarationKind::Inherent(ImplId::from_number(id.number())))
        }
        DeclarationKindCall::Adt => Ok(DeclarationKind::Adt),
        DeclarationKindCall::Fn { .. } => unreachable!(),
        DeclarationKindCall::Opaque => Ok(DeclarationKind::Opaque),
        DeclarationKindCall::Free => Ok(DeclarationKind::Free),
        DeclarationKindCall::Foreign => Ok(DeclarationKind::Foreign),
        DeclarationKindCall::Closure => Ok(DeclarationKind::Closure),
        DeclarationKindCall::CoroutineClosure => Ok(DeclarationKind::CoroutineClosure),
        DeclarationKindCall::Coroutine => Ok(DeclarationKind::Coroutine),
        DeclarationKindCall::Const => Ok(DeclarationKind::Const),
        DeclarationKindCall::Param => Ok(DeclarationKind::Param),
    }
}
