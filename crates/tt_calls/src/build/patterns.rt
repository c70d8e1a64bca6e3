//! Building patterns.

ghost use Rattle.std.specs.Prelude.{◌≡◌};
ghost use Rattle.tt_kinds.specs.Kinds.{pattern_kind_shape};
ghost use Rattle.tt_interner.specs.Stored.{Extends};
ghost use Rattle.tt_calls.specs.declared.call.Call.TheVariants.{Pat as BuildsPat};
ghost use Rattle.tt_calls.specs.CallForm.{pat_call_form};
ghost use Rattle.tt_calls.specs.Told.{told_all, AreOwnedAnswers};
ghost use Rattle.tt_calls.specs.Build.{MayAnswerCall};
ghost use Rattle.tt_calls.specs.Parts.{
  named_parts,
  form_children,
  form_vars,
  form_text,
  built_shape,
  AreOfSorts,
  IsKindForm,
};

use crate::answer::Answer;
use crate::build::parts::{Built, PartCall, PartsCall, build};
use crate::call::PatCall;
use tt_index::Refusal;
use tt_interner::Interner;
use tt_kinds::{Parts, PatternKind};

/// Builds the pattern of the call from the earlier answers.
pub fn build_pat(cx: &mut Interner, earlier: &[Answer], call: &PatCall) -> Result<Answer, Refusal>
    requires { AreOwnedAnswers cx.old.rows earlier.now }
    ensures extends { Extends cx.old cx.new }
    ensures answers { MayAnswerCall cx.old cx.new (told_all cx.old.rows earlier.now) (BuildsPat call.now) result }
{
    match build(cx, earlier, pat_parts(call), None, None) {
        Ok(built) => {
            // Each row is added once, so a pattern that is stored is found.
            cx.are_rows();
            let pat = cx.mk_pat(pat_kind(call, &built))?;
            Ok(Answer::Pat(pat))
        }
        Err(refusal) => {
            cx.are_rows();
            Err(refusal)
        }
    }
}

// Returns what takes the places of the pattern's children.
fn pat_parts<'a>(call: &'a PatCall) -> PartsCall<'a>
    ensures parts { named_parts result ≡ form_children (pat_call_form call.now) }
    ensures vars { form_vars (pat_call_form call.now) ≡ None }
    ensures text { form_text (pat_call_form call.now) ≡ None }
{
    match call {
        PatCall::Range { start, end } => {
            PartsCall::Two(PartCall::Const(*start), PartCall::Const(*end))
        }
        PatCall::Or(pats) => PartsCall::One(PartCall::Pats(pats.as_slice())),
        PatCall::NotNull => PartsCall::None,
    }
}

// Returns the kind of the pattern, made of what was built.
fn pat_kind(call: &PatCall, built: &Built) -> PatternKind
    requires { AreOfSorts (form_children (pat_call_form call.now)) built.now.parts }
    ensures kind { pattern_kind_shape result ≡ built_shape (pat_call_form call.now) built.now }
    ensures form { IsKindForm (pat_call_form call.now) }
{
    let Parts { first, second } = built.parts;
    match call {
        PatCall::Range { .. } => PatternKind::Range {
            start: first.handle(),
            end: second.handle(),
        },
        PatCall::Or(_) => PatternKind::Or(first.handle()),
        PatCall::NotNull => PatternKind::NotNull,
    }
}
