//! Building constants and lists of generic arguments.

ghost use Rattle.std.specs.declared.alloc.Global.{Global};
ghost use Rattle.std.specs.declared.vec.Vec.{Vec};
ghost use Rattle.std.specs.Prelude.{◌≡◌, ℕ, List};
ghost use Rattle.tt_kinds.specs.Kinds.{const_kind_shape};
ghost use Rattle.tt_interner.specs.Rows.{Row};
ghost use Rattle.tt_interner.specs.Stored.{Extends};
ghost use Rattle.tt_calls.specs.declared.call.ArgCall.{ArgCall};
ghost use Rattle.tt_calls.specs.declared.call.Call.TheVariants.{Const as BuildsConst, Args as BuildsArgs};
ghost use Rattle.tt_calls.specs.CallForm.{args_ids, const_ids, const_call_form, value_call_form};
ghost use Rattle.tt_calls.specs.Told.{told_all, AreOwnedAnswers};
ghost use Rattle.tt_calls.specs.Means.{number_at, AreTerms};
ghost use Rattle.tt_calls.specs.Build.{MayAnswerCall};
ghost use Rattle.tt_calls.specs.Parts.{
  any_ids,
  named_parts,
  named_text,
  form_children,
  form_vars,
  form_text,
  built_shape,
  AreOfSorts,
  IsKindForm,
};

use crate::answer::Answer;
use crate::answers::ids::number_at;
use crate::build::lists::build_arg_list;
use crate::build::parts::{Built, PartCall, PartsCall, build};
use crate::call::{ArgCall, ConstCall, ValTreeCall};
use tt_index::Refusal;
use tt_interner::Interner;
use tt_kinds::{
    ConstKind, ExprConst, ParamConst, Parts, UnevaluatedConst, UnevaluatedConstId, ValTree,
    ValTreeKind, ValueConst,
};

/// Builds the constant of the call from the earlier answers. The ids that the call names have to be there;
/// [`call_is_declared`](crate::answers::ids::call_is_declared) tests this.
pub fn build_const(
    cx: &mut Interner,
    earlier: &[Answer],
    call: &ConstCall,
) -> Result<Answer, Refusal>
    requires { AreOwnedAnswers cx.old.rows earlier.now }
    ensures extends { Extends cx.old cx.new }
    ensures answers { AreTerms (told_all cx.old.rows earlier.now) (const_ids call.now)
        → MayAnswerCall cx.old cx.new (told_all cx.old.rows earlier.now) (BuildsConst call.now) result }
{
    match build(cx, earlier, const_parts(call), None, const_text(call)) {
        Ok(built) => {
            // Each row is added once, so a constant that is stored is found.
            cx.are_rows();
            let constant = cx.mk_const(const_kind(earlier, call, &built))?;
            Ok(Answer::Const(constant))
        }
        Err(refusal) => {
            cx.are_rows();
            Err(refusal)
        }
    }
}

/// Builds the list of generic arguments of the call from the earlier answers. The ids that the call names have to be
/// there; [`call_is_declared`](crate::answers::ids::call_is_declared) tests this.
pub fn build_args_answer(
    cx: &mut Interner,
    earlier: &[Answer],
    args: &[ArgCall],
) -> Result<Answer, Refusal>
    requires { AreOwnedAnswers cx.old.rows earlier.now }
    ensures extends { Extends cx.old cx.new }
    ensures answers { (list : Vec ArgCall Global) → list.items ≡ args.now
        → AreTerms (told_all cx.old.rows earlier.now) (args_ids list.items)
        → MayAnswerCall cx.old cx.new (told_all cx.old.rows earlier.now) (BuildsArgs list) result }
{
    match build_arg_list(cx, earlier, args) {
        Ok(args) => Ok(Answer::Args(args)),
        Err(refusal) => {
            // Each row is added once, so a list that is stored is found.
            cx.are_rows();
            Err(refusal)
        }
    }
}

// Returns what takes the places of the constant's children.
fn const_parts<'a>(call: &'a ConstCall) -> PartsCall<'a>
    ensures parts { (ids : ℕ → ℕ) → named_parts result ≡ form_children (const_call_form ids call.now) }
    ensures vars { (ids : ℕ → ℕ) → form_vars (const_call_form ids call.now) ≡ None }
{
    match call {
        ConstCall::Unevaluated(_, args) | ConstCall::Expr(_, args) => {
            PartsCall::One(PartCall::Args(args.as_slice()))
        }
        ConstCall::Value(ty, valtree) => value_parts(*ty, valtree),
        _ => PartsCall::None,
    }
}

// Returns what takes the places of the children of a value of the type at the position.
fn value_parts<'a>(ty: u32, call: &'a ValTreeCall) -> PartsCall<'a>
    ensures { named_parts result ≡ form_children (value_call_form ty call.now) }
{
    match call {
        ValTreeCall::Leaf(_) => PartsCall::One(PartCall::Ty(ty)),
        ValTreeCall::Branch(consts) => {
            PartsCall::Two(PartCall::Ty(ty), PartCall::Consts(consts.as_slice()))
        }
    }
}

// Returns the constant's name, if it is a parameter.
fn const_text<'a>(call: &'a ConstCall) -> Option<&'a str>
    ensures { (ids : ℕ → ℕ) → named_text result ≡ form_text (const_call_form ids call.now) }
{
    match call {
        ConstCall::Param { name, .. } => Some(name.as_str()),
        _ => None,
    }
}

// Returns the kind of the constant, made of what was built.
fn const_kind(earlier: &[Answer], call: &ConstCall, built: &Built) -> ConstKind
    requires { AreOfSorts (form_children (const_call_form any_ids call.now)) built.now.parts }
    ensures kind { (rows : List Row) → const_kind_shape result
        ≡ built_shape (const_call_form (number_at (told_all rows earlier.now)) call.now) built.now }
    ensures form { (ids : ℕ → ℕ) → IsKindForm (const_call_form ids call.now) }
{
    let Parts { first, second } = built.parts;
    match call {
        ConstCall::Param { index, .. } => ConstKind::Param(ParamConst {
            index: *index,
            name: built.name,
        }),
        ConstCall::Infer(infer) => ConstKind::Infer(*infer),
        ConstCall::Bound(index, bound) => ConstKind::Bound(*index, *bound),
        ConstCall::Placeholder(placeholder) => ConstKind::Placeholder(*placeholder),
        ConstCall::Unevaluated(position, _) => ConstKind::Unevaluated(UnevaluatedConst {
            def: UnevaluatedConstId::from_number(number_at(earlier, *position)),
            args: first.handle(),
        }),
        ConstCall::Value(_, ValTreeCall::Leaf(leaf)) => {
            let valtree = ValTree::from(ValTreeKind::Leaf(*leaf));
            ConstKind::Value(ValueConst {
                ty: first.handle(),
                valtree,
            })
        }
        ConstCall::Value(_, ValTreeCall::Branch(_)) => {
            let valtree = ValTree::from(ValTreeKind::Branch(second.handle()));
            ConstKind::Value(ValueConst {
                ty: first.handle(),
                valtree,
            })
        }
        ConstCall::Error(token) => ConstKind::Error(*token),
        ConstCall::Expr(tag, _) => ConstKind::Expr(ExprConst {
            tag: *tag,
            args: first.handle(),
        }),
    }
}
