//! Building types.

ghost use Rattle.std.specs.Prelude.{◌≡◌, ℕ, List, IfErr};
ghost use Rattle.tt_kinds.specs.Label.{type_label};
ghost use Rattle.tt_kinds.specs.Shape as shape;
ghost use Rattle.tt_kinds.specs.Kinds.{ty_kind_shape, args_shape};
ghost use Rattle.tt_interner.specs.Rows.{Row};
ghost use Rattle.tt_interner.specs.Stored.{Extends};
ghost use Rattle.tt_calls.specs.declared.call.Call.TheVariants.{Ty as BuildsTy};
ghost use Rattle.tt_calls.specs.CallForm.{ty_ids, ty_call_form, alias_call_kind, item_type};
ghost use Rattle.tt_calls.specs.Told.{told_all, AreOwnedAnswers};
ghost use Rattle.tt_calls.specs.Means.{number_at, AreTerms};
ghost use Rattle.tt_calls.specs.Build.{GivesKind, MayAnswerCall};
ghost use Rattle.tt_calls.specs.Room.{FormNeedsRoom};
ghost use Rattle.tt_calls.specs.Parts.{
  any_ids,
  named_parts,
  named_vars,
  named_text,
  form_children,
  form_vars,
  form_text,
  built_shape,
  AreOfSorts,
  IsKindForm,
};

use crate::answer::Answer;
use crate::answers::ids::number_at;
use crate::build::existentials::dynamic_kind;
use crate::build::parts::{Built, PartCall, PartsCall, build};
use crate::build::regions::ty_name;
use crate::call::{AliasCall, ItemCall, TyCall, VariableCall};
use tt_index::Refusal;
use tt_interner::Interner;
use tt_kinds::{
    AdtId, AliasTy, AliasTyKind, Binder, BoundTy, ClosureId, CoroutineClosureId, CoroutineId,
    FnSigTys, ForeignId, FreeTyAliasId, FunctionId, GenericArgs, InherentAssocTyId, OpaqueTyId,
    ParamTy, Parts, Placeholder, TraitAssocTyId, TyKind, UnsafeBinderInner,
};

/// Builds the type of the call from the earlier answers. The ids that the call names have to be there;
/// [`call_is_declared`](crate::answers::ids::call_is_declared) tests this.
pub fn build_ty(cx: &mut Interner, earlier: &[Answer], call: &TyCall) -> Result<Answer, Refusal>
    requires { AreOwnedAnswers cx.old.rows earlier.now }
    ensures extends { Extends cx.old cx.new }
    ensures answers { AreTerms (told_all cx.old.rows earlier.now) (ty_ids call.now)
        → MayAnswerCall cx.old cx.new (told_all cx.old.rows earlier.now) (BuildsTy call.now) result }
{
    match ty_kind(cx, earlier, call) {
        Ok(kind) => {
            // Each row is added once, so a type that is stored is found.
            cx.are_rows();
            let ty = cx.mk_ty(kind)?;
            Ok(Answer::Ty(ty))
        }
        Err(refusal) => {
            cx.are_rows();
            Err(refusal)
        }
    }
}

// Returns the kind of the type.
fn ty_kind(cx: &mut Interner, earlier: &[Answer], call: &TyCall) -> Result<TyKind, Refusal>
    requires { AreOwnedAnswers cx.old.rows earlier.now }
    ensures extends { Extends cx.old cx.new }
    ensures kind { GivesKind cx.new
        (told_all cx.old.rows earlier.now)
        (ty_call_form (number_at (told_all cx.old.rows earlier.now)) call.now)
        ty_kind_shape
        result }
    ensures room { IfErr result
        (FormNeedsRoom cx.new.rows
        (told_all cx.old.rows earlier.now)
        (ty_call_form (number_at (told_all cx.old.rows earlier.now)) call.now)) }
{
    if let TyCall::Dynamic(existentials, region) = call {
        return dynamic_kind(cx, earlier, existentials.as_slice(), region);
    }
    match build(cx, earlier, ty_parts(call), ty_vars(call), ty_text(call)) {
        Ok(built) => Ok(built_kind(earlier, call, &built)),
        Err(refusal) => Err(refusal),
    }
}

// Returns what takes the places of the type's children. A trait object is built by `dynamic_kind`.
fn ty_parts<'a>(call: &'a TyCall) -> PartsCall<'a>
    ensures { (ids : ℕ → ℕ) → named_parts result ≡ form_children (ty_call_form ids call.now) }
{
    match call {
        TyCall::Ref(region, ty, _) => PartsCall::Two(PartCall::Region(region), PartCall::Ty(*ty)),
        TyCall::RawPtr(ty, _) | TyCall::Slice(ty) | TyCall::UnsafeBinder { ty, .. } => {
            PartsCall::One(PartCall::Ty(*ty))
        }
        TyCall::Array(ty, length) => PartsCall::Two(PartCall::Ty(*ty), PartCall::Const(*length)),
        TyCall::Pat(ty, pat) => PartsCall::Two(PartCall::Ty(*ty), PartCall::Pat(*pat)),
        TyCall::Tuple(tys) => PartsCall::One(PartCall::Tys(tys.as_slice())),
        TyCall::FnPtr {
            inputs_and_output,
            ..
        } => PartsCall::One(PartCall::Tys(inputs_and_output.as_slice())),
        TyCall::Item(_, args) => PartsCall::One(PartCall::Args(args.as_slice())),
        _ => PartsCall::None,
    }
}

// Returns the variables of the binder around the children, if there is one.
fn ty_vars<'a>(call: &'a TyCall) -> Option<&'a [VariableCall]>
    ensures { (ids : ℕ → ℕ) → named_vars ids result ≡ form_vars (ty_call_form ids call.now) }
{
    match call {
        TyCall::FnPtr { vars, .. } | TyCall::UnsafeBinder { vars, .. } => Some(vars.as_slice()),
        _ => None,
    }
}

// Returns the type's name, if it is a parameter.
fn ty_text<'a>(call: &'a TyCall) -> Option<&'a str>
    ensures { (ids : ℕ → ℕ) → named_text result ≡ form_text (ty_call_form ids call.now) }
{
    match call {
        TyCall::Param { name, .. } => Some(name.as_str()),
        _ => None,
    }
}

// Returns the kind of the type, made of what was built.
fn built_kind(earlier: &[Answer], call: &TyCall, built: &Built) -> TyKind
    requires form { IsKindForm (ty_call_form any_ids call.now) }
    requires sorts { AreOfSorts (form_children (ty_call_form any_ids call.now)) built.now.parts }
    ensures kind { (rows : List Row) → ty_kind_shape result
        ≡ built_shape (ty_call_form (number_at (told_all rows earlier.now)) call.now) built.now }
    ensures form { (ids : ℕ → ℕ) → IsKindForm (ty_call_form ids call.now) }
{
    let Parts { first, second } = built.parts;
    match call {
        TyCall::Bool => TyKind::Bool,
        TyCall::Char => TyKind::Char,
        TyCall::Int(width) => TyKind::Int(*width),
        TyCall::Uint(width) => TyKind::Uint(*width),
        TyCall::Float(width) => TyKind::Float(*width),
        TyCall::Foreign(position) => {
            TyKind::Foreign(ForeignId::from_number(number_at(earlier, *position)))
        }
        TyCall::Str => TyKind::Str,
        TyCall::Never => TyKind::Never,
        TyCall::Param { index, .. } => TyKind::Param(ParamTy {
            index: *index,
            name: built.name,
        }),
        TyCall::Bound(index, var, name) => {
            let kind = ty_name(earlier, *name);
            TyKind::Bound(*index, BoundTy { var: *var, kind })
        }
        TyCall::Placeholder(universe, var, name) => {
            let kind = ty_name(earlier, *name);
            let bound = BoundTy { var: *var, kind };
            TyKind::Placeholder(Placeholder {
                universe: *universe,
                bound,
            })
        }
        TyCall::Infer(infer) => TyKind::Infer(*infer),
        TyCall::Error(token) => TyKind::Error(*token),
        TyCall::Ref(_, _, mutability) => TyKind::Ref(first.region(), second.handle(), *mutability),
        TyCall::RawPtr(_, mutability) => TyKind::RawPtr(first.handle(), *mutability),
        TyCall::Slice(_) => TyKind::Slice(first.handle()),
        TyCall::Array(_, _) => TyKind::Array(first.handle(), second.handle()),
        TyCall::Tuple(_) => TyKind::Tuple(first.handle()),
        TyCall::FnPtr { header, .. } => {
            let inputs_and_output = first.handle();
            let types = Binder::bind_with_vars(FnSigTys { inputs_and_output }, built.vars);
            TyKind::FnPtr(types, *header)
        }
        TyCall::Item(item, _) => item_kind(earlier, *item, first.handle()),
        TyCall::Dynamic(_, _) => unreachable!(),
        TyCall::Pat(_, _) => TyKind::Pat(first.handle(), second.handle()),
        TyCall::UnsafeBinder { .. } => {
            let binder = Binder::bind_with_vars(first.handle(), built.vars);
            TyKind::UnsafeBinder(UnsafeBinderInner::from(binder))
        }
    }
}

// Returns the kind of an item's type with these arguments.
fn item_kind(earlier: &[Answer], item: ItemCall, args: GenericArgs) -> TyKind
    ensures { (rows : List Row) → ty_kind_shape result
        ≡ shape.term
        (type_label (item_type (number_at (told_all rows earlier.now)) item))
        (shape.also (args_shape args) shape.none) }
{
    match item {
        ItemCall::Adt(position) => {
            TyKind::Adt(AdtId::from_number(number_at(earlier, position)), args)
        }
        ItemCall::FnDef(position) => {
            TyKind::FnDef(FunctionId::from_number(number_at(earlier, position)), args)
        }
        ItemCall::Closure(position) => {
            TyKind::Closure(ClosureId::from_number(number_at(earlier, position)), args)
        }
        ItemCall::CoroutineClosure(position) => {
            let id = CoroutineClosureId::from_number(number_at(earlier, position));
            TyKind::CoroutineClosure(id, args)
        }
        ItemCall::Coroutine(position) => {
            TyKind::Coroutine(CoroutineId::from_number(number_at(earlier, position)), args)
        }
        ItemCall::CoroutineWitness(position) => {
            TyKind::CoroutineWitness(CoroutineId::from_number(number_at(earlier, position)), args)
        }
        ItemCall::Alias(alias) => {
            let kind = alias_kind(earlier, alias);
            TyKind::Alias(AliasTy { args, kind })
        }
    }
}

// Returns the kind of the alias.
fn alias_kind(earlier: &[Answer], alias: AliasCall) -> AliasTyKind
    ensures { (rows : List Row) → result ≡ alias_call_kind (number_at (told_all rows earlier.now)) alias }
{
    match alias {
        AliasCall::Projection(position) => AliasTyKind::Projection {
            def_id: TraitAssocTyId::from_number(number_at(earlier, position)),
        },
        AliasCall::Inherent(position) => AliasTyKind::Inherent {
            def_id: InherentAssocTyId::from_number(number_at(earlier, position)),
        },
        AliasCall::Opaque(position) => AliasTyKind::Opaque {
            def_id: OpaqueTyId::from_number(number_at(earlier, position)),
        },
        AliasCall::Free(position) => AliasTyKind::Free {
            def_id: FreeTyAliasId::from_number(number_at(earlier, position)),
        },
    }
}
