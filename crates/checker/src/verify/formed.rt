//! The types that are well formed within a function: the language's own types, the function's type parameters, and data
//! types with an argument for each parameter.
//!
//! The mark of each type of the interner, by the type's number, says whether it is one of them. The types that a type is
//! made of have smaller numbers, so the marks are found in order.

ghost use Rattle.std.specs.Prelude.{◌≡◌, IfOk, IsTrue, Some, slice_get};
ghost use Rattle.tt_fold.specs.Steps.{tree_in};
ghost use Rattle.tt_interner.specs.Owned.{IsOwned};
ghost use Rattle.tt_interner.specs.Stored.{Extends};
ghost use Rattle.tt_kinds.specs.Kinds.{args_shape, ty_shape};
ghost use Rattle.checker.specs.Scope.{
  AreMarked,
  AreParameters,
  argument_trees,
  around,
  IsMarked,
  IsScope,
  trees,
};
ghost use Rattle.checker.specs.Typing.{AreFormed, IsFormed, values};

use crate::failure::Failure;
use crate::lookup::{at, name_of};
use crate::scope::Scope;
use crate::types::parameter;
use crate::verify::instances::arguments_of;
use checker_syntax::program::{Function, Program};
use tt_index::{IntTy, Mutability};
use tt_interner::{InternedKind, InternedList, Interner};
use tt_kinds::{AdtId, GenericArgs, RegionKind, Ty, TyKind};

/// Returns the function's type parameters.
#[tactic(auto, using(crate::proofs::ScopeLaws::verify_laws))]
pub fn parameters(
    cx: &mut Interner,
    program: &Program,
    function: &Function,
) -> Result<Vec<Ty>, Failure>
    ensures extends { Extends cx.old cx.new }
    ensures are { IfOk result (λ types. AreParameters cx.new program.now function.now types.items) }
{
    let mut types = Vec::new(cx.allocator());
    for index in 0..function.params.len() {
        let name = name_of(program, function.params[index])?;
        let ty = parameter(cx, index, name)?;
        types.push(ty)?;
    }
    Ok(types)
}

/// Returns the mark of each type of the interner. The function's type parameters are `params`.
pub fn formed_types(cx: &Interner, scope: Scope<'_>, params: &[Ty]) -> Result<Vec<bool>, Failure>
    requires scope { IsScope cx.now scope }
    requires params { AreParameters cx.now scope.program.now scope.function.now params.now }
    ensures { IfOk result (λ marks. AreMarked cx.now scope.entry marks.items) }
{
    let mut marks = Vec::new(cx.allocator());
    for number in 0..u32::MAX {
        let ty = Ty::from_number(number);
        if !cx.owns_ty(ty) {
            return Ok(marks);
        }
        let mark = is_formed(cx, scope, params, marks.as_slice(), ty)?;
        marks.push(mark)?;
    }
    Ok(marks)
}

// Returns whether the type is well formed. The types that it is made of have their marks.
fn is_formed(
    cx: &Interner,
    scope: Scope<'_>,
    params: &[Ty],
    marks: &[bool],
    ty: Ty,
) -> Result<bool, Failure>
    requires scope { IsScope cx.now scope }
    requires params { AreParameters cx.now scope.program.now scope.function.now params.now }
    requires marks { AreMarked cx.now scope marks.now }
    requires ty { IsOwned ty_shape cx.now ty }
    ensures { IfOk result (λ is. IsTrue is → IsFormed
        (around cx.now scope.entry)
        (tree_in cx.now.rows (ty_shape ty))) }
{
    match *ty.kind(cx) {
        TyKind::Int(int) => match int {
            IntTy::I32 => Ok(true),
            _ => Ok(false),
        },
        TyKind::Bool => Ok(true),
        TyKind::Char => Ok(true),
        TyKind::Str => Ok(true),
        TyKind::Param(param) => Ok(is_at(params, param.index as usize, ty)),
        TyKind::Adt(id, _) => {
            let number = index_of(scope, id);
            let Some(item) = scope.program.data.get(number) else {
                return Ok(false);
            };
            match arguments_of(cx, scope, number, item, ty)? {
                Some(args) => Ok(are_arguments_marked(cx, scope, marks, args)),
                None => Ok(false),
            }
        }
        TyKind::Tuple(items) => Ok(are_types_marked(cx, scope, marks, items.as_slice(cx))),
        TyKind::Ref(region, referent, mutability) => {
            let RegionKind::ReErased = region.kind() else {
                return Ok(false);
            };
            let Mutability::Not = mutability else {
                return Ok(false);
            };
            Ok(is_marked(marks, referent))
        }
        _ => Ok(false),
    }
}

// Returns the number of the data type of this id, if the id is a data type's: they were declared in order.
fn index_of(scope: Scope<'_>, id: AdtId) -> usize {
    match scope.declared.data_types.first() {
        Some(first) => id.number().wrapping_sub(first.number()) as usize,
        None => 0,
    }
}

// Returns whether the type is the one of this number.
fn is_at(types: &[Ty], number: usize, ty: Ty) -> bool
    ensures { IsTrue result → slice_get types.now number ≡ Some ty }
{
    let Ok(found) = at(types, number) else {
        return false;
    };
    if found == ty { true } else { false }
}

/// Returns whether the type is marked.
pub fn is_marked(marks: &[bool], ty: Ty) -> bool
    ensures { IsTrue result → IsMarked marks.now ty }
{
    let Ok(mark) = at(marks, ty.number() as usize) else {
        return false;
    };
    mark
}

// Returns whether each of the types is marked.
fn are_types_marked(cx: &Interner, scope: Scope<'_>, marks: &[bool], types: &[Ty]) -> bool
    requires { AreMarked cx.now scope marks.now }
    ensures { IsTrue result → AreFormed (around cx.now scope.entry) (trees cx.now.rows types.now) }
{
    for index in 0..types.len() {
        let Ok(ty) = at(types, index) else {
            return false;
        };
        if !is_marked(marks, ty) {
            return false;
        }
    }
    true
}

/// Returns whether each of the arguments is a marked type.
pub fn are_arguments_marked(
    cx: &Interner,
    scope: Scope<'_>,
    marks: &[bool],
    args: GenericArgs,
) -> bool
    requires marks { AreMarked cx.now scope marks.now }
    requires args { IsOwned args_shape cx.now args }
    ensures { IsTrue result → AreFormed
        (around cx.now scope.entry)
        (values (argument_trees cx.now args)) }
{
    let items = args.as_slice(cx);
    for index in 0..items.len() {
        let Some(ty) = items[index].as_type() else {
            return false;
        };
        if !is_marked(marks, ty) {
            return false;
        }
    }
    true
}
