//! The types of the language, built and taken apart.

ghost use Rattle.std.specs.Prelude.{◌≡◌, IfOk, IfSome, IsTrue, map};
ghost use Rattle.tt_interner.specs.Arguments.{AreArguments, args_at};
ghost use Rattle.tt_fold.specs.Steps.{tree_in};
ghost use Rattle.tt_interner.specs.Owned.{AreOwned, IsOwned};
ghost use Rattle.tt_interner.specs.Stored.{Extends};
ghost use Rattle.tt_kinds.specs.Kinds.{args_shape, ty_shape};
ghost use Rattle.tt_kinds.specs.declared.generic_arg.GenericArgKind.TheVariants as arg;
ghost use Rattle.checker.specs.Scope.{argument_trees, trees};
ghost use Rattle.checker.specs.TypeTrees as tree;
ghost use Rattle.checker.specs.Typing.{AreTypeArguments, IsItemOf, Reaches, values};

use crate::failure::Failure;
use crate::lookup::type_at;
use tt_index::Mutability;
use tt_interner::{InternedKind, InternedList, Interner};
use tt_kinds::{AdtId, FunctionId, GenericArg, GenericArgKind, GenericArgs, Region, Ty, TyKind};
use tt_visit::TypeVisitableExt;

/// The greatest number of references that are taken off a type.
pub const MOST_REFERENCES: u32 = u32::MAX;

/// Returns the type parameter of this index and name.
pub fn parameter(cx: &mut Interner, index: usize, name: &str) -> Result<Ty, Failure>
    ensures extends { Extends cx.old cx.new }
    ensures owned { IfOk result (λ ty. IsOwned ty_shape cx.new ty) }
    ensures is { IfOk result (λ ty. tree_in cx.new.rows (ty_shape ty) ≡ tree.parameter_of index name.now) }
{
    let Ok(index) = u32::try_from(index) else {
        return Err(Failure::Malformed);
    };
    Ok(cx.mk_param(index, name)?)
}

/// Returns the tuple of these types.
pub fn tuple_of(cx: &mut Interner, items: &[Ty]) -> Result<Ty, Failure>
    requires { AreOwned ty_shape cx.old items.now }
    ensures extends { Extends cx.old cx.new }
    ensures owned { IfOk result (λ ty. IsOwned ty_shape cx.new ty) }
    ensures is { IfOk result (λ ty. tree_in cx.new.rows (ty_shape ty) ≡ tree.tuple_of (trees cx.old.rows items.now)) }
{
    Ok(cx.mk_tuple(items)?)
}

/// Returns the reference to this type, with the erased region.
pub fn reference_to(cx: &mut Interner, referent: Ty) -> Result<Ty, Failure>
    requires { IsOwned ty_shape cx.old referent }
    ensures extends { Extends cx.old cx.new }
    ensures owned { IfOk result (λ ty. IsOwned ty_shape cx.new ty) }
    ensures is { IfOk result (λ ty. tree_in cx.new.rows (ty_shape ty)
        ≡ tree.reference_to (tree_in cx.old.rows (ty_shape referent))) }
{
    Ok(cx.mk_ref(Region::new_erased(), referent, Mutability::Not)?)
}

/// Returns the data type of this id at these types.
pub fn data_type_of(cx: &mut Interner, id: AdtId, types: &[Ty]) -> Result<Ty, Failure>
    requires { AreOwned ty_shape cx.old types.now }
    ensures extends { Extends cx.old cx.new }
    ensures owned { IfOk result (λ ty. IsOwned ty_shape cx.new ty) }
    ensures is { IfOk result (λ ty. tree_in cx.new.rows (ty_shape ty)
        ≡ tree.data_type_of id.number (trees cx.old.rows types.now)) }
{
    let args = type_arguments(cx, types)?;
    Ok(cx.mk_ty(TyKind::Adt(id, args))?)
}

/// Returns the type of the function of this id at these types.
pub fn function_of(cx: &mut Interner, id: FunctionId, types: &[Ty]) -> Result<Ty, Failure>
    requires { AreOwned ty_shape cx.old types.now }
    ensures extends { Extends cx.old cx.new }
    ensures owned { IfOk result (λ ty. IsOwned ty_shape cx.new ty) }
    ensures is { IfOk result (λ ty. tree_in cx.new.rows (ty_shape ty)
        ≡ tree.function_of id.number (trees cx.old.rows types.now)) }
{
    let args = type_arguments(cx, types)?;
    Ok(cx.mk_ty(TyKind::FnDef(id, args))?)
}

// Returns the list of these type arguments.
fn type_arguments(cx: &mut Interner, types: &[Ty]) -> Result<GenericArgs, Failure>
    requires { AreOwned ty_shape cx.old types.now }
    ensures extends { Extends cx.old cx.new }
    ensures owned { IfOk result (λ args. IsOwned args_shape cx.new args) }
    ensures is { IfOk result (λ args. tree_in cx.new.rows (args_shape args)
        ≡ tree.arguments_of (trees cx.old.rows types.now)) }
{
    let args = as_arguments(cx, types)?;
    Ok(cx.mk_args(args.as_slice())?)
}

// Returns the types as arguments.
fn as_arguments(cx: &Interner, types: &[Ty]) -> Result<Vec<GenericArg>, Failure>
    ensures { IfOk result (λ args. args.items ≡ map (λ ty. arg.«Type» ty) types.now) }
{
    let mut args = Vec::new(cx.allocator());
    for ty in types {
        args.push(GenericArg::from(*ty))?;
    }
    Ok(args)
}

/// Returns whether there are this many arguments, and each is a type without inference variables.
pub fn are_type_arguments(cx: &Interner, args: GenericArgs, count: usize) -> bool
    requires { IsOwned args_shape cx.now args }
    ensures are { AreArguments cx.now.rows (args_at cx.now.rows args) }
    ensures listed { tree_in cx.now.rows (args_shape args)
        ≡ tree.arguments_of (values (argument_trees cx.now args)) }
    ensures types { IsTrue result → AreTypeArguments (argument_trees cx.now args) count }
{
    let items = args.as_slice(cx);
    if args.has_infer(cx) {
        return false;
    }
    for index in 0..items.len() {
        if items[index].as_type().is_none() {
            return false;
        }
    }
    items.len() == count
}

/// Returns the type without the shared references around it, up to `u32::MAX` of them. A type that is no shared
/// reference is returned as it is.
pub fn without_references(cx: &Interner, ty: Ty) -> Ty
    requires { IsOwned ty_shape cx.now ty }
    ensures owned { IsOwned ty_shape cx.now result }
    ensures reaches { Reaches
        (tree_in cx.now.rows (ty_shape ty))
        (tree_in cx.now.rows (ty_shape result)) }
{
    let mut inner = ty;
    for _ in 0..MOST_REFERENCES {
        let TyKind::Ref(_, referent, mutability) = *inner.kind(cx) else {
            return inner;
        };
        let Mutability::Not = mutability else {
            return inner;
        };
        inner = referent;
    }
    inner
}

/// Returns the type of the item of this number, if the type is a tuple that has it.
#[tactic(auto, using(tt_interner::proofs::OwnedLaws::owned_laws))]
pub fn item_type(cx: &Interner, ty: Ty, item: usize) -> Option<Ty>
    requires { IsOwned ty_shape cx.now ty }
    ensures owned { IfSome result (λ found. IsOwned ty_shape cx.now found) }
    ensures is { IfSome result (λ found. IsItemOf
        item
        (tree_in cx.now.rows (ty_shape ty))
        (tree_in cx.now.rows (ty_shape found))) }
{
    let TyKind::Tuple(items) = *ty.kind(cx) else {
        return None;
    };
    type_at(cx, items.as_slice(cx), item).ok()
}
