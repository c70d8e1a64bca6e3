//! What written types denote.

ghost use Rattle.std.specs.Prelude.{IfOk};
ghost use Rattle.tt_kinds.specs.Kinds.{arg_shape, args_shape, ty_shape};
ghost use Rattle.tt_interner.specs.Owned.{AreOwned, IsOwned};
ghost use Rattle.tt_interner.specs.Stored.{Extends};

use crate::declared::name_of;
use crate::failure::Failure;
use checker_syntax::program::Span;
use solver_syntax::script::{Script, WrittenType};
use tt_index::{Idx, IntTy, Mutability, TyVid, UintTy};
use tt_interner::Interner;
use tt_kinds::{AdtId, GenericArg, GenericArgs, InferTy, Region, Ty, TyKind};

// The number of inference variables that a goal may have.
const MOST_VARIABLES: usize = 1_000_000;

// Returns the type of this number, which is the interner's.
fn type_at(cx: &Interner, types: &[Ty], number: usize) -> Result<Ty, Failure>
    ensures { IfOk result (IsOwned ty_shape cx.now) }
{
    match types.get(number) {
        Some(ty) if cx.owns_ty(*ty) => Ok(*ty),
        _ => Err(Failure::Malformed),
    }
}

// Returns the numbers of this part of the script's list.
fn part_of(script: &Script, span: Span) -> Result<&[usize], Failure> {
    match script.parts.get(span.start..span.end) {
        Some(numbers) => Ok(numbers),
        None => Err(Failure::Malformed),
    }
}

// Returns the types of these numbers.
#[tactic(auto, using(tt_interner::proofs::OwnedLaws::owned_laws))]
fn types_of(cx: &Interner, types: &[Ty], numbers: &[usize]) -> Result<Vec<Ty>, Failure>
    ensures { IfOk result (λ found. AreOwned ty_shape cx.now found.items) }
{
    let mut found = Vec::new(cx.allocator());
    for index in 0..numbers.len() {
        let ty = type_at(cx, types, numbers[index])?;
        found.push(ty)?;
    }
    Ok(found)
}

// Returns the types of these numbers as arguments.
#[tactic(auto, using(tt_interner::proofs::OwnedLaws::owned_laws))]
fn arguments_of(cx: &Interner, types: &[Ty], numbers: &[usize]) -> Result<Vec<GenericArg>, Failure>
    ensures { IfOk result (λ found. AreOwned arg_shape cx.now found.items) }
{
    let mut found = Vec::new(cx.allocator());
    for index in 0..numbers.len() {
        let ty = type_at(cx, types, numbers[index])?;
        found.push(GenericArg::from(ty))?;
    }
    Ok(found)
}

/// Returns the list of the types of this part of the script's list as arguments.
#[tactic(auto, using(tt_interner::proofs::OwnedLaws::owned_laws))]
pub fn args_of(
    cx: &mut Interner,
    script: &Script,
    types: &[Ty],
    span: Span,
) -> Result<GenericArgs, Failure>
    ensures extends { Extends cx.old cx.new }
    ensures owned { IfOk result (IsOwned args_shape cx.new) }
{
    let args = arguments_of(cx, types, part_of(script, span)?)?;
    Ok(cx.mk_args(args.as_slice())?)
}

/// Returns what a written type denotes, whose parts are among the earlier written types.
#[tactic(auto, using(tt_interner::proofs::OwnedLaws::owned_laws))]
pub fn written_type(
    cx: &mut Interner,
    script: &Script,
    data: &[AdtId],
    earlier: &[Ty],
    written: WrittenType,
) -> Result<Ty, Failure> {
    let ty = match written {
        WrittenType::Int => cx.mk_ty(TyKind::Int(IntTy::I32))?,
        WrittenType::Unsigned => cx.mk_ty(TyKind::Uint(UintTy::U32))?,
        WrittenType::Bool => cx.mk_ty(TyKind::Bool)?,
        WrittenType::Char => cx.mk_ty(TyKind::Char)?,
        WrittenType::Str => cx.mk_ty(TyKind::Str)?,
        WrittenType::Param(index, name) => {
            let Ok(index) = u32::try_from(index) else {
                return Err(Failure::Malformed);
            };
            cx.mk_param(index, name_of(script, name)?)?
        }
        WrittenType::Variable(number) => {
            if number > MOST_VARIABLES {
                return Err(Failure::Malformed);
            }
            cx.mk_ty(TyKind::Infer(InferTy::TyVar(TyVid::from_usize(number))))?
        }
        WrittenType::Data(number, span) => {
            let Some(id) = data.get(number) else {
                return Err(Failure::Malformed);
            };
            let args = args_of(cx, script, earlier, span)?;
            cx.mk_ty(TyKind::Adt(*id, args))?
        }
        WrittenType::Tuple(span) => {
            let items = types_of(cx, earlier, part_of(script, span)?)?;
            cx.mk_tuple(items.as_slice())?
        }
        WrittenType::Slice(item) => {
            let item = type_at(cx, earlier, item)?;
            cx.mk_ty(TyKind::Slice(item))?
        }
        WrittenType::Reference(referent) => {
            let referent = type_at(cx, earlier, referent)?;
            cx.mk_ref(Region::new_erased(), referent, Mutability::Not)?
        }
    };
    Ok(ty)
}
