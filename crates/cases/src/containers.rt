//! Changes of the terms in containers.

ghost use Rattle.std.specs.Prelude.{◌≡◌, ◌⊎◌};
ghost use Rattle.tt_kinds.specs.Kinds.{ty_shape};
ghost use Rattle.tt_fold.specs.Types.{never_fails};
ghost use Rattle.tt_fold.specs.Walk.{replace, descend};

use crate::steps::{Change, Container};
use std::rc::Rc;
use test_terms::{NOT_OWNED, args, instance, shifted};
use type_terms::{
    Answer, FieldIdx, GenericArg, IndexVec, Interner, Owned, Refusal, Region, Step, Ty,
    TypeFoldable, TypeReplacer, fold_regions, replace_types_once,
};

/// Changes the types at the positions in a container, and answers the list of the types that are then in it.
pub fn changed(
    cx: &mut Interner,
    answers: &[Answer],
    container: Container,
    change: Change,
    positions: &[u32],
) -> Result<Answer, Refusal> {
    let alloc = cx.allocator();
    let mut types = Vec::new(alloc);
    for position in positions {
        types.push(type_at(answers, *position)?)?;
    }
    let types = in_container(cx, answers, container, change, types)?;
    let mut items = Vec::new(alloc);
    for ty in &types {
        items.push(GenericArg::from(*ty))?;
    }
    Ok(Answer::Args(args(cx, items.as_slice())?))
}

/// Returns the type at the position.
pub fn type_at(answers: &[Answer], position: u32) -> Result<Ty, Refusal> {
    let index = (position as usize).checked_sub(1).ok_or(NOT_OWNED)?;
    match answers.get(index) {
        Some(Answer::Ty(ty)) => Ok(*ty),
        _ => Err(NOT_OWNED),
    }
}

// Returns the types that are in the container of these types after the change.
fn in_container(
    cx: &mut Interner,
    answers: &[Answer],
    container: Container,
    change: Change,
    types: Vec<Ty>,
) -> Result<Vec<Ty>, Refusal> {
    let alloc = cx.allocator();
    match container {
        Container::Vec => walked(cx, answers, change, types),
        Container::BoxedSlice => {
            let list = walked(cx, answers, change, types.into_boxed_slice())?;
            Ok(Vec::from_slice(alloc, list.as_slice())?)
        }
        Container::IndexVec => {
            let fields: IndexVec<FieldIdx, Ty> = IndexVec::from_raw(types);
            Ok(walked(cx, answers, change, fields)?.into_raw())
        }
        Container::Rc => {
            let list = walked(cx, answers, change, Rc::new(alloc, types)?)?;
            Ok(Vec::from_slice(alloc, Rc::as_ref(&list).as_slice())?)
        }
        Container::SharedRc => shared(cx, answers, change, types),
        Container::Box | Container::Some | Container::Ok | Container::Pair => {
            few(cx, answers, container, change, types.as_slice())
        }
    }
}

// Returns the types of a shared vector after the change, if the other owner's vector stays as it was.
fn shared(
    cx: &mut Interner,
    answers: &[Answer],
    change: Change,
    types: Vec<Ty>,
) -> Result<Vec<Ty>, Refusal> {
    let alloc = cx.allocator();
    let before = Vec::from_slice(alloc, types.as_slice())?;
    let list = Rc::new(alloc, types)?;
    let other = list.clone()?;
    let list = walked(cx, answers, change, list)?;
    if Rc::as_ref(&other).as_slice() == before.as_slice() {
        Ok(Vec::from_slice(alloc, Rc::as_ref(&list).as_slice())?)
    } else {
        Err(NOT_OWNED)
    }
}

// Returns the types of a container of one type or two after the change.
fn few(
    cx: &mut Interner,
    answers: &[Answer],
    container: Container,
    change: Change,
    types: &[Ty],
) -> Result<Vec<Ty>, Refusal> {
    let alloc = cx.allocator();
    let first = types.first().copied().ok_or(NOT_OWNED)?;
    match container {
        Container::Box => {
            let boxed = walked(cx, answers, change, Box::new(alloc, first)?)?;
            Ok(vec![in alloc; *boxed]?)
        }
        Container::Some => match walked(cx, answers, change, Some(first))? {
            Some(ty) => Ok(vec![in alloc; ty]?),
            None => Err(NOT_OWNED),
        },
        Container::Ok => {
            let good: Result<Ty, Region> = Ok(first);
            match walked(cx, answers, change, good)? {
                Ok(ty) => Ok(vec![in alloc; ty]?),
                Err(_) => Err(NOT_OWNED),
            }
        }
        _ => {
            let second = types.get(1).copied().ok_or(NOT_OWNED)?;
            let (first, second) = walked(cx, answers, change, (first, second))?;
            Ok(vec![in alloc; first, second]?)
        }
    }
}

// Returns the value after the change.
fn walked<T: Owned + TypeFoldable>(
    cx: &mut Interner,
    answers: &[Answer],
    change: Change,
    value: T,
) -> Result<T, Refusal> {
    match change {
        Change::Shift(amount) => shifted(cx, value, amount),
        Change::Instantiate(position) => {
            let arg = GenericArg::from(type_at(answers, position)?);
            instance(cx, value, &[arg])
        }
        Change::EraseRegions => erased(cx, value),
        Change::Replace(from, to) => {
            let from = type_at(answers, from)?;
            let to = type_at(answers, to)?;
            replaced_once(cx, value, from, to)
        }
    }
}

// Returns the value with its regions erased by a closure.
#[tactic(auto, using(tt_fold::proofs::RegionAnswers::region_answers))]
fn erased<T: Owned + TypeFoldable>(cx: &mut Interner, value: T) -> Result<T, Refusal> {
    if value.is_owned(cx) {
        fold_regions(cx, value, |_, _| Region::new_erased())
    } else {
        Err(NOT_OWNED)
    }
}

// Returns the value with one type replaced by another, by a fold that remembers the results of types.
fn replaced_once<T: Owned + TypeFoldable>(
    cx: &mut Interner,
    value: T,
    from: Ty,
    to: Ty,
) -> Result<T, Refusal> {
    if value.is_owned(cx) && to.is_owned(cx) {
        replace_types_once(cx, value, InPlaceOf { from, to })
    } else {
        Err(NOT_OWNED)
    }
}

// Replaces one type by another.
#[derive(Drop)]
struct InPlaceOf {
    from: Ty,
    to: Ty,
}

impl TypeReplacer for InPlaceOf {
    type Error = Refusal;

    ghost shape = { λ s. ty_shape s.to };

    ghost hooks = { never_fails (λ s t a. (a ≡ replace s.state) ⊎ (a ≡ descend)) };

    fn replace_ty(&mut self, _cx: &mut Interner, ty: Ty) -> Result<Step<Ty>, Refusal> {
        if ty == self.from {
            Ok(Step::Replace(self.to))
        } else {
            Ok(Step::Descend)
        }
    }
}
