//! What two types that can't be made equal have in common.

ghost use Rattle.tt_kinds.specs.Kinds.{ty_shape};
ghost use Rattle.tt_interner.specs.Owned.{IsOwned};
ghost use Rattle.tt_interner.specs.Stored.{Extends};
ghost use Rattle.unify.specs.Bindings.{IsTable};

use crate::failure::Failure;
use crate::mistake::Pair;
use tt_interner::{InternedKind, InternedList, Interner};
use tt_kinds::{Ty, TyKind};
use unify::{Bindings, Fault, unify};

// The greatest number of types around a difference that are looked into.
const MOST_LEVELS: usize = 1000;

/// Makes the parts of two types equal, in order, up to the first ones that can't be, and returns these. So a message
/// shows the types as far as the parts in front of the difference determine them.
#[tactic(auto, using(crate::proofs::ClientLaws::growth_laws))]
pub fn unify_common(
    cx: &mut Interner,
    bindings: &mut Bindings,
    left: Ty,
    right: Ty,
) -> Result<Pair, Failure>
    requires { IsTable cx.old bindings.old }
    ensures extends { Extends cx.old cx.new }
    ensures table { IsTable cx.new bindings.new }
{
    let mut left = left;
    let mut right = right;
    for _ in 0..MOST_LEVELS {
        let pairs = pairs_of(cx, bindings, left, right)?;
        match first_different(cx, bindings, pairs.as_slice())? {
            Some(pair) => {
                left = pair.0;
                right = pair.1;
            }
            None => break,
        }
    }
    Ok(Pair {
        expected: left,
        found: right,
    })
}

// Makes the two types of each pair equal, in order. Returns the first pair whose types can't be.
#[tactic(auto, using(crate::proofs::ClientLaws::growth_laws))]
fn first_different(
    cx: &mut Interner,
    bindings: &mut Bindings,
    pairs: &[(Ty, Ty)],
) -> Result<Option<(Ty, Ty)>, Failure>
    requires { IsTable cx.old bindings.old }
    ensures extends { Extends cx.old cx.new }
    ensures table { IsTable cx.new bindings.new }
{
    for index in 0..pairs.len() {
        let (left, right) = pairs[index];
        // A part of a type of this interner is one too.
        if cx.owns_ty(left) && cx.owns_ty(right) {
            match unify(cx, bindings, left, right) {
                Ok(()) => {}
                Err(Fault::Refused(refusal)) => return Err(Failure::Refused(refusal)),
                Err(_) => return Ok(Some((left, right))),
            }
        }
    }
    Ok(None)
}

// Returns the parts of the two types in pairs, if the types are of one form as far as they are known.
#[tactic(auto, using(crate::proofs::ClientLaws::growth_laws))]
fn pairs_of(
    cx: &mut Interner,
    bindings: &Bindings,
    left: Ty,
    right: Ty,
) -> Result<Vec<(Ty, Ty)>, Failure>
    requires { IsTable cx.old bindings.now }
    ensures extends { Extends cx.old cx.new }
    ensures table { IsTable cx.new bindings.now }
{
    if !cx.owns_ty(left) || !cx.owns_ty(right) {
        return Ok(Vec::new(cx.allocator()));
    }
    let left = bindings.resolve(cx, left)?;
    let right = bindings.resolve(cx, right)?;
    if !cx.owns_ty(left) || !cx.owns_ty(right) {
        return Ok(Vec::new(cx.allocator()));
    }
    parts_of(cx, left, right)
}

// Returns the parts of the two types in pairs, if the types are of one form.
fn parts_of(cx: &Interner, left: Ty, right: Ty) -> Result<Vec<(Ty, Ty)>, Failure>
    requires left { IsOwned ty_shape cx.now left }
    requires right { IsOwned ty_shape cx.now right }
{
    let mut pairs = Vec::new(cx.allocator());
    match (*left.kind(cx), *right.kind(cx)) {
        (TyKind::Ref(_, left, _), TyKind::Ref(_, right, _)) => pairs.push((left, right))?,
        (TyKind::Tuple(left), TyKind::Tuple(right)) => {
            let (left, right) = (left.as_slice(cx), right.as_slice(cx));
            if left.len() == right.len() {
                for (left, right) in left.iter().zip(right.iter()) {
                    pairs.push((*left, *right))?;
                }
            }
        }
        (TyKind::Adt(left, left_args), TyKind::Adt(right, right_args)) => {
            if left == right {
                let (left, right) = (left_args.as_slice(cx), right_args.as_slice(cx));
                for (left, right) in left.iter().zip(right.iter()) {
                    if let Some(left) = left.as_type()
                        && let Some(right) = right.as_type()
                    {
                        pairs.push((left, right))?;
                    }
                }
            }
        }
        _ => {}
    }
    Ok(pairs)
}
