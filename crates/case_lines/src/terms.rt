//! Lines that build types, constants and patterns for which scripts have no words.

use crate::arguments::{arguments, positions};
use crate::predicates::existentials;
use crate::regions::{region, type_name, variables};
use crate::words::{Unread, Words};
use std::alloc::Global;
use tt_calls::{AliasCall, Call, ConstCall, ItemCall, PatCall, TyCall, ValTreeCall};
use tt_index::{ExternAbi, FloatTy, Mutability, Safety};
use tt_kinds::{
    BoundConst, BoundVarIndexKind, ErrorGuaranteed, FnHeader, FnSigKind, InferConst,
    PlaceholderConst, ScalarInt,
};

/// Returns the type of this first word and the further words.
pub fn ty(alloc: Global, first: &str, words: &mut Words) -> Result<TyCall, Unread> {
    match first {
        "f32" => Ok(TyCall::Float(FloatTy::F32)),
        "f64" => Ok(TyCall::Float(FloatTy::F64)),
        "named" => Ok(TyCall::Param {
            index: words.number()?,
            name: String::from_str(alloc, words.word())?,
        }),
        "reference" => {
            let region = region(alloc, words.word())?;
            Ok(TyCall::Ref(region, words.position()?, Mutability::Not))
        }
        "foreign" => Ok(TyCall::Foreign(words.position()?)),
        "array" => Ok(TyCall::Array(words.position()?, words.position()?)),
        "item" => {
            let item = item(words)?;
            Ok(TyCall::Item(item, arguments(alloc, words)?))
        }
        "dyn" => {
            let region = region(alloc, words.word())?;
            Ok(TyCall::Dynamic(existentials(alloc, words)?, region))
        }
        "pat" => Ok(TyCall::Pat(words.position()?, words.position()?)),
        "unsafe_binder" => Ok(TyCall::UnsafeBinder {
            vars: variables(alloc, words.word())?,
            ty: words.position()?,
        }),
        "fn_ptr" => {
            let fn_sig_kind = fn_sig_kind(words.word())?;
            Ok(TyCall::FnPtr {
                vars: variables(alloc, words.word())?,
                inputs_and_output: positions(alloc, words)?,
                header: FnHeader { fn_sig_kind },
            })
        }
        _ => named_variable(first, words),
    }
}

/// Returns the parts of a signature other than its types: `plain` is a safe function, `variadic` an unsafe one of C's
/// calling convention with any number of arguments, and `splat:N` a safe one whose argument N is splatted.
pub fn fn_sig_kind(word: &str) -> Result<FnSigKind, Unread> {
    let plain = FnHeader::dummy().fn_sig_kind;
    match word {
        "plain" => Ok(plain),
        "variadic" => {
            let unsafe_c = plain.set_abi(ExternAbi::C { unwind: false });
            Ok(unsafe_c.set_safety(Safety::Unsafe).set_c_variadic(true))
        }
        _ => {
            let digits = word.strip_prefix("splat:").ok_or(Unread::Unknown)?;
            let index = digits.parse::<u16>().map_err(|_| Unread::Unknown)?;
            if FnSigKind::fits_splat(Some(index)) {
                Ok(plain.set_splat(Some(index)))
            } else {
                Err(Unread::Unknown)
            }
        }
    }
}

// Returns a type variable with a name.
fn named_variable(first: &str, words: &mut Words) -> Result<TyCall, Unread> {
    match first {
        "named_bound" => Ok(TyCall::Bound(
            BoundVarIndexKind::Bound(words.index()?),
            words.index()?,
            type_name(words.word())?,
        )),
        "named_cbound" => Ok(TyCall::Bound(
            BoundVarIndexKind::Canonical,
            words.index()?,
            type_name(words.word())?,
        )),
        "named_placeholder" => Ok(TyCall::Placeholder(
            words.index()?,
            words.index()?,
            type_name(words.word())?,
        )),
        _ => Err(Unread::Unknown),
    }
}

// Returns the item of a type with arguments.
fn item(words: &mut Words) -> Result<ItemCall, Unread> {
    match words.word() {
        "adt" => Ok(ItemCall::Adt(words.position()?)),
        "fn" => Ok(ItemCall::FnDef(words.position()?)),
        "closure" => Ok(ItemCall::Closure(words.position()?)),
        "coroutine_closure" => Ok(ItemCall::CoroutineClosure(words.position()?)),
        "coroutine" => Ok(ItemCall::Coroutine(words.position()?)),
        "coroutine_witness" => Ok(ItemCall::CoroutineWitness(words.position()?)),
        "projection" => Ok(ItemCall::Alias(AliasCall::Projection(words.position()?))),
        "inherent" => Ok(ItemCall::Alias(AliasCall::Inherent(words.position()?))),
        "opaque" => Ok(ItemCall::Alias(AliasCall::Opaque(words.position()?))),
        "free" => Ok(ItemCall::Alias(AliasCall::Free(words.position()?))),
        _ => Err(Unread::Unknown),
    }
}

/// Returns the constant of the words.
pub fn constant(alloc: Global, words: &mut Words) -> Result<Call, Unread> {
    let kind = match words.word() {
        "param" => ConstCall::Param {
            index: words.number()?,
            name: String::from_str(alloc, words.word())?,
        },
        "infer" => ConstCall::Infer(InferConst::Var(words.index()?)),
        "fresh" => ConstCall::Infer(InferConst::Fresh(words.number()?)),
        "bound" => ConstCall::Bound(
            BoundVarIndexKind::Bound(words.index()?),
            BoundConst {
                var: words.index()?,
            },
        ),
        "cbound" => {
            let var = words.index()?;
            ConstCall::Bound(BoundVarIndexKind::Canonical, BoundConst { var })
        }
        "placeholder" => {
            let universe = words.index()?;
            let bound = BoundConst {
                var: words.index()?,
            };
            ConstCall::Placeholder(PlaceholderConst::new(universe, bound))
        }
        "unevaluated" => ConstCall::Unevaluated(words.position()?, arguments(alloc, words)?),
        "leaf" => {
            let ty = words.position()?;
            let bits = u128::from(words.number()?);
            ConstCall::Value(ty, ValTreeCall::Leaf(ScalarInt { bits, size: 4 }))
        }
        "branch" => {
            let ty = words.position()?;
            ConstCall::Value(ty, ValTreeCall::Branch(positions(alloc, words)?))
        }
        "error" => ConstCall::Error(ErrorGuaranteed(words.number()?)),
        "expr" => ConstCall::Expr(words.number()?, arguments(alloc, words)?),
        _ => return Err(Unread::Unknown),
    };
    Ok(Call::Const(kind))
}

/// Returns the pattern of the words.
pub fn pattern(alloc: Global, words: &mut Words) -> Result<Call, Unread> {
    let kind = match words.word() {
        "range" => PatCall::Range {
            start: words.position()?,
            end: words.position()?,
        },
        "or" => PatCall::Or(positions(alloc, words)?),
        "not_null" => PatCall::NotNull,
        _ => return Err(Unread::Unknown),
    };
    Ok(Call::Pat(kind))
}
