//! Lines that declare.

use crate::arguments::positions;
use crate::regions::variables;
use crate::terms::fn_sig_kind;
use crate::words::{Unread, Words};
use std::alloc::Global;
use tt_calls::{Call, DeclarationKindCall, DeclareCall};

/// Returns the declaration of the words, the last of which is its name.
pub fn declaration(alloc: Global, words: &mut Words) -> Result<Call, Unread> {
    let kind = kind(alloc, words)?;
    let name = String::from_str(alloc, words.rest())?;
    Ok(Call::Declare(DeclareCall { kind, name }))
}

// Returns what is declared.
fn kind(alloc: Global, words: &mut Words) -> Result<DeclarationKindCall, Unread> {
    match words.word() {
        "trait" => Ok(DeclarationKindCall::Trait {
            params: words.number()?,
        }),
        "assoc_ty" => Ok(DeclarationKindCall::AssocTy(words.position()?)),
        "impl" => Ok(DeclarationKindCall::Impl),
        "inherent" => Ok(DeclarationKindCall::Inherent(words.position()?)),
        "adt" => Ok(DeclarationKindCall::Adt),
        "fn" => Ok(DeclarationKindCall::Fn {
            fn_sig_kind: fn_sig_kind(words.word())?,
            vars: variables(alloc, words.word())?,
            inputs_and_output: positions(alloc, &words.all_but_last())?,
        }),
        "opaque" => Ok(DeclarationKindCall::Opaque),
        "free" => Ok(DeclarationKindCall::Free),
        "foreign" => Ok(DeclarationKindCall::Foreign),
        "closure" => Ok(DeclarationKindCall::Closure),
        "coroutine_closure" => Ok(DeclarationKindCall::CoroutineClosure),
        "coroutine" => Ok(DeclarationKindCall::Coroutine),
        "const" => Ok(DeclarationKindCall::Const),
        "param" => Ok(DeclarationKindCall::Param),
        _ => Err(Unread::Unknown),
    }
}
