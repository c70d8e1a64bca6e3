//! The arguments of projections.

ghost use Rattle.std.specs.Prelude.{IfOk};
ghost use Rattle.tt_interner.specs.Alias.{AreJoined};

use crate::NOT_OWNED;
use type_terms::{
    AliasTy, GenericArgsSlice, InternedAlias, Interner, Refusal, TraitRef, alias_args_are_joined,
};

/// Returns the trait of a projection with the trait's arguments, and the other arguments: together they are the
/// projection's. Refused with [`NOT_OWNED`] if the alias is no projection of this interner with enough arguments.
pub fn split_args(
    cx: &mut Interner,
    alias: AliasTy,
) -> Result<(TraitRef, GenericArgsSlice), Refusal>
    ensures { IfOk result (λ both. AreJoined cx.new.rows alias both.0 both.1) }
{
    if !alias.has_trait_args(cx) {
        return Err(NOT_OWNED);
    }
    alias_args_are_joined();
    alias.trait_ref_and_own_args(cx)
}
