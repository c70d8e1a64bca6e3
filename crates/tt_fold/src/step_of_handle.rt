//! Conversion of the answers of typed hooks to answers at handles of any table.

ghost use Rattle.std.specs.Prelude.{◌≡◌};
ghost use Rattle.tt_kinds.specs.Handle.{any_handle};
ghost use Rattle.tt_fold.specs.Parts.{map_ok, map_step};

use crate::folder::Step;
use tt_kinds::{AnyHandle, Handle, IsTermRow};

// Converts a hook's answer at a handle with a mark.
#[inline(always)]
pub(crate) fn step_of<K: IsTermRow, E: Drop>(
    answer: Result<Step<Handle<K>>, E>,
) -> Result<Step<AnyHandle>, E>
    ensures { result ≡ map_ok (map_step (any_handle K.IsTermRow.TERM_TABLE)) answer }
{
    match answer {
        Ok(Step::Replace(new)) => Ok(Step::Replace(new.any())),
        Ok(Step::Keep) => Ok(Step::Keep),
        Ok(Step::Descend) => Ok(Step::Descend),
        Err(e) => Err(e),
    }
}

// Converts the handle that a hook returned.
#[inline(always)]
pub(crate) fn any_of<K: IsTermRow, E: Drop>(answer: Result<Handle<K>, E>) -> Result<AnyHandle, E>
    ensures { result ≡ map_ok (any_handle K.IsTermRow.TERM_TABLE) answer }
{
    match answer {
        Ok(new) => Ok(new.any()),
        Err(e) => Err(e),
    }
}
