//! Canonical forms.

ghost use Rattle.std.specs.Prelude.{◌≡◌, IfOk};
ghost use Rattle.tt_interner.specs.Stored.{Extends};
ghost use Rattle.tt_interner.specs.Owned.{IsPartBy, tree_by};
ghost use Rattle.canonical.specs.Canonical.{canonical, variables};

use crate::collector::variables_of;
use crate::numbers::numbered;
use tt_fold::TypeFoldable;
use tt_index::{Refusal, TyVid};
use tt_interner::Interner;

/// A value whose type variables are numbered from 0, in the order in which they first occur in it.
#[derive(Drop)]
pub struct Canonical<T> {
    /// The value with its variables numbered.
    pub value: T,
    /// The variable that each number is in place of.
    pub variables: Vec<TyVid>,
}

/// Returns the value with its type variables numbered from 0, in the order in which they first occur in it. So values
/// that differ in the names of their variables alone get the same value. Integer, float, region and constant variables
/// stay as they are.
///
/// The value's handles have to be of this interner. Refused with `Memory`, or with `TableFull` if a table is full, no
/// number is left, or the search for variables in a type would make `u32::MAX` visits or more. A type that is in the
/// value many times is taken apart once.
pub fn canonicalize<T: TypeFoldable>(cx: &mut Interner, value: T) -> Result<Canonical<T>, Refusal>
    requires { IsPartBy T.shape cx.old.rows value }
    ensures extends { Extends cx.old cx.new }
    ensures owned { IfOk result (λ c. IsPartBy T.shape cx.new.rows c.value) }
    ensures variables { IfOk result (λ c. c.variables.items ≡ variables (tree_by T.shape cx.old.rows value)) }
    ensures plain { IfOk result (λ c. tree_by T.shape cx.new.rows c.value
        ≡ canonical (tree_by T.shape cx.old.rows value)) }
{
    let variables = variables_of(cx, &value)?;
    let value = numbered(cx, variables.as_slice(), value)?;
    Ok(Canonical { value, variables })
}
