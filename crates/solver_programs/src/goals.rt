//! Bounds of a script as goals.

ghost use Rattle.tt_interner.specs.Stored.{Extends};

use crate::declared::Declared;
use crate::failure::Failure;
use crate::types::args_of;
use solver_syntax::script::{Bound, Script};
use tt_interner::Interner;
use tt_kinds::{TraitPredicate, TraitRef};

/// Returns the bound as a goal.
pub fn goal_of(
    cx: &mut Interner,
    script: &Script,
    declared: &Declared,
    bound: Bound,
) -> Result<TraitPredicate, Failure>
    ensures { Extends cx.old cx.new }
{
    let Some(id) = declared.traits.get(bound.number) else {
        return Err(Failure::Malformed);
    };
    let args = args_of(cx, script, declared.types.as_slice(), bound.args)?;
    Ok(TraitPredicate {
        trait_ref: TraitRef { def_id: *id, args },
    })
}

/// Returns the bounds as goals.
#[tactic(auto, using(crate::proofs::GrowthLaws::growth_laws))]
pub fn goals_of(
    cx: &mut Interner,
    script: &Script,
    declared: &Declared,
    bounds: &[Bound],
) -> Result<Vec<TraitPredicate>, Failure>
    ensures { Extends cx.old cx.new }
{
    let mut goals = Vec::new(cx.allocator());
    for index in 0..bounds.len() {
        let goal = goal_of(cx, script, declared, bounds[index])?;
        goals.push(goal)?;
    }
    Ok(goals)
}
