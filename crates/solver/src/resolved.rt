//! Lines with their bound variables replaced.

ghost use Rattle.tt_interner.specs.Stored.{Extends};
ghost use Rattle.unify.specs.Bindings.{IsTable};

use crate::goals::{resolved_args, resolved_goal};
use crate::log::{Line, Reason};
use tt_index::Refusal;
use tt_interner::Interner;
use tt_kinds::TraitPredicate;
use tt_owned::Owned;
use unify::Bindings;

/// Returns the lines from this number on, with the bound variables in them replaced.
#[tactic(auto, using(crate::proofs::SearchLaws::search_laws))]
pub fn resolved_lines(
    cx: &mut Interner,
    bindings: &Bindings,
    lines: &[Line],
    from: usize,
) -> Result<Vec<Line>, Refusal>
    requires { IsTable cx.old bindings.now }
    ensures { Extends cx.old cx.new }
{
    let mut resolved = Vec::new(cx.allocator());
    for number in from..lines.len() {
        let line = resolved_line(cx, bindings, &lines[number])?;
        resolved.push(line)?;
    }
    Ok(resolved)
}

// Returns the line with the bound variables in it replaced, or the line itself if not all can be.
#[tactic(auto, using(crate::proofs::SearchLaws::search_laws))]
fn resolved_line(cx: &mut Interner, bindings: &Bindings, line: &Line) -> Result<Line, Refusal>
    requires { IsTable cx.old bindings.now }
    ensures { Extends cx.old cx.new }
{
    let reason = resolved_reason(cx, bindings, &line.reason)?;
    let goal = goal_of_line(cx, bindings, line.goal)?;
    Ok(Line { goal, reason })
}

// Returns the goal with the bound variables in it replaced, or the goal itself if not all can be.
#[tactic(auto, using(crate::proofs::SearchLaws::search_laws))]
fn goal_of_line(
    cx: &mut Interner,
    bindings: &Bindings,
    goal: TraitPredicate,
) -> Result<TraitPredicate, Refusal>
    requires { IsTable cx.old bindings.now }
    ensures { Extends cx.old cx.new }
{
    if !goal.is_owned(cx) {
        return Ok(goal);
    }
    let resolved = resolved_goal(cx, bindings, goal)?;
    Ok(resolved.unwrap_or(goal))
}

// Returns the reason with the bound variables in its arguments replaced, or with these arguments if not all can be.
#[tactic(auto, using(crate::proofs::SearchLaws::search_laws))]
fn resolved_reason(
    cx: &mut Interner,
    bindings: &Bindings,
    reason: &Reason,
) -> Result<Reason, Refusal>
    requires { IsTable cx.old bindings.now }
    ensures { Extends cx.old cx.new }
{
    match reason {
        Reason::Assumed(number) => Ok(Reason::Assumed(*number)),
        Reason::Implemented {
            number,
            args,
            conditions,
        } => {
            let resolved = if args.is_owned(cx) {
                resolved_args(cx, bindings, *args)?
            } else {
                None
            };
            Ok(Reason::Implemented {
                number: *number,
                args: resolved.unwrap_or(*args),
                conditions: Vec::from_slice(cx.allocator(), conditions.as_slice())?,
            })
        }
    }
}
