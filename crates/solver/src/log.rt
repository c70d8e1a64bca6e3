//! Logs: goals that are derived, and why.

ghost use Rattle.std.specs.Prelude.{IsTrue};
ghost use Rattle.solver.specs.Log.{AreOwnedLines, IsOwnedLine};

use tt_interner::Interner;
use tt_kinds::{GenericArgs, TraitPredicate};
use tt_owned::Owned;

/// Why a goal is derived.
#[derive(Debug, Drop)]
pub enum Reason {
    /// The goal is the assumption of this number.
    Assumed(usize),
    /// The goal is an instance of the head of an implementation.
    Implemented {
        /// The implementation's number.
        number: usize,
        /// A type for each of its parameters.
        args: GenericArgs,
        /// For each of its conditions, the number of an earlier line, whose goal is the condition's instance.
        conditions: Vec<usize>,
    },
}

/// A line of a log.
#[derive(Debug, Drop)]
pub struct Line {
    /// What is derived.
    pub goal: TraitPredicate,
    /// Why it is.
    pub reason: Reason,
}

impl Line {
    /// Returns whether each handle in the line is of this interner, as [`verify`](crate::verify) requires.
    pub fn is_owned(&self, cx: &Interner) -> bool
        ensures { IsTrue result → IsOwnedLine cx.now self.now }
    {
        self.goal.is_owned(cx)
            && match &self.reason {
                Reason::Assumed(_) => true,
                Reason::Implemented { args, .. } => args.is_owned(cx),
            }
    }
}

/// Returns whether each handle in the lines is of this interner.
pub fn are_owned_lines(cx: &Interner, lines: &[Line]) -> bool
    ensures { IsTrue result → AreOwnedLines cx.now lines.now }
{
    for line in lines {
        if !line.is_owned(cx) {
            return false;
        }
    }
    true
}
