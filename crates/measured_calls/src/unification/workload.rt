//! What a line asks for: two types that can be made equal.

use test_terms::{tuple, ty};
use type_terms::{InferTy, IntTy, Interner, Refusal, Ty, TyKind, TyVid};

/// Two types of a number of levels.
#[derive(Clone, Copy)]
pub enum Workload {
    /// Level 0 is `?0` on the left and `i32` on the right. Level n + 1 is `(level n, level n)`, so the types have 2^n
    /// places, which can't all be visited.
    Pairs(u32),
    /// Level 0 is `i32`. Level n + 1 is `(level n, ?n)` on the left and `(level n, i32)` on the right, so each level
    /// has a variable to bind.
    Chain(u32),
    /// Level 0 is `i32`. Level n + 1 is `(level n, ?n)` on the left and `(level n, ?(n + 1))` on the right, so each
    /// variable becomes equal to the next one.
    Links(u32),
}

impl Workload {
    /// Returns the workload of a line.
    pub fn of(line: &str) -> Option<Workload> {
        let (word, levels) = line.split_once(" ")?;
        let levels = levels.parse::<u32>().ok()?;
        match word {
            "pairs" => Some(Workload::Pairs(levels)),
            "chain" => Some(Workload::Chain(levels)),
            "links" => Some(Workload::Links(levels)),
            _ => None,
        }
    }

    /// Returns the number of variables of the two types.
    pub fn variables(self) -> u32 {
        match self {
            Workload::Pairs(_) => 1,
            Workload::Chain(levels) => levels,
            Workload::Links(levels) => levels.saturating_add(1),
        }
    }

    /// Builds the two types.
    pub fn sides(self, cx: &mut Interner) -> Result<(Ty, Ty), Refusal> {
        let number = ty(cx, TyKind::Int(IntTy::I32))?;
        match self {
            Workload::Pairs(levels) => {
                let zero = variable(cx, 0)?;
                Ok((nested(cx, zero, levels)?, nested(cx, number, levels)?))
            }
            Workload::Chain(levels) => self.chains(cx, number, levels),
            Workload::Links(levels) => self.chains(cx, number, levels),
        }
    }

    // Returns two chains of this many levels that end in the type. A variable on the left has the next one on its right
    // in `links`, and else the type.
    fn chains(self, cx: &mut Interner, end: Ty, levels: u32) -> Result<(Ty, Ty), Refusal> {
        let (mut left, mut right) = (end, end);
        for level in 0..levels {
            let own = variable(cx, level)?;
            let other = match self {
                Workload::Links(_) => variable(cx, level + 1)?,
                _ => end,
            };
            left = tuple(cx, &[left, own])?;
            right = tuple(cx, &[right, other])?;
        }
        Ok((left, right))
    }
}

/// Returns the variable of this number.
pub fn variable(cx: &mut Interner, number: u32) -> Result<Ty, Refusal> {
    if TyVid::fits(number) {
        ty(cx, TyKind::Infer(InferTy::TyVar(TyVid::from_u32(number))))
    } else {
        Err(Refusal::TableFull)
    }
}

// Returns pairs of pairs, this many levels of them, with the type at the bottom.
fn nested(cx: &mut Interner, inner: Ty, levels: u32) -> Result<Ty, Refusal> {
    let mut outer = inner;
    for _ in 0..levels {
        outer = tuple(cx, &[outer, outer])?;
    }
    Ok(outer)
}
