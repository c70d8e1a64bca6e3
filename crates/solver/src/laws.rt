//! Laws of derivations.

ghost use Rattle.solver.specs.Stable.{DerivationsAreStable};

/// Does nothing. The contract gives callers the fact that what is derived stays derived where parameters or inference
/// variables are replaced, and where a program gets further implementations.
pub fn law_derivations_are_stable()
    ensures { DerivationsAreStable }
{}
