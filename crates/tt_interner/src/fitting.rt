//! Laws by which an interner's values fit, so that a caller can exclude the refusal `GreatestIndex`.

ghost use Rattle.tt_interner.specs.Fitting.{StoredIndicesFit, StoredFit, FewRowsFit};

/// Does nothing. The contract gives callers the fact that each index in the tree of an interner's value is below the
/// greatest, if the indices that the value has beside its handles are. Handles have none, but a region may have one.
pub fn stored_indices_fit()
    ensures { StoredIndicesFit }
{}

/// Does nothing. The contract gives callers the fact that an interner's value fits, if the indices that it has beside
/// its handles are below the greatest and no more binders than the greatest index counts are nested in it.
pub fn stored_values_fit()
    ensures { StoredFit }
{}

/// Does nothing. The contract gives callers the fact that a value's binders aren't nested too deep if the interner's
/// [`nesting_bound`](crate::Interner::nesting_bound), with the value's own binders and those around it, is at most the
/// greatest index.
pub fn few_rows_fit()
    ensures { FewRowsFit }
{}
