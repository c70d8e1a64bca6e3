//! Laws of the trees that fit, by which a caller can exclude `GreatestIndex`. The functions do nothing: each contract
//! is a law.

ghost use Rattle.tt_kinds.specs.Fitting.{TreesFit, MovedFit, InstancesFit};

/// A tree fits if its indices are below the greatest, and its binders are nested at most
/// [`GREATEST_INDEX`](tt_index::GREATEST_INDEX) deep. If the tree is under binders, they count as well.
pub fn trees_fit()
    ensures { TreesFit }
{}

/// A tree fits when it is moved into `n` new binders, if the sum of `n`, its outer exclusive binder and the depth of
/// its nested binders is at most the greatest index.
pub fn moved_trees_fit()
    ensures { MovedFit }
{}

/// A tree whose indices are below the greatest fits when its parameters are replaced, if there is room for the binders
/// nested in it and, under them, for the outer exclusive binder and the nested binders of each argument.
pub fn instances_fit()
    ensures { InstancesFit }
{}
