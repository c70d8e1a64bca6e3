//! Iterators that instantiate their items.

ghost use Rattle.std.specs.Prelude.{◌≤◌, length};

use type_terms::{
    EarlyBinder, GenericArg, GenericArgs, IterInstantiate, IterInstantiated,
    IterInstantiatedCopied, Ty,
};

/// Returns at least how many instances an iterator over copied types will give: at most as many as there are types.
pub fn least_instances(types: &[Ty], args: GenericArgs) -> usize
    ensures { result ≤ length types.now }
{
    let iter: IterInstantiated<_, GenericArgs> = EarlyBinder::bind(
        types.iter().copied(),
    ).iter_instantiated(args);
    let (least, _) = iter.size_hint();
    least
}

/// Returns at least how many instances an iterator over borrowed types will give: at most as many as there are types.
pub fn least_instances_of_borrowed(types: &[Ty], args: &[GenericArg]) -> usize
    ensures { result ≤ length types.now }
{
    let iter: IterInstantiatedCopied<_> = EarlyBinder::bind(types.iter()).iter_instantiated_copied(
        args,
    );
    let (least, _) = iter.size_hint();
    least
}
