//! Variance: how the subtypes of a generic type follow its argument's subtypes.

ghost use Rattle.std.specs.Prelude.{◌≡◌};
ghost use Rattle.tt_index.specs.Variance.{xform_of};
ghost use Rattle.tt_index.specs.declared.variance.Variance.TheVariants.{Covariant};

/// How the generic type `T<A>` varies with its argument `A`. Here `A <: B` means that `A` is a subtype of `B`.
#[derive(Clone, Copy, Debug, PartialEq, Eq, Hash)]
pub enum Variance {
    /// `T<A> <: T<B>` exactly if `A <: B`, as for the result of a function.
    Covariant,
    /// `T<A> <: T<B>` exactly if `A` and `B` are the same, as for what a mutable cell holds.
    Invariant,
    /// `T<A> <: T<B>` exactly if `B <: A`, as for a parameter of a function.
    Contravariant,
    /// `T<A> <: T<B>` always, as for an argument that the type doesn't use.
    Bivariant,
}

impl Variance {
    /// Returns the variance of an argument in a position of variance `inner`, inside a context of this
    /// variance. In `fn(*const Vec<i32>)` the pointer's place is contravariant, and a pointer and a `Vec` are covariant
    /// in what they hold, so `i32` is in a contravariant place.
    ///
    /// An invariant or bivariant context decides alone: the result is invariant or bivariant whatever `inner` is. The
    /// table is Figure 1 of 'Taming the Wildcards: Combining Definition- and Use-Site Variance', PLDI 2011.
    pub fn xform(self, inner: Variance) -> Variance
        ensures { result ≡ xform_of self inner }
    {
        match self {
            Variance::Covariant => inner,
            Variance::Contravariant => match inner {
                Variance::Covariant => Variance::Contravariant,
                Variance::Contravariant => Variance::Covariant,
                Variance::Invariant | Variance::Bivariant => inner,
            },
            Variance::Invariant => Variance::Invariant,
            Variance::Bivariant => Variance::Bivariant,
        }
    }
}

/// Three nested contexts give the same variance however they are grouped. The function does nothing: its contract is a
/// law.
pub fn xform_is_associative(outer: Variance, middle: Variance, inner: Variance)
    ensures { xform_of (xform_of outer middle) inner ≡ xform_of outer (xform_of middle inner) }
{}

/// A covariant context changes nothing, and a covariant position takes the variance of its context. The function does
/// nothing: its contract is a law.
pub fn covariant_is_identity(variance: Variance)
    ensures outside { xform_of Covariant variance ≡ variance }
    ensures inside { xform_of variance Covariant ≡ variance }
{}
