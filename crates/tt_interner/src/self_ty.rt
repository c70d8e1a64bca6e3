//! Self types of traits, predicates and aliases.

ghost use Rattle.std.specs.Prelude.{IfOk, IsTrue, ◌<◌, ◌≡◌, ◌↔◌};
ghost use Rattle.tt_kinds.specs.Handle.{GenericArgs};
ghost use Rattle.tt_kinds.specs.declared.table.Table.TheVariants.{ArgLists, Types};
ghost use Rattle.tt_interner.specs.Alias.{HasSelfTy, IsSelfTy, ReplacesSelfTy};
ghost use Rattle.tt_interner.specs.Rows.{size};
ghost use Rattle.tt_interner.specs.SelfTy.{alias_term_with, trait_ref_with};
ghost use Rattle.tt_interner.specs.Stored.{Extends};

use crate::alias::{first_type, replaced_args};
use crate::handle::InternedList;
use crate::interner::Interner;
use tt_index::Refusal;
use tt_kinds::{
    AliasTerm, GenericArgs, HostEffectPredicate, NormalizesTo, ProjectionPredicate, TraitPredicate,
    TraitRef, Ty,
};

/// A value with generic arguments, the first of which is its self type.
///
/// An `AliasTy` has the same calls by [`InternedAlias`](crate::InternedAlias).
pub trait SelfTy: Copy {
    // The arguments.
    ghost args_of: { Self → GenericArgs };

    // The value with other arguments.
    ghost given_args: { Self → GenericArgs → Self };

    /// Returns the arguments.
    fn args(&self) -> GenericArgs
        ensures { result ≡ args_of self.now };

    /// Returns the value with these arguments in place of its own.
    fn with_args(self, args: GenericArgs) -> Self
        ensures is { result ≡ given_args self args }
        ensures args { args_of result ≡ args };

    /// Returns whether the arguments are a list of this interner whose first item is a type.
    final fn has_self_ty(&self, cx: &Interner) -> bool
        ensures { IsTrue result ↔ HasSelfTy cx.now.rows (Self.args_of self.now) }
    {
        let args = self.args();
        cx.owns(args) && first_type(args.as_slice(cx)).is_some()
    }

    /// Returns the first argument, which has to be a type; [`SelfTy::has_self_ty`] tests it.
    final fn self_ty(self, cx: &Interner) -> Ty
        requires { HasSelfTy cx.now.rows (Self.args_of self) }
        ensures is { IsSelfTy cx.now.rows (Self.args_of self) result }
        ensures in_range { result.number < size cx.now.rows Types }
    {
        match first_type(self.args().as_slice(cx)) {
            Some(ty) => ty,
            None => unreachable!(),
        }
    }

    /// Returns the value with this type in place of its first argument. If it has no arguments, the type becomes the
    /// only one. The arguments and the type have to be of this interner; [`Interner::owns_args`] and
    /// [`Interner::owns_ty`] test it.
    ///
    /// Refused as [`InternedAlias::with_replaced_self_ty`](crate::InternedAlias::with_replaced_self_ty) is.
    final fn with_replaced_self_ty(self, cx: &mut Interner, self_ty: Ty) -> Result<Self, Refusal>
        requires args { (Self.args_of self).number < size cx.old.rows ArgLists }
        requires self_ty { self_ty.number < size cx.old.rows Types }
        ensures args { ReplacesSelfTy
            result
            (λ made. (Self.args_of made).number)
            cx.old
            cx.new
            (Self.args_of self)
            self_ty }
        ensures extends { Extends cx.old cx.new }
        ensures is { IfOk result (λ made. made ≡ Self.given_args self (Self.args_of made)) }
    {
        let args = replaced_args(cx, self.args(), self_ty)?;
        Ok(self.with_args(args))
    }
}

impl SelfTy for TraitRef {
    ghost args_of = { λ trait_ref. trait_ref.args };

    ghost given_args = { trait_ref_with };

    fn args(&self) -> GenericArgs {
        self.args
    }

    fn with_args(self, args: GenericArgs) -> TraitRef {
        TraitRef { args, ..self }
    }
}

impl SelfTy for TraitPredicate {
    ghost args_of = { λ predicate. predicate.trait_ref.args };

    ghost given_args = { λ predicate args. record { trait_ref = trait_ref_with predicate.trait_ref args } };

    fn args(&self) -> GenericArgs {
        self.trait_ref.args()
    }

    fn with_args(self, args: GenericArgs) -> TraitPredicate {
        let trait_ref = self.trait_ref.with_args(args);
        TraitPredicate { trait_ref }
    }
}

impl SelfTy for HostEffectPredicate {
    ghost args_of = { λ predicate. predicate.trait_ref.args };

    ghost given_args = { λ predicate args. record {
      trait_ref = trait_ref_with predicate.trait_ref args;
      constness = predicate.constness;
    } };

    fn args(&self) -> GenericArgs {
        let HostEffectPredicate { trait_ref, .. } = *self;
        trait_ref.args
    }

    fn with_args(self, args: GenericArgs) -> HostEffectPredicate {
        HostEffectPredicate {
            trait_ref: self.trait_ref.with_args(args),
            ..self
        }
    }
}

impl SelfTy for AliasTerm {
    ghost args_of = { λ alias. alias.args };

    ghost given_args = { alias_term_with };

    fn args(&self) -> GenericArgs {
        let AliasTerm { args, .. } = *self;
        args
    }

    fn with_args(self, args: GenericArgs) -> AliasTerm {
        AliasTerm { args, ..self }
    }
}

impl SelfTy for ProjectionPredicate {
    ghost args_of = { λ predicate. predicate.projection_term.args };

    ghost given_args = { λ predicate args. record {
      projection_term = alias_term_with predicate.projection_term args;
      term = predicate.term;
    } };

    fn args(&self) -> GenericArgs {
        self.projection_term.args
    }

    fn with_args(self, args: GenericArgs) -> ProjectionPredicate {
        ProjectionPredicate {
            projection_term: self.projection_term.with_args(args),
            ..self
        }
    }
}

impl SelfTy for NormalizesTo {
    ghost args_of = { λ predicate. predicate.alias.args };

    ghost given_args = { λ predicate args. record {
      alias = alias_term_with predicate.alias args;
      term = predicate.term;
    } };

    fn args(&self) -> GenericArgs {
        self.alias.args
    }

    fn with_args(self, args: GenericArgs) -> NormalizesTo {
        NormalizesTo {
            alias: self.alias.with_args(args),
            ..self
        }
    }
}
