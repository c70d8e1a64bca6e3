//! The parts of types.

ghost use Rattle.std.specs.Prelude.{◌≡◌};
ghost use Rattle.tt_kinds.specs.Parts.{AreLike};
ghost use Rattle.tt_kinds.specs.Kinds.{form_binder, form_parts, refilled, ty_form};

use crate::alias::AliasTy;
use crate::binder::Binder;
use crate::fn_sig::FnSigTys;
use crate::handle::{BoundVarKinds, Ty};
use crate::parts::{Child, Parts};
use crate::ty_kind::TyKind;

impl TyKind {
    /// Returns the variables of the binder around the parts, if there is one.
    #[inline(always)]
    pub fn bound_vars(&self) -> Option<BoundVarKinds>
        ensures { result ≡ form_binder (ty_form self.now) }
    {
        match self {
            TyKind::FnPtr(types, _) => Some(types.bound_vars()),
            TyKind::UnsafeBinder(inner) => Some(inner.bound_vars()),
            _ => None,
        }
    }

    /// Returns the children in order.
    #[inline(always)]
    pub fn parts(&self) -> Parts
        ensures { result ≡ form_parts (ty_form self.now) }
    {
        match self {
            TyKind::Adt(_, args)
            | TyKind::FnDef(_, args)
            | TyKind::Closure(_, args)
            | TyKind::CoroutineClosure(_, args)
            | TyKind::Coroutine(_, args)
            | TyKind::CoroutineWitness(_, args)
            | TyKind::Alias(AliasTy { args, .. }) => Parts::one(args.child()),
            TyKind::Array(ty, constant) => Parts::two(ty.child(), constant.child()),
            TyKind::Pat(ty, pat) => Parts::two(ty.child(), pat.child()),
            TyKind::Ref(region, ty, _) => {
                let referent = ty.child();
                Parts::two(Child::Region(*region), referent)
            }
            TyKind::RawPtr(ty, _) | TyKind::Slice(ty) => Parts::one(ty.child()),
            TyKind::Tuple(tys) => Parts::one(tys.child()),
            TyKind::FnPtr(types, _) => Parts::one(types.skip_binder().inputs_and_output.child()),
            TyKind::UnsafeBinder(inner) => Parts::one(inner.skip_binder().child()),
            TyKind::Dynamic(predicates, region) => Parts::two(
                predicates.child(),
                Child::Region(*region),
            ),
            // The other kinds hold no region, no stored term and no list.
            _ => Parts::none(),
        }
    }

    /// Returns the same kind with other children in the places of its own. They have to be of the same sorts;
    /// [`Parts::are_like`] tests it.
    #[inline(always)]
    pub fn with_parts(&self, new: Parts) -> TyKind
        requires { AreLike (form_parts (ty_form self.now)) new }
        ensures { ty_form result ≡ refilled new (ty_form self.now) }
    {
        match self {
            TyKind::Adt(id, _) => TyKind::Adt(*id, new.first.handle()),
            TyKind::FnDef(id, _) => TyKind::FnDef(*id, new.first.handle()),
            TyKind::Array(_, _) => TyKind::Array(new.first.handle(), new.second.handle()),
            TyKind::Pat(_, _) => TyKind::Pat(new.first.handle(), new.second.handle()),
            TyKind::Slice(_) => TyKind::Slice(new.first.handle()),
            TyKind::RawPtr(_, mutability) => TyKind::RawPtr(new.first.handle(), *mutability),
            TyKind::Ref(_, _, mutability) => TyKind::Ref(
                new.first.region(),
                new.second.handle(),
                *mutability,
            ),
            TyKind::FnPtr(types, header) => {
                let inputs_and_output = new.first.handle();
                TyKind::FnPtr(
                    Binder::bind_with_vars(FnSigTys { inputs_and_output }, types.bound_vars()),
                    *header,
                )
            }
            TyKind::UnsafeBinder(inner) => TyKind::UnsafeBinder(inner.with_ty(new.first.handle())),
            TyKind::Dynamic(_, _) => TyKind::Dynamic(new.first.handle(), new.second.region()),
            TyKind::Closure(id, _) => TyKind::Closure(*id, new.first.handle()),
            TyKind::CoroutineClosure(id, _) => TyKind::CoroutineClosure(*id, new.first.handle()),
            TyKind::Coroutine(id, _) => TyKind::Coroutine(*id, new.first.handle()),
            TyKind::CoroutineWitness(id, _) => TyKind::CoroutineWitness(*id, new.first.handle()),
            TyKind::Tuple(_) => TyKind::Tuple(new.first.handle()),
            TyKind::Alias(alias) => TyKind::Alias(AliasTy {
                args: new.first.handle(),
                kind: alias.kind,
            }),
            _ => *self,
        }
    }
}
