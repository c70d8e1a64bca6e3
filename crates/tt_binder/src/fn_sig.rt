//! The signatures of types.

ghost use Rattle.std.specs.Prelude.{◌<◌, ◌↔◌, IsTrue, IfOk};
ghost use Rattle.tt_kinds.specs.Bare.{bare_ty_shape};
ghost use Rattle.tt_kinds.specs.Kinds.{binder_shape};
ghost use Rattle.tt_kinds.specs.Values.{fn_sig_shape};
ghost use Rattle.tt_kinds.specs.declared.declaration.DeclarationSort.TheVariants as sort;
ghost use Rattle.tt_kinds.specs.declared.table.Table.TheVariants.{ArgLists};
ghost use Rattle.tt_kinds.specs.declared.ty_kind.TyKind.{TyKind};
ghost use Rattle.tt_interner.specs.Declarations.{IsOfSort};
ghost use Rattle.tt_interner.specs.Owned.{IsOwned, IsPartBy};
ghost use Rattle.tt_interner.specs.Rows.{size};
ghost use Rattle.tt_interner.specs.Stored.{Extends};
ghost use Rattle.tt_binder.specs.FnSig.{GivesFnSig, HasFnSig, InstantiatesSig};

use crate::instantiate::Instantiate;
use tt_index::Refusal;
use tt_interner::Interner;
use tt_kinds::{Binder, BoundVarKinds, FnSig, FunctionId, GenericArgs, TyKind};

/// Kinds of types, some of which have a signature.
pub trait TypeSignature: Sized {
    // The kind.
    ghost kind_of: { Self → TyKind };

    /// Returns whether the type is a function pointer, the type of a function that this interner has declared, or an
    /// error.
    fn has_fn_sig(&self, cx: &Interner) -> bool
        ensures { IsTrue result ↔ HasFnSig cx.now.rows (kind_of self.now) };

    /// Returns the signature of a function pointer, a function item or an error.
    ///
    /// - The signature of a function pointer has the pointer's types and its other parts.
    /// - The signature of a function item is the declared signature, instantiated with the item's arguments.
    /// - The signature of an error has no types.
    ///
    /// The type has to have a signature, and its handles have to be this interner's; [`TypeSignature::has_fn_sig`] and
    /// [`Interner::owns_kind`] test this.
    ///
    /// For a function item, the call is refused if [`Instantiate::instantiate`] of the declared signature is. Otherwise
    /// it builds nothing and is never refused. The signature's handles are this interner's.
    fn fn_sig(self, cx: &mut Interner) -> Result<Binder<FnSig>, Refusal>
        requires sig { HasFnSig cx.old.rows (kind_of self) }
        requires parts { IsPartBy bare_ty_shape cx.old.rows (kind_of self) }
        ensures gives { GivesFnSig (kind_of self) cx.old result cx.new }
        ensures extends { Extends cx.old cx.new }
        ensures owned { IfOk result (λ sig. IsOwned (binder_shape fn_sig_shape) cx.new sig) };
}

// Returns a function's declared signature, instantiated with these arguments.
fn instantiated_sig(
    cx: &mut Interner,
    id: FunctionId,
    args: GenericArgs,
) -> Result<Binder<FnSig>, Refusal>
    requires id { IsOfSort cx.old.rows sort.Fn id.number }
    requires args { args.number < size cx.old.rows ArgLists }
    ensures gives { InstantiatesSig (record { number = id.number }) args cx.old result cx.new }
    ensures extends { Extends cx.old cx.new }
    ensures owned { IfOk result (λ sig. IsOwned (binder_shape fn_sig_shape) cx.new sig) }
{
    let sig = cx.fn_sig_of(id);
    match sig.instantiate(cx, args) {
        Ok(instance) => Ok(instance.skip_norm_wip()),
        Err(e) => Err(e),
    }
}

impl TypeSignature for TyKind {
    ghost kind_of = { λ kind. kind };

    fn has_fn_sig(&self, cx: &Interner) -> bool {
        match self {
            TyKind::FnPtr(_, _) | TyKind::Error(_) => true,
            TyKind::FnDef(id, _) => cx.owns_function_id(*id),
            _ => false,
        }
    }

    fn fn_sig(self, cx: &mut Interner) -> Result<Binder<FnSig>, Refusal> {
        match self {
            TyKind::FnPtr(types, header) => Ok(types.with(header)),
            TyKind::FnDef(id, args) => instantiated_sig(cx, id, args),
            TyKind::Error(_) => {
                // The lists of the signature without types are empty, and each interner has the empty lists.
                cx.are_rows();
                Ok(Binder::bind_with_vars(FnSig::dummy(), BoundVarKinds::default()))
            },
            _ => unreachable!(),
        }
    }
}
