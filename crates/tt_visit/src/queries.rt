//! Queries of every value that a visitor can visit.

ghost use Rattle.std.specs.Prelude.{
  [],
  IfErr,
  IfOk,
  IsTrue,
  None,
  Some,
  true,
  false,
  ◌+◌,
  ◌<◌,
  ◌≡◌,
  ◌≢◌,
  ◌↔◌,
  bit_and,
};
ghost use Rattle.std.specs.Int.RustNames.{bit_or};
ghost use Rattle.tt_flags.specs.TypeFlags.{
  has_alias,
  has_bound_vars,
  has_ct_bound,
  has_ct_infer,
  has_ct_param,
  has_ct_placeholder,
  has_error,
  has_free_local_names,
  has_free_regions,
  has_infer,
  has_non_region_error,
  has_placeholder,
  has_re_bound,
  has_re_erased,
  has_re_infer,
  has_regions,
  has_ty_bound,
  has_ty_coro,
  has_ty_infer,
  has_ty_opaque,
  has_ty_param,
  has_ty_placeholder,
  still_further_specializable,
};
ghost use Rattle.tt_kinds.specs.Met.{met};
ghost use Rattle.tt_kinds.specs.Param.{holds_param};
ghost use Rattle.tt_kinds.specs.Reading.{outer_binder};
ghost use Rattle.tt_kinds.specs.Scan.{scan};
ghost use Rattle.tt_interner.specs.Owned.{IsPartBy, tree_by};
ghost use Rattle.tt_visit.specs.HasError.{first_error};
ghost use Rattle.tt_visit.specs.HasTypeFlags.{Meets, Misses};

use crate::has_error::HasErrorVisitor;
use crate::has_escaping_vars::{HasEscapingVarsVisitor, are_vars_in_range};
use crate::has_type_flags::HasTypeFlagsVisitor;
use crate::meets_regions::{MeetsRegionsVisitor, are_regions_in_range};
use crate::visitable::TypeVisitable;
use std::ops::ControlFlow;
use tt_flags::TypeFlags;
use tt_index::DebruijnIndex;
use tt_interner::Interner;
use tt_kinds::ErrorGuaranteed;

/// Queries of any value that a visitor can visit.
///
/// The results come from the cached information of the value's terms. Only [`TypeVisitableExt::meets_regions`],
/// [`TypeVisitableExt::error_reported`] and [`TypeVisitableExt::non_region_error_reported`] may take a type, a
/// constant, a predicate or a list of clauses apart.
///
/// The value's handles have to be of this interner; `Owned::is_owned` tests it.
pub trait TypeVisitableExt: TypeVisitable {
    /// Returns whether a flag of the mask is set anywhere in the value.
    final fn has_type_flags(&self, cx: &Interner, mask: TypeFlags) -> bool
        requires { IsPartBy Self.shape cx.now.rows self.now }
        ensures { IsTrue result ↔ (bit_and mask.bits (scan (tree_by Self.shape cx.now.rows self.now)) ≢ 0) }
    {
        let mut visitor = HasTypeFlagsVisitor::new(mask);
        match self.visit_with(cx, &mut visitor) {
            ControlFlow::Break(_) => true,
            ControlFlow::Continue(_) => false,
        }
    }

    /// Returns whether a parameter occurs anywhere in the value, so that instantiating the value can change it.
    final fn has_param(&self, cx: &Interner) -> bool
        requires { IsPartBy Self.shape cx.now.rows self.now }
        ensures { IsTrue result ↔ (holds_param (tree_by Self.shape cx.now.rows self.now) ≡ true) }
    {
        self.has_type_flags(cx, TypeFlags::HAS_PARAM)
    }

    /// Returns whether an unevaluated constant or an alias of a type occurs in the value: a projection, or an inherent,
    /// an opaque or a free alias. The term that an alias would normalize to isn't looked at.
    final fn has_aliases(&self, cx: &Interner) -> bool
        requires { IsPartBy Self.shape cx.now.rows self.now }
        ensures { IsTrue result ↔ Meets has_alias (scan (tree_by Self.shape cx.now.rows self.now)) }
    {
        self.has_type_flags(cx, TypeFlags::HAS_ALIAS)
    }

    /// Returns whether an opaque type occurs in the value.
    final fn has_opaque_types(&self, cx: &Interner) -> bool
        requires { IsPartBy Self.shape cx.now.rows self.now }
        ensures { IsTrue result ↔ Meets has_ty_opaque (scan (tree_by Self.shape cx.now.rows self.now)) }
    {
        self.has_type_flags(cx, TypeFlags::HAS_TY_OPAQUE)
    }

    /// Returns whether the type of a coroutine occurs in the value.
    final fn has_coroutines(&self, cx: &Interner) -> bool
        requires { IsPartBy Self.shape cx.now.rows self.now }
        ensures { IsTrue result ↔ Meets has_ty_coro (scan (tree_by Self.shape cx.now.rows self.now)) }
    {
        self.has_type_flags(cx, TypeFlags::HAS_TY_CORO)
    }

    /// Returns whether the token of an error occurs in the value: of a type, a constant or a region.
    final fn references_error(&self, cx: &Interner) -> bool
        requires { IsPartBy Self.shape cx.now.rows self.now }
        ensures { IsTrue result ↔ Meets has_error (scan (tree_by Self.shape cx.now.rows self.now)) }
    {
        self.has_type_flags(cx, TypeFlags::HAS_ERROR)
    }

    /// Returns whether the token of an error of a type or a constant occurs in the value.
    final fn has_non_region_error(&self, cx: &Interner) -> bool
        requires { IsPartBy Self.shape cx.now.rows self.now }
        ensures { IsTrue result ↔ Meets has_non_region_error (scan (tree_by Self.shape cx.now.rows self.now)) }
    {
        self.has_type_flags(cx, TypeFlags::HAS_NON_REGION_ERROR)
    }

    /// Returns whether a parameter for a type or a constant occurs in the value.
    final fn has_non_region_param(&self, cx: &Interner) -> bool
        requires { IsPartBy Self.shape cx.now.rows self.now }
        ensures { IsTrue result ↔ Meets (bit_or has_ty_param has_ct_param) (scan (tree_by Self.shape cx.now.rows self.now)) }
    {
        self.has_type_flags(cx, TypeFlags::from_bits_retain(0x5))
    }

    /// Returns whether a region inference variable occurs in the value.
    final fn has_infer_regions(&self, cx: &Interner) -> bool
        requires { IsPartBy Self.shape cx.now.rows self.now }
        ensures { IsTrue result ↔ Meets has_re_infer (scan (tree_by Self.shape cx.now.rows self.now)) }
    {
        self.has_type_flags(cx, TypeFlags::HAS_RE_INFER)
    }

    /// Returns whether a type inference variable occurs in the value. Fresh types don't count.
    final fn has_infer_types(&self, cx: &Interner) -> bool
        requires { IsPartBy Self.shape cx.now.rows self.now }
        ensures { IsTrue result ↔ Meets has_ty_infer (scan (tree_by Self.shape cx.now.rows self.now)) }
    {
        self.has_type_flags(cx, TypeFlags::HAS_TY_INFER)
    }

    /// Returns whether an inference variable for a type or a constant occurs in the value. Fresh types and constants
    /// don't count.
    final fn has_non_region_infer(&self, cx: &Interner) -> bool
        requires { IsPartBy Self.shape cx.now.rows self.now }
        ensures { IsTrue result ↔ Meets (bit_or has_ty_infer has_ct_infer) (scan (tree_by Self.shape cx.now.rows self.now)) }
    {
        self.has_type_flags(cx, TypeFlags::from_bits_retain(0x28))
    }

    /// Returns whether an inference variable occurs in the value. Fresh types and constants don't count.
    final fn has_infer(&self, cx: &Interner) -> bool
        requires { IsPartBy Self.shape cx.now.rows self.now }
        ensures { IsTrue result ↔ Meets has_infer (scan (tree_by Self.shape cx.now.rows self.now)) }
    {
        self.has_type_flags(cx, TypeFlags::HAS_INFER)
    }

    /// Returns whether a placeholder occurs in the value.
    final fn has_placeholders(&self, cx: &Interner) -> bool
        requires { IsPartBy Self.shape cx.now.rows self.now }
        ensures { IsTrue result ↔ Meets has_placeholder (scan (tree_by Self.shape cx.now.rows self.now)) }
    {
        self.has_type_flags(cx, TypeFlags::HAS_PLACEHOLDER)
    }

    /// Returns whether a placeholder for a type or a constant occurs in the value.
    final fn has_non_region_placeholders(&self, cx: &Interner) -> bool
        requires { IsPartBy Self.shape cx.now.rows self.now }
        ensures { IsTrue result ↔ Meets (bit_or has_ty_placeholder has_ct_placeholder) (scan (tree_by Self.shape cx.now.rows self.now)) }
    {
        self.has_type_flags(cx, TypeFlags::from_bits_retain(0x140))
    }

    /// Returns whether a region occurs in the value.
    final fn has_regions(&self, cx: &Interner) -> bool
        requires { IsPartBy Self.shape cx.now.rows self.now }
        ensures { IsTrue result ↔ Meets has_regions (scan (tree_by Self.shape cx.now.rows self.now)) }
    {
        self.has_type_flags(cx, TypeFlags::HAS_REGIONS)
    }

    /// Returns whether a region occurs in the value that is neither bound nor erased.
    final fn has_free_regions(&self, cx: &Interner) -> bool
        requires { IsPartBy Self.shape cx.now.rows self.now }
        ensures { IsTrue result ↔ Meets has_free_regions (scan (tree_by Self.shape cx.now.rows self.now)) }
    {
        self.has_type_flags(cx, TypeFlags::HAS_FREE_REGIONS)
    }

    /// Returns whether an erased region occurs in the value.
    final fn has_erased_regions(&self, cx: &Interner) -> bool
        requires { IsPartBy Self.shape cx.now.rows self.now }
        ensures { IsTrue result ↔ Meets has_re_erased (scan (tree_by Self.shape cx.now.rows self.now)) }
    {
        self.has_type_flags(cx, TypeFlags::HAS_RE_ERASED)
    }

    /// Returns whether a region occurs in the value that erasing all regions would replace: one that is neither bound
    /// nor erased.
    final fn has_erasable_regions(&self, cx: &Interner) -> bool
        requires { IsPartBy Self.shape cx.now.rows self.now }
        ensures { IsTrue result ↔ Meets has_free_regions (scan (tree_by Self.shape cx.now.rows self.now)) }
    {
        self.has_free_regions(cx)
    }

    /// Returns whether a region occurs in the value that the value doesn't bind itself and that is not a variable of a
    /// canonical query: a region at which a fold of regions calls its closure. Erased regions, `'static` and regions of
    /// errors are included.
    ///
    /// A type, a constant, a predicate or a list of clauses is taken apart only if its regions are all bound, and some
    /// variable in it is bound outside of the value. If more binders are nested in the value than an index can count,
    /// each that holds a bound region may be taken apart.
    final fn meets_regions(&self, cx: &Interner) -> bool
        requires { IsPartBy Self.shape cx.now.rows self.now }
        ensures { IsTrue result ↔ (met 0 (tree_by Self.shape cx.now.rows self.now) ≢ []) }
    {
        let mut visitor = MeetsRegionsVisitor::new();
        match self.visit_with(cx, &mut visitor) {
            ControlFlow::Break(_) => true,
            // the bound regions in a skipped value are all bound in it, since their indices are in range
            ControlFlow::Continue(_) => {
                let unbound = TypeFlags::HAS_FREE_REGIONS.union(TypeFlags::HAS_RE_ERASED);
                visitor.has_skipped()
                    && (self.has_type_flags(cx, unbound) || !are_regions_in_range(cx, self))
            }
        }
    }

    /// Returns whether a bound region occurs in the value, bound inside of it or outside.
    final fn has_bound_regions(&self, cx: &Interner) -> bool
        requires { IsPartBy Self.shape cx.now.rows self.now }
        ensures { IsTrue result ↔ Meets has_re_bound (scan (tree_by Self.shape cx.now.rows self.now)) }
    {
        self.has_type_flags(cx, TypeFlags::HAS_RE_BOUND)
    }

    /// Returns whether a bound type or constant occurs in the value, bound inside of it or outside.
    final fn has_non_region_bound_vars(&self, cx: &Interner) -> bool
        requires { IsPartBy Self.shape cx.now.rows self.now }
        ensures { IsTrue result ↔ Meets (bit_or has_ty_bound has_ct_bound) (scan (tree_by Self.shape cx.now.rows self.now)) }
    {
        self.has_type_flags(cx, TypeFlags::from_bits_retain(0x180000))
    }

    /// Returns whether a bound variable occurs in the value, bound inside of it or outside.
    final fn has_bound_vars(&self, cx: &Interner) -> bool
        requires { IsPartBy Self.shape cx.now.rows self.now }
        ensures { IsTrue result ↔ Meets has_bound_vars (scan (tree_by Self.shape cx.now.rows self.now)) }
    {
        self.has_type_flags(cx, TypeFlags::HAS_BOUND_VARS)
    }

    /// Returns whether replacing parameters, inference variables or placeholders for types and constants can still
    /// specialize the value further.
    final fn still_further_specializable(&self, cx: &Interner) -> bool
        requires { IsPartBy Self.shape cx.now.rows self.now }
        ensures { IsTrue result ↔ Meets still_further_specializable (scan (tree_by Self.shape cx.now.rows self.now)) }
    {
        self.has_type_flags(cx, TypeFlags::STILL_FURTHER_SPECIALIZABLE)
    }

    /// Returns `Err` with the first token of an error that occurs in the value, of a type, a constant or a region, and
    /// `Ok` if there is none. The order is the order of a visit: children come from front to back. A type, a constant,
    /// a predicate or a list of clauses is taken apart only if the token of an error occurs in it.
    final fn error_reported(&self, cx: &Interner) -> Result<(), ErrorGuaranteed>
        requires { IsPartBy Self.shape cx.now.rows self.now }
        ensures ok { IfOk result (λ _. Misses has_error (scan (tree_by Self.shape cx.now.rows self.now))) }
        ensures err { IfErr result (λ _. Meets has_error (scan (tree_by Self.shape cx.now.rows self.now))) }
        ensures none { IfOk result (λ _. first_error (tree_by Self.shape cx.now.rows self.now) ≡ None) }
        ensures first { IfErr result (λ e. first_error (tree_by Self.shape cx.now.rows self.now) ≡ Some e.0) }
    {
        let mut visitor = HasErrorVisitor;
        match self.visit_with(cx, &mut visitor) {
            ControlFlow::Break(error) => Err(error),
            ControlFlow::Continue(_) => Ok(()),
        }
    }

    /// Returns the same as [`TypeVisitableExt::error_reported`] if the token of an error of a type or a constant occurs
    /// in the value, and `Ok` otherwise. So the returned token is a region's if that comes first.
    final fn non_region_error_reported(&self, cx: &Interner) -> Result<(), ErrorGuaranteed>
        requires { IsPartBy Self.shape cx.now.rows self.now }
        ensures ok { IfOk result (λ _. Misses has_non_region_error (scan (tree_by Self.shape cx.now.rows self.now))) }
        ensures err { IfErr result (λ _. Meets has_non_region_error (scan (tree_by Self.shape cx.now.rows self.now))) }
        ensures first { IfErr result (λ e. first_error (tree_by Self.shape cx.now.rows self.now) ≡ Some e.0) }
    {
        if self.has_type_flags(cx, TypeFlags::HAS_NON_REGION_ERROR) {
            self.error_reported(cx)
        } else {
            Ok(())
        }
    }

    /// Returns whether the value means the same everywhere: it holds no parameter, no inference variable, no
    /// placeholder, no fresh type or constant, and no region but `'static`, bound regions and regions of errors.
    final fn is_global(&self, cx: &Interner) -> bool
        requires { IsPartBy Self.shape cx.now.rows self.now }
        ensures { IsTrue result ↔ Misses has_free_local_names (scan (tree_by Self.shape cx.now.rows self.now)) }
    {
        !self.has_type_flags(cx, TypeFlags::HAS_FREE_LOCAL_NAMES)
    }

    /// Returns whether a variable occurs in the value that is bound outside of it.
    final fn has_escaping_bound_vars(&self, cx: &Interner) -> bool
        requires { IsPartBy Self.shape cx.now.rows self.now }
        ensures { IsTrue result ↔ (0 < outer_binder (tree_by Self.shape cx.now.rows self.now)) }
    {
        self.has_vars_bound_at_or_above(cx, DebruijnIndex::INNERMOST)
    }

    /// Returns whether a variable occurs in the value that is bound by the binder of this index or further out. The
    /// index is counted from outside the value: 0 is the innermost binder around it.
    final fn has_vars_bound_at_or_above(&self, cx: &Interner, binder: DebruijnIndex) -> bool
        requires { IsPartBy Self.shape cx.now.rows self.now }
        ensures { IsTrue result ↔ (binder < outer_binder (tree_by Self.shape cx.now.rows self.now)) }
    {
        let mut visitor = HasEscapingVarsVisitor::new(binder);
        match self.visit_with(cx, &mut visitor) {
            ControlFlow::Break(_) => true,
            ControlFlow::Continue(_) => visitor.has_skipped() && !are_vars_in_range(cx, self),
        }
    }

    /// Returns whether a variable occurs in the value that is bound further out than by the binder of this index.
    /// Returns `false` for the greatest index.
    final fn has_vars_bound_above(&self, cx: &Interner, binder: DebruijnIndex) -> bool
        requires { IsPartBy Self.shape cx.now.rows self.now }
        ensures { IsTrue result ↔ (binder + 1 < outer_binder (tree_by Self.shape cx.now.rows self.now)) }
    {
        if binder.can_shift_in(1) {
            self.has_vars_bound_at_or_above(cx, binder.shifted_in(1))
        } else {
            !are_vars_in_range(cx, self)
        }
    }
}

impl<T: TypeVisitable> TypeVisitableExt for T {}
