//! Tests of whether every handle and name in a kind is of an interner, as its calls require.

ghost use Rattle.std.specs.Prelude.{◌<◌, ◌↔◌, IsTrue};
ghost use Rattle.tt_kinds.specs.Shape.{AreParts, HasParts, IsPart};
ghost use Rattle.tt_kinds.specs.TermTable.{term_table};
ghost use Rattle.tt_kinds.specs.Bare.{bare_const_shape, bare_pattern_shape, bare_ty_shape};
ghost use Rattle.tt_kinds.specs.Values.{fn_sig_shape};
ghost use Rattle.tt_kinds.specs.Kinds.{
  binder_shape,
  child_shapes,
  parts_shapes,
  kind_form,
  kind_shape,
  ty_kind_shape,
  const_kind_shape,
  pattern_kind_shape,
  predicate_kind_shape,
  existential_kind_shape,
};
ghost use Rattle.tt_interner.specs.Rows.{size};
ghost use Rattle.tt_interner.specs.OwnNames.{IsNamedForm, IsBinderIn};
ghost use Rattle.tt_interner.specs.Existentials.{HaveParts};

use super::Interner;
use tt_kinds::{
    AnyHandle, Binder, BoundVarKinds, Child, ClauseKind, ConstKind, ExistentialPredicate, FnSig,
    Kind, Parts, PatternKind, PredicateKind, TyKind,
};

impl Interner {
    /// Returns whether `handle` names a stored term or list of this interner.
    pub fn owns_any(&self, handle: AnyHandle) -> bool
        ensures { IsTrue result ↔ (handle.number < size self.now.rows (term_table handle.table)) }
    {
        (handle.number as usize) < self.table_len(handle.table.table())
    }

    /// Returns whether the child, if there is one, is of this interner.
    pub fn owns_child(&self, child: &Child) -> bool
        ensures { IsTrue result ↔ AreParts (size self.now.rows) (child_shapes child.now) }
    {
        match child {
            Child::Absent => true,
            Child::Region(region) => self.owns_region(region),
            Child::Stored(stored) => self.owns_any(*stored),
        }
    }

    // Returns whether the children are of this interner.
    fn owns_parts(&self, parts: &Parts) -> bool
        ensures { IsTrue result ↔ AreParts (size self.now.rows) (parts_shapes parts.now) }
    {
        self.owns_child(&parts.first) && self.owns_child(&parts.second)
    }

    // Returns whether the list of a binder's variables, if there is one, is of this interner.
    fn owns_binder(&self, vars: Option<BoundVarKinds>) -> bool
        ensures { IsTrue result ↔ IsBinderIn (size self.now.rows) vars }
    {
        match vars {
            Some(vars) => self.owns(vars),
            None => true,
        }
    }

    // Returns whether the name in the kind itself, if any, is of this interner.
    fn owns_name(&self, kind: &Kind) -> bool
        ensures { IsTrue result ↔ IsNamedForm (size self.now.rows) (kind_form kind.now) }
    {
        match kind {
            Kind::Ty(TyKind::Param(param)) => self.owns(param.name),
            Kind::Const(ConstKind::Param(param)) => self.owns(param.name),
            Kind::Predicate(predicate) => match predicate.skip_binder() {
                PredicateKind::Clause(ClauseKind::UnstableFeature(feature)) => self.owns(feature),
                _ => true,
            },
            _ => true,
        }
    }

    // Returns whether every handle and name in the kind is this interner's.
    fn owns_contents(&self, kind: &Kind) -> bool
        ensures { IsTrue result ↔ HasParts (size self.now.rows) (kind_shape kind.now) }
    {
        if !self.owns_name(kind) {
            return false;
        }
        let parts = kind.parts();
        if !self.owns_parts(&parts) {
            return false;
        }
        self.owns_binder(kind.bound_vars())
    }

    /// Returns whether the types and the variables of the signature are lists of this interner.
    pub fn owns_signature(&self, sig: &Binder<FnSig>) -> bool
        ensures { IsTrue result ↔ IsPart (size self.now.rows) (binder_shape fn_sig_shape sig.now) }
    {
        self.owns(sig.skip_binder().inputs_and_output) && self.owns(sig.bound_vars())
    }

    /// Returns whether every handle and name in the kind of a type is this interner's. This is the condition of calls
    /// that store the kind, and of those that use it by itself.
    pub fn owns_kind(&self, kind: &TyKind) -> bool
        ensures stored { IsTrue result ↔ HasParts (size self.now.rows) (ty_kind_shape kind.now) }
        ensures bare { IsTrue result ↔ IsPart (size self.now.rows) (bare_ty_shape kind.now) }
    {
        self.owns_contents(&Kind::Ty(*kind))
    }

    /// Returns whether every handle and name in the kind of a constant is this interner's, as [`Interner::owns_kind`]
    /// does for a type's.
    pub fn owns_const_kind(&self, kind: &ConstKind) -> bool
        ensures stored { IsTrue result ↔ HasParts (size self.now.rows) (const_kind_shape kind.now) }
        ensures bare { IsTrue result ↔ IsPart (size self.now.rows) (bare_const_shape kind.now) }
    {
        self.owns_contents(&Kind::Const(*kind))
    }

    /// Returns whether every handle and name in the kind of a pattern is this interner's, as [`Interner::owns_kind`]
    /// does for a type's.
    pub fn owns_pattern_kind(&self, kind: &PatternKind) -> bool
        ensures bare { IsTrue result ↔ IsPart (size self.now.rows) (bare_pattern_shape kind.now) }
        ensures stored { IsTrue result ↔ HasParts (size self.now.rows) (pattern_kind_shape kind.now) }
    {
        self.owns_contents(&Kind::Pat(*kind))
    }

    /// Returns whether every handle and name in the predicate, its binder's variables included, is of this interner.
    pub fn owns_predicate_kind(&self, kind: &Binder<PredicateKind>) -> bool
        ensures { IsTrue result ↔ HasParts (size self.now.rows) (predicate_kind_shape kind.now) }
    {
        self.owns_contents(&Kind::Predicate(*kind))
    }

    /// Returns whether every handle and name in the existential predicate, its binder's variables included, is of this
    /// interner.
    pub fn owns_existential_kind(&self, kind: &Binder<ExistentialPredicate>) -> bool
        ensures { IsTrue result ↔ HasParts (size self.now.rows) (existential_kind_shape kind.now) }
    {
        self.owns_contents(&Kind::Existential(*kind))
    }
    /// Returns whether every handle and name in each of these existential predicates is this interner's.
    pub fn owns_existential_kinds(&self, kinds: &[Binder<ExistentialPredicate>]) -> bool
        ensures { IsTrue result ↔ HaveParts self.now.rows kinds.now }
    {
        for kind in kinds {
            if !self.owns_existential_kind(kind) {
                return false;
            }
        }
        true
    }
}
