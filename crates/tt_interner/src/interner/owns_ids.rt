//! Tests of whether ids are of an interner: whether they name a declaration of their sort. Ids of different interners
//! can't be told apart.

ghost use Rattle.std.specs.Prelude.{◌↔◌, IsTrue};
ghost use Rattle.tt_kinds.specs.declared.declaration.DeclarationSort.TheVariants as sort;
ghost use Rattle.tt_interner.specs.Declarations.{IsOfSort};

use super::Interner;
use tt_kinds::{
    AdtId, ClosureId, CoroutineClosureId, CoroutineId, DeclarationSort, DefId, ForeignId,
    FreeTyAliasId, FunctionId, Id, ImplId, InherentAssocTyId, IsDeclared, OpaqueTyId,
    TraitAssocTyId, TraitId, UnevaluatedConstId,
};

impl Interner {
    /// Returns whether `id` names a declaration of this interner that has this sort. Use it for a [`DefId`] of a
    /// parameter too.
    pub fn owns_id_of_sort(&self, id: DefId, sort: DeclarationSort) -> bool
        ensures { IsTrue result ↔ IsOfSort self.now.rows sort id.number }
    {
        self.owns_def_id(id) && self.declaration(id).kind.sort() == sort
    }

    /// Returns whether `id` names a declaration of this interner that has the sort of its type, for generic code. If
    /// you know what the id is of, use the test by name, such as [`Interner::owns_trait_id`], whose contract names the
    /// sort.
    pub fn owns_id<S: IsDeclared>(&self, id: Id<S>) -> bool
        ensures { IsTrue result ↔ IsOfSort self.now.rows S.SORT id.number }
    {
        self.owns_id_of_sort(DefId::from(id), S::SORT)
    }
}

impl Interner {
    /// Returns whether `adt_id` names a struct, an enum or a union that this interner has declared.
    pub fn owns_adt_id(&self, adt_id: AdtId) -> bool
        ensures { IsTrue result ↔ IsOfSort self.now.rows sort.Adt adt_id.number }
    {
        self.owns_id(adt_id)
    }

    /// Returns whether `function_id` names a function that this interner has declared.
    pub fn owns_function_id(&self, function_id: FunctionId) -> bool
        ensures { IsTrue result ↔ IsOfSort self.now.rows sort.Fn function_id.number }
    {
        self.owns_id(function_id)
    }

    /// Returns whether `foreign_id` names a foreign type that this interner has declared.
    pub fn owns_foreign_id(&self, foreign_id: ForeignId) -> bool
        ensures { IsTrue result ↔ IsOfSort self.now.rows sort.Foreign foreign_id.number }
    {
        self.owns_id(foreign_id)
    }

    /// Returns whether `closure_id` names a closure that this interner has declared.
    pub fn owns_closure_id(&self, closure_id: ClosureId) -> bool
        ensures { IsTrue result ↔ IsOfSort self.now.rows sort.Closure closure_id.number }
    {
        self.owns_id(closure_id)
    }

    /// Returns whether `coroutine_closure_id` names a closure that this interner has declared and that returns a
    /// coroutine.
    pub fn owns_coroutine_closure_id(&self, coroutine_closure_id: CoroutineClosureId) -> bool
        ensures { IsTrue result ↔ IsOfSort self.now.rows sort.CoroutineClosure coroutine_closure_id.number }
    {
        self.owns_id(coroutine_closure_id)
    }

    /// Returns whether `coroutine_id` names a coroutine that this interner has declared.
    pub fn owns_coroutine_id(&self, coroutine_id: CoroutineId) -> bool
        ensures { IsTrue result ↔ IsOfSort self.now.rows sort.Coroutine coroutine_id.number }
    {
        self.owns_id(coroutine_id)
    }

    /// Returns whether `trait_id` names a trait that this interner has declared.
    pub fn owns_trait_id(&self, trait_id: TraitId) -> bool
        ensures { IsTrue result ↔ IsOfSort self.now.rows sort.Trait trait_id.number }
    {
        self.owns_id(trait_id)
    }

    /// Returns whether `impl_id` names an implementation that this interner has declared.
    pub fn owns_impl_id(&self, impl_id: ImplId) -> bool
        ensures { IsTrue result ↔ IsOfSort self.now.rows sort.Impl impl_id.number }
    {
        self.owns_id(impl_id)
    }

    /// Returns whether `const_id` names a constant that this interner has declared and whose value is computed on
    /// demand.
    pub fn owns_unevaluated_const_id(&self, const_id: UnevaluatedConstId) -> bool
        ensures { IsTrue result ↔ IsOfSort self.now.rows sort.Const const_id.number }
    {
        self.owns_id(const_id)
    }

    /// Returns whether `assoc_ty_id` names an associated type of a trait that this interner has declared.
    pub fn owns_trait_assoc_ty_id(&self, assoc_ty_id: TraitAssocTyId) -> bool
        ensures { IsTrue result ↔ IsOfSort self.now.rows sort.AssocTy assoc_ty_id.number }
    {
        self.owns_id(assoc_ty_id)
    }

    /// Returns whether `inherent_id` names an associated type of an inherent implementation that this interner has
    /// declared.
    pub fn owns_inherent_assoc_ty_id(&self, inherent_id: InherentAssocTyId) -> bool
        ensures { IsTrue result ↔ IsOfSort self.now.rows sort.Inherent inherent_id.number }
    {
        self.owns_id(inherent_id)
    }

    /// Returns whether `opaque_id` names an opaque type that this interner has declared.
    pub fn owns_opaque_ty_id(&self, opaque_id: OpaqueTyId) -> bool
        ensures { IsTrue result ↔ IsOfSort self.now.rows sort.Opaque opaque_id.number }
    {
        self.owns_id(opaque_id)
    }

    /// Returns whether `free_id` names a type alias that this interner has declared and whose bounds are checked.
    pub fn owns_free_ty_alias_id(&self, free_id: FreeTyAliasId) -> bool
        ensures { IsTrue result ↔ IsOfSort self.now.rows sort.Free free_id.number }
    {
        self.owns_id(free_id)
    }
}
