//! Ids: small values that name a declaration of one interner.
//!
//! An id's number is its place in the interner's table of declarations, and its text is `#` and that number. Ids of
//! different interners can't be told apart.

ghost use Rattle.std.specs.Prelude.{◌≡◌, Some};
ghost use Rattle.tt_kinds.specs.Declaration.{id_text};
ghost use Rattle.tt_kinds.specs.Id.{id_of};
ghost use Rattle.tt_kinds.specs.declared.declaration.DeclarationSort.{DeclarationSort};
ghost use Rattle.tt_kinds.specs.declared.declaration.DeclarationSort.TheVariants as sort;

use crate::declaration::DeclarationSort;
use std::fmt;
use std::marker::PhantomData;

/// The id of a declaration of any kind.
#[derive(Clone, Copy, Debug, PartialEq, Eq, Hash)]
pub struct DefId {
    number: u32,
}

impl DefId {
    /// Returns the id of this number.
    pub fn from_number(number: u32) -> DefId
        ensures { result ≡ record { number = number } }
    {
        DefId { number }
    }

    /// Returns the declaration's place in the table of declarations, counted from 0.
    pub fn number(self) -> u32
        ensures { result ≡ self.number }
    {
        let DefId { number } = self;
        number
    }
}

impl fmt::Display for DefId {
    ghost output = { λ id. Some (id_text id.number) };

    fn fmt<W: fmt::Write>(&self, f: &mut fmt::Formatter<W>) -> fmt::Result {
        let DefId { number: place } = self;
        write!(f, "#{place}")
    }
}

/// The id of a declaration whose sort the mark `S` gives.
#[derive_where(Clone, Copy, Debug, PartialEq, Eq, Hash)]
pub struct Id<S> {
    number: u32,
    #[derive_where(skip)]
    of: PhantomData<S>,
}

impl<S> Id<S> {
    /// Returns the id of this number.
    pub fn from_number(number: u32) -> Id<S>
        ensures { result ≡ id_of number }
    {
        Id {
            number,
            of: PhantomData,
        }
    }

    /// Returns the declaration's place in the table of declarations, counted from 0.
    pub fn number(self) -> u32
        ensures { result ≡ self.number }
    {
        let Id { number, .. } = self;
        number
    }
}

impl<S> fmt::Display for Id<S> {
    ghost output = { λ id. Some (id_text id.number) };

    fn fmt<W: fmt::Write>(&self, f: &mut fmt::Formatter<W>) -> fmt::Result {
        let Id { number: place, .. } = self;
        write!(f, "#{place}")
    }
}

impl<S> From<Id<S>> for DefId {
    ghost from_gives = { λ id def_id. def_id ≡ record { number = id.number } };

    fn from(id: Id<S>) -> DefId {
        DefId { number: id.number }
    }
}

/// A mark of ids, which all name declarations of one sort.
pub trait IsDeclared {
    ghost SORT: { DeclarationSort };

    /// The sort of the declarations that these ids name.
    const SORT: DeclarationSort;
}

/// The mark of structs, enums and unions.
pub enum DataType {}

impl IsDeclared for DataType {
    ghost SORT = { sort.Adt };

    const SORT: DeclarationSort = DeclarationSort::Adt;
}

/// A struct, an enum or a union.
pub type AdtId = Id<DataType>;

/// The mark of foreign types.
pub enum ForeignType {}

impl IsDeclared for ForeignType {
    ghost SORT = { sort.Foreign };

    const SORT: DeclarationSort = DeclarationSort::Foreign;
}

/// A foreign type, which is declared elsewhere.
pub type ForeignId = Id<ForeignType>;

/// The mark of functions.
pub enum Function {}

impl IsDeclared for Function {
    ghost SORT = { sort.Fn };

    const SORT: DeclarationSort = DeclarationSort::Fn;
}

/// A function.
pub type FunctionId = Id<Function>;

/// The mark of closures.
pub enum Closure {}

impl IsDeclared for Closure {
    ghost SORT = { sort.Closure };

    const SORT: DeclarationSort = DeclarationSort::Closure;
}

/// A closure.
pub type ClosureId = Id<Closure>;

/// The mark of closures that return a coroutine.
pub enum CoroutineClosure {}

impl IsDeclared for CoroutineClosure {
    ghost SORT = { sort.CoroutineClosure };

    const SORT: DeclarationSort = DeclarationSort::CoroutineClosure;
}

/// A closure that returns a coroutine.
pub type CoroutineClosureId = Id<CoroutineClosure>;

/// The mark of coroutines.
pub enum Coroutine {}

impl IsDeclared for Coroutine {
    ghost SORT = { sort.Coroutine };

    const SORT: DeclarationSort = DeclarationSort::Coroutine;
}

/// A coroutine.
pub type CoroutineId = Id<Coroutine>;

/// The mark of traits.
pub enum Trait {}

impl IsDeclared for Trait {
    ghost SORT = { sort.Trait };

    const SORT: DeclarationSort = DeclarationSort::Trait;
}

/// A trait.
pub type TraitId = Id<Trait>;

/// The mark of implementations.
pub enum Implementation {}

impl IsDeclared for Implementation {
    ghost SORT = { sort.Impl };

    const SORT: DeclarationSort = DeclarationSort::Impl;
}

/// An implementation: of a trait, or of a type's own items.
pub type ImplId = Id<Implementation>;

/// The mark of constants whose value is computed on demand.
pub enum UnevaluatedConstant {}

impl IsDeclared for UnevaluatedConstant {
    ghost SORT = { sort.Const };

    const SORT: DeclarationSort = DeclarationSort::Const;
}

/// A constant whose value is computed on demand.
pub type UnevaluatedConstId = Id<UnevaluatedConstant>;

/// The mark of associated types of traits.
pub enum TraitAssocTy {}

impl IsDeclared for TraitAssocTy {
    ghost SORT = { sort.AssocTy };

    const SORT: DeclarationSort = DeclarationSort::AssocTy;
}

/// An associated type of a trait.
pub type TraitAssocTyId = Id<TraitAssocTy>;

/// The mark of associated types of inherent implementations.
pub enum InherentAssocTy {}

impl IsDeclared for InherentAssocTy {
    ghost SORT = { sort.Inherent };

    const SORT: DeclarationSort = DeclarationSort::Inherent;
}

/// An associated type of an inherent implementation.
pub type InherentAssocTyId = Id<InherentAssocTy>;

/// The mark of opaque types.
pub enum OpaqueType {}

impl IsDeclared for OpaqueType {
    ghost SORT = { sort.Opaque };

    const SORT: DeclarationSort = DeclarationSort::Opaque;
}

/// An opaque type, such as `impl Trait` as a result.
pub type OpaqueTyId = Id<OpaqueType>;

/// The mark of type aliases whose bounds are checked.
pub enum FreeTyAlias {}

impl IsDeclared for FreeTyAlias {
    ghost SORT = { sort.Free };

    const SORT: DeclarationSort = DeclarationSort::Free;
}

/// A type alias whose bounds are checked, and which can always be normalized away.
pub type FreeTyAliasId = Id<FreeTyAlias>;

/// Each mark of ids has its sort of declarations: [`DataType`] has `Adt`, [`Function`] has `Fn`, and so on. The
/// function does nothing: its contract is a law.
pub fn marks_name_their_sorts()
    ensures adt_id { ⟦<DataType as IsDeclared>⟧.SORT ≡ sort.Adt }
    ensures function_id { ⟦<Function as IsDeclared>⟧.SORT ≡ sort.Fn }
    ensures foreign_id { ⟦<ForeignType as IsDeclared>⟧.SORT ≡ sort.Foreign }
    ensures closure_id { ⟦<Closure as IsDeclared>⟧.SORT ≡ sort.Closure }
    ensures coroutine_closure_id { ⟦<CoroutineClosure as IsDeclared>⟧.SORT ≡ sort.CoroutineClosure }
    ensures coroutine_id { ⟦<Coroutine as IsDeclared>⟧.SORT ≡ sort.Coroutine }
    ensures trait_id { ⟦<Trait as IsDeclared>⟧.SORT ≡ sort.Trait }
    ensures impl_id { ⟦<Implementation as IsDeclared>⟧.SORT ≡ sort.Impl }
    ensures unevaluated_const_id { ⟦<UnevaluatedConstant as IsDeclared>⟧.SORT ≡ sort.Const }
    ensures trait_assoc_ty_id { ⟦<TraitAssocTy as IsDeclared>⟧.SORT ≡ sort.AssocTy }
    ensures inherent_assoc_ty_id { ⟦<InherentAssocTy as IsDeclared>⟧.SORT ≡ sort.Inherent }
    ensures opaque_ty_id { ⟦<OpaqueType as IsDeclared>⟧.SORT ≡ sort.Opaque }
    ensures free_ty_alias_id { ⟦<FreeTyAlias as IsDeclared>⟧.SORT ≡ sort.Free }
{}
