//! The folds of handles, and of the small values around them.

ghost use Rattle.std.specs.Prelude.{◌≡◌, IfErr, OnErr, OnOk};
ghost use Rattle.tt_index.specs.declared.refusal.Refusal.TheVariants.{NotAClause};
ghost use Rattle.tt_kinds.specs.Kinds.{predicate_shape};
ghost use Rattle.tt_interner.specs.Rows.{IsClause};
ghost use Rattle.tt_fold.specs.Steps.{IsPartBy};

use crate::core_folder::Core;
use crate::foldable::{TypeFoldable, TypeSuperFoldable};
use crate::walk::{fold_inside, fold_stored};
use tt_index::Refusal;
use tt_interner::{AsClause, AsPredicate, Interner};
use tt_kinds::handle::{
    ArgListRow, ClauseListRow, ConstListRow, ConstRow, ExistentialListRow, ExistentialRow,
    PatternListRow, PatternRow, PredicateRow, TypeListRow, TypeRow,
};
use tt_kinds::{Clause, GenericArg, GenericArgKind, Handle, Predicate, Region, Term, TermKind};
use tt_visit::{HasHook, IsWalked};

/// The trait of the marks of terms and of lists of terms, whose handles folds follow.
pub trait IsFolded: IsWalked {}

impl IsFolded for TypeRow {}

impl IsFolded for ConstRow {}

impl IsFolded for PatternRow {}

impl IsFolded for PredicateRow {}

impl IsFolded for ExistentialRow {}

impl IsFolded for ClauseListRow {}

impl IsFolded for TypeListRow {}

impl IsFolded for ConstListRow {}

impl IsFolded for ArgListRow {}

impl IsFolded for PatternListRow {}

impl IsFolded for ExistentialListRow {}

impl<K: IsFolded> TypeFoldable for Handle<K> {
    fn fold_core<M, F: Core<M>>(
        self,
        cx: &mut Interner,
        folder: &mut F,
    ) -> Result<Handle<K>, F::Error> {
        let handle = fold_stored::<M, F>(cx, folder, self.any())?;
        Ok(handle.typed())
    }
}

impl<K: HasHook + IsFolded> TypeSuperFoldable for Handle<K> {
    fn super_fold_core<M, F: Core<M>>(
        self,
        cx: &mut Interner,
        folder: &mut F,
    ) -> Result<Handle<K>, F::Error> {
        let handle = fold_inside::<M, F>(cx, folder, self.any())?;
        Ok(handle.typed())
    }
}

impl TypeFoldable for Clause {
    fn fold_core<M, F: Core<M>>(
        self,
        cx: &mut Interner,
        folder: &mut F,
    ) -> Result<Clause, F::Error> {
        let before = self.as_predicate();
        let folded = before.fold_core::<M, F>(cx, folder)?;
        check_stays_clause(cx, before, folded)?;
        Ok(Clause::from_number(folded.number()))
    }
}

// Checks that a clause stays one: if the predicate was a clause before it was folded, the result has to be one.
fn check_stays_clause(cx: &Interner, before: Predicate, folded: Predicate) -> Result<(), Refusal>
    requires before { IsPartBy predicate_shape cx.now.rows before }
    requires folded { IsPartBy predicate_shape cx.now.rows folded }
    ensures ok { OnOk result (IsClause cx.now.rows before.number → IsClause cx.now.rows folded.number) }
    ensures err { OnErr result (IsClause cx.now.rows before.number × (IsClause cx.now.rows folded.number → ⊥)) }
    ensures refusal { IfErr result (λ e. e ≡ NotAClause) }
{
    if folded.as_clause(cx).is_some() || before.as_clause(cx).is_none() {
        Ok(())
    } else {
        Err(Refusal::NotAClause)
    }
}

impl TypeFoldable for Region {
    fn fold_core<M, F: Core<M>>(
        self,
        cx: &mut Interner,
        folder: &mut F,
    ) -> Result<Region, F::Error> {
        folder.core_region(cx, self)
    }
}

impl TypeFoldable for GenericArgKind {
    fn fold_core<M, F: Core<M>>(
        self,
        cx: &mut Interner,
        folder: &mut F,
    ) -> Result<GenericArgKind, F::Error> {
        match self {
            GenericArgKind::Lifetime(region) => {
                let new_region = region.fold_core::<M, F>(cx, folder)?;
                Ok(GenericArgKind::Lifetime(new_region))
            }
            GenericArgKind::Type(ty) => {
                let new_ty = ty.fold_core::<M, F>(cx, folder)?;
                Ok(GenericArgKind::Type(new_ty))
            }
            GenericArgKind::Const(constant) => {
                let new_constant = constant.fold_core::<M, F>(cx, folder)?;
                Ok(GenericArgKind::Const(new_constant))
            }
        }
    }
}

impl TypeFoldable for GenericArg {
    fn fold_core<M, F: Core<M>>(
        self,
        cx: &mut Interner,
        folder: &mut F,
    ) -> Result<GenericArg, F::Error> {
        let kind = self.kind().fold_core::<M, F>(cx, folder)?;
        Ok(GenericArg::from(kind))
    }
}

impl TypeFoldable for TermKind {
    fn fold_core<M, F: Core<M>>(
        self,
        cx: &mut Interner,
        folder: &mut F,
    ) -> Result<TermKind, F::Error> {
        match self {
            TermKind::Ty(ty) => {
                let new_ty = ty.fold_core::<M, F>(cx, folder)?;
                Ok(TermKind::Ty(new_ty))
            }
            TermKind::Const(constant) => {
                let new_constant = constant.fold_core::<M, F>(cx, folder)?;
                Ok(TermKind::Const(new_constant))
            }
        }
    }
}

impl TypeFoldable for Term {
    fn fold_core<M, F: Core<M>>(self, cx: &mut Interner, folder: &mut F) -> Result<Term, F::Error> {
        let kind = self.kind().fold_core::<M, F>(cx, folder)?;
        Ok(Term::from(kind))
    }
}
