//! Aliases of types: their types, their self types, and the traits and own arguments of projections.

ghost use Rattle.std.specs.Prelude.{
  IfErr,
  IfOk,
  List,
  MatchOption,
  length,
  take,
  ℕ,
  IsTrue,
  ◌<◌,
  ◌≤◌,
  ◌≡◌,
  ◌↔◌,
};
ghost use Rattle.std.specs.Iterator.{Drains, IsFinite};
ghost use Rattle.tt_index.specs.declared.refusal.Refusal.TheVariants.{Memory};
ghost use Rattle.tt_kinds.specs.Kinds.{arg_shape};
ghost use Rattle.tt_kinds.specs.Shape.{item_shapes, AreParts};
ghost use Rattle.tt_kinds.specs.declared.alias.AliasTy.{AliasTy};
ghost use Rattle.tt_kinds.specs.declared.table.Table.TheVariants.{ArgLists, Types};
ghost use Rattle.tt_interner.specs.Alias.{
  BuildsTraitRef,
  HasParams,
  HasSelfTy,
  HasTraitArgs,
  HasTraitDefId,
  IsInTrait,
  IsOwnArgs,
  IsSelfTy,
  ReplacesSelfTy,
  first_type,
  with_self_ty,
};
ghost use Rattle.tt_interner.specs.Collect.{BuildsFrom};
ghost use Rattle.tt_interner.specs.Rows.{args_row, size, type_row};
ghost use Rattle.tt_interner.specs.Stored.{Builds, Extends, most_in_place};

use crate::children::MOST_IN_PLACE;
use crate::handle::InternedList;
use crate::interner::Interner;
use std::alloc::Global;
use tt_index::Refusal;
use tt_kinds::{
    AliasTy, AliasTyKind, DeclarationKind, DefId, GenericArg, GenericArgs, GenericArgsSlice,
    TraitId, TraitRef, Ty, TyKind,
};

/// Aliases of types, with the calls that read or build terms.
pub trait InternedAlias: Sized {
    // The alias's arguments and kind.
    ghost alias: { Self → AliasTy };

    /// Returns the alias of this kind whose arguments are all items of the iterator, in order. The iterator has to end,
    /// and its items have to be of this interner; [`Interner::owns_arg`] tests an item.
    ///
    /// Refused as [`Interner::mk_args_from_iter`] is, which makes the list of the arguments.
    fn new<I: Iterator<Item = GenericArg> + Drop>(
        cx: &mut Interner,
        kind: AliasTyKind,
        args: I,
    ) -> Result<Self, Refusal>
        requires can { I.can_next args }
        requires ends { IsFinite (I.remaining args) }
        requires items { (items : List _) → Drains I.next_gives args items
            → AreParts (size cx.old.rows) (item_shapes arg_shape items) }
        ensures args { BuildsFrom result (λ made. (alias made).args.number) cx.old cx.new args_row I.next_gives args }
        ensures extends { Extends cx.old cx.new }
        ensures kind { IfOk result (λ made. (alias made).kind ≡ kind) };

    /// Returns the type that is the alias, as [`Interner::mk_ty`] does for its kind. The arguments have to be of this
    /// interner; [`Interner::owns_args`] tests it.
    fn to_ty(self, cx: &mut Interner) -> Result<Ty, Refusal>
        requires { (alias self).args.number < size cx.old.rows ArgLists }
        ensures { Builds result (λ ty. ty.number) cx.old cx.new (type_row (TyKind.Alias (alias self))) };

    /// Returns whether the arguments are a list of this interner whose first item is a type.
    fn has_self_ty(&self, cx: &Interner) -> bool
        ensures { IsTrue result ↔ HasSelfTy cx.now.rows (alias self.now).args };

    /// Returns the first argument, which has to be a type; [`InternedAlias::has_self_ty`] tests it.
    fn self_ty(self, cx: &Interner) -> Ty
        requires { HasSelfTy cx.now.rows (alias self).args }
        ensures is { IsSelfTy cx.now.rows (alias self).args result }
        ensures in_range { result.number < size cx.now.rows Types };

    /// Returns the alias with this type in place of its first argument. If it has no arguments, the type becomes the
    /// only one. The arguments and the type have to be of this interner; [`Interner::owns_args`] and
    /// [`Interner::owns_ty`] test it.
    ///
    /// Refused with `TableFull` if the list of the arguments is new and the table has as many rows as it may have, and
    /// with `Memory`. Up to eight arguments are collected in place, so a list of them that is stored already is found
    /// without allocation. More are collected in a vector before their list is looked up, so `Memory` is possible even
    /// for a list that is stored already.
    fn with_replaced_self_ty(self, cx: &mut Interner, self_ty: Ty) -> Result<Self, Refusal>
        requires args { (alias self).args.number < size cx.old.rows ArgLists }
        requires self_ty { self_ty.number < size cx.old.rows Types }
        ensures args { ReplacesSelfTy
            result
            (λ made. (alias made).args.number)
            cx.old
            cx.new
            (alias self).args
            self_ty }
        ensures extends { Extends cx.old cx.new }
        ensures kind { IfOk result (λ made. (alias made).kind ≡ (alias self).kind) };

    /// Returns whether the alias is a projection, and its associated type is declared in this interner.
    fn has_trait_def_id(&self, cx: &Interner) -> bool
        ensures { IsTrue result ↔ HasTraitDefId cx.now.rows (alias self.now).kind };

    /// Returns the trait of a projection, in which its associated type was declared. The alias has to be a projection
    /// of this interner; [`InternedAlias::has_trait_def_id`] tests it.
    fn trait_def_id(self, cx: &Interner) -> TraitId
        requires { HasTraitDefId cx.now.rows (alias self).kind }
        ensures { IsInTrait cx.now.rows (alias self).kind result };

    /// Returns whether the alias is a projection that has an argument for each parameter of its trait: the associated
    /// type and the trait are declared in this interner, and the arguments are one of its lists, with at most
    /// `u32::MAX` items.
    fn has_trait_args(&self, cx: &Interner) -> bool
        ensures { IsTrue result ↔ HasTraitArgs cx.now.rows (alias self.now) };

    /// Returns the trait of a projection with the arguments for its parameters, and the other arguments, which are the
    /// associated type's own. There has to be an argument for each parameter; [`InternedAlias::has_trait_args`] tests
    /// it.
    ///
    /// Refused as [`InternedAlias::with_replaced_self_ty`] is; only the arguments for the trait's parameters are
    /// collected.
    fn trait_ref_and_own_args(
        self,
        cx: &mut Interner,
    ) -> Result<(TraitRef, GenericArgsSlice), Refusal>
        requires { HasTraitArgs cx.old.rows (alias self) }
        ensures trait_ref { BuildsTraitRef result (λ both. both.0) cx.old cx.new (alias self) }
        ensures extends { Extends cx.old cx.new }
        ensures own { IfOk result (λ both. IsOwnArgs cx.old.rows (alias self) both.0.def_id both.1) };

    /// Returns the trait of a projection with the arguments for its parameters, as
    /// [`InternedAlias::trait_ref_and_own_args`] does.
    fn trait_ref(self, cx: &mut Interner) -> Result<TraitRef, Refusal>
        requires { HasTraitArgs cx.old.rows (alias self) }
        ensures builds { BuildsTraitRef result (λ made. made) cx.old cx.new (alias self) }
        ensures extends { Extends cx.old cx.new };
}

// Returns the first of the arguments, if there is one and it is a type.
pub(crate) fn first_type(items: &[GenericArg]) -> Option<Ty>
    ensures { result ≡ first_type items.now }
{
    match items.first() {
        Some(first) => first.as_type(),
        None => None,
    }
}

// Returns places of which the first ones hold the arguments, at most eight.
fn in_place(args: &[GenericArg]) -> [GenericArg; MOST_IN_PLACE]
    requires { length args.now ≤ most_in_place }
    ensures { take (length args.now) result ≡ args.now }
{
    let mut places = [GenericArg::from(Ty::from_number(0)); MOST_IN_PLACE];
    places[..args.len()].copy_from_slice(args);
    places
}

// Returns places of which the first ones hold the arguments, at most eight, with the type in place of the first, and
// how many places these are.
fn replaced_in_place(all: &[GenericArg], self_ty: Ty) -> ([GenericArg; MOST_IN_PLACE], usize)
    requires { length all.now ≤ most_in_place }
    ensures within { result.1 ≤ most_in_place }
    ensures items { take result.1 result.0 ≡ with_self_ty self_ty all.now }
{
    let mut places = in_place(all);
    places[0] = GenericArg::from(self_ty);
    (places, all.len().max(1))
}

// Returns the arguments with the type in place of the first.
fn replaced(alloc: Global, all: &[GenericArg], self_ty: Ty) -> Result<Vec<GenericArg>, Refusal>
    ensures items { IfOk result (λ items. items.items ≡ with_self_ty self_ty all.now) }
    ensures err { IfErr result (λ e. e ≡ Memory) }
{
    let start = all.len().min(1);
    let mut items = Vec::new(alloc);
    items.push(GenericArg::from(self_ty))?;
    items.extend_from_slice(&all[start..])?;
    Ok(items)
}

// Returns the list of the arguments with the type in place of the first.
pub(crate) fn replaced_args(
    cx: &mut Interner,
    args: GenericArgs,
    self_ty: Ty,
) -> Result<GenericArgs, Refusal>
    requires args { args.number < size cx.old.rows ArgLists }
    requires self_ty { self_ty.number < size cx.old.rows Types }
    ensures replaces { ReplacesSelfTy result (λ made. made.number) cx.old cx.new args self_ty }
    ensures extends { Extends cx.old cx.new }
{
    let all = args.as_slice(cx);
    if all.len() > MOST_IN_PLACE {
        let items = replaced(cx.allocator(), all, self_ty)?;
        return cx.put_args(items);
    }
    let (places, count) = replaced_in_place(all, self_ty);
    cx.mk_args(&places[..count])
}

// Returns the trait that the alias's associated type is declared in, if the alias is a projection and the type is
// declared.
fn parent_of(cx: &Interner, kind: AliasTyKind) -> Option<TraitId>
    ensures { MatchOption result (HasTraitDefId cx.now.rows kind → ⊥) (λ parent. HasTraitDefId cx.now.rows kind
        × IsInTrait cx.now.rows kind parent) }
{
    match kind {
        AliasTyKind::Projection { def_id } => {
            if cx.owns_trait_assoc_ty_id(def_id) {
                Some(cx.projection_parent(def_id))
            } else {
                None
            }
        }
        _ => None,
    }
}

// Returns the number of the trait's parameters, if the trait is declared.
fn params_of(cx: &Interner, parent: TraitId) -> Option<u32>
    ensures { MatchOption result ((params : ℕ) → HasParams cx.now.rows parent params → ⊥) (λ params. HasParams
        cx.now.rows
        parent
        params) }
{
    let id = DefId::from(parent);
    if !cx.owns_def_id(id) {
        return None;
    }
    match cx.declaration(id).kind {
        DeclarationKind::Trait { params } => Some(params),
        _ => None,
    }
}

// Returns the trait of a projection and the arguments beyond the trait's, if there is an argument for each parameter.
fn own_args(cx: &Interner, alias: AliasTy) -> Option<(TraitId, GenericArgsSlice)>
    ensures { MatchOption result (HasTraitArgs cx.now.rows alias → ⊥) (λ both. IsOwnArgs
        cx.now.rows
        alias
        both.0
        both.1) }
{
    let parent = parent_of(cx, alias.kind)?;
    let params = params_of(cx, parent)?;
    let args = alias.args;
    if !cx.owns(args) {
        return None;
    }
    let count = args.as_slice(cx).len();
    if count < params as usize || count > u32::MAX as usize {
        return None;
    }
    Some((
        parent,
        GenericArgsSlice::from_parts(args, params, count as u32 - params),
    ))
}

impl InternedAlias for AliasTy {
    ghost alias = { λ alias. alias };

    fn new<I: Iterator<Item = GenericArg> + Drop>(
        cx: &mut Interner,
        kind: AliasTyKind,
        args: I,
    ) -> Result<AliasTy, Refusal> {
        let args = cx.mk_args_from_iter(args)?;
        Ok(AliasTy::new_from_args(kind, args))
    }

    fn to_ty(self, cx: &mut Interner) -> Result<Ty, Refusal> {
        cx.mk_ty(TyKind::Alias(self))
    }

    fn has_self_ty(&self, cx: &Interner) -> bool {
        let args = self.args;
        cx.owns(args) && first_type(args.as_slice(cx)).is_some()
    }

    fn self_ty(self, cx: &Interner) -> Ty {
        match first_type(self.args.as_slice(cx)) {
            Some(ty) => ty,
            None => unreachable!(),
        }
    }

    fn with_replaced_self_ty(self, cx: &mut Interner, self_ty: Ty) -> Result<AliasTy, Refusal> {
        let args = replaced_args(cx, self.args, self_ty)?;
        Ok(AliasTy::new_from_args(self.kind, args))
    }

    fn has_trait_def_id(&self, cx: &Interner) -> bool {
        match self.kind {
            AliasTyKind::Projection { def_id } => cx.owns_trait_assoc_ty_id(def_id),
            _ => false,
        }
    }

    fn trait_def_id(self, cx: &Interner) -> TraitId {
        match self.kind {
            AliasTyKind::Projection { def_id } => cx.projection_parent(def_id),
            _ => unreachable!(),
        }
    }

    fn has_trait_args(&self, cx: &Interner) -> bool {
        own_args(cx, *self).is_some()
    }

    fn trait_ref_and_own_args(
        self,
        cx: &mut Interner,
    ) -> Result<(TraitRef, GenericArgsSlice), Refusal> {
        match own_args(cx, self) {
            Some((def_id, own)) => {
                let firsts = &self.args.as_slice(cx)[..own.start() as usize];
                let count = firsts.len();
                if count > MOST_IN_PLACE {
                    let items = Vec::from_slice(cx.allocator(), firsts)?;
                    let args = cx.put_args(items)?;
                    return Ok((TraitRef { def_id, args }, own));
                }
                let places = in_place(firsts);
                let args = cx.mk_args(&places[..count])?;
                Ok((TraitRef { def_id, args }, own))
            }
            None => unreachable!(),
        }
    }

    fn trait_ref(self, cx: &mut Interner) -> Result<TraitRef, Refusal> {
        let (trait_ref, _) = self.trait_ref_and_own_args(cx)?;
        Ok(trait_ref)
    }
}
