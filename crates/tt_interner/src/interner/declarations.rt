//! Declarations. Each has its own id, even if names repeat.

ghost use Rattle.std.specs.Prelude.{
  Option,
  ℕ,
  ◌≡◌,
  ◌⊎◌,
  ◌<◌,
  ◌≤◌,
  ◌↔◌,
  IsTrue,
  [],
  ◌∷◌,
  ◌++◌,
  IfOk,
  OnOk,
  OnErr,
  IfErr,
  length,
  is_some,
};
ghost use Rattle.tt_kinds.specs.declared.bound.BoundRegionKind.{BoundRegionKind};
ghost use Rattle.tt_interner.specs.Rows.{declared_row, size};
ghost use Rattle.tt_interner.specs.Stored.{IsAt};
ghost use Rattle.tt_interner.specs.Declarations.{
  declared_at,
  Declares,
  is_anonymous,
  IsDeclaredRegion,
  IsOfSort,
  title,
};
ghost use Rattle.tt_kinds.specs.Alias.{alias_of};
ghost use Rattle.tt_kinds.specs.Declaration.{sort_of};
ghost use Rattle.tt_kinds.specs.declared.declaration.DeclarationSort.{DeclarationSort};
ghost use Rattle.tt_kinds.specs.Shape.{AreParts, IsPart};
ghost use Rattle.tt_kinds.specs.Kinds.{binder_shape};
ghost use Rattle.tt_kinds.specs.Values.{declared_shapes, fn_sig_shape};

use super::Interner;
use tt_index::Refusal;
use tt_kinds::{
    AdtId, AliasTyKind, Binder, BoundRegionKind, ClosureId, CoroutineClosureId, CoroutineId,
    Declaration, DeclarationKind, DeclarationSort, DefId, EarlyBinder, FnSig, ForeignId,
    FreeTyAliasId, FunctionId, ImplId, InherentAssocTyId, OpaqueTyId, Symbol, Table,
    TraitAssocTyId, TraitId, UnevaluatedConstId,
};

// Adds a declaration to a table that has fewer than `limit` rows, records it in the order, and returns its number. A
// refused call changes neither the table nor the order.
fn add_declaration(
    order: &mut Vec<Table>,
    limit: u32,
    declarations: &mut Vec<Declaration>,
    declaration: Declaration,
) -> Result<u32, Refusal>
    ensures order { OnOk result (order.new.items ≡ order.old.items ++ Table.Declarations ∷ []) }
    ensures declarations { OnOk result (declarations.new.items ≡ declarations.old.items ++ declaration ∷ []) }
    ensures number { IfOk result (λ n. (n ≡ length declarations.old.items) × (n < limit)) }
    ensures order_stays { OnErr result (order.new.items ≡ order.old.items) }
    ensures declarations_stay { OnErr result (declarations.new.items ≡ declarations.old.items) }
    ensures cause { IfErr result (λ e. (e ≡ Refusal.Memory)
        ⊎ ((e ≡ Refusal.TableFull) × (limit ≤ length declarations.old.items))) }
    ensures full { limit ≤ length declarations.old.items → result ≡ Err Refusal.TableFull }
{
    let number = declarations.len();
    if number >= limit as usize {
        return Err(Refusal::TableFull);
    }
    order.reserve(1)?;
    declarations.push(declaration)?;
    match order.push(Table::Declarations) {
        Ok(()) => Ok(number as u32),
        Err(_) => unreachable!(),
    }
}

impl Interner {
    /// Declares something of this kind under this name, as the call for its kind does. Refused as
    /// [`Interner::declare_trait`] is. The name, and a function's signature, have to be of this interner;
    /// [`Interner::owns_symbol`] and [`Interner::owns_signature`] test it.
    pub fn declare(&mut self, kind: DeclarationKind, name: Symbol) -> Result<DefId, Refusal>
        requires name { name.number < size self.old.rows Table.Symbols }
        requires terms { AreParts (size self.old.rows) (declared_shapes kind) }
        ensures { Declares result (λ id. id.number) self.old self.new kind name }
    {
        let number = add_declaration(
            &mut self.order,
            self.limit,
            &mut self.declarations,
            Declaration { kind, name },
        )?;
        Ok(DefId::from_number(number))
    }

    /// Declares a trait of this name, with this many parameters, including the self type. The name has to be of this
    /// interner; [`Interner::owns_symbol`] tests it.
    ///
    /// Each call makes a new id, even if another declaration has the name. Refused with `TableFull` if there are as
    /// many declarations as there may be, and with `Memory`; then nothing changes.
    pub fn declare_trait(&mut self, name: Symbol, params: u32) -> Result<TraitId, Refusal>
        requires { name.number < size self.old.rows Table.Symbols }
        ensures { Declares result (λ id. id.number) self.old self.new (DeclarationKind.Trait params) name }
    {
        let id = self.declare(DeclarationKind::Trait { params }, name)?;
        Ok(TraitId::from_number(id.number()))
    }

    /// Declares an associated type of this trait, with this name, as [`Interner::declare_trait`] does.
    pub fn declare_assoc_ty(
        &mut self,
        name: Symbol,
        trait_id: TraitId,
    ) -> Result<TraitAssocTyId, Refusal>
        requires { name.number < size self.old.rows Table.Symbols }
        ensures { Declares result (λ id. id.number) self.old self.new (DeclarationKind.AssocTy trait_id) name }
    {
        let id = self.declare(DeclarationKind::AssocTy(trait_id), name)?;
        Ok(TraitAssocTyId::from_number(id.number()))
    }

    /// Declares an implementation, as [`Interner::declare_trait`] does.
    pub fn declare_impl(&mut self, name: Symbol) -> Result<ImplId, Refusal>
        requires { name.number < size self.old.rows Table.Symbols }
        ensures { Declares result (λ id. id.number) self.old self.new DeclarationKind.Impl name }
    {
        let id = self.declare(DeclarationKind::Impl, name)?;
        Ok(ImplId::from_number(id.number()))
    }

    /// Declares an associated type of this inherent implementation, with this name, as [`Interner::declare_trait`]
    /// does.
    pub fn declare_inherent(
        &mut self,
        name: Symbol,
        impl_id: ImplId,
    ) -> Result<InherentAssocTyId, Refusal>
        requires { name.number < size self.old.rows Table.Symbols }
        ensures { Declares result (λ id. id.number) self.old self.new (DeclarationKind.Inherent impl_id) name }
    {
        let id = self.declare(DeclarationKind::Inherent(impl_id), name)?;
        Ok(InherentAssocTyId::from_number(id.number()))
    }

    /// Declares a struct, an enum or a union, as [`Interner::declare_trait`] does.
    pub fn declare_adt(&mut self, name: Symbol) -> Result<AdtId, Refusal>
        requires { name.number < size self.old.rows Table.Symbols }
        ensures { Declares result (λ id. id.number) self.old self.new DeclarationKind.Adt name }
    {
        let id = self.declare(DeclarationKind::Adt, name)?;
        Ok(AdtId::from_number(id.number()))
    }

    /// Declares a function of this name and signature, as [`Interner::declare_trait`] does. The signature has to be of
    /// this interner; [`Interner::owns_signature`] tests it.
    pub fn declare_function(
        &mut self,
        name: Symbol,
        sig: EarlyBinder<Binder<FnSig>>,
    ) -> Result<FunctionId, Refusal>
        requires name { name.number < size self.old.rows Table.Symbols }
        requires sig { IsPart (size self.old.rows) (binder_shape fn_sig_shape sig.value) }
        ensures { Declares result (λ id. id.number) self.old self.new (DeclarationKind.Fn sig) name }
    {
        let id = self.declare(DeclarationKind::Fn(sig), name)?;
        Ok(FunctionId::from_number(id.number()))
    }

    /// Declares an opaque type, as [`Interner::declare_trait`] does.
    pub fn declare_opaque(&mut self, name: Symbol) -> Result<OpaqueTyId, Refusal>
        requires { name.number < size self.old.rows Table.Symbols }
        ensures { Declares result (λ id. id.number) self.old self.new DeclarationKind.Opaque name }
    {
        let id = self.declare(DeclarationKind::Opaque, name)?;
        Ok(OpaqueTyId::from_number(id.number()))
    }

    /// Declares a type alias whose bounds are checked, and which can always be normalized away, as
    /// [`Interner::declare_trait`] does.
    pub fn declare_free(&mut self, name: Symbol) -> Result<FreeTyAliasId, Refusal>
        requires { name.number < size self.old.rows Table.Symbols }
        ensures { Declares result (λ id. id.number) self.old self.new DeclarationKind.Free name }
    {
        let id = self.declare(DeclarationKind::Free, name)?;
        Ok(FreeTyAliasId::from_number(id.number()))
    }

    /// Declares a foreign type, as [`Interner::declare_trait`] does.
    pub fn declare_foreign(&mut self, name: Symbol) -> Result<ForeignId, Refusal>
        requires { name.number < size self.old.rows Table.Symbols }
        ensures { Declares result (λ id. id.number) self.old self.new DeclarationKind.Foreign name }
    {
        let id = self.declare(DeclarationKind::Foreign, name)?;
        Ok(ForeignId::from_number(id.number()))
    }

    /// Declares a closure, as [`Interner::declare_trait`] does.
    pub fn declare_closure(&mut self, name: Symbol) -> Result<ClosureId, Refusal>
        requires { name.number < size self.old.rows Table.Symbols }
        ensures { Declares result (λ id. id.number) self.old self.new DeclarationKind.Closure name }
    {
        let id = self.declare(DeclarationKind::Closure, name)?;
        Ok(ClosureId::from_number(id.number()))
    }

    /// Declares a closure that returns a coroutine, as [`Interner::declare_trait`] does.
    pub fn declare_coroutine_closure(&mut self, name: Symbol) -> Result<CoroutineClosureId, Refusal>
        requires { name.number < size self.old.rows Table.Symbols }
        ensures { Declares result (λ id. id.number) self.old self.new DeclarationKind.CoroutineClosure name }
    {
        let id = self.declare(DeclarationKind::CoroutineClosure, name)?;
        Ok(CoroutineClosureId::from_number(id.number()))
    }

    /// Declares a coroutine, as [`Interner::declare_trait`] does.
    pub fn declare_coroutine(&mut self, name: Symbol) -> Result<CoroutineId, Refusal>
        requires { name.number < size self.old.rows Table.Symbols }
        ensures { Declares result (λ id. id.number) self.old self.new DeclarationKind.Coroutine name }
    {
        let id = self.declare(DeclarationKind::Coroutine, name)?;
        Ok(CoroutineId::from_number(id.number()))
    }

    /// Declares a constant whose value is computed on demand, as [`Interner::declare_trait`] does.
    pub fn declare_const(&mut self, name: Symbol) -> Result<UnevaluatedConstId, Refusal>
        requires { name.number < size self.old.rows Table.Symbols }
        ensures { Declares result (λ id. id.number) self.old self.new DeclarationKind.Const name }
    {
        let id = self.declare(DeclarationKind::Const, name)?;
        Ok(UnevaluatedConstId::from_number(id.number()))
    }

    /// Declares a parameter of a type, a region or a constant, as [`Interner::declare_trait`] does.
    pub fn declare_param(&mut self, name: Symbol) -> Result<DefId, Refusal>
        requires { name.number < size self.old.rows Table.Symbols }
        ensures { Declares result (λ id. id.number) self.old self.new DeclarationKind.Param name }
    {
        self.declare(DeclarationKind::Param, name)
    }
}

impl Interner {
    /// Returns whether `id` is the id of a declaration of this interner.
    pub fn owns_def_id(&self, id: DefId) -> bool
        ensures { IsTrue result ↔ (id.number < size self.now.rows Table.Declarations) }
    {
        (id.number() as usize) < self.declarations.len()
    }

    /// Returns whether a bound region has no declaration, or one of this interner.
    pub fn owns_region_item(&self, kind: &BoundRegionKind) -> bool
        ensures { IsTrue result ↔ IsDeclaredRegion self.now.rows kind.now }
    {
        match kind {
            BoundRegionKind::Named(id) => self.owns_def_id(*id),
            _ => true,
        }
    }

    /// Returns the declaration of an id, borrowed from the interner. The id has to be of this interner;
    /// [`Interner::owns_def_id`] tests it.
    pub fn declaration(&self, id: DefId) -> &Declaration
        requires { id.number < size self.now.rows Table.Declarations }
        ensures at { IsAt self.now.rows (declared_row id.number result.now) id.number }
        ensures is { result.now ≡ declared_at self.now.rows id }
    {
        match self.declarations.get(id.number() as usize) {
            Some(declaration) => declaration,
            None => unreachable!(),
        }
    }

    /// Returns the name of a declaration. The id has to be of this interner; [`Interner::owns_def_id`] tests it.
    pub fn item_name(&self, id: DefId) -> Symbol
        requires { id.number < size self.now.rows Table.Declarations }
        ensures is { result ≡ (declared_at self.now.rows id).name }
        ensures in_range { result.number < size self.now.rows Table.Symbols }
    {
        self.are_rows();
        self.declaration(id).name
    }

    /// Returns the signature of a function, as it was declared. The function has to be of this interner;
    /// [`Interner::owns_function_id`] tests it.
    pub fn fn_sig_of(&self, id: FunctionId) -> EarlyBinder<Binder<FnSig>>
        requires { IsOfSort self.now.rows DeclarationSort.Fn id.number }
        ensures is { (declared_at self.now.rows (record { number = id.number })).kind ≡ DeclarationKind.Fn result }
        ensures in_range { IsPart (size self.now.rows) (binder_shape fn_sig_shape result.value) }
    {
        self.are_rows();
        match self.declaration(DefId::from(id)).kind {
            DeclarationKind::Fn(sig) => sig,
            _ => unreachable!(),
        }
    }

    /// Returns the trait that an associated type was declared in. The associated type has to be of this interner;
    /// [`Interner::owns_trait_assoc_ty_id`] tests it.
    pub fn projection_parent(&self, id: TraitAssocTyId) -> TraitId
        requires { IsOfSort self.now.rows DeclarationSort.AssocTy id.number }
        ensures { (declared_at self.now.rows (record { number = id.number })).kind ≡ DeclarationKind.AssocTy result }
    {
        match self.declaration(DefId::from(id)).kind {
            DeclarationKind::AssocTy(parent) => parent,
            _ => unreachable!(),
        }
    }

    /// Returns which alias the declaration is, if it is one. The id has to be of this interner;
    /// [`Interner::owns_def_id`] tests it.
    pub fn alias_kind(&self, id: DefId) -> Option<AliasTyKind>
        requires { id.number < size self.now.rows Table.Declarations }
        ensures { result ≡ alias_of (sort_of (declared_at self.now.rows id).kind) id.number }
    {
        let number = id.number();
        match self.declaration(id).kind.sort() {
            DeclarationSort::AssocTy => Some(AliasTyKind::Projection {
                def_id: TraitAssocTyId::from_number(number),
            }),
            DeclarationSort::Inherent => Some(AliasTyKind::Inherent {
                def_id: InherentAssocTyId::from_number(number),
            }),
            DeclarationSort::Opaque => Some(AliasTyKind::Opaque {
                def_id: OpaqueTyId::from_number(number),
            }),
            DeclarationSort::Free => Some(AliasTyKind::Free {
                def_id: FreeTyAliasId::from_number(number),
            }),
            _ => None,
        }
    }

    // Returns whether the name is `'_`.
    fn is_anonymous(&self, name: Symbol) -> bool
        requires { name.number < size self.now.rows Table.Symbols }
        ensures { result ≡ is_anonymous self.now.rows name }
    {
        self.are_rows();
        name == Symbol::default()
    }
}

/// Names of bound regions. If the region is declared, its declaration has to be of the interner;
/// [`Interner::owns_region_item`] tests it.
pub trait RegionName: Sized {
    // The region's kind.
    ghost region_kind: { Self → BoundRegionKind };

    /// Returns the name of the region's declaration or, without a declaration, the name that the region is printed by.
    /// Returns `None` if the region has neither, or if its declaration has the name `'_`.
    fn get_name(self, cx: &Interner) -> Option<Symbol>
        requires { IsDeclaredRegion cx.now.rows (region_kind self) }
        ensures { result ≡ title cx.now.rows (region_kind self) };

    /// Returns whether [`RegionName::get_name`] returns a name.
    fn is_named(self, cx: &Interner) -> bool
        requires { IsDeclaredRegion cx.now.rows (region_kind self) }
        ensures { result ≡ is_some (title cx.now.rows (region_kind self)) };
}

impl RegionName for BoundRegionKind {
    ghost region_kind = { λ kind. kind };

    fn get_name(self, cx: &Interner) -> Option<Symbol> {
        match self {
            BoundRegionKind::Named(id) => {
                let name = cx.item_name(id);
                if cx.is_anonymous(name) {
                    None
                } else {
                    Some(name)
                }
            }
            BoundRegionKind::NamedForPrinting(name) => Some(name),
            _ => None,
        }
    }

    fn is_named(self, cx: &Interner) -> bool {
        self.get_name(cx).is_some()
    }
}

/// Kinds of aliases, by the declarations of their ids.
pub trait AliasOfId: Sized {
    // The alias that a declaration of this sort and number is, if it is one.
    ghost of_sort: { DeclarationSort → ℕ → Option Self };

    /// Returns which alias the declaration is, if it is one, as [`Interner::alias_kind`] does. The id has to be of this
    /// interner; [`Interner::owns_def_id`] tests it.
    fn new_from_def_id(cx: &Interner, def_id: DefId) -> Option<Self>
        requires { def_id.number < size cx.now.rows Table.Declarations }
        ensures { result ≡ of_sort (sort_of (declared_at cx.now.rows def_id).kind) def_id.number };
}

impl AliasOfId for AliasTyKind {
    ghost of_sort = { alias_of };

    fn new_from_def_id(cx: &Interner, def_id: DefId) -> Option<AliasTyKind> {
        cx.alias_kind(def_id)
    }
}
