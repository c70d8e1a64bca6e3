//! Conversion of lists of children to typed lists.

ghost use Rattle.std.specs.Prelude.{◌≡◌, ◌<◌, ◌≤◌, length, slice_get, take, map, All, IfOk, Some};
ghost use Rattle.tt_kinds.specs.Parts.{child_in, child_sort, IsItem, IsItemOf};
ghost use Rattle.tt_kinds.specs.Shape.{AreParts};
ghost use Rattle.tt_kinds.specs.Kinds.{children_shapes};
ghost use Rattle.tt_kinds.specs.declared.table.TermTable.{TermTable};
ghost use Rattle.tt_kinds.specs.declared.table.TermTable.TheVariants as terms_of;
ghost use Rattle.tt_kinds.specs.declared.parts.Child.{Child};
ghost use Rattle.tt_interner.specs.Rows.{size};
ghost use Rattle.tt_interner.specs.Children.{arg_child};
ghost use Rattle.tt_interner.specs.Stored.{most_in_place, StoresList};

use crate::interner::Interner;
use std::alloc::{AllocError, Global};
use tt_index::Refusal;
use tt_kinds::handle::{ClauseRow, ConstRow, ExistentialRow, PatternRow, TypeRow};
use tt_kinds::{
    AnyHandle, Child, Clause, Const, GenericArg, GenericArgKind, Handle, IsTermRow, Pat,
    PolyExistentialPredicate, TermTable, Ty,
};

/// Returns the item at this place.
pub(crate) fn item_at<T: Copy>(items: &[T], index: usize) -> T
    requires { index < length items.now }
    ensures { slice_get items.now index ≡ Some result }
{
    items[index]
}

/// Returns the argument, as a child.
pub(crate) fn arg_child(arg: GenericArg) -> Child
    ensures { result ≡ arg_child arg }
{
    match arg.kind() {
        GenericArgKind::Lifetime(region) => Child::Region(region),
        GenericArgKind::Type(ty) => ty.child(),
        GenericArgKind::Const(constant) => constant.child(),
    }
}

/// An item of a list of one sort.
pub(crate) trait ListItem: Copy + Drop {
    ghost table: { TermTable };

    ghost as_child: { Self → Child };

    /// Returns the item that this child is.
    fn from_child(child: &Child) -> Self
        requires { IsItem table (child_sort child.now) }
        ensures { as_child result ≡ child.now };
}

/// The greatest number of items of a list that are collected without allocation.
pub(crate) const MOST_IN_PLACE: usize = 8;

/// An item of a list of one sort, with the calls that store such a list.
pub(crate) trait StoredItem: ListItem {
    /// Returns the stored list of the items that these children are. They are collected in place, so a list that is
    /// stored already is found without allocation.
    fn store_few(cx: &mut Interner, children: &[Child]) -> Result<AnyHandle, Refusal>
        requires parts { AreParts (size cx.old.rows) (children_shapes children.now) }
        requires fit { All (λ c. IsItem Self.table (child_sort c)) children.now }
        requires few { length children.now ≤ most_in_place }
        ensures { StoresList result cx.old cx.new Self.table children.now };

    /// Returns the stored list of these items, which have to be of the interner. A new list keeps the vector, unless it
    /// is a list of types.
    fn store(cx: &mut Interner, items: Vec<Self>) -> Result<AnyHandle, Refusal>
        requires { AreParts (size cx.old.rows) (children_shapes (map Self.as_child items.items)) }
        ensures { StoresList result cx.old cx.new Self.table (map Self.as_child items.items) };
}

/// A mark of handles that are items of lists of their own.
pub(crate) trait IsListed: IsTermRow {
    // The table of the lists.
    ghost LIST: { TermTable };

    ghost fits: { (t : TermTable) → IsItemOf LIST t → t ≡ Self.IsTermRow.TERM_TABLE };
}

impl IsListed for TypeRow {
    ghost LIST = { terms_of.TypeLists };

    ghost fits = { λ t h. h };
}

impl IsListed for ConstRow {
    ghost LIST = { terms_of.ConstLists };

    ghost fits = { λ t h. h };
}

impl IsListed for PatternRow {
    ghost LIST = { terms_of.PatternLists };

    ghost fits = { λ t h. h };
}

impl IsListed for ExistentialRow {
    ghost LIST = { terms_of.ExistentialLists };

    ghost fits = { λ t h. h };
}

impl IsListed for ClauseRow {
    ghost LIST = { terms_of.ClauseLists };

    ghost fits = { λ t h. h };
}

impl<K: IsListed> ListItem for Handle<K> {
    ghost table = { K.IsListed.LIST };

    ghost as_child = { child_in K.IsTermRow.TERM_TABLE };

    fn from_child(child: &Child) -> Handle<K> {
        child.handle()
    }
}

impl StoredItem for Ty {
    fn store_few(cx: &mut Interner, children: &[Child]) -> Result<AnyHandle, Refusal>
        requires parts { AreParts (size cx.old.rows) (children_shapes children.now) }
        requires fit { All (λ c. IsItem terms_of.TypeLists (child_sort c)) children.now }
        requires few { length children.now ≤ most_in_place }
        ensures { StoresList result cx.old cx.new terms_of.TypeLists children.now }
    {
        let mut places = [Ty::from_number(0); MOST_IN_PLACE];
        put_items(&mut places, children);
        let tys = cx.mk_tys(&places[..children.len()])?;
        Ok(tys.any())
    }

    fn store(cx: &mut Interner, items: Vec<Ty>) -> Result<AnyHandle, Refusal>
        requires { AreParts (size cx.old.rows) (children_shapes (map (child_in terms_of.Types) items.items)) }
        ensures { StoresList result cx.old cx.new terms_of.TypeLists (map (child_in terms_of.Types) items.items) }
    {
        let list = cx.mk_tys(items.as_slice())?;
        Ok(list.any())
    }
}

impl StoredItem for Const {
    fn store_few(cx: &mut Interner, children: &[Child]) -> Result<AnyHandle, Refusal>
        requires parts { AreParts (size cx.old.rows) (children_shapes children.now) }
        requires fit { All (λ c. IsItem terms_of.ConstLists (child_sort c)) children.now }
        requires few { length children.now ≤ most_in_place }
        ensures { StoresList result cx.old cx.new terms_of.ConstLists children.now }
    {
        let mut places = [Const::from_number(0); MOST_IN_PLACE];
        put_items(&mut places, children);
        let consts = cx.mk_consts(&places[..children.len()])?;
        Ok(consts.any())
    }

    fn store(cx: &mut Interner, items: Vec<Const>) -> Result<AnyHandle, Refusal>
        requires { AreParts (size cx.old.rows) (children_shapes (map (child_in terms_of.Consts) items.items)) }
        ensures { StoresList result cx.old cx.new terms_of.ConstLists (map (child_in terms_of.Consts) items.items) }
    {
        let list = cx.put_consts(items)?;
        Ok(list.any())
    }
}

impl StoredItem for Pat {
    fn store_few(cx: &mut Interner, children: &[Child]) -> Result<AnyHandle, Refusal>
        requires parts { AreParts (size cx.old.rows) (children_shapes children.now) }
        requires fit { All (λ c. IsItem terms_of.PatternLists (child_sort c)) children.now }
        requires few { length children.now ≤ most_in_place }
        ensures { StoresList result cx.old cx.new terms_of.PatternLists children.now }
    {
        let mut places = [Pat::from_number(0); MOST_IN_PLACE];
        put_items(&mut places, children);
        let pats = cx.mk_pat_list(&places[..children.len()])?;
        Ok(pats.any())
    }

    fn store(cx: &mut Interner, items: Vec<Pat>) -> Result<AnyHandle, Refusal>
        requires { AreParts (size cx.old.rows) (children_shapes (map (child_in terms_of.Patterns) items.items)) }
        ensures { StoresList result cx.old cx.new terms_of.PatternLists (map (child_in terms_of.Patterns) items.items) }
    {
        let list = cx.put_pat_list(items)?;
        Ok(list.any())
    }
}

impl StoredItem for PolyExistentialPredicate {
    fn store_few(cx: &mut Interner, children: &[Child]) -> Result<AnyHandle, Refusal>
        requires parts { AreParts (size cx.old.rows) (children_shapes children.now) }
        requires fit { All (λ c. IsItem terms_of.ExistentialLists (child_sort c)) children.now }
        requires few { length children.now ≤ most_in_place }
        ensures { StoresList result cx.old cx.new terms_of.ExistentialLists children.now }
    {
        let mut places = [PolyExistentialPredicate::from_number(0); MOST_IN_PLACE];
        put_items(&mut places, children);
        let predicates = cx.mk_existential_list(&places[..children.len()])?;
        Ok(predicates.any())
    }

    fn store(cx: &mut Interner, items: Vec<PolyExistentialPredicate>) -> Result<AnyHandle, Refusal>
        requires { AreParts (size cx.old.rows) (children_shapes (map (child_in terms_of.Existentials) items.items)) }
        ensures { StoresList result cx.old cx.new terms_of.ExistentialLists (map (child_in terms_of.Existentials) items.items) }
    {
        let list = cx.put_existentials(items)?;
        Ok(list.any())
    }
}

impl StoredItem for Clause {
    // The children may be any predicates, so each is tested.
    fn store_few(cx: &mut Interner, children: &[Child]) -> Result<AnyHandle, Refusal>
        requires parts { AreParts (size cx.old.rows) (children_shapes children.now) }
        requires fit { All (λ c. IsItem terms_of.ClauseLists (child_sort c)) children.now }
        requires few { length children.now ≤ most_in_place }
        ensures { StoresList result cx.old cx.new terms_of.ClauseLists children.now }
    {
        let mut places = [Clause::from_number(0); MOST_IN_PLACE];
        put_items(&mut places, children);
        let items = &places[..children.len()];
        cx.are_rows();
        if !cx.are_clauses(items) {
            return Err(Refusal::NotAClause);
        }
        let clauses = cx.mk_clauses(items)?;
        Ok(clauses.any())
    }

    fn store(cx: &mut Interner, items: Vec<Clause>) -> Result<AnyHandle, Refusal>
        requires { AreParts (size cx.old.rows) (children_shapes (map (child_in terms_of.Predicates) items.items)) }
        ensures { StoresList result cx.old cx.new terms_of.ClauseLists (map (child_in terms_of.Predicates) items.items) }
    {
        cx.are_rows();
        if !cx.are_clauses(items.as_slice()) {
            return Err(Refusal::NotAClause);
        }
        let list = cx.put_clauses(items)?;
        Ok(list.any())
    }
}

impl ListItem for GenericArg {
    ghost use Rattle.tt_interner.specs.Children.{arg_child};

    ghost table = { terms_of.ArgLists };

    ghost as_child = { arg_child };

    fn from_child(child: &Child) -> GenericArg {
        match child {
            Child::Region(region) => GenericArg::from(*region),
            Child::Stored(stored) => match stored.table {
                TermTable::Types => {
                    let ty: Ty = stored.typed();
                    GenericArg::from(ty)
                }
                TermTable::Consts => {
                    let constant: Const = stored.typed();
                    GenericArg::from(constant)
                }
                _ => unreachable!(),
            },
            Child::Absent => unreachable!(),
        }
    }
}

impl StoredItem for GenericArg {
    ghost use Rattle.tt_interner.specs.Children.{arg_child};

    fn store_few(cx: &mut Interner, children: &[Child]) -> Result<AnyHandle, Refusal>
        requires parts { AreParts (size cx.old.rows) (children_shapes children.now) }
        requires fit { All (λ c. IsItem terms_of.ArgLists (child_sort c)) children.now }
        requires few { length children.now ≤ most_in_place }
        ensures { StoresList result cx.old cx.new terms_of.ArgLists children.now }
    {
        let mut places = [GenericArg::from(Ty::from_number(0)); MOST_IN_PLACE];
        put_items(&mut places, children);
        let args = cx.mk_args(&places[..children.len()])?;
        Ok(args.any())
    }

    fn store(cx: &mut Interner, items: Vec<GenericArg>) -> Result<AnyHandle, Refusal>
        requires { AreParts (size cx.old.rows) (children_shapes (map arg_child items.items)) }
        ensures { StoresList result cx.old cx.new terms_of.ArgLists (map arg_child items.items) }
    {
        let list = cx.put_args(items)?;
        Ok(list.any())
    }
}

// Converts the children to items, and writes these to the first places.
fn put_items<T: ListItem>(places: &mut [T], children: &[Child])
    requires fit { All (λ c. IsItem T.table (child_sort c)) children.now }
    requires room { length children.now ≤ length places.old }
    ensures { map T.as_child (take (length children.now) places.new) ≡ children.now }
{
    for (i, child) in children.iter().enumerate() {
        places[i] = T::from_child(child);
    }
}

/// Returns the items that these children are.
pub(crate) fn collect<T: ListItem>(alloc: Global, children: &[Child]) -> Result<Vec<T>, AllocError>
    requires { All (λ c. IsItem T.table (child_sort c)) children.now }
    ensures { IfOk result (λ items. map T.as_child items.items ≡ children.now) }
{
    let mut items = Vec::with_capacity(alloc, children.len())?;
    for child in children {
        items.push(T::from_child(child))?;
    }
    Ok(items)
}

/// Returns the stored list of the items that these children are. More than [`MOST_IN_PLACE`] items are collected in a
/// vector.
pub(crate) fn store_items<T: StoredItem>(
    cx: &mut Interner,
    children: &[Child],
) -> Result<AnyHandle, Refusal>
    requires parts { AreParts (size cx.old.rows) (children_shapes children.now) }
    requires fit { All (λ c. IsItem T.table (child_sort c)) children.now }
    ensures { StoresList result cx.old cx.new T.table children.now }
{
    if children.len() <= MOST_IN_PLACE {
        return T::store_few(cx, children);
    }
    let items: Vec<T> = collect(cx.allocator(), children)?;
    T::store(cx, items)
}
