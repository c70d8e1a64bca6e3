//! The tables, and the order in which entries were added.
ghost use Rattle.tt_interner.specs.Stored.{anonymous_text};
ghost use Rattle.std.specs.Prelude.{
  ◌≡◌,
  ℕ,
  ◌⊎◌,
  ◌<◌,
  ◌≤◌,
  [],
  ◌∷◌,
  ◌++◌,
  None,
  Some,
  IfOk,
  OnOk,
  OnErr,
  IfErr,
  IfSome,
  slice_get,
  length,
};
ghost use Rattle.std.specs.Map.{lookup};
ghost use Rattle.std.specs.Cmp.Lexicographic.{pointwise};
ghost use Rattle.std.specs.Str.{bytes_eq};
ghost use Rattle.std.specs.String.{string_bytes};
ghost use Rattle.tt_interner.specs.Tables.{listed_by, no_info};
ghost use Rattle.indexmap.specs.IndexMap.{get, get_by, index_of, index_of_by, keys, values, index_map_len};

use indexmap::IndexMap;
use smallvec::SmallVec;
use std::alloc::Global;
use std::hash::Hash;
use tt_flags::FlagComputation;
use tt_index::Refusal;
use tt_kinds::{Table, Ty};

// The greatest number of types of a short list, which its row keeps in place.
const MOST_IN_ROW: usize = 4;

/// The types of a list. Up to four of them are kept in place, so a short list takes no memory of its own.
pub(crate) type TyList = SmallVec<Ty, MOST_IN_ROW>;

/// Adds a new entry to a table that has fewer than `limit` entries, records the table in the order, and returns the
/// entry's number. A refused call changes neither the table nor the order.
pub(crate) fn add<K: Eq + Hash + Drop, V: Drop>(
    order: &mut Vec<Table>,
    limit: u32,
    table: Table,
    entries: &mut IndexMap<K, V>,
    key: K,
    value: V,
) -> Result<u32, Refusal>
    requires { get K.eq entries.old key ≡ None }
    // On success:
    ensures order { OnOk result (order.new.items ≡ order.old.items ++ table ∷ []) }
    ensures entries { OnOk result (entries.new.entries ≡ entries.old.entries ++ (key, value) ∷ []) }
    ensures number { IfOk result (λ n. (n ≡ length entries.old.entries) × (n < limit)) }
    // On a refusal:
    ensures order_stays { OnErr result (order.new.items ≡ order.old.items) }
    ensures entries_stay { OnErr result (entries.new.entries ≡ entries.old.entries) }
    ensures cause { IfErr result (λ e. (e ≡ Refusal.Memory)
        ⊎ ((e ≡ Refusal.TableFull) × (limit ≤ length entries.old.entries))) }
    // In a full table:
    ensures full { limit ≤ length entries.old.entries → result ≡ Err Refusal.TableFull }
{
    let number = entries.len();
    if number >= limit as usize {
        return Err(Refusal::TableFull);
    }
    match order.reserve(1) {
        Ok(()) => {}
        Err(_) => return Err(Refusal::Memory),
    }
    match entries.insert(key, value) {
        Ok(_) => {}
        Err(_) => return Err(Refusal::Memory),
    }
    match order.push(table) {
        Ok(()) => Ok(number as u32),
        Err(_) => unreachable!(),
    }
}

/// Finds a key in a table that has at most `limit` entries, or adds it as `add` does, and returns the entry's number.
/// If there is room, this takes one look-up. A key that is there has to have the same information, and is found without
/// growth.
pub(crate) fn find_or_insert<K: Eq + Hash + Drop>(
    order: &mut Vec<Table>,
    limit: u32,
    table: Table,
    entries: &mut IndexMap<K, FlagComputation>,
    key: K,
    info: FlagComputation,
) -> Result<u32, Refusal>
    requires few { length entries.old.entries ≤ limit }
    requires same { (there : FlagComputation) → get K.eq entries.old key ≡ Some there → there ≡ info }
    // If there is such a row:
    ensures found { (n : ℕ) → index_of K.eq entries.old key ≡ Some n
        → (result ≡ Ok n) × (order.new.items ≡ order.old.items) × (entries.new.entries ≡ entries.old.entries) }
    // On success, if there is none:
    ensures order { index_of K.eq entries.old key ≡ None
        → OnOk result (order.new.items ≡ order.old.items ++ table ∷ []) }
    ensures entries { index_of K.eq entries.old key ≡ None
        → OnOk result (entries.new.entries ≡ entries.old.entries ++ (key, info) ∷ []) }
    ensures number { index_of K.eq entries.old key ≡ None
        → IfOk result (λ n. (n ≡ length entries.old.entries) × (n < limit)) }
    // On a refusal:
    ensures order_stays { OnErr result (order.new.items ≡ order.old.items) }
    ensures entries_stay { OnErr result (entries.new.entries ≡ entries.old.entries) }
    ensures cause { IfErr result (λ e. (e ≡ Refusal.Memory)
        ⊎ ((e ≡ Refusal.TableFull) × (limit ≤ length entries.old.entries))) }
    // In a full table:
    ensures full { index_of K.eq entries.old key ≡ None
        → limit ≤ length entries.old.entries
        → result ≡ Err Refusal.TableFull }
{
    if entries.len() >= limit as usize {
        return find_or(entries, &key, Refusal::TableFull);
    }
    // A key that is there needs no room in the order, so it is looked up before the order grows.
    if order.len() >= order.capacity() {
        match find_or(entries, &key, Refusal::Memory) {
            Ok(number) => return Ok(number),
            Err(_) => {}
        }
        match order.reserve(1) {
            Ok(()) => {}
            Err(_) => return Err(Refusal::Memory),
        }
    }
    let place = match entries.insert_full(key, info) {
        Ok(place) => place,
        Err(_) => return Err(Refusal::Memory),
    };
    match place {
        (number, Some(_)) => Ok(number as u32),
        (number, None) => match order.push(table) {
            Ok(()) => Ok(number as u32),
            Err(_) => unreachable!(),
        },
    }
}

/// Finds or adds a kind in a table of kinds, as `find_or_insert` does.
#[inline(always)]
pub(crate) fn find_or_add<K: Copy + Eq + Hash + Drop>(
    order: &mut Vec<Table>,
    limit: u32,
    table: Table,
    entries: &mut IndexMap<K, FlagComputation>,
    kind: &K,
    info: FlagComputation,
) -> Result<u32, Refusal>
    requires few { length entries.old.entries ≤ limit }
    requires same { (there : FlagComputation) → get K.eq entries.old kind.now ≡ Some there → there ≡ info }
    // If there is such a row:
    ensures found { (n : ℕ) → index_of K.eq entries.old kind.now ≡ Some n
        → (result ≡ Ok n) × (order.new.items ≡ order.old.items) × (entries.new.entries ≡ entries.old.entries) }
    // On success, if there is none:
    ensures order { index_of K.eq entries.old kind.now ≡ None
        → OnOk result (order.new.items ≡ order.old.items ++ table ∷ []) }
    ensures entries { index_of K.eq entries.old kind.now ≡ None
        → OnOk result (entries.new.entries ≡ entries.old.entries ++ (kind.now, info) ∷ []) }
    ensures number { index_of K.eq entries.old kind.now ≡ None
        → IfOk result (λ n. (n ≡ length entries.old.entries) × (n < limit)) }
    // On a refusal:
    ensures order_stays { OnErr result (order.new.items ≡ order.old.items) }
    ensures entries_stay { OnErr result (entries.new.entries ≡ entries.old.entries) }
    ensures cause { IfErr result (λ e. (e ≡ Refusal.Memory)
        ⊎ ((e ≡ Refusal.TableFull) × (limit ≤ length entries.old.entries))) }
    // In a full table:
    ensures full { index_of K.eq entries.old kind.now ≡ None
        → limit ≤ length entries.old.entries
        → result ≡ Err Refusal.TableFull }
{
    find_or_insert(order, limit, table, entries, *kind, info)
}

// Returns the number of a key in a table, or the refusal if it isn't there.
#[inline(never)]
fn find_or<K: Eq + Hash + Drop>(
    entries: &IndexMap<K, FlagComputation>,
    key: &K,
    refusal: Refusal,
) -> Result<u32, Refusal>
    requires { length entries.now.entries ≤ 4294967295 }
    ensures found { (n : ℕ) → index_of K.eq entries.now key.now ≡ Some n → result ≡ Ok n }
    ensures absent { index_of K.eq entries.now key.now ≡ None → result ≡ Err refusal }
    ensures cause { IfErr result (λ e. e ≡ refusal) }
{
    match entries.get_index_of(key) {
        Some(number) => Ok(number as u32),
        None => Err(refusal),
    }
}

/// Adds a new list to a table of lists, as `add` does.
pub(crate) fn add_list<T: Copy + Eq + Hash + Drop>(
    order: &mut Vec<Table>,
    limit: u32,
    table: Table,
    entries: &mut IndexMap<Vec<T>, FlagComputation>,
    items: &[T],
    info: FlagComputation,
) -> Result<u32, Refusal>
    requires { lookup (λ k. pointwise T.eq items.now k.items) entries.old.entries ≡ None }
    // On success:
    ensures order { OnOk result (order.new.items ≡ order.old.items ++ table ∷ []) }
    ensures entries { OnOk result (listed_by (λ k. k.items) entries.new.entries
        ≡ listed_by (λ k. k.items) entries.old.entries ++ (items.now, info) ∷ []) }
    ensures number { IfOk result (λ n. (n ≡ length entries.old.entries) × (n < limit)) }
    // On a refusal:
    ensures order_stays { OnErr result (order.new.items ≡ order.old.items) }
    ensures entries_stay { OnErr result (entries.new.entries ≡ entries.old.entries) }
    ensures cause { IfErr result (λ e. (e ≡ Refusal.Memory)
        ⊎ ((e ≡ Refusal.TableFull) × (limit ≤ length entries.old.entries))) }
    // In a full table:
    ensures full { limit ≤ length entries.old.entries → result ≡ Err Refusal.TableFull }
{
    if entries.len() >= limit as usize {
        return Err(Refusal::TableFull);
    }
    match Vec::from_slice(*entries.allocator(), items) {
        Ok(key) => add(order, limit, table, entries, key, info),
        Err(_) => Err(Refusal::Memory),
    }
}

/// Finds a list in a table of lists, or adds it as `add` does, and returns the entry's number.
pub(crate) fn find_or_add_list<T: Copy + Eq + Hash + Drop>(
    order: &mut Vec<Table>,
    limit: u32,
    table: Table,
    entries: &mut IndexMap<Vec<T>, FlagComputation>,
    items: &[T],
    info: FlagComputation,
) -> Result<u32, Refusal>
    requires { length entries.old.entries ≤ limit }
    // If there is such a row:
    ensures found { (n : ℕ) → index_of_by (λ k. pointwise T.eq items.now k.items) entries.old ≡ Some n
        → (result ≡ Ok n) × (order.new.items ≡ order.old.items) × (entries.new.entries ≡ entries.old.entries) }
    // On success, if there is none:
    ensures order { index_of_by (λ k. pointwise T.eq items.now k.items) entries.old ≡ None
        → OnOk result (order.new.items ≡ order.old.items ++ table ∷ []) }
    ensures entries { index_of_by (λ k. pointwise T.eq items.now k.items) entries.old ≡ None
        → OnOk result (listed_by (λ k. k.items) entries.new.entries
        ≡ listed_by (λ k. k.items) entries.old.entries ++ (items.now, info) ∷ []) }
    ensures number { index_of_by (λ k. pointwise T.eq items.now k.items) entries.old ≡ None
        → IfOk result (λ n. (n ≡ length entries.old.entries) × (n < limit)) }
    // On a refusal:
    ensures order_stays { OnErr result (order.new.items ≡ order.old.items) }
    ensures entries_stay { OnErr result (entries.new.entries ≡ entries.old.entries) }
    ensures cause { IfErr result (λ e. (e ≡ Refusal.Memory)
        ⊎ ((e ≡ Refusal.TableFull) × (limit ≤ length entries.old.entries))) }
    // In a full table:
    ensures full { index_of_by (λ k. pointwise T.eq items.now k.items) entries.old ≡ None
        → limit ≤ length entries.old.entries
        → result ≡ Err Refusal.TableFull }
{
    match entries.get_index_of(items) {
        Some(number) => Ok(number as u32),
        None => add_list(order, limit, table, entries, items, info),
    }
}

/// Finds a list of types, or adds it as `find_or_add_list` does. A short list is found or added with one look-up. A
/// longer one is looked up by a copy in `spare`, whose room is kept from call to call, so a list that is there is found
/// without allocation.
pub(crate) fn find_or_add_tys(
    order: &mut Vec<Table>,
    limit: u32,
    table: Table,
    entries: &mut IndexMap<TyList, FlagComputation>,
    spare: &mut TyList,
    items: &[Ty],
    info: FlagComputation,
) -> Result<u32, Refusal>
    requires few { length entries.old.entries ≤ limit }
    requires same { (there : FlagComputation)
        → get_by (λ k. pointwise ⟦<Ty as PartialEq>⟧.eq items.now k.items) entries.old ≡ Some there → there ≡ info }
    // If there is such a row:
    ensures found { (n : ℕ) → index_of_by (λ k. pointwise ⟦<Ty as PartialEq>⟧.eq items.now k.items) entries.old ≡ Some n
        → (result ≡ Ok n) × (order.new.items ≡ order.old.items) × (entries.new.entries ≡ entries.old.entries) }
    // On success, if there is none:
    ensures order { index_of_by (λ k. pointwise ⟦<Ty as PartialEq>⟧.eq items.now k.items) entries.old ≡ None
        → OnOk result (order.new.items ≡ order.old.items ++ table ∷ []) }
    ensures entries { index_of_by (λ k. pointwise ⟦<Ty as PartialEq>⟧.eq items.now k.items) entries.old ≡ None
        → OnOk result (listed_by (λ k. k.items) entries.new.entries
        ≡ listed_by (λ k. k.items) entries.old.entries ++ (items.now, info) ∷ []) }
    ensures number { index_of_by (λ k. pointwise ⟦<Ty as PartialEq>⟧.eq items.now k.items) entries.old ≡ None
        → IfOk result (λ n. (n ≡ length entries.old.entries) × (n < limit)) }
    // On a refusal:
    ensures order_stays { OnErr result (order.new.items ≡ order.old.items) }
    ensures entries_stay { OnErr result (entries.new.entries ≡ entries.old.entries) }
    ensures cause { IfErr result (λ e. (e ≡ Refusal.Memory)
        ⊎ ((e ≡ Refusal.TableFull) × (limit ≤ length entries.old.entries))) }
    // In a full table:
    ensures full { index_of_by (λ k. pointwise ⟦<Ty as PartialEq>⟧.eq items.now k.items) entries.old ≡ None
        → limit ≤ length entries.old.entries
        → result ≡ Err Refusal.TableFull }
{
    if items.len() > MOST_IN_ROW {
        return match find_long(entries, spare, items) {
            Some(number) => Ok(number as u32),
            None => add_tys(order, limit, table, entries, items, info),
        };
    }
    let key = short_key(*entries.allocator(), items);
    find_or_insert(order, limit, table, entries, key, info)
}

// Returns the key of a short list, which takes no memory of its own.
#[inline(always)]
fn short_key(alloc: Global, items: &[Ty]) -> TyList
    requires { length items.now ≤ 4 }
    ensures { result.items ≡ items.now }
{
    let mut key: TyList = SmallVec::new(alloc);
    for item in items {
        key.push_reserved(*item);
    }
    key
}

// Adds a new list of types, as `add` does.
fn add_tys(
    order: &mut Vec<Table>,
    limit: u32,
    table: Table,
    entries: &mut IndexMap<TyList, FlagComputation>,
    items: &[Ty],
    info: FlagComputation,
) -> Result<u32, Refusal>
    requires { lookup (λ k. pointwise ⟦<Ty as PartialEq>⟧.eq items.now k.items) entries.old.entries ≡ None }
    // On success:
    ensures order { OnOk result (order.new.items ≡ order.old.items ++ table ∷ []) }
    ensures entries { OnOk result (listed_by (λ k. k.items) entries.new.entries
        ≡ listed_by (λ k. k.items) entries.old.entries ++ (items.now, info) ∷ []) }
    ensures number { IfOk result (λ n. (n ≡ length entries.old.entries) × (n < limit)) }
    // On a refusal:
    ensures order_stays { OnErr result (order.new.items ≡ order.old.items) }
    ensures entries_stay { OnErr result (entries.new.entries ≡ entries.old.entries) }
    ensures cause { IfErr result (λ e. (e ≡ Refusal.Memory)
        ⊎ ((e ≡ Refusal.TableFull) × (limit ≤ length entries.old.entries))) }
    // In a full table:
    ensures full { limit ≤ length entries.old.entries → result ≡ Err Refusal.TableFull }
{
    if entries.len() >= limit as usize {
        return Err(Refusal::TableFull);
    }
    match SmallVec::from_slice(*entries.allocator(), items) {
        Ok(key) => add(order, limit, table, entries, key, info),
        Err(_) => Err(Refusal::Memory),
    }
}

// Returns the number of a list, if it is there. The list is looked up by a copy, or without one if there is no memory
// for the copy.
fn find_long(
    entries: &IndexMap<TyList, FlagComputation>,
    spare: &mut TyList,
    items: &[Ty],
) -> Option<usize>
    ensures index { result ≡ index_of_by (λ k. pointwise ⟦<Ty as PartialEq>⟧.eq items.now k.items) entries.now }
    ensures within { IfSome result (λ i. i < index_map_len entries.now) }
{
    spare.clear();
    match spare.extend_from_slice(items) {
        Ok(()) => entries.get_index_of(&*spare),
        Err(_) => find_in_turn(entries, items),
    }
}

// Returns the number of a list, if it is there, by a comparison with each key in turn.
#[cold]
#[inline(never)]
fn find_in_turn<T: Eq + Hash>(
    entries: &IndexMap<SmallVec<T, MOST_IN_ROW>, FlagComputation>,
    items: &[T],
) -> Option<usize>
    ensures index { result ≡ index_of_by (λ k. pointwise T.eq items.now k.items) entries.now }
    ensures within { IfSome result (λ i. i < index_map_len entries.now) }
{
    entries.keys().position(
        |key: &SmallVec<T, MOST_IN_ROW>| -> bool
            ensures { result ≡ pointwise T.eq items.entry.now key.now.items }
        { items == key.as_slice() },
    )
}

/// Adds a new text to the table of texts, as `add` does.
pub(crate) fn add_text(
    order: &mut Vec<Table>,
    limit: u32,
    table: Table,
    entries: &mut IndexMap<String, ()>,
    text: &str,
) -> Result<u32, Refusal>
    requires { lookup (λ k. bytes_eq text.now (string_bytes k)) entries.old.entries ≡ None }
    // On success:
    ensures order { OnOk result (order.new.items ≡ order.old.items ++ table ∷ []) }
    ensures entries { OnOk result (listed_by (λ k. string_bytes k) entries.new.entries
        ≡ listed_by (λ k. string_bytes k) entries.old.entries ++ (text.now, tt) ∷ []) }
    ensures number { IfOk result (λ n. (n ≡ length entries.old.entries) × (n < limit)) }
    // On a refusal:
    ensures order_stays { OnErr result (order.new.items ≡ order.old.items) }
    ensures entries_stay { OnErr result (entries.new.entries ≡ entries.old.entries) }
    ensures cause { IfErr result (λ e. (e ≡ Refusal.Memory)
        ⊎ ((e ≡ Refusal.TableFull) × (limit ≤ length entries.old.entries))) }
    // In a full table:
    ensures full { limit ≤ length entries.old.entries → result ≡ Err Refusal.TableFull }
{
    if entries.len() >= limit as usize {
        return Err(Refusal::TableFull);
    }
    match String::from_str(*entries.allocator(), text) {
        Ok(key) => add(order, limit, table, entries, key, ()),
        Err(_) => Err(Refusal::Memory),
    }
}

/// Returns a table of the empty list alone, and records it in the order.
pub(crate) fn first_list<T: Copy + Eq + Hash + Drop>(
    alloc: Global,
    order: &mut Vec<Table>,
    table: Table,
) -> Result<IndexMap<Vec<T>, FlagComputation>, Refusal>
    ensures order { OnOk result (order.new.items ≡ order.old.items ++ table ∷ []) }
    ensures entries { IfOk result (λ map. listed_by (λ k. k.items) map.entries ≡ ([], no_info) ∷ []) }
    ensures cause { IfErr result (λ e. e ≡ Refusal.Memory) }
{
    let mut entries = IndexMap::new(alloc);
    let info = FlagComputation::new();
    match add_list(order, 1, table, &mut entries, &[], info) {
        Ok(_) => Ok(entries),
        Err(_) => Err(Refusal::Memory),
    }
}

/// Returns a table of the empty list of types alone, as `first_list` does.
pub(crate) fn first_ty_list(
    alloc: Global,
    order: &mut Vec<Table>,
    table: Table,
) -> Result<IndexMap<TyList, FlagComputation>, Refusal>
    ensures order { OnOk result (order.new.items ≡ order.old.items ++ table ∷ []) }
    ensures entries { IfOk result (λ map. listed_by (λ k. k.items) map.entries ≡ ([], no_info) ∷ []) }
    ensures cause { IfErr result (λ e. e ≡ Refusal.Memory) }
{
    let mut entries = IndexMap::new(alloc);
    match add(
        order,
        1,
        table,
        &mut entries,
        SmallVec::new(alloc),
        FlagComputation::new(),
    ) {
        Ok(_) => Ok(entries),
        Err(_) => Err(Refusal::Memory),
    }
}

/// Returns the table of the text `'_` alone, and records it in the order.
pub(crate) fn first_text(
    alloc: Global,
    order: &mut Vec<Table>,
    table: Table,
) -> Result<IndexMap<String, ()>, Refusal>
    ensures order { OnOk result (order.new.items ≡ order.old.items ++ table ∷ []) }
    ensures entries { IfOk result (λ map. listed_by (λ k. string_bytes k) map.entries ≡ (anonymous_text, tt) ∷ []) }
    ensures cause { IfErr result (λ e. e ≡ Refusal.Memory) }
{
    let mut entries = IndexMap::new(alloc);
    match add_text(order, 1, table, &mut entries, "'_") {
        Ok(_) => Ok(entries),
        Err(_) => Err(Refusal::Memory),
    }
}

/// Returns the key of this number.
pub(crate) fn key_at<K: Eq + Hash, V>(entries: &IndexMap<K, V>, number: u32) -> &K
    requires { number < index_map_len entries.now }
    ensures { slice_get (keys entries.now) number ≡ Some result.now }
{
    match entries.get_index(number as usize) {
        Some((key, _)) => key,
        None => unreachable!(),
    }
}

/// Returns the cached information of the entry of this number.
pub(crate) fn info_at<K: Eq + Hash>(
    entries: &IndexMap<K, FlagComputation>,
    number: u32,
) -> FlagComputation
    requires { number < index_map_len entries.now }
    ensures { slice_get (values entries.now) number ≡ Some result }
{
    match entries.get_index(number as usize) {
        Some((_, info)) => *info,
        None => unreachable!(),
    }
}
