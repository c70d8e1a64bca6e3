//! Texts and names.

use type_terms::{
    AdtId, BoundRegionKind, DeclarationSort, DefId, InternedText, Interner, Refusal, RegionName,
    Symbol, TraitId,
};

// Returns whether the symbol has this text.
fn has_text(cx: &Interner, symbol: Symbol, text: &str) -> bool {
    cx.owns(symbol) && symbol.as_str(cx) == text
}

/// A text has one symbol, and the symbol the text.
pub fn texts_are_symbols(cx: &mut Interner) -> Result<bool, Refusal> {
    let first = cx.symbol("first")?;
    let second = cx.symbol("second")?;
    let anonymous = cx.symbol("'_")?;
    Ok(
        has_text(cx, first, "first")
            && has_text(cx, second, "second")
            && cx.symbol("first")? == first
            && first != second
            && anonymous == Symbol::default(),
    )
}

// Returns a parameter of this name, as a region.
fn region(cx: &mut Interner, text: &str) -> Result<BoundRegionKind, Refusal> {
    let name = cx.symbol(text)?;
    Ok(BoundRegionKind::Named(cx.declare_param(name)?))
}

// Returns whether the region has this name, and `is_named` agrees.
fn is_called(cx: &Interner, region: BoundRegionKind, name: Option<Symbol>) -> bool {
    cx.owns_region_item(&region)
        && region.get_name(cx) == name
        && region.is_named(cx) == name.is_some()
}

/// A bound region is called by its declaration's name, unless that is `'_`.
pub fn regions_are_called(cx: &mut Interner) -> Result<bool, Refusal> {
    let named = region(cx, "'a")?;
    let anonymous = region(cx, "'_")?;
    let name = cx.symbol("'a")?;
    let printed = cx.symbol("'_")?;
    Ok(
        is_called(cx, named, Some(name))
            && is_called(cx, anonymous, None)
            && is_called(
                cx,
                BoundRegionKind::NamedForPrinting(printed),
                Some(printed),
            )
            && is_called(cx, BoundRegionKind::Anon, None)
            && is_called(cx, BoundRegionKind::ClosureEnv, None),
    )
}

// Declares a data type of this name.
fn data_type(cx: &mut Interner, text: &str) -> Result<AdtId, Refusal> {
    let name = cx.symbol(text)?;
    cx.declare_adt(name)
}

/// Two declarations of one name have two ids, which are of their sort alone.
pub fn ids_are_new(cx: &mut Interner) -> Result<bool, Refusal> {
    let first = data_type(cx, "Vec")?;
    let second = data_type(cx, "Vec")?;
    let name = cx.symbol("Vec")?;
    let id = DefId::from(first);
    Ok(
        first != second
            && cx.owns_def_id(id)
            && cx.item_name(id) == name
            && cx.owns_id(second)
            && !cx.owns_id(TraitId::from_number(first.number()))
            && !cx.owns_id_of_sort(id, DeclarationSort::Param)
            && !cx.owns_id(AdtId::from_number(second.number().wrapping_add(1))),
    )
}
