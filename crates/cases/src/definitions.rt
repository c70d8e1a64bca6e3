//! Lines that define data types.

use crate::containers::type_at;
use case_lines::words::{Words, position};
use test_terms::NOT_OWNED;
use type_terms::{
    AdtId, Answer, DeclarationSort, EarlyBinder, FieldDef, Interner, Refusal, VariantDef,
};

/// Returns whether the data type that is declared at the position has the variants of the line. It gets them if it has
/// none yet.
pub fn defined(
    cx: &mut Interner,
    answers: &[Answer],
    position: u32,
    line: &str,
) -> Result<bool, Refusal> {
    let id = data_type_at(answers, position)?;
    let variants = variants(cx, answers, line)?;
    if cx.is_defined(id) {
        return Ok(has_variants(cx, id, variants.as_slice()));
    }
    if !cx.owns_adt_id(id)
        || !Interner::fits_declaration(variants.as_slice())
        || !cx.owns_variants(variants.as_slice())
    {
        return Err(NOT_OWNED);
    }
    cx.define_adt(id, EarlyBinder::bind(variants))?;
    Ok(true)
}

// Returns the data type that is declared at the position.
fn data_type_at(answers: &[Answer], position: u32) -> Result<AdtId, Refusal> {
    let index = (position as usize).checked_sub(1).ok_or(NOT_OWNED)?;
    match answers.get(index) {
        Some(Answer::Id(DeclarationSort::Adt, id)) => Ok(AdtId::from_number(id.number())),
        _ => Err(NOT_OWNED),
    }
}

// Returns the variants of a line, separated by ` | `.
fn variants(cx: &mut Interner, answers: &[Answer], line: &str) -> Result<Vec<VariantDef>, Refusal> {
    let mut variants = Vec::new(cx.allocator());
    for part in line.split(" | ") {
        if !part.is_empty() {
            variants.push(variant(cx, answers, part)?)?;
        }
    }
    Ok(variants)
}

// Returns the variant of a part such as `Some 0:%2`. The first word is its name, or `_` if it has none.
fn variant(cx: &mut Interner, answers: &[Answer], part: &str) -> Result<VariantDef, Refusal> {
    let mut words = Words::new(part);
    let name = match words.word() {
        "_" => None,
        text => Some(cx.symbol(text)?),
    };
    let mut fields = Vec::new(cx.allocator());
    for word in words.rest().split(" ") {
        if !word.is_empty() {
            fields.push(field(cx, answers, word)?)?;
        }
    }
    Ok(VariantDef { name, fields })
}

// Returns the field of a word such as `0:%2`: its name, and the position of its type.
fn field(cx: &mut Interner, answers: &[Answer], word: &str) -> Result<FieldDef, Refusal> {
    let (name, digits) = word.split_once(":").ok_or(NOT_OWNED)?;
    let name = cx.symbol(name)?;
    let position = position(digits).map_err(|_| NOT_OWNED)?;
    let ty = type_at(answers, position)?;
    Ok(FieldDef { name, ty })
}

// Returns whether the data type has these variants, with these fields.
fn has_variants(cx: &Interner, id: AdtId, variants: &[VariantDef]) -> bool {
    if !cx.is_defined(id) {
        return false;
    }
    let defined = cx.adt_variants(id).skip_binder();
    defined.len() == variants.len()
        && defined.iter().zip(variants.iter()).all(|(one, other)| {
            one.name == other.name && one.fields.as_slice() == other.fields.as_slice()
        })
}
