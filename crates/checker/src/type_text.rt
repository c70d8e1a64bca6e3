//! The texts of types, as a program's author writes them.
//!
//! A type can have far more parts than its source has letters: each `let b = (a, a);` doubles them. The interner stores
//! equal parts once, but a text repeats them, so its length is bounded.

ghost use Rattle.tt_kinds.specs.Kinds.{ty_shape};
ghost use Rattle.tt_interner.specs.Owned.{IsOwned};

use crate::failure::Failure;
use tt_interner::{InternedKind, InternedList, InternedText, Interner};
use tt_kinds::{DefId, GenericArg, Ty, TyKind};
use tt_print::IrPrint;

// The greatest number of names and marks in a type's text.
const MOST_PIECES: usize = 100;

// What is still to be written of a type's text.
#[derive(Clone, Copy)]
enum Piece {
    Type(Ty),
    // between two types
    Comma,
    // after the only type of a tuple
    OnlyComma,
    EndOfTuple,
    EndOfArguments,
}

/// Returns the text of the type, which is this interner's: without regions, and with `_` for what isn't known. What comes
/// after 100 names and marks is left out, and `..` is in its place.
pub fn text_of(cx: &Interner, ty: Ty) -> Result<String, Failure> {
    let mut text = String::new(cx.allocator());
    let mut pieces = Vec::new(cx.allocator());
    pieces.push(Piece::Type(ty))?;
    for _ in 0..MOST_PIECES {
        let Some(piece) = pieces.pop() else {
            return Ok(text);
        };
        write_piece(cx, &mut text, &mut pieces, piece)?;
    }
    if !pieces.is_empty() {
        text.push_str("..")?;
    }
    Ok(text)
}

// Writes the piece: of a type its beginning, whose rest is noted.
fn write_piece(
    cx: &Interner,
    text: &mut String,
    pieces: &mut Vec<Piece>,
    piece: Piece,
) -> Result<(), Failure> {
    match piece {
        Piece::Type(ty) => {
            // A part of a type of this interner is one too.
            if cx.owns_ty(ty) {
                write_type(cx, text, pieces, ty)?;
            }
        }
        Piece::Comma => text.push_str(", ")?,
        Piece::OnlyComma => text.push(',')?,
        Piece::EndOfTuple => text.push(')')?,
        Piece::EndOfArguments => text.push('>')?,
    }
    Ok(())
}

// Writes the beginning of the type, and notes its rest.
fn write_type(
    cx: &Interner,
    text: &mut String,
    pieces: &mut Vec<Piece>,
    ty: Ty,
) -> Result<(), Failure>
    requires { IsOwned ty_shape cx.now ty }
{
    match *ty.kind(cx) {
        TyKind::Infer(_) => text.push('_')?,
        TyKind::Ref(_, referent, _) => {
            text.push('&')?;
            pieces.push(Piece::Type(referent))?;
        }
        TyKind::Tuple(items) => {
            text.push('(')?;
            note_tuple(pieces, items.as_slice(cx))?;
        }
        TyKind::Adt(id, args) => {
            text.push_str(name_of(cx, id.into()))?;
            note_arguments(text, pieces, args.as_slice(cx))?;
        }
        TyKind::FnDef(id, args) => {
            text.push_str(name_of(cx, id.into()))?;
            note_arguments(text, pieces, args.as_slice(cx))?;
        }
        // The language's other types have no parts.
        _ => text.push_str(ty.to_text(cx)?.as_str())?,
    }
    Ok(())
}

// Notes the items of a tuple and its end, the last one first.
fn note_tuple(pieces: &mut Vec<Piece>, items: &[Ty]) -> Result<(), Failure> {
    pieces.push(Piece::EndOfTuple)?;
    if items.len() == 1 {
        pieces.push(Piece::OnlyComma)?;
    }
    let mut is_last = true;
    for item in items.iter().rev() {
        if !is_last {
            pieces.push(Piece::Comma)?;
        }
        pieces.push(Piece::Type(*item))?;
        is_last = false;
    }
    Ok(())
}

// Writes the beginning of a list of type arguments, and notes its rest. An empty list has no text.
fn note_arguments(
    text: &mut String,
    pieces: &mut Vec<Piece>,
    args: &[GenericArg],
) -> Result<(), Failure> {
    if args.is_empty() {
        return Ok(());
    }
    text.push('<')?;
    pieces.push(Piece::EndOfArguments)?;
    let mut is_last = true;
    for arg in args.iter().rev() {
        if let Some(ty) = arg.as_type() {
            if !is_last {
                pieces.push(Piece::Comma)?;
            }
            pieces.push(Piece::Type(ty))?;
            is_last = false;
        }
    }
    Ok(())
}

/// Returns the name of the function or data type of which the type is an instance, or an empty text if it is none.
pub fn item_name(cx: &Interner, ty: Ty) -> &str {
    if !cx.owns_ty(ty) {
        return "";
    }
    match *ty.kind(cx) {
        TyKind::Adt(id, _) => name_of(cx, id.into()),
        TyKind::FnDef(id, _) => name_of(cx, id.into()),
        _ => "",
    }
}

// Returns the name of an item. Each item of a program is declared.
fn name_of(cx: &Interner, id: DefId) -> &str {
    if !cx.owns_def_id(id) {
        return "";
    }
    let name = cx.declaration(id).name;
    if cx.owns_symbol(name) {
        name.as_str(cx)
    } else {
        ""
    }
}
