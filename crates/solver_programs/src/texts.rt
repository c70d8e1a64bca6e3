//! The texts of types and goals, as a script's author writes them.
//!
//! A type can have far more parts than its source has letters, since the interner stores equal parts once. A text repeats
//! them, so its length is bounded.

ghost use Rattle.tt_kinds.specs.Kinds.{ty_shape};
ghost use Rattle.tt_interner.specs.Owned.{IsOwned};

use std::alloc::AllocError;
use tt_index::TyVid;
use tt_interner::{InternedKind, InternedList, InternedText, Interner};
use tt_kinds::{DefId, GenericArg, InferTy, TraitPredicate, Ty, TyKind};
use tt_owned::Owned;
use tt_print::IrPrint;

// The greatest number of names and marks in a type's text.
const MOST_PIECES: usize = 200;

/// What inference variables are called: the first ones as in the goal that is answered, and further ones by numbers, in
/// the order in which they are met.
#[derive(Drop)]
pub struct Variables<'a> {
    pub names: Vec<&'a str>,
    pub others: Vec<usize>,
}

// What is still to be written of a type's text.
#[derive(Clone, Copy)]
enum Piece {
    Type(Ty),
    // between two types
    Comma,
    // after the only type of a tuple
    OnlyComma,
    EndOfTuple,
    EndOfSlice,
    EndOfArguments,
}

/// Writes `Type: Trait<..>`.
pub fn write_goal(
    cx: &Interner,
    text: &mut String,
    variables: &mut Variables<'_>,
    goal: TraitPredicate,
) -> Result<(), AllocError> {
    // What was found in this interner is of this interner.
    if !goal.is_owned(cx) {
        return Ok(());
    }
    let mut pieces = Vec::new(cx.allocator());
    let Some((first, rest)) = goal.trait_ref.args.as_slice(cx).split_first() else {
        return Ok(());
    };
    if let Some(ty) = first.as_type() {
        write_type(cx, text, variables, ty)?;
    }
    text.push_str(": ")?;
    text.push_str(name_of(cx, goal.trait_ref.def_id.into()))?;
    note_arguments(text, &mut pieces, rest)?;
    write_pieces(cx, text, variables, pieces)
}

/// Writes the type: without regions. What comes after 200 names and marks is left out, and `..` is in its place.
pub fn write_type(
    cx: &Interner,
    text: &mut String,
    variables: &mut Variables<'_>,
    ty: Ty,
) -> Result<(), AllocError> {
    let mut pieces = Vec::new(cx.allocator());
    pieces.push(Piece::Type(ty))?;
    write_pieces(cx, text, variables, pieces)
}

// Writes the pieces, the last one first.
fn write_pieces(
    cx: &Interner,
    text: &mut String,
    variables: &mut Variables<'_>,
    mut pieces: Vec<Piece>,
) -> Result<(), AllocError> {
    for _ in 0..MOST_PIECES {
        let Some(piece) = pieces.pop() else {
            return Ok(());
        };
        write_piece(cx, text, variables, &mut pieces, piece)?;
    }
    if !pieces.is_empty() {
        text.push_str("..")?;
    }
    Ok(())
}

// Writes the piece: of a type its beginning, whose rest is noted.
fn write_piece(
    cx: &Interner,
    text: &mut String,
    variables: &mut Variables<'_>,
    pieces: &mut Vec<Piece>,
    piece: Piece,
) -> Result<(), AllocError> {
    match piece {
        Piece::Type(ty) => {
            // A part of a type of this interner is one too.
            if cx.owns_ty(ty) {
                write_beginning(cx, text, variables, pieces, ty)?;
            }
        }
        Piece::Comma => text.push_str(", ")?,
        Piece::OnlyComma => text.push(',')?,
        Piece::EndOfTuple => text.push(')')?,
        Piece::EndOfSlice => text.push(']')?,
        Piece::EndOfArguments => text.push('>')?,
    }
    Ok(())
}

// Writes the beginning of the type, and notes its rest.
fn write_beginning(
    cx: &Interner,
    text: &mut String,
    variables: &mut Variables<'_>,
    pieces: &mut Vec<Piece>,
    ty: Ty,
) -> Result<(), AllocError>
    requires { IsOwned ty_shape cx.now ty }
{
    match *ty.kind(cx) {
        TyKind::Infer(InferTy::TyVar(variable)) => write_variable(text, variables, variable)?,
        TyKind::Ref(_, referent, _) => {
            text.push('&')?;
            pieces.push(Piece::Type(referent))?;
        }
        TyKind::Slice(item) => {
            text.push('[')?;
            pieces.push(Piece::EndOfSlice)?;
            pieces.push(Piece::Type(item))?;
        }
        TyKind::Tuple(items) => {
            text.push('(')?;
            note_tuple(pieces, items.as_slice(cx))?;
        }
        TyKind::Adt(id, args) => {
            text.push_str(name_of(cx, id.into()))?;
            note_arguments(text, pieces, args.as_slice(cx))?;
        }
        // The other types of scripts have no parts.
        _ => text.push_str(ty.to_text(cx)?.as_str())?,
    }
    Ok(())
}

// Writes the name or the number of an inference variable.
fn write_variable(
    text: &mut String,
    variables: &mut Variables<'_>,
    variable: TyVid,
) -> Result<(), AllocError> {
    let number = variable.as_usize();
    text.push('?')?;
    if let Some(name) = variables.names.get(number) {
        text.push_str(name)?;
        return Ok(());
    }
    let place = match variables.others.iter().position(|other| *other == number) {
        Some(place) => place,
        None => {
            variables.others.push(number)?;
            variables.others.len().saturating_sub(1)
        }
    };
    write!(text, "{place}")?;
    Ok(())
}

// Notes the items of a tuple and its end, the last one first.
fn note_tuple(pieces: &mut Vec<Piece>, items: &[Ty]) -> Result<(), AllocError> {
    pieces.push(Piece::EndOfTuple)?;
    if items.len() == 1 {
        pieces.push(Piece::OnlyComma)?;
    }
    let mut is_last = true;
    for item in items.iter().rev() {
        if !is_last {
            pieces.push(Piece::Comma)?;
        }
        pieces.push(Piece::Type(*item))?;
        is_last = false;
    }
    Ok(())
}

// Writes the beginning of a list of type arguments, and notes its rest. An empty list has no text.
fn note_arguments(
    text: &mut String,
    pieces: &mut Vec<Piece>,
    args: &[GenericArg],
) -> Result<(), AllocError> {
    if args.is_empty() {
        return Ok(());
    }
    text.push('<')?;
    pieces.push(Piece::EndOfArguments)?;
    let mut is_last = true;
    for arg in args.iter().rev() {
        if let Some(ty) = arg.as_type() {
            if !is_last {
                pieces.push(Piece::Comma)?;
            }
            pieces.push(Piece::Type(ty))?;
            is_last = false;
        }
    }
    Ok(())
}

// Returns the name of an item. Each item of a script is declared.
fn name_of(cx: &Interner, id: DefId) -> &str {
    if !cx.owns_def_id(id) {
        return "";
    }
    let name = cx.declaration(id).name;
    if cx.owns_symbol(name) {
        name.as_str(cx)
    } else {
        ""
    }
}
