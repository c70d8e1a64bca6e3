//! The rows of an interner's types, read into plain records. Texts and pictures need nothing else.

ghost use Rattle.tt_kinds.specs.Kinds.{ty_shape};
ghost use Rattle.tt_interner.specs.Owned.{IsOwned};

use std::alloc::{AllocError, Global};
use type_terms::prelude::*;
use type_terms::{BoundVarKinds, Handle, IsStored};

/// How the text of a type goes on after its opening.
#[derive(Clone, Copy)]
pub enum Form {
    /// The opening is the whole text.
    Leaf,
    /// The only part follows.
    Prefix,
    /// The only part follows, and a bracket.
    Slice,
    /// The parts follow, and a parenthesis.
    Tuple,
    /// The inputs follow, and the output.
    Function,
}

/// The row of a type.
#[derive(Drop)]
pub struct Row {
    /// What the type's text begins with: `&'static mut `, `(`, `fn(` or `i32`.
    pub opening: String,
    pub form: Form,
    /// The rows of its parts, in order. A part is stored before the type.
    pub parts: Vec<usize>,
    /// The flags of the type, and those that it has without its parts.
    pub flags: u32,
    pub own_flags: u32,
    /// The outer exclusive binder.
    pub outer: u32,
}

/// How many rows an interner has.
#[derive(Clone, Copy)]
pub struct Counts {
    pub types: u32,
    /// Lists of types.
    pub lists: u32,
    /// Lists of a binder's variables.
    pub binders: u32,
}

impl Counts {
    /// Returns the numbers of rows, of which there are at least so many.
    pub fn of(cx: &Interner, known: Counts) -> Counts {
        Counts {
            types: counted(cx, Ty::from_number(known.types)),
            lists: counted(cx, Tys::from_number(known.lists)),
            binders: counted(cx, BoundVarKinds::from_number(known.binders)),
        }
    }
}

// Returns how many rows the handle's table has, if it has all rows before the handle's.
fn counted<K: IsStored>(cx: &Interner, first: Handle<K>) -> u32 {
    for number in first.number()..u32::MAX {
        if !cx.owns(Handle::<K>::from_number(number)) {
            return number;
        }
    }
    u32::MAX
}

/// Adds the rows from this number up to that one.
pub fn read_rows(cx: &Interner, rows: &mut Vec<Row>, from: u32, to: u32) -> Result<(), AllocError> {
    for number in from..to {
        let ty = Ty::from_number(number);
        if cx.owns_ty(ty) {
            rows.push(read_row(cx, ty)?)?;
        }
    }
    Ok(())
}

// Returns the row of the type.
fn read_row(cx: &Interner, ty: Ty) -> Result<Row, AllocError>
    requires { IsOwned ty_shape cx.now ty }
{
    let flags = ty.flags(cx).bits();
    let mut row = Row {
        opening: String::new(cx.allocator()),
        form: Form::Leaf,
        parts: Vec::new(cx.allocator()),
        flags,
        own_flags: flags,
        outer: ty.outer_exclusive_binder(cx).as_u32(),
    };
    read_kind(cx, ty, &mut row)?;
    Ok(row)
}

// Reads the opening and the parts of the type into its row, which is a leaf's so far.
fn read_kind(cx: &Interner, ty: Ty, row: &mut Row) -> Result<(), AllocError>
    requires { IsOwned ty_shape cx.now ty }
{
    let alloc = cx.allocator();
    match *ty.kind(cx) {
        TyKind::Ref(region, referent, mutability) => {
            let opening = reference_opening(alloc, region, mutability)?;
            fill(row, Form::Prefix, opening.as_str(), [referent].as_slice())?;
            row.own_flags = region.kind().flags().bits();
        }
        TyKind::RawPtr(target, mutability) => {
            let opening = match mutability {
                Mutability::Not => "*const ",
                Mutability::Mut => "*mut ",
            };
            fill(row, Form::Prefix, opening, [target].as_slice())?;
        }
        TyKind::Slice(item) => fill(row, Form::Slice, "[", [item].as_slice())?,
        TyKind::Tuple(items) => fill(row, Form::Tuple, "(", items.as_slice(cx))?,
        TyKind::FnPtr(signature, _) => {
            let opening = function_opening(alloc, signature.bound_vars().as_slice(cx).len())?;
            let types = signature.skip_binder().inputs_and_output;
            fill(row, Form::Function, opening.as_str(), types.as_slice(cx))?;
        }
        TyKind::Param(param) => row.opening = numbered(alloc, "T", param.index)?,
        _ => row.opening = ty.to_text(cx)?,
    }
    Ok(())
}

// Makes the row of a leaf one of this form, with this opening and the rows of these types as its parts.
fn fill(row: &mut Row, form: Form, opening: &str, types: &[Ty]) -> Result<(), AllocError> {
    row.form = form;
    row.own_flags = 0;
    row.opening.push_str(opening)?;
    for ty in types {
        row.parts.push(ty.number() as usize)?;
    }
    Ok(())
}

// Returns the word and the number.
fn numbered(alloc: Global, word: &str, number: u32) -> Result<String, AllocError> {
    format!(in alloc; "{word}{number}")
}

// Returns the word of a script's line for this variable of a binder, or of a canonical query.
fn bound_word(
    alloc: Global,
    index: BoundVarIndexKind,
    var: BoundVar,
) -> Result<String, AllocError> {
    let place = var.as_u32();
    match index {
        BoundVarIndexKind::Canonical => numbered(alloc, "'c.", place),
        BoundVarIndexKind::Bound(binder) => {
            let binder = binder.as_u32();
            format!(in alloc; "'^{binder}.{place}")
        }
    }
}

// Returns the word of a script's line for this region inference variable.
fn variable_word(alloc: Global, vid: RegionVid) -> Result<String, AllocError> {
    numbered(alloc, "'?", vid.as_u32())
}

// Returns the word of a script's line for the region. There is none for regions that no line makes.
fn region_word(alloc: Global, region: Region) -> Result<String, AllocError> {
    match region.kind() {
        RegionKind::ReStatic => String::from_str(alloc, "'static"),
        RegionKind::ReErased => String::from_str(alloc, "'erased"),
        RegionKind::ReEarlyParam(param) => numbered(alloc, "'p", param.index),
        RegionKind::ReVar(vid) => variable_word(alloc, vid),
        RegionKind::ReError(error) => numbered(alloc, "'e", error.0),
        RegionKind::ReBound(index, region) => bound_word(alloc, index, region.var),
        _ => String::from_str(alloc, "'_"),
    }
}

// Returns what a reference begins with.
fn reference_opening(
    alloc: Global,
    region: Region,
    mutability: Mutability,
) -> Result<String, AllocError> {
    let word = match mutability {
        Mutability::Not => " ",
        Mutability::Mut => " mut ",
    };
    let name = region_word(alloc, region)?;
    format!(in alloc; "&{name}{word}")
}

// Returns what a function pointer begins with, under a binder of so many regions.
fn function_opening(alloc: Global, regions: usize) -> Result<String, AllocError> {
    if regions == 0 {
        String::from_str(alloc, "fn(")
    } else {
        format!(in alloc; "for<{regions}> fn(")
    }
}
