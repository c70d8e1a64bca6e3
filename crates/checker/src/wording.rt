//! The messages about wrong programs, and the notes that belong to them.

use crate::failure::Failure;
use crate::lookup::name_of;
use crate::mistake::{Cause, Clash, Item, Mistake, Origin, Pair};
use crate::type_text::{item_name, text_of};
use checker_syntax::message::Message;
use checker_syntax::program::{DataType, Function, Place, Program};
use reports::{Extent, Note, Report};
use tt_interner::Interner;
use tt_kinds::Ty;

// The greatest number of fields of a data type that a note names.
const MOST_FIELDS: usize = 12;

/// Returns the message about the mistake in a program that was checked with this interner.
pub fn message_of(cx: &Interner, mistake: &Mistake) -> Result<Message, Failure> {
    let mut text = String::new(cx.allocator());
    match &mistake.cause {
        Cause::Mismatch(clash) => write_mismatch(cx, &mut text, clash.types)?,
        Cause::ContainsItself(clash) => {
            write_mismatch(cx, &mut text, clash.types)?;
            text.push_str(": no type contains itself")?;
        }
        Cause::UnknownType { ty, .. } => {
            let known = text_of(cx, *ty)?;
            write!(
                text,
                "the type has to be known here, and only `{known}` is: write a type at a `let`"
            )?;
        }
        Cause::UnknownArguments(ty) => {
            let known = text_of(cx, *ty)?;
            write!(text, "nothing determines the type arguments of `{known}`")?;
        }
        Cause::NoField(ty, name) => {
            let ty = text_of(cx, *ty)?;
            write!(text, "`{ty}` has no field `{name}`")?;
        }
        Cause::NoItem(ty, item) => {
            let ty = text_of(cx, *ty)?;
            write!(text, "`{ty}` has no item {item}")?;
        }
        Cause::WrongCount {
            function,
            expected,
            given,
        } => write_count(&mut text, function.as_str(), *expected, *given)?,
    }
    Ok(Message {
        place: mistake.place,
        text,
    })
}

// Writes that a type was found in place of another one.
fn write_mismatch(cx: &Interner, text: &mut String, types: Pair) -> Result<(), Failure> {
    let expected = text_of(cx, types.expected)?;
    let found = text_of(cx, types.found)?;
    write!(text, "expected `{expected}`, found `{found}`")?;
    Ok(())
}

// Writes that the function of this name takes another number of arguments than are given.
fn write_count(
    text: &mut String,
    name: &str,
    expected: usize,
    given: usize,
) -> Result<(), Failure> {
    let plural = if expected == 1 { "" } else { "s" };
    let are = if given == 1 { "is" } else { "are" };
    write!(
        text,
        "`{name}` takes {expected} argument{plural}, and {given} {are} given"
    )?;
    Ok(())
}

/// Returns the message about the mistake in a program that was checked with this interner, and its notes.
pub fn report_of(cx: &Interner, program: &Program, mistake: &Mistake) -> Result<Report, Failure> {
    Ok(Report {
        message: message_of(cx, mistake)?,
        extent: Extent::Expression,
        notes: notes_of(cx, program, &mistake.cause)?,
    })
}

// Returns the notes on a mistake of this cause.
fn notes_of(cx: &Interner, program: &Program, cause: &Cause) -> Result<Vec<Note>, Failure> {
    let mut notes = Vec::new(cx.allocator());
    match cause {
        Cause::Mismatch(clash) => note_clash(cx, program, &mut notes, clash)?,
        Cause::ContainsItself(clash) => note_clash(cx, program, &mut notes, clash)?,
        Cause::UnknownArguments(ty) => note_function(cx, program, &mut notes, *ty)?,
        Cause::NoField(ty, _) => note_fields(cx, program, &mut notes, *ty)?,
        Cause::WrongCount { function, .. } => {
            if let Some(callee) = function_named(program, function.as_str())? {
                notes.push(declaration(cx, program, callee)?)?;
            }
        }
        Cause::UnknownType { binding, .. } => {
            if let Some(place) = binding {
                let text = String::from_str(cx.allocator(), "a type can be written at this `let`")?;
                notes.push(placed(*place, text))?;
            }
        }
        Cause::NoItem(_, _) => {}
    }
    Ok(notes)
}

// Notes where two types differ, and where the expected one comes from.
fn note_clash(
    cx: &Interner,
    program: &Program,
    notes: &mut Vec<Note>,
    clash: &Clash,
) -> Result<(), Failure> {
    let alloc = cx.allocator();
    if clash.parts != clash.types {
        let expected = text_of(cx, clash.parts.expected)?;
        let found = text_of(cx, clash.parts.found)?;
        let text = format!(in alloc; "in it, `{expected}` is expected and `{found}` is found")?;
        notes.push(Note { place: None, text })?;
    }
    match clash.origin {
        Origin::Operand { owner, number } => {
            note_operand(cx, program, notes, owner, number)?;
        }
        Origin::Result { name, declared } => {
            let name = name_of(program, name)?;
            let text = format!(in alloc; "it is the result of `{name}`, which is declared here")?;
            notes.push(placed(declared, text))?;
        }
        Origin::Let(place) => {
            let text = String::from_str(alloc, "its type is written at this `let`")?;
            notes.push(placed(place, text))?;
        }
        Origin::Dereference => {
            let text = String::from_str(alloc, "`*` takes a reference")?;
            notes.push(Note { place: None, text })?;
        }
    }
    Ok(())
}

// Notes of which item the value is an argument or a field.
fn note_operand(
    cx: &Interner,
    program: &Program,
    notes: &mut Vec<Note>,
    owner: Item,
    number: usize,
) -> Result<(), Failure> {
    let alloc = cx.allocator();
    match owner {
        Item::Function(function) => {
            let Some(callee) = program.functions.get(function) else {
                return Err(Failure::Malformed);
            };
            let name = name_of(program, callee.name)?;
            let ordinal = number.saturating_add(1);
            let text = format!(in alloc;
                "it is argument {ordinal} of `{name}`, which is declared here"
            )?;
            notes.push(placed(callee.place, text))?;
        }
        Item::Data(data) => {
            let Some(item) = program.data.get(data) else {
                return Err(Failure::Malformed);
            };
            let Some(field) = item.fields.get(number) else {
                return Err(Failure::Malformed);
            };
            let name = name_of(program, item.name)?;
            let field = name_of(program, field.name)?;
            let text = format!(in alloc;
                "it is the field `{field}` of `{name}`, which is declared here"
            )?;
            notes.push(placed(item.place, text))?;
        }
    }
    Ok(())
}

// Notes where the function of this type is declared.
fn note_function(
    cx: &Interner,
    program: &Program,
    notes: &mut Vec<Note>,
    ty: Ty,
) -> Result<(), Failure> {
    if let Some(callee) = function_named(program, item_name(cx, ty))? {
        notes.push(declaration(cx, program, callee)?)?;
    }
    Ok(())
}

// Notes where the data type is declared, and its fields.
fn note_fields(
    cx: &Interner,
    program: &Program,
    notes: &mut Vec<Note>,
    ty: Ty,
) -> Result<(), Failure> {
    let Some(item) = data_named(program, item_name(cx, ty))? else {
        return Ok(());
    };
    let name = name_of(program, item.name)?;
    let mut text = format!(in cx.allocator(); "`{name}` is declared here, ")?;
    for (number, field) in item.fields.iter().take(MOST_FIELDS).enumerate() {
        text.push_str(if number == 0 {
            "with the fields "
        } else {
            ", "
        })?;
        let field = name_of(program, field.name)?;
        write!(text, "`{field}`")?;
    }
    if item.fields.is_empty() {
        text.push_str("without fields")?;
    }
    if item.fields.len() > MOST_FIELDS {
        text.push_str(", ..")?;
    }
    notes.push(placed(item.place, text))?;
    Ok(())
}

// Returns the note that the function is declared at its place.
fn declaration(cx: &Interner, program: &Program, function: &Function) -> Result<Note, Failure> {
    let name = name_of(program, function.name)?;
    let text = format!(in cx.allocator(); "`{name}` is declared here")?;
    Ok(placed(function.place, text))
}

// Returns a note about a place.
fn placed(place: Place, text: String) -> Note {
    Note {
        place: Some(place),
        text,
    }
}

// Returns the function of this name.
fn function_named<'a>(program: &'a Program, name: &str) -> Result<Option<&'a Function>, Failure> {
    for function in program.functions.iter() {
        if name_of(program, function.name)? == name {
            return Ok(Some(function));
        }
    }
    Ok(None)
}

// Returns the data type of this name.
fn data_named<'a>(program: &'a Program, name: &str) -> Result<Option<&'a DataType>, Failure> {
    for item in program.data.iter() {
        if name_of(program, item.name)? == name {
            return Ok(Some(item));
        }
    }
    Ok(None)
}
