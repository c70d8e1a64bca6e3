//! Words for regions and for the variables of binders.

use crate::words::{Unread, index, number, position};
use std::alloc::Global;
use tt_calls::{
    ArgCall, BoundTyKindCall, Call, RegionCall, RegionNameCall, VariableCall, parse_line,
};

/// Returns the region of a word. Beside the words of scripts there are these: `'pN:NAME` is a parameter with a name,
/// `'!U.V` a placeholder, and `'late%N` a parameter of the item that call N declared, seen from inside. After a `:` the
/// last two have a name.
pub fn region(alloc: Global, word: &str) -> Result<RegionCall, Unread> {
    let (region, name) = word.split_once(":").unwrap_or((word, ""));
    if let Some(numbers) = region.strip_prefix("'!") {
        let (universe, variable) = numbers.split_once(".").ok_or(Unread::Unknown)?;
        return Ok(RegionCall::RePlaceholder(
            index(universe)?,
            index(variable)?,
            region_name(alloc, name)?,
        ));
    }
    if let Some(item) = region.strip_prefix("'late") {
        return Ok(RegionCall::ReLateParam(position(item)?, region_name(alloc, name)?));
    }
    match (region.strip_prefix("'p"), name) {
        (Some(digits), _) if !name.is_empty() => parameter(alloc, digits, name),
        _ => script_region(alloc, word),
    }
}

// Returns the region parameter of this index and name.
fn parameter(alloc: Global, digits: &str, name: &str) -> Result<RegionCall, Unread> {
    Ok(RegionCall::ReEarlyParam {
        index: number(digits)?,
        name: String::from_str(alloc, name)?,
    })
}

// Returns the region of a word of scripts: it is the argument of a line.
fn script_region(alloc: Global, word: &str) -> Result<RegionCall, Unread> {
    let line = format!(in alloc; "inst %1 {word}")?;
    let mut args = match parse_line(alloc, line.as_bytes())? {
        Some(Call::Instantiate(_, args)) => args,
        _ => return Err(Unread::Unknown),
    };
    match args.pop() {
        Some(ArgCall::Lifetime(region)) => Ok(region),
        _ => Err(Unread::Unknown),
    }
}

// Returns the name of a bound region: none, `%N` for what call N declared, `env` for a closure's environment, or a
// name to be printed.
fn region_name(alloc: Global, word: &str) -> Result<RegionNameCall, Unread> {
    match word {
        "" => Ok(RegionNameCall::Anon),
        "env" => Ok(RegionNameCall::ClosureEnv),
        _ if word.starts_with("%") => Ok(RegionNameCall::Named(position(word)?)),
        _ => Ok(RegionNameCall::NamedForPrinting(String::from_str(alloc, word)?)),
    }
}

/// Returns the name of a bound type: none, or `%N` for what call N declared.
pub fn type_name(word: &str) -> Result<BoundTyKindCall, Unread> {
    if word.is_empty() {
        Ok(BoundTyKindCall::Anon)
    } else {
        Ok(BoundTyKindCall::Param(position(word)?))
    }
}

/// Returns the variables of a word such as `[r,t,c]`: regions, types and constants. After a `:` a region or a type has
/// a name.
pub fn variables(alloc: Global, word: &str) -> Result<Vec<VariableCall>, Unread> {
    let mut variables = Vec::new(alloc);
    let inside = word
        .strip_prefix("[")
        .and_then(|rest| rest.strip_suffix("]"))
        .ok_or(Unread::Unknown)?;
    for part in inside.split(",") {
        if !part.is_empty() {
            variables.push(variable(alloc, part)?)?;
        }
    }
    Ok(variables)
}

// Returns the variable of a part of such a word.
fn variable(alloc: Global, part: &str) -> Result<VariableCall, Unread> {
    let (sort, name) = part.split_once(":").unwrap_or((part, ""));
    match sort {
        "r" => Ok(VariableCall::Region(region_name(alloc, name)?)),
        "t" => Ok(VariableCall::Ty(type_name(name)?)),
        "c" => Ok(VariableCall::Const),
        _ => Err(Unread::Unknown),
    }
}
