//! The texts of ids, variables and errors.

use super::holds;
use std::alloc::Global;
use std::fmt::Display;
use type_terms::{
    ConstTyFault, ConstVid, Fault, FloatVid, IntVid, Refusal, RegionVid, TraitId, TyVid,
};

// Returns whether the value's text is this one.
fn reads_as<T: Display>(alloc: Global, value: &T, text: &str) -> Result<bool, Refusal> {
    let written = value.to_string(alloc)?;
    Ok(written.as_str() == text)
}

// Returns whether each id and each variable has its number, and a variable the letter of its kind.
fn are_numbers(alloc: Global) -> Result<bool, Refusal> {
    Ok(
        reads_as(alloc, &TyVid::from_u32(3), "?3t")?
            && reads_as(alloc, &IntVid::from_u32(0), "?0i")?
            && reads_as(alloc, &FloatVid::from_u32(12), "?12f")?
            && reads_as(alloc, &ConstVid::from_u32(4_294_967_040), "?4294967040c")?
            && reads_as(alloc, &RegionVid::from_u32(7), "'?7")?
            && reads_as(alloc, &TraitId::from_number(4_294_967_295), "#4294967295")?,
    )
}

// Returns whether each message contains the error's data.
fn are_messages(alloc: Global) -> Result<bool, Refusal> {
    let refusals = [
        (
            Refusal::ArgOutOfRange { index: 5 },
            "there is no argument for the parameter of index 5: give a longer list",
        ),
        (
            Refusal::ArgKind { index: 7 },
            "the argument for the parameter of index 7 is of another kind: give a type, a region or a constant, as it is",
        ),
        (
            Refusal::RegionVariable(RegionVid::from_u32(2)),
            "the region variable '?2 occurs in the value: resolve it before the value is instantiated",
        ),
    ];
    for row in &refusals {
        if !reads_as(alloc, &row.0, row.1)? {
            return Ok(false);
        }
    }
    Ok(
        reads_as(
            alloc,
            &ConstTyFault::Missing,
            "no clause of the environment gives the constant a type: add a `ConstArgHasType` for it",
        )? && reads_as(
            alloc,
            &Fault::Input,
            "the input could not be read to its end: nothing was written",
        )?,
    )
}

// Each id and variable has its number in its text, and each message the error's data.
#[test]
fn texts_and_messages(rt: HostRuntime) {
    holds(&rt, are_numbers(rt.alloc()));
    holds(&rt, are_messages(rt.alloc()));
}
