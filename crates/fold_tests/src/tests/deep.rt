//! A chain of a million links is folded, visited and printed through the library, and folded through a script.
//!
//! Its links are references, pairs and pointers to functions in turn, so a walk that used the machine's stack for one of
//! them would overflow it.

use std::alloc::{AllocError, Global};
use std::test::Fail;
use test_terms::{
    NOT_OWNED, answer_anew, bound_ty, is_instance, is_shifted, occurs, param_ty, pointer, ref_ty,
    tuple, u32_ty,
};
use type_terms::{
    GenericArg, Interner, IrPrint, Owned, Refusal, Region, RegionKind, Ty, run_script,
};

// The number of links of a chain, and how many of them are pointers, which have a binder each.
const LEVELS: u32 = 999_999;

const BINDERS: u32 = 333_333;

// Returns a chain of so many links around the type.
fn chain(cx: &mut Interner, core: Ty, levels: u32) -> Result<Ty, Refusal> {
    let region = Region::new(RegionKind::ReStatic)?;
    let number = u32_ty(cx)?;
    let mut inside = core;
    for level in 0..levels {
        inside = match level % 3 {
            0 => ref_ty(cx, region, inside)?,
            1 => tuple(cx, &[inside, number])?,
            _ => pointer(cx, &[inside])?,
        };
    }
    Ok(inside)
}

// A chain around a parameter is instantiated, and one around a variable that is bound outside of it is shifted.
fn chains_are_folded_holds(cx: &mut Interner) -> Result<bool, Refusal> {
    let parameter = param_ty(cx, 0)?;
    let number = u32_ty(cx)?;
    let (near, far) = (bound_ty(cx, BINDERS)?, bound_ty(cx, BINDERS + 2)?);
    let generic = chain(cx, parameter, LEVELS)?;
    let plain = chain(cx, number, LEVELS)?;
    let open = chain(cx, near, LEVELS)?;
    let moved = chain(cx, far, LEVELS)?;
    let args = [GenericArg::from(number)];
    Ok(is_instance(cx, generic, &args, plain) && is_shifted(cx, open, 2, moved))
}

#[test]
fn chains_are_folded(rt: HostRuntime) {
    let outcome = answer_anew(rt.alloc(), chains_are_folded_holds);
    assert_eq!(rt; outcome, Ok(true));
}

// Returns the length of the type's text.
fn text_len(cx: &Interner, ty: Ty) -> Result<usize, Refusal> {
    let mut text = String::new(cx.allocator());
    if ty.is_owned(cx) {
        match ty.print(cx, &mut text) {
            Ok(()) => Ok(text.len()),
            Err(_) => Err(Refusal::Memory),
        }
    } else {
        Err(NOT_OWNED)
    }
}

// A visitor finds the type inside a chain, and no other. The text of a chain is as long as the texts of its links, of
// which there is one of each kind in three, and of the type inside together.
fn chains_are_read_holds(cx: &mut Interner) -> Result<bool, Refusal> {
    let parameter = param_ty(cx, 0)?;
    let absent = param_ty(cx, 1)?;
    let three = chain(cx, parameter, 3)?;
    let all = chain(cx, parameter, LEVELS)?;
    let inside = text_len(cx, parameter)?;
    let each = text_len(cx, three)?.saturating_sub(inside);
    let wanted = each.saturating_mul(BINDERS as usize).saturating_add(inside);
    Ok(
        occurs(cx, &all, parameter) == Ok(true)
            && occurs(cx, &all, absent) == Ok(false)
            && text_len(cx, all)? == wanted,
    )
}

#[test]
fn chains_are_read(rt: HostRuntime) {
    let outcome = answer_anew(rt.alloc(), chains_are_read_holds);
    assert_eq!(rt; outcome, Ok(true));
}

// Writes the lines of a chain around the answer at a position, after so many calls. Answer 1 is `u32`.
fn write_chain(script: &mut String, core: u32, calls: u32) -> Result<(), AllocError> {
    let mut inside = core;
    for level in 0..LEVELS {
        match level % 3 {
            0 => writeln!(script, "ref 'static %{inside}")?,
            1 => writeln!(script, "tuple %{inside} %1")?,
            _ => writeln!(script, "fn 0 %{inside}")?,
        }
        inside = calls.saturating_add(level).saturating_add(1);
    }
    Ok(())
}

// Returns a script that folds a chain around each first answer, and compares it with one around the next.
fn script(alloc: Global) -> Result<String, AllocError> {
    let mut script = String::new(alloc);
    writeln!(
        script,
        "u32\nparam 0\nbound {} 0\nbound {} 0",
        BINDERS,
        BINDERS + 2
    )?;
    let ends = [4 + LEVELS, 4 + 2 * LEVELS, 4 + 3 * LEVELS, 4 + 4 * LEVELS];
    write_chain(&mut script, 2, 4)?;
    write_chain(&mut script, 1, ends[0])?;
    write_chain(&mut script, 3, ends[1])?;
    write_chain(&mut script, 4, ends[2])?;
    let last = ends[3];
    writeln!(
        script,
        "inst %{} %1\nequal %{} %{}",
        ends[0],
        last + 1,
        ends[1]
    )?;
    writeln!(
        script,
        "shift %{} 2\nequal %{} %{}",
        ends[2],
        last + 3,
        last
    )?;
    Ok(script)
}

// A script instantiates one chain and shifts another, and both are equal to chains that it builds.
#[test]
fn a_script_folds_chains(rt: HostRuntime) -> Result<(), Fail> {
    let script = script(rt.alloc())?;
    let mut output = Vec::new(rt.alloc());
    run_script(rt.alloc(), script.as_bytes(), &mut output)?;
    let lines = String::from_utf8(output)?;
    let wanted = "4000001: ok\n4000002: yes\n4000003: ok\n4000004: yes\n";
    assert!(rt; lines.as_str().ends_with(wanted));
    Ok(())
}
