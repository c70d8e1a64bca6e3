//! The items of a script, declared in the interner.

ghost use Rattle.std.specs.Prelude.{IfOk};
ghost use Rattle.solver.specs.Program.{IsProgram};

use crate::failure::Failure;
use crate::goals::{goal_of, goals_of};
use crate::types::written_type;
use solver::{Impl, Program};
use solver_syntax::script::{Declaration, Implementation, Script};
use tt_interner::Interner;
use tt_kinds::{AdtId, TraitId, Ty};

/// A script's items, and the types that it writes.
#[derive(Drop)]
pub struct Declared {
    /// The id of each trait.
    pub traits: Vec<TraitId>,
    /// What each written type denotes.
    pub types: Vec<Ty>,
}

/// Returns the name of this number.
pub fn name_of(script: &Script, number: usize) -> Result<&str, Failure> {
    match script.names.get(number) {
        Some(name) => Ok(name.as_str()),
        None => Err(Failure::Malformed),
    }
}

/// Declares the items of a script, and builds its written types.
pub fn declare(cx: &mut Interner, script: &Script) -> Result<Declared, Failure> {
    let mut data = Vec::new(cx.allocator());
    for declaration in script.data.iter() {
        let id = data_type(cx, script, *declaration)?;
        data.push(id)?;
    }
    let mut traits = Vec::new(cx.allocator());
    for declaration in script.traits.iter() {
        let id = trait_of(cx, script, *declaration)?;
        traits.push(id)?;
    }
    let mut types = Vec::new(cx.allocator());
    for written in script.types.iter() {
        let ty = written_type(cx, script, data.as_slice(), types.as_slice(), *written)?;
        types.push(ty)?;
    }
    Ok(Declared { traits, types })
}

// Declares a data type.
fn data_type(
    cx: &mut Interner,
    script: &Script,
    declaration: Declaration,
) -> Result<AdtId, Failure> {
    let name = cx.symbol(name_of(script, declaration.name)?)?;
    Ok(cx.declare_adt(name)?)
}

// Declares a trait.
fn trait_of(
    cx: &mut Interner,
    script: &Script,
    declaration: Declaration,
) -> Result<TraitId, Failure> {
    let Ok(params) = u32::try_from(declaration.params) else {
        return Err(Failure::Malformed);
    };
    let name = cx.symbol(name_of(script, declaration.name)?)?;
    Ok(cx.declare_trait(name, params)?)
}

/// Returns the program of the script's implementations.
#[tactic(auto, using(crate::proofs::GrowthLaws::growth_laws))]
pub fn program_of(
    cx: &mut Interner,
    script: &Script,
    declared: &Declared,
) -> Result<Program, Failure>
    ensures { IfOk result (λ program. IsProgram cx.new program) }
{
    let mut program = Program::new(cx.allocator());
    for number in 0..script.implementations.len() {
        let implementation = &script.implementations[number];
        add_to(cx, script, declared, &mut program, implementation)?;
    }
    Ok(program)
}

// Adds an implementation to the program.
#[tactic(auto, using(crate::proofs::GrowthLaws::growth_laws))]
fn add_to(
    cx: &mut Interner,
    script: &Script,
    declared: &Declared,
    program: &mut Program,
    implementation: &Implementation,
) -> Result<(), Failure>
    requires { IsProgram cx.old program.old }
    ensures { IsProgram cx.new program.new }
{
    let head = goal_of(cx, script, declared, implementation.head)?;
    let conditions = goals_of(cx, script, declared, implementation.conditions.as_slice())?;
    let implementation = Impl {
        params: implementation.params,
        head,
        conditions,
    };
    // What was built in this interner is of this interner.
    if !implementation.is_owned(cx) {
        return Err(Failure::Malformed);
    }
    match program.add(cx, implementation) {
        Ok(()) => Ok(()),
        Err(fault) => Err(Failure::Solver(fault)),
    }
}
