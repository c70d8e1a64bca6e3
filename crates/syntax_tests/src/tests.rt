//! What is read of a source: names, types, declarations and bodies.

mod bodies;
mod tokens;
mod types;

use checker_syntax::program::{Body, Expression, Place, Program, Span};
use checker_syntax::read;
use checker_syntax::syntax_error::SyntaxError;
use std::alloc::Global;
use std::process::Abort;
use std::test::Fail;

// Returns the place of these numbers.
fn at(line: usize, column: usize) -> Place {
    Place { line, column }
}

// Returns the span of these numbers.
fn span(start: usize, end: usize) -> Span {
    Span { start, end }
}

// Returns the body of the last function of the source.
fn last_body(alloc: Global, source: &str) -> Result<Body, Fail> {
    let mut program = read(alloc, source)?;
    let function = program.functions.pop().ok_or("no function")?;
    Ok(function.body.ok_or("no body")?)
}

// Asserts what the body has.
fn is_body(
    rt: &impl Abort,
    body: &Body,
    expressions: &[(Expression, Place)],
    operands: &[usize],
    value: usize,
) {
    assert_eq!(rt; body.expressions.len(), expressions.len());
    assert_eq!(rt; body.places.len(), expressions.len());
    for ((expression, place), (wanted, at)) in body
        .expressions
        .iter()
        .zip(&body.places)
        .zip(expressions)
    {
        assert_eq!(rt; *expression, *wanted);
        assert_eq!(rt; *place, *at);
    }
    assert_eq!(rt; body.operands.as_slice(), operands);
    assert_eq!(rt; body.result, value);
}

// Asserts that the program's names are these.
fn has_names(rt: &impl Abort, program: &Program, names: &[&str]) {
    assert_eq!(rt; program.names.len(), names.len());
    for (name, wanted) in program.names.iter().zip(names) {
        assert_eq!(rt; name.as_str(), *wanted);
    }
}

// Spaces and comments are no items.
#[test]
fn an_empty_source_is_an_empty_program(rt: HostRuntime) -> Result<(), Fail> {
    for source in ["", " \r\n\t", "// nothing", "// nothing\n"] {
        let program = read(rt.alloc(), source)?;
        assert_eq!(rt; program.names.len(), 0, "{source:?}");
        assert_eq!(rt; program.types.len(), 0, "{source:?}");
        assert_eq!(rt; program.parts.len(), 0, "{source:?}");
        assert_eq!(rt; program.data.len(), 0, "{source:?}");
        assert_eq!(rt; program.functions.len(), 0, "{source:?}");
    }
    Ok(())
}

// Its text has the place, and a refusal of memory has a text too.
#[test]
fn an_error_is_printed_with_its_place(rt: HostRuntime) -> Result<(), Fail> {
    let error = read(rt.alloc(), "\nfn f() { x }").err().ok_or("a program")?;
    assert_eq!(rt;
        error.to_string(rt.alloc())?.as_str(),
        "2:10: unknown value `x`"
    );
    let memory = SyntaxError::Memory.to_string(rt.alloc())?;
    assert_eq!(rt; memory.as_str(), "out of memory");
    Ok(())
}
