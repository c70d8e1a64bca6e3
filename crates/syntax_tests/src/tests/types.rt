//! Written types, structs and signatures.

use super::{at, has_names, span};
use checker_syntax::program::{Field, Program, WrittenType};
use checker_syntax::read;
use std::process::Abort;
use std::test::Fail;

// Asserts that the program's types and their parts are these.
fn has_types(rt: &impl Abort, program: &Program, types: &[WrittenType], parts: &[usize]) {
    assert_eq!(rt; program.types.as_slice(), types);
    assert_eq!(rt; program.parts.as_slice(), parts);
}

// A reference and a tuple come after their parts. A function without a result returns `()`.
#[test]
fn each_kind_of_type(rt: HostRuntime) -> Result<(), Fail> {
    let source =
        "fn f<T>(a: i32, b: bool, c: char, d: &str, e: T, f: (T, i32), g: (T,), h: (T), i: ());";
    let program = read(rt.alloc(), source)?;
    has_types(
        &rt,
        &program,
        &[
            WrittenType::Int,
            WrittenType::Bool,
            WrittenType::Char,
            WrittenType::Str,
            WrittenType::Reference(3),
            WrittenType::Param(0, 1),
            WrittenType::Param(0, 1),
            WrittenType::Int,
            WrittenType::Tuple(span(0, 2)),
            WrittenType::Param(0, 1),
            WrittenType::Tuple(span(2, 3)),
            WrittenType::Param(0, 1),
            WrittenType::Tuple(span(3, 3)),
            WrittenType::Tuple(span(3, 3)),
        ],
        &[6, 7, 9],
    );
    assert_eq!(rt; program.functions.len(), 1);
    let function = &program.functions[0];
    assert_eq!(rt; function.params.as_slice(), [1].as_slice());
    assert_eq!(rt;
        function.inputs.as_slice(),
        [0, 1, 2, 4, 5, 8, 10, 11, 12].as_slice()
    );
    assert_eq!(rt; function.output, 13);
    assert!(rt; function.body.is_none());
    Ok(())
}

// Each has the number of its declaration, its place, its parameters and its fields.
#[test]
fn structs_may_come_after_their_uses(rt: HostRuntime) -> Result<(), Fail> {
    let source =
        "struct Two<A> { pair: Pair<A, Marker,>, }\nstruct Pair<A, B,> { first: &A, second: B }\nstruct Marker;
        struct None {}";
    let program = read(rt.alloc(), source)?;
    has_names(
        &rt,
        &program,
        &[
            "Two", "A", "pair", "Pair", "Marker", "B", "first", "second", "None",
        ],
    );
    has_types(
        &rt,
        &program,
        &[
            WrittenType::Param(0, 1),
            WrittenType::Data(2, span(0, 0)),
            WrittenType::Data(1, span(0, 2)),
            WrittenType::Param(0, 1),
            WrittenType::Reference(3),
            WrittenType::Param(1, 5),
        ],
        &[0, 1],
    );
    assert_eq!(rt; program.data.len(), 4);
    let pair = &program.data[1];
    assert_eq!(rt; pair.name, 3);
    assert_eq!(rt; pair.place, at(2, 8));
    assert_eq!(rt; pair.params.as_slice(), [1, 5].as_slice());
    let first = Field { name: 6, ty: 4 };
    let second = Field { name: 7, ty: 5 };
    assert_eq!(rt; pair.fields.as_slice(), [first, second].as_slice());
    let marker = &program.data[2];
    assert_eq!(rt; marker.name, 4);
    assert_eq!(rt; marker.fields.len(), 0);
    Ok(())
}

// In its own function alone.
#[test]
fn a_type_parameter_hides_a_data_type(rt: HostRuntime) -> Result<(), Fail> {
    let program = read(
        rt.alloc(),
        "struct A { } fn f<A>(a: A) -> A; fn A(a: A) -> A;",
    )?;
    has_types(
        &rt,
        &program,
        &[
            WrittenType::Param(0, 0),
            WrittenType::Param(0, 0),
            WrittenType::Data(0, span(0, 0)),
            WrittenType::Data(0, span(0, 0)),
        ],
        &[],
    );
    Ok(())
}
