//! The tokens of a source, by what is read of them.

use super::{at, has_names, is_body, last_body, span};
use checker_syntax::program::{Expression, Literal};
use checker_syntax::read;
use checker_syntax::syntax_error::SyntaxError;
use std::alloc::Global;
use std::test::Fail;

// A name goes on as far as letters do: `lets` is no keyword.
#[test]
fn marks_need_no_space(rt: HostRuntime) -> Result<(), Fail> {
    let source = "struct lets<A>{a:&A}fn f(b:lets<(i32,)>)->i32{let c=(true,false);*b.a.0}";
    let program = read(rt.alloc(), source)?;
    has_names(&rt, &program, &["lets", "A", "a", "f", "b", "i32", "c"]);
    let body = last_body(rt.alloc(), source)?;
    is_body(
        &rt,
        &body,
        &[
            (Expression::Literal(Literal::Bool), at(1, 54)),
            (Expression::Literal(Literal::Bool), at(1, 59)),
            (Expression::Tuple(span(0, 2)), at(1, 53)),
            (Expression::Let(2, None), at(1, 47)),
            (Expression::Argument(0), at(1, 67)),
            (Expression::Field(4, 2), at(1, 69)),
            (Expression::Item(5, 0), at(1, 71)),
            (Expression::Dereference(6), at(1, 66)),
        ],
        &[0, 1],
        7,
    );
    Ok(())
}

// A letter of two bytes is one column, in literals and comments too. A text may go over lines.
#[test]
fn places_count_characters(rt: HostRuntime) -> Result<(), Fail> {
    let source = "fn f(ab: i32) { 'é'; // comment é\n\"é\\\"\n\"; ab; 1_0.2;\n ab.ba }";
    let program = read(rt.alloc(), source)?;
    has_names(&rt, &program, &["f", "ab", "i32", "ba"]);
    let body = last_body(rt.alloc(), source)?;
    is_body(
        &rt,
        &body,
        &[
            (Expression::Literal(Literal::Char), at(1, 17)),
            (Expression::Literal(Literal::Str), at(2, 1)),
            (Expression::Argument(0), at(3, 4)),
            (Expression::Literal(Literal::Int), at(3, 8)),
            (Expression::Item(3, 2), at(3, 12)),
            (Expression::Argument(0), at(4, 2)),
            (Expression::Field(5, 3), at(4, 5)),
        ],
        &[],
        6,
    );
    Ok(())
}

// Each escape is one character, in a literal of a character and of a text.
#[test]
fn literals_have_escapes(rt: HostRuntime) -> Result<(), Fail> {
    let body = last_body(
        rt.alloc(),
        "fn f() { ('\\n', '\\t', '\\\\', '\\'', '\\\"', '\\0', '\"', \"\\n\\t\\\\\\'\\\"\\0'\") }",
    )?;
    is_body(
        &rt,
        &body,
        &[
            (Expression::Literal(Literal::Char), at(1, 11)),
            (Expression::Literal(Literal::Char), at(1, 17)),
            (Expression::Literal(Literal::Char), at(1, 23)),
            (Expression::Literal(Literal::Char), at(1, 29)),
            (Expression::Literal(Literal::Char), at(1, 35)),
            (Expression::Literal(Literal::Char), at(1, 41)),
            (Expression::Literal(Literal::Char), at(1, 47)),
            (Expression::Literal(Literal::Str), at(1, 52)),
            (Expression::Tuple(span(0, 8)), at(1, 10)),
        ],
        &[0, 1, 2, 3, 4, 5, 6, 7],
        8,
    );
    Ok(())
}

// Returns the message about the source.
fn message(alloc: Global, source: &str) -> Result<String, Fail> {
    match read(alloc, source) {
        Ok(_) => Ok(String::new(alloc)),
        Err(error) => Ok(SyntaxError::to_string(&error, alloc)?),
    }
}

// A message would otherwise move a terminal's cursor, or ring its bell.
#[test]
fn a_message_holds_no_control_character(rt: HostRuntime) -> Result<(), Fail> {
    let bell = message(rt.alloc(), "fn f() { \u{7} }")?;
    assert_eq!(rt; bell.as_str(), "1:10: unknown control character U+0007");
    let escape = message(rt.alloc(), "'\\\u{1b}'")?;
    assert_eq!(rt;
        escape.as_str(),
        "1:3: unknown escape of a control character"
    );
    Ok(())
}

// A byte order mark is no part of the program, and of no column.
#[test]
fn a_byte_order_mark_is_space(rt: HostRuntime) -> Result<(), Fail> {
    let text = message(rt.alloc(), "\u{feff}fn f() { x }")?;
    assert_eq!(rt; text.as_str(), "1:10: unknown value `x`");
    Ok(())
}
