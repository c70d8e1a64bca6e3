//! Functions' bodies.

use super::{at, is_body, last_body, span};
use checker_syntax::program::{Expression, Literal, Program};
use checker_syntax::read;
use std::test::Fail;

// A tuple comes after its items, at the place of its parenthesis. One item in parentheses without a comma is no tuple.
#[test]
fn literals_and_tuples(rt: HostRuntime) -> Result<(), Fail> {
    let body = last_body(
        rt.alloc(),
        "fn f() { (1, ('x',), (\"t\"), (), true, false) }",
    )?;
    is_body(
        &rt,
        &body,
        &[
            (Expression::Literal(Literal::Int), at(1, 11)),
            (Expression::Literal(Literal::Char), at(1, 15)),
            (Expression::Tuple(span(0, 1)), at(1, 14)),
            (Expression::Literal(Literal::Str), at(1, 23)),
            (Expression::Tuple(span(1, 1)), at(1, 29)),
            (Expression::Literal(Literal::Bool), at(1, 33)),
            (Expression::Literal(Literal::Bool), at(1, 39)),
            (Expression::Tuple(span(1, 7)), at(1, 10)),
        ],
        &[1, 0, 2, 3, 4, 5, 6],
        7,
    );
    Ok(())
}

// A name refers to the last `let` before it in scope, or else to an argument. Without a last expression a body ends in
// `()`.
#[test]
fn variables_and_shadowing(rt: HostRuntime) -> Result<(), Fail> {
    let source = "fn f(a: i32, b: i32) {\n a; let a: bool = a;\n { let b = a; b };\n b; a; }";
    let body = last_body(rt.alloc(), source)?;
    is_body(
        &rt,
        &body,
        &[
            (Expression::Argument(0), at(2, 2)),
            (Expression::Argument(0), at(2, 19)),
            (Expression::Let(1, Some(3)), at(2, 5)),
            (Expression::Local(2), at(3, 12)),
            (Expression::Let(3, None), at(3, 4)),
            (Expression::Local(4), at(3, 15)),
            (Expression::Argument(1), at(4, 2)),
            (Expression::Local(2), at(4, 5)),
            (Expression::Tuple(span(0, 0)), at(4, 8)),
        ],
        &[],
        8,
    );
    Ok(())
}

// A dot binds tighter than `&` and `*`, and `.0.1` is two items.
#[test]
fn references_and_selections(rt: HostRuntime) -> Result<(), Fail> {
    let body = last_body(rt.alloc(), "fn f(a: i32) { *&a.0.1 .x; (&a).y; 1.a }")?;
    is_body(
        &rt,
        &body,
        &[
            (Expression::Argument(0), at(1, 18)),
            (Expression::Item(0, 0), at(1, 20)),
            (Expression::Item(1, 1), at(1, 22)),
            (Expression::Field(2, 3), at(1, 25)),
            (Expression::Reference(3), at(1, 17)),
            (Expression::Dereference(4), at(1, 16)),
            (Expression::Argument(0), at(1, 30)),
            (Expression::Reference(6), at(1, 29)),
            (Expression::Field(7, 4), at(1, 33)),
            (Expression::Literal(Literal::Int), at(1, 36)),
            (Expression::Field(9, 1), at(1, 38)),
        ],
        &[],
        10,
    );
    Ok(())
}

// Arguments come before their call. Fields are in the order of the declaration, in whichever order they are written.
#[test]
fn calls_and_structs(rt: HostRuntime) -> Result<(), Fail> {
    let source = "struct P<T> { x: T, y: T } fn g(a: i32);
fn f(a: i32, y: i32) { P { y, x: g(f(a, 1,)), }; g(); P { x: 1, y: a }.x }";
    let body = last_body(rt.alloc(), source)?;
    is_body(
        &rt,
        &body,
        &[
            (Expression::Argument(1), at(2, 28)),
            (Expression::Argument(0), at(2, 38)),
            (Expression::Literal(Literal::Int), at(2, 41)),
            (Expression::Call(1, span(0, 2)), at(2, 36)),
            (Expression::Call(0, span(2, 3)), at(2, 34)),
            (Expression::Data(0, span(3, 5)), at(2, 24)),
            (Expression::Call(0, span(5, 5)), at(2, 50)),
            (Expression::Literal(Literal::Int), at(2, 62)),
            (Expression::Argument(0), at(2, 68)),
            (Expression::Data(0, span(5, 7)), at(2, 55)),
            (Expression::Field(9, 2), at(2, 72)),
        ],
        &[1, 2, 3, 4, 0, 7, 8],
        10,
    );
    Ok(())
}

// A program with most of the language.
const EXAMPLE: &str = "
    struct Pair<A, B> { first: A, second: B }
    struct Vec<T> { item: T }
    fn swap<A, B>(pair: Pair<A, B>) -> Pair<B, A> {
        Pair { first: pair.second, second: pair.first }
    }
    fn push<T>(vec: &Vec<T>, item: T) -> Vec<T>;
    fn main() -> i32 {
        let pair: Pair<i32, bool> = Pair { first: 1, second: true };
        let other = swap(pair);
        { let inner = (1, 'x', \"text\"); inner.0 };
        *(&other.second)
    }
";

// The program with most of the language has two data types, three functions and a body of 18 expressions.
#[test]
fn the_example(rt: HostRuntime) -> Result<(), Fail> {
    let program: Program = read(rt.alloc(), EXAMPLE)?;
    assert_eq!(rt; program.data.len(), 2);
    assert_eq!(rt; program.functions.len(), 3);
    assert!(rt; program.functions[0].body.is_some());
    assert!(rt; program.functions[1].body.is_none());
    assert_eq!(rt; program.functions[1].inputs.len(), 2);
    let body = last_body(rt.alloc(), EXAMPLE)?;
    assert_eq!(rt; body.expressions.len(), 18);
    assert_eq!(rt; body.result, 17);
    Ok(())
}
