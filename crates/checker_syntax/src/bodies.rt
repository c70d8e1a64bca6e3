//! Functions' bodies.

mod build;

ghost use Rattle.std.specs.Prelude.{◌≤◌};
ghost use Rattle.checker_syntax.specs.Tokens.{tokens_left};

use crate::declarations::Signature;
use crate::items::{DataName, Items};
use crate::message::Message;
use crate::program::{Body, DataType, Expression, Function, Literal, Place};
use crate::syntax_error::SyntaxError;
use crate::token::{Token, TokenKind};
use crate::tokens::LEVELS;
use crate::types::{List, TypeReader};
use std::alloc::Global;
use std::mem;
use std::string::String;

/// A reader of bodies, and the parts of a body that were read.
#[derive(Drop)]
pub struct BodyReader<'a> {
    alloc: Global,
    types: TypeReader<'a>,
    items: &'a Items,
    names: &'a [String],
    data: &'a [DataType],
    // The variables that are in scope, the innermost last.
    scope: Vec<Variable>,
    expressions: Vec<Expression>,
    places: Vec<Place>,
    operands: Vec<usize>,
}

// A name in scope, and the expression that a use of the name becomes.
#[derive(Clone, Copy, Debug, PartialEq, Eq)]
struct Variable {
    name: usize,
    value: Expression,
}

// A field's name in the value of a struct, and the number of the expression for the field.
#[derive(Clone, Copy, Debug, PartialEq, Eq)]
struct FieldValue {
    name: usize,
    value: usize,
}

impl<'a> BodyReader<'a> {
    /// Returns a reader of bodies.
    pub fn new(
        alloc: Global,
        types: TypeReader<'a>,
        items: &'a Items,
        names: &'a [String],
        data: &'a [DataType],
    ) -> BodyReader<'a> {
        BodyReader {
            alloc,
            types,
            items,
            names,
            data,
            scope: Vec::new(alloc),
            expressions: Vec::new(alloc),
            places: Vec::new(alloc),
            operands: Vec::new(alloc),
        }
    }

    /// Returns the reader of types.
    pub fn into_types(self) -> TypeReader<'a> {
        self.types
    }

    /// Returns the function of the signature, with its body. Where the body is wrong, a message is added, and the function
    /// has none.
    pub fn read_function(
        &mut self,
        signature: Signature<'a>,
        messages: &mut Vec<Message>,
    ) -> Result<Function, SyntaxError> {
        let Signature {
            name,
            place,
            params,
            arguments,
            inputs,
            output,
            body,
        } = signature;
        let Some(rest) = body else {
            return Ok(Function {
                name,
                place,
                params,
                inputs,
                output,
                body: None,
            });
        };
        self.types.begin_item(params, rest);
        self.declare_arguments(arguments.as_slice())?;
        let body = match self.read_body() {
            Ok(body) => Some(body),
            Err(SyntaxError::Wrong(message)) => {
                messages.push(message)?;
                None
            }
            Err(SyntaxError::Memory) => return Err(SyntaxError::Memory),
        };
        Ok(Function {
            name,
            place,
            params: self.types.end_item(),
            inputs,
            output,
            body,
        })
    }

    // Reads a body up to the next item.
    fn read_body(&mut self) -> Result<Body, SyntaxError> {
        // A body that was wrong may have left some of these.
        self.expressions.clear();
        self.places.clear();
        self.operands.clear();
        self.types.tokens.expect(TokenKind::OpenBrace)?;
        let result = self.block(LEVELS)?;
        self.types.tokens.expect_item()?;
        Ok(Body {
            expressions: mem::replace(&mut self.expressions, Vec::new(self.alloc)),
            places: mem::replace(&mut self.places, Vec::new(self.alloc)),
            operands: mem::replace(&mut self.operands, Vec::new(self.alloc)),
            result,
        })
    }

    // Reads the rest of a block, and returns the number of its value.
    #[cycle(bodies)]
    fn block(&mut self, levels: usize) -> Result<usize, SyntaxError>
        ensures { tokens_left self.new.types.tokens ≤ tokens_left self.old.types.tokens }
    {
        let outer = self.scope.len();
        let value = self.statements(levels)?;
        self.scope.truncate(outer);
        Ok(value)
    }

    // Reads statements and the closing brace after them, and returns the number of the last expression or of `()`.
    #[cycle(bodies)]
    fn statements(&mut self, levels: usize) -> Result<usize, SyntaxError>
        ensures { tokens_left self.new.types.tokens ≤ tokens_left self.old.types.tokens }
    {
        loop {
            let place = self.types.tokens.peek().place;
            if self.types.tokens.eat(TokenKind::CloseBrace) {
                return self.tuple(&[], place);
            }
            if self.types.tokens.eat(TokenKind::Let) {
                self.let_statement(place, levels)?;
            } else {
                let value = self.expression(levels)?;
                if self.types.tokens.eat(TokenKind::CloseBrace) {
                    return Ok(value);
                }
                if !self.types.tokens.eat(TokenKind::Semicolon) {
                    return Err(self.types.tokens.expected("`;` or `}`"));
                }
            }
        }
    }

    // Reads the rest of a `let` statement, whose keyword is at the place.
    #[cycle(bodies)]
    fn let_statement(&mut self, place: Place, levels: usize) -> Result<(), SyntaxError>
        ensures { tokens_left self.new.types.tokens ≤ tokens_left self.old.types.tokens }
    {
        let name = self.types.tokens.name("a name")?;
        let mut ty = None;
        if self.types.tokens.eat(TokenKind::Colon) {
            ty = Some(self.types.read_type()?);
        }
        self.types.tokens.expect(TokenKind::Equals)?;
        let value = self.expression(levels)?;
        self.types.tokens.expect(TokenKind::Semicolon)?;
        self.declare_local(name, value, ty, place)
    }

    // Reads an expression with at most this many levels, and returns its number.
    #[cycle(bodies)]
    fn expression(&mut self, levels: usize) -> Result<usize, SyntaxError>
        ensures { tokens_left self.new.types.tokens ≤ tokens_left self.old.types.tokens }
    {
        if levels == 0 {
            return Err(self.types.tokens.too_deep());
        }
        let place = self.types.tokens.peek().place;
        if self.types.tokens.eat(TokenKind::Ampersand) {
            let target = self.expression(levels - 1)?;
            return self.push(Expression::Reference(target), place);
        }
        if self.types.tokens.eat(TokenKind::Star) {
            let target = self.expression(levels - 1)?;
            return self.push(Expression::Dereference(target), place);
        }
        let mut value = self.operand(levels - 1)?;
        while self.types.tokens.eat(TokenKind::Dot) {
            value = self.selection(value)?;
        }
        Ok(value)
    }

    // Reads an expression that isn't a reference, a dereference or a selection.
    #[cycle(bodies)]
    fn operand(&mut self, levels: usize) -> Result<usize, SyntaxError>
        ensures { tokens_left self.new.types.tokens ≤ tokens_left self.old.types.tokens }
    {
        let token = self.types.tokens.peek();
        if let Some(literal) = literal(token.kind) {
            self.check_integer(token)?;
            self.types.tokens.advance();
            return self.push(Expression::Literal(literal), token.place);
        }
        match token.kind {
            TokenKind::OpenParen => {
                self.types.tokens.advance();
                self.parentheses(token.place, levels)
            }
            TokenKind::OpenBrace => {
                self.types.tokens.advance();
                self.block(levels)
            }
            TokenKind::Name(name) => {
                self.types.tokens.advance();
                self.named(name, token, levels)
            }
            _ => Err(self.types.tokens.expected("an expression")),
        }
    }

    // Reads what comes after a name: the arguments of a call, the fields of a value, or nothing after a variable.
    #[cycle(bodies)]
    fn named(&mut self, name: usize, token: Token, levels: usize) -> Result<usize, SyntaxError>
        ensures { tokens_left self.new.types.tokens ≤ tokens_left self.old.types.tokens }
    {
        if self.types.tokens.eat(TokenKind::OpenParen) {
            let function = self.function(name, token)?;
            let arguments = self.list(levels)?;
            return self.call(function, arguments.numbers.as_slice(), token.place);
        }
        if self.types.tokens.eat(TokenKind::OpenBrace) {
            let data = self.data_name(name, token)?;
            let values = self.field_values(data, levels)?;
            return self.data_value(data, values.as_slice(), token);
        }
        self.variable(name, token)
    }

    // Reads the rest of a tuple or of an expression in parentheses.
    #[cycle(bodies)]
    fn parentheses(&mut self, place: Place, levels: usize) -> Result<usize, SyntaxError>
        ensures { tokens_left self.new.types.tokens ≤ tokens_left self.old.types.tokens }
    {
        let list = self.list(levels)?;
        if let [only] = list.numbers.as_slice()
            && !list.ends_in_comma
        {
            return Ok(*only);
        }
        self.tuple(list.numbers.as_slice(), place)
    }

    // Reads expressions with commas between them, and the closing parenthesis after them.
    #[cycle(bodies)]
    fn list(&mut self, levels: usize) -> Result<List, SyntaxError>
        ensures { tokens_left self.new.types.tokens ≤ tokens_left self.old.types.tokens }
    {
        let mut numbers = Vec::new(self.alloc);
        let mut ends_in_comma = false;
        while !self.types.tokens.eat(TokenKind::CloseParen) {
            numbers.push(self.expression(levels)?)?;
            ends_in_comma = self.types.tokens.eat(TokenKind::Comma);
            if !ends_in_comma {
                self.types.tokens.expect(TokenKind::CloseParen)?;
                break;
            }
        }
        Ok(List {
            numbers,
            ends_in_comma,
        })
    }

    // Reads the fields of a struct's value, and the closing brace after them.
    #[cycle(bodies)]
    fn field_values(
        &mut self,
        data: DataName,
        levels: usize,
    ) -> Result<Vec<FieldValue>, SyntaxError>
        ensures { tokens_left self.new.types.tokens ≤ tokens_left self.old.types.tokens }
    {
        let mut values = Vec::new(self.alloc);
        while !self.types.tokens.eat(TokenKind::CloseBrace) {
            let token = self.types.tokens.peek();
            let name = self.types.tokens.name("a field's name")?;
            self.check_field(data, name, values.as_slice(), token)?;
            let value = if self.types.tokens.eat(TokenKind::Colon) {
                self.expression(levels)?
            } else {
                self.variable(name, token)?
            };
            values.push(FieldValue { name, value })?;
            if !self.types.tokens.eat(TokenKind::Comma) {
                self.types.tokens.expect(TokenKind::CloseBrace)?;
                break;
            }
        }
        Ok(values)
    }
}

// Returns the literal of this token.
fn literal(kind: TokenKind) -> Option<Literal> {
    match kind {
        TokenKind::Int => Some(Literal::Int),
        TokenKind::Char => Some(Literal::Char),
        TokenKind::Text => Some(Literal::Str),
        TokenKind::True | TokenKind::False => Some(Literal::Bool),
        _ => None,
    }
}
