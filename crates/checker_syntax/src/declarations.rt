//! Structs and functions' signatures.

use crate::items::Head;
use crate::message::wrong;
use crate::program::{DataType, Field, Place};
use crate::syntax_error::SyntaxError;
use crate::token::{Token, TokenKind};
use crate::types::TypeReader;
use std::alloc::Global;

/// A function without its body. If the function has a body, `body` has the tokens from there on, which are still to be
/// read.
#[derive(Drop)]
pub struct Signature<'a> {
    pub name: usize,
    pub place: Place,
    pub params: Vec<usize>,
    /// The names of the arguments.
    pub arguments: Vec<usize>,
    pub inputs: Vec<usize>,
    pub output: usize,
    pub body: Option<&'a [Token]>,
}

/// Reads the rest of a struct after its head.
pub fn read_struct<'a>(
    alloc: Global,
    reader: &mut TypeReader<'a>,
    head: Head<'a>,
) -> Result<DataType, SyntaxError> {
    let Head {
        name,
        place,
        params,
        rest,
        ..
    } = head;
    reader.begin_item(params, rest);
    let mut fields = Vec::new(alloc);
    if !reader.tokens.eat(TokenKind::Semicolon) {
        reader.tokens.expect(TokenKind::OpenBrace)?;
        fields = read_fields(alloc, reader, TokenKind::CloseBrace, "field")?;
    }
    reader.tokens.expect_item()?;
    Ok(DataType {
        name,
        place,
        params: reader.end_item(),
        fields,
    })
}

/// Reads the rest of a function's signature after its head, up to its body.
pub fn read_signature<'a>(
    alloc: Global,
    reader: &mut TypeReader<'a>,
    head: Head<'a>,
) -> Result<Signature<'a>, SyntaxError> {
    let Head {
        name,
        place,
        params,
        rest,
        ..
    } = head;
    reader.begin_item(params, rest);
    reader.tokens.expect(TokenKind::OpenParen)?;
    let fields = read_fields(alloc, reader, TokenKind::CloseParen, "argument")?;
    let output = if reader.tokens.eat(TokenKind::Arrow) {
        reader.read_type()?
    } else {
        reader.unit()?
    };
    let body = read_end(reader)?;
    Ok(Signature {
        name,
        place,
        params: reader.end_item(),
        arguments: fields.iter().map(|field| field.name).collect(alloc)?,
        inputs: fields.iter().map(|field| field.ty).collect(alloc)?,
        output,
        body,
    })
}

// Reads the end of a signature, and returns the tokens from the body on, if one comes next.
fn read_end<'a>(reader: &mut TypeReader<'a>) -> Result<Option<&'a [Token]>, SyntaxError> {
    if reader.tokens.eat(TokenKind::Semicolon) {
        reader.tokens.expect_item()?;
        return Ok(None);
    }
    match reader.tokens.peek().kind {
        TokenKind::OpenBrace => Ok(Some(reader.tokens.rest())),
        _ => Err(reader.tokens.expected("`{` or `;`")),
    }
}

// Reads names with their types, and the closing token after them. Messages call each name `what`.
fn read_fields(
    alloc: Global,
    reader: &mut TypeReader,
    close: TokenKind,
    what: &str,
) -> Result<Vec<Field>, SyntaxError> {
    let mut fields: Vec<Field> = Vec::new(alloc);
    while !reader.tokens.eat(close) {
        let token = reader.tokens.peek();
        let name = reader.tokens.name("a name")?;
        if fields.iter().any(|field| field.name == name) {
            let name = reader.tokens.text(token);
            let text = format!(in alloc; "the {what} `{name}` is declared twice");
            return Err(wrong(token.place, text));
        }
        reader.tokens.expect(TokenKind::Colon)?;
        let ty = reader.read_type()?;
        fields.push(Field { name, ty })?;
        if !reader.tokens.eat(TokenKind::Comma) {
            reader.tokens.expect(close)?;
            break;
        }
    }
    Ok(fields)
}
