//! A reader of programs in a small language with generic structs and functions.
//!
//! [`read`] turns a source into a [`Program`](program::Program), in which each name is resolved and each type and
//! expression numbered. Types are read, but not checked. [`read_leniently`] goes on where a body is wrong.
//!
//! The tokens are for readers of other languages too.
#![tactic(auto)]

mod bodies;
mod declarations;
mod items;
pub mod lexer;
pub mod message;
pub mod names;
pub mod program;
pub mod syntax_error;
pub mod token;
pub mod tokens;
mod types;

use crate::bodies::BodyReader;
use crate::declarations::{Signature, read_signature, read_struct};
use crate::items::{Head, ItemKind, Items, read_heads};
use crate::lexer::Lexer;
use crate::message::Message;
use crate::program::{DataType, Function, Program};
use crate::syntax_error::SyntaxError;
use crate::tokens::Tokens;
use crate::types::TypeReader;
use std::alloc::Global;

/// Reads the program of a source. The first error is returned. The tokens are read first, then the items' names and
/// type parameters, then the structs and signatures, and then the bodies.
pub fn read(alloc: Global, source: &str) -> Result<Program, SyntaxError> {
    let mut messages = Vec::new(alloc);
    let program = read_leniently(alloc, source, &mut messages)?;
    match messages.into_iter().next() {
        Some(message) => Err(SyntaxError::Wrong(message)),
        None => Ok(program),
    }
}

/// Reads the program of a source. For each body that is wrong, a message is added, and the function is in the program
/// without its body. An error outside of bodies is returned.
pub fn read_leniently(
    alloc: Global,
    source: &str,
    messages: &mut Vec<Message>,
) -> Result<Program, SyntaxError> {
    let mut lexer = Lexer::new(alloc, source);
    let list = lexer.tokens()?;
    let end = lexer.end();
    let names = lexer.into_names().into_texts();
    let mut tokens = Tokens::new(alloc, source, list.as_slice(), end);
    let mut items = Items::new(alloc);
    let heads = read_heads(alloc, &mut tokens, &mut items)?;
    let mut types = TypeReader::new(alloc, tokens, &items);
    let (data, signatures) = read_declarations(alloc, &mut types, heads)?;
    let mut bodies = BodyReader::new(alloc, types, &items, names.as_slice(), data.as_slice());
    let mut functions = Vec::new(alloc);
    for signature in signatures {
        functions.push(bodies.read_function(signature, messages)?)?;
    }
    let (types, parts) = bodies.into_types().into_lists();
    Ok(Program {
        names,
        types,
        parts,
        data,
        functions,
    })
}

// Returns the structs, and the signatures of the functions.
fn read_declarations<'a>(
    alloc: Global,
    types: &mut TypeReader<'a>,
    heads: Vec<Head<'a>>,
) -> Result<(Vec<DataType>, Vec<Signature<'a>>), SyntaxError> {
    let mut data = Vec::new(alloc);
    let mut signatures = Vec::new(alloc);
    for head in heads {
        match head.kind {
            ItemKind::Struct => data.push(read_struct(alloc, types, head)?)?,
            ItemKind::Fn => signatures.push(read_signature(alloc, types, head)?)?,
        }
    }
    Ok((data, signatures))
}
