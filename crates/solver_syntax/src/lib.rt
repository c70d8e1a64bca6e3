//! A reader of texts with traits, implementations and goals.
//!
//! [`read`] turns a source into a [`Script`](script::Script), in which each name is resolved and each type numbered. The
//! tokens are those of `checker_syntax`.
#![tactic(auto)]

mod declarations;
mod items;
pub mod script;
mod types;
mod words;

use crate::declarations::{Names, read_declarations};
use crate::items::read_items;
use crate::script::Script;
use crate::types::Reader;
use checker_syntax::lexer::Lexer;
use checker_syntax::syntax_error::SyntaxError;
use checker_syntax::tokens::Tokens;
use std::alloc::Global;

/// Reads a source. The first error is returned. The tokens are read first, then the names of the data types and traits
/// with their parameters, and then the implementations and goals.
pub fn read(alloc: Global, source: &str) -> Result<Script, SyntaxError> {
    let mut lexer = Lexer::new(alloc, source);
    let list = lexer.tokens()?;
    let end = lexer.end();
    let texts = lexer.into_names().into_texts();
    let mut tokens = Tokens::new(alloc, source, list.as_slice(), end);
    let mut names = Names::new(alloc);
    read_declarations(alloc, &mut tokens, &mut names)?;
    tokens.go_to(list.as_slice());
    let mut reader = Reader::new(alloc, tokens, &names);
    let (implementations, groups) = read_items(alloc, &mut reader)?;
    let (types, parts) = reader.into_lists();
    let (data, traits) = names.into_lists();
    Ok(Script {
        names: texts,
        types,
        parts,
        data,
        traits,
        implementations,
        groups,
    })
}
