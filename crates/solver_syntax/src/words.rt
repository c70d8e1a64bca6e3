//! Words and names.

ghost use Rattle.std.specs.Prelude.{◌≤◌};
ghost use Rattle.checker_syntax.specs.Tokens.{tokens_left};

use crate::script::WrittenType;
use checker_syntax::message::wrong;
use checker_syntax::program::Place;
use checker_syntax::syntax_error::SyntaxError;
use checker_syntax::token::{Token, TokenKind};
use checker_syntax::tokens::Tokens;
use std::alloc::Global;

/// What an item is.
#[derive(Clone, Copy, Debug, PartialEq, Eq)]
pub enum ItemKind {
    Struct,
    Trait,
    Impl,
    Goals,
}

/// A name that is declared, and where it is.
#[derive(Clone, Copy, Debug, PartialEq, Eq)]
pub struct Declared {
    pub name: usize,
    pub place: Place,
}

/// Returns what kind of item the token begins.
pub fn item_kind(tokens: &Tokens, token: Token) -> Option<ItemKind> {
    match tokens.text(token) {
        "struct" => Some(ItemKind::Struct),
        "trait" => Some(ItemKind::Trait),
        "impl" => Some(ItemKind::Impl),
        "goals" => Some(ItemKind::Goals),
        _ => None,
    }
}

/// Returns the built-in type of this name.
pub fn built_in_type(name: &str) -> Option<WrittenType> {
    match name {
        "i32" => Some(WrittenType::Int),
        "u32" => Some(WrittenType::Unsigned),
        "bool" => Some(WrittenType::Bool),
        "char" => Some(WrittenType::Char),
        "str" => Some(WrittenType::Str),
        _ => None,
    }
}

// Returns whether the text is a word of the language, and so no name.
fn is_word(text: &str) -> bool {
    matches!(text, "trait" | "impl" | "goals" | "for" | "where")
}

/// Passes over the next token if it is this word, and returns whether it is.
pub fn eat_word(tokens: &mut Tokens, word: &str) -> bool
    ensures { tokens_left tokens.new ≤ tokens_left tokens.old }
{
    let is_next = tokens.text(tokens.peek()) == word;
    if is_next {
        tokens.advance();
    }
    is_next
}

/// Passes over the next token, which has to be a name, and returns the name's number. Messages call the name `what`.
pub fn read_name(tokens: &mut Tokens, what: &str) -> Result<usize, SyntaxError>
    ensures { tokens_left tokens.new ≤ tokens_left tokens.old }
{
    if is_word(tokens.text(tokens.peek())) {
        return Err(tokens.expected(what));
    }
    tokens.name(what)
}

/// Passes over the next token, which has to be a name that a type may have, and returns the name.
pub fn read_type_name(
    alloc: Global,
    tokens: &mut Tokens,
    what: &str,
) -> Result<Declared, SyntaxError>
    ensures { tokens_left tokens.new ≤ tokens_left tokens.old }
{
    let token = tokens.peek();
    let name = read_name(tokens, what)?;
    let text = tokens.text(token);
    if built_in_type(text).is_some() {
        let text = format!(in alloc; "`{text}` is a built-in type: choose another name");
        return Err(wrong(token.place, text));
    }
    Ok(Declared {
        name,
        place: token.place,
    })
}

/// Returns the type parameters that come next, if there are any.
pub fn read_params(alloc: Global, tokens: &mut Tokens) -> Result<Vec<Declared>, SyntaxError>
    ensures { tokens_left tokens.new ≤ tokens_left tokens.old }
{
    let mut params: Vec<Declared> = Vec::new(alloc);
    if !tokens.eat(TokenKind::Less) {
        return Ok(params);
    }
    'params: while !tokens.eat(TokenKind::Greater) {
        let token = tokens.peek();
        let param = read_type_name(alloc, tokens, "a type parameter's name")?;
        if params.iter().any(|other| other.name == param.name) {
            let name = tokens.text(token);
            let text = format!(in alloc; "the type parameter `{name}` is declared twice");
            return Err(wrong(token.place, text));
        }
        params.push(param)?;
        if !tokens.eat(TokenKind::Comma) {
            tokens.expect(TokenKind::Greater)?;
            break;
        }
    }
    Ok(params)
}
