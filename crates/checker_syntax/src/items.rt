//! The items of a program: their names and type parameters.

ghost use Rattle.std.specs.Prelude.{◌<◌, ◌≤◌, OnSome};
ghost use Rattle.checker_syntax.specs.Tokens.{tokens_left};

use crate::message::wrong;
use crate::program::Place;
use crate::syntax_error::SyntaxError;
use crate::token::{Token, TokenKind};
use crate::tokens::Tokens;
use crate::types::built_in_type;
use std::alloc::{AllocError, Global};
use std::collections::HashMap;

/// What an item is.
#[derive(Clone, Copy, Debug, PartialEq, Eq)]
pub enum ItemKind {
    Struct,
    Fn,
}

/// The beginning of an item: what it is, its name and its type parameters, and the tokens after them.
#[derive(Drop)]
pub struct Head<'a> {
    pub kind: ItemKind,
    pub name: usize,
    pub place: Place,
    pub params: Vec<usize>,
    pub rest: &'a [Token],
}

/// A data type's number, and how many type parameters it has.
#[derive(Clone, Copy, Debug, PartialEq, Eq)]
pub struct DataName {
    pub number: usize,
    pub params: usize,
}

/// The numbers of a program's items by the numbers of their names.
#[derive(Drop)]
pub struct Items {
    data: HashMap<usize, DataName>,
    functions: HashMap<usize, usize>,
}

impl Items {
    /// Returns an empty table of items.
    pub fn new(alloc: Global) -> Items {
        Items {
            data: HashMap::new(alloc),
            functions: HashMap::new(alloc),
        }
    }

    /// Returns the data type of this name.
    pub fn data(&self, name: usize) -> Option<DataName> {
        self.data.get(&name).copied()
    }

    /// Returns the number of the function of this name.
    pub fn function(&self, name: usize) -> Option<usize> {
        self.functions.get(&name).copied()
    }

    // Numbers the item, and returns whether it is the first of its kind with its name.
    fn declare(&mut self, head: &Head) -> Result<bool, AllocError> {
        match head.kind {
            ItemKind::Struct => {
                let data = DataName {
                    number: self.data.len(),
                    params: head.params.len(),
                };
                Ok(self.data.insert(head.name, data)?.is_none())
            }
            ItemKind::Fn => {
                let number = self.functions.len();
                Ok(self.functions.insert(head.name, number)?.is_none())
            }
        }
    }
}

/// Returns the beginnings of the items, and numbers the items by their names. No item is inside of another, so each
/// `struct` and each `fn` begins an item, and the tokens between are passed over.
pub fn read_heads<'a>(
    alloc: Global,
    tokens: &mut Tokens<'a>,
    items: &mut Items,
) -> Result<Vec<Head<'a>>, SyntaxError> {
    tokens.expect_item()?;
    let mut heads = Vec::new(alloc);
    while let Some(kind) = next_item(tokens) {
        heads.push(read_head(alloc, tokens, items, kind)?)?;
    }
    Ok(heads)
}

// Passes over the tokens up to and including the next item's keyword, and returns what the keyword begins.
fn next_item(tokens: &mut Tokens) -> Option<ItemKind>
    ensures { OnSome result (tokens_left tokens.new < tokens_left tokens.old) }
{
    while let Some(token) = tokens.next() {
        match token.kind {
            TokenKind::Struct => return Some(ItemKind::Struct),
            TokenKind::Fn => return Some(ItemKind::Fn),
            _ => {}
        }
    }
    None
}

// Returns the beginning of the item after its keyword, and numbers the item.
fn read_head<'a>(
    alloc: Global,
    tokens: &mut Tokens<'a>,
    items: &mut Items,
    kind: ItemKind,
) -> Result<Head<'a>, SyntaxError>
    ensures { tokens_left tokens.new ≤ tokens_left tokens.old }
{
    let token = tokens.peek();
    let name = tokens.name("a name")?;
    if kind == ItemKind::Struct {
        check_type_name(alloc, tokens, token)?;
    }
    let params = read_params(alloc, tokens)?;
    let head = Head {
        kind,
        name,
        place: token.place,
        params,
        rest: tokens.rest(),
    };
    if items.declare(&head)? {
        return Ok(head);
    }
    let name = tokens.text(token);
    let text = match kind {
        ItemKind::Struct => format!(in alloc; "the type `{name}` is declared twice"),
        ItemKind::Fn => format!(in alloc; "the function `{name}` is declared twice"),
    };
    Err(wrong(token.place, text))
}

// Returns an error if a type can't have this name.
fn check_type_name(alloc: Global, tokens: &Tokens, token: Token) -> Result<(), SyntaxError> {
    let name = tokens.text(token);
    if built_in_type(name).is_none() {
        return Ok(());
    }
    Err(wrong(
        token.place,
        format!(in alloc; "`{name}` is a built-in type: choose another name"),
    ))
}

// Returns the names of the type parameters that come next, if there are any.
fn read_params(alloc: Global, tokens: &mut Tokens) -> Result<Vec<usize>, SyntaxError>
    ensures { tokens_left tokens.new ≤ tokens_left tokens.old }
{
    let mut params = Vec::new(alloc);
    if !tokens.eat(TokenKind::Less) {
        return Ok(params);
    }
    while !tokens.eat(TokenKind::Greater) {
        let token = tokens.peek();
        let name = tokens.name("a type parameter's name")?;
        check_type_name(alloc, tokens, token)?;
        if params.contains(&name) {
            let name = tokens.text(token);
            let text = format!(in alloc; "the type parameter `{name}` is declared twice");
            return Err(wrong(token.place, text));
        }
        params.push(name)?;
        if !tokens.eat(TokenKind::Comma) {
            tokens.expect(TokenKind::Greater)?;
            break;
        }
    }
    Ok(params)
}
