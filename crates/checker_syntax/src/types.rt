//! Types as they are written.

ghost use Rattle.std.specs.Prelude.{◌≤◌};
ghost use Rattle.checker_syntax.specs.Tokens.{tokens_left};

use crate::items::{DataName, Items};
use crate::message::wrong;
use crate::program::{Span, WrittenType};
use crate::syntax_error::SyntaxError;
use crate::token::{Token, TokenKind};
use crate::tokens::{LEVELS, Tokens};
use std::alloc::{AllocError, Global};
use std::mem;
use std::string::String;

/// A reader of types, and the types that were read.
#[derive(Drop)]
pub struct TypeReader<'a> {
    alloc: Global,
    pub tokens: Tokens<'a>,
    items: &'a Items,
    // The type parameters of the item that is read.
    params: Vec<usize>,
    types: Vec<WrittenType>,
    parts: Vec<usize>,
}

/// The numbers of the types or expressions that were read from a list in brackets.
#[derive(Debug, Drop)]
pub struct List {
    pub numbers: Vec<usize>,
    pub ends_in_comma: bool,
}

// What a type's name denotes, before its type arguments are read.
#[derive(Clone, Copy, Debug, PartialEq, Eq)]
enum NamedType {
    // A type without type parameters.
    Plain(WrittenType),
    Data(DataName),
}

/// Returns the built-in type of this name.
pub fn built_in_type(name: &str) -> Option<WrittenType> {
    match name {
        "i32" => Some(WrittenType::Int),
        "bool" => Some(WrittenType::Bool),
        "char" => Some(WrittenType::Char),
        "str" => Some(WrittenType::Str),
        _ => None,
    }
}

impl<'a> TypeReader<'a> {
    /// Returns a reader that has read no type.
    pub fn new(alloc: Global, tokens: Tokens<'a>, items: &'a Items) -> TypeReader<'a> {
        TypeReader {
            alloc,
            tokens,
            items,
            params: Vec::new(alloc),
            types: Vec::new(alloc),
            parts: Vec::new(alloc),
        }
    }

    /// Begins an item with these type parameters, at the tokens `rest`.
    pub fn begin_item(&mut self, params: Vec<usize>, rest: &'a [Token]) {
        self.params = params;
        self.tokens.go_to(rest);
    }

    /// Ends the item, and returns its type parameters.
    pub fn end_item(&mut self) -> Vec<usize> {
        mem::replace(&mut self.params, Vec::new(self.alloc))
    }

    /// Returns the types and their parts.
    pub fn into_lists(self) -> (Vec<WrittenType>, Vec<usize>) {
        (self.types, self.parts)
    }

    /// Reads a type, and returns its number.
    pub fn read_type(&mut self) -> Result<usize, SyntaxError>
        ensures { tokens_left self.new.tokens ≤ tokens_left self.old.tokens }
    {
        self.nested_type(LEVELS)
    }

    /// Adds the type `()`, and returns its number.
    pub fn unit(&mut self) -> Result<usize, AllocError>
        ensures { tokens_left self.new.tokens ≤ tokens_left self.old.tokens }
    {
        let none = Span {
            start: self.parts.len(),
            end: self.parts.len(),
        };
        self.push(WrittenType::Tuple(none))
    }

    /// Returns whether the name, which is this token, is a type parameter's or a built-in type's.
    pub fn has_no_fields(&self, name: usize, token: Token) -> bool {
        self.params.iter().any(|param| *param == name)
            || built_in_type(self.tokens.text(token)).is_some()
    }

    // Reads a type with at most this many levels, and returns its number.
    #[cycle(types)]
    fn nested_type(&mut self, levels: usize) -> Result<usize, SyntaxError>
        ensures { tokens_left self.new.tokens ≤ tokens_left self.old.tokens }
    {
        if levels == 0 {
            return Err(self.tokens.too_deep());
        }
        let token = self.tokens.peek();
        match token.kind {
            TokenKind::Ampersand => {
                self.tokens.advance();
                let target = self.nested_type(levels - 1)?;
                Ok(self.push(WrittenType::Reference(target))?)
            }
            TokenKind::OpenParen => {
                self.tokens.advance();
                self.tuple(levels - 1)
            }
            TokenKind::Name(name) => {
                let named = self.named_type(name, token)?;
                self.tokens.advance();
                self.with_arguments(named, token, levels - 1)
            }
            _ => Err(self.tokens.expected("a type")),
        }
    }

    // Reads the rest of a tuple, or of a type in parentheses.
    #[cycle(types)]
    fn tuple(&mut self, levels: usize) -> Result<usize, SyntaxError>
        ensures { tokens_left self.new.tokens ≤ tokens_left self.old.tokens }
    {
        let list = self.list(TokenKind::CloseParen, levels)?;
        if let [only] = list.numbers.as_slice()
            && !list.ends_in_comma
        {
            return Ok(*only);
        }
        let span = self.push_parts(list.numbers.as_slice())?;
        Ok(self.push(WrittenType::Tuple(span))?)
    }

    // Reads the type arguments of a name, if there are any.
    #[cycle(types)]
    fn with_arguments(
        &mut self,
        named: NamedType,
        token: Token,
        levels: usize,
    ) -> Result<usize, SyntaxError>
        ensures { tokens_left self.new.tokens ≤ tokens_left self.old.tokens }
    {
        let mut arguments = Vec::new(self.alloc);
        if self.tokens.eat(TokenKind::Less) {
            arguments = self.list(TokenKind::Greater, levels)?.numbers;
        }
        self.apply(named, arguments.as_slice(), token)
    }

    // Reads types with commas between them, and the closing token after them.
    #[cycle(types)]
    fn list(&mut self, close: TokenKind, levels: usize) -> Result<List, SyntaxError>
        ensures { tokens_left self.new.tokens ≤ tokens_left self.old.tokens }
    {
        let mut numbers = Vec::new(self.alloc);
        let mut ends_in_comma = false;
        while !self.tokens.eat(close) {
            numbers.push(self.nested_type(levels)?)?;
            ends_in_comma = self.tokens.eat(TokenKind::Comma);
            if !ends_in_comma {
                self.tokens.expect(close)?;
                break;
            }
        }
        Ok(List {
            numbers,
            ends_in_comma,
        })
    }

    // Returns what the type's name denotes.
    fn named_type(&self, name: usize, token: Token) -> Result<NamedType, SyntaxError> {
        if let Some(param) = self.params.iter().position(|param| *param == name) {
            return Ok(NamedType::Plain(WrittenType::Param(param, name)));
        }
        let text = self.tokens.text(token);
        if let Some(plain) = built_in_type(text) {
            return Ok(NamedType::Plain(plain));
        }
        match self.items.data(name) {
            Some(data) => Ok(NamedType::Data(data)),
            None => Err(wrong(token.place, format!(in self.alloc; "unknown type `{text}`"))),
        }
    }

    // Adds the type with these type arguments, and returns its number.
    fn apply(
        &mut self,
        named: NamedType,
        arguments: &[usize],
        token: Token,
    ) -> Result<usize, SyntaxError>
        ensures { tokens_left self.new.tokens ≤ tokens_left self.old.tokens }
    {
        let params = match named {
            NamedType::Plain(_) => 0,
            NamedType::Data(data) => data.params,
        };
        if params != arguments.len() {
            let name = self.tokens.text(token);
            let text = wrong_count(self.alloc, name, params, arguments.len());
            return Err(wrong(token.place, text));
        }
        let ty = match named {
            NamedType::Plain(plain) => plain,
            NamedType::Data(data) => WrittenType::Data(data.number, self.push_parts(arguments)?),
        };
        Ok(self.push(ty)?)
    }

    // Adds the type, and returns its number.
    fn push(&mut self, ty: WrittenType) -> Result<usize, AllocError>
        ensures { tokens_left self.new.tokens ≤ tokens_left self.old.tokens }
    {
        let number = self.types.len();
        self.types.push(ty)?;
        Ok(number)
    }

    // Adds the numbers to the parts, and returns where they are.
    fn push_parts(&mut self, numbers: &[usize]) -> Result<Span, AllocError>
        ensures { tokens_left self.new.tokens ≤ tokens_left self.old.tokens }
    {
        let start = self.parts.len();
        self.parts.extend_from_slice(numbers)?;
        Ok(Span {
            start,
            end: self.parts.len(),
        })
    }
}

// Returns the message that the numbers of type arguments and type parameters differ.
fn wrong_count(
    alloc: Global,
    name: &str,
    params: usize,
    arguments: usize,
) -> Result<String, AllocError> {
    let parameters = if params == 1 {
        "parameter"
    } else {
        "parameters"
    };
    let arguments_are = if arguments == 1 {
        "argument is"
    } else {
        "arguments are"
    };
    format!(in alloc;
        "`{name}` has {params} type {parameters}, but {arguments} type {arguments_are} given"
    )
}
