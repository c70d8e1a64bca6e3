//! Types as they are written.

ghost use Rattle.std.specs.Prelude.{◌≤◌};
ghost use Rattle.checker_syntax.specs.Tokens.{tokens_left};

use crate::declarations::{Named, Names};
use crate::script::WrittenType;
use crate::words::{Declared, built_in_type, read_name};
use checker_syntax::message::wrong;
use checker_syntax::program::Span;
use checker_syntax::syntax_error::SyntaxError;
use checker_syntax::token::{Token, TokenKind};
use checker_syntax::tokens::{LEVELS, Tokens};
use std::alloc::{AllocError, Global};
use std::mem;
use std::string::String;

/// A reader of types, and the types that were read.
#[derive(Drop)]
pub struct Reader<'a> {
    pub alloc: Global,
    pub tokens: Tokens<'a>,
    pub names: &'a Names,
    // The type parameters of the item that is read.
    params: Vec<Declared>,
    // The names of the inference variables of the goal that is read, if one is.
    variables: Option<Vec<usize>>,
    types: Vec<WrittenType>,
    parts: Vec<usize>,
}

// The numbers of the types that were read from a list in brackets.
#[derive(Debug, Drop)]
struct List {
    numbers: Vec<usize>,
    ends_in_comma: bool,
}

// What a type's name denotes, before its type arguments are read.
#[derive(Clone, Copy, Debug, PartialEq, Eq)]
enum NamedType {
    // A type without type parameters.
    Plain(WrittenType),
    Data(Named),
}

impl<'a> Reader<'a> {
    /// Returns a reader that has read no type.
    pub fn new(alloc: Global, tokens: Tokens<'a>, names: &'a Names) -> Reader<'a> {
        Reader {
            alloc,
            tokens,
            names,
            params: Vec::new(alloc),
            variables: None,
            types: Vec::new(alloc),
            parts: Vec::new(alloc),
        }
    }

    /// Begins an item with these type parameters.
    pub fn begin_item(&mut self, params: Vec<Declared>)
        ensures { tokens_left self.new.tokens ≤ tokens_left self.old.tokens }
    {
        self.params = params;
    }

    /// Begins a goal, which may have inference variables.
    pub fn begin_goal(&mut self)
        ensures { tokens_left self.new.tokens ≤ tokens_left self.old.tokens }
    {
        self.variables = Some(Vec::new(self.alloc));
    }

    /// Ends the goal, and returns the names of its inference variables.
    pub fn end_goal(&mut self) -> Vec<usize>
        ensures { tokens_left self.new.tokens ≤ tokens_left self.old.tokens }
    {
        let none = Vec::new(self.alloc);
        mem::replace(&mut self.variables, None).unwrap_or(none)
    }

    /// Returns the types and their parts.
    pub fn into_lists(self) -> (Vec<WrittenType>, Vec<usize>) {
        (self.types, self.parts)
    }

    /// Returns how many types were read.
    pub fn count(&self) -> usize {
        self.types.len()
    }

    /// Returns the first type parameter of the item that none of the types is that were read after the first `count`.
    pub fn unused_param(&self, count: usize) -> Option<Declared> {
        let read = self.types.get(count..).unwrap_or(&[]);
        for (number, param) in self.params.iter().enumerate() {
            let it = WrittenType::Param(number, param.name);
            if !read.contains(&it) {
                return Some(*param);
            }
        }
        None
    }

    /// Reads a type, and returns its number.
    pub fn read_type(&mut self) -> Result<usize, SyntaxError>
        ensures { tokens_left self.new.tokens ≤ tokens_left self.old.tokens }
    {
        self.nested_type(LEVELS)
    }

    /// Reads the type arguments that come next, if there are any, and returns their numbers.
    pub fn arguments(&mut self) -> Result<Vec<usize>, SyntaxError>
        ensures { tokens_left self.new.tokens ≤ tokens_left self.old.tokens }
    {
        if !self.tokens.eat(TokenKind::Less) {
            return Ok(Vec::new(self.alloc));
        }
        Ok(self.list(TokenKind::Greater, LEVELS)?.numbers)
    }

    /// Returns an error unless this many type arguments are given to what the token names.
    pub fn check_count(
        &self,
        token: Token,
        params: usize,
        arguments: usize,
    ) -> Result<(), SyntaxError> {
        if params == arguments {
            return Ok(());
        }
        let name = self.tokens.text(token);
        let text = wrong_count(self.alloc, name, params, arguments);
        Err(wrong(token.place, text))
    }

    /// Adds the numbers to the parts, and returns where they are.
    pub fn push_parts(&mut self, numbers: &[usize]) -> Result<Span, AllocError>
        ensures { tokens_left self.new.tokens ≤ tokens_left self.old.tokens }
    {
        let start = self.parts.len();
        self.parts.extend_from_slice(numbers)?;
        Ok(Span {
            start,
            end: self.parts.len(),
        })
    }

    // Reads a type with at most this many levels, and returns its number.
    #[cycle(types)]
    fn nested_type(&mut self, levels: usize) -> Result<usize, SyntaxError>
        ensures { tokens_left self.new.tokens ≤ tokens_left self.old.tokens }
    {
        if levels == 0 {
            return Err(self.tokens.too_deep());
        }
        let token = self.tokens.peek();
        match token.kind {
            TokenKind::Ampersand => {
                self.tokens.advance();
                let target = self.nested_type(levels - 1)?;
                Ok(self.push(WrittenType::Reference(target))?)
            }
            TokenKind::OpenBracket => {
                self.tokens.advance();
                let item = self.nested_type(levels - 1)?;
                self.tokens.expect(TokenKind::CloseBracket)?;
                Ok(self.push(WrittenType::Slice(item))?)
            }
            TokenKind::OpenParen => {
                self.tokens.advance();
                self.tuple(levels - 1)
            }
            TokenKind::Question => {
                self.tokens.advance();
                self.variable(token)
            }
            TokenKind::Name(_) => {
                let name = read_name(&mut self.tokens, "a type")?;
                let named = self.named_type(name, token)?;
                self.with_arguments(named, token, levels - 1)
            }
            _ => Err(self.tokens.expected("a type")),
        }
    }

    // Reads the rest of a tuple, or of a type in parentheses.
    #[cycle(types)]
    fn tuple(&mut self, levels: usize) -> Result<usize, SyntaxError>
        ensures { tokens_left self.new.tokens ≤ tokens_left self.old.tokens }
    {
        let list = self.list(TokenKind::CloseParen, levels)?;
        if let [only] = list.numbers.as_slice()
            && !list.ends_in_comma
        {
            return Ok(*only);
        }
        let span = self.push_parts(list.numbers.as_slice())?;
        Ok(self.push(WrittenType::Tuple(span))?)
    }

    // Reads the type arguments of a name, if there are any.
    #[cycle(types)]
    fn with_arguments(
        &mut self,
        named: NamedType,
        token: Token,
        levels: usize,
    ) -> Result<usize, SyntaxError>
        ensures { tokens_left self.new.tokens ≤ tokens_left self.old.tokens }
    {
        let mut arguments = Vec::new(self.alloc);
        if self.tokens.eat(TokenKind::Less) {
            arguments = self.list(TokenKind::Greater, levels)?.numbers;
        }
        self.apply(named, arguments.as_slice(), token)
    }

    // Reads types with commas between them, and the closing token after them.
    #[cycle(types)]
    fn list(&mut self, close: TokenKind, levels: usize) -> Result<List, SyntaxError>
        ensures { tokens_left self.new.tokens ≤ tokens_left self.old.tokens }
    {
        let mut numbers = Vec::new(self.alloc);
        let mut ends_in_comma = false;
        while !self.tokens.eat(close) {
            numbers.push(self.nested_type(levels)?)?;
            ends_in_comma = self.tokens.eat(TokenKind::Comma);
            if !ends_in_comma {
                self.tokens.expect(close)?;
                break;
            }
        }
        Ok(List {
            numbers,
            ends_in_comma,
        })
    }

    // Reads the name of an inference variable after its mark, which is this token.
    fn variable(&mut self, token: Token) -> Result<usize, SyntaxError>
        ensures { tokens_left self.new.tokens ≤ tokens_left self.old.tokens }
    {
        let name = read_name(&mut self.tokens, "an inference variable's name")?;
        let Some(variables) = &mut self.variables else {
            let text = format!(in self.alloc; "an inference variable may only be in a goal");
            return Err(wrong(token.place, text));
        };
        let number = match variables.iter().position(|other| *other == name) {
            Some(number) => number,
            None => {
                variables.push(name)?;
                variables.len().saturating_sub(1)
            }
        };
        Ok(self.push(WrittenType::Variable(number))?)
    }

    // Returns what the type's name denotes.
    fn named_type(&self, name: usize, token: Token) -> Result<NamedType, SyntaxError> {
        if let Some(param) = self.params.iter().position(|param| param.name == name) {
            return Ok(NamedType::Plain(WrittenType::Param(param, name)));
        }
        let text = self.tokens.text(token);
        if let Some(plain) = built_in_type(text) {
            return Ok(NamedType::Plain(plain));
        }
        match self.names.data(name) {
            Some(data) => Ok(NamedType::Data(data)),
            None => Err(wrong(token.place, format!(in self.alloc; "unknown type `{text}`"))),
        }
    }

    // Adds the type with these type arguments, and returns its number.
    fn apply(
        &mut self,
        named: NamedType,
        arguments: &[usize],
        token: Token,
    ) -> Result<usize, SyntaxError>
        ensures { tokens_left self.new.tokens ≤ tokens_left self.old.tokens }
    {
        let params = match named {
            NamedType::Plain(_) => 0,
            NamedType::Data(data) => data.params,
        };
        self.check_count(token, params, arguments.len())?;
        let ty = match named {
            NamedType::Plain(plain) => plain,
            NamedType::Data(data) => WrittenType::Data(data.number, self.push_parts(arguments)?),
        };
        Ok(self.push(ty)?)
    }

    // Adds the type, and returns its number.
    fn push(&mut self, ty: WrittenType) -> Result<usize, AllocError>
        ensures { tokens_left self.new.tokens ≤ tokens_left self.old.tokens }
    {
        let number = self.types.len();
        self.types.push(ty)?;
        Ok(number)
    }
}

// Returns the message that the numbers of type arguments and type parameters differ.
fn wrong_count(
    alloc: Global,
    name: &str,
    params: usize,
    arguments: usize,
) -> Result<String, AllocError> {
    let parameters = if params == 1 {
        "parameter"
    } else {
        "parameters"
    };
    let arguments_are = if arguments == 1 {
        "argument is"
    } else {
        "arguments are"
    };
    format!(in alloc;
        "`{name}` has {params} type {parameters}, but {arguments} type {arguments_are} given"
    )
}
