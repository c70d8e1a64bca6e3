//! Tokens that are still to be read.

ghost use Rattle.std.specs.Prelude.{◌<◌, ◌≤◌, OnSome};
ghost use Rattle.std.specs.Bool.{OnTrue};
ghost use Rattle.checker_syntax.specs.Tokens.{tokens_left};

use crate::message::wrong;
use crate::syntax_error::SyntaxError;
use crate::token::{Token, TokenKind};
use std::alloc::Global;

/// The tokens that are still to be read, and their source.
#[derive(Drop)]
pub struct Tokens<'a> {
    alloc: Global,
    source: &'a str,
    rest: &'a [Token],
    end: Token,
}

impl<'a> Tokens<'a> {
    /// Returns the tokens of the source up to its end.
    pub fn new(alloc: Global, source: &'a str, rest: &'a [Token], end: Token) -> Tokens<'a> {
        Tokens {
            alloc,
            source,
            rest,
            end,
        }
    }

    /// Returns the tokens that are left.
    pub fn rest(&self) -> &'a [Token] {
        self.rest
    }

    /// Continues with these tokens.
    pub fn go_to(&mut self, rest: &'a [Token]) {
        self.rest = rest;
    }

    /// Returns the next token, or the end of the source if no token is left.
    pub fn peek(&self) -> Token {
        match self.rest.first() {
            Some(token) => *token,
            None => self.end,
        }
    }

    /// Passes over the next token and returns it, unless none is left.
    pub fn next(&mut self) -> Option<Token>
        ensures ahead { tokens_left self.new ≤ tokens_left self.old }
        ensures passed { OnSome result (tokens_left self.new < tokens_left self.old) }
    {
        let (first, rest) = self.rest.split_first()?;
        self.rest = rest;
        Some(*first)
    }

    /// Passes over the next token.
    pub fn advance(&mut self)
        ensures { tokens_left self.new ≤ tokens_left self.old }
    {
        let _ = self.next();
    }

    /// Passes over the next token if it is of this kind, and returns whether it is.
    pub fn eat(&mut self, kind: TokenKind) -> bool
        ensures ahead { tokens_left self.new ≤ tokens_left self.old }
        ensures passed { OnTrue result (tokens_left self.new < tokens_left self.old) }
    {
        match self.rest.split_first() {
            Some((first, rest)) if first.kind == kind => {
                self.rest = rest;
                true
            }
            _ => false,
        }
    }

    /// Passes over the next token, which has to be of this kind.
    pub fn expect(&mut self, kind: TokenKind) -> Result<(), SyntaxError>
        ensures { tokens_left self.new ≤ tokens_left self.old }
    {
        if self.eat(kind) {
            Ok(())
        } else {
            Err(self.expected(kind.description()))
        }
    }

    /// Passes over the next token, which has to be a name, and returns the name's number. Messages call the name
    /// `what`.
    pub fn name(&mut self, what: &str) -> Result<usize, SyntaxError>
        ensures { tokens_left self.new ≤ tokens_left self.old }
    {
        match self.peek().kind {
            TokenKind::Name(name) => {
                self.advance();
                Ok(name)
            }
            _ => Err(self.expected(what)),
        }
    }

    /// Returns an error unless an item or the end of the program comes next.
    pub fn expect_item(&self) -> Result<(), SyntaxError> {
        match self.peek().kind {
            TokenKind::Struct | TokenKind::Fn | TokenKind::End => Ok(()),
            _ => Err(self.expected("`struct` or `fn`")),
        }
    }

    /// Returns the text of the token.
    pub fn text(&self, token: Token) -> &'a str {
        self.source.get(token.start..token.end).unwrap_or("")
    }

    /// Returns the error that `what` was expected instead of the next token.
    pub fn expected(&self, what: &str) -> SyntaxError {
        let token = self.peek();
        let message = match token.kind {
            TokenKind::Name(_) | TokenKind::Int => {
                let found = self.text(token);
                format!(in self.alloc; "expected {what}, found `{found}`")
            }
            kind => {
                let found = kind.description();
                format!(in self.alloc; "expected {what}, found {found}")
            }
        };
        wrong(token.place, message)
    }

    /// Returns the error that the nesting is too deep at the next token.
    pub fn too_deep(&self) -> SyntaxError {
        let message = format!(in self.alloc; "the nesting is deeper than {LEVELS} levels");
        wrong(self.peek().place, message)
    }
}

/// The greatest number of levels to which types, or expressions and blocks, may be nested.
pub const LEVELS: usize = 200;
