//! Sources as lists of tokens.

ghost use Rattle.std.specs.Prelude.{◌<◌, ◌≤◌, length, OnSome};

use crate::message::wrong;
use crate::names::Names;
use crate::program::Place;
use crate::syntax_error::SyntaxError;
use crate::token::{Token, TokenKind};
use std::alloc::Global;

/// What is still to be read of a source, and the names that were read.
#[derive(Drop)]
pub struct Lexer<'a> {
    alloc: Global,
    source: &'a str,
    rest: &'a str,
    place: Place,
    names: Names<'a>,
    ghost within: { length rest.now ≤ length source.now },
}

impl<'a> Lexer<'a> {
    /// Returns a lexer at the beginning of the source.
    pub fn new(alloc: Global, source: &'a str) -> Lexer<'a> {
        Lexer {
            alloc,
            source,
            rest: source,
            place: Place { line: 1, column: 1 },
            names: Names::new(alloc),
        }
    }

    /// Returns the names that were read.
    pub fn into_names(self) -> Names<'a> {
        self.names
    }

    /// Reads the tokens that are left.
    pub fn tokens(&mut self) -> Result<Vec<Token>, SyntaxError> {
        let mut tokens = Vec::new(self.alloc);
        loop {
            self.skip_space();
            let place = self.place;
            let start = self.position();
            let Some(first) = self.advance() else {
                return Ok(tokens);
            };
            let kind = self.token_kind(first, place, start)?;
            tokens.push(Token {
                kind,
                place,
                start,
                end: self.position(),
            })?;
        }
    }

    /// Returns the end token, at the place up to which the source is read.
    pub fn end(&self) -> Token {
        Token {
            kind: TokenKind::End,
            place: self.place,
            start: self.position(),
            end: self.position(),
        }
    }

    // Returns how many bytes were read.
    fn position(&self) -> usize {
        self.source.len() - self.rest.len()
    }

    // Returns the next character.
    fn peek(&self) -> Option<char>
        ensures { OnSome result (0 < length self.now.rest.now) }
    {
        self.rest.chars().next()
    }

    // Passes over the next character and returns it.
    fn advance(&mut self) -> Option<char>
        ensures ahead { length self.new.rest.now ≤ length self.old.rest.now }
        ensures passed { 0 < length self.old.rest.now → length self.new.rest.now < length self.old.rest.now }
        ensures some { OnSome result (0 < length self.old.rest.now) }
    {
        let mut characters = self.rest.chars();
        let next = characters.next();
        self.rest = characters.as_str();
        // A source has fewer bytes than `usize` has values, so neither sum saturates.
        match next {
            Some('\n') => {
                self.place.line = self.place.line.saturating_add(1);
                self.place.column = 1;
            }
            Some(other) => {
                if other != BYTE_ORDER_MARK {
                    self.place.column = self.place.column.saturating_add(1);
                }
            }
            None => {}
        }
        next
    }

    // Passes over the next character if it is this one, and returns whether it is.
    fn eat(&mut self, character: char) -> bool
        ensures { length self.new.rest.now ≤ length self.old.rest.now }
    {
        if self.peek() == Some(character) {
            self.advance();
            true
        } else {
            false
        }
    }

    // Passes over white space and comments.
    fn skip_space(&mut self)
        ensures { length self.new.rest.now ≤ length self.old.rest.now }
    {
        while let Some(next) = self.peek() {
            let is_comment = self.rest.starts_with("//");
            if !is_comment && !is_space(next) {
                return;
            }
            self.advance();
            if is_comment {
                self.skip_line();
            }
        }
    }

    // Passes over the rest of the line.
    fn skip_line(&mut self)
        ensures { length self.new.rest.now ≤ length self.old.rest.now }
    {
        while let Some(character) = self.advance() {
            if character == '\n' {
                return;
            }
        }
    }

    // Passes over the rest of the token of this first character, which is at the place and at the byte `start`, and
    // returns what it is.
    fn token_kind(
        &mut self,
        first: char,
        place: Place,
        start: usize,
    ) -> Result<TokenKind, SyntaxError>
        ensures { length self.new.rest.now ≤ length self.old.rest.now }
    {
        match first {
            '\'' => self.character(place),
            '"' => self.text(place),
            '-' if self.eat('>') => Ok(TokenKind::Arrow),
            _ if is_of_word(first) => self.word(first, place, start),
            _ => match TokenKind::mark(first) {
                Some(kind) => Ok(kind),
                None => Err(self.unknown_character(first, place)),
            },
        }
    }

    // Returns the error that no token begins with the character. A message holds no control character.
    fn unknown_character(&self, character: char, place: Place) -> SyntaxError {
        let text = if character.is_control() {
            let number = u32::from(character);
            format!(in self.alloc; "unknown control character U+{number:04X}")
        } else {
            format!(in self.alloc; "unknown character `{character}`")
        };
        wrong(place, text)
    }

    // Passes over the rest of an integer, a name or a keyword of this first character.
    fn word(&mut self, first: char, place: Place, start: usize) -> Result<TokenKind, SyntaxError>
        ensures { length self.new.rest.now ≤ length self.old.rest.now }
    {
        while self.peek().is_some_and(is_of_word) {
            self.advance();
        }
        // Tokens begin and end between characters.
        let word = self.source.get(start..self.position()).unwrap_or("");
        if first.is_ascii_digit() {
            return self.integer(word, place);
        }
        match TokenKind::keyword(word) {
            Some(keyword) => Ok(keyword),
            None => Ok(TokenKind::Name(self.names.number(word)?)),
        }
    }

    // Returns the token of a word that begins with a digit.
    fn integer(&self, word: &str, place: Place) -> Result<TokenKind, SyntaxError> {
        if word
            .chars()
            .all(|next| next.is_ascii_digit() || next == '_')
        {
            return Ok(TokenKind::Int);
        }
        let text = format!(in self.alloc;
            "`{word}` isn't an integer: an integer has only digits and `_`"
        );
        Err(wrong(place, text))
    }

    // Passes over the rest of a character literal.
    fn character(&mut self, place: Place) -> Result<TokenKind, SyntaxError>
        ensures { length self.new.rest.now ≤ length self.old.rest.now }
    {
        match self.advance() {
            Some('\'') => {
                let text = format!(in self.alloc; "a character literal is empty");
                return Err(wrong(place, text));
            }
            Some('\\') => self.escape()?,
            Some(_) | None => {}
        }
        if self.eat('\'') {
            return Ok(TokenKind::Char);
        }
        let text = format!(in self.alloc;
            "a character literal isn't closed by `'` after one character"
        );
        Err(wrong(place, text))
    }

    // Passes over the rest of a text literal.
    fn text(&mut self, place: Place) -> Result<TokenKind, SyntaxError>
        ensures { length self.new.rest.now ≤ length self.old.rest.now }
    {
        while let Some(character) = self.advance() {
            match character {
                '"' => return Ok(TokenKind::Text),
                '\\' => self.escape()?,
                _ => {}
            }
        }
        Err(wrong(
            place,
            format!(in self.alloc; "a text literal isn't closed by `\"`"),
        ))
    }

    // Passes over what comes after a backslash.
    fn escape(&mut self) -> Result<(), SyntaxError>
        ensures { length self.new.rest.now ≤ length self.old.rest.now }
    {
        let place = self.place;
        match self.advance() {
            // The caller reports that the literal isn't closed.
            None => Ok(()),
            Some('n' | 'r' | 't' | '\\' | '\'' | '"' | '0') => Ok(()),
            Some('x') => self.ascii_escape(place),
            Some('u') => self.unicode_escape(place),
            Some(other) => Err(self.unknown_escape(other, place)),
        }
    }

    // Returns the error that the character names no escape.
    fn unknown_escape(&self, character: char, place: Place) -> SyntaxError {
        let text = if character.is_control() {
            format!(in self.alloc; "unknown escape of a control character")
        } else {
            format!(in self.alloc; "unknown escape `\\{character}`")
        };
        wrong(place, text)
    }

    // Passes over the two digits of an ASCII character.
    fn ascii_escape(&mut self, place: Place) -> Result<(), SyntaxError>
        ensures { length self.new.rest.now ≤ length self.old.rest.now }
    {
        if let Some(number) = self.digits(2, 2)
            && number <= GREATEST_ASCII
        {
            return Ok(());
        }
        let text = format!(in self.alloc;
            "`\\x` needs two hexadecimal digits, and a value of at most 7F"
        );
        Err(wrong(place, text))
    }

    // Passes over the digits of a character in braces.
    fn unicode_escape(&mut self, place: Place) -> Result<(), SyntaxError>
        ensures { length self.new.rest.now ≤ length self.old.rest.now }
    {
        if self.eat('{')
            && let Some(number) = self.digits(1, 6)
            && char::from_u32(number).is_some()
            && self.eat('}')
        {
            return Ok(());
        }
        let text = format!(in self.alloc;
            "`\\u` needs a character's number in braces, with one to six hexadecimal digits"
        );
        Err(wrong(place, text))
    }

    // Passes over hexadecimal digits, and returns their value, or `None` if there are fewer than `least`. No more than
    // `most` are read.
    fn digits(&mut self, least: u32, most: u32) -> Option<u32>
        ensures { length self.new.rest.now ≤ length self.old.rest.now }
    {
        let mut number = 0u32;
        for place in 0..most {
            match self.digit() {
                Some(digit) => number = number.saturating_mul(16).saturating_add(digit),
                None => return if place < least { None } else { Some(number) },
            }
        }
        Some(number)
    }

    // Passes over the next character if it is a hexadecimal digit, and returns the digit's value.
    fn digit(&mut self) -> Option<u32>
        ensures { length self.new.rest.now ≤ length self.old.rest.now }
    {
        let digit = self.peek()?.to_digit(16)?;
        self.advance();
        Some(digit)
    }
}

// The greatest number of an ASCII character.
const GREATEST_ASCII: u32 = 0x7F;

// What may be before a source, and says nothing of it.
const BYTE_ORDER_MARK: char = '\u{FEFF}';

// Returns whether the character is white space between tokens.
fn is_space(character: char) -> bool {
    character.is_ascii_whitespace() || character == BYTE_ORDER_MARK
}

// Returns whether the character may be in a name.
fn is_of_word(character: char) -> bool {
    character.is_ascii_alphanumeric() || character == '_'
}
