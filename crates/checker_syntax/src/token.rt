//! The tokens of a source.

use crate::program::Place;

/// What a token is.
#[derive(Clone, Copy, Debug, PartialEq, Eq)]
pub enum TokenKind {
    /// The name of this number.
    Name(usize),
    /// An integer literal.
    Int,
    /// A character literal.
    Char,
    /// A text literal.
    Text,
    Struct,
    Fn,
    Let,
    True,
    False,
    OpenParen,
    CloseParen,
    OpenBrace,
    CloseBrace,
    OpenBracket,
    CloseBracket,
    Less,
    Greater,
    Comma,
    Semicolon,
    Colon,
    Equals,
    Dot,
    Ampersand,
    Star,
    Question,
    Arrow,
    /// The end of the source.
    End,
}

/// A token: what it is, where it begins, and the bytes of the source from `start` up to `end`.
#[derive(Clone, Copy, Debug, PartialEq, Eq)]
pub struct Token {
    pub kind: TokenKind,
    pub place: Place,
    pub start: usize,
    pub end: usize,
}

impl TokenKind {
    /// Returns the keyword with this text, if there is one.
    pub fn keyword(text: &str) -> Option<TokenKind> {
        match text {
            "struct" => Some(TokenKind::Struct),
            "fn" => Some(TokenKind::Fn),
            "let" => Some(TokenKind::Let),
            "true" => Some(TokenKind::True),
            "false" => Some(TokenKind::False),
            _ => None,
        }
    }

    /// Returns the kind of token that this character is by itself, if it is one.
    pub fn mark(character: char) -> Option<TokenKind> {
        match character {
            '(' => Some(TokenKind::OpenParen),
            ')' => Some(TokenKind::CloseParen),
            '{' => Some(TokenKind::OpenBrace),
            '}' => Some(TokenKind::CloseBrace),
            '[' => Some(TokenKind::OpenBracket),
            ']' => Some(TokenKind::CloseBracket),
            '<' => Some(TokenKind::Less),
            '>' => Some(TokenKind::Greater),
            ',' => Some(TokenKind::Comma),
            ';' => Some(TokenKind::Semicolon),
            ':' => Some(TokenKind::Colon),
            '=' => Some(TokenKind::Equals),
            '.' => Some(TokenKind::Dot),
            '&' => Some(TokenKind::Ampersand),
            '*' => Some(TokenKind::Star),
            '?' => Some(TokenKind::Question),
            _ => None,
        }
    }

    /// Returns what messages call a token of this kind.
    pub fn description(self) -> &'static str {
        match self {
            TokenKind::Name(_) => "a name",
            TokenKind::Int => "an integer",
            TokenKind::Char => "a character",
            TokenKind::Text => "a text",
            TokenKind::Struct => "`struct`",
            TokenKind::Fn => "`fn`",
            TokenKind::Let => "`let`",
            TokenKind::True => "`true`",
            TokenKind::False => "`false`",
            TokenKind::OpenParen => "`(`",
            TokenKind::CloseParen => "`)`",
            TokenKind::OpenBrace => "`{`",
            TokenKind::CloseBrace => "`}`",
            TokenKind::OpenBracket => "`[`",
            TokenKind::CloseBracket => "`]`",
            TokenKind::Less => "`<`",
            TokenKind::Greater => "`>`",
            TokenKind::Comma => "`,`",
            TokenKind::Semicolon => "`;`",
            TokenKind::Colon => "`:`",
            TokenKind::Equals => "`=`",
            TokenKind::Dot => "`.`",
            TokenKind::Ampersand => "`&`",
            TokenKind::Star => "`*`",
            TokenKind::Question => "`?`",
            TokenKind::Arrow => "`->`",
            TokenKind::End => "the end of the program",
        }
    }
}
