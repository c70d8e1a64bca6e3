//! The words of a line, and what a line asks for.

use crate::complaint::{Complaint, Unread, diagnosed, nearest};
use crate::texts::row_of;
use std::alloc::{AllocError, Global};
use type_terms::{Answer, Call, parse_line};

/// A word, and the place where it begins, in characters.
#[derive(Clone, Copy)]
pub struct Word<'a> {
    pub text: &'a str,
    pub column: usize,
}

/// A name of a line's answer.
#[derive(Drop)]
pub struct Name {
    pub text: String,
    pub line: usize,
}

/// What a line asks for.
#[derive(Drop)]
pub enum Request {
    Nothing,
    /// A call, and perhaps the name of its answer.
    Call(Option<String>, Call),
    /// The text and the parts of this row.
    Show(usize),
    Rows,
    /// A picture of these rows.
    Svg(Vec<usize>),
    Dot(Vec<usize>),
    Help,
    Quit,
}

/// Returns the words of a line, without its comment.
pub fn words_of(alloc: Global, line: &str) -> Result<Vec<Word<'_>>, AllocError> {
    let code = match line.split_once('#') {
        Some((code, _)) => code,
        None => line,
    };
    let mut words = Vec::new(alloc);
    let mut column: usize = 0;
    for text in code.split([' ', '\t', '\r', '\n']) {
        if !text.is_empty() {
            words.push(Word { text, column })?;
        }
        column = column
            .saturating_add(text.chars().count())
            .saturating_add(1);
    }
    Ok(words)
}

/// Returns what the words ask for, after calls with these answers.
pub fn request_of(
    alloc: Global,
    names: &[Name],
    answers: &[Answer],
    words: &[Word],
) -> Result<Request, Unread> {
    let Some((first, others)) = words.split_first() else {
        return Ok(Request::Nothing);
    };
    match (first.text, others) {
        ("show", [term]) => Ok(Request::Show(row_named(alloc, names, answers, term)?)),
        ("svg", [_, ..]) => Ok(Request::Svg(rows_named(alloc, names, answers, others)?)),
        ("dot", [_, ..]) => Ok(Request::Dot(rows_named(alloc, names, answers, others)?)),
        ("rows", []) => Ok(Request::Rows),
        ("help", []) => Ok(Request::Help),
        ("quit", []) => Ok(Request::Quit),
        (_, [sign, code @ ..]) if sign.text == "=" => {
            let name = name_of(alloc, first)?;
            match code.first() {
                Some(first) => call_of(alloc, names, Some(name), first, code),
                None => {
                    let text = String::from_str(alloc, "a call has to follow, like `tuple %1 %2`")?;
                    Err(Unread::Wrong(Complaint::at(sign, text)))
                }
            }
        }
        _ => call_of(alloc, names, None, first, words),
    }
}

// Returns the name that the word gives to an answer.
fn name_of(alloc: Global, word: &Word) -> Result<String, Unread> {
    let text = word.text;
    if is_named(text)
        && text
            .chars()
            .all(|letter| letter.is_alphanumeric() || letter == '_')
    {
        Ok(String::from_str(alloc, text)?)
    } else {
        let what = format!(in alloc;
            "`{text}` is no name: a name has letters, digits and `_`, and not digits alone"
        )?;
        Err(Unread::Wrong(Complaint::at(word, what)))
    }
}

// Returns the call that the words write, which begin with this one.
fn call_of(
    alloc: Global,
    names: &[Name],
    name: Option<String>,
    first: &Word,
    words: &[Word],
) -> Result<Request, Unread> {
    let mut line = String::new(alloc);
    for word in words.iter() {
        match word.text.strip_prefix('%') {
            Some(name) if is_named(name) => {
                let number = number_of(alloc, names, word, name)?;
                write!(line, "%{number} ")?;
            }
            _ => {
                line.push_str(word.text)?;
                line.push(' ')?;
            }
        }
    }
    match parse_line(alloc, line.as_bytes())? {
        Some(Call::Bad) => Err(Unread::Wrong(diagnosed(alloc, names, first, words)?)),
        Some(call) => Ok(Request::Call(name, call)),
        None => Ok(Request::Nothing),
    }
}

/// Returns whether what comes after a `%` is a name, and no number.
pub fn is_named(name: &str) -> bool {
    name.chars().any(|letter| !letter.is_ascii_digit())
}

// Returns the number of the line of this name.
fn number_of(alloc: Global, names: &[Name], word: &Word, name: &str) -> Result<usize, Unread> {
    let mut known = Vec::new(alloc);
    for other in names.iter().rev() {
        if other.text.as_str() == name {
            return Ok(other.line);
        }
        known.push(other.text.as_str())?;
    }
    let text = match nearest(alloc, name, known.as_slice())? {
        Some(other) => format!(in alloc; "no line has the name `{name}`: `%{other}`?")?,
        None => format!(in alloc; "no line has the name `{name}`: `{name} = ..` gives it to one")?,
    };
    Err(Unread::Wrong(Complaint::at(word, text)))
}

/// Returns the rows of the types that the words name.
pub fn rows_named(
    alloc: Global,
    names: &[Name],
    answers: &[Answer],
    words: &[Word],
) -> Result<Vec<usize>, Unread> {
    let mut rows = Vec::new(alloc);
    for word in words.iter() {
        rows.push(row_named(alloc, names, answers, word)?)?;
    }
    Ok(rows)
}

// Returns the row of the type that the word names.
fn row_named(
    alloc: Global,
    names: &[Name],
    answers: &[Answer],
    word: &Word,
) -> Result<usize, Unread> {
    let name = word.text.strip_prefix('%').unwrap_or(word.text);
    let line = if is_named(name) {
        number_of(alloc, names, word, name)?
    } else {
        name.parse::<usize>().unwrap_or(0)
    };
    match row_of(answers, line) {
        Some(row) => Ok(row),
        None => {
            let text = no_type(alloc, name, line, answers.len())?;
            Err(Unread::Wrong(Complaint::at(word, text)))
        }
    }
}

// Returns what is wrong with a name of a line that made no type, after so many calls.
fn no_type(alloc: Global, name: &str, line: usize, calls: usize) -> Result<String, AllocError> {
    if line == 0 || line > calls {
        format!(in alloc; "no line has the number `{name}`: the last one is {calls}")
    } else {
        format!(in alloc; "`%{name}` is no type: its line was refused, or only answers a question")
    }
}
