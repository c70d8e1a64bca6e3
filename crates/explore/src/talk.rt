//! Reading lines, and writing what comes of them.

use crate::complaint::{Unread, message};
use crate::session::{Book, Reply, picture, take_line};
use crate::texts::made_text;
use crate::words::{Word, rows_named};
use std::alloc::{AllocError, Global};
use std::io::{self, BufRead, Write};
use type_terms::{Answer, Interner};

/// A picture that is wanted in place of all other output.
#[derive(Clone, Copy)]
pub struct Wanted<'a> {
    /// The names or numbers of its lines, with commas between them.
    pub terms: &'a str,
    pub is_svg: bool,
}

/// How the program talks.
#[derive(Clone, Copy)]
pub struct Manner<'a> {
    /// What a message calls the input.
    pub source: &'a str,
    /// Whether a person types the lines. Else each line is printed with what it made.
    pub is_prompting: bool,
    /// Whether the output, or the messages, are coloured.
    pub is_coloured: bool,
    pub has_coloured_messages: bool,
    pub wanted: Option<Wanted<'a>>,
}

/// Reads the lines to their end, and writes what comes of them. Returns whether each line was right.
pub fn converse<B: BufRead + Drop, W: Write + Drop, E: Write + Drop>(
    alloc: Global,
    mut input: B,
    mut output: W,
    mut errors: E,
    manner: &Manner,
) -> io::Result<bool> {
    match Interner::new(alloc) {
        Ok(mut cx) => {
            let outcome = take_lines(&mut cx, &mut input, &mut output, &mut errors, manner);
            drop(cx);
            outcome
        }
        Err(_) => Err(io::Error::from(AllocError)),
    }
}

// Takes each line in turn.
fn take_lines<B: BufRead + Drop, W: Write + Drop, E: Write + Drop>(
    cx: &mut Interner,
    input: &mut B,
    output: &mut W,
    errors: &mut E,
    manner: &Manner,
) -> io::Result<bool> {
    let alloc = cx.allocator();
    let mut answers = Vec::new(alloc);
    let mut book = Book::new(cx);
    let mut bytes = Vec::new(alloc);
    let mut is_right = true;
    for number in 1..u64::MAX {
        let next = answers.len().saturating_add(1);
        if !read_line(input, output, manner, next, &mut bytes)? {
            break;
        }
        let read = String::from_utf8_lossy(alloc, bytes.as_slice())?;
        let line = read.as_str();
        let reply = take_line(cx, &mut answers, &mut book, line)?;
        if let Reply::Wrong(complaint) = &reply {
            is_right = false;
            let text = message(alloc, manner.source, number, line, complaint)?;
            write_message(errors, manner, text.as_str())?;
        }
        let text = said(alloc, manner, &book, answers.as_slice(), line, &reply)?;
        output.write_all(text.as_bytes())?;
        if let Reply::Quit = reply {
            break;
        }
    }
    if let Some(wanted) = manner.wanted {
        is_right = write_picture(output, errors, &book, answers.as_slice(), manner, wanted)?
            && is_right;
    }
    output.flush()?;
    Ok(is_right)
}

// Reads a line, after a prompt if a person types it, and returns whether there was one.
fn read_line<B: BufRead, W: Write>(
    input: &mut B,
    output: &mut W,
    manner: &Manner,
    next: usize,
    bytes: &mut Vec<u8>,
) -> io::Result<bool> {
    if manner.is_prompting {
        write!(output, "{next}> ")?;
        output.flush()?;
    }
    bytes.clear();
    let is_read = input.read_until(b'\n', bytes)? > 0;
    if manner.is_prompting && !is_read {
        writeln!(output)?;
    }
    Ok(is_read)
}

// Writes a message about a line.
fn write_message<E: Write>(errors: &mut E, manner: &Manner, text: &str) -> io::Result<()> {
    if manner.has_coloured_messages {
        write!(errors, "\x1b[31m{text}\x1b[0m")
    } else {
        errors.write_all(text.as_bytes())
    }
}

// Writes the picture that is wanted, and returns whether its terms are there.
fn write_picture<W: Write, E: Write>(
    output: &mut W,
    errors: &mut E,
    book: &Book,
    answers: &[Answer],
    manner: &Manner,
    wanted: Wanted,
) -> io::Result<bool> {
    let alloc = *book.rows.allocator();
    let mut words = Vec::new(alloc);
    for text in wanted.terms.split(',') {
        words.push(Word { text, column: 0 })?;
    }
    match rows_named(alloc, book.names.as_slice(), answers, words.as_slice()) {
        Ok(roots) => {
            let text = picture(alloc, book, answers, roots.as_slice(), wanted.is_svg)?;
            output.write_all(text.as_bytes())?;
            Ok(true)
        }
        Err(Unread::Wrong(complaint)) => {
            let what = complaint.text.as_str();
            let text = format!(in alloc; "explore: {what}\n")?;
            write_message(errors, manner, text.as_str())?;
            Ok(false)
        }
        Err(Unread::Memory) => Err(io::Error::from(AllocError)),
    }
}

// Returns what is printed of a line and its reply.
fn said(
    alloc: Global,
    manner: &Manner,
    book: &Book,
    answers: &[Answer],
    line: &str,
    reply: &Reply,
) -> Result<String, AllocError> {
    let mut text = String::new(alloc);
    if manner.wanted.is_some() {
        return Ok(text);
    }
    let line = line.trim_end();
    let (dim, made, plain) = if manner.is_coloured {
        ("\x1b[2m", "\x1b[32m", "\x1b[0m")
    } else {
        ("", "", "")
    };
    match reply {
        Reply::Made => {
            let number = answers.len();
            let what = made_text(alloc, book.rows.as_slice(), answers)?;
            write!(text, "{dim}{number}:{plain} ")?;
            if !manner.is_prompting {
                write!(text, "{line:<34}  ")?;
            }
            writeln!(text, "{made}{what}{plain}")?;
        }
        Reply::Wrong(_) => {}
        _ if manner.is_prompting => {}
        _ => writeln!(text, "{line}")?,
    }
    if let Reply::Text(shown) = reply {
        text.push_str(shown.as_str())?;
    }
    Ok(text)
}
