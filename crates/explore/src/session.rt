//! The calls of the library, and what is known of what they made.

ghost use Rattle.tt_calls.specs.Told.{AreOwnedAnswers};

use crate::complaint::{Complaint, Unread};
use crate::dot::dot;
use crate::graph::Graph;
use crate::rows::{Counts, Row, read_rows};
use crate::svg::svg;
use crate::texts::shown_text;
use crate::words::{Name, Request, request_of, words_of};
use std::alloc::{AllocError, Global};
use type_terms::{Answer, Call, Interner, answer_next};

/// What is known of an interner besides the answers.
#[derive(Drop)]
pub struct Book {
    pub rows: Vec<Row>,
    pub names: Vec<Name>,
    /// The numbers of rows now, and before the last call.
    pub counts: Counts,
    pub before: Counts,
}

/// What comes of a line.
#[derive(Drop)]
pub enum Reply {
    Nothing,
    /// The last answer is the line's.
    Made,
    Text(String),
    Wrong(Complaint),
    Quit,
}

// What a line asks of the library: a call, or nothing, and then this is the reply.
#[derive(Drop)]
enum Task {
    Call(Option<String>, Call),
    Reply(Reply),
}

/// The commands, for `help`.
const HELP: &str =
    "    Each line makes one call of the library, such as `tuple %1 %2`. `%1` is what line 1 made.
    NAME = LINE   gives what the line makes a name: `%NAME`
    show %1       its text, flags, outer exclusive binder and parts
    rows          how many rows are stored, and what the last call added
    svg %1 %2 ..  a picture of these terms; dot %1 %2 .. for Graphviz
    help, quit
    The calls: bool char str never i8 i16 i32 i64 i128 isize u8 u16 u32 u64 u128 usize
    param infer error bound cbound placeholder ref refmut ptr ptrmut slice tuple fn
    shift inst erase equal info. What follows a # is a comment.
";

impl Book {
    /// Returns the book of an interner without types.
    pub fn new(cx: &Interner) -> Book {
        let none = Counts {
            types: 0,
            lists: 0,
            binders: 0,
        };
        let counts = Counts::of(cx, none);
        Book {
            rows: Vec::new(cx.allocator()),
            names: Vec::new(cx.allocator()),
            counts,
            before: counts,
        }
    }
}

/// Does what the line asks for. A call's answer is added to the answers.
pub fn take_line(
    cx: &mut Interner,
    answers: &mut Vec<Answer>,
    book: &mut Book,
    line: &str,
) -> Result<Reply, AllocError>
    requires { AreOwnedAnswers cx.old.rows answers.old.items }
    ensures { AreOwnedAnswers cx.new.rows answers.new.items }
{
    match task_of(cx.allocator(), book, answers.as_slice(), line)? {
        Task::Reply(reply) => Ok(reply),
        Task::Call(name, call) => {
            answer_next(cx, answers, &call).map_err(|_| AllocError)?;
            note_call(cx, book, name, answers.len())?;
            Ok(Reply::Made)
        }
    }
}

// Notes the rows that a call added, and the name of its answer.
fn note_call(
    cx: &Interner,
    book: &mut Book,
    name: Option<String>,
    line: usize,
) -> Result<(), AllocError> {
    let known = book.counts;
    let counts = Counts::of(cx, known);
    read_rows(cx, &mut book.rows, known.types, counts.types)?;
    book.before = known;
    book.counts = counts;
    if let Some(text) = name {
        book.names.push(Name { text, line })?;
    }
    Ok(())
}

// Returns what the line asks of the library.
fn task_of(alloc: Global, book: &Book, answers: &[Answer], line: &str) -> Result<Task, AllocError> {
    let words = words_of(alloc, line)?;
    match request_of(alloc, book.names.as_slice(), answers, words.as_slice()) {
        Ok(Request::Call(name, call)) => Ok(Task::Call(name, call)),
        Ok(request) => Ok(Task::Reply(replied(alloc, book, answers, &request)?)),
        Err(Unread::Wrong(complaint)) => Ok(Task::Reply(Reply::Wrong(complaint))),
        Err(Unread::Memory) => Err(AllocError),
    }
}

// Returns the reply to what needs no call.
fn replied(
    alloc: Global,
    book: &Book,
    answers: &[Answer],
    request: &Request,
) -> Result<Reply, AllocError> {
    let text = match request {
        Request::Nothing | Request::Call(_, _) => return Ok(Reply::Nothing),
        Request::Quit => return Ok(Reply::Quit),
        Request::Help => String::from_str(alloc, HELP)?,
        Request::Rows => rows_text(alloc, book)?,
        Request::Svg(roots) => picture(alloc, book, answers, roots.as_slice(), true)?,
        Request::Dot(roots) => picture(alloc, book, answers, roots.as_slice(), false)?,
        Request::Show(row) => shown_text(alloc, book.rows.as_slice(), answers, *row)?,
    };
    Ok(Reply::Text(text))
}

/// Returns the picture of these rows, as SVG or as DOT.
pub fn picture(
    alloc: Global,
    book: &Book,
    answers: &[Answer],
    roots: &[usize],
    is_svg: bool,
) -> Result<String, AllocError> {
    let (rows, names) = (book.rows.as_slice(), book.names.as_slice());
    let graph = Graph::of(alloc, rows, roots)?;
    if is_svg {
        svg(alloc, rows, names, answers, &graph)
    } else {
        dot(alloc, rows, names, answers, &graph)
    }
}

// Returns the numbers of rows, and how many the last call added.
fn rows_text(alloc: Global, book: &Book) -> Result<String, AllocError> {
    let (now, before) = (book.counts, book.before);
    let mut text = String::new(alloc);
    let counts = [
        ("types", now.types, before.types),
        ("lists of types", now.lists, before.lists),
        ("lists of variables", now.binders, before.binders),
    ];
    for (what, count, earlier) in counts.iter() {
        let added = count.saturating_sub(*earlier);
        writeln!(
            text,
            "    {what:<20}{count:>5}, of which the last call added {added}"
        )?;
    }
    Ok(text)
}
