//! Reports as text for people: with the line of the source that each is about.

mod excerpt;
mod extents;

use crate::rendering::excerpt::{Excerpt, excerpt_of, visible};
use crate::report::{Extent, Note, Report};
use checker_syntax::program::Place;
use std::alloc::{AllocError, Global};

/// A source, and how reports about it are shown.
#[derive(Clone, Copy)]
pub struct View<'a> {
    /// What the source is called.
    pub name: &'a str,
    pub source: &'a str,
    pub is_coloured: bool,
}

// What is written around a text for its colour, and after it.
#[derive(Clone, Copy)]
struct Paint {
    error: &'static str,
    note: &'static str,
    edge: &'static str,
    plain: &'static str,
}

const COLOURS: Paint = Paint {
    error: "\x1b[1;31m",
    note: "\x1b[1;36m",
    edge: "\x1b[1;34m",
    plain: "\x1b[0m",
};

const NO_COLOURS: Paint = Paint {
    error: "",
    note: "",
    edge: "",
    plain: "",
};

// What is said of a place: an error or a note.
#[derive(Clone, Copy)]
struct Said<'a> {
    word: &'static str,
    colour: &'static str,
    text: &'a str,
    place: Place,
    extent: Extent,
}

// The lines of a source, and how text about them is written.
#[derive(Clone, Copy)]
struct Page<'a> {
    name: &'a str,
    lines: &'a [&'a str],
    paint: Paint,
    // The columns that the numbers of lines take.
    edge: usize,
}

/// Returns the reports on a source, each with its lines and notes, and an empty line between them. No control character of
/// the source or of its name is in the text.
pub fn rendered(alloc: Global, view: View<'_>, reports: &[Report]) -> Result<String, AllocError> {
    let mut lines = Vec::new(alloc);
    for line in view.source.split('\n') {
        lines.push(line)?;
    }
    let paint = if view.is_coloured {
        COLOURS
    } else {
        NO_COLOURS
    };
    let mut text = String::new(alloc);
    for report in reports {
        let page = Page {
            name: view.name,
            lines: lines.as_slice(),
            paint,
            edge: digits(greatest_line(report)),
        };
        if !text.is_empty() {
            text.push('\n')?;
        }
        write_report(alloc, &mut text, page, report)?;
    }
    Ok(text)
}

// Writes a report: the error, and then its notes.
fn write_report(
    alloc: Global,
    text: &mut String,
    page: Page<'_>,
    report: &Report,
) -> Result<(), AllocError> {
    let place = report.message.place;
    let error = Said {
        word: "error",
        colour: page.paint.error,
        text: report.message.text.as_str(),
        place,
        extent: report.extent,
    };
    write_said(alloc, text, page, error)?;
    write_notes_beside(text, page, report)?;
    for note in report.notes.iter() {
        if let Some(other) = note.place
            && !is_beside(note, place)
        {
            let said = Said {
                word: "note",
                colour: page.paint.note,
                text: note.text.as_str(),
                place: other,
                extent: Extent::Token,
            };
            write_said(alloc, text, page, said)?;
        }
    }
    Ok(())
}

// Writes the notes that show no line of their own, below that of the error.
fn write_notes_beside(
    text: &mut String,
    page: Page<'_>,
    report: &Report,
) -> Result<(), AllocError> {
    let mut is_first = true;
    for note in report.notes.iter() {
        if is_beside(note, report.message.place) {
            if is_first {
                write_edge(text, page, "|")?;
                text.push('\n')?;
                is_first = false;
            }
            write_edge(text, page, "=")?;
            write_head(text, page, page.paint.note, " note", note.text.as_str())?;
        }
    }
    Ok(())
}

// Returns whether the note shows no line besides that of this place.
fn is_beside(note: &Note, place: Place) -> bool {
    match note.place {
        Some(other) => other.line == place.line,
        None => true,
    }
}

// Writes what is said of a place, the place, and its line with marks below it.
fn write_said(
    alloc: Global,
    text: &mut String,
    page: Page<'_>,
    said: Said<'_>,
) -> Result<(), AllocError> {
    write_head(text, page, said.colour, said.word, said.text)?;
    let Place { line, column } = said.place;
    write_repeated(text, ' ', page.edge)?;
    let (edge, plain) = (page.paint.edge, page.paint.plain);
    write!(text, "{edge}-->{plain} ")?;
    write_visible(text, page.name)?;
    writeln!(text, ":{line}:{column}")?;
    let source = page.lines.get(line.saturating_sub(1)).copied();
    let shown = excerpt_of(alloc, source.unwrap_or(""), column, said.extent)?;
    write_excerpt(text, page, line, said.colour, &shown)
}

// Writes the line of this number, and marks of this colour below it.
fn write_excerpt(
    text: &mut String,
    page: Page<'_>,
    line: usize,
    colour: &str,
    shown: &Excerpt,
) -> Result<(), AllocError> {
    write_edge(text, page, "|")?;
    text.push('\n')?;
    let (edge, plain) = (page.paint.edge, page.paint.plain);
    write!(text, "{edge}{line}")?;
    write_repeated(text, ' ', page.edge.saturating_sub(digits(line)))?;
    write!(text, " |{plain}")?;
    if !shown.text.is_empty() {
        text.push(' ')?;
        text.push_str(shown.text.as_str())?;
    }
    text.push('\n')?;
    write_edge(text, page, "|")?;
    write_repeated(text, ' ', shown.indent.saturating_add(1))?;
    text.push_str(colour)?;
    write_repeated(text, '^', shown.width)?;
    text.push_str(plain)?;
    text.push('\n')
}

// Writes what begins a line beside those of the source.
fn write_edge(text: &mut String, page: Page<'_>, mark: &str) -> Result<(), AllocError> {
    let (edge, plain) = (page.paint.edge, page.paint.plain);
    text.push_str(edge)?;
    write_repeated(text, ' ', page.edge.saturating_add(1))?;
    write!(text, "{mark}{plain}")
}

// Writes a line that says this.
fn write_head(
    text: &mut String,
    page: Page<'_>,
    colour: &str,
    word: &str,
    said: &str,
) -> Result<(), AllocError> {
    let plain = page.paint.plain;
    write!(text, "{colour}{word}{plain}: ")?;
    write_visible(text, said)?;
    text.push('\n')
}

// Writes the text without control characters.
fn write_visible(text: &mut String, said: &str) -> Result<(), AllocError> {
    for next in said.chars() {
        text.push(visible(next))?;
    }
    Ok(())
}

// Writes the character this many times.
fn write_repeated(text: &mut String, character: char, count: usize) -> Result<(), AllocError> {
    for _ in 0..count {
        text.push(character)?;
    }
    Ok(())
}

// Returns the number of the last line that the report shows.
fn greatest_line(report: &Report) -> usize {
    let mut greatest = report.message.place.line;
    for note in report.notes.iter() {
        if let Some(place) = note.place {
            greatest = greatest.max(place.line);
        }
    }
    greatest
}

// Returns how many digits the number has.
fn digits(number: usize) -> usize {
    let mut count: usize = 1;
    let mut rest = number / 10;
    for _ in 0..usize::BITS {
        if rest == 0 {
            break;
        }
        rest /= 10;
        count = count.saturating_add(1);
    }
    count
}
