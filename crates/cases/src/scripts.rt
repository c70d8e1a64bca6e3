//! Scripts as wholes: what they print, and what comes of readers and writers that fail.

use crate::tolerance::Tolerance;
use std::alloc::Global;
use std::io::{self, ErrorKind, Read, Write};
use std::str;
use test_terms::NOT_OWNED;
use type_terms::{Answer, Fault, Interner, Refusal, parse_line, run_calls, run_script};

// As many bytes as a script prints at most.
const ROOM: usize = 8192;

// As many bytes as are read or written at once.
const PIECE: usize = 32;

/// Appends what the script prints, and how many reads and writes it takes: each is failed once.
pub fn run_whole(
    alloc: Global,
    script: &str,
    tolerance: &mut Tolerance,
    out: &mut String,
) -> Result<(), Refusal> {
    let lines = lines(alloc, script, tolerance)?;
    for line in lines.lines() {
        writeln!(out, "  {line}")?;
    }
    let words = words(alloc, script, tolerance)?;
    writeln!(out, "  as a list: {words}")?;
    let reads = failed_reads(alloc, script, tolerance)?;
    let writes = failed_writes(alloc, script, lines.as_str(), tolerance)?;
    Ok(writeln!(out, "  failed in turn: {reads} reads, {writes} writes")?)
}

// What a script's run came to, and what it wrote.
#[derive(Drop)]
struct Ran {
    outcome: Result<(), Fault>,
    output: Vec<u8>,
}

// Runs the script that the reader gives.
fn answered<R: Read + Drop>(alloc: Global, reader: R) -> Result<Ran, Refusal> {
    let mut output = Vec::with_capacity(alloc, ROOM)?;
    let outcome = run_script(alloc, reader, &mut output);
    Ok(Ran { outcome, output })
}

// Returns the text that was written.
fn text(alloc: Global, ran: &Ran) -> Result<String, Refusal> {
    match str::from_utf8(ran.output.as_slice()) {
        Ok(text) => Ok(String::from_str(alloc, text)?),
        Err(_) => Err(NOT_OWNED),
    }
}

// Returns what the script prints. If memory is refused, the run tells so or prints lines that differ by that alone, and
// the script is run again.
fn lines(alloc: Global, script: &str, tolerance: &mut Tolerance) -> Result<String, Refusal> {
    let first = answered(alloc, script.as_bytes())?;
    let first_text = text(alloc, &first)?;
    if first.outcome == Ok(()) && !first_text.contains("Memory") {
        return Ok(first_text);
    }
    if !tolerance.takes() {
        return Ok(first_text);
    }
    let second = answered(alloc, script.as_bytes())?;
    let second_text = text(alloc, &second)?;
    let is_told = match first.outcome {
        Ok(()) => differ_by_memory(first_text.as_str(), second_text.as_str()),
        Err(Fault::Memory) => first_text.as_str() == "run refused Memory\n",
        Err(_) => false,
    };
    if is_told {
        Ok(second_text)
    } else {
        Ok(first_text)
    }
}

// Returns whether the lines are these plain ones, but for calls that were refused for want of memory, and calls that
// name one.
fn differ_by_memory(refused: &str, plain: &str) -> bool {
    refused.lines().count() == plain.lines().count()
        && refused.lines().zip(plain.lines()).all(|(line, other)| {
            line == other
                || line.ends_with(": refused Memory")
                || line.ends_with(": refused NoSuchAnswer")
        })
}

// Returns the answers to the calls of the script, made as one list, in a word each. If memory is refused, they differ by
// that alone or the run is refused, and the calls are made again.
fn words(alloc: Global, script: &str, tolerance: &mut Tolerance) -> Result<String, Refusal> {
    let first = words_once(alloc, script)?;
    if !first.contains("Memory") || !tolerance.takes() {
        return Ok(first);
    }
    let second = words_once(alloc, script)?;
    let is_told = first.as_str() == "Memory"
        || first.split(" ").count() == second.split(" ").count()
            && first.split(" ").zip(second.split(" ")).all(|(word, other)| {
                word == other || word == "Memory" || word == "NoSuchAnswer"
            });
    if is_told { Ok(second) } else { Ok(first) }
}

// Returns the answers, or `Memory` if the run is refused.
fn words_once(alloc: Global, script: &str) -> Result<String, Refusal> {
    let mut calls = Vec::new(alloc);
    for line in script.lines() {
        if let Some(call) = parse_line(alloc, line.as_bytes())? {
            calls.push(call)?;
        }
    }
    let mut cx = Interner::new(alloc)?;
    let answers = run_calls(&mut cx, calls.as_slice());
    drop(cx);
    let mut words = String::new(alloc);
    let Ok(answers) = answers else {
        words.push_str("Memory")?;
        return Ok(words);
    };
    for answer in &answers {
        if !words.is_empty() {
            words.push_str(" ")?;
        }
        match answer {
            Answer::Refused(refusal) => words.push_str(refusal_word(*refusal))?,
            Answer::Truth(true) => words.push_str("yes")?,
            Answer::Truth(false) => words.push_str("no")?,
            Answer::Info { .. } => words.push_str("info")?,
            Answer::Bad => words.push_str("bad")?,
            _ => words.push_str("ok")?,
        }
    }
    Ok(words)
}

// Returns the refusal in a word.
fn refusal_word(refusal: Refusal) -> &'static str {
    match refusal {
        Refusal::Memory => "Memory",
        Refusal::NoSuchAnswer => "NoSuchAnswer",
        _ => "refused",
    }
}

// A reader that gives some bytes at each read, and fails at a read.
#[derive(Drop)]
struct FailingReader<'a> {
    rest: &'a [u8],
    reads_before: u32,
}

impl<'a> Read for FailingReader<'a> {
    fn read(&mut self, buf: &mut [u8]) -> io::Result<usize> {
        if self.reads_before == 0 {
            return Err(io::Error::from(ErrorKind::ConnectionReset));
        }
        self.reads_before -= 1;
        let count = self.rest.len().min(buf.len()).min(PIECE);
        buf[..count].copy_from_slice(&self.rest[..count]);
        self.rest = &self.rest[count..];
        Ok(count)
    }
}

// A writer that takes some bytes at each write, and fails at a write.
#[derive(Drop)]
struct FailingWriter {
    writes_before: u32,
}

impl Write for FailingWriter {
    fn write(&mut self, buf: &[u8]) -> io::Result<usize> {
        if self.writes_before == 0 {
            return Err(io::Error::from(ErrorKind::BrokenPipe));
        }
        self.writes_before -= 1;
        Ok(buf.len().min(PIECE))
    }

    fn flush(&mut self) -> io::Result<()> {
        Ok(())
    }
}

// Returns the number of reads that the script takes. Whichever of them fails, the run is refused with `Input` and writes
// nothing.
fn failed_reads(alloc: Global, script: &str, tolerance: &mut Tolerance) -> Result<u32, Refusal> {
    let reads = pieces(script.len()).saturating_add(1);
    for reads_before in 0..=reads {
        let wanted = if reads_before < reads {
            Err(Fault::Input)
        } else {
            Ok(())
        };
        let ran = ran_again(tolerance, wanted, || {
            let rest = script.as_bytes();
            answered(alloc, FailingReader { rest, reads_before })
        })?;
        if ran.outcome != wanted || ran.output.is_empty() != wanted.is_err() {
            return Err(NOT_OWNED);
        }
    }
    Ok(reads)
}

// Returns the number of writes of these lines, which the script prints. Whichever of them fails, the run is refused with
// `Output`.
fn failed_writes(
    alloc: Global,
    script: &str,
    lines: &str,
    tolerance: &mut Tolerance,
) -> Result<u32, Refusal> {
    let writes = pieces(lines.len());
    for writes_before in 0..=writes {
        let wanted = if writes_before < writes {
            Err(Fault::Output)
        } else {
            Ok(())
        };
        let ran = ran_again(tolerance, wanted, || {
            let outcome = run_script(alloc, script.as_bytes(), FailingWriter { writes_before });
            let output = Vec::new(alloc);
            Ok(Ran { outcome, output })
        })?;
        if ran.outcome != wanted {
            return Err(NOT_OWNED);
        }
    }
    Ok(writes)
}

// Returns in how many pieces so many bytes are read or written.
fn pieces(bytes: usize) -> u32 {
    (bytes.min(ROOM) as u32).div_ceil(PIECE as u32)
}

// Returns a run. If its outcome isn't the wanted one, since memory was refused, the run is made again.
fn ran_again<F: Fn() -> Result<Ran, Refusal>>(
    tolerance: &mut Tolerance,
    wanted: Result<(), Fault>,
    run: F,
) -> Result<Ran, Refusal>
    requires { F.IsAlwaysCallable run }
{
    let ran = run()?;
    if ran.outcome != wanted && tolerance.takes() {
        run()
    } else {
        Ok(ran)
    }
}
