//! Answers: whether they are an interner's, and how they are printed.

ghost use Rattle.std.specs.Prelude.{IsTrue};
ghost use Rattle.tt_calls.specs.Told.{AreOwnedAnswers, IsOwnedAnswer};

use crate::tolerance::Tolerance;
use test_terms::{Flagged, NOT_OWNED, info};
use type_terms::{
    Answer, Clauses, DeclarationSort, DefId, GenericArgs, InternedList, InternedText, Interner,
    IrPrint, Owned, Refusal,
};

/// Returns whether each handle and id of the answers is of this interner.
pub fn owns_answers(cx: &Interner, answers: &[Answer]) -> bool
    ensures { IsTrue result → AreOwnedAnswers cx.now.rows answers.now }
{
    match answers {
        [] => true,
        [first, rest @ ..] => owns_answer(cx, first) && owns_answers(cx, rest),
    }
}

// Returns whether the handle or the id of the answer, if there is one, is of this interner.
fn owns_answer(cx: &Interner, answer: &Answer) -> bool
    ensures { IsTrue result → IsOwnedAnswer cx.now.rows answer.now }
{
    match answer {
        Answer::Ty(ty) => cx.owns(*ty),
        Answer::Const(constant) => cx.owns(*constant),
        Answer::Pat(pat) => cx.owns(*pat),
        Answer::Predicate(predicate) => cx.owns(*predicate),
        Answer::Clauses(clauses) => cx.owns(*clauses),
        Answer::Args(args) => cx.owns(*args),
        Answer::Id(sort, id) => cx.owns_id_of_sort(*id, *sort),
        Answer::Truth(_) | Answer::Info { .. } | Answer::Refused(_) | Answer::Bad => true,
    }
}

/// How answers are printed.
#[derive(Drop)]
pub struct Printer<'a> {
    /// Whether terms are printed by their texts. They have to be small: a text has no sharing.
    pub has_texts: bool,
    /// How often memory may be refused.
    pub tolerance: &'a mut Tolerance,
}

impl<'a> Printer<'a> {
    /// Returns the answer's line: a term's text, flags and outer exclusive binder, a declaration's name, or a word.
    pub fn line(&mut self, cx: &Interner, answer: &Answer) -> Result<String, Refusal> {
        let mut out = String::new(cx.allocator());
        match answer {
            Answer::Ty(ty) => self.term(cx, &mut out, "type", ty)?,
            Answer::Const(constant) => self.term(cx, &mut out, "const", constant)?,
            Answer::Pat(pat) => self.term(cx, &mut out, "pattern", pat)?,
            Answer::Predicate(predicate) => self.term(cx, &mut out, "predicate", predicate)?,
            Answer::Clauses(clauses) => self.clauses(cx, &mut out, *clauses)?,
            Answer::Args(args) => self.args(cx, &mut out, *args)?,
            Answer::Id(sort, id) => declaration(cx, &mut out, *sort, *id)?,
            Answer::Truth(true) => out.push_str("yes")?,
            Answer::Truth(false) => out.push_str("no")?,
            Answer::Info { flags, outer } => {
                information(&mut out, (flags.bits(), outer.as_u32()))?;
            }
            Answer::Refused(refusal) => write!(out, "refused {refusal:?}")?,
            Answer::Bad => out.push_str("bad line")?,
        }
        Ok(out)
    }

    // Appends a term.
    fn term<T: IrPrint + Owned + Flagged>(
        &mut self,
        cx: &Interner,
        out: &mut String,
        sort: &str,
        term: &T,
    ) -> Result<(), Refusal> {
        out.push_str(sort)?;
        if self.has_texts {
            out.push_str(" ")?;
            self.text(cx, out, term)?;
        }
        out.push_str(", ")?;
        information(out, info(cx, term)?)
    }

    // Appends a term's text. A refused call appends nothing.
    fn text<T: IrPrint + Owned>(
        &mut self,
        cx: &Interner,
        out: &mut String,
        term: &T,
    ) -> Result<(), Refusal> {
        if !term.is_owned(cx) {
            return Err(NOT_OWNED);
        }
        match term.print(cx, out) {
            Err(_) if self.tolerance.takes() => Ok(term.print(cx, out)?),
            outcome => Ok(outcome?),
        }
    }

    // Appends a list of clauses.
    fn clauses(
        &mut self,
        cx: &Interner,
        out: &mut String,
        clauses: Clauses,
    ) -> Result<(), Refusal> {
        if !cx.owns(clauses) {
            return Err(NOT_OWNED);
        }
        out.push_str("clauses")?;
        for clause in clauses.as_slice(cx) {
            out.push_str(" [")?;
            self.text(cx, out, clause)?;
            out.push_str("]")?;
        }
        out.push_str(", ")?;
        information(out, info(cx, &clauses)?)
    }

    // Appends a list of generic arguments.
    fn args(&mut self, cx: &Interner, out: &mut String, args: GenericArgs) -> Result<(), Refusal> {
        if !cx.owns(args) {
            return Err(NOT_OWNED);
        }
        out.push_str("args")?;
        for arg in args.as_slice(cx) {
            out.push_str(" [")?;
            self.text(cx, out, arg)?;
            out.push_str("]")?;
        }
        out.push_str(", ")?;
        information(out, info(cx, &args)?)
    }
}

// Appends flags and an outer exclusive binder.
fn information(out: &mut String, info: (u32, u32)) -> Result<(), Refusal> {
    let (flags, outer) = info;
    Ok(write!(out, "flags {flags:08X} outer {outer}")?)
}

// Appends the sort and the name of a declaration.
fn declaration(
    cx: &Interner,
    out: &mut String,
    sort: DeclarationSort,
    id: DefId,
) -> Result<(), Refusal> {
    if !cx.owns_def_id(id) {
        return Err(NOT_OWNED);
    }
    let name = cx.item_name(id);
    if !cx.owns(name) {
        return Err(NOT_OWNED);
    }
    let text = name.as_str(cx);
    Ok(write!(out, "declared {sort:?} {text}")?)
}
