//! Building the parts of kinds.
//!
//! A call names what takes the places of a kind's children, at most two, the variables of the binder around them, and
//! a text. It is built here for all kinds; how a kind is made of it is the kind's own `match`.

ghost use Rattle.std.specs.Prelude.{◌≡◌, IfOk, IfErr};
ghost use Rattle.tt_kinds.specs.Kinds.{parts_shapes};
ghost use Rattle.tt_interner.specs.Stored.{Terms, Extends};
ghost use Rattle.tt_calls.specs.CallForm.{term_part};
ghost use Rattle.tt_calls.specs.Told.{told_all, AreOwnedAnswers};
ghost use Rattle.tt_calls.specs.Means.{number_at};
ghost use Rattle.tt_calls.specs.Build.{GivesParts};
ghost use Rattle.tt_calls.specs.Room.{PartNeedsRoom};
ghost use Rattle.tt_calls.specs.Parts.{
  named_part,
  named_parts,
  named_vars,
  named_text,
  AreOfSorts,
  GivesChild,
  GivesVars,
  GivesText,
  GivesBuilt,
  PartsNeedRoom,
  VarListNeedsRoom,
  TextNeedsRoom,
  BuiltNeedsRoom,
};

use crate::answer::Answer;
use crate::answers::lookup::handle_at;
use crate::build::lists::{build_arg_list, build_consts, build_pats, build_tys};
use crate::build::regions::{build_region, build_vars};
use crate::call::{ArgCall, RegionCall, TermCall, VariableCall};
use tt_index::Refusal;
use tt_interner::Interner;
use tt_kinds::{BoundVarKinds, Child, Const, Parts, Pat, Symbol, Ty};

/// What a call puts in the place of a child.
#[derive(Clone, Copy)]
pub enum PartCall<'a> {
    /// The region.
    Region(&'a RegionCall),
    /// The type that the call at this position answered.
    Ty(u32),
    /// The constant that the call at this position answered.
    Const(u32),
    /// The pattern that the call at this position answered.
    Pat(u32),
    /// The list of the types at these positions.
    Tys(&'a [u32]),
    /// The list of the constants at these positions.
    Consts(&'a [u32]),
    /// The list of the patterns at these positions.
    Pats(&'a [u32]),
    /// The list of these generic arguments.
    Args(&'a [ArgCall]),
}

impl<'a> PartCall<'a> {
    /// Returns the type or the constant, to be put in the place of a child.
    pub fn of_term(term: TermCall) -> PartCall<'a>
        ensures { named_part result ≡ term_part term }
    {
        match term {
            TermCall::Ty(position) => PartCall::Ty(position),
            TermCall::Const(position) => PartCall::Const(position),
        }
    }
}

/// What a call puts in the places of a kind's children, in order.
#[derive(Clone, Copy)]
pub enum PartsCall<'a> {
    /// The kind has no children.
    None,
    /// The kind has one child.
    One(PartCall<'a>),
    /// The kind has two children.
    Two(PartCall<'a>, PartCall<'a>),
}

/// What a call names, as a kind holds it.
#[derive(Clone, Copy)]
pub struct Built {
    /// The children.
    pub parts: Parts,
    /// The variables of the binder. Without meaning if the kind has no binder.
    pub vars: BoundVarKinds,
    /// The name. Without meaning if the kind has none.
    pub name: Symbol,
}

/// Builds what a call names: the children, the variables of the binder if the kind has one, and the name if it has one.
#[inline(always)]
pub fn build<'a>(
    cx: &mut Interner,
    earlier: &[Answer],
    parts: PartsCall<'a>,
    vars: Option<&'a [VariableCall]>,
    text: Option<&'a str>,
) -> Result<Built, Refusal>
    requires { AreOwnedAnswers cx.old.rows earlier.now }
    ensures extends { Extends cx.old cx.new }
    ensures built { GivesBuilt cx.new
        (told_all cx.old.rows earlier.now)
        (named_parts parts.entry)
        (named_vars (number_at (told_all cx.old.rows earlier.now)) vars.entry)
        (named_text text.entry)
        result }
    ensures room { IfErr result
        (BuiltNeedsRoom cx.new.rows
        (told_all cx.old.rows earlier.now)
        (named_parts parts.entry)
        (named_vars (number_at (told_all cx.old.rows earlier.now)) vars.entry)
        (named_text text.entry)) }
{
    let parts = build_parts(cx, earlier, parts)?;
    let vars = build_binder(cx, earlier, vars)?;
    let name = build_text(cx, text)?;
    Ok(Built { parts, vars, name })
}

// Builds the variables of a binder, if there is one.
fn build_binder<'a>(
    cx: &mut Interner,
    earlier: &[Answer],
    vars: Option<&'a [VariableCall]>,
) -> Result<BoundVarKinds, Refusal>
    ensures extends { Extends cx.old cx.new }
    ensures vars { (terms : Terms) → GivesVars cx.new
        (named_vars (number_at (told_all terms.rows earlier.now)) vars.entry)
        result }
    ensures room { (terms : Terms) → IfErr result
        (VarListNeedsRoom cx.new.rows (named_vars (number_at (told_all terms.rows earlier.now)) vars.entry)) }
{
    match vars {
        Some(vars) => build_vars(cx, earlier, vars),
        None => Ok(BoundVarKinds::default()),
    }
}

// Builds the name of a kind, if it has one.
fn build_text<'a>(cx: &mut Interner, text: Option<&'a str>) -> Result<Symbol, Refusal>
    ensures extends { Extends cx.old cx.new }
    ensures text { GivesText cx.new (named_text text.entry) result }
    ensures room { IfErr result (TextNeedsRoom cx.new.rows (named_text text.entry)) }
{
    match text {
        Some(text) => cx.symbol(text),
        None => Ok(Symbol::default()),
    }
}

// Builds the children of a kind.
#[inline(always)]
fn build_parts<'a>(
    cx: &mut Interner,
    earlier: &[Answer],
    parts: PartsCall<'a>,
) -> Result<Parts, Refusal>
    requires { AreOwnedAnswers cx.old.rows earlier.now }
    ensures extends { Extends cx.old cx.new }
    ensures sorts { IfOk result (AreOfSorts (named_parts parts.entry)) }
    ensures parts { GivesParts cx.new
        (told_all cx.old.rows earlier.now)
        (named_parts parts.entry)
        parts_shapes
        result }
    ensures room { IfErr result
        (PartsNeedRoom cx.new.rows (told_all cx.old.rows earlier.now) (named_parts parts.entry)) }
{
    match parts {
        PartsCall::None => Ok(Parts::none()),
        PartsCall::One(part) => Ok(Parts::one(build_part(cx, earlier, part)?)),
        PartsCall::Two(first, second) => {
            let first = build_part(cx, earlier, first)?;
            let second = build_part(cx, earlier, second)?;
            Ok(Parts::two(first, second))
        }
    }
}

// Builds a child of a kind.
#[inline(always)]
fn build_part<'a>(
    cx: &mut Interner,
    earlier: &[Answer],
    part: PartCall<'a>,
) -> Result<Child, Refusal>
    requires { AreOwnedAnswers cx.old.rows earlier.now }
    ensures extends { Extends cx.old cx.new }
    ensures child { GivesChild cx.new (told_all cx.old.rows earlier.now) (named_part part.entry) result }
    ensures room { IfErr result
        (PartNeedsRoom cx.new.rows (told_all cx.old.rows earlier.now) (named_part part.entry)) }
{
    match part {
        PartCall::Region(region) => Ok(Child::Region(build_region(cx, earlier, region)?)),
        PartCall::Ty(position) => Ok(handle_at::<Ty>(earlier, position)?.child()),
        PartCall::Const(position) => Ok(handle_at::<Const>(earlier, position)?.child()),
        PartCall::Pat(position) => Ok(handle_at::<Pat>(earlier, position)?.child()),
        PartCall::Tys(positions) => Ok(build_tys(cx, earlier, positions)?.child()),
        PartCall::Consts(positions) => Ok(build_consts(cx, earlier, positions)?.child()),
        PartCall::Pats(positions) => Ok(build_pats(cx, earlier, positions)?.child()),
        PartCall::Args(args) => Ok(build_arg_list(cx, earlier, args)?.child()),
    }
}
