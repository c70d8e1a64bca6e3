//! The texts of lists, of records that aren't stored, and of values under a binder.

ghost use Rattle.std.specs.Prelude.{◌≡◌, ◌<◌, ◌++◌, string_bytes, OnErr, OnOk};
ghost use Rattle.tt_kinds.specs.Kinds.{args_shape, binder_shape};
ghost use Rattle.tt_kinds.specs.Label.{trait_ref_record};
ghost use Rattle.tt_kinds.specs.Shape.{IsPart, fill};
ghost use Rattle.tt_kinds.specs.Values.{one_record};
ghost use Rattle.tt_kinds.specs.declared.table.Table.TheVariants.{ArgLists};
ghost use Rattle.tt_interner.specs.Rows.{meaning, size};
ghost use Rattle.tt_print.specs.Text.{Writes, names, text};

use super::layout::Style;
use super::spelling::{
    clause_spelling, declared, existential_spelling, fn_spelling, pattern_spelling,
    predicate_spelling, worded,
};
use super::{IrPrint, print_child, print_kind, print_record, write_variables};
use std::alloc::AllocError;
use tt_interner::Interner;
use tt_kinds::{
    AliasTerm, AliasTy, Binder, Child, ClauseKind, ConstKind, ExistentialPredicate, FnSig,
    GenericArgs, HostEffectPredicate, Kind, OutlivesPredicate, ParamEnv, Parts, PatternKind,
    PredicateKind, ProjectionPredicate, Region, TraitPredicate, TraitRef, Ty, TyKind,
};

// Appends the name of an item and its arguments, or nothing if memory for them is refused.
#[tactic(auto, unfolding(tt_kinds::specs::Shape::fill, tt_kinds::specs::Shape::fill_all))]
fn print_item(
    cx: &Interner,
    out: &mut String,
    number: u32,
    args: GenericArgs,
) -> Result<(), AllocError>
    requires { args.number < size cx.now.rows ArgLists }
    ensures ok { OnOk result (string_bytes out.new
        ≡ string_bytes out.old
        ++ text
        (names cx.now.rows)
        (fill (meaning cx.now.rows) (one_record (trait_ref_record number) (args_shape args)))) }
    ensures err { OnErr result (string_bytes out.new ≡ string_bytes out.old) }
{
    let spelling = declared("", number, Style::Generic);
    print_record(cx, out, &spelling, &Parts::one(args.child()))
}

// Appends the variables of a binder, and the value under it.
fn write_bound<T: IrPrint>(
    cx: &Interner,
    out: &mut String,
    binder: &Binder<T>,
) -> Result<(), AllocError>
    requires { IsPart (size cx.now.rows) (binder_shape T.shape binder.now) }
    ensures { Writes result (string_bytes out.old) (string_bytes out.new)
        (text (names cx.now.rows) (fill (meaning cx.now.rows) (binder_shape T.shape binder.now))) }
{
    write_variables(cx, out, binder.bound_vars())?;
    binder.as_ref().skip_binder().print(cx, out)
}

// Appends the variables of a binder and the value under it, or nothing if memory for them is refused.
fn print_bound<T: IrPrint>(
    cx: &Interner,
    out: &mut String,
    binder: &Binder<T>,
) -> Result<(), AllocError>
    requires { IsPart (size cx.now.rows) (binder_shape T.shape binder.now) }
    ensures ok { OnOk result (string_bytes out.new
        ≡ string_bytes out.old
        ++ text (names cx.now.rows) (fill (meaning cx.now.rows) (binder_shape T.shape binder.now))) }
    ensures err { OnErr result (string_bytes out.new ≡ string_bytes out.old) }
{
    let start = out.len();
    match write_bound(cx, out, binder) {
        Ok(()) => Ok(()),
        Err(e) => {
            out.truncate(start);
            Err(e)
        }
    }
}

/// The binder's variables are in front of the value: `for<'^0> Clone<&'^0.0 T>`.
impl<T: IrPrint> IrPrint for Binder<T> {
    fn print(&self, cx: &Interner, out: &mut String) -> Result<(), AllocError> {
        print_bound(cx, out, self)
    }
}

impl IrPrint for TraitRef {
    #[tactic(auto, unfolding(tt_kinds::specs::Shape::fill, tt_kinds::specs::Shape::fill_all))]
    fn print(&self, cx: &Interner, out: &mut String) -> Result<(), AllocError> {
        print_item(cx, out, self.def_id.number(), self.args)
    }
}

impl IrPrint for AliasTerm {
    #[tactic(auto, unfolding(tt_kinds::specs::Shape::fill, tt_kinds::specs::Shape::fill_all))]
    fn print(&self, cx: &Interner, out: &mut String) -> Result<(), AllocError> {
        let AliasTerm { args, def_id } = *self;
        print_item(cx, out, def_id.number(), args)
    }
}

impl IrPrint for AliasTy {
    #[tactic(auto, unfolding(tt_kinds::specs::Shape::fill, tt_kinds::specs::Shape::fill_all))]
    fn print(&self, cx: &Interner, out: &mut String) -> Result<(), AllocError> {
        print_item(cx, out, self.kind.def_id().number(), self.args)
    }
}

impl IrPrint for FnSig {
    #[tactic(auto, unfolding(tt_kinds::specs::Shape::fill, tt_kinds::specs::Shape::fill_all))]
    fn print(&self, cx: &Interner, out: &mut String) -> Result<(), AllocError> {
        let spelling = fn_spelling(self.fn_sig_kind);
        let types = self.inputs_and_output.child();
        print_record(cx, out, &spelling, &Parts::one(types))
    }
}

impl IrPrint for ParamEnv {
    #[tactic(auto, unfolding(tt_kinds::specs::Shape::fill, tt_kinds::specs::Shape::fill_all))]
    fn print(&self, cx: &Interner, out: &mut String) -> Result<(), AllocError> {
        let spelling = worded("ParamEnv(", Style::Record);
        let clauses = self.caller_bounds.child();
        print_record(cx, out, &spelling, &Parts::one(clauses))
    }
}

impl IrPrint for ClauseKind {
    #[tactic(auto, unfolding(tt_kinds::specs::Shape::fill))]
    fn print(&self, cx: &Interner, out: &mut String) -> Result<(), AllocError> {
        let spelling = clause_spelling(self);
        print_record(cx, out, &spelling, &self.parts())
    }
}

impl IrPrint for PredicateKind {
    #[tactic(auto, unfolding(tt_kinds::specs::Shape::fill))]
    fn print(&self, cx: &Interner, out: &mut String) -> Result<(), AllocError> {
        let spelling = predicate_spelling(self);
        print_record(cx, out, &spelling, &self.parts())
    }
}

impl IrPrint for ExistentialPredicate {
    #[tactic(auto, unfolding(tt_kinds::specs::Shape::fill))]
    fn print(&self, cx: &Interner, out: &mut String) -> Result<(), AllocError> {
        let spelling = existential_spelling(self);
        print_record(cx, out, &spelling, &self.parts())
    }
}

impl IrPrint for TraitPredicate {
    fn print(&self, cx: &Interner, out: &mut String) -> Result<(), AllocError> {
        ClauseKind::Trait(*self).print(cx, out)
    }
}

impl IrPrint for HostEffectPredicate {
    fn print(&self, cx: &Interner, out: &mut String) -> Result<(), AllocError> {
        ClauseKind::HostEffect(*self).print(cx, out)
    }
}

impl IrPrint for ProjectionPredicate {
    fn print(&self, cx: &Interner, out: &mut String) -> Result<(), AllocError> {
        ClauseKind::Projection(*self).print(cx, out)
    }
}

impl IrPrint for OutlivesPredicate<Ty> {
    #[tactic(auto, unfolding(tt_kinds::specs::Shape::fill, tt_kinds::specs::Shape::fill_all))]
    fn print(&self, cx: &Interner, out: &mut String) -> Result<(), AllocError> {
        let spelling = worded("", Style::Outlives);
        let parts = Parts::two(self.0.child(), Child::Region(self.1));
        print_record(cx, out, &spelling, &parts)
    }
}

impl IrPrint for OutlivesPredicate<Region> {
    #[tactic(auto, unfolding(tt_kinds::specs::Shape::fill, tt_kinds::specs::Shape::fill_all))]
    fn print(&self, cx: &Interner, out: &mut String) -> Result<(), AllocError> {
        let spelling = worded("", Style::Outlives);
        let parts = Parts::two(Child::Region(self.0), Child::Region(self.1));
        print_record(cx, out, &spelling, &parts)
    }
}

/// A type's kind is written as the stored type is.
impl IrPrint for TyKind {
    fn print(&self, cx: &Interner, out: &mut String) -> Result<(), AllocError> {
        print_kind(cx, out, &Kind::Ty(*self))
    }
}

/// A constant's kind is written as the stored constant is.
impl IrPrint for ConstKind {
    fn print(&self, cx: &Interner, out: &mut String) -> Result<(), AllocError> {
        print_kind(cx, out, &Kind::Const(*self))
    }
}

/// A pattern's kind is written as the stored pattern is.
impl IrPrint for PatternKind {
    #[tactic(auto, unfolding(tt_kinds::specs::Shape::fill))]
    fn print(&self, cx: &Interner, out: &mut String) -> Result<(), AllocError> {
        let spelling = pattern_spelling(self);
        print_record(cx, out, &spelling, &self.parts())
    }
}
