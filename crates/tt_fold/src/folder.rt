//! The traits of folders.

ghost use Rattle.std.specs.Prelude.{◌≡◌, List};
ghost use Rattle.tt_index.specs.declared.refusal.Refusal.{Refusal};
ghost use Rattle.tt_kinds.specs.Kinds.{clauses_shape, const_shape, predicate_shape, region_shape, ty_shape};
ghost use Rattle.tt_kinds.specs.Tree.{Depth, Tree};
ghost use Rattle.tt_interner.specs.Rows.{Row};
ghost use Rattle.tt_interner.specs.Stored.{Extends};
ghost use Rattle.tt_fold.specs.Growth.{AddsTerms};
ghost use Rattle.tt_fold.specs.Walk.{Hooks};
ghost use Rattle.tt_fold.specs.Counts.{Standing};
ghost use Rattle.tt_fold.specs.Steps.{
  HasVars,
  IsPartOf,
  AnswersRegion,
  AnswersTerm,
  RebuildsTerm,
  EntersBinder,
  LeavesBinder,
  IsItself,
  tree_in,
};

use tt_index::Refusal;
use tt_interner::Interner;
use tt_kinds::{BoundVarKinds, Clauses, Const, Predicate, Region, Ty};

/// The answer of a folder's hook at a type, a constant, a predicate or a list of clauses, before its contents.
#[derive(Clone, Copy, Debug, PartialEq, Eq)]
pub enum Step<T> {
    /// This term replaces the visited one, and the walk enters neither.
    Replace(T),
    /// The term stays, and the walk does not enter it.
    Keep,
    /// The walk enters the term.
    Descend,
}

/// A folder whose only errors are refusals.
///
/// The walk calls the folder at each region, type, constant, predicate, list of clauses and binder that it reaches, in
/// order. The folder returns their replacements. Patterns, existential predicates, other lists and records have no
/// hook: the walk enters them. Each method has to be written, since a default body could promise nothing exact.
pub trait TypeFolder {
    // What a state means, with trees in the places of its handles.
    ghost Meaning: { Type 0 };

    ghost meaning: { List Row → Self → Self.Meaning };
    // Each handle of the state names one of the rows.
    ghost owned: { List Row → Self → Type 0 };

    // What the hooks promise, as relations on states and trees.
    ghost hooks: { Hooks (Standing Self.Meaning) Refusal };
    // The trees at which the hooks leave the interner unchanged, given its rows and the state; by default none.
    ghost touches_nothing: { List Row → Self → Tree Depth → Type 0 } = { λ rows s t. ⊥ };

    /// Called at each region: returns its replacement.
    fn fold_region(&mut self, cx: &mut Interner, region: Region) -> Result<Region, Refusal>
        requires owned { owned cx.old.rows self.old }
        requires region { IsPartOf cx.old.rows (region_shape region) }
        ensures extends { Extends cx.old cx.new }
        ensures owned { owned cx.new.rows self.new }
        ensures still { touches_nothing cx.old.rows self.old (tree_in cx.old.rows (region_shape region))
            → cx.new ≡ cx.old }
        ensures result { AnswersRegion meaning hooks IsItself cx.old self.old region result cx.new self.new };

    /// Called at each type, before its contents: returns whether to replace, keep or enter it.
    fn fold_ty(&mut self, cx: &mut Interner, ty: Ty) -> Result<Step<Ty>, Refusal>
        requires owned { owned cx.old.rows self.old }
        requires ty { IsPartOf cx.old.rows (ty_shape ty) }
        ensures extends { Extends cx.old cx.new }
        ensures owned { owned cx.new.rows self.new }
        ensures still { touches_nothing cx.old.rows self.old (tree_in cx.old.rows (ty_shape ty)) → cx.new ≡ cx.old }
        ensures result { AnswersTerm meaning hooks IsItself ty_shape cx.old self.old ty result cx.new self.new };

    /// Called at each type that was entered, after its contents: returns its replacement. `rebuilt` is the type
    /// `before` with its contents folded.
    fn after_ty(&mut self, cx: &mut Interner, before: Ty, rebuilt: Ty) -> Result<Ty, Refusal>
        requires owned { owned cx.old.rows self.old }
        requires before { IsPartOf cx.old.rows (ty_shape before) }
        requires rebuilt { IsPartOf cx.old.rows (ty_shape rebuilt) }
        ensures extends { Extends cx.old cx.new }
        ensures owned { owned cx.new.rows self.new }
        ensures result { RebuildsTerm meaning hooks IsItself ty_shape
            cx.old self.old before rebuilt result cx.new self.new };

    /// Called at each constant, before its contents: returns whether to replace, keep or enter it.
    fn fold_const(&mut self, cx: &mut Interner, constant: Const) -> Result<Step<Const>, Refusal>
        requires owned { owned cx.old.rows self.old }
        requires constant { IsPartOf cx.old.rows (const_shape constant) }
        ensures extends { Extends cx.old cx.new }
        ensures owned { owned cx.new.rows self.new }
        ensures still { touches_nothing cx.old.rows self.old (tree_in cx.old.rows (const_shape constant))
            → cx.new ≡ cx.old }
        ensures result { AnswersTerm meaning hooks IsItself const_shape
            cx.old self.old constant result cx.new self.new };

    /// Called at each constant that was entered, after its contents: returns its replacement.
    fn after_const(
        &mut self,
        cx: &mut Interner,
        before: Const,
        rebuilt: Const,
    ) -> Result<Const, Refusal>
        requires owned { owned cx.old.rows self.old }
        requires before { IsPartOf cx.old.rows (const_shape before) }
        requires rebuilt { IsPartOf cx.old.rows (const_shape rebuilt) }
        ensures extends { Extends cx.old cx.new }
        ensures owned { owned cx.new.rows self.new }
        ensures result { RebuildsTerm meaning hooks IsItself const_shape
            cx.old self.old before rebuilt result cx.new self.new };

    /// Called at each predicate and each clause, before its contents: returns whether to replace, keep or enter it.
    fn fold_predicate(
        &mut self,
        cx: &mut Interner,
        predicate: Predicate,
    ) -> Result<Step<Predicate>, Refusal>
        requires owned { owned cx.old.rows self.old }
        requires predicate { IsPartOf cx.old.rows (predicate_shape predicate) }
        ensures extends { Extends cx.old cx.new }
        ensures owned { owned cx.new.rows self.new }
        ensures still { touches_nothing cx.old.rows self.old (tree_in cx.old.rows (predicate_shape predicate))
            → cx.new ≡ cx.old }
        ensures result { AnswersTerm meaning hooks IsItself predicate_shape
            cx.old self.old predicate result cx.new self.new };

    /// Called at each predicate that was entered, after its contents: returns its replacement.
    fn after_predicate(
        &mut self,
        cx: &mut Interner,
        before: Predicate,
        rebuilt: Predicate,
    ) -> Result<Predicate, Refusal>
        requires owned { owned cx.old.rows self.old }
        requires before { IsPartOf cx.old.rows (predicate_shape before) }
        requires rebuilt { IsPartOf cx.old.rows (predicate_shape rebuilt) }
        ensures extends { Extends cx.old cx.new }
        ensures owned { owned cx.new.rows self.new }
        ensures result { RebuildsTerm meaning hooks IsItself predicate_shape
            cx.old self.old before rebuilt result cx.new self.new };

    /// Called at each list of clauses, before the clauses: returns whether to replace, keep or enter it.
    fn fold_clauses(
        &mut self,
        cx: &mut Interner,
        clauses: Clauses,
    ) -> Result<Step<Clauses>, Refusal>
        requires owned { owned cx.old.rows self.old }
        requires clauses { IsPartOf cx.old.rows (clauses_shape clauses) }
        ensures extends { Extends cx.old cx.new }
        ensures owned { owned cx.new.rows self.new }
        ensures still { touches_nothing cx.old.rows self.old (tree_in cx.old.rows (clauses_shape clauses))
            → cx.new ≡ cx.old }
        ensures result { AnswersTerm meaning hooks IsItself clauses_shape
            cx.old self.old clauses result cx.new self.new };

    /// Called at each list of clauses that was entered, after the clauses: returns its replacement.
    fn after_clauses(
        &mut self,
        cx: &mut Interner,
        before: Clauses,
        rebuilt: Clauses,
    ) -> Result<Clauses, Refusal>
        requires owned { owned cx.old.rows self.old }
        requires before { IsPartOf cx.old.rows (clauses_shape before) }
        requires rebuilt { IsPartOf cx.old.rows (clauses_shape rebuilt) }
        ensures extends { Extends cx.old cx.new }
        ensures owned { owned cx.new.rows self.new }
        ensures result { RebuildsTerm meaning hooks IsItself clauses_shape
            cx.old self.old before rebuilt result cx.new self.new };

    /// Called at each binder, before its value.
    fn fold_binder(&mut self, cx: &mut Interner, vars: BoundVarKinds) -> Result<(), Refusal>
        requires owned { owned cx.old.rows self.old }
        requires vars { HasVars cx.old.rows vars }
        ensures extends { Extends cx.old cx.new }
        ensures owned { owned cx.new.rows self.new }
        ensures result { EntersBinder meaning hooks IsItself cx.old self.old vars result cx.new self.new };

    /// Called at each binder, after its value.
    fn after_binder(&mut self, cx: &mut Interner, vars: BoundVarKinds) -> Result<(), Refusal>
        requires owned { owned cx.old.rows self.old }
        requires vars { HasVars cx.old.rows vars }
        ensures extends { Extends cx.old cx.new }
        ensures owned { owned cx.new.rows self.new }
        ensures result { LeavesBinder meaning hooks IsItself cx.old self.old vars result cx.new self.new };

    // When terms and lists are added, the state's handles still name rows, and the state means the same.
    ghost still_owned: { (old new : List Row) (s : Self) → AddsTerms old new → owned old s → owned new s };

    ghost still_means: { (old new : List Row) (s : Self) → AddsTerms old new
        → owned old s
        → meaning new s ≡ meaning old s };
}

/// A folder with errors of its own. The walk calls its methods as it calls the methods of [`TypeFolder`].
pub trait FallibleTypeFolder {
    /// The error of the folder.
    type Error: From<Refusal> + Drop;

    // What a state means, with trees in the places of its handles.
    ghost Meaning: { Type 0 };

    ghost meaning: { List Row → Self → Self.Meaning };
    // Each handle of the state names one of the rows.
    ghost owned: { List Row → Self → Type 0 };

    // What the hooks promise, as relations on states and trees.
    ghost hooks: { Hooks (Standing Self.Meaning) Self.Error };
    // The trees at which the hooks leave the interner unchanged, given its rows and the state; by default none.
    ghost touches_nothing: { List Row → Self → Tree Depth → Type 0 } = { λ rows s t. ⊥ };

    /// Called at each region: returns its replacement.
    fn try_fold_region(&mut self, cx: &mut Interner, region: Region) -> Result<Region, Self::Error>
        requires owned { owned cx.old.rows self.old }
        requires region { IsPartOf cx.old.rows (region_shape region) }
        ensures extends { Extends cx.old cx.new }
        ensures owned { owned cx.new.rows self.new }
        ensures still { touches_nothing cx.old.rows self.old (tree_in cx.old.rows (region_shape region))
            → cx.new ≡ cx.old }
        ensures result { AnswersRegion meaning hooks Self.Error.from_gives
            cx.old self.old region result cx.new self.new };

    /// Called at each type, before its contents: returns whether to replace, keep or enter it.
    fn try_fold_ty(&mut self, cx: &mut Interner, ty: Ty) -> Result<Step<Ty>, Self::Error>
        requires owned { owned cx.old.rows self.old }
        requires ty { IsPartOf cx.old.rows (ty_shape ty) }
        ensures extends { Extends cx.old cx.new }
        ensures owned { owned cx.new.rows self.new }
        ensures still { touches_nothing cx.old.rows self.old (tree_in cx.old.rows (ty_shape ty)) → cx.new ≡ cx.old }
        ensures result { AnswersTerm meaning hooks Self.Error.from_gives ty_shape
            cx.old self.old ty result cx.new self.new };

    /// Called at each type that was entered, after its contents: returns its replacement. `rebuilt` is the type
    /// `before` with its contents folded.
    fn after_ty(&mut self, cx: &mut Interner, before: Ty, rebuilt: Ty) -> Result<Ty, Self::Error>
        requires owned { owned cx.old.rows self.old }
        requires before { IsPartOf cx.old.rows (ty_shape before) }
        requires rebuilt { IsPartOf cx.old.rows (ty_shape rebuilt) }
        ensures extends { Extends cx.old cx.new }
        ensures owned { owned cx.new.rows self.new }
        ensures result { RebuildsTerm meaning hooks Self.Error.from_gives ty_shape
            cx.old self.old before rebuilt result cx.new self.new };

    /// Called at each constant, before its contents: returns whether to replace, keep or enter it.
    fn try_fold_const(
        &mut self,
        cx: &mut Interner,
        constant: Const,
    ) -> Result<Step<Const>, Self::Error>
        requires owned { owned cx.old.rows self.old }
        requires constant { IsPartOf cx.old.rows (const_shape constant) }
        ensures extends { Extends cx.old cx.new }
        ensures owned { owned cx.new.rows self.new }
        ensures still { touches_nothing cx.old.rows self.old (tree_in cx.old.rows (const_shape constant))
            → cx.new ≡ cx.old }
        ensures result { AnswersTerm meaning hooks Self.Error.from_gives const_shape
            cx.old self.old constant result cx.new self.new };

    /// Called at each constant that was entered, after its contents: returns its replacement.
    fn after_const(
        &mut self,
        cx: &mut Interner,
        before: Const,
        rebuilt: Const,
    ) -> Result<Const, Self::Error>
        requires owned { owned cx.old.rows self.old }
        requires before { IsPartOf cx.old.rows (const_shape before) }
        requires rebuilt { IsPartOf cx.old.rows (const_shape rebuilt) }
        ensures extends { Extends cx.old cx.new }
        ensures owned { owned cx.new.rows self.new }
        ensures result { RebuildsTerm meaning hooks Self.Error.from_gives const_shape
            cx.old self.old before rebuilt result cx.new self.new };

    /// Called at each predicate and each clause, before its contents: returns whether to replace, keep or enter it.
    fn try_fold_predicate(
        &mut self,
        cx: &mut Interner,
        predicate: Predicate,
    ) -> Result<Step<Predicate>, Self::Error>
        requires owned { owned cx.old.rows self.old }
        requires predicate { IsPartOf cx.old.rows (predicate_shape predicate) }
        ensures extends { Extends cx.old cx.new }
        ensures owned { owned cx.new.rows self.new }
        ensures still { touches_nothing cx.old.rows self.old (tree_in cx.old.rows (predicate_shape predicate))
            → cx.new ≡ cx.old }
        ensures result { AnswersTerm meaning hooks Self.Error.from_gives predicate_shape
            cx.old self.old predicate result cx.new self.new };

    /// Called at each predicate that was entered, after its contents: returns its replacement.
    fn after_predicate(
        &mut self,
        cx: &mut Interner,
        before: Predicate,
        rebuilt: Predicate,
    ) -> Result<Predicate, Self::Error>
        requires owned { owned cx.old.rows self.old }
        requires before { IsPartOf cx.old.rows (predicate_shape before) }
        requires rebuilt { IsPartOf cx.old.rows (predicate_shape rebuilt) }
        ensures extends { Extends cx.old cx.new }
        ensures owned { owned cx.new.rows self.new }
        ensures result { RebuildsTerm meaning hooks Self.Error.from_gives predicate_shape
            cx.old self.old before rebuilt result cx.new self.new };

    /// Called at each list of clauses, before the clauses: returns whether to replace, keep or enter it.
    fn try_fold_clauses(
        &mut self,
        cx: &mut Interner,
        clauses: Clauses,
    ) -> Result<Step<Clauses>, Self::Error>
        requires owned { owned cx.old.rows self.old }
        requires clauses { IsPartOf cx.old.rows (clauses_shape clauses) }
        ensures extends { Extends cx.old cx.new }
        ensures owned { owned cx.new.rows self.new }
        ensures still { touches_nothing cx.old.rows self.old (tree_in cx.old.rows (clauses_shape clauses))
            → cx.new ≡ cx.old }
        ensures result { AnswersTerm meaning hooks Self.Error.from_gives clauses_shape
            cx.old self.old clauses result cx.new self.new };

    /// Called at each list of clauses that was entered, after the clauses: returns its replacement.
    fn after_clauses(
        &mut self,
        cx: &mut Interner,
        before: Clauses,
        rebuilt: Clauses,
    ) -> Result<Clauses, Self::Error>
        requires owned { owned cx.old.rows self.old }
        requires before { IsPartOf cx.old.rows (clauses_shape before) }
        requires rebuilt { IsPartOf cx.old.rows (clauses_shape rebuilt) }
        ensures extends { Extends cx.old cx.new }
        ensures owned { owned cx.new.rows self.new }
        ensures result { RebuildsTerm meaning hooks Self.Error.from_gives clauses_shape
            cx.old self.old before rebuilt result cx.new self.new };

    /// Called at each binder, before its value.
    fn try_fold_binder(&mut self, cx: &mut Interner, vars: BoundVarKinds) -> Result<(), Self::Error>
        requires owned { owned cx.old.rows self.old }
        requires vars { HasVars cx.old.rows vars }
        ensures extends { Extends cx.old cx.new }
        ensures owned { owned cx.new.rows self.new }
        ensures result { EntersBinder meaning hooks Self.Error.from_gives cx.old self.old vars result cx.new self.new };

    /// Called at each binder, after its value.
    fn after_binder(&mut self, cx: &mut Interner, vars: BoundVarKinds) -> Result<(), Self::Error>
        requires owned { owned cx.old.rows self.old }
        requires vars { HasVars cx.old.rows vars }
        ensures extends { Extends cx.old cx.new }
        ensures owned { owned cx.new.rows self.new }
        ensures result { LeavesBinder meaning hooks Self.Error.from_gives cx.old self.old vars result cx.new self.new };

    // When terms and lists are added, the state's handles still name rows, and the state means the same.
    ghost still_owned: { (old new : List Row) (s : Self) → AddsTerms old new → owned old s → owned new s };

    ghost still_means: { (old new : List Row) (s : Self) → AddsTerms old new
        → owned old s
        → meaning new s ≡ meaning old s };
}
