//! How terms are spelled: the text in front of their children, and the style of the children.

ghost use Rattle.std.specs.Prelude.{◌≡◌, [], codes};
ghost use Rattle.tt_kinds.specs.Bound.{depth, region_name, var_kind};
ghost use Rattle.tt_kinds.specs.FnSig.{abi_in, safety_in, splat_in};
ghost use Rattle.tt_kinds.specs.Kinds.{
  const_form,
  existential_form,
  kind_form,
  pattern_form,
  predicate_form,
  clause_form,
  region_shape,
  relabelled,
  ty_form,
  value_form,
};
ghost use Rattle.tt_kinds.specs.Kinds.{kind_sort};
ghost use Rattle.tt_kinds.specs.Label.{const_label, const_sort, ref_type, region_sort, type_label, type_sort};
ghost use Rattle.tt_print.specs.Text.{
  abi_words,
  bound_head,
  called,
  convention,
  infer_head,
  item,
  numbered,
  paired,
  pattern_head,
  pointer_head,
  pattern_style,
  record_head,
  record_style,
  region_name_head,
  relation_style,
  safety_word,
  subtype_head,
  region_title,
  ty_title,
  type_style,
  variable_head,
  variable_title,
  with_word,
  word,
};
ghost use Rattle.tt_print.specs.Spelling.{form_head, form_style, head_of, region_head, subject_of};

use super::layout::Style;
use super::words::{abi_words, float_name, int_name, safety_word, uint_name};
use tt_index::Mutability;
use tt_kinds::{
    AliasRelationDirection, BoundRegionKind, BoundTyKind, BoundVarIndexKind, BoundVariableKind,
    ClauseKind, ConstKind, DefId, ExistentialPredicate, FnSigKind, InferConst, InferTy, Kind,
    PatternKind, PredicateKind, RegionKind, Symbol, TyKind, ValTreeKind, ValueConst,
};

/// The part of a term's data that is written.
#[derive(Clone, Copy)]
pub(crate) enum Subject {
    /// Nothing.
    Nothing,
    /// Words.
    Words(&'static str),
    /// The words of a calling convention, and the index of a splatted argument, if there is one.
    Convention(&'static str, Option<u16>),
    /// A number.
    Numbered(u32),
    /// A place in a list.
    Counted(usize),
    /// Two numbers, with a dot between them.
    Paired(u32, u32),
    /// The bits of a value as a number, and its size in bytes, with a colon between them.
    Sized(u128, u8),
    /// The name of a declaration.
    Item(DefId),
    /// A name.
    Called(Symbol),
}

/// How a term is spelled.
#[derive(Clone, Copy)]
pub(crate) struct Spelling {
    /// The text that comes first.
    pub(crate) before: &'static str,
    /// The part of the term's data that is written.
    pub(crate) subject: Subject,
    /// The text after the subject, in front of the children.
    pub(crate) after: &'static str,
    /// The style of the children.
    pub(crate) style: Style,
}

// Returns the spelling that is a word alone.
fn alone(before: &'static str) -> Spelling
    ensures head { head_of result ≡ word before.now }
    ensures style { result.style ≡ Style.Joined }
{
    worded(before, Style::Joined)
}

/// Returns the spelling with a word, and children in the style.
pub(crate) fn worded(before: &'static str, style: Style) -> Spelling
    ensures head { head_of result ≡ word before.now }
    ensures style { result.style ≡ style }
{
    followed(before, Subject::Nothing, style)
}

// Returns the spelling with a word, the subject after the word, and children in the style.
fn followed(before: &'static str, subject: Subject, style: Style) -> Spelling
    ensures head { head_of result ≡ with_word before.now (subject_of subject) }
    ensures style { result.style ≡ style }
{
    Spelling {
        before,
        subject,
        after: "",
        style,
    }
}

/// Returns the spelling with a word, the name of the declaration of this number, and children in the style.
pub(crate) fn declared(before: &'static str, number: u32, style: Style) -> Spelling
    ensures head { head_of result ≡ with_word before.now (item number) }
    ensures style { result.style ≡ style }
{
    followed(before, Subject::Item(DefId::from_number(number)), style)
}

// Returns the spelling with a word, the name of the declaration of this number, and children in braces.
fn braced(before: &'static str, number: u32) -> Spelling
    ensures head { head_of result ≡ with_word before.now (item number) }
    ensures style { result.style ≡ Style.Braced }
{
    declared(before, number, Style::Braced)
}

// Returns the spelling that is a name alone.
fn named(name: Symbol) -> Spelling
    ensures head { head_of result ≡ with_word [] (called name.number) }
    ensures style { result.style ≡ Style.Joined }
{
    followed("", Subject::Called(name), Style::Joined)
}

// Returns the spelling that is a number between two words.
fn enclosed(before: &'static str, number: u32, after: &'static str) -> Spelling
    ensures head { head_of result ≡ record { before = before.now; subject = numbered number; after = after.now } }
    ensures style { result.style ≡ Style.Joined }
{
    Spelling {
        before,
        subject: Subject::Numbered(number),
        after,
        style: Style::Joined,
    }
}

// Returns the spelling that is a mark and two numbers, with a dot between the numbers.
fn marked(mark: &'static str, first: u32, second: u32) -> Spelling
    ensures head { head_of result ≡ with_word mark.now (paired first second) }
    ensures style { result.style ≡ Style.Joined }
{
    followed(mark, Subject::Paired(first, second), Style::Joined)
}

/// Returns the spelling of a function pointer, in front of its signature.
pub(crate) fn fn_spelling(kind: FnSigKind) -> Spelling
    ensures before { result.before.now ≡ safety_word (safety_in kind) }
    ensures subject { subject_of result.subject ≡ convention (abi_words (abi_in kind)) (splat_in kind) }
    ensures after { result.after.now ≡ codes "fn" }
    ensures style { result.style ≡ Style.Signature kind }
{
    Spelling {
        before: safety_word(kind.safety()),
        subject: Subject::Convention(abi_words(kind.abi()), kind.splat()),
        after: "fn",
        style: Style::Signature(kind),
    }
}

// Returns the spelling of a reference, in front of its region.
fn ref_spelling(mutability: Mutability) -> Spelling
    ensures head { head_of result ≡ word (codes "&") }
    ensures style { result.style ≡ type_style (ref_type mutability) }
{
    match mutability {
        Mutability::Not => worded("&", Style::Reference),
        Mutability::Mut => worded("&", Style::MutReference),
    }
}

// Returns the spelling of a raw pointer.
fn pointer_spelling(mutability: Mutability) -> Spelling
    ensures head { head_of result ≡ pointer_head mutability }
    ensures style { result.style ≡ Style.Joined }
{
    match mutability {
        Mutability::Not => alone("*const "),
        Mutability::Mut => alone("*mut "),
    }
}

// Returns the spelling of an inference variable.
fn infer_spelling(var: InferTy) -> Spelling
    ensures head { head_of result ≡ infer_head var }
    ensures style { result.style ≡ Style.Joined }
{
    match var {
        InferTy::TyVar(var) => enclosed("?", var.as_u32(), "t"),
        InferTy::IntVar(var) => enclosed("?", var.as_u32(), "i"),
        InferTy::FloatVar(var) => enclosed("?", var.as_u32(), "f"),
        InferTy::FreshTy(number) => enclosed("FreshTy(", number, ")"),
        InferTy::FreshIntTy(number) => enclosed("FreshIntTy(", number, ")"),
        InferTy::FreshFloatTy(number) => enclosed("FreshFloatTy(", number, ")"),
    }
}

// Returns the spelling of a constant, which is a mark, two numbers with a dot between them, and a `c`.
fn marked_const(mark: &'static str, first: u32, second: u32) -> Spelling
    ensures head { head_of result ≡ record { before = mark.now; subject = paired first second; after = codes "c" } }
    ensures style { result.style ≡ Style.Joined }
{
    Spelling {
        before: mark,
        subject: Subject::Paired(first, second),
        after: "c",
        style: Style::Joined,
    }
}

// Returns the spelling of a bound type, by its index and its place.
fn bound_spelling(index: BoundVarIndexKind, var: u32) -> Spelling
    ensures head { head_of result ≡ bound_head type_sort (depth index) var }
    ensures style { result.style ≡ Style.Joined }
{
    match index {
        BoundVarIndexKind::Bound(index) => marked("^", index.as_u32(), var),
        BoundVarIndexKind::Canonical => followed("^c.", Subject::Numbered(var), Style::Joined),
    }
}

// Returns the spelling of a bound constant, by its index and its place.
fn bound_const_spelling(index: BoundVarIndexKind, var: u32) -> Spelling
    ensures head { head_of result ≡ bound_head const_sort (depth index) var }
    ensures style { result.style ≡ Style.Joined }
{
    match index {
        BoundVarIndexKind::Bound(index) => marked_const("^", index.as_u32(), var),
        BoundVarIndexKind::Canonical => enclosed("^c.", var, "c"),
    }
}

// Returns the spelling of a bound region, by its index and its place.
fn bound_region_spelling(index: BoundVarIndexKind, var: u32) -> Spelling
    ensures head { head_of result ≡ bound_head region_sort (depth index) var }
    ensures style { result.style ≡ Style.Joined }
{
    match index {
        BoundVarIndexKind::Bound(index) => marked("'^", index.as_u32(), var),
        BoundVarIndexKind::Canonical => followed("'^c.", Subject::Numbered(var), Style::Joined),
    }
}

// Returns how a type is spelled.
fn ty_spelling(kind: &TyKind) -> Spelling
    ensures head { head_of result ≡ form_head type_sort (relabelled type_label (ty_form kind.now)) }
    ensures style { result.style ≡ form_style (relabelled type_label (ty_form kind.now)) }
{
    match kind {
        TyKind::Bool => alone("bool"),
        TyKind::Char => alone("char"),
        TyKind::Int(ty) => alone(int_name(*ty)),
        TyKind::Uint(ty) => alone(uint_name(*ty)),
        TyKind::Float(ty) => alone(float_name(*ty)),
        TyKind::Str => alone("str"),
        TyKind::Never => alone("!"),
        TyKind::Param(param) => named(param.name),
        TyKind::Bound(index, var) => bound_spelling(*index, var.var().as_u32()),
        TyKind::Placeholder(p) => marked("!", p.universe().as_u32(), p.var().as_u32()),
        TyKind::Infer(var) => infer_spelling(*var),
        TyKind::Error(_) => alone("{type error}"),
        TyKind::Ref(_, _, mutability) => ref_spelling(*mutability),
        TyKind::RawPtr(_, mutability) => pointer_spelling(*mutability),
        TyKind::Slice(_) | TyKind::Array(_, _) => worded("[", Style::Square),
        TyKind::Tuple(_) => worded("", Style::Tuple),
        TyKind::FnPtr(_, header) => fn_spelling(header.fn_sig_kind),
        TyKind::Pat(_, _) => worded("pattern_type!(", Style::Restricted),
        TyKind::UnsafeBinder(_) => alone("unsafe binder "),
        TyKind::Dynamic(_, _) => worded("dyn ", Style::Dynamic),
        TyKind::Foreign(id) => declared("", id.number(), Style::Joined),
        TyKind::Adt(id, _) => declared("", id.number(), Style::Generic),
        TyKind::FnDef(id, _) => declared("", id.number(), Style::Generic),
        TyKind::Closure(id, _) => braced("{closure ", id.number()),
        TyKind::CoroutineClosure(id, _) => braced("{coroutine closure ", id.number()),
        TyKind::Coroutine(id, _) => braced("{coroutine ", id.number()),
        TyKind::CoroutineWitness(id, _) => braced("{coroutine witness ", id.number()),
        TyKind::Alias(alias) => declared("", alias.kind.def_id().number(), Style::Generic),
    }
}

// Returns how a value is spelled, in front of its type.
fn value_spelling(value: &ValueConst) -> Spelling
    ensures head { head_of result
        ≡ form_head const_sort (relabelled const_label (value_form value.now.ty value.now.valtree.kind)) }
    ensures style { result.style
        ≡ form_style (relabelled const_label (value_form value.now.ty value.now.valtree.kind)) }
{
    match value.valtree.kind() {
        ValTreeKind::Leaf(scalar) => Spelling {
            before: "",
            subject: Subject::Sized(scalar.bits, scalar.size),
            after: "_",
            style: Style::Joined,
        },
        ValTreeKind::Branch(_) => worded("", Style::Branch),
    }
}

// Returns how a constant is spelled.
fn const_spelling(kind: &ConstKind) -> Spelling
    ensures head { head_of result ≡ form_head const_sort (relabelled const_label (const_form kind.now)) }
    ensures style { result.style ≡ form_style (relabelled const_label (const_form kind.now)) }
{
    match kind {
        ConstKind::Param(param) => named(param.name),
        ConstKind::Infer(InferConst::Var(var)) => enclosed("?", var.as_u32(), "c"),
        ConstKind::Infer(InferConst::Fresh(number)) => enclosed("Fresh(", *number, ")"),
        ConstKind::Bound(index, var) => bound_const_spelling(*index, var.var().as_u32()),
        ConstKind::Placeholder(p) => { marked_const("!", p.universe().as_u32(), p.var().as_u32()) }
        ConstKind::Unevaluated(constant) => declared("", constant.def.number(), Style::Generic),
        ConstKind::Value(value) => value_spelling(value),
        ConstKind::Error(_) => alone("{const error}"),
        ConstKind::Expr(e) => followed("{expr ", Subject::Numbered(e.tag), Style::Braced),
    }
}

/// Returns how a pattern is spelled.
pub(crate) fn pattern_spelling(kind: &PatternKind) -> Spelling
    ensures head { head_of result ≡ pattern_head (pattern_form kind.now).label }
    ensures style { result.style ≡ pattern_style (pattern_form kind.now).label }
{
    match kind {
        PatternKind::Range { .. } => worded("", Style::Range),
        PatternKind::Or(_) => worded("(", Style::OneOf),
        PatternKind::NotNull => alone("!null"),
    }
}

/// Returns how a clause is spelled.
pub(crate) fn clause_spelling(kind: &ClauseKind) -> Spelling
    ensures head { head_of result ≡ record_head Style.Joined (clause_form kind.now).label }
    ensures style { result.style ≡ record_style Style.Joined (clause_form kind.now).label }
{
    match kind {
        ClauseKind::Trait(p) => worded("", Style::Bound(None, p.trait_ref.def_id.number())),
        ClauseKind::RegionOutlives(_) | ClauseKind::TypeOutlives(_) => {
            worded("", Style::Outlives)
        }
        ClauseKind::Projection(p) => {
            declared("", p.projection_term.def_id.number(), Style::Equality)
        }
        ClauseKind::ConstArgHasType(_, _) => worded("ConstArgHasType(", Style::Record),
        ClauseKind::WellFormed(_) => worded("WellFormed(", Style::Record),
        ClauseKind::ConstEvaluatable(_) => worded("ConstEvaluatable(", Style::Record),
        ClauseKind::HostEffect(p) => worded(
            "",
            Style::Bound(Some(p.constness), p.trait_ref.def_id.number()),
        ),
        ClauseKind::UnstableFeature(name) => {
            followed("UnstableFeature(", Subject::Called(*name), Style::Record)
        }
    }
}

// Returns how a subtyping predicate is spelled, which says whether the first type is the expected one.
fn subtype_spelling(a_is_expected: bool) -> Spelling
    ensures head { head_of result ≡ subtype_head a_is_expected }
    ensures style { result.style ≡ Style.Record }
{
    if a_is_expected {
        worded("SubtypePredicate(a_is_expected: true, ", Style::Record)
    } else {
        worded("SubtypePredicate(a_is_expected: false, ", Style::Record)
    }
}

// Returns the style of two terms that may be aliases.
fn relation_style(direction: AliasRelationDirection) -> Style
    ensures { result ≡ relation_style direction }
{
    match direction {
        AliasRelationDirection::Equate => Style::Equated,
        AliasRelationDirection::Subtype => Style::Subtyped,
    }
}

/// Returns how a predicate is spelled.
pub(crate) fn predicate_spelling(kind: &PredicateKind) -> Spelling
    ensures head { head_of result ≡ record_head Style.Joined (predicate_form kind.now).label }
    ensures style { result.style ≡ record_style Style.Joined (predicate_form kind.now).label }
{
    match kind {
        PredicateKind::Clause(clause) => clause_spelling(clause),
        PredicateKind::DynCompatible(id) => declared("DynCompatible(", id.number(), Style::Record),
        PredicateKind::Subtype(p) => subtype_spelling(p.a_is_expected),
        PredicateKind::Coerce(_) => worded("CoercePredicate(", Style::Record),
        PredicateKind::ConstEquate(_, _) => worded("ConstEquate(", Style::Record),
        PredicateKind::Ambiguous => alone("Ambiguous"),
        PredicateKind::NormalizesTo(p) => {
            declared("NormalizesTo(", p.alias.def_id.number(), Style::Record)
        }
        PredicateKind::AliasRelate(_, _, direction) => {
            worded("AliasRelate(", relation_style(*direction))
        }
    }
}

/// Returns how an existential predicate is spelled.
pub(crate) fn existential_spelling(kind: &ExistentialPredicate) -> Spelling
    ensures head { head_of result ≡ record_head Style.Joined (existential_form kind.now).label }
    ensures style { result.style ≡ record_style Style.Joined (existential_form kind.now).label }
{
    match kind {
        ExistentialPredicate::Trait(p) => declared("", p.def_id.number(), Style::Generic),
        ExistentialPredicate::Projection(p) => declared("", p.def_id.number(), Style::Generic),
        ExistentialPredicate::AutoTrait(id) => declared("", id.number(), Style::Joined),
    }
}

/// Returns how a stored term is spelled.
pub(crate) fn kind_spelling(kind: &Kind) -> Spelling
    ensures head { head_of result ≡ form_head (kind_sort kind.now) (kind_form kind.now) }
    ensures style { result.style ≡ form_style (kind_form kind.now) }
{
    match kind {
        Kind::Ty(kind) => ty_spelling(kind),
        Kind::Const(kind) => const_spelling(kind),
        Kind::Pat(kind) => pattern_spelling(kind),
        Kind::Predicate(predicate) => predicate_spelling(predicate.as_ref().skip_binder()),
        Kind::Existential(predicate) => existential_spelling(predicate.as_ref().skip_binder()),
    }
}

// Returns how a region is spelled by its name.
fn region_name_spelling(kind: BoundRegionKind) -> Spelling
    ensures head { head_of result ≡ region_name_head (region_name kind) }
    ensures style { result.style ≡ Style.Joined }
{
    match kind {
        BoundRegionKind::Anon => alone("'_"),
        BoundRegionKind::NamedForPrinting(name) => named(name),
        BoundRegionKind::Named(id) => declared("", id.number(), Style::Joined),
        BoundRegionKind::ClosureEnv => alone("'{env}"),
    }
}

/// Returns how a region is spelled.
pub(crate) fn region_spelling(kind: &RegionKind) -> Spelling
    ensures { head_of result ≡ region_head (region_shape kind.now) }
{
    match kind {
        RegionKind::ReEarlyParam(param) => named(param.name),
        RegionKind::ReBound(index, var) => bound_region_spelling(*index, var.var().as_u32()),
        RegionKind::ReLateParam(param) => region_name_spelling(param.kind),
        RegionKind::ReStatic => alone("'static"),
        RegionKind::ReVar(var) => followed("'?", Subject::Numbered(var.as_u32()), Style::Joined),
        RegionKind::RePlaceholder(p) => marked("'!", p.universe().as_u32(), p.var().as_u32()),
        RegionKind::ReErased => alone("'{erased}"),
        RegionKind::ReError(_) => alone("'{region error}"),
    }
}

/// Returns how the variable at this place in a binder's list is spelled, without its name.
pub(crate) fn variable_spelling(place: usize, kind: &BoundVariableKind) -> Spelling
    ensures { head_of result ≡ variable_head place (var_kind kind.now) }
{
    match kind {
        BoundVariableKind::Region(_) => followed("'^", Subject::Counted(place), Style::Joined),
        BoundVariableKind::Ty(_) => followed("^", Subject::Counted(place), Style::Joined),
        BoundVariableKind::Const => Spelling {
            before: "^",
            subject: Subject::Counted(place),
            after: "c",
            style: Style::Joined,
        },
    }
}

// Returns how the name of a bound region is spelled, after its place in its binder's list.
fn region_title(kind: BoundRegionKind) -> Spelling
    ensures { head_of result ≡ region_title (region_name kind) }
{
    match kind {
        BoundRegionKind::Anon => alone(""),
        BoundRegionKind::NamedForPrinting(name) => {
            followed(" ", Subject::Called(name), Style::Joined)
        }
        BoundRegionKind::Named(id) => declared(" ", id.number(), Style::Joined),
        BoundRegionKind::ClosureEnv => alone(" '{env}"),
    }
}

// Returns how the name of a bound type is spelled, after its place in its binder's list.
fn ty_title(kind: BoundTyKind) -> Spelling
    ensures { head_of result ≡ ty_title kind }
{
    match kind {
        BoundTyKind::Anon => alone(""),
        BoundTyKind::Param(id) => declared(" ", id.number(), Style::Joined),
    }
}

/// Returns how the name of a binder's variable is spelled, after its place in the list.
pub(crate) fn variable_title(kind: &BoundVariableKind) -> Spelling
    ensures { head_of result ≡ variable_title (var_kind kind.now) }
{
    match kind {
        BoundVariableKind::Region(kind) => region_title(*kind),
        BoundVariableKind::Ty(kind) => ty_title(*kind),
        BoundVariableKind::Const => alone(""),
    }
}
