//! The texts of terms, which are close to the compiler's debug output.

ghost use Rattle.std.specs.Prelude.{
  ◌≡◌,
  ◌<◌,
  [],
  ◌∷◌,
  ◌++◌,
  codes,
  decimal,
  string_bytes,
  IfOk,
  OnErr,
  OnOk,
  Some,
};
ghost use Rattle.tt_kinds.specs.Kinds.{child_shapes, kind_shape, handle_shape, parts_shapes, region_shape};
ghost use Rattle.tt_kinds.specs.Bound.{var_kind};
ghost use Rattle.tt_kinds.specs.Shape.{AreParts, HasParts, IsNamedKind, fill, fill_all, name_of, rename_kind, vars_of};
ghost use Rattle.tt_kinds.specs.declared.table.Table.TheVariants.{Symbols, VarLists};
ghost use Rattle.tt_kinds.specs.Handle.{BoundVarKinds};
ghost use Rattle.tt_interner.specs.Owned.{IsPartBy, tree_by};
ghost use Rattle.tt_interner.specs.Rows.{meaning, size};
ghost use Rattle.tt_print.specs.Pieces.{
  ArePieces,
  OpensText,
  inner_child_work,
  inner_work,
  piece_text,
  pieces_text,
  place_text,
};
ghost use Rattle.tt_print.specs.Spelling.{
  IsNamedSubject,
  binder_text,
  head_of,
  rename_head,
  rename_subject,
  spelled_text,
  subject_of,
};
ghost use Rattle.tt_print.specs.Text.{
  Writes,
  bound_words,
  child_text,
  head_text,
  names,
  own_name,
  owner_name,
  owner_of,
  splat_words,
  subject_text,
  text,
  text_in,
  trait_text,
  variable_text,
  variables_text,
};
ghost use Rattle.tt_print.specs.declared.ir_print.layout.Style.{Style as Styles};

mod layout;
mod pieces;
mod spelling;
mod values;
mod words;

use itoa::Buffer;
use layout::{Place, Style, after_variables, before_variable};
use pieces::{Piece, Pieces, push_list, push_parts};
use smallvec::SmallVec;
use spelling::{
    Spelling, Subject, kind_spelling, region_spelling, variable_spelling, variable_title, worded,
};
use std::alloc::AllocError;
use tt_interner::{InternedList, InternedText, Interner};
use tt_kinds::handle::{
    ArgListRow, ClauseListRow, ConstListRow, ConstRow, ExistentialListRow, ExistentialRow,
    PatternListRow, PatternRow, PredicateRow, TypeListRow, TypeRow,
};
use tt_kinds::{
    AnyHandle, BoundVarKinds, BoundVariableKind, Child, Clause, DeclarationKind, DefId, GenericArg,
    GenericArgKind, Handle, Kind, Parts, Predicate, Region, Symbol, Term, TermKind,
};
use tt_visit::{IsWalked, TypeVisitable};
use words::bound_words;

// Appends the text.
fn write_text(out: &mut String, words: &str) -> Result<(), AllocError>
    ensures { Writes result (string_bytes out.old) (string_bytes out.new) words.now }
{
    out.push_str(words)
}

// Appends the number.
fn write_number(out: &mut String, number: u32) -> Result<(), AllocError>
    ensures { Writes result (string_bytes out.old) (string_bytes out.new) (decimal number) }
{
    out.push_str(Buffer::new().format(number))
}

// Appends the number of a place in a list.
fn write_count(out: &mut String, place: usize) -> Result<(), AllocError>
    ensures { Writes result (string_bytes out.old) (string_bytes out.new) (decimal place) }
{
    out.push_str(Buffer::new().format(place))
}

// Appends a value's bits, as a number.
fn write_bits(out: &mut String, bits: u128) -> Result<(), AllocError>
    ensures { Writes result (string_bytes out.old) (string_bytes out.new) (decimal bits) }
{
    out.push_str(Buffer::new().format(bits))
}

// Appends a word and a number.
fn write_marked(out: &mut String, mark: &str, number: u32) -> Result<(), AllocError>
    ensures { Writes result (string_bytes out.old) (string_bytes out.new) (mark.now ++ decimal number) }
{
    write_text(out, mark)?;
    write_number(out, number)
}

// Appends two numbers, with a dot between them.
fn write_pair(out: &mut String, first: u32, second: u32) -> Result<(), AllocError>
    ensures { Writes result (string_bytes out.old) (string_bytes out.new) (decimal first ++ (46 ∷ decimal second)) }
{
    write_number(out, first)?;
    write_marked(out, ".", second)
}

// Appends the words of a splatted argument, if there is one.
fn write_splat(out: &mut String, index: Option<u16>) -> Result<(), AllocError>
    ensures { Writes result (string_bytes out.old) (string_bytes out.new) (splat_words index) }
{
    match index {
        None => Ok(()),
        Some(index) => {
            write_marked(out, "splat(", index as u32)?;
            write_text(out, ") ")
        }
    }
}

// Appends the words of a calling convention, and of a splatted argument, if there is one.
fn write_convention(out: &mut String, words: &str, index: Option<u16>) -> Result<(), AllocError>
    ensures { Writes result (string_bytes out.old) (string_bytes out.new) (words.now ++ splat_words index) }
{
    write_text(out, words)?;
    write_splat(out, index)
}

// Appends the text of a symbol.
fn write_symbol(cx: &Interner, out: &mut String, name: Symbol) -> Result<(), AllocError>
    requires { name.number < size cx.now.rows Symbols }
    ensures { Writes result (string_bytes out.old) (string_bytes out.new) (name_of (meaning cx.now.rows) name.number) }
{
    cx.are_rows();
    write_text(out, name.as_str(cx))
}

// Appends a declaration's own name, or `#` and the id's number if the interner has no declaration of this id.
fn write_own_name(cx: &Interner, out: &mut String, id: DefId) -> Result<(), AllocError>
    ensures { Writes result (string_bytes out.old) (string_bytes out.new) (own_name cx.now.rows id.number) }
{
    if cx.owns_def_id(id) {
        write_symbol(cx, out, cx.item_name(id))
    } else {
        write_marked(out, "#", id.number())
    }
}

// Appends a value's bits and its size, with a colon between them.
fn write_sized(out: &mut String, bits: u128, size: u8) -> Result<(), AllocError>
    ensures { Writes result (string_bytes out.old) (string_bytes out.new) (decimal bits ++ (58 ∷ decimal size)) }
{
    write_bits(out, bits)?;
    write_marked(out, ":", size as u32)
}

// Appends the name of a trait or an implementation and `::`, in front of the name of an item that belongs to it.
fn write_path(cx: &Interner, out: &mut String, id: DefId) -> Result<(), AllocError>
    ensures { Writes result (string_bytes out.old) (string_bytes out.new)
        (own_name cx.now.rows id.number ++ codes "::") }
{
    write_own_name(cx, out, id)?;
    write_text(out, "::")
}

// Appends the name of the trait or the implementation that a declaration of this kind belongs to, if there is one.
fn write_owner_of(cx: &Interner, out: &mut String, kind: &DeclarationKind) -> Result<(), AllocError>
    ensures { Writes result (string_bytes out.old) (string_bytes out.new) (owner_of cx.now.rows kind.now) }
{
    match kind {
        DeclarationKind::AssocTy(id) => write_path(cx, out, DefId::from_number(id.number())),
        DeclarationKind::Inherent(id) => write_path(cx, out, DefId::from_number(id.number())),
        _ => Ok(()),
    }
}

// Appends the name of the trait or the implementation that a declaration belongs to, if there is one and the interner
// has the declaration.
fn write_owner(cx: &Interner, out: &mut String, id: DefId) -> Result<(), AllocError>
    ensures { Writes result (string_bytes out.old) (string_bytes out.new) (owner_name cx.now.rows id.number) }
{
    if cx.owns_def_id(id) {
        write_owner_of(cx, out, &cx.declaration(id).kind)
    } else {
        Ok(())
    }
}

// Appends the name of a declaration, after the name of the trait or the implementation that it belongs to, if there is
// one.
fn write_item(cx: &Interner, out: &mut String, id: DefId) -> Result<(), AllocError>
    ensures { Writes result (string_bytes out.old) (string_bytes out.new) (names cx.now.rows id.number) }
{
    write_owner(cx, out, id)?;
    write_own_name(cx, out, id)
}

// Appends the part of a term's data that is written.
fn write_subject(cx: &Interner, out: &mut String, subject: &Subject) -> Result<(), AllocError>
    requires { IsNamedSubject (size cx.now.rows) (subject_of subject.now) }
    ensures { Writes result (string_bytes out.old) (string_bytes out.new)
        (subject_text
        (names cx.now.rows)
        (rename_subject (name_of (meaning cx.now.rows)) (subject_of subject.now))) }
{
    match subject {
        Subject::Nothing => Ok(()),
        Subject::Words(words) => write_text(out, *words),
        Subject::Convention(words, index) => write_convention(out, *words, *index),
        Subject::Numbered(number) => write_number(out, *number),
        Subject::Counted(place) => write_count(out, *place),
        Subject::Paired(first, second) => write_pair(out, *first, *second),
        Subject::Sized(bits, size) => write_sized(out, *bits, *size),
        Subject::Item(id) => write_item(cx, out, *id),
        Subject::Called(name) => write_symbol(cx, out, *name),
    }
}

// Appends the text in front of a term's children.
fn write_head(cx: &Interner, out: &mut String, spelling: &Spelling) -> Result<(), AllocError>
    requires { IsNamedSubject (size cx.now.rows) (head_of spelling.now).subject }
    ensures { Writes result (string_bytes out.old) (string_bytes out.new)
        (head_text (names cx.now.rows) (rename_head (name_of (meaning cx.now.rows)) (head_of spelling.now))) }
{
    write_text(out, spelling.before)?;
    write_subject(cx, out, &spelling.subject)?;
    write_text(out, spelling.after)
}

// Appends the variable at this place in a binder's list.
fn write_variable(
    cx: &Interner,
    out: &mut String,
    place: usize,
    kind: &BoundVariableKind,
) -> Result<(), AllocError>
    requires { IsNamedKind (size cx.now.rows) (var_kind kind.now) }
    ensures { Writes result (string_bytes out.old) (string_bytes out.new)
        (variable_text
        (names cx.now.rows)
        place
        (rename_kind (name_of (meaning cx.now.rows)) (var_kind kind.now))) }
{
    let spelling = variable_spelling(place, kind);
    write_head(cx, out, &spelling)?;
    let title = variable_title(kind);
    write_head(cx, out, &title)
}

// Appends the variables of a binder.
fn write_variables(cx: &Interner, out: &mut String, vars: BoundVarKinds) -> Result<(), AllocError>
    requires { vars.number < size cx.now.rows VarLists }
    ensures { Writes result (string_bytes out.old) (string_bytes out.new)
        (variables_text (names cx.now.rows) 0 (vars_of (meaning cx.now.rows VarLists vars.number))) }
{
    cx.are_rows();
    let items = vars.as_slice(cx);
    let mut place = 0;
    'variables: while place < items.len() {
        write_text(out, before_variable(place))?;
        write_variable(cx, out, place, &items[place])?;
        place += 1;
    }
    write_text(out, after_variables(place))
}

// Appends the variables of a binder, if there is one.
fn write_binder(
    cx: &Interner,
    out: &mut String,
    vars: Option<BoundVarKinds>,
) -> Result<(), AllocError>
    requires { (list : BoundVarKinds) → vars ≡ Some list → list.number < size cx.now.rows VarLists }
    ensures { Writes result (string_bytes out.old) (string_bytes out.new)
        (binder_text (names cx.now.rows) (meaning cx.now.rows) vars) }
{
    match vars {
        None => Ok(()),
        Some(vars) => write_variables(cx, out, vars),
    }
}

// Appends a region.
fn write_region(cx: &Interner, out: &mut String, region: Region) -> Result<(), AllocError>
    requires { IsPartBy region_shape cx.now.rows region }
    ensures { (s : Styles) → Writes result (string_bytes out.old) (string_bytes out.new)
        (text_in (names cx.now.rows) s (tree_by region_shape cx.now.rows region)) }
{
    let spelling = region_spelling(&region.kind());
    write_head(cx, out, &spelling)
}

// Begins a stored term or list, in a term of this style: appends its head, and adds the pieces after it.
fn write_row(
    cx: &Interner,
    out: &mut String,
    pieces: &mut Pieces,
    style: Style,
    handle: AnyHandle,
) -> Result<(), AllocError>
    requires { IsPartBy handle_shape cx.now.rows handle }
    ensures { OpensText
        cx.now.rows
        result
        (string_bytes out.old)
        (string_bytes out.new)
        pieces.old.items
        pieces.new.items
        (text_in (names cx.now.rows) style (tree_by handle_shape cx.now.rows handle))
        (inner_work (tree_by handle_shape cx.now.rows handle)) }
{
    if handle.table.has_items() {
        push_list(cx, pieces, style, handle)
    } else {
        let kind = cx.node_kind(handle);
        write_kind(cx, out, pieces, &kind)
    }
}

// Begins the term of this kind: appends its binder and its head, and adds the pieces after them.
fn write_kind(
    cx: &Interner,
    out: &mut String,
    pieces: &mut Pieces,
    kind: &Kind,
) -> Result<(), AllocError>
    requires { HasParts (size cx.now.rows) (kind_shape kind.now) }
    ensures { (s : Styles) → OpensText
        cx.now.rows
        result
        (string_bytes out.old)
        (string_bytes out.new)
        pieces.old.items
        pieces.new.items
        (text_in (names cx.now.rows) s (tree_by kind_shape cx.now.rows kind.now))
        (inner_work (tree_by kind_shape cx.now.rows kind.now)) }
{
    write_binder(cx, out, kind.bound_vars())?;
    let spelling = kind_spelling(kind);
    write_head(cx, out, &spelling)?;
    let parts = kind.parts();
    push_parts(pieces, spelling.style, &parts)
}

// Appends the text of a bound between the self type and the trait's other arguments, if this is the place for it.
fn write_trait(cx: &Interner, out: &mut String, style: Style, here: bool) -> Result<(), AllocError>
    ensures { Writes result (string_bytes out.old) (string_bytes out.new) (trait_text (names cx.now.rows) style here) }
{
    match (style, here) {
        (Style::SelfFirst(constness, number), true) => {
            write_text(out, bound_words(constness))?;
            write_item(cx, out, DefId::from_number(number))
        }
        _ => Ok(()),
    }
}

// Appends the text at this place of a term of this style.
fn write_place(
    cx: &Interner,
    out: &mut String,
    style: Style,
    place: Place,
) -> Result<(), AllocError>
    ensures { Writes result (string_bytes out.old) (string_bytes out.new) (place_text (names cx.now.rows) style place) }
{
    match place {
        Place::Before { count, last } => {
            write_trait(cx, out, style, count == 1)?;
            write_text(out, style.before_child(count, last))
        }
        Place::After(count) => {
            write_trait(cx, out, style, count < 2)?;
            write_text(out, style.closing(count))
        }
    }
}

// Appends the text at the place of a piece, and begins its child.
fn write_piece(
    cx: &Interner,
    out: &mut String,
    pieces: &mut Pieces,
    piece: &Piece,
) -> Result<(), AllocError>
    requires { AreParts (size cx.now.rows) (child_shapes piece.now.child) }
    ensures { OpensText
        cx.now.rows
        result
        (string_bytes out.old)
        (string_bytes out.new)
        pieces.old.items
        pieces.new.items
        (piece_text cx.now.rows piece.now)
        (inner_child_work (fill_all (meaning cx.now.rows) (child_shapes piece.now.child))) }
{
    write_place(cx, out, piece.style, piece.place)?;
    match piece.child {
        Child::Absent => Ok(()),
        Child::Region(region) => write_region(cx, out, region),
        Child::Stored(handle) => write_row(cx, out, pieces, piece.style, handle),
    }
}

// Appends the texts of all pieces.
fn write_pieces(cx: &Interner, out: &mut String, pieces: &mut Pieces) -> Result<(), AllocError>
    requires { ArePieces cx.now.rows pieces.old.items }
    ensures { Writes result (string_bytes out.old) (string_bytes out.new) (pieces_text cx.now.rows pieces.old.items) }
{
    'write: loop {
        match pieces.pop() {
            None => return Ok(()),
            Some(piece) => write_piece(cx, out, pieces, &piece)?,
        }
    }
}

// Appends the head of this spelling, and the parts after it.
fn write_record(
    cx: &Interner,
    out: &mut String,
    spelling: &Spelling,
    parts: &Parts,
) -> Result<(), AllocError>
    requires named { IsNamedSubject (size cx.now.rows) (head_of spelling.now).subject }
    requires parts { AreParts (size cx.now.rows) (parts_shapes parts.now) }
    ensures { Writes result (string_bytes out.old) (string_bytes out.new)
        (spelled_text
        (names cx.now.rows)
        (meaning cx.now.rows)
        spelling.now
        (fill_all (meaning cx.now.rows) (parts_shapes parts.now))) }
{
    write_head(cx, out, spelling)?;
    let mut pieces: Pieces = SmallVec::new(cx.allocator());
    push_parts(&mut pieces, spelling.style, parts)?;
    write_pieces(cx, out, &mut pieces)
}

// Appends the text of a stored term of this kind.
fn write_stored(cx: &Interner, out: &mut String, kind: &Kind) -> Result<(), AllocError>
    requires { HasParts (size cx.now.rows) (kind_shape kind.now) }
    ensures { Writes result (string_bytes out.old) (string_bytes out.new)
        (text (names cx.now.rows) (tree_by kind_shape cx.now.rows kind.now)) }
{
    let mut rest: Pieces = SmallVec::new(cx.allocator());
    write_kind(cx, out, &mut rest, kind)?;
    write_pieces(cx, out, &mut rest)
}

// Appends the text of a stored term of this kind, or nothing if memory for it is refused.
fn print_kind(cx: &Interner, out: &mut String, kind: &Kind) -> Result<(), AllocError>
    requires { HasParts (size cx.now.rows) (kind_shape kind.now) }
    ensures ok { OnOk result (string_bytes out.new
        ≡ string_bytes out.old ++ text (names cx.now.rows) (tree_by kind_shape cx.now.rows kind.now)) }
    ensures err { OnErr result (string_bytes out.new ≡ string_bytes out.old) }
{
    let old = out.len();
    match write_stored(cx, out, kind) {
        Ok(()) => Ok(()),
        Err(e) => {
            out.truncate(old);
            Err(e)
        }
    }
}

// Appends the head of this spelling and the parts after it, or nothing if memory for them is refused.
fn print_record(
    cx: &Interner,
    out: &mut String,
    spelling: &Spelling,
    parts: &Parts,
) -> Result<(), AllocError>
    requires named { IsNamedSubject (size cx.now.rows) (head_of spelling.now).subject }
    requires parts { AreParts (size cx.now.rows) (parts_shapes parts.now) }
    ensures ok { OnOk result (string_bytes out.new
        ≡ string_bytes out.old
        ++ spelled_text
        (names cx.now.rows)
        (meaning cx.now.rows)
        spelling.now
        (fill_all (meaning cx.now.rows) (parts_shapes parts.now))) }
    ensures err { OnErr result (string_bytes out.new ≡ string_bytes out.old) }
{
    let start = out.len();
    match write_record(cx, out, spelling, parts) {
        Ok(()) => Ok(()),
        Err(e) => {
            out.truncate(start);
            Err(e)
        }
    }
}

// Appends a child by itself, or nothing if memory for it is refused.
fn print_child(cx: &Interner, out: &mut String, child: &Child) -> Result<(), AllocError>
    requires { AreParts (size cx.now.rows) (child_shapes child.now) }
    ensures ok { OnOk result (string_bytes out.new
        ≡ string_bytes out.old
        ++ child_text
        (names cx.now.rows)
        []
        Style.Joined
        (fill_all (meaning cx.now.rows) (child_shapes child.now))) }
    ensures err { OnErr result (string_bytes out.new ≡ string_bytes out.old) }
{
    let spelling = worded("", Style::Joined);
    print_record(cx, out, &spelling, &Parts::one(*child))
}

/// A value whose text can be written.
///
/// The text is close to the compiler's debug output: `&'^0.0 u32`, `fn(T) -> (u32, T)`, `dyn Iterator + 'static`.
///
/// - The result of a function pointer is always written, even `()`.
/// - A binder's variables are numbered. A constant's number has a `c` at its end, and a name comes after its number:
///   `for<'^0, ^1 T, ^2c> fn(^0.1) -> ()`. A binder without variables isn't written.
/// - An associated type comes after its trait: `Iterator::Item<T>`.
/// - Clauses are close to the bounds of a program: `T: Iterator`, `T: const Add<u32>`, `T: 'static`,
///   `Iterator::Item<T> == u32`. Other predicates are records: `WellFormed(T)`.
/// - A value is its bits, its size in bytes and its type: `4:8_usize`.
///
/// Texts are made to tell terms apart, but no contract promises that different terms have different texts. Names are
/// written as they are, so different items or parameters of one name have the same text. An auto trait of a trait
/// object has the same text as the same trait without arguments. These parts of terms aren't written:
///
/// - a parameter's index;
/// - the item of a late region parameter;
/// - the name of a bound variable or of a placeholder;
/// - the token of an error.
pub trait IrPrint: TypeVisitable {
    /// Appends the value's text to `out`. The value's handles have to be of this interner;
    /// `Owned::is_owned` tests it. An id that names no declaration of this interner is
    /// written as `#` and its number.
    ///
    /// A term may be as deep as memory allows. If memory is refused, `out` is unchanged.
    fn print(&self, cx: &Interner, out: &mut String) -> Result<(), AllocError>
        requires { IsPartBy Self.shape cx.now.rows self.now }
        ensures ok { OnOk result (string_bytes out.new
            ≡ string_bytes out.old
            ++ text (names cx.now.rows) (tree_by Self.shape cx.now.rows self.now)) }
        ensures err { OnErr result (string_bytes out.new ≡ string_bytes out.old) };

    /// Returns the value's text, as [`print`](IrPrint::print) appends it.
    final fn to_text(&self, cx: &Interner) -> Result<String, AllocError>
        requires { IsPartBy Self.shape cx.now.rows self.now }
        ensures { IfOk result (λ written. string_bytes written
            ≡ text (names cx.now.rows) (tree_by Self.shape cx.now.rows self.now)) }
    {
        let mut written = String::new(cx.allocator());
        self.print(cx, &mut written)?;
        Ok(written)
    }
}

/// A mark of the handles that are printed as their terms and lists are.
pub trait IsPrinted: IsWalked {}

impl IsPrinted for TypeRow {}

impl IsPrinted for ConstRow {}

impl IsPrinted for PatternRow {}

impl IsPrinted for PredicateRow {}

impl IsPrinted for ExistentialRow {}

impl IsPrinted for ClauseListRow {}

impl IsPrinted for TypeListRow {}

impl IsPrinted for ConstListRow {}

impl IsPrinted for ArgListRow {}

impl IsPrinted for PatternListRow {}

impl IsPrinted for ExistentialListRow {}

impl<K: IsPrinted> IrPrint for Handle<K> {
    #[tactic(auto, unfolding(tt_kinds::specs::Shape::fill, tt_kinds::specs::Shape::fill_all))]
    fn print(&self, cx: &Interner, out: &mut String) -> Result<(), AllocError> {
        print_child(cx, out, &self.child())
    }
}

impl IrPrint for Clause {
    #[tactic(auto, unfolding(tt_kinds::specs::Shape::fill, tt_kinds::specs::Shape::fill_all))]
    fn print(&self, cx: &Interner, out: &mut String) -> Result<(), AllocError> {
        Predicate::from_number(self.number()).print(cx, out)
    }
}

impl IrPrint for Region {
    #[tactic(auto, unfolding(tt_kinds::specs::Shape::fill, tt_kinds::specs::Shape::fill_all))]
    fn print(&self, cx: &Interner, out: &mut String) -> Result<(), AllocError> {
        print_child(cx, out, &Child::Region(*self))
    }
}

impl IrPrint for GenericArg {
    fn print(&self, cx: &Interner, out: &mut String) -> Result<(), AllocError> {
        match self.kind() {
            GenericArgKind::Lifetime(region) => region.print(cx, out),
            GenericArgKind::Type(ty) => ty.print(cx, out),
            GenericArgKind::Const(constant) => constant.print(cx, out),
        }
    }
}

impl IrPrint for Term {
    fn print(&self, cx: &Interner, out: &mut String) -> Result<(), AllocError> {
        match self.kind() {
            TermKind::Ty(ty) => ty.print(cx, out),
            TermKind::Const(constant) => constant.print(cx, out),
        }
    }
}
