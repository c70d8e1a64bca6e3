//! The pieces of a text that are still to be written. They are on the heap, so that a term may be as deep as memory
//! allows.

ghost use Rattle.std.specs.Prelude.{◌≡◌, ◌≤◌, suc, ◌++◌, IsTrue, List as Items, OnOk};
ghost use Rattle.tt_kinds.specs.Kinds.{child_shapes, items_label, handle_shape, parts_shapes};
ghost use Rattle.tt_kinds.specs.Label.{Name};
ghost use Rattle.tt_kinds.specs.TermTable.{has_items};
ghost use Rattle.tt_kinds.specs.Shape.{AreParts, Meaning, fill_all};
ghost use Rattle.tt_kinds.specs.Tree.{count_trees};
ghost use Rattle.tt_interner.specs.Owned.{IsPartBy, tree_by};
ghost use Rattle.tt_interner.specs.Rows.{Row, meaning, size};
ghost use Rattle.tt_print.specs.Pieces.{AddsPieces, forest_pieces, inner_work};
ghost use Rattle.tt_print.specs.Text.{are_none, before_child, child_text, closing, names, style_in, text_in, texts};

use super::layout::{Place, Style};
use smallvec::SmallVec;
use std::alloc::AllocError;
use tt_interner::Interner;
use tt_kinds::{AnyHandle, Child, Parts, TermTable};

/// The text at a place of a term, and the child after this text, if there is one.
#[derive(Clone, Copy)]
pub(crate) struct Piece {
    /// The style of the term.
    pub(crate) style: Style,
    /// The place in the text of the term's children.
    pub(crate) place: Place,
    /// The child after the text at the place, or `Absent`.
    pub(crate) child: Child,
}

/// The pieces that are still to be written, the next one last. A small term needs no allocation.
pub(crate) type Pieces = SmallVec<Piece, 8>;

// A small vector keeps the default in its unused places.
impl Default for Piece {
    fn default() -> Piece {
        Piece {
            style: Style::Joined,
            place: Place::After(0),
            child: Child::Absent,
        }
    }
}

// Adds the text after `count` children.
fn push_end(pieces: &mut Pieces, style: Style, count: usize) -> Result<(), AllocError>
    ensures { (rows : Items Row) → OnOk result (AddsPieces
        rows
        pieces.old.items
        pieces.new.items
        (closing (names rows) style count)
        1) }
{
    pieces.reserve(1)?;
    pieces.push_reserved(Piece {
        style,
        place: Place::After(count),
        child: Child::Absent,
    });
    Ok(())
}

// Adds the child after `count` others, which may be the last, with the text in front of it.
fn push_child(
    pieces: &mut Pieces,
    style: Style,
    child: &Child,
    count: usize,
    last: bool,
) -> Result<(), AllocError>
    ensures { (rows : Items Row) → AreParts (size rows) (child_shapes child.now)
        → OnOk result (AddsPieces
        rows
        pieces.old.items
        pieces.new.items
        (child_text
        (names rows)
        (before_child (names rows) style count last)
        style
        (fill_all (meaning rows) (child_shapes child.now)))
        (forest_pieces (fill_all (meaning rows) (child_shapes child.now)))) }
{
    if is_absent(child) {
        return Ok(());
    }
    pieces.reserve(1)?;
    pieces.push_reserved(Piece {
        style,
        place: Place::Before { count, last },
        child: *child,
    });
    Ok(())
}

/// Adds the parts of a term, and the text after them. What is written first is added last.
pub(crate) fn push_parts(pieces: &mut Pieces, style: Style, parts: &Parts) -> Result<(), AllocError>
    ensures { (rows : Items Row) → AreParts (size rows) (parts_shapes parts.now)
        → OnOk result (AddsPieces
        rows
        pieces.old.items
        pieces.new.items
        (texts (names rows) style 0 (fill_all (meaning rows) (parts_shapes parts.now))
        ++ closing (names rows) style (count_trees (fill_all (meaning rows) (parts_shapes parts.now))))
        (suc (forest_pieces (fill_all (meaning rows) (parts_shapes parts.now))))) }
{
    push_end(pieces, style, part_count(parts))?;
    let before = child_count(&parts.first);
    push_child(pieces, style, &parts.second, before, true)?;
    let no_second = is_absent(&parts.second);
    push_child(pieces, style, &parts.first, 0, no_second)
}

/// Adds the items of a stored list, in a term of this style, and the text after them. What is written first is added
/// last.
pub(crate) fn push_list(
    cx: &Interner,
    pieces: &mut Pieces,
    style: Style,
    list: AnyHandle,
) -> Result<(), AllocError>
    requires list { IsPartBy handle_shape cx.now.rows list }
    requires items { IsTrue (has_items list.table) }
    ensures { OnOk result (AddsPieces
        cx.now.rows
        pieces.old.items
        pieces.new.items
        (text_in (names cx.now.rows) style (tree_by handle_shape cx.now.rows list))
        (inner_work (tree_by handle_shape cx.now.rows list))) }
{
    let items = items_style(style, list);
    let count = cx.list_len(list);
    push_end(pieces, items, count)?;
    let mut index = count;
    'items: while index > 0 {
        index -= 1;
        let child = cx.list_child(list, index);
        push_child(pieces, items, &child, index, index + 1 == count)?;
    }
    Ok(())
}

// Returns the style of a list's items, in a term of this style.
fn items_style(style: Style, list: AnyHandle) -> Style
    ensures { result ≡ style_in style (items_label {N = Name} list.table) }
{
    match list.table {
        TermTable::ClauseLists => Style::Listed,
        _ => style.of_list(),
    }
}

// Returns whether the child is absent.
#[tactic(auto, unfolding(tt_kinds::specs::Shape::fill_all))]
fn is_absent(child: &Child) -> bool
    ensures { (f : Meaning) → result ≡ are_none (fill_all f (child_shapes child.now)) }
{
    match child {
        Child::Absent => true,
        Child::Region(_) | Child::Stored(_) => false,
    }
}

// Returns the number of children: one or none.
#[tactic(auto, unfolding(tt_kinds::specs::Shape::fill_all))]
fn child_count(child: &Child) -> usize
    ensures count { (f : Meaning) → result ≡ count_trees (fill_all f (child_shapes child.now)) }
    ensures few { result ≤ 1 }
{
    match child {
        Child::Absent => 0,
        Child::Region(_) | Child::Stored(_) => 1,
    }
}

// Returns the number of parts that aren't absent.
fn part_count(parts: &Parts) -> usize
    ensures { (f : Meaning) → result ≡ count_trees (fill_all f (parts_shapes parts.now)) }
{
    child_count(&parts.first) + child_count(&parts.second)
}
