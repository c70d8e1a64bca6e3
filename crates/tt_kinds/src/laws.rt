//! Laws of all trees and readings, and of signatures, for code that is built on top of terms. The functions do nothing:
//! each contract is a law.

ghost use Rattle.tt_kinds.specs.Laws.{
  PutsCompose,
  MovesCommute,
  MovesAddUp,
  MovesTellReadings,
  PutKeepsMatched,
  MoveKeepsMatched,
  PutLeavesNone,
  ReadingsTellTrees,
  MetPlacedAgain,
  InstancesRead,
  ShiftsRead,
  ShiftKeepsLow,
  ShiftByZero,
  PackedPartsAreRead,
  SplitIsJoined,
};

/// If each parameter has an argument, two replacements in turn are one replacement, by the first arguments with the
/// second replacement made in them.
pub fn replacements_compose()
    ensures { PutsCompose }
{}

/// A replacement followed by a move is the same as the move followed by a replacement by the moved arguments.
pub fn moves_commute_with_replacement()
    ensures { MovesCommute }
{}

/// Two moves in turn are one move by the sum.
pub fn moves_add_up()
    ensures { MovesAddUp }
{}

/// Readings are equal if the same move makes them equal.
pub fn moves_tell_readings()
    ensures { MovesTellReadings }
{}

/// If the variables of a reading and of the arguments match their binders' lists, so do the variables after the
/// replacement.
pub fn replacement_keeps_matched()
    ensures { PutKeepsMatched }
{}

/// If the variables of a reading match their binders' lists, so do the variables after a move.
pub fn move_keeps_matched()
    ensures { MoveKeepsMatched }
{}

/// If each parameter has an argument and no argument holds a parameter, a replacement leaves no parameter.
pub fn replacement_leaves_no_parameter()
    ensures { PutLeavesNone }
{}

/// Trees with equal readings are equal.
pub fn readings_tell_trees()
    ensures { ReadingsTellTrees }
{}

/// Placing again the regions that were met in a tree gives the tree.
pub fn met_regions_placed_again()
    ensures { MetPlacedAgain }
{}

/// An instantiated tree reads as its reading with the parameters replaced.
pub fn instances_read_as_replaced()
    ensures { InstancesRead }
{}

/// A shifted tree reads as its moved reading.
pub fn shifts_read_as_moved()
    ensures { ShiftsRead }
{}

/// A shift under some binders keeps a tree that reaches no further than these binders.
pub fn shift_keeps_low_trees()
    ensures { ShiftKeepsLow }
{}

/// A shift by 0 keeps each tree.
pub fn shift_by_zero_keeps_trees()
    ensures { ShiftByZero }
{}

/// Each part of a packed [`FnSigKind`](crate::FnSigKind) is read as it was packed.
pub fn packed_parts_are_read()
    ensures { PackedPartsAreRead }
{}

/// A signature that was split is joined again by [`Binder::with`](crate::binder::Binder::with).
pub fn split_signatures_are_joined()
    ensures { SplitIsJoined }
{}
