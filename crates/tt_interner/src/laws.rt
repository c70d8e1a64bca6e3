//! Laws of all rows that an interner may have, and so of its handles after any calls.

ghost use Rattle.tt_interner.specs.Alias.{JoinsTraitArgs};
ghost use Rattle.tt_interner.specs.Laws.{
  EqualTrees,
  KeepsTrees,
  KeepsRows,
  KeepsDeclarations,
  KeepsDefinitions,
};

/// Two handles of one table are equal exactly when their trees are.
pub fn equal_handles_for_equal_trees()
    ensures { EqualTrees }
{}

/// New rows leave the tree of each handle unchanged.
pub fn growth_keeps_trees()
    ensures { KeepsTrees }
{}

/// New rows leave each row under its number, so the kind, the items or the text of a row stays the same.
pub fn growth_keeps_rows()
    ensures { KeepsRows }
{}

/// New rows leave the declaration of each id unchanged.
pub fn growth_keeps_declarations()
    ensures { KeepsDeclarations }
{}

/// New rows leave the variants of each data type unchanged.
pub fn growth_keeps_definitions()
    ensures { KeepsDefinitions }
{}

/// The arguments of an alias's trait reference, followed by the alias's own arguments, are the alias's arguments,
/// whenever [`InternedAlias::trait_ref_and_own_args`](crate::InternedAlias::trait_ref_and_own_args) is not refused.
pub fn alias_args_are_joined()
    ensures { JoinsTraitArgs }
{}
